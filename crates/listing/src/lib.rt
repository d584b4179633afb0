// The listing of a block: its binding by left edge as text.
// Kept: `as` narrows a number whose bound is proved; `try_from` would test it again.
// Kept: the bytes b and d are premises of contracts: a ghost field may speak of fields alone, and none holds them.
#![tactic(auto)]

ghost use Rattle.std.specs.Prelude.{List, ◌≡◌, ℕ, ◌*◌, ◌≤◌};
ghost use Rattle.arrayvec.specs.ArrayVec.{array_vec_len};
ghost use Rattle.ranges.specs.Below.{rows};
ghost use Rattle.reader.specs.Block.{values};
ghost use Rattle.reader.specs.Binding.{places_of};
ghost use Rattle.reader.specs.TableLaws.{Shows};
ghost use Rattle.listing.specs.Text.{line_of, listed, counts_text, refused_text};
ghost use Rattle.reader.specs.Refusals.{number_of};
ghost use Rattle.listing.specs.Listing.{in_full, bound_as, text_of, listing_of};

use arrayvec::ArrayVec;
use checker::Used;
use reader::refusals::Refusal;
use reader::{Place, Table};

pub mod lines;

// A text of at most 80 lines of 37 characters and one of 16: the characters from the front, the rest 0, and how many they are.
// Kept: an array with its length beside it, since `listing_of`, which docs/PROMISES.md names, says the bytes past the end too, and an ArrayVec is no Copy.
#[derive(Clone, Copy)]
pub struct Listing {
    pub text: [u8; 2976],
    pub length: usize,
}

// The lines of the values.
fn value_lines(t: Table, places: [Place; 80]) -> ArrayVec<u8, 2976>
    requires { t.values ≤ 80 }
    ensures long { array_vec_len result ≡ 37 * t.values }
    ensures lines { (b d : List ℕ) → Shows t b → places ≡ places_of d → result.items ≡ rows (values b) (line_of b d) }
{
    let mut text = ArrayVec::new();
    for v in 0..t.values {
        let line = lines::line(v as u8, t.entries[v], places[v]);
        text.try_extend_from_slice(&line).unwrap();
    }
    text
}

fn refusal(e: Refusal) -> ArrayVec<u8, 2976>
    ensures { result.items ≡ refused_text (number_of e.reason) e.first }
{
    let mut text = ArrayVec::new();
    let line = lines::refused(e.reason.number(), e.first);
    text.try_extend_from_slice(&line).unwrap();
    text
}

fn accepted(t: Table, places: [Place; 80], used: Used) -> ArrayVec<u8, 2976>
    requires { t.values ≤ 80 }
    ensures { (b d : List ℕ) → Shows t b → places ≡ places_of d → result.items ≡ listed b d (counts_text used.registers used.units used.buses) }
{
    let mut text = value_lines(t, places);
    let counts = lines::counts(used.registers, used.units, used.buses);
    text.try_extend_from_slice(&counts).unwrap();
    text
}

// The block bound by left edge, checked, and written out.
fn bound(block: &[u8]) -> Result<ArrayVec<u8, 2976>, Refusal>
    ensures { bound_as result ≡ text_of block.now }
{
    let mut own = [0u8; 640];
    let end = usize::from(allocator::bind(block, 0, &mut own)?);
    let used = checker::check(block, &own[0..end])?;
    let places = reader::places(&own[0..end]);
    Ok(accepted(reader::tables::table(block), places, used))
}

// The finished text, with its length beside it.
fn handed_on(text: ArrayVec<u8, 2976>) -> Listing
    ensures { result ≡ in_full text.items }
{
    let length = text.len();
    let mut all = [0; 2976];
    all[..length].copy_from_slice(text.as_slice());
    Listing { text: all, length }
}

// The listing of any bytes as a block, or the one line of its refusal.
#[tactic(auto, unfolding(crate::specs::Listing::listing_of))]
pub fn list(block: &[u8]) -> Listing
    ensures { result ≡ listing_of block.now }
{
    match bound(block) {
        Ok(text) => handed_on(text),
        Err(e) => handed_on(refusal(e)),
    }
}
