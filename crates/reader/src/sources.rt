// Which value a reading gets: of the name's values that are born below the step, the latest.
// Kept: the bytes b are a premise of contracts: a ghost field may speak of fields alone, and none holds them.
ghost use Rattle.std.specs.Prelude.{◌≡◌, List, ℕ, ◌≤◌, ◌%◌, length};
ghost use Rattle.reader.specs.Block.{records, value_for};
ghost use Rattle.reader.specs.Sources.{named_in, names_in, Noted, later as later_of};

use crate::{Latest, Named, fields};

// The record i, if it makes a value.
#[tactic(auto, unfolding(crate::specs::Sources::named_in, crate::specs::Records::record_of))]
fn named(block: &[u8], i: usize) -> Option<Named>
    ensures { result ≡ named_in block.now i }
{
    let f = fields::record_of(block, i);
    if f.kind == 1 || f.kind == 2 {
        return Some(Named {
            name: f.name,
            birth: f.birth,
        });
    }
    None
}

// The names of a block of at most 80 whole records.
// Kept: a loop over the records, since `from_fn` would look for 80 names in a block of one record too.
pub(crate) fn names(block: &[u8]) -> [Option<Named>; 80]
    requires { (length block.now % 8 ≡ 0) × (records block.now ≤ 80) }
    ensures { result ≡ names_in block.now }
{
    let mut all = [None; 80];
    for i in 0..block.len() / 8 {
        let own = named(block, i);
        all[i] = own;
    }
    all
}

// The record i, own, where it is a value of the name n that is born below s and later than what is found.
fn later(found: Option<Latest>, i: usize, own: Option<Named>, s: u8, n: u8) -> Option<Latest>
    ensures { result ≡ later_of found i own s n }
{
    if let Some(own) = own {
        if own.name == n && own.birth < s && found.is_none_or(|found| found.birth < own.birth) {
            return Some(Latest {
                at: i,
                birth: own.birth,
            });
        }
    }
    found
}

// Of the records that are named, as many as there are where there is none.
pub(crate) fn value_for(names: &[Option<Named>], s: u8, n: u8) -> usize
    ensures { (result ≤ length names.now) × ((b : List ℕ) → Noted names.now b → result ≡ value_for b (length names.now) s n) }
{
    let mut found = None;
    for (i, own) in names.iter().enumerate() {
        found = later(found, i, *own, s, n);
    }
    match found {
        Some(latest) => latest.at,
        None => names.len(),
    }
}
