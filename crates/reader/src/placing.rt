// The judge of one place of a binding: it gets the place's eight bytes, the place, and what its value needs.
// Kept: `as` narrows a number whose bound is proved; `try_from` would test it again.
ghost use Rattle.std.specs.Prelude.{◌≡◌, ◌*◌, ◌≤◌, length};
ghost use Rattle.reader.specs.Block.{values};
ghost use Rattle.reader.specs.Binding.{field_right, fields_right, record_fault, place_of};
ghost use Rattle.reader.specs.Judging.{places_formed};
ghost use Rattle.reader.specs.Refusals.{fault_number, formed_as};

use crate::refusals::{Fault, Reason};
use crate::{Place, fields};

pub(crate) fn place_at(binding: &[u8], v: usize) -> Place
    ensures { result ≡ place_of binding.now v }
{
    Place {
        register: fields::field(binding, v, 1),
        unit: fields::field(binding, v, 2),
        left: fields::field(binding, v, 3),
        right: fields::field(binding, v, 4),
        result: fields::field(binding, v, 5),
    }
}

fn field_right(needed: bool, top: u8, x: u8) -> bool
    ensures { result ≡ field_right needed top x }
{
    if needed { x <= top } else { x == 255 }
}

fn fields_right(part: &[u8], operates: bool, calculates: bool) -> bool
    ensures { result ≡ fields_right operates calculates part.now 0 }
{
    let p = place_at(part, 0);
    field_right(true, 79, p.register)
        & field_right(calculates, 79, p.unit)
        & field_right(operates, 239, p.left)
        & field_right(calculates, 239, p.right)
        & field_right(calculates, 239, p.result)
        & (fields::field(part, 0, 6) == 0)
        & (fields::field(part, 0, 7) == 0)
}

// What is wrong with the place v.
fn judge(part: &[u8], v: usize, operates: bool, calculates: bool) -> Result<(), Reason>
    ensures { fault_number result ≡ record_fault operates calculates part.now 0 v }
{
    if usize::from(fields::field(part, 0, 0)) != v {
        return Err(Reason::PlaceNumber);
    }
    if fields_right(part, operates, calculates) {
        Ok(())
    } else {
        Err(Reason::PlaceField)
    }
}

// What is wrong with a binding that has a place for each of m values: the first place with a fault.
pub(crate) fn first_fault(block: &[u8], binding: &[u8], m: usize) -> Result<(), Fault>
    requires { (m ≡ values block.now) × (m ≤ 80) × (8 * m ≤ length binding.now) }
    ensures { formed_as result ≡ places_formed block.now binding.now }
{
    for v in 0..m {
        let start = 8 * v;
        let end = start + 8;
        let f = fields::record_of(block, v);
        if let Err(reason) = judge(&binding[start..end], v, f.kind == 2, f.reads_right) {
            return Err(Fault {
                reason,
                at: v as u8,
            });
        }
    }
    Ok(())
}
