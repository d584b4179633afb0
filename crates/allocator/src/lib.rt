// The allocator: it binds a block to registers, units and buses by 01's rules, and hands out the binding once the checker accepts it.
// Kept: `as` narrows a number whose bound is proved; `try_from` would test it again.
// Kept: the bytes b and d are premises of contracts: a ghost field may speak of fields alone, and none holds them.
#![tactic(auto)]

ghost use Rattle.std.specs.Prelude.{◌≡◌, List, ℕ, ◌≤◌};
ghost use Rattle.reader.specs.Block.{values};
ghost use Rattle.reader.specs.TableLaws.{Shows};
ghost use Rattle.reader.specs.UseLaws.{Placed};
ghost use Rattle.allocator.specs.Allocation.{placed as placed_by, binding_by};
ghost use Rattle.allocator.specs.Written.{Bused};
ghost use Rattle.allocator.specs.Methods.{method_number};
ghost use Rattle.allocator.specs.Numbers.{allocated_as};
ghost use Rattle.allocator.specs.Answer.{Binds};

use arrayvec::ArrayVec;
use methods::Method;
use reader::refusals::{Reason, Refusal};
use reader::{Place, Table, Use};
use std::array;

mod buses;
mod graphs;
mod left_edge;
mod merging;
mod methods;
mod placing;
mod rows;
mod sharing;
mod writing;

// The places with registers, by the method, and units.
fn placed(t: Table, method: Method) -> [Place; 80]
    requires { t.values ≤ 80 }
    ensures { (b : List ℕ) → Shows t b → Placed result b (placed_by b (method_number method)) }
{
    let all = sharing::lives(t.entries, t.lasts);
    let entries = &t.entries[..t.values];
    let registers = sharing::registers(&all[..t.values], method);
    let units = sharing::unit_numbers(entries);
    placing::places(entries, registers, units)
}

// The bus of each use, once registers and units are fixed.
fn bused(t: Table, places: [Place; 80]) -> [u8; 240]
    requires { t.values ≤ 80 }
    ensures { (b d : List ℕ) → Shows t b → Placed places b d → Bused result b d }
{
    let uses = reader::uses::uses(t, places);
    let made: [Option<Use>; 240] = array::from_fn(|k| uses[k].if_made());
    buses::buses(&made[..3 * t.values])
}

// The binding of the block that the table shows.
fn binding(t: Table, method: Method) -> ArrayVec<u8, 640>
    requires { t.values ≤ 80 }
    ensures { (b : List ℕ) → Shows t b → result.items ≡ binding_by (method_number method) b }
{
    let places = placed(t, method);
    let buses = bused(t, places);
    writing::records(&places[..t.values], buses)
}

// The binding of the block by the method, 0 left edge and 1 merging, goes to the front of out, and how many bytes it takes comes back; refused,
// out stays as it was.
pub fn bind(block: &[u8], method: u8, out: &mut [u8]) -> Result<u16, Refusal>
    ensures { Binds block.now method out.old (allocated_as result) out.new }
{
    let chosen = Method::try_from(method)?;
    reader::read(block)?;
    let t = reader::tables::table(block);
    let own = binding(t, chosen);
    if checker::check(block, own.as_slice()).is_err() {
        return Err(Reason::NotAccepted.into());
    }
    if out.len() < own.len() {
        return Err(Reason::Room.into());
    }
    writing::hand_out(own.as_slice(), out);
    Ok(own.len() as u16)
}
