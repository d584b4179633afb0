// The uses that operations make of buses, by value: who allots buses and who checks them take them from here.
// Document 01, "Binding records": each operation makes its uses in the order left, right, result.
ghost use Rattle.std.specs.Prelude.{◌≡◌, ◌<◌, get_or};
ghost use Rattle.reader.specs.Binding.{no_place};
ghost use Rattle.reader.specs.Uses.{left_use, right_use, result_use, use_of, uses_in};

use crate::kinds::{Kind, Operation};
use crate::{Entry, Place, Sink, Source, Table, Use};
use std::array;

fn register_of(places: &[Place; 80], v: u8) -> u8
    ensures { result ≡ (get_or places.now v no_place).register }
{
    match places.get(usize::from(v)) {
        Some(place) => place.register,
        None => 0,
    }
}

#[tactic(auto, unfolding(crate::specs::Uses::left_use))]
fn left_use(e: Entry, own: Place, from: u8) -> Use
    ensures { result ≡ left_use e own from }
{
    let operates = matches!(e.kind, Some(Kind::Operation));
    Use {
        made: operates,
        step: e.step,
        source: if operates && matches!(e.operation, Some(Operation::Constant)) {
            Source::Literal(e.literal)
        } else {
            Source::Register(from)
        },
        sink: if e.computes {
            Sink::Left(own.unit)
        } else {
            Sink::Register(own.register)
        },
    }
}

#[tactic(auto, unfolding(crate::specs::Uses::right_use))]
fn right_use(e: Entry, own: Place, from: u8) -> Use
    ensures { result ≡ right_use e own from }
{
    Use {
        made: e.computes,
        step: e.step,
        source: Source::Register(from),
        sink: Sink::Right(own.unit),
    }
}

#[tactic(auto, unfolding(crate::specs::Uses::result_use))]
fn result_use(e: Entry, own: Place) -> Use
    ensures { result ≡ result_use e own }
{
    Use {
        made: e.computes,
        step: e.step,
        source: Source::Unit(own.unit),
        sink: Sink::Register(own.register),
    }
}

// The use at p of the operation e, whose place is that of v.
// Kept: p is 0, 1 or 2 as in the place 3 * v + p of `uses_in`, which docs/PROMISES.md names.
#[tactic(auto, unfolding(crate::specs::Uses::one_use))]
fn one_use(e: Entry, places: &[Place; 80], v: usize, p: usize) -> Use
    requires { v < 80 }
    ensures { result ≡ use_of e places.now v p }
{
    let own = places[v];
    match p {
        0 => left_use(e, own, register_of(places, e.left)),
        1 => right_use(e, own, register_of(places, e.right)),
        _ => result_use(e, own),
    }
}

// The use at p of the value v stands at 3 * v + p; all 240 are given, those that are not made too.
pub fn uses(t: Table, places: [Place; 80]) -> [Use; 240]
    ensures { result ≡ uses_in t places }
{
    let entries = t.entries;
    array::from_fn(|k| one_use(entries[k / 3], &places, k / 3, k % 3))
}
