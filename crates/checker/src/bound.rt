// The values of a block side by side with their places in a binding, so that a pair of them can be judged by itself.
ghost use Rattle.std.specs.Prelude.{◌≡◌, ◌<◌};
ghost use Rattle.checker.specs.Bound.{bound_at, bound_in};

use reader::{Entry, Place, Table, Use};

// A use, made or not, and its bus.
#[derive(Clone, Copy)]
pub struct Carried {
    pub used: Option<Use>,
    pub bus: u8,
}

// One value: its record, its last boundary, its place in the binding, and its uses: left, right, result.
#[derive(Clone, Copy)]
pub struct Bound {
    pub entry: Entry,
    pub last: u8,
    pub place: Place,
    pub uses: [Carried; 3],
}

#[tactic(auto, unfolding(crate::specs::Bound::bound_at))]
fn bound_at(t: &Table, places: &[Place; 80], uses: &[Use; 240], v: usize) -> Bound
    requires { v < 80 }
    ensures { result ≡ bound_at t.now.entries t.now.lasts places.now uses.now v }
{
    let place = places[v];
    let left = Carried {
        used: uses[3 * v].if_made(),
        bus: place.left,
    };
    let right = Carried {
        used: uses[3 * v + 1].if_made(),
        bus: place.right,
    };
    let outcome = Carried {
        used: uses[3 * v + 2].if_made(),
        bus: place.result,
    };
    Bound {
        entry: t.entries[v],
        last: t.lasts[v],
        place,
        uses: [left, right, outcome],
    }
}

// All 80, of which as many count as the block has values.
pub(crate) fn gathered(t: &Table, places: &[Place; 80]) -> [Bound; 80]
    ensures { result ≡ bound_in t.now places.now }
{
    let uses = reader::uses::uses(*t, *places);
    std::array::from_fn(|v| bound_at(t, places, &uses, v))
}
