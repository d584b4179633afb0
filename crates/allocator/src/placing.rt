// The places of a binding before it has buses: each value's register and each operation's unit.
ghost use Rattle.std.specs.Prelude.{◌≡◌, ◌≤◌, length};
ghost use Rattle.ranges.specs.Below.{filled};
ghost use Rattle.reader.specs.Binding.{no_place};
ghost use Rattle.allocator.specs.Placing.{place_in, place_at};

use reader::{Entry, Place};

// What stands past the last value.
const NO_PLACE: Place = Place {
    register: 0,
    unit: 0,
    left: 0,
    right: 0,
    result: 0,
};

// The place of a value that has its register and, where it computes, a unit; no bus yet.
fn place(e: Entry, register: u8, unit: u8) -> Place
    ensures { result ≡ place_in e register unit }
{
    Place {
        register,
        unit: if e.computes { unit } else { 255 },
        left: 255,
        right: 255,
        result: 255,
    }
}

// The places of the values with registers and units.
pub(crate) fn places(entries: &[Entry], registers: [u8; 80], units: [u8; 240]) -> [Place; 80]
    requires { length entries.now ≤ 80 }
    ensures { result ≡ filled 80 (length entries.now) no_place (place_at entries.now registers units) }
{
    let mut places = [NO_PLACE; 80];
    let mut node: usize = 0;
    for (v, e) in entries.iter().enumerate() {
        places[v] = place(*e, registers[v], units[node]);
        node += usize::from(e.computes);
    }
    places
}
