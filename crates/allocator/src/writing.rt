// The bytes of a binding, and their way into the room that the caller lends.
// Kept: `as` narrows a number whose bound is proved; `try_from` would test it again.
ghost use Rattle.std.specs.Prelude.{◌≡◌, ◌++◌, ◌≤◌, length, drop};
ghost use Rattle.ranges.specs.Below.{rows};
ghost use Rattle.allocator.specs.Written.{record_of};

use arrayvec::ArrayVec;
use reader::Place;

// The records of the places.
pub(crate) fn records(places: &[Place], buses: [u8; 240]) -> ArrayVec<u8, 640>
    requires { length places.now ≤ 80 }
    ensures { result.items ≡ rows (length places.now) (record_of places.now buses) }
{
    let mut all = ArrayVec::new();
    for (v, place) in places.iter().enumerate() {
        let record = [
            v as u8,
            place.register,
            place.unit,
            buses[3 * v],
            buses[3 * v + 1],
            buses[3 * v + 2],
            0,
            0,
        ];
        all.try_extend_from_slice(&record).unwrap();
    }
    all
}

// The bytes go to the front of the room, and the rest of it stays.
pub(crate) fn hand_out(all: &[u8], room: &mut [u8])
    requires { length all.now ≤ length room.old }
    ensures { room.new ≡ (all.now ++ drop (length all.now) room.old) }
{
    room[..all.len()].copy_from_slice(all);
}
