// How many different registers, units and buses occur: the numbers that occur are marked, and the marks counted.
// Kept: `as` narrows a number whose bound is proved; `try_from` would test it again.
ghost use Rattle.std.specs.Prelude.{◌≡◌, false, ◌&&◌, ◌≤◌, eqb, get_or, length};
ghost use Rattle.ranges.specs.Below.{count_below};
ghost use Rattle.checker.specs.Counted.{Adds, occurs_as, numbers_of, different_in};

use super::bound::Bound;

// What is counted.
#[derive(Clone, Copy)]
pub enum Resource {
    Registers,
    Units,
    Buses,
}

impl Resource {
    // How many there are to choose from.
    fn numbers(self) -> usize
        ensures { result ≡ numbers_of self }
    {
        match self {
            Resource::Registers => 80,
            Resource::Units => 80,
            Resource::Buses => 240,
        }
    }
}

fn mark(marks: &mut [bool; 256], number: u8, occurs: bool)
    ensures { Adds marks.old (λ k. occurs && eqb number k) marks.new }
{
    marks[usize::from(number)] |= occurs;
}

// The register of x, its unit or its buses, as far as they are needed.
fn mark_value(what: Resource, marks: &mut [bool; 256], x: &Bound)
    ensures { Adds marks.old (occurs_as what x.now) marks.new }
{
    match what {
        Resource::Registers => mark(marks, x.place.register, true),
        Resource::Units => mark(marks, x.place.unit, x.entry.computes),
        Resource::Buses => {
            for u in &x.uses {
                mark(marks, u.bus, u.used.is_some());
            }
        }
    }
}

fn count(marks: &[bool]) -> u8
    requires { length marks.now ≤ 240 }
    ensures { result ≡ count_below (length marks.now) (λ k. get_or marks.now k false) }
{
    marks.iter().filter(|m| **m).count() as u8
}

// How many numbers occur in the values.
pub(crate) fn different(what: Resource, all: &[Bound]) -> u8
    ensures { result ≡ different_in what all.now }
{
    let mut marks = [false; 256];
    for x in all {
        mark_value(what, &mut marks, x);
    }
    count(&marks[..what.numbers()])
}
