// The rules 16 to 19, each as a test of two values: that they break it.
ghost use Rattle.std.specs.Prelude.{◌≡◌, ◌&&◌, eqb};
ghost use Rattle.ranges.specs.Below.{any_below};
ghost use Rattle.checker.specs.Bound.{reason_of, carried, shares_register, shares_unit, uses_clash, uses_part, uses_break, some_break, breaks_bound};

use super::bound::{Bound, Carried};
use reader::refusals::Reason;

// A rule, 16 to 19, by what breaks it.
#[derive(Clone, Copy)]
pub enum Rule {
    SharedRegister,
    SharedUnit,
    SharedBus,
    SplitConnection,
}

impl From<Rule> for Reason {
    ghost from_gives = { λ rule reason. reason ≡ reason_of rule };

    fn from(rule: Rule) -> Reason {
        match rule {
            Rule::SharedRegister => Reason::Registers,
            Rule::SharedUnit => Reason::Units,
            Rule::SharedBus => Reason::Buses,
            Rule::SplitConnection => Reason::Connections,
        }
    }
}

#[tactic(auto, unfolding(crate::specs::Bound::shares_register))]
fn shares_register(x: &Bound, y: &Bound) -> bool
    ensures { result ≡ shares_register x.now y.now }
{
    (x.place.register == y.place.register) & ((x.entry.birth <= y.last) & (y.entry.birth <= x.last))
}

#[tactic(auto, unfolding(crate::specs::Bound::shares_unit))]
fn shares_unit(x: &Bound, y: &Bound) -> bool
    ensures { result ≡ shares_unit x.now y.now }
{
    let one_class = x.entry.class == y.entry.class;
    x.entry.computes
        & y.entry.computes
        & (x.place.unit == y.place.unit)
        & !(one_class & !(x.entry.step == y.entry.step))
}

// Rule 18 of two uses; `one` says that they are one use.
#[tactic(auto, unfolding(crate::specs::Bound::uses_clash))]
fn clash(one: bool, a: &Carried, c: &Carried) -> bool
    ensures { result ≡ uses_clash one a.now c.now }
{
    match (a.used, c.used) {
        (Some(x), Some(y)) => !one & (x.step == y.step) & (a.bus == c.bus),
        _ => false,
    }
}

// Rule 19 of two uses.
#[tactic(auto, unfolding(crate::specs::Bound::uses_part))]
fn part(a: &Carried, c: &Carried) -> bool
    ensures { result ≡ uses_part a.now c.now }
{
    match (a.used, c.used) {
        (Some(x), Some(y)) => (x.source == y.source) & (x.sink == y.sink) & (a.bus != c.bus),
        _ => false,
    }
}

impl Rule {
    #[tactic(auto, unfolding(crate::specs::Bound::uses_break))]
    fn uses_break(self, one: bool, a: &Carried, c: &Carried) -> bool
        ensures { result ≡ uses_break self one a.now c.now }
    {
        match self {
            Rule::SharedBus => clash(one, a, c),
            _ => part(a, c),
        }
    }

    // One use, at i, against those of y.
    fn against(self, same: bool, i: usize, a: &Carried, y: &Bound) -> bool
        ensures { result ≡ any_below 3 (λ j. uses_break self (same && eqb i j) a.now (carried y.now j)) }
    {
        for (j, c) in y.uses.iter().enumerate() {
            if self.uses_break(same & (i == j), a, c) {
                return true;
            }
        }
        false
    }

    fn some_break(self, same: bool, x: &Bound, y: &Bound) -> bool
        ensures { result ≡ some_break self same x.now y.now }
    {
        for (i, a) in x.uses.iter().enumerate() {
            if self.against(same, i, a, y) {
                return true;
            }
        }
        false
    }

    // Of the rule 18 the earlier record may be the later one.
    #[tactic(auto, unfolding(crate::specs::Bound::breaks_bound))]
    pub(crate) fn breaks(self, v: usize, w: usize, x: &Bound, y: &Bound) -> bool
        ensures { result ≡ breaks_bound self v w x.now y.now }
    {
        match self {
            Rule::SharedRegister => (w < v) & shares_register(x, y),
            Rule::SharedUnit => (w < v) & shares_unit(x, y),
            Rule::SharedBus => (w <= v) & self.some_break(v == w, x, y),
            Rule::SplitConnection => (w < v) & self.some_break(v == w, x, y),
        }
    }
}
