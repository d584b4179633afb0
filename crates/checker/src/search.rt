// The search for the first pair of values that breaks a rule: the smallest later one, then the smallest earlier one.
// Kept: `as` narrows a number whose bound is proved; `try_from` would test it again.
ghost use Rattle.std.specs.Prelude.{◌≡◌, ◌≤◌, length};
ghost use Rattle.checker.specs.Rules.{first_pair};
ghost use Rattle.checker.specs.Bound.{breaks_in};

use super::bound::Bound;
use super::rules::Rule;

#[derive(Clone, Copy)]
pub struct Pair {
    pub later: u8,
    pub earlier: u8,
}

pub(crate) fn first_broken(rule: Rule, all: &[Bound]) -> Option<Pair>
    requires { length all.now ≤ 80 }
    ensures { result ≡ first_pair (length all.now) (breaks_in rule all.now) }
{
    // Kept: document 01 names this form, a loop left by its label that yields the pair; a `for` yields nothing.
    let mut v = 0;
    'search: loop {
        if all.len() <= v {
            break None;
        }
        for w in 0..v + 1 {
            if rule.breaks(v, w, &all[v], &all[w]) {
                break 'search Some(Pair {
                    later: v as u8,
                    earlier: w as u8,
                });
            }
        }
        v += 1;
    }
}
