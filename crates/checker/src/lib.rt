// The checker: a block and a binding come in as bytes, and one verdict goes out. It accepts every binding that keeps the rules 16 to 19
// and no other, and stands on the reader's promises alone.
#![tactic(auto)]

ghost use Rattle.std.specs.Prelude.{◌≡◌, ◌≤◌, length, Ok};
ghost use Rattle.checker.specs.Rules.{verdict};
ghost use Rattle.checker.specs.Numbers.{checked_as};
ghost use Rattle.checker.specs.Judgement.{acceptance_in, judgement};

use bound::Bound;
use counts::Resource;
use reader::refusals::Refusal;
use rules::Rule;

mod bound;
mod counts;
mod rules;
mod search;

// What an accepted binding takes: how many different registers, units and buses occur.
#[derive(Clone, Copy)]
pub struct Used {
    pub registers: u8,
    pub units: u8,
    pub buses: u8,
}

// The values keep the rules: what is counted of them.
#[tactic(auto, unfolding(crate::specs::Judgement::acceptance_in))]
fn accepted(all: &[Bound]) -> Used
    ensures { checked_as (Ok result) ≡ acceptance_in all.now }
{
    Used {
        registers: counts::different(Resource::Registers, all),
        units: counts::different(Resource::Units, all),
        buses: counts::different(Resource::Buses, all),
    }
}

// The rules in order, each over all pairs of the values.
fn judged(all: &[Bound]) -> Result<Used, Refusal>
    requires { length all.now ≤ 80 }
    ensures { checked_as result ≡ judgement all.now }
{
    let rules = [
        Rule::SharedRegister,
        Rule::SharedUnit,
        Rule::SharedBus,
        Rule::SplitConnection,
    ];
    for rule in rules {
        if let Some(pair) = search::first_broken(rule, all) {
            return Err(Refusal {
                reason: rule.into(),
                first: pair.later,
                second: pair.earlier,
            });
        }
    }
    Ok(accepted(all))
}

// The verdict on any bytes as a block and any bytes as a binding: the block's refusals, then the binding's, then the rules.
pub fn check(block: &[u8], binding: &[u8]) -> Result<Used, Refusal>
    ensures { checked_as result ≡ verdict block.now binding.now }
{
    reader::read(block)?;
    reader::form(block, binding)?;
    let t = reader::tables::table(block);
    let places = reader::places(binding);
    judged(&bound::gathered(&t, &places)[..t.values])
}
