// From theorem to code: demand 3 as a promise. A binding from anywhere is checked, and its datapath runs only if it is accepted; the outgoing words
// are then the block's own, which `sent-right` gives from the promises of the checker and the runner alone.
#![tactic(auto)]

ghost use Rattle.runner.specs.Numbers.{ran_as};
ghost use Rattle.evidence.specs.RunAccepted.{RunsAccepted};

use reader::refusals::Refusal;

// What the datapath of an accepted binding does: the block's outgoing words, and the register file at T. Any other binding is refused and nothing runs.
pub fn run_accepted(
    block: &[u8],
    binding: &[u8],
    incoming: &[u16],
    outgoing: &mut [u16],
    registers: &mut [u16],
) -> Result<u8, Refusal>
    ensures { RunsAccepted block.now binding.now incoming.now outgoing.old registers.old (ran_as result) outgoing.new registers.new }
{
    checker::check(block, binding)?;
    runner::run_datapath(block, binding, incoming, outgoing, registers)
}
