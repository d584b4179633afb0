// The runners: what a block computes, and what a bound datapath does, step by step.
// Kept: `as` narrows a number whose bound is proved; `try_from` would test it again.
#![tactic(auto)]

ghost use Rattle.std.specs.Prelude.{◌≡◌, ℕ, List, length};
ghost use Rattle.reader.specs.TableLaws.{Shows};
ghost use Rattle.runner.specs.Numbers.{Ran, ran_as, then_ran};
ghost use Rattle.runner.specs.Answers.{counted as counted_by, RunsBlock, RunsDatapath};

use datapath::Datapath;
use reader::Table;
use reader::refusals::{Reason, Refusal};

mod arithmetic;
mod block;
mod datapath;
mod filling;
mod words;

// 21 and 22: the words that were lent are as many as the records ask.
fn counted(t: Table, incoming: usize, outgoing: usize) -> Result<(), Reason>
    ensures { (b w o : List ℕ) (next : Ran) → Shows t b → length w ≡ incoming → length o ≡ outgoing → then_ran result next ≡ counted_by b w o next }
{
    if incoming != t.incoming {
        return Err(Reason::IncomingWords);
    }
    if outgoing != t.outgoing {
        return Err(Reason::OutgoingWords);
    }
    Ok(())
}

// What a block computes: the outgoing words, in record order, and how many they are.
pub fn run_block(block: &[u8], incoming: &[u16], outgoing: &mut [u16]) -> Result<u8, Refusal>
    ensures { RunsBlock block.now incoming.now outgoing.old (ran_as result) outgoing.new }
{
    reader::read(block)?;
    let table = reader::tables::table(block);
    counted(table, incoming.len(), outgoing.len())?;
    let sent = block::sent_of(table, block::words_of(table, incoming));
    words::hand_out(&sent, outgoing);
    Ok(table.outgoing as u8)
}

// What a bound datapath does: each outgoing word from its value's register at T, and the register file at T.
pub fn run_datapath(
    block: &[u8],
    binding: &[u8],
    incoming: &[u16],
    outgoing: &mut [u16],
    registers: &mut [u16],
) -> Result<u8, Refusal>
    ensures { RunsDatapath block.now binding.now incoming.now outgoing.old registers.old (ran_as result) outgoing.new registers.new }
{
    reader::read(block)?;
    reader::form(block, binding)?;
    let t = reader::tables::table(block);
    counted(t, incoming.len(), outgoing.len())?;
    if registers.len() != 80 {
        return Err(Reason::RegisterFile.into());
    }
    let path = Datapath {
        table: t,
        places: reader::places(binding),
    };
    let file = path.file_at_end(incoming, words::file_of(registers));
    let sent = block::sent_of(t, path.held_of(&file));
    words::hand_out(&sent, outgoing);
    words::hand_out(&file, registers);
    Ok(t.outgoing as u8)
}
