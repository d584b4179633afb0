// The C interface: each function hands its slices on and packs the answer into one number.
#![tactic(auto)]

ghost use Rattle.std.specs.Prelude.{◌≡◌, length};
ghost use Rattle.reader.specs.Block.{reading};
ghost use Rattle.checker.specs.Rules.{verdict};
ghost use Rattle.allocator.specs.Answer.{allocated, room_after};
ghost use Rattle.runner.specs.Answers.{ran_block, outgoing_after_block, ran_datapath, outgoing_after_datapath, registers_after};
ghost use Rattle.reader.specs.Refusals.{number_of};
ghost use Rattle.runner.specs.Numbers.{ran_as};
ghost use Rattle.abi.specs.Packed.{packed as packed_bytes, packed_reading, packed_verdict, packed_ran, packed_allocated};

use reader::refusals::Refusal;

fn packed(a: u8, b: u8, c: u8, d: u8, e: u8, f: u8) -> u64
    ensures { result ≡ packed_bytes a b c d e f }
{
    u64::from_le_bytes([a, b, c, d, e, f, 0, 0])
}

// Bytes: number, first, second; whatever would be counted is 0.
fn refused(e: Refusal) -> u64
    ensures { result ≡ packed_bytes (number_of e.reason) e.first e.second 0 0 0 }
{
    packed(e.reason.number(), e.first, e.second, 0, 0, 0)
}

fn ran(answer: Result<u8, Refusal>) -> u64
    ensures { result ≡ packed_ran (ran_as answer) }
{
    match answer {
        Ok(words) => packed(0, 0, 0, 0, words, 0),
        Err(refusal) => refused(refusal),
    }
}

// Bytes: number, first, second, values, last step.
pub fn ngozilade_read(block: &[u8]) -> u64
    ensures { result ≡ packed_reading (reading block.now) }
{
    match reader::read(block) {
        Ok(readable) => packed(0, 0, 0, readable.values, readable.last_step, 0),
        Err(refusal) => refused(refusal),
    }
}

// Bytes: number, later, earlier, registers, units, buses.
pub fn ngozilade_check(block: &[u8], binding: &[u8]) -> u64
    ensures { result ≡ packed_verdict (verdict block.now binding.now) }
{
    match checker::check(block, binding) {
        Ok(used) => packed(0, 0, 0, used.registers, used.units, used.buses),
        Err(refusal) => refused(refusal),
    }
}

// Bytes: number, first, second; bytes written in the 16 bits from bit 32.
pub fn ngozilade_bind(block: &[u8], method: u8, out: &mut [u8]) -> u64
    ensures value { result ≡ packed_allocated (allocated block.now method (length out.old)) }
    ensures out_after { out.new ≡ room_after block.now method out.old }
{
    match allocator::bind(block, method, out) {
        Ok(bytes) => {
            let [low, high] = bytes.to_le_bytes();
            packed(0, 0, 0, 0, low, high)
        }
        Err(refusal) => refused(refusal),
    }
}

// Bytes: number, first, second; words written in byte 4.
pub fn ngozilade_run_block(block: &[u8], incoming: &[u16], outgoing: &mut [u16]) -> u64
    ensures value { result ≡ packed_ran (ran_block block.now incoming.now outgoing.old) }
    ensures outgoing_after { outgoing.new ≡ outgoing_after_block block.now incoming.now outgoing.old }
{
    ran(runner::run_block(block, incoming, outgoing))
}

// The same.
pub fn ngozilade_run_datapath(
    block: &[u8],
    binding: &[u8],
    incoming: &[u16],
    outgoing: &mut [u16],
    registers: &mut [u16],
) -> u64
    ensures value { result ≡ packed_ran (ran_datapath block.now binding.now incoming.now outgoing.old registers.old) }
    ensures outgoing_after { outgoing.new ≡ outgoing_after_datapath block.now binding.now incoming.now outgoing.old registers.old }
    ensures registers_after { registers.new ≡ registers_after block.now binding.now incoming.now outgoing.old registers.old }
{
    ran(runner::run_datapath(block, binding, incoming, outgoing, registers))
}
