// The exports of the C interface: each hands its slices on to the function of `abi` that has its name, and promises what that one promises.
// Kept: twins of `abi`, since a static library alone exports C's names, and a library alone is what `evidence` can speak of.
#![tactic(auto)]

ghost use Rattle.std.specs.Prelude.{◌≡◌, length};
ghost use Rattle.reader.specs.Block.{reading};
ghost use Rattle.checker.specs.Rules.{verdict};
ghost use Rattle.allocator.specs.Answer.{allocated, room_after};
ghost use Rattle.runner.specs.Answers.{ran_block, outgoing_after_block, ran_datapath, outgoing_after_datapath, registers_after};
ghost use Rattle.abi.specs.Packed.{packed_reading, packed_verdict, packed_ran, packed_allocated};

#[unsafe(no_mangle)]
pub extern "C" fn ngozilade_read(block: &[u8]) -> u64
    ensures { result ≡ packed_reading (reading block.now) }
{
    abi::ngozilade_read(block)
}

#[unsafe(no_mangle)]
pub extern "C" fn ngozilade_check(block: &[u8], binding: &[u8]) -> u64
    ensures { result ≡ packed_verdict (verdict block.now binding.now) }
{
    abi::ngozilade_check(block, binding)
}

#[unsafe(no_mangle)]
pub extern "C" fn ngozilade_bind(block: &[u8], method: u8, out: &mut [u8]) -> u64
    ensures value { result ≡ packed_allocated (allocated block.now method (length out.old)) }
    ensures out_after { out.new ≡ room_after block.now method out.old }
{
    abi::ngozilade_bind(block, method, out)
}

#[unsafe(no_mangle)]
pub extern "C" fn ngozilade_run_block(block: &[u8], incoming: &[u16], outgoing: &mut [u16]) -> u64
    ensures value { result ≡ packed_ran (ran_block block.now incoming.now outgoing.old) }
    ensures outgoing_after { outgoing.new ≡ outgoing_after_block block.now incoming.now outgoing.old }
{
    abi::ngozilade_run_block(block, incoming, outgoing)
}

#[unsafe(no_mangle)]
pub extern "C" fn ngozilade_run_datapath(
    block: &[u8],
    binding: &[u8],
    incoming: &[u16],
    outgoing: &mut [u16],
    registers: &mut [u16],
) -> u64
    ensures value { result ≡ packed_ran (ran_datapath block.now binding.now incoming.now outgoing.old registers.old) }
    ensures outgoing_after { outgoing.new ≡ outgoing_after_datapath block.now binding.now incoming.now outgoing.old registers.old }
    ensures registers_after { registers.new ≡ registers_after block.now binding.now incoming.now outgoing.old registers.old }
{
    abi::ngozilade_run_datapath(block, binding, incoming, outgoing, registers)
}
