// Words by their place: read, and handed out into a slice that the caller lent.
ghost use Rattle.std.specs.Prelude.{◌≡◌, ◌≤◌, length, take, slice_index};
ghost use Rattle.ranges.specs.Below.{tabulate};

// The word i, 0 past the end.
pub(crate) fn word_at(words: &[u16], i: usize) -> u16
    ensures { result ≡ slice_index words.now i }
{
    words.get(i).copied().unwrap_or(0)
}

// A working copy of a register file.
pub(crate) fn file_of(registers: &[u16]) -> [u16; 80]
    ensures { result ≡ tabulate 80 (λ i. slice_index registers.now i) }
{
    std::array::from_fn(|i| word_at(registers, i))
}

// The first words go into the slice, as many as it has room for.
pub(crate) fn hand_out(words: &[u16], room: &mut [u16])
    requires { length room.old ≤ length words.now }
    ensures { room.new ≡ take (length room.old) words.now }
{
    room.copy_from_slice(&words[..room.len()]);
}
