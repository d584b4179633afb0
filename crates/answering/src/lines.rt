// The words of a line, and the bytes that a word of hexadecimal digits holds.
ghost use Rattle.std.specs.Prelude.{◌<◌, ◌≤◌, length};

// A line without the line feed at its end.
pub(crate) fn unended(line: &[u8]) -> &[u8] {
    line.strip_suffix(b"\n").unwrap_or(line)
}

// The word k of a line, words being counted from 0 and parted by one space.
pub(crate) fn word(line: &[u8], k: usize) -> &[u8] {
    line.split(|c| *c == b' ').nth(k).unwrap_or(&[])
}

// What is expected of a line: what follows its `=`.
pub(crate) fn expected(line: &[u8]) -> &[u8] {
    line.splitn(2, |c| *c == b'=').nth(1).unwrap_or(&[])
}

fn digit(c: u8) -> u8
    ensures { result < 16 }
{
    match c {
        b'0'..=b'9' => c - b'0',
        b'a'..=b'f' => c - b'a' + 10,
        _ => 0,
    }
}

fn byte(high: u8, low: u8) -> u8 {
    16 * digit(high) + digit(low)
}

// The bytes that a word holds, at the front of the room, as far as there is room. Two digits are a byte, and one character stands between each eight bytes
// and the next.
// Kept: lent room; an ArrayVec for each word of each line takes twice the time, since `new` fills all its places one by one.
pub(crate) fn bytes<'a>(word: &[u8], room: &'a mut [u8]) -> &'a mut [u8]
    ensures { length result.now ≤ length room.old }
{
    let pairs = word.chunks(17).flat_map(|eight| eight.chunks_exact(2));
    let mut n = 0;
    for (place, pair) in room.iter_mut().zip(pairs) {
        if let [high, low] = pair {
            *place = byte(*high, *low);
            n += 1;
        }
    }
    &mut room[..n]
}

// The same as words: two bytes are a word, the high one first.
pub(crate) fn words<'a>(word: &[u8], room: &'a mut [u16]) -> &'a mut [u16]
    ensures { length result.now ≤ length room.old }
{
    let fours = word.chunks(17).flat_map(|eight| eight.chunks_exact(4));
    let mut n = 0;
    for (place, four) in room.iter_mut().zip(fours) {
        if let [a, b, c, d] = four {
            *place = u16::from_be_bytes([byte(*a, *b), byte(*c, *d)]);
            n += 1;
        }
    }
    &mut room[..n]
}
