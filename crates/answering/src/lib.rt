// Commands on blocks and bindings, a line each: `COMMAND NAME OPERANDS`, and where an answer is expected ` =` and the answer after it. Bytes and
// words are in hexadecimal, two and four digits each, with `/` between each eight bytes or four words and the next, and `-` for none. A lent slice is given
// as it stands before the call, and answered as it stands after it.
//
//     read NAME BLOCK                                     number, first record, second record, values, T
//     occupied NAME BLOCK                                 of each value its first and last boundary
//     form NAME BLOCK BINDING                             number and place
//     check NAME BLOCK BINDING                            number, later, earlier, registers, units, buses
//     bind NAME BLOCK METHOD ROOM                         number, first, second, bytes written; the bytes of the room
//     words NAME BLOCK INCOMING OUTGOING                  number, first, second, words written; the outgoing words
//     path NAME BLOCK BINDING INCOMING OUTGOING REGISTERS the same; the register file
//
// A command is known by its first letter.
#![tactic(auto)]

mod answers;
mod lines;
mod text;

use text::Text;

fn write(all: &[u8]) {
    io::write_all(1, all);
}

// The name and the answer; nothing for an empty line and one that starts with `#`.
fn print(line: &[u8], text: &mut Text) {
    if matches!(line.first(), None | Some(b'#')) {
        return;
    }
    answers::answer(line, text);
    write(lines::word(line, 1));
    write(text.as_slice());
    write(b"\n");
}

fn print_all(input: &[u8]) {
    let mut text = Text::new();
    for line in input.split_inclusive(|c| *c == b'\n') {
        print(lines::unended(line), &mut text);
    }
}

// Answers the lines in the first 131,072 bytes of standard input.
pub fn answer_input() {
    let mut input = [0u8; 131072];
    let n = io::read_full(0, &mut input);
    print_all(&input[..n]);
}

// Whether the line is answered as expected; if not, or if nothing is expected, its name is written.
fn agrees(line: &[u8], text: &mut Text) -> bool {
    answers::answer(line, text);
    let expected = lines::expected(line);
    if !expected.is_empty() && check::same(text.as_slice(), expected) {
        return true;
    }
    write(lines::word(line, 1));
    write(b" differs\n");
    false
}

fn compare(input: &[u8]) {
    let mut text = Text::new();
    let cases = input.split_inclusive(|c| *c == b'\n').count();
    let agreed = input
        .split_inclusive(|c| *c == b'\n')
        .filter(|line| agrees(lines::unended(line), &mut text))
        .count();
    // Kept: `as`, since no `From` goes from usize to u64.
    io::print_decimal(1, agreed as u64);
    write(b" of ");
    io::print_decimal(1, cases as u64);
    write(b" agreed\n");
}

// Compares the answers with the expected ones, in the first 131,072 bytes of standard input, and writes how many agreed.
pub fn compare_input() {
    let mut input = [0u8; 131072];
    let n = io::read_full(0, &mut input);
    compare(&input[..n]);
}
