// The answer to each command, as text.
use crate::lines;
use crate::text::{self, Text};
use reader::refusals::Refusal;

fn read(block: &[u8], text: &mut Text) {
    let all = match reader::read(block) {
        Ok(readable) => [0, 0, 0, readable.values, readable.last_step],
        Err(e) => [e.reason.number(), e.first, e.second, 0, 0],
    };
    text::row(text, &all);
}

fn occupied(block: &[u8], text: &mut Text) {
    let t = reader::tables::table(block);
    for (entry, last) in t.entries.iter().zip(&t.lasts).take(t.values) {
        text::number(text, entry.birth);
        text::number(text, *last);
    }
}

fn form(block: &[u8], line: &[u8], text: &mut Text) {
    let mut room = [0u8; 4096];
    let binding = lines::bytes(lines::word(line, 3), &mut room);
    let all = match reader::form(block, binding) {
        Ok(()) => [0, 0],
        Err(fault) => [fault.reason.number(), fault.at],
    };
    text::row(text, &all);
}

fn check(block: &[u8], line: &[u8], text: &mut Text) {
    let mut room = [0u8; 4096];
    let binding = lines::bytes(lines::word(line, 3), &mut room);
    let all = match checker::check(block, binding) {
        Ok(used) => [0, 0, 0, used.registers, used.units, used.buses],
        Err(e) => [e.reason.number(), e.first, e.second, 0, 0, 0],
    };
    text::row(text, &all);
}

fn bind(block: &[u8], line: &[u8], text: &mut Text) {
    let mut method = [0u8];
    lines::bytes(lines::word(line, 3), &mut method);
    let mut room = [0u8; 4096];
    let out = lines::bytes(lines::word(line, 4), &mut room);
    let (all, bytes) = match allocator::bind(block, method[0], out) {
        Ok(bytes) => ([0, 0, 0], bytes),
        Err(e) => ([e.reason.number(), e.first, e.second], 0),
    };
    text::row(text, &all);
    text::number(text, bytes);
    text::numbers(text, out);
}

fn ran(answer: Result<u8, Refusal>, text: &mut Text) {
    let all = match answer {
        Ok(words) => [0, 0, 0, words],
        Err(e) => [e.reason.number(), e.first, e.second, 0],
    };
    text::row(text, &all);
}

fn run_block(block: &[u8], line: &[u8], text: &mut Text) {
    let mut first = [0u16; 128];
    let incoming = lines::words(lines::word(line, 3), &mut first);
    let mut second = [0u16; 128];
    let outgoing = lines::words(lines::word(line, 4), &mut second);
    ran(runner::run_block(block, incoming, outgoing), text);
    text::numbers(text, outgoing);
}

fn run_path(block: &[u8], line: &[u8], text: &mut Text) {
    let mut room = [0u8; 4096];
    let binding = lines::bytes(lines::word(line, 3), &mut room);
    let mut first = [0u16; 128];
    let incoming = lines::words(lines::word(line, 4), &mut first);
    let mut second = [0u16; 128];
    let outgoing = lines::words(lines::word(line, 5), &mut second);
    let mut third = [0u16; 128];
    let registers = lines::words(lines::word(line, 6), &mut third);
    let answer = runner::run_datapath(block, binding, incoming, outgoing, registers);
    ran(answer, text);
    text::numbers(text, outgoing);
    text::numbers(text, registers);
}

// The text becomes the answer to a line, nothing where its command is unknown.
pub(crate) fn answer(line: &[u8], text: &mut Text) {
    text.clear();
    let mut room = [0u8; 4096];
    let block = lines::bytes(lines::word(line, 2), &mut room);
    // Kept: the command is a letter of a line of text, and any letter may stand there.
    match line.first() {
        Some(b'r') => read(block, text),
        Some(b'o') => occupied(block, text),
        Some(b'f') => form(block, line, text),
        Some(b'c') => check(block, line, text),
        Some(b'b') => bind(block, line, text),
        Some(b'w') => run_block(block, line, text),
        Some(b'p') => run_path(block, line, text),
        _ => (),
    }
}
