// The lines of the listing, by value: fixed widths, so that no name begins another.
ghost use Rattle.std.specs.Prelude.{◌≡◌, ◌&&◌, eqb, leb};
ghost use Rattle.reader.specs.Kinds.{kind_number, known_number};
ghost use Rattle.listing.specs.Text.{digit as digit_of, two_digits, operation_text, unit_text, bus_text, line_text, counts_text, refused_text};

use reader::kinds::{Kind, Operation};
use reader::{Entry, Place};

fn digit(n: u8) -> u8
    ensures { result ≡ digit_of n }
{
    b'0' + n % 10
}

fn two(n: u8) -> [u8; 2]
    ensures { result ≡ two_digits n }
{
    [digit(n / 10), digit(n)]
}

#[tactic(auto, unfolding(crate::specs::Text::unit_text))]
fn unit(needed: bool, n: u8) -> [u8; 3]
    ensures { result ≡ unit_text needed n }
{
    if needed {
        return [b'U', digit(n / 10), digit(n)];
    }
    *b"---"
}

#[tactic(auto, unfolding(crate::specs::Text::bus_text))]
fn bus(needed: bool, n: u8) -> [u8; 4]
    ensures { result ≡ bus_text needed n }
{
    if needed {
        return [b'B', digit(n / 100), digit(n / 10), digit(n)];
    }
    *b"----"
}

// Three letters for what is done: those of an incoming value where no operation is.
#[tactic(auto, unfolding(crate::specs::Text::operation_text))]
fn word(e: Entry) -> [u8; 3]
    ensures { result ≡ operation_text (kind_number e.kind) (known_number e.operation) }
{
    if let Some(Kind::Incoming) = e.kind {
        return *b"inp";
    }
    match e.operation {
        None => *b"inp",
        Some(Operation::Move) => *b"mov",
        Some(Operation::Constant) => *b"con",
        Some(Operation::Add) => *b"add",
        Some(Operation::Subtract) => *b"sub",
        Some(Operation::Multiply) => *b"mul",
        Some(Operation::And) => *b"and",
        Some(Operation::Or) => *b"ior",
        Some(Operation::ExclusiveOr) => *b"xor",
    }
}

fn operates(e: Entry) -> bool
    ensures { result ≡ eqb (kind_number e.kind) 2 }
{
    matches!(e.kind, Some(Kind::Operation))
}

fn computes(e: Entry) -> bool
    ensures { result ≡ (eqb (kind_number e.kind) 2 && leb 3 (known_number e.operation)) }
{
    match e.operation {
        None | Some(Operation::Move) | Some(Operation::Constant) => false,
        _ => operates(e),
    }
}

// The line of the value v.
pub(crate) fn line(v: u8, e: Entry, p: Place) -> [u8; 37]
    ensures { result ≡ line_text v e.birth (kind_number e.kind) (known_number e.operation) e.name p.register p.unit p.left p.right p.result }
{
    let computes = computes(e);
    let value = two(v);
    let birth = two(e.birth);
    let word = word(e);
    let name = two(e.name);
    let store = two(p.register);
    let unit = unit(computes, p.unit);
    let left = bus(operates(e), p.left);
    let right = bus(computes, p.right);
    let result = bus(computes, p.result);
    [
        value[0], value[1], b' ', birth[0], birth[1], b' ', word[0], word[1], word[2], b' ', b'V',
        name[0], name[1], b' ', b'R', store[0], store[1], b' ', unit[0], unit[1], unit[2], b' ',
        left[0], left[1], left[2], left[3], b' ', right[0], right[1], right[2], right[3], b' ',
        result[0], result[1], result[2], result[3], b'\n',
    ]
}

#[tactic(auto, unfolding(crate::specs::Text::counts_text))]
pub(crate) fn counts(registers: u8, units: u8, buses: u8) -> [u8; 16]
    ensures { result ≡ counts_text registers units buses }
{
    let store = two(registers);
    let unit = two(units);
    let bus = two(buses);
    let hundreds = digit(buses / 100);
    [
        b'R', b' ', store[0], store[1], b' ', b'U', b' ', unit[0], unit[1], b' ', b'B', b' ',
        hundreds, bus[0], bus[1], b'\n',
    ]
}

// The line that a refusal gives: its number and its first record.
// Kept: the number is no `Reason`, since `refused_text` is promised of any number.
#[tactic(auto, unfolding(crate::specs::Text::refused_text))]
pub fn refused(number: u8, first: u8) -> [u8; 14]
    ensures { result ≡ refused_text number first }
{
    let number = two(number);
    let first = two(first);
    [
        b'r', b'e', b'f', b'u', b's', b'e', b'd', b' ', number[0], number[1], b' ', first[0],
        first[1], b'\n',
    ]
}
