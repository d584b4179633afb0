// Numbers in another width, and choices as values.
// Kept: docs/PROMISES.md names each function here with its theorem and its edits, and those stand; code that is written today says
// `usize::from`, `u16::from`, `max` and `if`.
#![tactic(auto)]

ghost use Rattle.std.specs.Prelude.{◌≡◌, cond, ◌<◌, ◌≤◌, max};

// A byte as a place.
pub fn wide(x: u8) -> usize
    ensures { (result ≡ x) × (result < 256) }
{
    usize::from(x)
}

// A byte as a word.
pub fn word(x: u8) -> u16
    ensures { result ≡ x }
{
    u16::from(x)
}

fn chosen<T: Drop>(t: bool, x: T, y: T) -> T
    ensures { result ≡ cond t x y }
{
    if t { x } else { y }
}

// x if t, else y.
pub fn choose(t: bool, x: u8, y: u8) -> u8
    ensures { result ≡ cond t x y }
{
    chosen(t, x, y)
}

// a if t, else b.
pub fn choose_word(t: bool, a: u16, b: u16) -> u16
    ensures { result ≡ cond t a b }
{
    chosen(t, a, b)
}

// 1 if t, else 0.
pub fn one_if(t: bool) -> usize
    ensures { (result ≡ cond t 1 0) × (result ≤ 1) }
{
    usize::from(t)
}

// The greater of two bytes.
pub fn greater(a: u8, b: u8) -> u8
    ensures { result ≡ max a b }
{
    a.max(b)
}
