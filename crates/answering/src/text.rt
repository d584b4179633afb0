// Text that is put together: each function writes at its end, as far as there is room.
use arrayvec::ArrayVec;

pub(crate) type Text = ArrayVec<u8, 4096>;

fn characters(text: &mut Text, all: &[u8]) {
    for c in all {
        let _ = text.try_push(*c);
    }
}

// A space and the number.
pub(crate) fn number<T: Into<u64>>(text: &mut Text, x: T) {
    let mut digits = [0u8; 20];
    let k = io::decimal(x.into(), &mut digits);
    characters(text, b" ");
    characters(text, &digits[..k]);
}

// A number after another.
pub(crate) fn row<T: Copy + Into<u64>>(text: &mut Text, all: &[T]) {
    for x in all {
        number(text, *x);
    }
}

// A colon and the numbers.
pub(crate) fn numbers<T: Copy + Into<u64>>(text: &mut Text, all: &[T]) {
    characters(text, b" :");
    row(text, all);
}
