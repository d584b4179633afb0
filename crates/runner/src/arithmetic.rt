// What one operation gives of two words: modulo 65,536 for add, subtract and multiply, bit by bit for the rest. Both runners use it.
// Kept: `as` narrows a number whose bound is proved; `try_from` would test it again.
ghost use Rattle.std.specs.Prelude.{◌≡◌, ◌*◌, ◌%◌, ◌^◌};
ghost use Rattle.reader.specs.Kinds.{operation_number};
ghost use Rattle.runner.specs.BlockRun.{result as word_given};
ghost use Rattle.runner.specs.TableRuns.{result_by};

use reader::kinds::Operation;

// The low half of a product.
pub(crate) fn low_half(x: u16, y: u16) -> u16
    ensures { result ≡ x * y % 2 ^ 16 }
{
    (u32::from(x) * u32::from(y) % 65536) as u16
}

// What the operation gives of x on its left and y on its right; a move and a constant are not asked for here.
#[tactic(auto, unfolding(crate::specs::BlockRun::result))]
pub(crate) fn result_of(operation: Operation, x: u16, y: u16) -> u16
    ensures { result ≡ word_given (operation_number operation) x y }
{
    match operation {
        Operation::Add => x.wrapping_add(y),
        Operation::Subtract => x.wrapping_sub(y),
        Operation::Multiply => low_half(x, y),
        Operation::And => x & y,
        Operation::Or => x | y,
        _ => x ^ y,
    }
}

// The same of an operation that is known; where none is, the exclusive or, as `word_given` has it of every number past 7.
pub(crate) fn result_by(operation: Option<Operation>, x: u16, y: u16) -> u16
    ensures { result ≡ result_by operation x y }
{
    match operation {
        Some(o) => result_of(o, x, y),
        None => x ^ y,
    }
}
