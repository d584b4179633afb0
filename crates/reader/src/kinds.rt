// What a record is, what an operation does, and the class of the unit that it asks for.
ghost use Rattle.std.specs.Prelude.{◌≡◌};
ghost use Rattle.reader.specs.Kinds.{kind_read, operation_read, class_read};

use crate::refusals::Reason;

#[derive(Clone, Copy)]
pub enum Kind {
    Incoming,
    Operation,
    Outgoing,
}

#[derive(Clone, Copy)]
pub enum Operation {
    Move,
    Constant,
    Add,
    Subtract,
    Multiply,
    And,
    Or,
    ExclusiveOr,
}

// A is addition and subtraction, M multiplication, L the logical operations.
#[derive(Clone, Copy, Default, PartialEq, Eq)]
pub enum Class {
    #[default]
    A,
    M,
    L,
}

impl TryFrom<u8> for Kind {
    type Error = Reason;

    ghost try_from_gives = { λ byte kind. kind ≡ kind_read byte };

    fn try_from(byte: u8) -> Result<Kind, Reason> {
        match byte {
            1 => Ok(Kind::Incoming),
            2 => Ok(Kind::Operation),
            3 => Ok(Kind::Outgoing),
            _ => Err(Reason::Kind),
        }
    }
}

impl TryFrom<u8> for Operation {
    type Error = Reason;

    ghost try_from_gives = { λ byte operation. operation ≡ operation_read byte };

    fn try_from(byte: u8) -> Result<Operation, Reason> {
        match byte {
            1 => Ok(Operation::Move),
            2 => Ok(Operation::Constant),
            3 => Ok(Operation::Add),
            4 => Ok(Operation::Subtract),
            5 => Ok(Operation::Multiply),
            6 => Ok(Operation::And),
            7 => Ok(Operation::Or),
            8 => Ok(Operation::ExclusiveOr),
            _ => Err(Reason::Range),
        }
    }
}

// The class of what the operation's byte asks for; no unit is asked for by a move or a constant.
#[tactic(auto, unfolding(crate::specs::Kinds::class_read))]
pub(crate) fn class_read(operation: u8) -> Class
    ensures { result ≡ class_read operation }
{
    match operation {
        0..=4 => Class::A,
        5 => Class::M,
        _ => Class::L,
    }
}
