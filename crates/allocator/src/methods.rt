// How registers are allotted.
ghost use Rattle.std.specs.Prelude.{◌≡◌};
ghost use Rattle.allocator.specs.Methods.{method_read};

use reader::refusals::Reason;

#[derive(Clone, Copy)]
pub enum Method {
    LeftEdge,
    Merging,
}

impl TryFrom<u8> for Method {
    type Error = Reason;

    ghost try_from_gives = { λ byte method. method ≡ method_read byte };

    fn try_from(byte: u8) -> Result<Method, Reason> {
        match byte {
            0 => Ok(Method::LeftEdge),
            1 => Ok(Method::Merging),
            _ => Err(Reason::Method),
        }
    }
}
