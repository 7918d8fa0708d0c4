// Logicals, the orders that relations go by, and the ends of an evaluation.
#![tactic(auto)]

pub mod logical;
pub mod order;

ghost use Rattle.std.specs.Prelude.{◌≡◌};
ghost use Rattle.values.specs.Meaning.{end_number, EndRead};

// Why an evaluation ends without a value.
#[derive(Clone, Copy, Debug, PartialEq, Eq)]
pub enum End {
    // more than 64 signed bits can hold, or than 63 bits or 255 bytes joined
    OutOfRange,
    ZeroDivisor,
    NegativePower,
    UnknownBoolean,
}

// Its number is the kind of its answer row.
impl From<End> for u8 {
    ghost from_gives = { λ e n. n ≡ end_number e };

    fn from(e: End) -> u8 {
        match e {
            End::OutOfRange => codes::ends::OUTSIDE,
            End::ZeroDivisor => codes::ends::ZERO_DIVISOR,
            End::NegativePower => codes::ends::NEGATIVE_POWER,
            End::UnknownBoolean => codes::ends::UNKNOWN_BOOLEAN,
        }
    }
}

// A number that is that of no end.
#[derive(Clone, Copy, Debug, PartialEq, Eq)]
pub struct NoEnd;

impl TryFrom<u8> for End {
    type Error = NoEnd;

    ghost try_from_gives = { λ n r. EndRead n r };

    fn try_from(n: u8) -> Result<End, NoEnd> {
        match n {
            codes::ends::OUTSIDE => Ok(End::OutOfRange),
            codes::ends::ZERO_DIVISOR => Ok(End::ZeroDivisor),
            codes::ends::NEGATIVE_POWER => Ok(End::NegativePower),
            codes::ends::UNKNOWN_BOOLEAN => Ok(End::UnknownBoolean),
            _ => Err(NoEnd),
        }
    }
}
