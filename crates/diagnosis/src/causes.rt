//! The causes of a bad line.
ghost use Rattle.std.specs.Prelude.{◌≡◌, Some};
ghost use Rattle.diagnosis.specs.Causes.{cause_numbered, cause_phrase};

use std::fmt;

/// The cause for which a line is bad.
#[derive(Clone, Copy, Debug, PartialEq, Eq)]
pub enum Cause {
    NoTuple,
    OpenQuote,
    NoAttribute,
    AfterQuote,
    ZeroByte,
    PercentLine,
    FirstLine,
    UnknownWord,
    Argument,
    TakenName,
    UnknownName,
    TakenAddress,
    TooMany,
    Order,
    MissingPart,
    Mask,
    TakenNetwork,
    Gateway,
    Fates,
    Moment,
    NoEntry,
    Stamp,
    Messages,
    Other,
}

/// The cause with this number.
pub fn cause_numbered(number: u64) -> Cause
    ensures { result ≡ cause_numbered number }
{
    match number {
        1 => Cause::NoTuple,
        2 => Cause::OpenQuote,
        3 => Cause::NoAttribute,
        4 => Cause::AfterQuote,
        5 => Cause::ZeroByte,
        6 => Cause::PercentLine,
        11 => Cause::FirstLine,
        12 => Cause::UnknownWord,
        13 => Cause::Argument,
        14 => Cause::TakenName,
        15 => Cause::UnknownName,
        16 => Cause::TakenAddress,
        17 => Cause::TooMany,
        18 => Cause::Order,
        19 => Cause::MissingPart,
        20 => Cause::Mask,
        21 => Cause::TakenNetwork,
        22 => Cause::Gateway,
        23 => Cause::Fates,
        24 => Cause::Moment,
        41 => Cause::NoEntry,
        42 => Cause::Stamp,
        51 => Cause::Messages,
        _ => Cause::Other,
    }
}

impl fmt::Display for Cause {
    ghost output = { λ cause. Some (cause_phrase cause) };

    fn fmt<W: fmt::Write>(&self, f: &mut fmt::Formatter<W>) -> fmt::Result {
        match self {
            Cause::NoTuple => write!(f, "continuation line without a tuple before it"),
            Cause::OpenQuote => write!(f, "quoted value without a closing quote"),
            Cause::NoAttribute => write!(f, "word that begins with ="),
            Cause::AfterQuote => write!(f, "text directly after a closing quote"),
            Cause::ZeroByte => write!(f, "zero byte"),
            Cause::PercentLine => write!(f, "bad % line"),
            Cause::FirstLine => write!(
                f,
                "the first line of a world is not networld 1 or networld 2"
            ),
            Cause::UnknownWord => write!(f, "unknown word"),
            Cause::Argument => write!(f, "wrong argument"),
            Cause::TakenName => write!(f, "name that is used twice"),
            Cause::UnknownName => write!(f, "unknown name"),
            Cause::TakenAddress => write!(f, "address that is used twice"),
            Cause::TooMany => write!(f, "too many"),
            Cause::Order => write!(f, "line out of order"),
            Cause::MissingPart => write!(f, "missing part"),
            Cause::Mask => write!(f, "bad mask"),
            Cause::TakenNetwork => write!(f, "network that this host has twice"),
            Cause::Gateway => write!(f, "gateway on no network of this host"),
            Cause::Fates => write!(f, "fates or rates that do not fit together"),
            Cause::Moment => write!(f, "moment that is not after the one before it"),
            Cause::NoEntry => write!(f, "neither an entry nor a line of a summary"),
            Cause::Stamp => write!(f, "wrong stamp"),
            Cause::Messages => write!(f, "bytes of a session that are not whole 9P messages"),
            Cause::Other => write!(f, "bad line"),
        }
    }
}
