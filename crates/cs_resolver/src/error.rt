//! What a query is refused for.
ghost use Rattle.std.specs.Prelude.{◌≡◌, Some};
ghost use Rattle.cs_resolver.specs.Errors.{error_number, error_text};
ghost use Rattle.cs_resolver.specs.declared.error.CsError.TheVariants.{Memory};

use std::alloc::{AllocError, AllocFailed};
use std::error::Error;
use std::fmt;

/// Why there is no answer. All but want of memory have a number and a text.
#[derive(Clone, Copy, Debug, PartialEq, Eq)]
pub enum CsError {
    /// There was no memory for the answer.
    Memory,
    /// The query isn't three non-empty parts with `!` between them.
    BadQuery,
    /// The host has no such net.
    NoNet,
    /// The host's name has no address.
    NoHost,
    /// The service has no port on any of the nets.
    NoService,
    /// Nothing is known of the attribute.
    NoValue,
}

impl CsError {
    /// The number that the error is told by, or 0 for want of memory.
    pub fn number(&self) -> u32
        ensures { result ≡ error_number self.now }
    {
        match self {
            CsError::Memory => 0,
            CsError::BadQuery => 1,
            CsError::NoNet => 2,
            CsError::NoHost => 3,
            CsError::NoService => 4,
            CsError::NoValue => 5,
        }
    }
}

impl fmt::Display for CsError {
    ghost output = { λ e. Some (error_text e) };

    fn fmt<W: fmt::Write>(&self, f: &mut fmt::Formatter<W>) -> fmt::Result {
        match self {
            CsError::Memory => write!(f, "out of memory"),
            CsError::BadQuery => write!(f, "bad query"),
            CsError::NoNet => write!(f, "no net"),
            CsError::NoHost => write!(f, "no host"),
            CsError::NoService => write!(f, "no service"),
            CsError::NoValue => write!(f, "no value"),
        }
    }
}

impl Error for CsError {}

impl From<AllocError> for CsError {
    ghost from_gives = { λ _ e. e ≡ Memory };

    fn from(_e: AllocError) -> CsError {
        CsError::Memory
    }
}

impl<T: Drop> From<AllocFailed<T>> for CsError {
    ghost from_gives = { λ _ e. e ≡ Memory };

    fn from(_e: AllocFailed<T>) -> CsError {
        CsError::Memory
    }
}
