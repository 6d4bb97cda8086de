//! Why bytes aren't read.
ghost use Rattle.std.specs.Prelude.{◌≡◌};
ghost use Rattle.ndb_dns.specs.declared.fault.DnsError.TheVariants as error;

use std::alloc::{AllocError, AllocFailed};

/// The first refusal, in the order in which refusals are told. All but want of memory say something of the bytes.
#[derive(Clone, Copy, Debug, PartialEq, Eq)]
pub enum DnsError {
    /// There was no memory.
    Memory,
    /// The header isn't whole.
    Short,
    /// It is a response, and not a query.
    Response,
    /// No name stands there, or not one question.
    Format,
}

impl From<AllocError> for DnsError {
    ghost from_gives = { λ _ e. e ≡ error.Memory };

    fn from(_e: AllocError) -> DnsError {
        DnsError::Memory
    }
}

impl<T: Drop> From<AllocFailed<T>> for DnsError {
    ghost from_gives = { λ _ e. e ≡ error.Memory };

    fn from(_e: AllocFailed<T>) -> DnsError {
        DnsError::Memory
    }
}
