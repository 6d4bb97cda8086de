//! Why a text is refused.
ghost use Rattle.std.specs.Prelude.{◌≡◌};
ghost use Rattle.ndb_reader.specs.declared.fault.NdbError.TheVariants as error;

use std::alloc::AllocError;
use thiserror::Error;

/// Why a text was not read.
#[derive(Clone, Copy, Debug, PartialEq, Eq, Drop, Error)]
pub enum NdbError {
    /// Memory ran out.
    #[error("out of memory")]
    Memory,
    /// The first bad line, counted from 1, and its least cause.
    #[error("line {line} cause {cause}")]
    Bad { line: u64, cause: u32 },
}

impl From<AllocError> for NdbError {
    ghost from_gives = { λ _ e. e ≡ error.Memory };

    fn from(_error: AllocError) -> NdbError {
        NdbError::Memory
    }
}
