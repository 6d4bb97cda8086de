//! What can go wrong with a source or a sink.
ghost use Rattle.std.specs.Prelude.{◌≡◌};

use std::alloc::AllocError;

/// A read or a write failed, and the count of faults says so.
#[derive(Clone, Copy, Debug, PartialEq, Eq, Drop)]
pub struct Failed;

/// Why a source was not read to its end.
#[derive(Clone, Copy, Debug, PartialEq, Eq, Drop)]
pub enum TakeError {
    Memory,
    Failed,
    TooLarge,
}

impl From<AllocError> for TakeError {
    ghost use Rattle.outside.specs.declared.fault.TakeError.TheVariants as error;

    ghost from_gives = { λ _ e. e ≡ error.Memory };

    fn from(_error: AllocError) -> TakeError {
        TakeError::Memory
    }
}

impl From<Failed> for TakeError {
    ghost use Rattle.outside.specs.declared.fault.TakeError.TheVariants as error;

    ghost from_gives = { λ _ e. e ≡ error.Failed };

    fn from(_error: Failed) -> TakeError {
        TakeError::Failed
    }
}
