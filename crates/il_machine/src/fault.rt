//! Why a read or a write did nothing.
ghost use Rattle.std.specs.Prelude.{◌≡◌};

use net_base::Cause;
use std::alloc::AllocError;

/// Why a read or a write did nothing.
#[derive(Clone, Copy, Debug, PartialEq, Eq)]
pub enum HungupError {
    /// The end is hung up, for this cause.
    Hungup(Cause),
    /// There was no memory.
    Memory,
}

impl From<AllocError> for HungupError {
    ghost use Rattle.il_machine.specs.declared.fault.HungupError.{HungupError};

    ghost from_gives = { λ _ e. e ≡ HungupError.Memory };

    fn from(_: AllocError) -> HungupError {
        HungupError::Memory
    }
}
