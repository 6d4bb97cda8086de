//! What is wrong with the bytes of a session.
use std::alloc::AllocError;

/// Why there is no script.
#[derive(Clone, Copy, Debug, PartialEq, Eq, Drop)]
pub enum ExportError {
    /// Memory ran out.
    Memory,
    /// The bytes aren't whole T-messages, each no longer than was agreed before it.
    BadStream,
}

impl From<AllocError> for ExportError {
    ghost use Rattle.std.specs.Prelude.{◌≡◌};
    ghost use Rattle.session_script.specs.declared.fault.ExportError.TheVariants as error;

    ghost from_gives = { λ _ e. e ≡ error.Memory };

    fn from(_error: AllocError) -> ExportError {
        ExportError::Memory
    }
}
