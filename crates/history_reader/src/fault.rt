//! Why a text is refused.
use std::alloc::AllocError;

/// Why a text was not read as a history.
#[derive(Clone, Copy, Debug, PartialEq, Eq, Drop)]
pub enum LineError {
    /// Memory ran out.
    Memory,
    /// The first bad line, counted from 1, and its cause: 41, or 42 where only the stamp is wrong.
    Bad { line: u64, cause: u32 },
}

impl From<AllocError> for LineError {
    ghost use Rattle.std.specs.Prelude.{◌≡◌};
    ghost use Rattle.history_reader.specs.declared.fault.LineError.TheVariants as error;

    ghost from_gives = { λ _ e. e ≡ error.Memory };

    fn from(_error: AllocError) -> LineError {
        LineError::Memory
    }
}
