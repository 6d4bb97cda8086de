//! Why a text isn't looked at.
ghost use Rattle.std.specs.Prelude.{◌≡◌};
ghost use Rattle.bundle_lint.specs.declared.fault.LintError.TheVariants as error;

use std::alloc::AllocError;

/// Why there are no notes.
#[derive(Clone, Copy, Debug, PartialEq, Eq, Drop)]
pub enum LintError {
    /// Memory ran out.
    Memory,
    /// The first bad line, counted from 1, and its least cause.
    Bad { line: u64, cause: u32 },
}

impl From<AllocError> for LintError {
    ghost from_gives = { λ _ e. e ≡ error.Memory };

    fn from(_error: AllocError) -> LintError {
        LintError::Memory
    }
}
