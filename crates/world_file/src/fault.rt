//! Why a text is refused.
use std::alloc::AllocError;

/// Why a text was not read as a world.
#[derive(Clone, Copy, Debug, PartialEq, Eq, Drop)]
pub enum WorldError {
    /// Memory ran out.
    Memory,
    /// The first bad line, counted from 1, and its least cause.
    Bad { line: u64, cause: u32 },
}

impl From<AllocError> for WorldError {
    ghost use Rattle.std.specs.Prelude.{◌≡◌};
    ghost use Rattle.world_file.specs.declared.fault.WorldError.TheVariants as error;

    ghost from_gives = { λ _ e. e ≡ error.Memory };

    fn from(_error: AllocError) -> WorldError {
        WorldError::Memory
    }
}
