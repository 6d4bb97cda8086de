//! What is refused of a path, a mode or a name.
ghost use Rattle.std.specs.Prelude.{◌≡◌};
ghost use Rattle.net_tree.specs.Fault.{tree_fault_number};

use std::alloc::AllocError;

/// Why a path, a mode or a name is refused.
#[derive(Clone, Copy, Debug, PartialEq, Eq)]
pub enum TreeError {
    /// No file has the path.
    NoFile,
    /// The node may not be opened so.
    BadMode,
    /// The name is bound.
    BadFid,
    /// There was no memory.
    Memory,
}

impl TreeError {
    /// Its number in a reply, and 0 for want of memory.
    pub fn number(self) -> u32
        ensures { result ≡ tree_fault_number self }
    {
        match self {
            TreeError::NoFile => 1,
            TreeError::BadMode => 2,
            TreeError::BadFid => 3,
            TreeError::Memory => 0,
        }
    }
}

impl From<AllocError> for TreeError {
    ghost use Rattle.net_tree.specs.declared.fault.TreeError.{TreeError};

    ghost from_gives = { λ _ e. e ≡ TreeError.Memory };

    fn from(_: AllocError) -> TreeError {
        TreeError::Memory
    }
}
