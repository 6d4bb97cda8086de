//! What steps of a script leave for later ones.
ghost use Rattle.std.specs.Prelude.{◌≡◌};
ghost use Rattle.net_base.specs.Remotes.{nothing_left};

use crate::octets::Octets;
use crate::sequence::Sequence;
use std::alloc::Global;

/// A file of another host that was opened over a call: its name, the name of the call, and its fid there.
#[derive(Debug, Drop)]
pub struct Remote {
    pub name: Octets,
    pub call: Octets,
    pub fid: u32,
}

pub type Remotes = Sequence<Remote>;

/// What earlier steps of a script leave for later ones.
#[derive(Debug, Drop)]
pub struct Left {
    pub remotes: Remotes,
}

impl Left {
    /// Nothing, which takes no memory yet.
    pub fn new(alloc: Global) -> Left
        ensures { result ≡ nothing_left }
    {
        Left {
            remotes: Sequence::new(alloc),
        }
    }
}
