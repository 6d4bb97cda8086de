//! What a medium holds.
ghost use Rattle.std.specs.Prelude.{◌≡◌, ◌++◌, IfOk, option_to_list};
ghost use Rattle.medium.specs.OnMedium.{copies_now, copy_held};

use net_base::{Fate, Octets};
use std::alloc::AllocError;

/// The bytes of a packet on their way to a station.
#[derive(Clone, Debug, Drop)]
pub struct Frame {
    pub number: u64,
    pub to: u32,
    pub bytes: Octets,
}

/// The copies of a frame that was laid.
#[derive(Drop)]
pub struct Copies {
    pub first: Option<Frame>,
    pub second: Option<Frame>,
    pub held: Option<Frame>,
}

impl Frame {
    /// Its copies by its fate.
    pub fn copies(self, fate: Fate) -> Result<Copies, AllocError>
        ensures now { IfOk result (λ c. option_to_list c.first ++ option_to_list c.second ≡ copies_now fate self) }
        ensures held { IfOk result (λ c. c.held ≡ copy_held fate self) }
    {
        match fate {
            Fate::Deliver => Ok(Copies {
                first: Some(self),
                second: None,
                held: None,
            }),
            Fate::Lose => Ok(Copies {
                first: None,
                second: None,
                held: None,
            }),
            Fate::Twice => Ok(Copies {
                second: Some(self.clone()?),
                first: Some(self),
                held: None,
            }),
            Fate::Later => Ok(Copies {
                first: None,
                second: None,
                held: Some(self),
            }),
        }
    }
}
