//! What stands in front of a datagram's text where a server reads and writes it, and what is kept of it.
ghost use Rattle.std.specs.Prelude.{◌≡◌};

use crate::address::Addr;
use crate::octets::Octets;
use std::alloc::AllocError;

/// Who sent a datagram, for whom, and the address of the interface.
#[derive(Clone, Copy, Debug, PartialEq, Eq)]
pub struct Headers {
    pub remote: Addr,
    pub local: Addr,
    pub iface: u32,
}

/// What the last `hread` was told: on which name it heard a call, who sent the datagram, and for whom.
#[derive(Debug, Drop)]
pub struct Heard {
    pub name: Octets,
    pub remote: Addr,
    pub local: Addr,
}

impl Clone for Heard {
    ghost is_clone = { λ heard copy. copy ≡ heard };

    fn clone(&self) -> Result<Heard, AllocError> {
        Ok(Heard {
            name: self.name.clone()?,
            remote: self.remote,
            local: self.local,
        })
    }
}
