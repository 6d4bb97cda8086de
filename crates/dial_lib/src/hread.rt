//! Hearing a call: its first datagram, and where that is from.
ghost use Rattle.std.specs.Prelude.{◌≡◌, IfOk};
ghost use Rattle.net_base.specs.declared.world.Step.TheVariants as step;
ghost use Rattle.dial_lib.specs.Hread as spec;

use crate::call::{CallPhase, asked};
use crate::told::address_told;
use net_base::{Addr, Heard, Octets, Reply};
use script_task::{Names, Request, Task};
use std::alloc::{AllocError, Global};

/// Takes a call where a conversation listens, and reads its first datagram. The call stays open.
#[derive(Debug, Drop)]
pub struct Hread {
    name: Octets,
    count: u32,
    phase: CallPhase,
    remote: Addr,
    local: Addr,
}

impl Hread {
    /// Takes a call at the conversation that the name is bound to, and reads so many bytes of its first datagram.
    #[tactic(auto, using(crate::specs::HreadLaws::fresh))]
    pub fn new(alloc: Global, name: &[u8], count: u32) -> Result<Hread, AllocError>
        ensures value { IfOk result (λ t. t ≡ spec.begun name.now count) }
        ensures stands { IfOk result (λ t. spec.Begins t (step.Hread name.now count)) }
    {
        Ok(Hread {
            name: Octets::from_slice(alloc, name)?,
            count,
            phase: CallPhase::Fresh,
            remote: Addr { ip: 0, port: 0 },
            local: Addr { ip: 0, port: 0 },
        })
    }

    // Reads the datagram.
    fn read(&self, alloc: Global) -> Result<Request, AllocError>
        ensures { IfOk result (λ q. q ≡ spec.reads_datagram self.now) }
    {
        Ok(Request::Hear {
            name: Octets::from_slice(alloc, b".d")?,
            count: self.count,
            heard: Heard {
                name: self.name.clone()?,
                remote: self.remote,
                local: self.local,
            },
        })
    }
}

impl Task for Hread {
    ghost use Rattle.dial_lib.specs.HreadLaws as laws;

    ghost asks = { spec.asks };

    ghost after = { spec.after };

    ghost Stands = { spec.StandsFor };

    ghost asks_so = { laws.asks_so };

    ghost moves_so = { laws.moves_so };

    fn next(&self, alloc: Global, fids: &Names) -> Result<Option<Request>, AllocError> {
        let read = self.read(alloc)?;
        asked(alloc, self.phase, &self.name, Some(read), fids)
    }

    fn is_through(&self) -> bool {
        self.phase == CallPhase::Through
    }

    fn told(&mut self, _alloc: Global, reply: Reply) -> Result<(), AllocError> {
        match self.phase {
            CallPhase::TellRemote => self.remote = address_told(&reply),
            CallPhase::TellLocal => self.local = address_told(&reply),
            _ => {}
        }
        self.phase = self.phase.after(CallPhase::Through, &reply);
        Ok(())
    }
}
