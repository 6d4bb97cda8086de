//! Reading, writing and closing a file of another host.
ghost use Rattle.std.specs.Prelude.{◌≡◌, ◌≤◌, IfOk, length};
ghost use Rattle.net_base.specs.declared.world.Step.TheVariants as step;
ghost use Rattle.net_import.specs.Errands as spec;

use crate::messages;
use crate::remotes::{forget, remote_of};
use crate::talk::Talk;
use net_base::{Left, Octets, Remote, Reply};
use script_task::{Names, Request, Task};
use std::alloc::{AllocError, Global};

/// One message about a remote file: it is read, written or closed. A name that no remote file has is asked for in its place.
#[derive(Debug, Drop)]
pub enum Errand {
    Unbound { name: Octets, is_through: bool },
    Talks(Talk),
}

impl Clone for Errand {
    ghost is_clone = { λ errand copy. copy ≡ errand };

    fn clone(&self) -> Result<Errand, AllocError> {
        match self {
            Errand::Unbound { name, is_through } => Ok(Errand::Unbound {
                name: name.clone()?,
                is_through: *is_through,
            }),
            Errand::Talks(talk) => Ok(Errand::Talks(talk.clone()?)),
        }
    }
}

impl Errand {
    // No remote file has the name.
    fn unbound(alloc: Global, name: &[u8]) -> Result<Errand, AllocError>
        ensures { IfOk result (λ e. e ≡ spec.unbound name.now) }
    {
        Ok(Errand::Unbound {
            name: Octets::from_slice(alloc, name)?,
            is_through: false,
        })
    }

    // The message goes out over the call of a remote file.
    fn sends(remote: &Remote, message: Octets) -> Result<Errand, AllocError>
        ensures { IfOk result (λ e. e ≡ spec.send_errand remote.now message) }
    {
        Ok(Errand::Talks(Talk::new(remote.call.clone()?, message)))
    }

    /// Reads so many bytes of the file, where this is left by earlier steps.
    #[tactic(auto, using(crate::specs::ErrandLaws::rread_fresh))]
    pub fn read(alloc: Global, name: &[u8], count: u32, left: &Left) -> Result<Errand, AllocError>
        ensures value { IfOk result (λ t. t ≡ spec.read_errand name.now count left.now) }
        ensures stands { IfOk result (λ t. spec.Begins t left.now (step.Rread name.now count)) }
    {
        let errand = match remote_of(left, name) {
            None => Errand::unbound(alloc, name)?,
            Some(remote) => Errand::sends(remote, messages::read(alloc, remote.fid, count)?)?,
        };
        Ok(errand)
    }

    /// Writes the text to the file, where this is left by earlier steps.
    #[tactic(auto, using(crate::specs::ErrandLaws::rwrite_fresh))]
    pub fn write(alloc: Global, name: &[u8], text: &[u8], left: &Left) -> Result<Errand, AllocError>
        requires short { length text.now ≤ 488 }
        ensures value { IfOk result (λ t. t ≡ spec.write_errand name.now text.now left.now) }
        ensures stands { IfOk result (λ t. spec.Begins t left.now (step.Rwrite name.now text.now)) }
    {
        let errand = match remote_of(left, name) {
            None => Errand::unbound(alloc, name)?,
            Some(remote) => Errand::sends(remote, messages::write(alloc, remote.fid, text)?)?,
        };
        Ok(errand)
    }

    // Closes the file.
    fn close(alloc: Global, name: &[u8], left: &Left) -> Result<Errand, AllocError>
        ensures { IfOk result (λ t. t ≡ spec.close_errand name.now left.now) }
    {
        let errand = match remote_of(left, name) {
            None => Errand::unbound(alloc, name)?,
            Some(remote) => Errand::sends(remote, messages::clunk(alloc, remote.fid)?)?,
        };
        Ok(errand)
    }
}

impl Task for Errand {
    ghost use Rattle.net_import.specs.ErrandLaws as laws;

    ghost asks = { spec.asks };

    ghost after = { spec.after };

    ghost Stands = { spec.StandsFor };

    ghost asks_so = { laws.asks_so };

    ghost moves_so = { laws.moves_so };

    fn next(&self, _alloc: Global, _fids: &Names) -> Result<Option<Request>, AllocError> {
        match self {
            Errand::Unbound {
                is_through: true,
                ..
            } => Ok(None),
            Errand::Unbound { name, .. } => Ok(Some(Request::Unbound {
                name: name.clone()?,
            })),
            Errand::Talks(talk) => talk.next(),
        }
    }

    fn is_through(&self) -> bool {
        match self {
            Errand::Unbound { is_through, .. } => *is_through,
            Errand::Talks(talk) => talk.is_over(),
        }
    }

    fn told(&mut self, _alloc: Global, reply: Reply) -> Result<(), AllocError> {
        match self {
            Errand::Unbound { is_through, .. } => *is_through = true,
            Errand::Talks(talk) => talk.told(&reply),
        }
        Ok(())
    }
}

/// Closes a remote file.
#[derive(Debug, Drop)]
pub struct Rclose {
    name: Octets,
    errand: Errand,
}

impl Clone for Rclose {
    ghost is_clone = { λ task copy. copy ≡ task };

    fn clone(&self) -> Result<Rclose, AllocError> {
        Ok(Rclose {
            name: self.name.clone()?,
            errand: self.errand.clone()?,
        })
    }
}

impl Rclose {
    /// Closes the file, where this is left by earlier steps.
    #[tactic(auto, using(crate::specs::ErrandLaws::rclose_fresh))]
    pub fn new(alloc: Global, name: &[u8], left: &Left) -> Result<Rclose, AllocError>
        ensures value { IfOk result (λ t. t ≡ record {
          name = name.now;
          errand = spec.close_errand name.now left.now;
        }) }
        ensures stands { IfOk result (λ t. spec.Begins t.errand left.now (step.Rclose name.now)) }
    {
        let errand = Errand::close(alloc, name, left)?;
        Ok(Rclose {
            name: Octets::from_slice(alloc, name)?,
            errand,
        })
    }

    /// What it leaves after its last reply: the name is remote no longer, refused or not. It takes no memory.
    pub fn leave(&self, left: &mut Left)
        ensures { left.new ≡ spec.leaves self.now left.old }
    {
        forget(left, self.name.as_slice());
    }
}

impl Task for Rclose {
    ghost use Rattle.net_import.specs.ErrandLaws as laws;

    ghost asks = { λ t names. spec.asks t.errand names };

    ghost after = { λ t r. record t { errand = spec.after t.errand r } };

    ghost Stands = { λ h names t p. spec.StandsFor h names t.errand p };

    ghost asks_so = { λ h names t p stands. laws.asks_so h names t.errand p stands };

    ghost moves_so = { λ h names t p q r stands asked fit. laws.moves_so h names t.errand p q r stands asked fit };

    fn next(&self, alloc: Global, fids: &Names) -> Result<Option<Request>, AllocError> {
        self.errand.next(alloc, fids)
    }

    fn is_through(&self) -> bool {
        self.errand.is_through()
    }

    fn told(&mut self, alloc: Global, reply: Reply) -> Result<(), AllocError> {
        self.errand.told(alloc, reply)
    }
}
