//! Announcing an address.
ghost use Rattle.std.specs.Prelude.{◌≡◌, IfOk};
ghost use Rattle.net_base.specs.declared.world.Step.TheVariants as step;
ghost use Rattle.dial_lib.specs.Announce as spec;
ghost use Rattle.dial_lib.specs.Lines as lines;

use crate::address::query_of;
use crate::lines::{clone_path, text_to};
use crate::reply::lines_in;
use net_base::{Lines, Mode, Octets, Reply};
use script_task::{Names, Request, Task, is_accepted, is_opening};
use std::alloc::{AllocError, Global};

/// What an announce does next.
#[derive(Clone, Copy, Debug, PartialEq, Eq)]
pub enum AnnouncePhase {
    /// It asks for the lines of the address.
    Fresh,
    /// It opens the clone file of the first line.
    Open,
    /// It writes the address of that line.
    Write,
    /// It closes the file, whose announce was refused.
    Close,
    /// It is through.
    Through,
}

impl AnnouncePhase {
    // The phase after a reply.
    fn after(self, reply: &Reply) -> AnnouncePhase
        ensures { result ≡ spec.phase_after self reply.now }
    {
        match self {
            AnnouncePhase::Fresh => AnnouncePhase::Open,
            AnnouncePhase::Open if is_opening(reply) => AnnouncePhase::Write,
            AnnouncePhase::Open => AnnouncePhase::Through,
            AnnouncePhase::Write if is_accepted(reply) => AnnouncePhase::Through,
            AnnouncePhase::Write => AnnouncePhase::Close,
            AnnouncePhase::Close => AnnouncePhase::Through,
            AnnouncePhase::Through => AnnouncePhase::Through,
        }
    }
}

/// Announces an address: opens the clone file of the first line that cs gives for it, and writes the line's address.
#[derive(Debug, Drop)]
pub struct Announce {
    name: Octets,
    address: Octets,
    phase: AnnouncePhase,
    // the first of them is announced
    lines: Lines,
}

impl Announce {
    /// Announces the address, and binds `name` to its ctl file.
    pub fn new(alloc: Global, name: &[u8], address: &[u8]) -> Result<Announce, AllocError>
        ensures value { IfOk result (λ t. t ≡ spec.begun name.now address.now) }
        ensures stands { IfOk result (λ t. spec.Begins t (step.Announce name.now address.now)) }
    {
        Ok(Announce {
            name: Octets::from_slice(alloc, name)?,
            address: Octets::from_slice(alloc, address)?,
            phase: AnnouncePhase::Fresh,
            lines: Lines::new(alloc),
        })
    }

    // The line that is announced, or an empty one where there is none.
    fn line(&self) -> &[u8]
        ensures { result.now ≡ lines.first_dial_line self.now.lines }
    {
        match self.lines.as_slice().first() {
            Some(line) => line.as_slice(),
            None => &[],
        }
    }

    // Takes a reply.
    fn take(&mut self, alloc: Global, reply: Reply)
        ensures { self.new ≡ spec.after self.old reply }
    {
        let phase = self.phase.after(&reply);
        match self.phase {
            AnnouncePhase::Fresh => {
                self.take_lines(lines_in(alloc, reply));
                self.set_phase(phase)
            }
            _ => self.set_phase(phase),
        }
    }

    // The lines are these.
    fn take_lines(&mut self, lines: Lines)
        ensures { self.new ≡ record self.old { lines = lines } }
    {
        self.lines = lines;
    }

    // It is in this phase.
    fn set_phase(&mut self, phase: AnnouncePhase)
        ensures { self.new ≡ record self.old { phase = phase } }
    {
        self.phase = phase;
    }

    // Asks for the lines, where the name is free.
    fn begin(&self, alloc: Global, fids: &Names) -> Result<Request, AllocError>
        ensures { IfOk result (λ q. q ≡ spec.begins fids.now.names self.now.name self.now.address) }
    {
        if fids.is_bound(self.name.as_slice()) {
            return Ok(Request::Unbound {
                name: self.name.clone()?,
            });
        }
        Ok(Request::Cs {
            query: query_of(alloc, self.address.as_slice())?,
        })
    }

    // Opens the clone file of the line.
    fn open_line(&self, alloc: Global) -> Result<Option<Request>, AllocError>
        ensures { IfOk result (λ asked. asked ≡ spec.opens_line self.now.name (lines.first_tried self.now.lines)) }
    {
        match self.lines.as_slice().first() {
            None => Ok(None),
            Some(line) => Ok(Some(Request::Open {
                name: self.name.clone()?,
                path: Octets::from_slice(alloc, clone_path(line.as_slice()))?,
                mode: Mode::Both,
            })),
        }
    }

    // Writes the address of the line.
    fn announce(&self, alloc: Global) -> Result<Request, AllocError>
        ensures { IfOk result (λ q. q ≡ spec.writes_line self.now.name self.now.lines) }
    {
        Ok(Request::Write {
            name: self.name.clone()?,
            text: text_to(alloc, b"announce ", self.line())?,
        })
    }
}

impl Task for Announce {
    ghost use Rattle.dial_lib.specs.AnnounceLaws as laws;

    ghost asks = { spec.asks };

    ghost after = { spec.after };

    ghost Stands = { spec.StandsFor };

    ghost asks_so = { laws.asks_so };

    ghost moves_so = { laws.moves_so };

    fn next(&self, alloc: Global, fids: &Names) -> Result<Option<Request>, AllocError> {
        match self.phase {
            AnnouncePhase::Fresh => Ok(Some(self.begin(alloc, fids)?)),
            AnnouncePhase::Open => self.open_line(alloc),
            AnnouncePhase::Write => Ok(Some(self.announce(alloc)?)),
            AnnouncePhase::Close => Ok(Some(Request::Close {
                name: self.name.clone()?,
            })),
            AnnouncePhase::Through => Ok(None),
        }
    }

    fn is_through(&self) -> bool {
        match self.phase {
            AnnouncePhase::Open => self.lines.as_slice().is_empty(),
            AnnouncePhase::Through => true,
            _ => false,
        }
    }

    fn told(&mut self, alloc: Global, reply: Reply) -> Result<(), AllocError> {
        self.take(alloc, reply);
        Ok(())
    }
}
