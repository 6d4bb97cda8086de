//! Dialling an address.
ghost use Rattle.std.specs.Prelude.{◌≡◌, IfOk};
ghost use Rattle.net_base.specs.Steps as steps;
ghost use Rattle.net_base.specs.Steps.{fid_of};
ghost use Rattle.net_base.specs.declared.world.Step.TheVariants as step;
ghost use Rattle.dial_lib.specs.Dials as spec;
ghost use Rattle.dial_lib.specs.Lines as lines;

use crate::address::query_of;
use crate::beside::open_beside;
use crate::lines::{clone_path, text_to};
use crate::reply::lines_in;
use net_base::{FileName, Lines, Mode, Octets, Reply};
use script_task::{Names, Request, Task, is_accepted, is_granted, is_opening};
use std::alloc::{AllocError, Global};
use std::marker::Model;

/// What a dial does next.
#[derive(Clone, Copy, Debug, PartialEq, Eq)]
pub enum DialPhase {
    /// It asks for the lines of the address.
    Fresh,
    /// It opens the clone file of the first line left.
    Open,
    /// It writes the address of that line.
    Write,
    /// It waits to be connected.
    Wait,
    /// It closes the ctl file and goes on with the next line.
    Retry,
    /// It opens the data file.
    Data,
    /// It closes the ctl file and is through.
    Close,
    /// It is through.
    Through,
}

impl DialPhase {
    // The phase after a reply.
    fn after(self, reply: &Reply) -> DialPhase
        ensures { result ≡ spec.phase_after self reply.now }
    {
        match self {
            DialPhase::Fresh => DialPhase::Open,
            DialPhase::Open if is_opening(reply) => DialPhase::Write,
            DialPhase::Open => DialPhase::Open,
            DialPhase::Write if is_granted(reply) => DialPhase::Wait,
            DialPhase::Write if is_accepted(reply) => DialPhase::Data,
            DialPhase::Write => DialPhase::Retry,
            DialPhase::Wait if is_accepted(reply) => DialPhase::Data,
            DialPhase::Wait => DialPhase::Retry,
            DialPhase::Retry if is_accepted(reply) => DialPhase::Open,
            DialPhase::Retry => DialPhase::Through,
            DialPhase::Data => DialPhase::Close,
            DialPhase::Close => DialPhase::Through,
            DialPhase::Through => DialPhase::Through,
        }
    }
}

/// Dials an address: the lines that cs gives for it, in order, until one succeeds.
///
/// Clauses see the lines that are left, of which the first is tried now.
#[derive(Debug, Drop)]
pub struct Dial {
    name: Octets,
    address: Octets,
    phase: DialPhase,
    lines: Lines,
    // how many lines have failed
    tried: usize,
}

impl Model for Dial {
    ghost use Rattle.std.specs.Prelude.{drop};
    ghost use Rattle.dial_lib.specs.Dials.{Dialling};

    ghost Value = { Dialling };

    ghost view = { λ d. record {
      called = d.name;
      address = d.address;
      phase = d.phase;
      lines = drop d.tried d.lines;
    } };
}

impl Dial {
    /// Dials the address, and binds `name` to the data file of what was dialled.
    pub fn new(alloc: Global, name: &[u8], address: &[u8]) -> Result<Dial, AllocError>
        ensures value { IfOk result (λ d. d ≡ spec.begun name.now address.now) }
        ensures stands { IfOk result (λ d. spec.Begins d (step.Dial name.now address.now)) }
    {
        Ok(Dial {
            name: Octets::from_slice(alloc, name)?,
            address: Octets::from_slice(alloc, address)?,
            phase: DialPhase::Fresh,
            lines: Lines::new(alloc),
            tried: 0,
        })
    }

    // Takes a reply.
    fn take(&mut self, alloc: Global, reply: Reply)
        ensures { self.new ≡ spec.after self.old reply }
    {
        let phase = self.phase.after(&reply);
        match self.phase {
            DialPhase::Fresh => {
                self.take_lines(lines_in(alloc, reply));
                self.set_phase(phase)
            }
            DialPhase::Open => {
                if !is_opening(&reply) {
                    self.leave_line();
                    self.set_phase(phase)
                } else {
                    self.set_phase(phase)
                }
            }
            DialPhase::Retry => {
                self.leave_line();
                self.set_phase(phase)
            }
            _ => self.set_phase(phase),
        }
    }

    // The lines are these.
    fn take_lines(&mut self, lines: Lines)
        ensures { self.new ≡ record self.old { lines = lines } }
    {
        self.lines = lines;
        self.tried = 0;
    }

    // The line that is tried now has failed.
    fn leave_line(&mut self)
        ensures { self.new ≡ record self.old { lines = lines.other_lines self.old.lines } }
    {
        if self.tried < self.lines.len() {
            self.tried += 1;
        }
    }

    // It is in this phase.
    fn set_phase(&mut self, phase: DialPhase)
        ensures { self.new ≡ record self.old { phase = phase } }
    {
        self.phase = phase;
    }

    // Asks for the lines, where its names are free.
    fn begin(&self, alloc: Global, fids: &Names, dotted: Octets) -> Result<Request, AllocError>
        ensures { IfOk result (λ q. q ≡ spec.begins fids.now.names self.now.called dotted self.now.address) }
    {
        if fids.is_bound(self.name.as_slice()) {
            return Ok(Request::Unbound {
                name: self.name.clone()?,
            });
        }
        if fids.is_bound(dotted.as_slice()) {
            return Ok(Request::Unbound { name: dotted });
        }
        Ok(Request::Cs {
            query: query_of(alloc, self.address.as_slice())?,
        })
    }

    // Opens the clone file of the line that is tried now.
    fn open_line(&self, alloc: Global, dotted: Octets) -> Result<Option<Request>, AllocError>
        ensures { IfOk result (λ asked. asked ≡ spec.dial_opens_line dotted (lines.first_tried self.now.lines)) }
    {
        match self.lines.as_slice().get(self.tried) {
            None => Ok(None),
            Some(line) => Ok(Some(Request::Open {
                name: dotted,
                path: Octets::from_slice(alloc, clone_path(line.as_slice()))?,
                mode: Mode::Both,
            })),
        }
    }

    // Writes the address of that line.
    fn connect(&self, alloc: Global, dotted: Octets) -> Result<Request, AllocError>
        ensures { IfOk result (λ q. q ≡ spec.connect_request dotted self.now.lines) }
    {
        Ok(Request::Write {
            name: dotted,
            text: text_to(alloc, b"connect ", self.line())?,
        })
    }

    // The line that is tried now, or an empty one where none is left.
    fn line(&self) -> &[u8]
        ensures { result.now ≡ lines.first_dial_line self.now.lines }
    {
        match self.lines.as_slice().get(self.tried) {
            Some(line) => line.as_slice(),
            None => &[],
        }
    }

    // Opens the data file of what was dialled.
    fn open_data(&self, alloc: Global, fids: &Names, dotted: Octets) -> Result<Request, AllocError>
        ensures { IfOk result (λ q. q ≡ spec.opens_data self.now.called dotted (fid_of dotted fids.now.names)) }
    {
        match fids.get(dotted.as_slice()) {
            Some(made) => open_beside(alloc, &self.name, made, FileName::Data),
            None => Ok(Request::Unbound { name: dotted }),
        }
    }
}

impl Task for Dial {
    ghost use Rattle.dial_lib.specs.DialTasks as laws;

    ghost asks = { spec.asks };

    ghost after = { spec.after };

    ghost Stands = { spec.StandsFor };

    ghost asks_so = { laws.asks_so };

    ghost moves_so = { laws.moves_so };

    fn next(&self, alloc: Global, fids: &Names) -> Result<Option<Request>, AllocError> {
        let dotted = dotted_name(alloc, self.name.as_slice())?;
        match self.phase {
            DialPhase::Fresh => Ok(Some(self.begin(alloc, fids, dotted)?)),
            DialPhase::Open => self.open_line(alloc, dotted),
            DialPhase::Write => Ok(Some(self.connect(alloc, dotted)?)),
            DialPhase::Wait => Ok(Some(Request::Wait { name: dotted })),
            DialPhase::Retry => Ok(Some(Request::Close { name: dotted })),
            DialPhase::Data => Ok(Some(self.open_data(alloc, fids, dotted)?)),
            DialPhase::Close => Ok(Some(Request::Close { name: dotted })),
            DialPhase::Through => Ok(None),
        }
    }

    fn is_through(&self) -> bool {
        match self.phase {
            DialPhase::Open => self.lines.as_slice().get(self.tried).is_none(),
            DialPhase::Through => true,
            _ => false,
        }
    }

    fn told(&mut self, alloc: Global, reply: Reply) -> Result<(), AllocError> {
        self.take(alloc, reply);
        Ok(())
    }
}

// The name of the ctl file while a dial goes on.
fn dotted_name(alloc: Global, name: &[u8]) -> Result<Octets, AllocError>
    ensures { IfOk result (λ dotted. dotted ≡ steps.dotted_name name.now) }
{
    let mut dotted = Octets::from_slice(alloc, b".")?;
    dotted.append(name)?;
    Ok(dotted)
}
