//! Steps that write a text.
ghost use Rattle.std.specs.Prelude.{◌≡◌};
ghost use Rattle.dial_lib.specs.WriteText as spec;
ghost use Rattle.dial_lib.specs.declared.write_text.WritePhase.TheVariants as phase;

use net_base::{Octets, Reply};
use script_task::{Names, Request, Task, is_granted};
use std::alloc::{AllocError, Global};

/// What a write does next.
#[derive(Clone, Copy, Debug, PartialEq, Eq)]
pub enum WritePhase {
    /// It writes the text.
    Write,
    /// It waits to be connected.
    Wait,
    /// It is through.
    Through,
}

impl WritePhase {
    // The phase after a reply.
    fn after(self, reply: &Reply) -> WritePhase
        ensures { result ≡ spec.phase_after self reply.now }
    {
        match self {
            WritePhase::Write if is_granted(reply) => WritePhase::Wait,
            WritePhase::Write => WritePhase::Through,
            WritePhase::Wait => WritePhase::Through,
            WritePhase::Through => WritePhase::Through,
        }
    }
}

/// A step that writes a text, and waits to be connected where the text connects.
#[derive(Debug, Drop)]
pub struct WriteText {
    name: Octets,
    text: Octets,
    phase: WritePhase,
}

impl WriteText {
    /// Writes the text to the file of the name. It takes no memory.
    pub fn new(name: Octets, text: Octets) -> WriteText
        ensures { result ≡ record { name = name; text = text; phase = phase.Write } }
    {
        WriteText {
            name,
            text,
            phase: WritePhase::Write,
        }
    }
}

impl Task for WriteText {
    ghost use Rattle.dial_lib.specs.WriteText as spec;
    ghost use Rattle.dial_lib.specs.WriteTextLaws as laws;

    ghost asks = { spec.asks };

    ghost after = { spec.after };

    ghost Stands = { spec.StandsFor };

    ghost asks_so = { laws.asks_so };

    ghost moves_so = { laws.moves_so };

    fn next(&self, _alloc: Global, _fids: &Names) -> Result<Option<Request>, AllocError> {
        match self.phase {
            WritePhase::Write => Ok(Some(Request::Write {
                name: self.name.clone()?,
                text: self.text.clone()?,
            })),
            WritePhase::Wait => Ok(Some(Request::Wait {
                name: self.name.clone()?,
            })),
            WritePhase::Through => Ok(None),
        }
    }

    fn is_through(&self) -> bool {
        self.phase == WritePhase::Through
    }

    fn told(&mut self, _alloc: Global, reply: Reply) -> Result<(), AllocError> {
        self.phase = self.phase.after(&reply);
        Ok(())
    }
}
