//! Exporting over a call.
ghost use Rattle.std.specs.Prelude.{◌≡◌, IfOk, OnErr, OnOk, false};
ghost use Rattle.net_base.specs.Exports.{is_dotted};
ghost use Rattle.net_base.specs.Steps.{bytes_in};
ghost use Rattle.net_base.specs.declared.world.Step.TheVariants as step;
ghost use Rattle.net_export.specs.Exporting as spec;

use crate::serving::Serving;
use net_base::{Octets, Reply};
use script_task::{Names, Request, Task, bytes_in, is_accepted};
use std::alloc::{AllocError, Global};
use std::marker::Model;

/// How many bytes are read at a time: no message is longer.
const LONG: u32 = 8192;

/// How many requests are served: no caller records so many entries.
const MOST: u32 = 131_072;

/// What an exporting step does next.
#[derive(Clone, Copy, Debug, PartialEq, Eq)]
pub enum ExportPhase {
    /// It reads a request.
    Read,
    /// It serves a request, and then writes the answer.
    Serve,
    /// It closes the files that are still open.
    Close,
}

/// Exports over a call: reads a request, serves it and writes the answer, again and again.
#[derive(Drop)]
pub struct Export {
    name: Octets,
    serving: Serving,
    phase: ExportPhase,
    // how many requests it may still serve
    left: u32,
}

impl Model for Export {
    ghost use Rattle.net_export.specs.Exporting.{Exporting};

    ghost Value = { Exporting };

    ghost view = { λ e. record { name = e.name; session = e.serving; phase = e.phase; left = e.left } };
}

impl Export {
    /// Exports over the call that the name is bound to.
    pub fn new(alloc: Global, name: &[u8]) -> Result<Export, AllocError>
        requires plain { is_dotted name.now ≡ false }
        ensures value { IfOk result (λ t. t ≡ spec.begun name.now) }
        ensures stands { IfOk result (λ t. spec.Begins t (step.Export name.now)) }
    {
        Ok(Export {
            name: Octets::from_slice(alloc, name)?,
            serving: Serving::new(alloc),
            phase: ExportPhase::Read,
            left: MOST,
        })
    }

    // It takes what was read. At the end of file, and where the read was refused, it closes.
    fn hear(&mut self, alloc: Global, text: &[u8]) -> Result<(), AllocError>
        ensures ok { OnOk result (self.new ≡ spec.heard_text self.old text.now) }
        ensures err { OnErr result (self.new ≡ self.old) }
    {
        if text.is_empty() {
            self.phase = ExportPhase::Close;
            return Ok(());
        }
        self.serving.hear(alloc, text)?;
        self.phase = ExportPhase::Serve;
        self.left = self.left.saturating_sub(1);
        Ok(())
    }

    // It takes the reply to an event of a request, or to the write of its answer.
    fn serve(&mut self, alloc: Global, reply: &Reply) -> Result<(), AllocError>
        ensures ok { OnOk result (self.new ≡ spec.served_reply self.old reply.now) }
        ensures err { OnErr result (self.new ≡ self.old) }
    {
        if self.serving.is_asking() {
            return self.serving.told(alloc, reply);
        }
        self.phase = if is_accepted(reply) {
            ExportPhase::Read
        } else {
            ExportPhase::Close
        };
        Ok(())
    }
}

impl Task for Export {
    ghost use Rattle.net_export.specs.ExportLaws as laws;

    ghost asks = { spec.asks };

    ghost after = { spec.after };

    ghost Stands = { spec.StandsFor };

    ghost asks_so = { laws.asks_so };

    ghost moves_so = { laws.moves_so };

    fn next(&self, alloc: Global, _fids: &Names) -> Result<Option<Request>, AllocError> {
        match self.phase {
            ExportPhase::Read if self.left == 0 => Ok(None),
            ExportPhase::Read => Ok(Some(Request::Read {
                name: self.name.clone()?,
                count: LONG,
            })),
            ExportPhase::Serve => Ok(Some(self.serving.next(&self.name)?)),
            ExportPhase::Close => self.serving.closes(alloc),
        }
    }

    fn is_through(&self) -> bool {
        match self.phase {
            ExportPhase::Read => self.left == 0,
            ExportPhase::Serve => false,
            ExportPhase::Close => self.serving.is_closed(),
        }
    }

    fn told(&mut self, alloc: Global, reply: Reply) -> Result<(), AllocError> {
        match self.phase {
            ExportPhase::Read => self.hear(alloc, bytes_in(&reply)),
            ExportPhase::Serve => self.serve(alloc, &reply),
            ExportPhase::Close => {
                self.serving.close_one();
                Ok(())
            }
        }
    }
}
