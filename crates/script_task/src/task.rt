//! Tasks.
ghost use Rattle.std.specs.Prelude.{◌≡◌, ℕ, Option, IfOk, OnOk, OnErr, is_none};
ghost use Rattle.net_base.specs.Steps.{Names as AnyNames, Play};
ghost use Rattle.net_base.specs.declared.reply.Reply.{Reply};
ghost use Rattle.net_base.specs.declared.request.Request.{Request};
ghost use Rattle.script_task.specs.Task.{AsksSo, MovesSo};

use crate::names::Names;
use net_base::{Reply, Request};
use std::alloc::{AllocError, Global};

/// A step that is being played.
pub trait Task {
    // its next request under these names
    ghost asks: { Self → AnyNames → Option Request };

    // what a reply makes of it
    ghost after: { Self → Reply → Self };

    // at a host, under these names, it stands for this play
    ghost Stands: { ℕ → AnyNames → Self → Play → Type 0 };

    /// The next request under these names, or none where the task is through.
    fn next(&self, alloc: Global, fids: &Names) -> Result<Option<Request>, AllocError>
        ensures { IfOk result (λ asked. asked ≡ asks self.now fids.now.names) };

    /// Whether it is through: it has no request, whatever the names. It takes no memory.
    fn is_through(&self) -> bool
        ensures { (names : AnyNames) → result ≡ is_none (asks self.now names) };

    /// Takes the reply to the event of its request. Without memory it is as before.
    fn told(&mut self, alloc: Global, reply: Reply) -> Result<(), AllocError>
        ensures ok { OnOk result (self.new ≡ after self.old reply) }
        ensures err { OnErr result (self.new ≡ self.old) };

    // its requests record the events of the play
    ghost asks_so: { AsksSo Self asks Stands };

    // after each reply it stands for the rest of the play
    ghost moves_so: { MovesSo Self asks after Stands };
}
