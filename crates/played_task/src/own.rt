//! Tasks of one's own.
ghost use Rattle.std.specs.Prelude.{◌≡◌, ◌++◌, ◌∷◌, [], List, Option, IfOk, OnOk, OnErr};
ghost use Rattle.net_base.specs.declared.reply.Reply.{Reply};
ghost use Rattle.net_base.specs.declared.request.Request.{Request};
ghost use Rattle.net_base.specs.Steps.{Names as AnyNames};

use net_base::{Reply, Request};
use script_task::Names;
use std::alloc::{AllocError, Global};

/// A task of one's own, which a host plays in the place of a script: it asks for a file operation, is told the reply, and asks for the
/// next one, which may depend on what it was told.
///
/// What it asks hangs on what it was told and on the names that are bound, and on nothing else: no clock, no chance. So a run can tell
/// what comes next without asking twice.
pub trait OwnTask {
    // its next request under these names
    ghost asks: { Self → AnyNames → Option Request };

    // what a reply makes of it
    ghost after: { Self → Reply → Self };

    // what is claimed of it, once it was told these replies: `Unit {0}` where nothing is
    ghost Keeps: { Self → List Reply → Type 0 };

    /// The next request under these names, or none where the task is through. It is asked again where the request isn't ready yet.
    ///
    /// The only error is that memory ran out.
    fn next(&self, alloc: Global, names: &Names) -> Result<Option<Request>, AllocError>
        ensures { IfOk result (λ asked. asked ≡ asks self.now names.now.names) };

    /// Takes the reply to its request. Without memory it is as before.
    fn told(&mut self, alloc: Global, reply: Reply) -> Result<(), AllocError>
        ensures ok { OnOk result (self.new ≡ after self.old reply) }
        ensures err { OnErr result (self.new ≡ self.old) };

    ghost keeps_on: { (t : Self) (rs : List Reply) (r : Reply) → Keeps t rs → Keeps (after t r) (rs ++ r ∷ []) };
}
