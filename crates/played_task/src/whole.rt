//! What is played in the places of scripts.
ghost use Rattle.std.specs.Prelude.{◌≡◌, List, Option, IfOk, OnOk, OnErr};
ghost use Rattle.net_base.specs.declared.reply.Reply.{Reply};
ghost use Rattle.net_base.specs.declared.request.Request.{Request};
ghost use Rattle.net_base.specs.declared.world.Script.{Script};
ghost use Rattle.net_base.specs.Next.{finished_by};
ghost use Rattle.net_base.specs.Steps.{Names as AnyNames};
ghost use Rattle.net_base.specs.Tasks.{Asking};
ghost use Rattle.net_base.specs.Versions.{Tuples};
ghost use Rattle.played_task.specs.Wholes.{AsksThere, GoesThere, PlaysOn, PlaysThere};

use net_base::{Reply, Request};
use script_task::Names;
use std::alloc::{AllocError, Global};

/// What is played in the place of a script: its steps one after another, of which it counts those that are finished, or a task of
/// one's own.
pub trait WholeTask {
    // its next request under these names
    ghost asks: { Self → AnyNames → Option Request };

    // what a reply makes of it
    ghost after: { Self → Reply → Self };

    // after these replies, under these names, it goes on with what is played in the place of this script
    ghost Goes: { Option Asking → Tuples → Script → List Reply → AnyNames → Self → Type 0 };

    // after these replies, under these names, it plays this script
    ghost Plays: { Tuples → Script → List Reply → AnyNames → Self → Type 0 };

    /// The next request under these names, or none where the task is through.
    fn next(&self, alloc: Global, fids: &Names) -> Result<Option<Request>, AllocError>
        ensures { IfOk result (λ asked. asked ≡ asks self.now fids.now.names) };

    /// Takes the reply to the event of its request. Without memory it is as before.
    fn told(&mut self, alloc: Global, reply: Reply) -> Result<(), AllocError>
        ensures ok { OnOk result (self.new ≡ after self.old reply) }
        ensures err { OnErr result (self.new ≡ self.old) };

    /// How many steps of its script are finished.
    fn finished(&self) -> usize
        ensures { (zone : Tuples) (s : Script) (rs : List Reply) (names : AnyNames)
            → Plays zone s rs names self.now → result ≡ finished_by zone rs s };

    // its next request is what comes next there
    ghost asks_there: { AsksThere Self asks Goes };

    // and after each reply it goes on there
    ghost goes_there: { GoesThere Self asks after Goes };

    // where the script is played, it goes on there
    ghost plays_there: { PlaysThere Self Goes Plays };

    // after each reply it plays the script on
    ghost plays_on: { PlaysOn Self asks after Plays };
}
