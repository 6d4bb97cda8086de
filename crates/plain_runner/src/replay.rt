//! A run that follows a history: each entry is recorded again by its caller.
ghost use Rattle.std.specs.Prelude.{◌≡◌, IfOk};
ghost use Rattle.net_base.specs.Legal.{IsLegal, IsTimed};
ghost use Rattle.net_base.specs.Summary.{summary};
ghost use Rattle.net_base.specs.World.{IsWorld};
ghost use Rattle.plain_runner.specs.Followed.{Followed, FollowedBy, MayFollowOn};

use crate::runner::Runner;
use crate::turn::moving;
use net_base::{Entry, Event, History, Octets, World};
use std::alloc::{AllocError, Global};
use transcript::{RunStatus, summary_by};

/// The summary of a legal and timed history of a world, whether its run has ended or not.
pub fn summary_of(alloc: Global, world: &World, history: &History) -> Result<Octets, AllocError>
    requires world { IsWorld world.now }
    requires legal { IsLegal world.now history.now }
    requires timed { IsTimed world.now history.now }
    ensures { IfOk result (λ text. text ≡ summary world.now history.now) }
{
    let runner = replayed(alloc, world, history)?;
    let answered = runner.answered(world);
    let end = runner.end(world);
    summary_by(alloc, world, history, RunStatus { answered, end })
}

/// The run that recorded a history.
pub fn replayed<'a>(
    alloc: Global,
    world: &'a World,
    history: &History,
) -> Result<Runner<'a>, AllocError>
    requires world { IsWorld world.now }
    requires legal { IsLegal world.now history.now }
    requires timed { IsTimed world.now history.now }
    ensures { IfOk result (Followed world.now history.now) }
{
    let mut runner = Runner::new(alloc, world)?;
    for entry in history.as_slice() {
        runner.follow(entry.caller, &entry.event)?;
    }
    Ok(runner)
}

impl<'a> Runner<'a> {
    /// Records an event of a caller, which may come next, and gives the entry.
    pub fn follow(&mut self, caller: u32, event: &Event) -> Result<Entry, AllocError>
        requires { MayFollowOn self.old caller event.now }
        ensures { IfOk result (FollowedBy self.old self.new caller event.now) }
    {
        match event {
            Event::Move { moment } => self.record(caller as usize, moving(*moment)),
            _ => self.record_next(caller as usize),
        }
    }
}
