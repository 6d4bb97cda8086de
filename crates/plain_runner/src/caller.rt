//! A caller of a run.
ghost use Rattle.std.specs.Arc.{arc_value};
ghost use Rattle.std.specs.Prelude.{◌≡◌, ◌<◌, ◌+◌, ◌^◌, ℕ, List, [], length, IfOk, OnOk, Some, slice_get};
ghost use Rattle.net_base.specs.declared.history.Entry.{Entry as AnyEntry};
ghost use Rattle.net_base.specs.declared.world.World.{World as AnyWorld};
ghost use Rattle.net_base.specs.Callers.{IsClock, IsCourier, caller_of};
ghost use Rattle.net_base.specs.Net.{after, moment};
ghost use Rattle.net_actors.specs.Together.{AreActors};
ghost use Rattle.net_base.specs.declared.actor.ActorName.TheVariants as name;
ghost use Rattle.net_base.specs.declared.event.Event.TheVariants as event;
ghost use Rattle.std.specs.Option.{option_map};
ghost use Rattle.script_player.specs.Players.{asked_event as ask};
ghost use Rattle.plain_runner.specs.Callers.{WentOn, IsCallerKept, Takes, TakesIf};
ghost use Rattle.plain_runner.specs.Turns.{AreOwn, IsOwnTurn, OfDuty, turn_ask, asks_of, may_turn};

use crate::turn::Turn;
use duties::{Duties, Duty};
use history_laws::histories_grow;
use ndb_index::IndexedVersions;
use net_actors::Actors;
use net_base::{ActorName, Event, Reply, Script, With, Work};
use script_player::Player;
use std::alloc::{AllocError, Global};
use std::sync::Arc;

/// Who a caller is.
#[derive(Drop)]
pub enum Role<'a> {
    /// A script, and how far it was played.
    Script(&'a Script, Player),
    /// The courier of the medium of this number.
    Courier(u32),
    Clock,
}

/// A caller: what it owes, what it records next, and how many entries it recorded.
#[derive(Drop)]
pub struct Caller<'a> {
    pub role: Role<'a>,
    pub owed: Duties,
    pub next: Option<Turn>,
    pub entries: u32,
    /// How many steps of a script were finished before its last own event.
    pub before: usize,
}

impl<'a> Caller<'a> {
    /// A script before anything is recorded.
    pub fn script(
        alloc: Global,
        script: &'a Script,
        dbs: Arc<IndexedVersions, Global>,
    ) -> Result<Caller<'a>, AllocError>
        requires some { 0 < length (arc_value dbs) }
        ensures { IfOk result (λ k. (w : AnyWorld) (c : ℕ) → w.dbs ≡ arc_value dbs
            → slice_get w.scripts c ≡ Some script.now → IsCallerKept w [] c k) }
    {
        let mut player = Player::new(alloc, dbs);
        let next = asked(player.next(script)?);
        let before = player.finished();
        Ok(Caller {
            role: Role::Script(script, player),
            owed: Duties::new(alloc),
            next,
            entries: 0,
            before,
        })
    }

    /// The courier of a medium before anything is recorded.
    pub fn courier(alloc: Global, medium: u32) -> Caller<'a>
        ensures { (w : AnyWorld) (c : ℕ) → caller_of w c ≡ IsCourier medium → IsCallerKept w [] c result }
    {
        Caller {
            role: Role::Courier(medium),
            owed: Duties::new(alloc),
            next: Some(taking(medium)),
            entries: 0,
            before: 0,
        }
    }

    /// The clock before anything is recorded.
    pub fn clock(alloc: Global) -> Caller<'a>
        ensures { (w : AnyWorld) (c : ℕ) → caller_of w c ≡ IsClock → IsCallerKept w [] c result }
    {
        Caller {
            role: Role::Clock,
            owed: Duties::new(alloc),
            next: None,
            entries: 0,
            before: 0,
        }
    }

    /// Whether what it owes first is ready, or its next event where it owes nothing.
    pub fn may_record(&self, net: &Actors, now: u64) -> bool
        ensures { (w : AnyWorld) (h : List AnyEntry) (c : ℕ) → IsCallerKept w h c self.now
            → AreActors w net.now (after w h).actors → now ≡ moment w h → result ≡ may_turn w h c }
    {
        histories_grow();
        if let Some(duty) = self.owed.first() {
            return net.ready(duty.actor, now, &duty.work);
        }
        match &self.next {
            Some(turn) => net.ready(turn.actor, now, &turn.work),
            None => false,
        }
    }

    /// Takes its first duty, or its next event where it owes nothing.
    pub fn take_turn(&mut self) -> Option<Turn>
        ensures takes { Takes self.old self.new result }
        ensures some { TakesIf self.old result }
    {
        histories_grow();
        match self.owed.pop() {
            Some(duty) => Some(owed_turn(duty)),
            None => self.next.take(),
        }
    }

    /// Goes on after an entry of its turn, which had this reply.
    pub fn recorded(&mut self, cites: Option<u64>, reply: Reply) -> Result<(), AllocError>
        requires room { self.old.entries + 1 < 2 ^ 32 }
        ensures { OnOk result (WentOn self.old self.new cites reply) }
    {
        self.entries += 1;
        if cites.is_some() {
            return Ok(());
        }
        match &mut self.role {
            Role::Script(script, player) => {
                self.before = player.finished();
                player.told(script, reply)?;
                self.next = asked(player.next(script)?);
            }
            Role::Courier(medium) => self.next = Some(taking(*medium)),
            Role::Clock => self.next = None,
        }
        Ok(())
    }
}

/// Returns the next event of a script as a turn.
pub fn asked(event: Option<(ActorName, Event)>) -> Option<Turn>
    ensures asks { asks_of result ≡ option_map ask event }
    ensures own { AreOwn result }
{
    match event {
        Some((actor, event)) => Some(Turn {
            actor,
            work: Work {
                event,
                with: With::Nothing,
            },
            cites: None,
        }),
        None => None,
    }
}

// A courier takes at its medium.
fn taking(medium: u32) -> Turn
    ensures asks { turn_ask result ≡ record { actor = name.Medium medium; event = event.Take } }
    ensures own { IsOwnTurn result }
{
    Turn {
        actor: ActorName::Medium(medium),
        work: Work {
            event: Event::Take,
            with: With::Nothing,
        },
        cites: None,
    }
}

// A duty as a turn.
fn owed_turn(duty: Duty) -> Turn
    ensures { OfDuty duty result }
{
    Turn {
        actor: duty.actor,
        work: duty.work,
        cites: Some(duty.cites),
    }
}
