//! Recording the turn of a caller: its actor steps, and from the outcome come the entry, what is owed and what comes next.
ghost use Rattle.std.specs.Prelude.{◌≡◌, ◌<◌, ℕ, IfOk, OnOk};
ghost use Rattle.net_base.specs.declared.actor.ActorName.{ActorName as Name};
ghost use Rattle.net_base.specs.declared.world.World.{World as AnyWorld};
ghost use Rattle.net_base.specs.Actors.{Actor};
ghost use Rattle.net_base.specs.declared.event.Event.TheVariants as event;
ghost use Rattle.duties.specs.Queue.{AddsDuty};
ghost use Rattle.duties.specs.Showing.{shows};
ghost use Rattle.duties.specs.Ticking.{ticks_of};
ghost use Rattle.net_actors.specs.Together.{AreActors};
ghost use Rattle.plain_runner.specs.Recording.{CanRecord, DuesOf, OwesAll, Records};

use crate::caller::Caller;
use crate::law::histories_are_short;
use crate::turn::Turn;
use duties::{Due, Duties, Shown, WorldWays, a_move_owes_its_ticks, entry_of, most_owed};
use history_laws::histories_grow;
use net_actors::Actors;
use net_base::{ActorName, Entry, Event, Outcome, Work};
use script_task::replies_fit;
use std::alloc::{AllocError, Global};

/// Whose entry comes next, at which stamp and at which moment, in ms.
#[derive(Clone, Copy)]
pub struct Coming {
    pub caller: u32,
    pub stamp: u64,
    pub now: u64,
}

/// Records the turn of a caller, which is ready, as the entry that comes next.
pub fn record(
    alloc: Global,
    caller: &mut Caller<'_>,
    coming: Coming,
    turn: Turn,
    net: &mut Actors,
    ways: &WorldWays,
) -> Result<Entry, AllocError>
    requires { CanRecord coming turn caller.old net.old ways.now }
    ensures { IfOk result (Records coming turn caller.old caller.new net.old net.new ways.now) }
{
    histories_grow();
    histories_are_short();
    replies_fit();
    let dues = dues_of_move(alloc, net, &turn)?;
    let Turn { actor, work, cites } = turn;
    let mut outcome = net.step(actor, coming.now, &work)?;
    let reply = outcome.copy.take().unwrap();
    let owed = &mut caller.owed;
    let shown = owe(ways, actor, coming.stamp, work, outcome, dues, owed)?;
    caller.recorded(cites, reply)?;
    Ok(entry_of(actor, coming.caller, coming.now, cites, shown))
}

// When the conversations are due, where the turn is a move of the clock.
fn dues_of_move(alloc: Global, net: &Actors, turn: &Turn) -> Result<Option<Vec<Due>>, AllocError>
    ensures { IfOk result (λ dues. (w : AnyWorld) (states : Name → Actor) → AreActors w net.now states
        → DuesOf w states turn.now.actor turn.now.work.event dues) }
{
    match (turn.actor, &turn.work.event) {
        (ActorName::Clock, Event::Move { .. }) => Ok(Some(net.dues(alloc)?)),
        _ => Ok(None),
    }
}

// What the step owes is owed after the rest. The answer is what the entry shows.
fn owe(
    ways: &WorldWays,
    actor: ActorName,
    stamp: u64,
    work: Work,
    outcome: Outcome,
    dues: Option<Vec<Due>>,
    owed: &mut Duties,
) -> Result<Shown, AllocError>
    ensures shown { IfOk result (λ s. s ≡ shows work.event outcome) }
    ensures owes { OnOk result (OwesAll ways.now actor stamp work outcome dues owed.old owed.new) }
{
    a_move_owes_its_ticks();
    match dues {
        Some(dues) => owe_ticks(stamp, work, outcome, &dues, owed),
        None => {
            owed.reserve(most_owed(&outcome))?;
            Ok(ways.owe(actor, stamp, work, outcome, owed))
        }
    }
}

// A move owes the ticks of the conversations that are due.
fn owe_ticks(
    stamp: u64,
    work: Work,
    outcome: Outcome,
    dues: &[Due],
    owed: &mut Duties,
) -> Result<Shown, AllocError>
    ensures shown { IfOk result (λ s. s ≡ shows work.event outcome) }
    ensures owes { OnOk result ((moment : ℕ) → work.event ≡ event.Move moment
        → AddsDuty owed.old owed.new (ticks_of stamp moment dues.now)) }
{
    owed.reserve(dues.len())?;
    if let Event::Move { moment } = &work.event {
        owed.owe_ticks(stamp, *moment, dues);
    }
    let emits = match &outcome.emit {
        Some(packet) => Some(packet.header()),
        None => None,
    };
    Ok(Shown {
        event: work.event,
        reply: outcome.reply,
        emits,
        ended: outcome.ended,
    })
}
