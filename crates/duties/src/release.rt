//! The release of a conversation that ended.
ghost use Rattle.std.specs.Prelude.{◌≡◌, ◌+◌, ◌≤◌, if◌then◌else◌};
ghost use Rattle.duties.specs.Queue.{AddsDuty};
ghost use Rattle.duties.specs.Releasing.{released};
ghost use Rattle.history_laws.specs.ConvRows.{generation_in};

use crate::queue::Duties;
use net_base::{ActorName, Event, With};

/// A conversation that ended in this event is released at its directory.
pub fn owe_release(actor: ActorName, stamp: u64, event: &Event, ended: bool, owed: &mut Duties)
    requires { (if ended then 1 else 0) ≤ owed.old.room }
    ensures list { AddsDuty owed.old owed.new (released actor stamp event.now ended) }
    ensures room { owed.old.room ≤ owed.new.room + (if ended then 1 else 0) }
{
    if !ended {
        return;
    }
    let ActorName::Conv(host, proto, slot) = actor else {
        return;
    };
    if let Some(generation) = generation_in(event) {
        owed.owe(
            stamp,
            ActorName::Dir(host, proto),
            Event::Release { slot, generation },
            With::Nothing,
        );
    }
}

// The generation of a conversation that its event names.
fn generation_in(event: &Event) -> Option<u64>
    ensures { result ≡ generation_in event.now }
{
    match event {
        Event::Begin { generation } => Some(*generation),
        Event::Born { generation } => Some(*generation),
        Event::Claim { generation } => Some(*generation),
        Event::Connect { generation } => Some(*generation),
        Event::Announced { generation } => Some(*generation),
        Event::Bound { generation } => Some(*generation),
        Event::Await { generation } => Some(*generation),
        Event::File { generation, .. } => Some(*generation),
        Event::Read { generation, .. } => Some(*generation),
        Event::Write { generation, .. } => Some(*generation),
        Event::Hangup { generation } => Some(*generation),
        Event::Ttl { generation, .. } => Some(*generation),
        Event::Tos { generation, .. } => Some(*generation),
        Event::Ctl { generation, .. } => Some(*generation),
        Event::Close { generation } => Some(*generation),
        Event::ArriveAt { generation } => Some(*generation),
        Event::Tick { generation } => Some(*generation),
        _ => None,
    }
}
