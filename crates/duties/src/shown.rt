//! What an entry shows of its step.
ghost use Rattle.std.specs.Prelude.{◌≡◌};
ghost use Rattle.net_base.specs.declared.history.Outcome.{Outcome as AnyOutcome};
ghost use Rattle.net_base.specs.Legal.{shown_by, shown_of};
ghost use Rattle.duties.specs.Showing.{shown_entry, shows};

use net_base::{ActorName, Entry, Event, Header, Reply};

/// An event, and what its entry shows of the step.
#[derive(Debug, Drop)]
pub struct Shown {
    pub event: Event,
    pub reply: Reply,
    /// The header of the packet that was emitted.
    pub emits: Option<Header>,
    pub ended: bool,
}

/// The entry of a step. Its moment is in ms; it cites the entry that owed it.
pub fn entry_of(
    actor: ActorName,
    caller: u32,
    moment: u64,
    cites: Option<u64>,
    shown: Shown,
) -> Entry
    ensures entry { result ≡ shown_entry actor caller moment cites shown }
    ensures shows { (o : AnyOutcome) → shown ≡ shows shown.event o → shown_by result ≡ shown_of o }
{
    let Shown {
        event,
        reply,
        emits,
        ended,
    } = shown;
    Entry {
        actor,
        caller,
        moment,
        event,
        cites,
        reply,
        emits,
        ended,
    }
}
