//! What a chart sees of an entry.
ghost use Rattle.std.specs.Prelude.{◌≡◌};
ghost use Rattle.net_chart.specs.Sights as spec;

use net_base::{ActorName, Entry, Event, Reply};

/// A frame that is laid or a copy of one, with its medium and its number there; or an operation of a script.
#[derive(Clone, Copy)]
pub enum Sight {
    Laid { medium: u32, number: u64, to: u32 },
    Came { medium: u32, number: u64 },
    /// At a host's desk, directory or conversation.
    Did { host: u32 },
    Nothing,
}

/// What is seen of an entry.
pub fn sight_of(entry: &Entry) -> Sight
    ensures { result ≡ spec.sight_of entry.now }
{
    match entry.actor {
        ActorName::Desk(host) => on_host(host, entry.cites),
        ActorName::Dir(host, _) => on_host(host, entry.cites),
        ActorName::Conv(host, _, _) => on_host(host, entry.cites),
        ActorName::Medium(medium) => on_medium(medium, &entry.event, &entry.reply),
        ActorName::Clock => Sight::Nothing,
    }
}

fn on_host(host: u32, cites: Option<u64>) -> Sight
    ensures { result ≡ spec.on_host host cites }
{
    match cites {
        Some(_) => Sight::Nothing,
        None => Sight::Did { host },
    }
}

fn on_medium(medium: u32, event: &Event, reply: &Reply) -> Sight
    ensures { result ≡ spec.sight_on_medium medium event.now reply.now }
{
    match event {
        Event::Put { to } => put(medium, *to, reply),
        Event::Take => taken(medium, reply),
        _ => Sight::Nothing,
    }
}

fn put(medium: u32, to: Option<u32>, reply: &Reply) -> Sight
    ensures { result ≡ spec.put_on medium to reply.now }
{
    match to {
        Some(to) => laid(medium, to, reply),
        None => Sight::Nothing,
    }
}

fn laid(medium: u32, to: u32, reply: &Reply) -> Sight
    ensures { result ≡ spec.laid_on medium to reply.now }
{
    match reply {
        Reply::Laid { frame } => Sight::Laid {
            medium,
            number: *frame,
            to,
        },
        _ => Sight::Nothing,
    }
}

fn taken(medium: u32, reply: &Reply) -> Sight
    ensures { result ≡ spec.sight_taken medium reply.now }
{
    match reply {
        Reply::Copy { frame } => Sight::Came {
            medium,
            number: *frame,
        },
        _ => Sight::Nothing,
    }
}

/// Whether it has a row of its own: on a brief page only a frame that is laid.
pub fn has_row(brief: bool, sight: Sight) -> bool
    ensures { result ≡ spec.has_row brief sight }
{
    match sight {
        Sight::Laid { .. } => true,
        Sight::Came { .. } => !brief,
        Sight::Did { .. } => !brief,
        Sight::Nothing => false,
    }
}

/// The host of an actor.
pub fn host_of(actor: ActorName) -> Option<u32>
    ensures { result ≡ spec.host_of actor }
{
    match actor {
        ActorName::Desk(host) => Some(host),
        ActorName::Dir(host, _) => Some(host),
        ActorName::Conv(host, _, _) => Some(host),
        ActorName::Medium(_) => None,
        ActorName::Clock => None,
    }
}
