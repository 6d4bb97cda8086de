//! What an entry does with a packet.
ghost use Rattle.std.specs.Prelude.{◌≡◌};
ghost use Rattle.packet_rows.specs.Deeds as spec;

use net_base::{ActorName, Entry, Event, Header, Reply};

/// What becomes of a packet.
#[derive(Clone, Copy)]
pub enum Fate {
    /// It lies in the frame of this number.
    Laid(u64),
    TooBig,
    NoStation,
    NoRoute,
    /// Its ttl is used up.
    NoTtl,
}

/// What an entry does with a packet: it is put on a link for a station, a copy of a frame is taken, or a host sends it.
#[derive(Clone, Copy)]
pub enum Deed {
    Put {
        medium: u32,
        to: Option<u32>,
        fate: Fate,
    },
    Took {
        medium: u32,
        number: u64,
    },
    Sent {
        from: u32,
        header: Header,
    },
    Nothing,
}

fn put_on(medium: u32, to: Option<u32>, reply: &Reply) -> Deed
    ensures { result ≡ spec.put_deed medium to reply.now }
{
    match reply {
        Reply::Laid { frame } => Deed::Put {
            medium,
            to,
            fate: Fate::Laid(*frame),
        },
        Reply::TooBig => Deed::Put {
            medium,
            to,
            fate: Fate::TooBig,
        },
        Reply::NoStation => Deed::Put {
            medium,
            to,
            fate: Fate::NoStation,
        },
        _ => Deed::Nothing,
    }
}

fn taken_from(medium: u32, reply: &Reply) -> Deed
    ensures { result ≡ spec.take_deed medium reply.now }
{
    match reply {
        Reply::Copy { frame } => Deed::Took {
            medium,
            number: *frame,
        },
        _ => Deed::Nothing,
    }
}

fn at_medium(medium: u32, event: &Event, reply: &Reply) -> Deed
    ensures { result ≡ spec.deed_at_medium medium event.now reply.now }
{
    match event {
        Event::Put { to } => put_on(medium, *to, reply),
        Event::Take => taken_from(medium, reply),
        _ => Deed::Nothing,
    }
}

fn at_host(from: u32, emits: Option<Header>) -> Deed
    ensures { result ≡ spec.deed_at_host from emits }
{
    match emits {
        Some(header) => Deed::Sent { from, header },
        None => Deed::Nothing,
    }
}

/// What an entry does with a packet.
pub fn deed_of(entry: &Entry) -> Deed
    ensures { result ≡ spec.deed_of entry.now }
{
    match entry.actor {
        ActorName::Desk(host) => at_host(host, entry.emits),
        ActorName::Dir(host, _) => at_host(host, entry.emits),
        ActorName::Conv(host, _, _) => at_host(host, entry.emits),
        ActorName::Medium(medium) => at_medium(medium, &entry.event, &entry.reply),
        ActorName::Clock => Deed::Nothing,
    }
}
