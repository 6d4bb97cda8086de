//! Entries of the history, and the works and outcomes that they come from.
use crate::actor::ActorName;
use crate::address::Pair;
use crate::event::Event;
use crate::packet::{Header, Packet};
use crate::reply::Reply;
use crate::sequence::Sequence;

/// What a cited entry gives to the event that it owes.
#[derive(Debug, Drop)]
pub enum With {
    Nothing,
    Packet(Packet),
    /// The pair, the first id (IL) and the longest message in bytes of a grant.
    Grant {
        pair: Pair,
        start: u32,
        limit: u32,
    },
    /// The address, 0 for any, and the port of an announcement or a binding.
    Key {
        ip: u32,
        port: u16,
    },
    /// The packet that a conversation is born from.
    Birth {
        packet: Packet,
        start: u32,
        limit: u32,
    },
}

/// An event with what is given to it.
#[derive(Debug, Drop)]
pub struct Work {
    pub event: Event,
    pub with: With,
}

/// A copy that a courier took of a medium, and the host that it took it for.
#[derive(Debug, Drop)]
pub struct Taken {
    pub frame: u64,
    pub to: u32,
    pub packet: Packet,
}

/// What a step gives. `copy` is equal to `reply`, so that one can stand in the entry; `taken` is what a `take` gives.
#[derive(Debug, Drop)]
pub struct Outcome {
    pub reply: Reply,
    pub copy: Option<Reply>,
    pub emit: Option<Packet>,
    pub taken: Option<Taken>,
    pub ended: bool,
}

/// One event at one actor by one caller. Its stamp is its place in the history, from 0; `cites` is the stamp of the entry
/// that owed it.
#[derive(Debug, Drop)]
pub struct Entry {
    pub actor: ActorName,
    pub caller: u32,
    pub moment: u64,
    pub event: Event,
    pub cites: Option<u64>,
    pub reply: Reply,
    pub emits: Option<Header>,
    pub ended: bool,
}

/// Entries by stamp, which contracts see as a list.
pub type History = Sequence<Entry>;
