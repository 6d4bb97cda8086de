//! Worlds with sessions.
use net_base::{Octets, Sequence, World};

/// A session: its place among the scripts, its host, and the bytes of its messages.
#[derive(Debug, Drop)]
pub struct Session {
    pub place: u32,
    pub host: u32,
    pub stream: Octets,
}

pub type Sessions = Sequence<Session>;

/// A world that has a script without steps in the place of each session.
#[derive(Debug, Drop)]
pub struct SessionWorld {
    pub world: World,
    pub sessions: Sessions,
}
