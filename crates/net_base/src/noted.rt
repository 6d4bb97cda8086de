//! What proofs keep of a history: entries with their works, and whose entries are meant.
use crate::actor::ActorName;
use crate::history::{Entry, Work};

/// An entry with the work that led to it. Proofs alone make one.
#[derive(Debug, Drop)]
pub struct Noted {
    pub entry: Entry,
    pub work: Work,
}

/// Whose entries of a history are meant: a caller's or an actor's.
#[derive(Clone, Copy, Debug)]
pub enum Number {
    Caller(u32),
    Actor(ActorName),
}
