//! Names of actors, and calls that wait at a listener.
ghost use Rattle.std.specs.Prelude.{◌≡◌};
ghost use Rattle.net_base.specs.Stamped as spec;

use crate::address::Proto;
use crate::sequence::Sequence;

/// Names an actor by its host, protocol, slot or medium, in the order of its printed name.
#[derive(Clone, Copy, Debug, PartialEq, Eq)]
pub enum ActorName {
    /// The desk of a host.
    Desk(u32),
    /// The directory of a host and protocol.
    Dir(u32, Proto),
    /// A slot's conversation of a host and protocol.
    Conv(u32, Proto, u32),
    /// A medium, by its number.
    Medium(u32),
    Clock,
}

/// Actors in order, which contracts see as a list.
pub type ActorList = Sequence<ActorName>;

/// A conversation that waits to be listened for.
#[derive(Clone, Copy, Debug, PartialEq, Eq)]
pub struct Call {
    pub slot: u32,
    pub generation: u64,
}

/// Calls in order, which contracts see as a list.
pub type CallList = Sequence<Call>;

/// Whether two names are of one actor.
pub fn same_actor(a: ActorName, b: ActorName) -> bool
    ensures { result ≡ spec.same_actor a b }
{
    match (a, b) {
        (ActorName::Desk(h), ActorName::Desk(i)) => h == i,
        (ActorName::Dir(h, p), ActorName::Dir(i, q)) => h == i && p == q,
        (ActorName::Conv(h, p, m), ActorName::Conv(i, q, n)) => h == i && p == q && m == n,
        (ActorName::Medium(m), ActorName::Medium(n)) => m == n,
        (ActorName::Clock, ActorName::Clock) => true,
        _ => false,
    }
}
