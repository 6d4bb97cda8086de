//! What a timer is made of, and what it says.

/// The timers of a world: the same for all times, or by measured round trips.
#[derive(Clone, Copy, Debug, PartialEq, Eq)]
pub enum Timers {
    Fixed,
    Measured,
}

/// The message whose round trip is measured, and the moment in ms at which it was first sent.
#[derive(Clone, Copy, Debug, PartialEq, Eq)]
pub struct Probe {
    pub k: u64,
    pub at: u64,
}

/// The answer of a tick of an IL end's timer.
#[derive(Clone, Copy, Debug, PartialEq, Eq)]
pub enum Tick {
    /// Nothing is due yet.
    NotDue,
    /// The end asks once more.
    Again,
    /// The other end was silent for too long.
    TimedOut,
}
