//! Gates: what watches the locks of the actors.

/// Called in the lock of an actor before each record, and after the lock is released.
pub trait Gate {
    /// Says that a place is reached. Nothing is known of it afterwards.
    fn at(&self, place: u32);
}

/// A gate that never holds anybody up.
#[derive(Debug, Drop)]
pub struct OpenGate;

impl Gate for OpenGate {
    fn at(&self, _place: u32) {}
}
