//! What is wrong with bytes that are no datagram.

/// The first fault, in the order in which faults are told.
#[derive(Clone, Copy, Debug, PartialEq, Eq)]
pub enum WireError {
    /// The header isn't whole.
    Short,
    /// The version isn't 4.
    Version,
    /// The header has options, or is too short for one.
    Options,
    /// It is a fragment.
    Fragment,
    /// The sum field isn't the sum.
    Sum,
    /// The header tells another number of bytes.
    Length,
}
