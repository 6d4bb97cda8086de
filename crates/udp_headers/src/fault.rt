//! What is wrong with bytes that begin with no headers.

/// The first fault, in the order in which faults are told.
#[derive(Clone, Copy, Debug, PartialEq, Eq)]
pub enum HeadersError {
    /// The headers aren't whole.
    Short,
    /// An address isn't one of IPv4.
    NotMapped,
}
