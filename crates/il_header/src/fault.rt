//! What is wrong with bytes that are no IL message.

/// The first fault, in the order in which faults are told.
#[derive(Clone, Copy, Debug, PartialEq, Eq)]
pub enum IlError {
    /// The header isn't whole.
    Short,
    /// The sum field isn't the sum.
    Sum,
    /// The header tells another number of bytes.
    Length,
    /// No message has this type.
    BadType,
}
