//! What is asked of an end.

/// What an end may be asked for.
#[derive(Clone, Copy, Debug, PartialEq, Eq)]
pub enum Ask {
    /// A message is to be written.
    Write,
    /// Bytes are to be read.
    Read,
    /// The other end's answer to a connect is waited for.
    Wait,
}
