//! How a run ends.

/// All is done, the end moment came, or a caller has no room for another entry.
#[derive(Clone, Copy, Debug, PartialEq, Eq)]
pub enum RunEnd {
    Done,
    Stopped,
    Limit,
}
