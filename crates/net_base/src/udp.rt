//! The states of UDP ends.

/// The state of a UDP end.
#[derive(Clone, Copy, Debug, PartialEq, Eq)]
pub enum UdpState {
    /// It was never connected or announced.
    Fresh,
    Listening,
    Open,
    HungUp,
}
