//! What IL ends say to one another, and the states of conversations.
use crate::octets::Octets;

/// The type of an IL message, from 0 on the wire.
#[derive(Clone, Copy, Debug, PartialEq, Eq)]
pub enum IlKind {
    Sync,
    Data,
    DataQuery,
    Ack,
    Query,
    State,
    Close,
}

/// An IL message. A close with spec 1 refuses a sync; every other message has spec 0.
#[derive(Clone, Debug, Drop)]
pub struct IlMsg {
    pub kind: IlKind,
    pub spec: u8,
    pub id: u32,
    pub ack: u32,
    pub text: Octets,
}

/// The state of an IL end.
#[derive(Clone, Copy, Debug, PartialEq, Eq)]
pub enum IlState {
    Closed,
    Syncer,
    Syncee,
    Established,
    Listening,
    Closing,
}

/// Why an end is closed.
#[derive(Clone, Copy, Debug, PartialEq, Eq)]
pub enum Cause {
    Refused = 1,
    TimedOut = 2,
    Hungup = 3,
    ByPeer = 4,
}

/// The states of a directory's slots and of conversations, as they are printed.
#[derive(Clone, Copy, Debug, PartialEq, Eq)]
pub enum StateName {
    Free,
    Reserved,
    Announced,
    Granted,
    Withdrawn,
    Closed,
    Syncer,
    Syncee,
    Established,
    Listening,
    Closing,
    Open,
}
