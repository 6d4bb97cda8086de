//! The words that files are named and controlled by.
use crate::address::{Addr, Proto};

/// How a file is opened.
#[derive(Clone, Copy, Debug, PartialEq, Eq)]
pub enum Mode {
    Read,
    Write,
    Both,
}

/// A file of a conversation.
#[derive(Clone, Copy, Debug, PartialEq, Eq)]
pub enum FileName {
    Ctl,
    Data,
    Err,
    Listen,
    Local,
    Remote,
    Status,
}

/// What a path under /net names.
#[derive(Clone, Copy, Debug, PartialEq, Eq)]
pub enum Node {
    /// `/net`
    Root,
    /// `/net/cs`
    Cs,
    /// `/net/il` or `/net/udp`
    Proto(Proto),
    /// The clone file of a protocol.
    Clone(Proto),
    /// The directory of a slot, 0 to 31.
    Dir(Proto, u32),
    /// A file of a slot, 0 to 31.
    File(Proto, u32, FileName),
}

/// What is written to a ctl file.
#[derive(Clone, Copy, Debug, PartialEq, Eq)]
pub enum Ctl {
    Connect { remote: Addr, lport: Option<u16> },
    /// An `ip` of None is any address, and a `port` of None is any port.
    Announce { ip: Option<u32>, port: Option<u16> },
    Bind { port: u16 },
    Hangup,
    Ttl { n: u8 },
    Tos { n: u8 },
}
