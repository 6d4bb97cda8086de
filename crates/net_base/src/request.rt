//! What a task asks for.
ghost use Rattle.std.specs.Prelude.{◌≡◌};

use crate::headers::Heard;
use crate::names::Mode;
use crate::octets::Octets;
use std::alloc::AllocError;

/// A file operation, which names its file as its caller has bound it. Counts are in bytes, moments in ms.
#[derive(Debug, Drop)]
pub enum Request {
    /// Opens the file of the path, and binds the name to it.
    Open {
        name: Octets,
        path: Octets,
        mode: Mode,
    },
    Read {
        name: Octets,
        count: u32,
    },
    Write {
        name: Octets,
        text: Octets,
    },
    Close {
        name: Octets,
    },
    /// Asks the connection server.
    Cs {
        query: Octets,
    },
    Ls {
        path: Octets,
    },
    Until {
        moment: u64,
    },
    /// Has the connection server read its database again.
    Refresh,
    /// Reads a datagram of which an `hread` was told this.
    Hear {
        name: Octets,
        count: u32,
        heard: Heard,
    },
    /// Waits until the conversation is connected.
    Wait {
        name: Octets,
    },
    /// The name isn't bound, or was to be bound and is bound already.
    Unbound {
        name: Octets,
    },
    /// The name isn't open for that direction.
    Misuse {
        name: Octets,
    },
}

impl Clone for Request {
    ghost is_clone = { λ request copy. copy ≡ request };

    fn clone(&self) -> Result<Request, AllocError> {
        Ok(match self {
            Request::Open { name, path, mode } => Request::Open {
                name: name.clone()?,
                path: path.clone()?,
                mode: *mode,
            },
            Request::Read { name, count } => Request::Read {
                name: name.clone()?,
                count: *count,
            },
            Request::Write { name, text } => Request::Write {
                name: name.clone()?,
                text: text.clone()?,
            },
            Request::Close { name } => Request::Close {
                name: name.clone()?,
            },
            Request::Cs { query } => Request::Cs {
                query: query.clone()?,
            },
            Request::Ls { path } => Request::Ls {
                path: path.clone()?,
            },
            Request::Until { moment } => Request::Until { moment: *moment },
            Request::Refresh => Request::Refresh,
            Request::Hear { name, count, heard } => Request::Hear {
                name: name.clone()?,
                count: *count,
                heard: heard.clone()?,
            },
            Request::Wait { name } => Request::Wait {
                name: name.clone()?,
            },
            Request::Unbound { name } => Request::Unbound {
                name: name.clone()?,
            },
            Request::Misuse { name } => Request::Misuse {
                name: name.clone()?,
            },
        })
    }
}
