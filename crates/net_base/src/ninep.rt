//! Messages of 9P2000, and what the fids of a session stand for.
use crate::names::Node;
use crate::octets::{Lines, Octets};
use crate::sequence::Sequence;

/// Qids in order, which contracts see as a list.
pub type Qids = Sequence<Qid>;

/// What a file is to its server: two files are one where their paths are.
#[derive(Clone, Copy, Debug, PartialEq, Eq, Drop)]
pub struct Qid {
    /// 128 for a directory.
    pub kind: u8,
    pub version: u32,
    pub path: u64,
}

/// A T-message.
#[derive(Debug, Drop)]
pub enum Tmsg {
    Version {
        tag: u16,
        msize: u32,
        version: Octets,
    },
    Auth {
        tag: u16,
        afid: u32,
        uname: Octets,
        aname: Octets,
    },
    Attach {
        tag: u16,
        fid: u32,
        afid: u32,
        uname: Octets,
        aname: Octets,
    },
    Flush {
        tag: u16,
        oldtag: u16,
    },
    Walk {
        tag: u16,
        fid: u32,
        newfid: u32,
        names: Lines,
    },
    Open {
        tag: u16,
        fid: u32,
        mode: u8,
    },
    Create {
        tag: u16,
        fid: u32,
        name: Octets,
        perm: u32,
        mode: u8,
    },
    Read {
        tag: u16,
        fid: u32,
        offset: u64,
        count: u32,
    },
    Write {
        tag: u16,
        fid: u32,
        offset: u64,
        bytes: Octets,
    },
    Clunk {
        tag: u16,
        fid: u32,
    },
    Remove {
        tag: u16,
        fid: u32,
    },
    Stat {
        tag: u16,
        fid: u32,
    },
    Wstat {
        tag: u16,
        fid: u32,
        stat: Octets,
    },
}

/// An R-message.
#[derive(Debug, Drop)]
pub enum Rmsg {
    Version {
        tag: u16,
        msize: u32,
        version: Octets,
    },
    Auth {
        tag: u16,
        aqid: Qid,
    },
    Attach {
        tag: u16,
        qid: Qid,
    },
    Error {
        tag: u16,
        ename: Octets,
    },
    Flush {
        tag: u16,
    },
    Walk {
        tag: u16,
        qids: Qids,
    },
    Open {
        tag: u16,
        qid: Qid,
        iounit: u32,
    },
    Create {
        tag: u16,
        qid: Qid,
        iounit: u32,
    },
    Read {
        tag: u16,
        bytes: Octets,
    },
    Write {
        tag: u16,
        count: u32,
    },
    Clunk {
        tag: u16,
    },
    Remove {
        tag: u16,
    },
    Stat {
        tag: u16,
        stat: Octets,
    },
    Wstat {
        tag: u16,
    },
}

/// What a fid stands for: what its path names, and whether it was opened, be it refused.
#[derive(Clone, Copy, Debug, PartialEq, Eq)]
pub struct Target {
    pub node: Node,
    pub is_used: bool,
}
