//! A reply with its copy.
ghost use Rattle.std.specs.Prelude.{◌≡◌, ◌<◌, length, IfOk, OnErr};
ghost use Rattle.net_base.specs.declared.reply.Reply.TheVariants as reply;

use net_base::{Cause, Lines, Octets, Reply, StateName};
use std::alloc::{AllocError, Global};
use std::marker::Model;

/// A reply, twice, so that one can stand in the entry. Clauses see the reply.
#[derive(Drop)]
pub struct ReplyAndCopy {
    pub reply: Reply,
    pub copy: Reply,
}

impl Model for ReplyAndCopy {
    ghost use Rattle.std.specs.Prelude.{◌≡◌};
    ghost use Rattle.net_base.specs.declared.reply.Reply.{Reply as Answer};

    ghost Value = { Answer };

    ghost view = { λ s. s.reply };

    ghost invariant = { λ s. s.copy ≡ s.reply };
}

impl ReplyAndCopy {
    pub fn ok() -> ReplyAndCopy
        ensures { result ≡ reply.Ok }
    {
        ReplyAndCopy {
            reply: Reply::Ok,
            copy: Reply::Ok,
        }
    }

    pub fn stale() -> ReplyAndCopy
        ensures { result ≡ reply.Stale }
    {
        ReplyAndCopy {
            reply: Reply::Stale,
            copy: Reply::Stale,
        }
    }

    pub fn left() -> ReplyAndCopy
        ensures { result ≡ reply.Left }
    {
        ReplyAndCopy {
            reply: Reply::Left,
            copy: Reply::Left,
        }
    }

    pub fn took() -> ReplyAndCopy
        ensures { result ≡ reply.Took }
    {
        ReplyAndCopy {
            reply: Reply::Took,
            copy: Reply::Took,
        }
    }

    pub fn full() -> ReplyAndCopy
        ensures { result ≡ reply.Full }
    {
        ReplyAndCopy {
            reply: Reply::Full,
            copy: Reply::Full,
        }
    }

    pub fn ticked() -> ReplyAndCopy
        ensures { result ≡ reply.Ticked }
    {
        ReplyAndCopy {
            reply: Reply::Ticked,
            copy: Reply::Ticked,
        }
    }

    pub fn not_due() -> ReplyAndCopy
        ensures { result ≡ reply.NotDue }
    {
        ReplyAndCopy {
            reply: Reply::NotDue,
            copy: Reply::NotDue,
        }
    }

    pub fn not_open() -> ReplyAndCopy
        ensures { result ≡ reply.NotOpen }
    {
        ReplyAndCopy {
            reply: Reply::NotOpen,
            copy: Reply::NotOpen,
        }
    }

    pub fn zero_write() -> ReplyAndCopy
        ensures { result ≡ reply.ZeroWrite }
    {
        ReplyAndCopy {
            reply: Reply::ZeroWrite,
            copy: Reply::ZeroWrite,
        }
    }

    pub fn opened(generation: u64) -> ReplyAndCopy
        ensures { result ≡ reply.Opened generation }
    {
        ReplyAndCopy {
            reply: Reply::Opened { generation },
            copy: Reply::Opened { generation },
        }
    }

    pub fn wrong(state: StateName) -> ReplyAndCopy
        ensures { result ≡ reply.WrongState state }
    {
        ReplyAndCopy {
            reply: Reply::WrongState { state },
            copy: Reply::WrongState { state },
        }
    }

    pub fn hungup(cause: Cause) -> ReplyAndCopy
        ensures { result ≡ reply.Hungup cause }
    {
        ReplyAndCopy {
            reply: Reply::Hungup { cause },
            copy: Reply::Hungup { cause },
        }
    }

    pub fn count(count: u32) -> ReplyAndCopy
        ensures { result ≡ reply.Count count }
    {
        ReplyAndCopy {
            reply: Reply::Count { count },
            copy: Reply::Count { count },
        }
    }

    pub fn too_long(length: u64, limit: u32) -> ReplyAndCopy
        ensures { result ≡ reply.TooLong length limit }
    {
        ReplyAndCopy {
            reply: Reply::TooLong { length, limit },
            copy: Reply::TooLong { length, limit },
        }
    }

    pub fn bad_control(number: u32) -> ReplyAndCopy
        ensures { result ≡ reply.BadCtl number }
    {
        ReplyAndCopy {
            reply: Reply::BadCtl { number },
            copy: Reply::BadCtl { number },
        }
    }

    /// A reply of these bytes.
    pub fn bytes(alloc: Global, bytes: &[u8]) -> Result<ReplyAndCopy, AllocError>
        ensures ok { IfOk result (λ answer. answer ≡ reply.Bytes bytes.now) }
        ensures memory { OnErr result (0 < length bytes.now) }
    {
        let copy = Octets::copy_of(alloc, bytes)?;
        let bytes = Octets::copy_of(alloc, bytes)?;
        Ok(ReplyAndCopy::read(bytes, copy))
    }

    /// A reply of these bytes, whose copy was made before.
    pub fn read(bytes: Octets, copy: Octets) -> ReplyAndCopy
        requires { copy ≡ bytes }
        ensures { result ≡ reply.Bytes bytes }
    {
        ReplyAndCopy {
            reply: Reply::Bytes { bytes },
            copy: Reply::Bytes { bytes: copy },
        }
    }

    /// A reply of these names.
    pub fn names(names: Lines) -> Result<ReplyAndCopy, AllocError>
        ensures { IfOk result (λ answer. answer ≡ reply.Names names) }
    {
        let copy = names.clone()?;
        Ok(ReplyAndCopy {
            reply: Reply::Names { names },
            copy: Reply::Names { names: copy },
        })
    }
}
