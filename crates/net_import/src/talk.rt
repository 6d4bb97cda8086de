//! One message and its reply.
ghost use Rattle.std.specs.Prelude.{◌≡◌, IfOk, is_none};
ghost use Rattle.net_import.specs.Talks as spec;

use net_base::{Octets, Reply};
use script_task::{Request, is_accepted};
use std::alloc::AllocError;

/// How many bytes are read at a time: no message is longer.
const LONG: u32 = 8192;

/// What is done of a message.
#[derive(Clone, Copy, Debug, PartialEq, Eq)]
pub enum TalkPhase {
    Write,
    Read,
    Over,
}

/// A message over a call: it is written, and then a reply is read.
#[derive(Debug, Drop)]
pub struct Talk {
    pub(crate) call: Octets,
    pub(crate) message: Octets,
    pub(crate) phase: TalkPhase,
}

impl Clone for Talk {
    ghost is_clone = { λ talk copy. copy ≡ talk };

    fn clone(&self) -> Result<Talk, AllocError> {
        Ok(Talk {
            call: self.call.clone()?,
            message: self.message.clone()?,
            phase: self.phase,
        })
    }
}

impl Talk {
    /// Nothing of it is done yet.
    pub(crate) fn new(call: Octets, message: Octets) -> Talk
        ensures { result ≡ spec.begun call message }
    {
        Talk {
            call,
            message,
            phase: TalkPhase::Write,
        }
    }

    /// Its next request.
    pub(crate) fn next(&self) -> Result<Option<Request>, AllocError>
        ensures { IfOk result (λ q. q ≡ spec.asks self.now) }
    {
        match self.phase {
            TalkPhase::Write => Ok(Some(Request::Write {
                name: self.call.clone()?,
                text: self.message.clone()?,
            })),
            TalkPhase::Read => Ok(Some(Request::Read {
                name: self.call.clone()?,
                count: LONG,
            })),
            TalkPhase::Over => Ok(None),
        }
    }

    /// Whether the message is still to be written.
    pub(crate) fn writes(&self) -> bool
        ensures { result ≡ spec.is_writing self.now.phase }
    {
        self.phase == TalkPhase::Write
    }

    /// Whether the message went out, and its reply is still to be read.
    pub(crate) fn reads(&self) -> bool
        ensures { result ≡ spec.is_reading self.now.phase }
    {
        self.phase == TalkPhase::Read
    }

    /// Whether it has no request.
    pub(crate) fn is_over(&self) -> bool
        ensures { result ≡ is_none (spec.asks self.now) }
    {
        self.phase == TalkPhase::Over
    }

    /// Takes a reply.
    pub(crate) fn told(&mut self, reply: &Reply)
        ensures { self.new ≡ spec.after self.old reply.now }
    {
        self.phase = match self.phase {
            TalkPhase::Write if is_accepted(reply) => TalkPhase::Read,
            _ => TalkPhase::Over,
        };
    }

    /// The next message over the same call.
    pub(crate) fn goes_on(&mut self, message: Octets)
        ensures { self.new ≡ spec.begun self.old.call message }
    {
        self.message = message;
        self.phase = TalkPhase::Write;
    }

    /// Takes a reply, which another message follows or none.
    pub(crate) fn moves(&mut self, message: Option<Octets>, reply: &Reply)
        ensures { self.new ≡ spec.moves_talk self.old message reply.now }
    {
        match message {
            Some(message) => self.goes_on(message),
            None => self.told(reply),
        }
    }
}
