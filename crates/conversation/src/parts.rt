//! What a conversation is made of.
ghost use Rattle.std.specs.Prelude.{◌≡◌, IfOk};
ghost use Rattle.net_base.specs.Conversation as spec;
ghost use Rattle.conversation.specs.Kept.{seen_core, IsKept};
ghost use Rattle.conversation.specs.declared.parts.Stage.TheVariants as stage;

use crate::il::IlCore;
use net_base::{Body, IlKind, IlState, StateName};
use std::alloc::{AllocError, Global};
use udp_core::UdpEnd;

/// The longest message, in bytes.
const LONGEST_MESSAGE: u32 = 8192;

/// What a conversation became in its generation: Connected is connected or born.
#[derive(Clone, Copy, Debug, PartialEq, Eq)]
pub enum Stage {
    Unused,
    Listening,
    Connected,
}

/// The end of a conversation.
#[derive(Drop)]
pub enum Core {
    Il(IlCore),
    Udp(UdpEnd),
}

impl Core {
    /// An end of the same protocol, with the same kind of timers, that nothing happened to.
    pub fn fresh_like(&self, alloc: Global) -> Result<Core, AllocError>
        ensures fresh { IfOk result (λ core. seen_core core ≡ spec.fresh_like (seen_core self.now)) }
        ensures kept { IfOk result (λ core. IsKept stage.Unused core) }
    {
        match self {
            Core::Il(end) => Ok(Core::Il(IlCore::fresh(alloc, end.timers())?)),
            Core::Udp(_) => Ok(Core::Udp(UdpEnd::fresh(alloc)?)),
        }
    }

    /// Its state as it is printed.
    pub fn state_name(&self) -> StateName
        ensures { result ≡ spec.core_name (seen_core self.now) }
    {
        match self {
            Core::Il(end) => match end.state() {
                IlState::Closed => StateName::Closed,
                IlState::Syncer => StateName::Syncer,
                IlState::Syncee => StateName::Syncee,
                IlState::Established => StateName::Established,
                IlState::Listening => StateName::Listening,
                IlState::Closing => StateName::Closing,
            },
            Core::Udp(end) => end.state(),
        }
    }

    /// Whether a packet is of its protocol.
    pub fn has_protocol(&self, body: &Body) -> bool
        ensures { result ≡ spec.has_protocol (seen_core self.now) body.now }
    {
        match (self, body) {
            (Core::Il(_), Body::Il(_)) | (Core::Udp(_), Body::Udp(_)) => true,
            _ => false,
        }
    }

    /// Whether a conversation may be born from a packet: for IL from a sync.
    pub fn may_bear(&self, body: &Body) -> bool
        ensures { result ≡ spec.may_bear (seen_core self.now) body.now }
    {
        match (self, body) {
            (Core::Il(_), Body::Il(message)) => message.kind == IlKind::Sync,
            (Core::Udp(_), Body::Udp(_)) => true,
            _ => false,
        }
    }

    /// Whether it may be connected with this start and limit.
    pub fn may_connect(&self, start: u32, limit: u32) -> bool
        ensures { result ≡ spec.may_connect (seen_core self.now) start limit }
    {
        match self {
            Core::Il(_) => 0 < start && limit <= LONGEST_MESSAGE,
            Core::Udp(_) => limit <= LONGEST_MESSAGE,
        }
    }
}
