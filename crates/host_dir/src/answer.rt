//! What a directory answers.
ghost use Rattle.std.specs.Prelude.{◌≡◌, None, Some};
ghost use Rattle.net_base.specs.ActorStep.{replies};
ghost use Rattle.host_dir.specs.Answers.{recorded_reply};

use net_base::{Outcome, Packet, Pair, Reply, StateName};

/// What a directory answers without memory. A pair's number counts from 1; limits are in bytes.
#[derive(Clone, Copy, Debug, PartialEq, Eq)]
pub enum Answer {
    Slot {
        slot: u32,
        generation: u64,
    },
    NoSlot,
    Granted {
        pair: Pair,
        start: u32,
        limit: u32,
    },
    WrongState(StateName),
    NoRoute,
    NoPort,
    SelfPair,
    PairUsed(u64),
    Ok,
    PortTaken(u32),
    Call {
        slot: u32,
        generation: u64,
    },
    NoFile,
    To {
        slot: u32,
        generation: u64,
    },
    Born {
        slot: u32,
        generation: u64,
        start: u32,
        limit: u32,
    },
    Refused,
    Dropped,
    Stale,
}

/// What a step gives, by its reply and an equal copy of it.
pub fn outcome(reply: Reply, copy: Reply, emit: Option<Packet>) -> Outcome
    requires { copy ≡ reply }
    ensures { result ≡ replies reply emit }
{
    Outcome {
        reply,
        copy: Some(copy),
        emit,
        taken: None,
        ended: false,
    }
}

impl Answer {
    /// The reply that is recorded.
    fn reply(self) -> Reply
        ensures { result ≡ recorded_reply self }
    {
        match self {
            Answer::Slot { slot, generation } => Reply::Slot { slot, generation },
            Answer::NoSlot => Reply::NoSlot,
            Answer::Granted { pair, start, limit } => Reply::Granted { pair, start, limit },
            Answer::WrongState(state) => Reply::WrongState { state },
            Answer::NoRoute => Reply::NoRoute,
            Answer::NoPort => Reply::NoPort,
            Answer::SelfPair => Reply::SelfPair,
            Answer::PairUsed(k) => Reply::PairUsed { k },
            Answer::Ok => Reply::Ok,
            Answer::PortTaken(slot) => Reply::PortTaken { slot },
            Answer::Call { slot, generation } => Reply::Call { slot, generation },
            Answer::NoFile => Reply::NoFile,
            Answer::To { slot, generation } => Reply::To { slot, generation },
            Answer::Born {
                slot,
                generation,
                start,
                limit,
            } => Reply::Born {
                slot,
                generation,
                start,
                limit,
            },
            Answer::Refused => Reply::Refused,
            Answer::Dropped => Reply::Dropped,
            Answer::Stale => Reply::Stale,
        }
    }

    /// What a step with this answer gives, which emits nothing.
    pub fn outcome(self) -> Outcome
        ensures { result ≡ replies (recorded_reply self) None }
    {
        outcome(self.reply(), self.reply(), None)
    }

    /// What a step with this answer gives, which emits the packet.
    pub fn emitting(self, packet: Packet) -> Outcome
        ensures { result ≡ replies (recorded_reply self) (Some packet) }
    {
        outcome(self.reply(), self.reply(), Some(packet))
    }
}
