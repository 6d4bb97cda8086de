//! What a step leaves and gives.
ghost use Rattle.std.specs.Prelude.{◌≡◌, ◌+◌, ◌==◌, false, if◌then◌else◌, nat_lt, Some, None, is_some, Option};
ghost use Rattle.std.specs.Option.{option_map};
ghost use Rattle.net_base.specs.declared.il.IlMsg.{IlMsg as Message};
ghost use Rattle.net_base.specs.declared.packet.Body.TheVariants as body_of;
ghost use Rattle.net_base.specs.declared.reply.Reply.TheVariants as reply;
ghost use Rattle.net_base.specs.ActorStep.{Step};
ghost use Rattle.net_base.specs.Conversation as spec;
ghost use Rattle.conversation.specs.Kept.{as_step};

use crate::conv::Conv;
use crate::reply_and_copy::ReplyAndCopy;
use net_base::{Body, IlMsg, Outcome, Packet, StateName};

impl Conv {
    /// Whether it is Closed with no file open.
    pub(super) fn is_over(&self) -> bool
        ensures { result ≡ spec.is_over self.now.conv }
    {
        self.core.state_name() == StateName::Closed && self.opens == 0
    }

    /// What a step gives that leaves the conversation so.
    pub(super) fn left(&self, was_over: bool, answer: ReplyAndCopy, emit: Option<Packet>) -> Outcome
        ensures { result ≡ record {
          reply = answer;
          copy = Some answer;
          emit = emit;
          taken = None;
          ended = if was_over then false else spec.is_over self.now.conv;
        } }
    {
        let ReplyAndCopy { reply, copy } = answer;
        Outcome {
            reply,
            copy: Some(copy),
            emit,
            taken: None,
            ended: !was_over && self.is_over(),
        }
    }

    /// What a step gives that changes nothing.
    pub(super) fn replies(&self, answer: ReplyAndCopy) -> Outcome
        ensures { result ≡ (spec.only_replies self.now.conv answer).outcome }
    {
        self.left(self.is_over(), answer, None)
    }

    /// A packet to the other end.
    pub(super) fn packet(&self, body: Body) -> Packet
        ensures { result ≡ spec.packet_of self.now.conv body }
    {
        Packet {
            src: self.pair.local,
            dst: self.pair.remote,
            ttl: self.ttl,
            tos: self.tos,
            body,
        }
    }

    /// What a step gives that leaves the conversation so, and whose IL end emits this.
    pub(super) fn turned(
        &self,
        was_over: bool,
        answer: ReplyAndCopy,
        message: Option<IlMsg>,
    ) -> Outcome
        ensures { result ≡ record {
          reply = answer;
          copy = Some answer;
          emit = option_map (λ (m : Message). spec.packet_of self.now.conv (body_of.Il m)) message;
          taken = None;
          ended = if was_over then false else spec.is_over self.now.conv;
        } }
    {
        let emit = match message {
            Some(message) => Some(self.packet(Body::Il(message))),
            None => None,
        };
        self.left(was_over, answer, emit)
    }

    /// What an event of another generation gets: an older one is stale, and a newer one waits.
    pub(super) fn stale(&self, generation: u64) -> Option<Outcome>
        ensures { as_step self.now.conv result ≡ (if nat_lt generation
            self.now.conv.generation then Some (spec.only_replies self.now.conv reply.Stale) else None) }
    {
        if generation < self.generation {
            Some(self.replies(ReplyAndCopy::stale()))
        } else {
            None
        }
    }

    /// Whether a generation is the next.
    pub(super) fn is_next(&self, generation: u64) -> bool
        ensures { result ≡ (generation == self.now.conv.generation + 1) }
    {
        0 < generation && generation - 1 == self.generation
    }

    /// Whether an event gets an answer, where it does or doesn't so in its own generation.
    pub(super) fn is_answered(&self, generation: u64, own: bool) -> bool
        ensures { (step : Option (Step spec.Conv)) → is_some step ≡ own
            → result ≡ is_some (spec.in_generation generation self.now.conv step) }
    {
        if generation == self.generation {
            own
        } else {
            generation < self.generation
        }
    }

    /// Whether an event that raises the generation gets an answer, where it does or doesn't so in the next one.
    pub(super) fn is_raised(&self, generation: u64, next: bool) -> bool
        ensures { (step : Option (Step spec.Conv)) → is_some step ≡ next
            → result ≡ is_some (spec.raises generation self.now.conv step) }
    {
        if self.is_next(generation) {
            next
        } else {
            generation < self.generation
        }
    }
}
