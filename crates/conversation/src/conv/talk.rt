//! What is read and written, and what comes.
ghost use Rattle.std.specs.Prelude.{◌≡◌, ◌<◌, ◌^◌, ◌==◌, ◌&&◌, ℕ, IfOk, OnErr, Some, None, is_some, length, nat_lt, true};
ghost use Rattle.std.specs.Option.{option_map};
ghost use Rattle.net_base.specs.declared.reply.Reply.{Reply as Answer};
ghost use Rattle.net_base.specs.ActorStep.{when};
ghost use Rattle.net_base.specs.Conversation as spec;
ghost use Rattle.conversation.specs.Kept.{as_step};
ghost use Rattle.net_base.specs.IlTable.{has_unread};
ghost use Rattle.conversation.specs.Memory.{core_has_unread, core_sends, packet_takes, read_takes, text_takes};
ghost use Rattle.conversation.specs.Stands.{IsShort};

use crate::conv::Conv;
use crate::il::IlCore;
use crate::parts::{Core, Stage};
use crate::reply_and_copy::ReplyAndCopy;
use net_base::{Body, Cause, IlState, Octets, Outcome, Packet, StateName};
use std::alloc::{AllocError, Global};
use udp_core::UdpEnd;

impl Conv {
    /// Whether a read is answered in its own generation.
    pub(super) fn may_read(&self) -> bool
        ensures { (count : ℕ) → result ≡ is_some (spec.read_at self.now.conv.stage self.now.conv.core count
            self.now.conv) }
    {
        match self.stage {
            Stage::Unused | Stage::Listening => true,
            Stage::Connected => match &self.core {
                Core::Il(end) => end.may_read(),
                Core::Udp(end) => end.ready_read(),
            },
        }
    }

    /// Whether a write of a text is answered in its own generation.
    pub(super) fn may_write(&self, text: &Octets) -> bool
        ensures { (now : ℕ) → result ≡ is_some (spec.write_at self.now.conv.stage self.now.conv.core now text.now
            self.now.conv) }
    {
        match self.stage {
            Stage::Unused | Stage::Listening => true,
            Stage::Connected => {
                if text.len() == 0 || text.len() > self.limit as usize {
                    return true;
                }
                match &self.core {
                    Core::Il(end) => end.may_write(),
                    Core::Udp(_) => true,
                }
            }
        }
    }

    /// Reads the first bytes that are unread.
    pub(super) fn read(
        &mut self,
        generation: u64,
        count: u32,
    ) -> Result<Option<Outcome>, AllocError>
        ensures ok { IfOk result (λ answer. when (nat_lt 0 count)
            (spec.in_generation generation self.old.conv (spec.read_at self.old.conv.stage self.old.conv.core count
            self.old.conv)) ≡ as_step self.new.conv answer) }
        ensures slot { self.new.slot ≡ self.old.slot }
        ensures err { OnErr result (self.new ≡ self.old) }
        ensures memory { OnErr result ((generation == self.old.conv.generation)
            && read_takes self.old.conv.stage self.old.conv.core ≡ true) }
    {
        if count == 0 {
            return Ok(None);
        }
        if generation != self.generation {
            return Ok(self.stale(generation));
        }
        match self.stage {
            Stage::Unused | Stage::Listening => {
                Ok(Some(self.replies(ReplyAndCopy::wrong(self.core.state_name()))))
            }
            Stage::Connected => self.read_connected(count as usize),
        }
    }

    // Reads of a conversation that is connected.
    fn read_connected(&mut self, count: usize) -> Result<Option<Outcome>, AllocError>
        requires some { 0 < count }
        requires connected { self.old.conv.stage ≡ spec.Connected }
        ensures ok { IfOk result (λ answer. spec.read_at spec.Connected self.old.conv.core count self.old.conv
            ≡ as_step self.new.conv answer) }
        ensures slot { self.new.slot ≡ self.old.slot }
        ensures err { OnErr result (self.new ≡ self.old) }
        ensures memory { OnErr result (core_has_unread self.old.conv.core ≡ true) }
    {
        let was_over = self.is_over();
        match &mut self.core {
            Core::Il(end) => {
                let answer = read_il(self.alloc, end, count)?;
                Ok(self.left_if(was_over, answer))
            }
            Core::Udp(end) => {
                let answer = read_udp(self.alloc, end, count)?;
                Ok(self.left_if(was_over, answer))
            }
        }
    }

    // What a step gives that leaves the conversation so, if it says something.
    fn left_if(&self, was_over: bool, answer: Option<ReplyAndCopy>) -> Option<Outcome>
        ensures { (before : spec.Conv) → spec.is_over before ≡ was_over
            → option_map (λ (answer : Answer). spec.leaves before answer self.now.conv None) answer
            ≡ as_step self.now.conv result }
    {
        match answer {
            Some(answer) => Some(self.left(was_over, answer, None)),
            None => None,
        }
    }

    /// Sends a message.
    pub(super) fn write(
        &mut self,
        now: u64,
        generation: u64,
        text: &Octets,
    ) -> Result<Option<Outcome>, AllocError>
        requires in_time { now < 2 ^ 63 }
        requires short { IsShort self.old.conv }
        ensures ok { IfOk result (λ answer. spec.in_generation generation self.old.conv
            (spec.write_at self.old.conv.stage self.old.conv.core now text.now self.old.conv)
            ≡ as_step self.new.conv answer) }
        ensures slot { self.new.slot ≡ self.old.slot }
        ensures err { OnErr result (self.new ≡ self.old) }
        ensures memory { OnErr result ((generation == self.old.conv.generation)
            && text_takes self.old.conv.stage (length text.now) self.old.conv ≡ true) }
    {
        if generation != self.generation {
            return Ok(self.stale(generation));
        }
        match self.stage {
            Stage::Unused | Stage::Listening => {
                Ok(Some(self.replies(ReplyAndCopy::wrong(self.core.state_name()))))
            }
            Stage::Connected => {
                if text.len() == 0 {
                    return Ok(Some(self.replies(ReplyAndCopy::zero_write())));
                }
                if text.len() > self.limit as usize {
                    let answer = ReplyAndCopy::too_long(text.len() as u64, self.limit);
                    return Ok(Some(self.replies(answer)));
                }
                self.write_connected(now, text)
            }
        }
    }

    // Writes of a message that is no longer than the limit.
    fn write_connected(&mut self, now: u64, text: &Octets) -> Result<Option<Outcome>, AllocError>
        requires in_time { now < 2 ^ 63 }
        requires short { IsShort self.old.conv }
        requires fits { length text.now < 2 ^ 32 }
        ensures ok { IfOk result (λ answer. spec.core_written self.old.conv.core now text.now self.old.conv
            ≡ as_step self.new.conv answer) }
        ensures slot { self.new.slot ≡ self.old.slot }
        ensures err { OnErr result (self.new ≡ self.old) }
        ensures memory { OnErr result (core_sends self.old.conv.core ≡ true) }
    {
        let was_over = self.is_over();
        let count = text.len() as u32;
        match &mut self.core {
            Core::Il(end) => {
                if !end.may_write() {
                    return Ok(None);
                }
                if end.state() != IlState::Established {
                    let cause = end.cause().unwrap_or(Cause::Hungup);
                    return Ok(Some(self.replies(ReplyAndCopy::hungup(cause))));
                }
                let message = end.write(now, text.as_slice())?;
                Ok(Some(self.turned(was_over, ReplyAndCopy::count(count), Some(message))))
            }
            Core::Udp(end) => {
                if end.state() == StateName::Closed {
                    return Ok(Some(self.replies(ReplyAndCopy::hungup(Cause::Hungup))));
                }
                let packet = self.packet(Body::Udp(text.clone()?));
                Ok(Some(self.left(was_over, ReplyAndCopy::count(count), Some(packet))))
            }
        }
    }

    /// A packet of its protocol arrives.
    pub(super) fn arrive(
        &mut self,
        now: u64,
        generation: u64,
        packet: &Packet,
    ) -> Result<Option<Outcome>, AllocError>
        requires in_time { now < 2 ^ 63 }
        requires short { IsShort self.old.conv }
        ensures ok { IfOk result (λ answer. spec.in_generation generation self.old.conv
            (spec.arrived self.old.conv.core packet.now.body now self.old.conv) ≡ as_step self.new.conv answer) }
        ensures slot { self.new.slot ≡ self.old.slot }
        ensures err { OnErr result (self.new ≡ self.old) }
        ensures memory { OnErr result ((generation == self.old.conv.generation)
            && packet_takes self.old.conv.core packet.now.body now ≡ true) }
    {
        if generation != self.generation {
            return Ok(self.stale(generation));
        }
        let was_over = self.is_over();
        match (&mut self.core, &packet.body) {
            (Core::Il(end), Body::Il(message)) => {
                let answer = end.arrive(now, message)?;
                Ok(Some(self.turned(was_over, ReplyAndCopy::took(), answer)))
            }
            (Core::Udp(end), Body::Udp(text)) => {
                if end.is_full() {
                    return Ok(Some(self.replies(ReplyAndCopy::full())));
                }
                let text = text.clone()?;
                // there is room for it
                let _ = end.arrive(text);
                Ok(Some(self.left(was_over, ReplyAndCopy::took(), None)))
            }
            _ => Ok(None),
        }
    }

    /// A tick: its IL end does what is due now. Nothing is ever due at a UDP end.
    pub(super) fn tick(&mut self, now: u64, generation: u64) -> Option<Outcome>
        requires { now < 2 ^ 63 }
        ensures step { spec.in_generation generation self.old.conv
            (Some (spec.ticked self.old.conv.core now self.old.conv)) ≡ as_step self.new.conv result }
        ensures slot { self.new.slot ≡ self.old.slot }
    {
        if generation != self.generation {
            return self.stale(generation);
        }
        let was_over = self.is_over();
        match &mut self.core {
            Core::Il(end) => {
                let answer = if end.is_due(now) {
                    ReplyAndCopy::ticked()
                } else {
                    ReplyAndCopy::not_due()
                };
                let message = end.tick(now);
                Some(self.turned(was_over, answer, message))
            }
            Core::Udp(_) => Some(self.replies(ReplyAndCopy::not_due())),
        }
    }
}

// What a read of an IL end tells; none where it isn't ready.
fn read_il(
    alloc: Global,
    end: &mut IlCore,
    count: usize,
) -> Result<Option<ReplyAndCopy>, AllocError>
    requires { 0 < count }
    ensures ok { IfOk result (λ answer. (c : spec.Conv)
        → spec.il_read count end.old (record c { core = spec.Il end.old })
        ≡ option_map (λ (answer : Answer). spec.leaves (record c { core = spec.Il end.old }) answer
        (record c { core = spec.Il end.new }) None) answer) }
    ensures err { OnErr result (end.new ≡ end.old) }
    ensures memory { OnErr result (has_unread end.old ≡ true) }
{
    if !end.may_read() {
        return Ok(None);
    }
    let copy = Octets::copy_of(alloc, end.peek(count))?;
    match end.read(count)? {
        Ok(bytes) => Ok(Some(ReplyAndCopy::read(bytes, copy))),
        Err(cause) => Ok(Some(ReplyAndCopy::hungup(cause))),
    }
}

// What a read of a UDP end tells; none where it isn't ready.
fn read_udp(
    alloc: Global,
    end: &mut UdpEnd,
    count: usize,
) -> Result<Option<ReplyAndCopy>, AllocError>
    ensures ok { IfOk result (λ answer. (c : spec.Conv)
        → spec.udp_read end.old.unread count end.old (record c { core = spec.Udp end.old })
        ≡ option_map (λ (answer : Answer). spec.leaves (record c { core = spec.Udp end.old }) answer
        (record c { core = spec.Udp end.new }) None) answer) }
    ensures err { OnErr result (end.new ≡ end.old) }
    ensures memory { OnErr result (0 < length end.old.unread) }
    ensures state { end.new.state ≡ end.old.state }
{
    if !end.ready_read() {
        return Ok(None);
    }
    let copy = Octets::copy_of(alloc, end.peek(count))?;
    match end.read(count) {
        Ok(bytes) => Ok(Some(ReplyAndCopy::read(bytes, copy))),
        Err(udp_core::HungupError::Hungup) => Ok(Some(ReplyAndCopy::hungup(Cause::Hungup))),
        Err(udp_core::HungupError::Memory) => Err(AllocError),
    }
}
