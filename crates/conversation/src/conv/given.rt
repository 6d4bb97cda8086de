//! Events that ask for what a cited entry gives.
ghost use Rattle.std.specs.Prelude.{◌≡◌, ℕ, ◌<◌, ◌^◌, IfOk, OnErr, is_some, true};
ghost use Rattle.net_base.specs.declared.event.Event.TheVariants as event;
ghost use Rattle.net_base.specs.Conversation as spec;
ghost use Rattle.conversation.specs.Kept.{as_step};
ghost use Rattle.conversation.specs.Memory.{event_takes};
ghost use Rattle.conversation.specs.Stands.{IsShort};

use crate::conv::Conv;
use net_base::{Outcome, With};
use std::alloc::AllocError;

impl Conv {
    /// Is born, where a birth is given.
    pub(super) fn born_with(
        &mut self,
        now: u64,
        generation: u64,
        with: &With,
    ) -> Result<Option<Outcome>, AllocError>
        requires { now < 2 ^ 63 }
        ensures ok { IfOk result (λ answer. spec.conv_step self.old.slot (event.Born generation) with.now now
            self.old.conv ≡ as_step self.new.conv answer) }
        ensures slot { self.new.slot ≡ self.old.slot }
        ensures err { OnErr result (self.new ≡ self.old) }
        ensures memory { OnErr result (event_takes (event.Born generation) with.now now self.old.conv ≡ true) }
    {
        match with {
            With::Birth {
                packet,
                start,
                limit,
            } => {
                let start = *start;
                let limit = *limit;
                if !self.core.may_bear(&packet.body) || !self.core.may_connect(start, limit) {
                    return Ok(None);
                }
                self.born(now, generation, packet, start, limit)
            }
            _ => Ok(None),
        }
    }

    /// Whether a birth gets an answer now.
    pub(super) fn may_be_born(&self, generation: u64, with: &With) -> bool
        ensures { (now : ℕ) → result ≡ is_some (spec.conv_step self.now.slot (event.Born generation) with.now now
            self.now.conv) }
    {
        match with {
            With::Birth {
                packet,
                start,
                limit,
            } => {
                self.core.may_bear(&packet.body)
                    && self.core.may_connect(*start, *limit)
                    && self.is_raised(generation, true)
            }
            _ => false,
        }
    }

    /// Connects, where a grant is given.
    pub(super) fn connect_with(&mut self, now: u64, generation: u64, with: &With) -> Option<Outcome>
        requires { now < 2 ^ 63 }
        ensures step { spec.conv_step self.old.slot (event.Connect generation) with.now now self.old.conv
            ≡ as_step self.new.conv result }
        ensures slot { self.new.slot ≡ self.old.slot }
    {
        match with {
            With::Grant { pair, start, limit } => {
                if !self.core.may_connect(*start, *limit) {
                    return None;
                }
                self.connect(now, generation, *pair, *start, *limit)
            }
            _ => None,
        }
    }

    /// Whether a connect gets an answer now.
    pub(super) fn may_be_connected(&self, generation: u64, with: &With) -> bool
        ensures { (now : ℕ) → result ≡ is_some (spec.conv_step self.now.slot (event.Connect generation) with.now now
            self.now.conv) }
    {
        match with {
            With::Grant { start, limit, .. } => {
                self.core.may_connect(*start, *limit) && self.is_answered(generation, true)
            }
            _ => false,
        }
    }

    /// Listens, where a key is given.
    pub(super) fn announced_with(&mut self, generation: u64, with: &With) -> Option<Outcome>
        ensures step { (now : ℕ) → spec.conv_step self.old.slot (event.Announced generation) with.now now self.old.conv
            ≡ as_step self.new.conv result }
        ensures slot { self.new.slot ≡ self.old.slot }
    {
        match with {
            With::Key { ip, port } => self.announced(generation, *ip, *port),
            _ => None,
        }
    }

    /// Whether an announcement gets an answer now.
    pub(super) fn may_be_announced(&self, generation: u64, with: &With) -> bool
        ensures { (now : ℕ) → result ≡ is_some (spec.conv_step self.now.slot (event.Announced generation) with.now now
            self.now.conv) }
    {
        match with {
            With::Key { .. } => self.is_answered(generation, true),
            _ => false,
        }
    }

    /// Has a port, where a key is given.
    pub(super) fn bound_with(&mut self, generation: u64, with: &With) -> Option<Outcome>
        ensures step { (now : ℕ) → spec.conv_step self.old.slot (event.Bound generation) with.now now self.old.conv
            ≡ as_step self.new.conv result }
        ensures slot { self.new.slot ≡ self.old.slot }
    {
        match with {
            With::Key { port, .. } => self.bound(generation, *port),
            _ => None,
        }
    }

    /// Whether a binding gets an answer now.
    pub(super) fn may_be_bound(&self, generation: u64, with: &With) -> bool
        ensures { (now : ℕ) → result ≡ is_some (spec.conv_step self.now.slot (event.Bound generation) with.now now
            self.now.conv) }
    {
        match with {
            With::Key { .. } => self.is_answered(generation, true),
            _ => false,
        }
    }

    /// Takes a packet, where one of its protocol is given.
    pub(super) fn arrive_with(
        &mut self,
        now: u64,
        generation: u64,
        with: &With,
    ) -> Result<Option<Outcome>, AllocError>
        requires in_time { now < 2 ^ 63 }
        requires short { IsShort self.old.conv }
        ensures ok { IfOk result (λ answer. spec.conv_step self.old.slot (event.ArriveAt generation) with.now now
            self.old.conv ≡ as_step self.new.conv answer) }
        ensures slot { self.new.slot ≡ self.old.slot }
        ensures err { OnErr result (self.new ≡ self.old) }
        ensures memory { OnErr result (event_takes (event.ArriveAt generation) with.now now self.old.conv ≡ true) }
    {
        match with {
            With::Packet(packet) => {
                if !self.core.has_protocol(&packet.body) {
                    return Ok(None);
                }
                self.arrive(now, generation, packet)
            }
            _ => Ok(None),
        }
    }

    /// Whether a packet that arrives gets an answer now.
    pub(super) fn may_arrive(&self, generation: u64, with: &With) -> bool
        ensures { (now : ℕ) → result ≡ is_some (spec.conv_step self.now.slot (event.ArriveAt generation) with.now now
            self.now.conv) }
    {
        match with {
            With::Packet(packet) => {
                self.core.has_protocol(&packet.body) && self.is_answered(generation, true)
            }
            _ => false,
        }
    }
}
