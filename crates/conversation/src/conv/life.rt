//! How a conversation begins, is connected and ends.
ghost use Rattle.std.specs.Prelude.{◌≡◌, ◌<◌, ◌^◌, ◌+◌, ◌==◌, IfOk, OnErr, Some, None, true};
ghost use Rattle.net_base.specs.declared.reply.Reply.TheVariants as reply;
ghost use Rattle.net_base.specs.IlEnd as end_spec;
ghost use Rattle.net_base.specs.IlTable as table;
ghost use Rattle.net_base.specs.UdpEnd as udp;
ghost use Rattle.net_base.specs.Conversation as spec;
ghost use Rattle.conversation.specs.Kept.{IsKept, seen_core, seen_stage, as_step};

use crate::conv::{Conv, NOWHERE};
use crate::il::IlCore;
use crate::parts::{Core, Stage};
use crate::reply_and_copy::ReplyAndCopy;
use net_base::{Addr, Body, Octets, Outcome, Packet, Pair, StateName, Timers};
use std::alloc::AllocError;
use udp_core::UdpEnd;

// A generation as it begins or is born, with what it knows of its connection then.
#[derive(Clone, Copy)]
struct Birth {
    generation: u64,
    pair: Pair,
    limit: u32,
}

impl Conv {
    // Another generation, with one open file.
    fn become_new(&mut self, birth: Birth, stage: Stage, core: Core)
        requires { IsKept stage core }
        ensures { self.new ≡ record {
          slot = self.old.slot;
          conv = record {
            generation = birth.generation;
            opens = 1;
            pair = birth.pair;
            limit = birth.limit;
            ttl = 255;
            tos = 0;
            stage = seen_stage stage;
            core = seen_core core;
          };
        } }
    {
        self.generation = birth.generation;
        self.opens = 1;
        self.pair = birth.pair;
        self.limit = birth.limit;
        self.ttl = 255;
        self.tos = 0;
        self.stage = stage;
        self.core = core;
    }

    /// Begins the next generation.
    pub(super) fn begin(&mut self, generation: u64) -> Result<Option<Outcome>, AllocError>
        ensures ok { IfOk result (λ answer. spec.raises generation self.old.conv
            (Some (spec.leaves self.old.conv reply.Ok (spec.begun generation self.old.conv) None))
            ≡ as_step self.new.conv answer) }
        ensures slot { self.new.slot ≡ self.old.slot }
        ensures err { OnErr result (self.new ≡ self.old) }
        ensures memory { OnErr result ((generation == self.old.conv.generation + 1) ≡ true) }
    {
        if !self.is_next(generation) {
            return Ok(self.stale(generation));
        }
        let core = self.core.fresh_like(self.alloc)?;
        let was_over = self.is_over();
        let birth = Birth {
            generation,
            pair: Pair {
                local: NOWHERE,
                remote: NOWHERE,
            },
            limit: 0,
        };
        self.become_new(birth, Stage::Unused, core);
        Ok(Some(self.left(was_over, ReplyAndCopy::ok(), None)))
    }

    /// Is born as the next generation, from a packet of its protocol.
    pub(super) fn born(
        &mut self,
        now: u64,
        generation: u64,
        packet: &Packet,
        start: u32,
        limit: u32,
    ) -> Result<Option<Outcome>, AllocError>
        requires { now < 2 ^ 63 }
        ensures ok { IfOk result (λ answer. spec.raises generation self.old.conv
            (spec.brought_forth self.old.conv.core now generation start limit packet.now packet.now.body self.old.conv)
            ≡ as_step self.new.conv answer) }
        ensures slot { self.new.slot ≡ self.old.slot }
        ensures err { OnErr result (self.new ≡ self.old) }
        ensures memory { OnErr result ((generation == self.old.conv.generation + 1) ≡ true) }
    {
        if !self.is_next(generation) {
            return Ok(self.stale(generation));
        }
        let birth = Birth {
            generation,
            pair: Pair {
                local: packet.dst,
                remote: packet.src,
            },
            limit,
        };
        match (&self.core, &packet.body) {
            (Core::Il(end), Body::Il(message)) => {
                let (timers, id) = (end.timers(), message.id);
                Ok(Some(self.born_il(now, birth, start, id, timers)?))
            }
            (Core::Udp(_), Body::Udp(text)) => Ok(Some(self.born_udp(birth, text)?)),
            _ => Ok(None),
        }
    }

    // The end is born from the sync with this id, with such timers.
    fn born_il(
        &mut self,
        now: u64,
        birth: Birth,
        start: u32,
        id: u32,
        timers: Timers,
    ) -> Result<Outcome, AllocError>
        requires { now < 2 ^ 63 }
        ensures ok { IfOk result (λ outcome. spec.turned self.old.conv reply.Ok
            (table.is_born now start id (end_spec.fresh_end timers))
            (record (spec.begun birth.generation self.old.conv) {
              pair = birth.pair;
              limit = birth.limit;
              stage = spec.Connected;
            })
            ≡ record { state = self.new.conv; outcome = outcome }) }
        ensures slot { self.new.slot ≡ self.old.slot }
        ensures err { OnErr result (self.new ≡ self.old) }
    {
        let mut end = IlCore::fresh(self.alloc, timers)?;
        let sync = end.born(now, start, id);
        let was_over = self.is_over();
        self.become_new(birth, Stage::Connected, Core::Il(end));
        Ok(self.turned(was_over, ReplyAndCopy::ok(), Some(sync)))
    }

    // The datagram is unread.
    fn born_udp(&mut self, birth: Birth, text: &Octets) -> Result<Outcome, AllocError>
        ensures ok { IfOk result (λ outcome. spec.leaves self.old.conv reply.Ok
            (record (spec.begun birth.generation self.old.conv) {
              pair = birth.pair;
              limit = birth.limit;
              stage = spec.Connected;
              core = spec.Udp (udp.datagram_comes text.now (udp.udp_connects udp.fresh_udp));
            }) None
            ≡ record { state = self.new.conv; outcome = outcome }) }
        ensures slot { self.new.slot ≡ self.old.slot }
        ensures err { OnErr result (self.new ≡ self.old) }
    {
        let mut end = UdpEnd::fresh(self.alloc)?;
        let text = text.clone()?;
        end.connect();
        // an end without datagrams has room
        let _ = end.arrive(text);
        let was_over = self.is_over();
        self.become_new(birth, Stage::Connected, Core::Udp(end));
        Ok(self.left(was_over, ReplyAndCopy::ok(), None))
    }

    /// Is claimed, which changes nothing.
    pub(super) fn claim(&self, generation: u64) -> Option<Outcome>
        ensures { spec.in_generation generation self.now.conv (Some (spec.only_replies self.now.conv reply.Ok))
            ≡ as_step self.now.conv result }
    {
        if generation != self.generation {
            return self.stale(generation);
        }
        Some(self.replies(ReplyAndCopy::ok()))
    }

    /// Connects, where it is unused.
    pub(super) fn connect(
        &mut self,
        now: u64,
        generation: u64,
        pair: Pair,
        start: u32,
        limit: u32,
    ) -> Option<Outcome>
        requires { now < 2 ^ 63 }
        ensures step { spec.in_generation generation self.old.conv
            (Some (spec.joined self.old.conv.stage self.old.conv.core now pair start limit self.old.conv))
            ≡ as_step self.new.conv result }
        ensures slot { self.new.slot ≡ self.old.slot }
    {
        if generation != self.generation {
            return self.stale(generation);
        }
        match self.stage {
            Stage::Unused => Some(self.join(now, pair, start, limit)),
            Stage::Listening | Stage::Connected => Some(self.replies(ReplyAndCopy::ok())),
        }
    }

    // An unused conversation is connected.
    fn join(&mut self, now: u64, pair: Pair, start: u32, limit: u32) -> Outcome
        requires in_time { now < 2 ^ 63 }
        requires unused { self.old.conv.stage ≡ spec.Unused }
        ensures step { spec.joined spec.Unused self.old.conv.core now pair start limit self.old.conv
            ≡ record { state = self.new.conv; outcome = result } }
        ensures slot { self.new.slot ≡ self.old.slot }
    {
        let was_over = self.is_over();
        self.pair = pair;
        self.limit = limit;
        self.stage = Stage::Connected;
        match &mut self.core {
            Core::Il(end) => {
                let sync = end.connect(now, start);
                self.turned(was_over, ReplyAndCopy::ok(), Some(sync))
            }
            Core::Udp(end) => {
                end.connect();
                self.left(was_over, ReplyAndCopy::ok(), None)
            }
        }
    }

    /// Listens at an address and port, where it is unused.
    pub(super) fn announced(&mut self, generation: u64, ip: u32, port: u16) -> Option<Outcome>
        ensures step { spec.in_generation generation self.old.conv
            (Some (spec.listens self.old.conv.stage ip port self.old.conv)) ≡ as_step self.new.conv result }
        ensures slot { self.new.slot ≡ self.old.slot }
    {
        if generation != self.generation {
            return self.stale(generation);
        }
        match self.stage {
            Stage::Unused => Some(self.listen(ip, port)),
            Stage::Listening | Stage::Connected => Some(self.replies(ReplyAndCopy::ok())),
        }
    }

    // An unused conversation listens.
    fn listen(&mut self, ip: u32, port: u16) -> Outcome
        requires { self.old.conv.stage ≡ spec.Unused }
        ensures step { spec.listens spec.Unused ip port self.old.conv
            ≡ record { state = self.new.conv; outcome = result } }
        ensures slot { self.new.slot ≡ self.old.slot }
    {
        let was_over = self.is_over();
        self.pair.local = Addr { ip, port };
        self.stage = Stage::Listening;
        match &mut self.core {
            Core::Il(end) => end.announced(),
            Core::Udp(end) => end.announced(),
        }
        self.left(was_over, ReplyAndCopy::ok(), None)
    }

    /// Has a port, where it is unused.
    pub(super) fn bound(&mut self, generation: u64, port: u16) -> Option<Outcome>
        ensures step { spec.in_generation generation self.old.conv
            (Some (spec.binds self.old.conv.stage port self.old.conv)) ≡ as_step self.new.conv result }
        ensures slot { self.new.slot ≡ self.old.slot }
    {
        if generation != self.generation {
            return self.stale(generation);
        }
        match self.stage {
            Stage::Unused => {
                self.pair.local.port = port;
                Some(self.replies(ReplyAndCopy::ok()))
            }
            Stage::Listening | Stage::Connected => Some(self.replies(ReplyAndCopy::ok())),
        }
    }

    /// Hangs up.
    pub(super) fn hang_up(&mut self, now: u64, generation: u64) -> Option<Outcome>
        requires { now < 2 ^ 63 }
        ensures step { spec.in_generation generation self.old.conv
            (Some (spec.hung_up self.old.conv.core now (spec.left_or_ok (spec.core_name self.old.conv.core))
            self.old.conv self.old.conv)) ≡ as_step self.new.conv result }
        ensures slot { self.new.slot ≡ self.old.slot }
    {
        if generation != self.generation {
            return self.stale(generation);
        }
        let was_over = self.is_over();
        let answer = match self.core.state_name() {
            StateName::Listening => ReplyAndCopy::left(),
            _ => ReplyAndCopy::ok(),
        };
        Some(self.end_hangs_up(now, was_over, answer))
    }

    // Its end hangs up.
    fn end_hangs_up(&mut self, now: u64, was_over: bool, answer: ReplyAndCopy) -> Outcome
        requires { now < 2 ^ 63 }
        ensures step { (before : spec.Conv) → spec.is_over before ≡ was_over
            → spec.hung_up self.old.conv.core now answer before self.old.conv
            ≡ record { state = self.new.conv; outcome = result } }
        ensures slot { self.new.slot ≡ self.old.slot }
    {
        match &mut self.core {
            Core::Il(end) => {
                let message = end.hang_up(now);
                self.turned(was_over, answer, message)
            }
            Core::Udp(end) => {
                end.hangup();
                self.left(was_over, answer, None)
            }
        }
    }

    /// One open file fewer; the last one hangs up too.
    pub(super) fn close(&mut self, now: u64, generation: u64) -> Option<Outcome>
        requires { now < 2 ^ 63 }
        ensures step { spec.in_generation generation self.old.conv
            (Some (spec.closed self.old.conv.opens now self.old.conv)) ≡ as_step self.new.conv result }
        ensures slot { self.new.slot ≡ self.old.slot }
    {
        if generation != self.generation {
            return self.stale(generation);
        }
        if self.opens == 0 {
            return Some(self.replies(ReplyAndCopy::ok()));
        }
        let was_over = self.is_over();
        self.opens -= 1;
        if self.opens == 0 {
            Some(self.end_hangs_up(now, was_over, ReplyAndCopy::ok()))
        } else {
            Some(self.left(was_over, ReplyAndCopy::ok(), None))
        }
    }

    /// Has another ttl from now on.
    pub(super) fn set_ttl(&mut self, generation: u64, ttl: u8) -> Option<Outcome>
        ensures step { spec.in_generation generation self.old.conv
            (Some (spec.leaves self.old.conv reply.Ok (record self.old.conv { ttl = ttl }) None))
            ≡ as_step self.new.conv result }
        ensures slot { self.new.slot ≡ self.old.slot }
    {
        if generation != self.generation {
            return self.stale(generation);
        }
        self.ttl = ttl;
        Some(self.replies(ReplyAndCopy::ok()))
    }

    /// Has another tos from now on.
    pub(super) fn set_tos(&mut self, generation: u64, tos: u8) -> Option<Outcome>
        ensures step { spec.in_generation generation self.old.conv
            (Some (spec.leaves self.old.conv reply.Ok (record self.old.conv { tos = tos }) None))
            ≡ as_step self.new.conv result }
        ensures slot { self.new.slot ≡ self.old.slot }
    {
        if generation != self.generation {
            return self.stale(generation);
        }
        self.tos = tos;
        Some(self.replies(ReplyAndCopy::ok()))
    }
}
