//! A conversation, and what it answers.
ghost use Rattle.std.specs.Prelude.{◌≡◌, ◌↔◌, ℕ, ◌<◌, ◌^◌, is_some, IfOk, IsTrue, OnErr, Some, true};
ghost use Rattle.net_base.specs.Actors.{opening_conv};
ghost use Rattle.net_base.specs.Conversation as spec;
ghost use Rattle.net_base.specs.Duties.{due_of_core};
ghost use Rattle.conversation.specs.Kept.{as_step};
ghost use Rattle.conversation.specs.Memory.{work_takes};
ghost use Rattle.conversation.specs.Stands.{StandsFor, StandsForSome, Decides, IsShort, IsSeatReady, Says, StepsSeat, slot_of, step_at};

mod files;
mod given;
mod leave;
mod life;
mod talk;

use crate::control::is_refused;
use crate::il::IlCore;
use crate::parts::{Core, Stage};
use net_base::{Addr, Event, Outcome, Pair, Proto, Timers, Work};
use std::alloc::{AllocError, Global};
use std::marker::Model;
use udp_core::UdpEnd;

/// The address of an end that has none yet.
const NOWHERE: Addr = Addr { ip: 0, port: 0 };

/// The conversation in a slot. Its clauses speak of the conversation of the definitions that it stands for. Moments are in ms.
#[derive(Drop)]
pub struct Conv {
    alloc: Global,
    slot: u32,
    generation: u64,
    opens: u64,
    pair: Pair,
    limit: u32,
    ttl: u8,
    tos: u8,
    stage: Stage,
    core: Core,
}

impl Model for Conv {
    ghost use Rattle.conversation.specs.Kept.{Seat, seen_stage, seen_core, IsKept};

    ghost Value = { Seat };

    ghost view = { λ c. record {
      slot = c.slot;
      conv = record {
        generation = c.generation;
        opens = c.opens;
        pair = c.pair;
        limit = c.limit;
        ttl = c.ttl;
        tos = c.tos;
        stage = seen_stage c.stage;
        core = seen_core c.core;
      };
    } };

    ghost invariant = { λ c. IsKept c.stage c.core };
}

#[tactic(auto, unfolding(crate::specs::Stands::StandsFor, crate::specs::Stands::slot_of))]
impl Conv {
    /// The conversation of a slot, before its first generation. Each actor is made by its whole name; no row of a conversation asks
    /// for the host, so nothing is kept of it.
    pub fn new(
        alloc: Global,
        _host: u32,
        proto: Proto,
        slot: u32,
        timers: Timers,
    ) -> Result<Conv, AllocError>
        ensures opening { IfOk result (λ c. StandsFor c (opening_conv timers proto)) }
        ensures slot { IfOk result (λ c. slot_of c ≡ slot) }
    {
        let core = match proto {
            Proto::Il => Core::Il(IlCore::fresh(alloc, timers)?),
            Proto::Udp => Core::Udp(UdpEnd::fresh(alloc)?),
        };
        Ok(Conv {
            alloc,
            slot,
            generation: 0,
            opens: 0,
            pair: Pair {
                local: NOWHERE,
                remote: NOWHERE,
            },
            limit: 0,
            ttl: 255,
            tos: 0,
            stage: Stage::Unused,
            core,
        })
    }

    /// Whether a row of the table answers the work, at whatever moment.
    pub fn ready(&self, work: &Work) -> bool
        ensures { (now : ℕ) → Says self.now result (λ c. is_some (step_at self.now now work.now c)) }
    {
        self.is_ready(work)
    }

    /// Answers a work that is ready.
    pub fn step(&mut self, now: u64, work: &Work) -> Result<Outcome, AllocError>
        requires in_time { now < 2 ^ 63 }
        requires short { StandsForSome self.old IsShort }
        requires ready { IsSeatReady self.old now work.now }
        ensures ok { IfOk result (StepsSeat self.old self.new now work.now) }
        ensures slot { slot_of self.new ≡ slot_of self.old }
        ensures copy { IfOk result (λ outcome. outcome.copy ≡ Some outcome.reply) }
        ensures err { OnErr result (self.new ≡ self.old) }
        ensures memory { OnErr result (Says self.old true (work_takes now work.now)) }
    {
        match self.answer(now, work)? {
            Some(outcome) => Ok(outcome),
            None => unreachable!(),
        }
    }

    /// Whether its end may be asked for anything: one of UDP always may, and one of IL that has sent and got few messages.
    pub fn is_short(&self) -> bool
        ensures some { IsTrue result ↔ StandsForSome self.now IsShort }
        ensures each { Decides self.now result IsShort }
    {
        match &self.core {
            Core::Il(end) => end.is_short(),
            Core::Udp(_) => true,
        }
    }

    /// When its IL end asks once more, if it waits for something.
    pub fn due(&self) -> Option<u64>
        ensures { Says self.now result (λ c. due_of_core c.core) }
    {
        match &self.core {
            Core::Il(end) => end.due(),
            Core::Udp(_) => None,
        }
    }

    /// Its generation.
    pub fn generation(&self) -> u64
        ensures { Says self.now result (λ c. c.generation) }
    {
        self.generation
    }
}

impl Conv {
    // Whether a row of the table answers the work.
    fn is_ready(&self, work: &Work) -> bool
        ensures { (now : ℕ) → result ≡ is_some (spec.conv_step self.now.slot work.now.event work.now.with now
            self.now.conv) }
    {
        match &work.event {
            Event::Begin { generation } => self.is_raised(*generation, true),
            Event::Born { generation } => self.may_be_born(*generation, &work.with),
            Event::Connect { generation } => self.may_be_connected(*generation, &work.with),
            Event::Announced { generation } => self.may_be_announced(*generation, &work.with),
            Event::Bound { generation } => self.may_be_bound(*generation, &work.with),
            Event::Await { generation } => self.is_answered(*generation, self.may_go_on()),
            Event::Read { generation, count } => {
                0 < *count && self.is_answered(*generation, self.may_read())
            }
            Event::Write { generation, text } => {
                self.is_answered(*generation, self.may_write(text))
            }
            Event::Ctl { generation, text } => { self.is_answered(*generation, is_refused(text)) }
            Event::ArriveAt { generation } => self.may_arrive(*generation, &work.with),
            Event::Claim { generation }
            | Event::File { generation, .. }
            | Event::Hangup { generation }
            | Event::Ttl { generation, .. }
            | Event::Tos { generation, .. }
            | Event::Close { generation }
            | Event::Tick { generation } => self.is_answered(*generation, true),
            Event::Open { .. } | Event::Ls => true,
            _ => false,
        }
    }

    // Answers a work; none where no row of the table does.
    fn answer(&mut self, now: u64, work: &Work) -> Result<Option<Outcome>, AllocError>
        requires in_time { now < 2 ^ 63 }
        requires short { IsShort self.old.conv }
        ensures ok { IfOk result (λ answer. spec.conv_step self.old.slot work.now.event work.now.with now
            self.old.conv ≡ as_step self.new.conv answer) }
        ensures slot { self.new.slot ≡ self.old.slot }
        ensures err { OnErr result (self.new ≡ self.old) }
        ensures memory { OnErr result (work_takes now work.now self.old.conv ≡ true) }
    {
        match &work.event {
            Event::Begin { generation } => self.begin(*generation),
            Event::Born { generation } => self.born_with(now, *generation, &work.with),
            Event::Claim { generation } => Ok(self.claim(*generation)),
            Event::Connect { generation } => Ok(self.connect_with(now, *generation, &work.with)),
            Event::Announced { generation } => Ok(self.announced_with(*generation, &work.with)),
            Event::Bound { generation } => Ok(self.bound_with(*generation, &work.with)),
            Event::Await { generation } => Ok(self.wait(*generation)),
            Event::Open { .. } => Ok(Some(self.open()?)),
            Event::File {
                generation,
                file,
                count,
            } => self.file(*generation, *file, *count),
            Event::Read { generation, count } => self.read(*generation, *count),
            Event::Write { generation, text } => self.write(now, *generation, text),
            Event::Hangup { generation } => Ok(self.hang_up(now, *generation)),
            Event::Ttl { generation, n } => Ok(self.set_ttl(*generation, *n)),
            Event::Tos { generation, n } => Ok(self.set_tos(*generation, *n)),
            Event::Ctl { generation, text } => Ok(self.refuse(*generation, text)),
            Event::Close { generation } => Ok(self.close(now, *generation)),
            Event::ArriveAt { generation } => self.arrive_with(now, *generation, &work.with),
            Event::Tick { generation } => Ok(self.tick(now, *generation)),
            Event::Ls => Ok(Some(self.ls()?)),
            _ => Ok(None),
        }
    }
}
