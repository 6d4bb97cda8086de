//! The IL end of a conversation, with the end that it stands for.
ghost use Rattle.std.specs.Prelude.{◌≡◌, ◌↔◌, ◌<◌, ◌^◌, Some, None, IfOk, IfErr, OnOk, OnErr, IsTrue, take, true, if◌then◌else◌};
ghost use Rattle.net_base.specs.IlEnd as spec;
ghost use Rattle.net_base.specs.IlTable as table;
ghost use Rattle.il_machine.specs.Stands.{IsEndShort, end_after_read, arrival_takes, read_refusal, write_takes};
ghost use Rattle.net_base.specs.declared.reply.Reply.TheVariants as reply;
ghost use Rattle.net_base.specs.Conversation as conv;
ghost use Rattle.net_base.specs.Timer as timer;

use crate::changes::{
    Arrives, Connects, HangsUp, IsAnnounced, IsBorn, IsFresh, Reads, Ticks, Writes,
};
use crate::ghost_end::GhostEnd;
use il_machine::{Ask, HungupError, IlEnd};
use net_base::{Cause, IlMsg, IlState, Octets, Timers};
use std::alloc::{AllocError, Global};
use std::marker::Model;

/// An IL end that is kept. Clauses see the end that it stands for: of all those, the one that its calls led to from a fresh one.
#[derive(Drop)]
pub struct IlCore {
    kept: IlEnd,
    stood_for: GhostEnd,
}

impl Model for IlCore {
    ghost use Rattle.net_base.specs.IlEnd.{End};
    ghost use Rattle.il_machine.specs.Stands.{StandsFor};

    ghost Value = { End };

    ghost view = { λ c. c.stood_for.end };

    ghost invariant = { λ c. StandsFor c.kept c.stood_for.end };
}

impl IlCore {
    pub fn fresh(alloc: Global, timers: Timers) -> Result<IlCore, AllocError>
        ensures { IfOk result (λ end. end ≡ spec.fresh_end timers) }
    {
        Ok(IlCore {
            kept: IlEnd::fresh(alloc, timers)?,
            stood_for: GhostEnd::fresh().after(&IsFresh { timers }),
        })
    }

    pub fn state(&self) -> IlState
        ensures { result ≡ self.now.state }
    {
        self.kept.state()
    }

    pub fn cause(&self) -> Option<Cause>
        ensures { result ≡ self.now.cause }
    {
        self.kept.cause()
    }

    pub fn due(&self) -> Option<u64>
        ensures { result ≡ self.now.timer.due }
    {
        self.kept.due()
    }

    pub fn is_short(&self) -> bool
        ensures { IsTrue result ↔ IsEndShort self.now }
    {
        self.kept.is_short()
    }

    /// Its kind of timers.
    pub fn timers(&self) -> Timers
        ensures { result ≡ self.now.timer.timers }
    {
        self.kept.timers()
    }

    pub fn may_read(&self) -> bool
        ensures { result ≡ table.may_read self.now }
    {
        self.kept.ready(Ask::Read)
    }

    pub fn may_write(&self) -> bool
        ensures { result ≡ table.may_write self.now.state self.now }
    {
        self.kept.ready(Ask::Write)
    }

    pub fn may_go_on(&self) -> bool
        ensures { result ≡ table.may_go_on self.now.state }
    {
        self.kept.ready(Ask::Wait)
    }

    pub fn connect(&mut self, now: u64, start: u32) -> IlMsg
        requires { now < 2 ^ 63 }
        ensures end { self.new ≡ (table.connects now start self.old).end }
        ensures emits { Some result ≡ (table.connects now start self.old).emits }
    {
        let sync = self.kept.connect(now, start);
        self.stood_for = self.stood_for.after(&Connects { now, start });
        sync
    }

    pub fn born(&mut self, now: u64, start: u32, rstart: u32) -> IlMsg
        requires { now < 2 ^ 63 }
        ensures end { self.new ≡ (table.is_born now start rstart self.old).end }
        ensures emits { Some result ≡ (table.is_born now start rstart self.old).emits }
    {
        let sync = self.kept.born(now, start, rstart);
        self.stood_for = self.stood_for.after(&IsBorn { now, start, rstart });
        sync
    }

    pub fn announced(&mut self)
        ensures { self.new ≡ table.announced self.old }
    {
        self.kept.announced();
        self.stood_for = self.stood_for.after(&IsAnnounced);
    }

    pub fn hang_up(&mut self, now: u64) -> Option<IlMsg>
        requires { now < 2 ^ 63 }
        ensures end { self.new ≡ (table.hangs_up now self.old).end }
        ensures emits { result ≡ (table.hangs_up now self.old).emits }
    {
        let emits = self.kept.hangup(now);
        self.stood_for = self.stood_for.after(&HangsUp { now });
        emits
    }

    pub fn tick(&mut self, now: u64) -> Option<IlMsg>
        requires { now < 2 ^ 63 }
        ensures end { self.new ≡ (table.ticks now self.old).end }
        ensures emits { result ≡ (table.ticks now self.old).emits }
    {
        let emits = self.kept.tick(now);
        self.stood_for = self.stood_for.after(&Ticks { now });
        emits
    }

    pub fn arrive(&mut self, now: u64, message: &IlMsg) -> Result<Option<IlMsg>, AllocError>
        requires in_time { now < 2 ^ 63 }
        requires short { IsEndShort self.old }
        ensures end { IfOk result (λ emits. self.new ≡ (table.arrives now message.now self.old).end) }
        ensures emits { IfOk result (λ emits. emits ≡ (table.arrives now message.now self.old).emits) }
        ensures err { OnErr result (self.new ≡ self.old) }
        ensures memory { OnErr result (arrival_takes now message.now self.old ≡ true) }
    {
        let emits = self.kept.arrive(now, message)?;
        self.stood_for = self.stood_for.after(&Arrives { now, message });
        Ok(emits)
    }

    pub fn write(&mut self, now: u64, text: &[u8]) -> Result<IlMsg, AllocError>
        requires in_time { now < 2 ^ 63 }
        requires short { IsEndShort self.old }
        requires sends { write_takes self.old ≡ true }
        requires ready { IsTrue (table.may_write self.old.state self.old) }
        ensures end { IfOk result (λ message. self.new ≡ (table.writes now text.now self.old).end) }
        ensures emits { IfOk result (λ message. Some message ≡ (table.writes now text.now self.old).emits) }
        ensures err { OnErr result (self.new ≡ self.old) }
    {
        match self.kept.write(now, text) {
            Ok(message) => {
                self.stood_for = self.stood_for.after(&Writes { now, text });
                Ok(message)
            }
            Err(_) => Err(AllocError),
        }
    }

    pub fn peek(&self, count: usize) -> &[u8]
        ensures { result.now ≡ take count (table.first_unread self.now) }
    {
        self.kept.peek(count)
    }

    /// Reads what `peek` showed, or says why nothing more is read.
    pub fn read(&mut self, count: usize) -> Result<Result<Octets, Cause>, AllocError>
        requires ready { IsTrue (table.may_read self.old) }
        requires some { 0 < count }
        ensures bytes { IfOk result (λ told. IfOk told (λ bytes. (None ≡ read_refusal self.old)
            × (bytes ≡ take count (table.first_unread self.old)))) }
        ensures refusal { IfOk result (λ told. IfErr told (λ cause. Some cause ≡ read_refusal self.old)) }
        ensures end { OnOk result (self.new ≡ end_after_read count self.old) }
        ensures err { OnErr result (self.new ≡ self.old) }
        ensures memory { OnErr result (table.has_unread self.old ≡ true) }
    {
        match self.kept.read(count) {
            Ok(bytes) => {
                self.stood_for = self.stood_for.after(&Reads { count });
                Ok(Ok(bytes))
            }
            Err(HungupError::Hungup(cause)) => Ok(Err(cause)),
            Err(HungupError::Memory) => Err(AllocError),
        }
    }

    /// Whether the moment has come at which it asks once more.
    pub fn is_due(&self, now: u64) -> bool
        ensures { conv.tick_reply (timer.timer_ticks now self.now.timer).says
            ≡ (if result then reply.Ticked else reply.NotDue) }
    {
        match self.kept.due() {
            Some(due) => due <= now,
            None => false,
        }
    }
}
