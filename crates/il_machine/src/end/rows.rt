//! The rows of the table for what comes, a function for each state.
ghost use Rattle.std.specs.Prelude.{◌≡◌, ◌<◌, ◌^◌, IfOk, OnErr, true};
ghost use Rattle.net_base.specs.declared.il.IlKind.TheVariants as kind;
ghost use Rattle.net_base.specs.declared.il.IlState.TheVariants as state;
ghost use Rattle.net_base.specs.IlTable as table;
ghost use Rattle.il_machine.specs.Stands.{IsFew, SaysEnd, TurnsEnd, closing_takes, established_takes, handshake_completed, takes_in};

use crate::end::IlEnd;
use net_base::{Cause, IlKind, IlMsg, IlState};
use std::alloc::AllocError;

#[tactic(auto, unfolding(crate::specs::Stands::StandsFor))]
impl IlEnd {
    /// Syncer: its sync is answered or refused.
    pub(super) fn arrive_at_syncer(&mut self, now: u64, message: &IlMsg) -> Option<IlMsg>
        requires { now < 2 ^ 63 }
        ensures { TurnsEnd self.old self.new result (λ e. table.at_syncer message.now.kind now message.now e) }
    {
        match message.kind {
            IlKind::Sync if message.ack == self.start => {
                self.rstart = Some(message.id);
                self.hear(now);
                self.establish();
                Some(self.own_message(IlKind::Ack))
            }
            IlKind::Close if message.spec == 1 && message.ack == self.start => {
                self.hear(now);
                self.close(Some(Cause::Refused));
                None
            }
            _ => None,
        }
    }

    /// Syncee: the sync that it was born from comes again, or the first message that acknowledges its own.
    pub(super) fn arrive_at_syncee(
        &mut self,
        now: u64,
        message: &IlMsg,
    ) -> Result<Option<IlMsg>, AllocError>
        requires in_time { now < 2 ^ 63 }
        requires short { IsFew self.old }
        requires syncee { self.old.state ≡ state.Syncee }
        ensures ok { IfOk result (λ emits. TurnsEnd self.old self.new emits
            (λ e. table.at_syncee message.now.kind now message.now e)) }
        ensures err { OnErr result (self.new ≡ self.old) }
        ensures memory { OnErr result (SaysEnd self.old true (takes_in state.Syncee now message.now)) }
    {
        match message.kind {
            IlKind::Sync if message.id == self.rstart.unwrap_or(0) => {
                self.hear(now);
                Ok(Some(self.sync()))
            }
            IlKind::Sync => Ok(None),
            IlKind::Close if message.spec == 1 => Ok(None),
            _ if message.ack == self.start => self.complete_handshake(now, message),
            _ => Ok(None),
        }
    }

    /// Becomes Established, and handles the message as Established.
    fn complete_handshake(&mut self, now: u64, message: &IlMsg) -> Result<Option<IlMsg>, AllocError>
        requires in_time { now < 2 ^ 63 }
        requires short { IsFew self.old }
        requires syncee { self.old.state ≡ state.Syncee }
        ensures ok { IfOk result (λ emits. TurnsEnd self.old self.new emits
            (λ e. handshake_completed now message.now e)) }
        ensures err { OnErr result (self.new ≡ self.old) }
        ensures memory { OnErr result (SaysEnd self.old true (established_takes message.now.kind now message.now)) }
    {
        let timer = self.timer.copied();
        self.hear(now);
        self.establish();
        let answer = self.arrive_at_established(now, message);
        if answer.is_err() {
            self.state = IlState::Syncee;
            self.timer = timer;
        }
        answer
    }

    /// Established: data, acks and questions, and the other end's close.
    pub(super) fn arrive_at_established(
        &mut self,
        now: u64,
        message: &IlMsg,
    ) -> Result<Option<IlMsg>, AllocError>
        requires in_time { now < 2 ^ 63 }
        requires short { IsFew self.old }
        ensures ok { IfOk result (λ emits. TurnsEnd self.old self.new emits
            (λ e. table.at_established message.now.kind now message.now e)) }
        ensures err { OnErr result (self.new ≡ self.old) }
        ensures memory { OnErr result (SaysEnd self.old true (established_takes message.now.kind now message.now)) }
    {
        match message.kind {
            IlKind::Sync if message.id == self.rstart.unwrap_or(0) => {
                self.hear(now);
                Ok(Some(self.own_message(IlKind::Ack)))
            }
            IlKind::Sync => Ok(None),
            IlKind::Data => {
                self.take_in(now, message)?;
                Ok(Some(self.own_message(IlKind::Ack)))
            }
            IlKind::DataQuery => {
                self.take_in(now, message)?;
                if self.misses(message) {
                    Ok(Some(self.own_message(IlKind::Ack)))
                } else {
                    Ok(Some(self.own_message(IlKind::State)))
                }
            }
            IlKind::Ack => {
                self.hear_ack(now, message);
                Ok(None)
            }
            IlKind::Query => {
                self.hear_ack(now, message);
                Ok(Some(self.own_message(IlKind::State)))
            }
            IlKind::State => {
                let retransmission = self.retransmission(self.acked_after(message))?;
                self.hear_ack(now, message);
                Ok(retransmission)
            }
            IlKind::Close => Ok(self.close_comes(now, message)),
        }
    }

    /// Established: a close comes, after the last message or too soon.
    fn close_comes(&mut self, now: u64, message: &IlMsg) -> Option<IlMsg>
        requires in_time { now < 2 ^ 63 }
        requires short { IsFew self.old }
        ensures { TurnsEnd self.old self.new result (λ e. table.at_established kind.Close now message.now e) }
    {
        if message.spec != 0 {
            return None;
        }
        let is_last = message.id == self.recvd();
        self.hear_ack(now, message);
        if !is_last {
            return Some(self.own_message(IlKind::State));
        }
        self.closed_by_peer = true;
        self.close(Some(Cause::ByPeer));
        Some(self.own_message(IlKind::Close))
    }

    /// Closing: all is answered by a close, until one comes.
    pub(super) fn arrive_at_closing(
        &mut self,
        now: u64,
        message: &IlMsg,
    ) -> Result<Option<IlMsg>, AllocError>
        requires in_time { now < 2 ^ 63 }
        requires short { IsFew self.old }
        ensures ok { IfOk result (λ emits. TurnsEnd self.old self.new emits
            (λ e. table.at_closing message.now.kind now message.now e)) }
        ensures err { OnErr result (self.new ≡ self.old) }
        ensures memory { OnErr result (SaysEnd self.old true (closing_takes message.now.kind now message.now)) }
    {
        match message.kind {
            IlKind::Sync => {
                self.hear(now);
                Ok(Some(self.own_message(IlKind::Close)))
            }
            IlKind::Data | IlKind::DataQuery | IlKind::Query => {
                self.hear_ack(now, message);
                Ok(Some(self.own_message(IlKind::Close)))
            }
            IlKind::Ack => {
                self.hear_ack(now, message);
                Ok(None)
            }
            IlKind::State => {
                let retransmission = self.retransmission(self.acked_after(message))?;
                self.hear_ack(now, message);
                match retransmission {
                    Some(first) => Ok(Some(first)),
                    None => Ok(Some(self.own_message(IlKind::Close))),
                }
            }
            IlKind::Close if message.spec == 0 => {
                self.hear_ack(now, message);
                self.close(self.cause);
                Ok(None)
            }
            IlKind::Close => Ok(None),
        }
    }

    /// Closed: an end that its peer closed answers a close that comes again.
    pub(super) fn arrive_at_closed(&mut self, now: u64, message: &IlMsg) -> Option<IlMsg>
        requires { now < 2 ^ 63 }
        ensures { TurnsEnd self.old self.new result (λ e. table.at_closed message.now.kind now message.now e) }
    {
        match message.kind {
            IlKind::Close if self.closed_by_peer && message.spec == 0 => {
                self.hear(now);
                Some(self.own_message(IlKind::Close))
            }
            _ => None,
        }
    }
}
