//! An IL end.
ghost use Rattle.std.specs.Prelude.{◌≡◌, ◌↔◌, ℕ, suc, ◌+◌, ◌<◌, ◌≤◌, ◌^◌, [], ◌∷◌, length, take, ◌||◌, Some, None, unwrap_or, slice_index_or, false, IfSome, IsSome, IfOk, IfErr, IsOk, OnOk, OnErr, IsTrue, is_some, true};
ghost use Rattle.net_base.specs.Number as number_spec;
ghost use Rattle.net_base.specs.Timer as timer;
ghost use Rattle.net_base.specs.declared.il.IlState.TheVariants as state;
ghost use Rattle.net_base.specs.declared.il.Cause.TheVariants as cause;
ghost use Rattle.il_machine.specs.declared.ask.Ask.TheVariants as ask;
ghost use Rattle.il_machine.specs.declared.fault.HungupError.TheVariants as fault;
ghost use Rattle.net_base.specs.IlEnd as spec;
ghost use Rattle.net_base.specs.IlEnd.{early_at, silent, retransmits};
ghost use Rattle.net_base.specs.IlTable as table;
ghost use Rattle.il_machine.specs.InTurn.{in_turn, with_turned};
ghost use Rattle.il_machine.specs.Windows as windows;
ghost use Rattle.il_machine.specs.Windows.{rstart_kept};
ghost use Rattle.il_machine.specs.Stands.{IsFew, StandsFor, StandsForSomeEnd, DecidesEnd, IsEndShort, TurnsEnd, Becomes, SaysEnd, TellsRefusal, end_after_read, arrival_takes, is_kept, is_asked_ready, read_refusal, takes_no_memory, write_refusal, write_takes};

mod rows;

use crate::ask::Ask;
use crate::fault::HungupError;
use crate::in_turn::{add_early, come_in_turn};
use il_queues::{Early, MOST_UNACKED, MOST_UNREAD, Timer, Unacked, Unread};
use net_base::{Cause, IlKind, IlMsg, IlState, Octets, Tick, Timers, number};
use std::alloc::{AllocError, Global};
use std::marker::Model;

/// How many messages may not be sent or got, so that their numbers tell their ids apart.
const MOST_MESSAGES: u64 = 1 << 31;

/// The longest message, in bytes.
const LONGEST_MESSAGE: usize = 8192;

/// How many ids there are.
const IDS: u64 = 1 << 32;

/// An IL end, which keeps windows of its messages. Its clauses speak of the ends of the definitions that it stands for. Moments are in ms.
#[derive(Drop)]
pub struct IlEnd {
    alloc: Global,
    state: IlState,
    fresh: bool,
    start: u32,
    rstart: Option<u32>,
    sent: u64,
    unacked: Unacked,
    got: u64,
    early: Early,
    unread: Unread,
    closed_by_peer: bool,
    cause: Option<Cause>,
    timer: Timer,
}

impl Model for IlEnd {
    ghost use Rattle.std.specs.Prelude.{◌-◌, length};
    ghost use Rattle.il_queues.specs.Reading.{unread_of};
    ghost use Rattle.il_machine.specs.Windows.{Windows, IsWindowKept};

    ghost Value = { Windows };

    ghost view = { λ e. record {
      state = e.state;
      fresh = e.fresh;
      start = e.start;
      rstart = e.rstart;
      sent = e.sent;
      acked = e.sent - length e.unacked;
      unacked = e.unacked;
      got = e.got;
      early = e.early;
      read_count = e.got - length e.unread.texts;
      read_offset = e.unread.offset;
      unread = unread_of e.unread;
      closed_by_peer = e.closed_by_peer;
      cause = e.cause;
      timer = e.timer;
    } };

    ghost invariant = { λ e. IsWindowKept e.sent e.unacked e.got e.unread e.early };
}

/// The id of message k.
fn id_of(base: u32, k: u64) -> u32
    ensures { result ≡ number_spec.id_of base k }
{
    ((base as u64 + k % IDS) % IDS) as u32
}

/// Whether a message of this kind may have so many bytes.
fn is_sized(kind: IlKind, length: usize) -> bool
    ensures { result ≡ table.is_sized kind length }
{
    match kind {
        IlKind::Data | IlKind::DataQuery => 0 < length && length <= LONGEST_MESSAGE,
        _ => true,
    }
}

#[tactic(auto, unfolding(crate::specs::Stands::StandsFor))]
impl IlEnd {
    /// How many messages are acknowledged.
    fn acked(&self) -> u64
        ensures { result ≡ self.now.acked }
    {
        self.sent - self.unacked.len() as u64
    }

    /// The id of the last message accepted in sequence, or the other end's start.
    fn recvd(&self) -> u32
        ensures { result ≡ number_spec.id_of (rstart_kept self.now) self.now.got }
    {
        id_of(self.rstart.unwrap_or(0), self.got)
    }

    /// A message of this kind without a text, with the end's own numbers.
    fn own_message(&self, kind: IlKind) -> IlMsg
        ensures { result ≡ windows.own_message kind self.now }
    {
        IlMsg {
            kind,
            spec: 0,
            id: id_of(self.start, self.sent),
            ack: self.recvd(),
            text: Octets::new(self.alloc),
        }
    }

    /// Its sync.
    fn sync(&self) -> IlMsg
        ensures { result ≡ windows.own_sync self.now }
    {
        IlMsg {
            kind: IlKind::Sync,
            spec: 0,
            id: self.start,
            ack: self.rstart.unwrap_or(0),
            text: Octets::new(self.alloc),
        }
    }

    /// Becomes Established.
    fn establish(&mut self)
        ensures { self.new ≡ record self.old { state = state.Established; timer = timer.stops self.old.timer } }
    {
        self.state = IlState::Established;
        self.timer.stop();
    }

    /// Becomes Closed.
    fn close(&mut self, cause: Option<Cause>)
        ensures { self.new ≡ record self.old {
          state = state.Closed;
          cause = cause;
          timer = timer.stops self.old.timer;
        } }
    {
        self.state = IlState::Closed;
        self.cause = cause;
        self.timer.stop();
    }

    /// Hears a message.
    fn hear(&mut self, now: u64)
        requires { now < 2 ^ 63 }
        ensures { self.new ≡ record self.old { timer = timer.timer_hears now self.old.timer } }
    {
        self.timer.heard(now);
    }

    /// Hears a message and takes its ack.
    fn hear_ack(&mut self, now: u64, message: &IlMsg)
        requires in_time { now < 2 ^ 63 }
        requires short { self.old.sent < 2 ^ 31 }
        ensures end { Becomes self.old self.new (λ e. spec.hears_ack now message.now e) }
        ensures got { self.new.got ≡ self.old.got }
    {
        self.hear(now);
        if let Some(k) = number(self.start, message.ack, self.acked()) {
            if k <= self.sent {
                self.drop_acked(now, k);
                self.restart_timer(now);
            }
        }
    }

    /// Drops the messages up to this one, which are acknowledged, and measures the round trip of the probe among them.
    fn drop_acked(&mut self, now: u64, k: u64)
        requires in_time { now < 2 ^ 63 }
        requires more { self.old.acked ≤ k }
        requires sent { k ≤ self.old.sent }
        ensures end { Becomes self.old self.new (λ e. spec.acks now k e) }
        ensures got { self.new.got ≡ self.old.got }
    {
        let more = k - self.acked();
        self.unacked.drop_first(more as usize);
        self.timer.acked(now, k);
    }

    /// Waits anew, where something still waits to be acknowledged.
    fn restart_timer(&mut self, now: u64)
        requires { now < 2 ^ 63 }
        ensures end { Becomes self.old self.new (λ e. spec.waits_anew now e) }
        ensures got { self.new.got ≡ self.old.got }
    {
        let waits = self.waits();
        self.timer.moved(now, waits);
    }

    /// Whether it waits for an answer: for an ack, or for the other end's close.
    fn waits(&self) -> bool
        ensures { SaysEnd self.now result (λ e. spec.has_unacked e || spec.is_closing e.state) }
    {
        !self.unacked.is_empty() || self.state == IlState::Closing
    }

    /// How many messages are unread or early.
    #[tactic(auto, using(crate::proofs::Unread::length_cut), unfolding(crate::specs::Stands::StandsFor))]
    fn backlog(&self) -> usize
        ensures said { SaysEnd self.now result spec.backlog }
        ensures kept { result ≡ length self.now.unread + length self.now.early }
    {
        self.unread.len() + self.early.len()
    }

    /// Accepts a message: it becomes early, and what is next in sequence is got.
    fn accept(&mut self, message: &IlMsg) -> Result<(), AllocError>
        requires { self.old.got < 2 ^ 31 }
        ensures ok { OnOk result (Becomes self.old self.new (λ e. spec.accepts message.now e)) }
        ensures within { self.new.got ≤ self.old.got + 64 }
        ensures same { self.new.sent ≡ self.old.sent }
        ensures err { OnErr result (self.new ≡ self.old) }
        ensures memory { OnErr result (SaysEnd self.old true (is_kept message.now)) }
    {
        let Some(k) = number(self.rstart.unwrap_or(0), message.id, self.got) else {
            return Ok(());
        };
        if self.early.contains(k) {
            return Ok(());
        }
        if MOST_UNREAD <= self.backlog() {
            return Ok(());
        }
        let text = message.text.clone()?;
        self.add(k, text);
        Ok(())
    }

    /// Adds an early message, which isn't there and for which there is room; what is next in sequence is got.
    fn add(&mut self, k: u64, text: Octets)
        requires few { self.old.got < 2 ^ 31 }
        requires number { (self.old.got < k) × (k ≤ self.old.got + 20) }
        requires new { early_at k self.old.early ≡ None }
        requires room { length self.old.unread + length self.old.early < 64 }
        ensures end { Becomes self.old self.new (λ e. with_turned e
            (in_turn (suc (length e.early)) (length e.got) (record { number = k; text = text } ∷ e.early))) }
        ensures within { self.new.got ≤ self.old.got + 64 }
        ensures same { self.new.sent ≡ self.old.sent }
    {
        add_early(&mut self.early, k, text);
        self.got = come_in_turn(&mut self.unread, &mut self.early, self.got);
    }

    /// Takes the ack of a message and accepts it.
    fn take_in(&mut self, now: u64, message: &IlMsg) -> Result<(), AllocError>
        requires in_time { now < 2 ^ 63 }
        requires short { IsFew self.old }
        ensures ok { OnOk result (Becomes self.old self.new
            (λ e. spec.accepts message.now (spec.hears_ack now message.now e))) }
        ensures within { self.new.got ≤ self.old.got + 64 }
        ensures err { OnErr result (self.new ≡ self.old) }
        ensures memory { OnErr result (SaysEnd self.old true (is_kept message.now)) }
    {
        self.accept(message)?;
        self.hear_ack(now, message);
        Ok(())
    }

    /// The first message that isn't acknowledged once so many are, to be sent again.
    fn retransmission(&self, acked: u64) -> Result<Option<IlMsg>, AllocError>
        requires short { self.now.sent < 2 ^ 31 }
        requires more { self.now.acked ≤ acked }
        ensures ok { IfOk result (λ emits. SaysEnd self.now emits
            (λ e. (retransmits (record e { acked = acked }) (silent e)).emits)) }
        ensures memory { OnErr result (SaysEnd self.now true (λ e. spec.has_unacked (record e { acked = acked }))) }
    {
        let Some(text) = self.first_unacked(acked) else {
            return Ok(None);
        };
        Ok(Some(IlMsg {
            kind: IlKind::DataQuery,
            spec: 0,
            id: id_of(self.start, acked + 1),
            ack: self.recvd(),
            text: Octets::from_slice(self.alloc, text)?,
        }))
    }

    /// The text of the first message that isn't acknowledged once so many are.
    #[tactic(auto, using(crate::proofs::Unacked::text_at), unfolding(crate::specs::Stands::StandsFor))]
    fn first_unacked(&self, acked: u64) -> Option<&[u8]>
        requires { self.now.acked ≤ acked }
        ensures found { IsSome result ↔ (acked < self.now.sent) }
        ensures value { IfSome result (λ text. SaysEnd self.now text.now (λ e. slice_index_or e.sent acked [])) }
    {
        let place = acked - self.acked();
        self.unacked.get(place as usize)
    }

    /// How many messages are acknowledged once this message's ack is taken.
    fn acked_after(&self, message: &IlMsg) -> u64
        requires { self.now.sent < 2 ^ 31 }
        ensures acked { (now : ℕ) → SaysEnd self.now result (λ e. (spec.hears_ack now message.now e).acked) }
        ensures more { self.now.acked ≤ result }
    {
        match number(self.start, message.ack, self.acked()) {
            Some(k) if k <= self.sent => k,
            _ => self.acked(),
        }
    }

    /// Whether a message is still to be got.
    fn misses(&self, message: &IlMsg) -> bool
        requires { self.now.got < 2 ^ 32 }
        ensures { result ≡ is_some (number_spec.number (rstart_kept self.now) message.now.id self.now.got) }
    {
        match number(self.rstart.unwrap_or(0), message.id, self.got) {
            Some(_) => true,
            None => false,
        }
    }
}

#[tactic(auto, unfolding(crate::specs::Stands::StandsFor))]
impl IlEnd {
    /// An end that was never connected, with such timers.
    pub fn fresh(alloc: Global, timers: Timers) -> Result<IlEnd, AllocError>
        ensures { IfOk result (λ e. StandsFor e (spec.fresh_end timers)) }
    {
        Ok(IlEnd {
            alloc,
            state: IlState::Closed,
            fresh: true,
            start: 0,
            rstart: None,
            sent: 0,
            unacked: Unacked::new(alloc)?,
            got: 0,
            early: Early::new(),
            unread: Unread::new(alloc)?,
            closed_by_peer: false,
            cause: None,
            timer: Timer::idle(timers),
        })
    }

    /// Connects a fresh end, with a start that isn't 0, and gives its sync.
    pub fn connect(&mut self, now: u64, start: u32) -> IlMsg
        requires { now < 2 ^ 63 }
        ensures { TurnsEnd self.old self.new (Some result) (λ e. table.connects now start e) }
    {
        self.state = IlState::Syncer;
        self.fresh = false;
        self.start = start;
        self.timer.start(now);
        self.sync()
    }

    /// Brings a fresh end forth from the sync with the id `rstart`, with a start that isn't 0, and gives its own sync.
    pub fn born(&mut self, now: u64, start: u32, rstart: u32) -> IlMsg
        requires { now < 2 ^ 63 }
        ensures { TurnsEnd self.old self.new (Some result) (λ e. table.is_born now start rstart e) }
    {
        self.state = IlState::Syncee;
        self.fresh = false;
        self.start = start;
        self.rstart = Some(rstart);
        self.timer.start(now);
        self.sync()
    }

    /// Announces a fresh end, which then listens.
    pub fn announced(&mut self)
        ensures { Becomes self.old self.new (λ e. table.announced e) }
    {
        self.state = IlState::Listening;
        self.fresh = false;
    }

    /// Whether so few messages were sent and got that the end may be asked for anything.
    pub fn is_short(&self) -> bool
        ensures some { IsTrue result ↔ StandsForSomeEnd self.now IsEndShort }
        ensures each { DecidesEnd self.now result IsEndShort }
    {
        self.sent < MOST_MESSAGES && self.got < MOST_MESSAGES
    }

    /// Takes a message that comes, and gives what the end emits.
    pub fn arrive(&mut self, now: u64, message: &IlMsg) -> Result<Option<IlMsg>, AllocError>
        requires in_time { now < 2 ^ 63 }
        requires short { StandsForSomeEnd self.old IsEndShort }
        ensures ok { IfOk result (λ emits. TurnsEnd self.old self.new emits (λ e. table.arrives now message.now e)) }
        ensures err { OnErr result (self.new ≡ self.old) }
        ensures memory { OnErr result (SaysEnd self.old true (arrival_takes now message.now)) }
        ensures sure { IsTrue (takes_no_memory message.now.kind) → IsOk result }
    {
        if !is_sized(message.kind, message.text.len()) {
            return Ok(None);
        }
        match self.state {
            IlState::Syncer => Ok(self.arrive_at_syncer(now, message)),
            IlState::Syncee => self.arrive_at_syncee(now, message),
            IlState::Established => self.arrive_at_established(now, message),
            IlState::Closing => self.arrive_at_closing(now, message),
            IlState::Closed => Ok(self.arrive_at_closed(now, message)),
            IlState::Listening => Ok(None),
        }
    }

    /// Writes a message and gives the data that carries it, or says why nothing more is written.
    pub fn write(&mut self, now: u64, text: &[u8]) -> Result<IlMsg, HungupError>
        requires in_time { now < 2 ^ 63 }
        requires short { StandsForSomeEnd self.old IsEndShort }
        requires ready { StandsForSomeEnd self.old (λ e. IsTrue (is_asked_ready ask.Write e)) }
        ensures ok { IfOk result (λ message. SaysEnd self.old None write_refusal
            × TurnsEnd self.old self.new (Some message) (λ e. table.writes now text.now e)) }
        ensures err { IfErr result (λ error.
            TellsRefusal self.old error write_refusal write_takes × (self.new ≡ self.old)) }
    {
        if self.state != IlState::Established {
            return Err(HungupError::Hungup(self.cause.unwrap_or(Cause::Hungup)));
        }
        let kept = Octets::from_slice(self.alloc, text)?;
        let text = Octets::from_slice(self.alloc, text)?;
        if self.unacked.is_empty() {
            self.timer.start(now);
        }
        // there is room for it
        let _ = self.unacked.push(kept);
        self.sent += 1;
        self.timer.sent(now, self.sent);
        Ok(IlMsg {
            kind: IlKind::Data,
            spec: 0,
            id: id_of(self.start, self.sent),
            ack: self.recvd(),
            text,
        })
    }

    /// Reads the first bytes, at most `count`, of the first unread message; none where the other end closed after its last.
    /// Or says why nothing more is read.
    pub fn read(&mut self, count: usize) -> Result<Octets, HungupError>
        requires ready { StandsForSomeEnd self.old (λ e. IsTrue (is_asked_ready ask.Read e)) }
        requires some { 0 < count }
        ensures ok { IfOk result (λ bytes. SaysEnd self.old None read_refusal
            × SaysEnd self.old bytes (λ e. take count (table.first_unread e))) }
        ensures end { OnOk result (Becomes self.old self.new (end_after_read count)) }
        ensures err { IfErr result (λ error.
            TellsRefusal self.old error read_refusal table.has_unread × (self.new ≡ self.old)) }
    {
        let Ok(read) = self.unread.read(count) else {
            return Err(HungupError::Memory);
        };
        let Some(bytes) = read else {
            return self.nothing_unread();
        };
        Ok(bytes)
    }

    /// What a read answers where nothing is unread.
    fn nothing_unread(&self) -> Result<Octets, HungupError>
        ensures ok { IfOk result (λ bytes. (bytes ≡ []) × (self.now.closed_by_peer ≡ true)) }
        ensures err { IfErr result (λ error.
            (error ≡ fault.Hungup (unwrap_or self.now.cause cause.Hungup)) × (self.now.closed_by_peer ≡ false)) }
    {
        if self.closed_by_peer {
            return Ok(Octets::new(self.alloc));
        }
        Err(HungupError::Hungup(self.cause.unwrap_or(Cause::Hungup)))
    }

    /// The first bytes, at most `count`, of the first unread message.
    pub fn peek(&self, count: usize) -> &[u8]
        ensures { SaysEnd self.now result.now (λ e. take count (table.first_unread e)) }
    {
        self.unread.peek(count)
    }

    /// Hangs the end up, and gives what it emits.
    pub fn hangup(&mut self, now: u64) -> Option<IlMsg>
        requires { now < 2 ^ 63 }
        ensures { TurnsEnd self.old self.new result (λ e. table.hangs_up now e) }
    {
        match self.state {
            IlState::Syncer | IlState::Listening => {
                self.close(Some(Cause::Hungup));
                None
            }
            IlState::Syncee | IlState::Established => {
                self.state = IlState::Closing;
                self.cause = Some(Cause::Hungup);
                self.timer.start(now);
                Some(self.own_message(IlKind::Close))
            }
            IlState::Closing | IlState::Closed => None,
        }
    }

    /// Lets time pass, and gives what the end emits.
    pub fn tick(&mut self, now: u64) -> Option<IlMsg>
        requires { now < 2 ^ 63 }
        ensures { TurnsEnd self.old self.new result (λ e. table.ticks now e) }
    {
        match self.timer.tick(now) {
            Tick::NotDue => None,
            Tick::TimedOut => {
                self.close(Some(Cause::TimedOut));
                None
            }
            Tick::Again => self.ask_again(),
        }
    }

    /// What the end emits when it asks once more.
    fn ask_again(&self) -> Option<IlMsg>
        ensures { SaysEnd self.now result (λ e. (table.asks_again e.state e).emits) }
    {
        match self.state {
            IlState::Syncer | IlState::Syncee => Some(self.sync()),
            IlState::Established => Some(self.own_message(IlKind::Query)),
            IlState::Closing => Some(self.own_message(IlKind::Close)),
            IlState::Closed | IlState::Listening => None,
        }
    }

    /// Whether what is asked for has an answer.
    pub fn ready(&self, ask: Ask) -> bool
        ensures { SaysEnd self.now result (is_asked_ready ask) }
    {
        match ask {
            Ask::Write => match self.state {
                IlState::Syncer | IlState::Syncee => false,
                IlState::Established => self.unacked.len() < MOST_UNACKED,
                IlState::Closed | IlState::Listening | IlState::Closing => true,
            },
            Ask::Read => {
                !self.unread.is_empty() || self.closed_by_peer || self.state == IlState::Closed
            }
            Ask::Wait => self.state != IlState::Syncer,
        }
    }

    /// The state.
    pub fn state(&self) -> IlState
        ensures { SaysEnd self.now result (λ e. e.state) }
    {
        self.state
    }

    /// When the end asks once more, if it waits for something.
    pub fn due(&self) -> Option<u64>
        ensures { SaysEnd self.now result (λ e. e.timer.due) }
    {
        self.timer.due
    }

    /// Its kind of timers.
    pub fn timers(&self) -> Timers
        ensures { SaysEnd self.now result (λ e. e.timer.timers) }
    {
        self.timer.timers
    }

    /// Why the end is hung up.
    pub fn cause(&self) -> Option<Cause>
        ensures { SaysEnd self.now result (λ e. e.cause) }
    {
        self.cause
    }
}
