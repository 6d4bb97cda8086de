//! An IL end as it is counted: its messages by their numbers and lengths, without their texts.
ghost use Rattle.std.specs.Prelude.{◌≡◌, ◌<◌, IfOk, IfSome, OnOk, length, slice_get};
ghost use Rattle.end_rows.specs.IlCounts as spec;

use net_base::{Cause, IlState, Sequence, number};
use std::alloc::{AllocError, Global};

/// A message that came before its turn: its number, and its length in bytes.
#[derive(Clone, Copy)]
pub struct Late {
    pub number: u64,
    pub length: u64,
}

/// An IL end: its first id and the other end's, how many messages were written and acknowledged, how many were received in
/// sequence, those that came early, and the lengths of those that are unread, of which the first was read up to an offset.
#[derive(Drop)]
pub struct IlCount {
    pub state: IlState,
    pub start: u32,
    pub rstart: Option<u32>,
    pub written: u64,
    pub acked: u64,
    pub received: u64,
    pub early: Sequence<Late>,
    pub unread: Sequence<u64>,
    pub offset: u64,
    pub cause: Option<Cause>,
}

/// The number of the message with an id, of an end that has messages up to `got`.
fn message_number(base: u32, id: u32, got: u64) -> Option<u64>
    ensures { result ≡ spec.message_number base id got }
{
    if got < 4_294_967_296 {
        number(base, id, got)
    } else {
        None
    }
}

fn place_of(early: &[Late], wanted: u64) -> Option<usize>
    ensures value { result ≡ spec.early_place wanted early.now }
    ensures within { IfSome result (λ i. i < length early.now) }
{
    early.iter().position(|late| late.number == wanted)
}

fn length_at(early: &[Late], place: usize) -> u64
    ensures { result ≡ spec.late_length (slice_get early.now place) }
{
    match early.get(place) {
        Some(late) => late.length,
        None => 0,
    }
}

// The message that comes in turn, if it came early, is unread.
fn take_turn(
    early: &mut Sequence<Late>,
    unread: &mut Sequence<u64>,
    place: usize,
) -> Result<(), AllocError>
    requires { place < length early.old }
    ensures early { OnOk result (early.new ≡ spec.early_without place early.old) }
    ensures unread { OnOk result (unread.new ≡ spec.unread_with place early.old unread.old) }
{
    let length = length_at(early.as_slice(), place);
    let _ = early.remove(place);
    unread.push(length)
}

impl IlCount {
    /// An end to which nothing happened.
    pub fn fresh(alloc: Global) -> IlCount
        ensures { result ≡ spec.fresh_count }
    {
        IlCount {
            state: IlState::Closed,
            start: 0,
            rstart: None,
            written: 0,
            acked: 0,
            received: 0,
            early: Sequence::new(alloc),
            unread: Sequence::new(alloc),
            offset: 0,
            cause: None,
        }
    }

    /// A copy of it.
    pub fn copied(&self) -> Result<IlCount, AllocError>
        ensures { IfOk result (λ copy. copy ≡ self.now) }
    {
        let early = self.early.clone()?;
        let unread = self.unread.clone()?;
        Ok(IlCount {
            state: self.state,
            start: self.start,
            rstart: self.rstart,
            written: self.written,
            acked: self.acked,
            received: self.received,
            early,
            unread,
            offset: self.offset,
            cause: self.cause,
        })
    }

    /// Takes an ack.
    pub fn take_ack(&mut self, ack: u32)
        ensures { self.new ≡ spec.ack_taken ack self.old }
    {
        let Some(k) = message_number(self.start, ack, self.acked) else {
            return;
        };
        if k <= self.written {
            self.acked = k;
        }
    }

    // The number of messages that wait.
    fn backlog(&self) -> usize
        ensures { result ≡ spec.backlog_of self.now }
    {
        self.unread.len().saturating_add(self.early.len())
    }

    // A message comes early, where it isn't there yet and there is room.
    fn come_early(&mut self, k: Option<u64>, length: u64) -> Result<(), AllocError>
        ensures { OnOk result (self.new ≡ spec.comes_early k length self.old) }
    {
        let Some(k) = k else {
            return Ok(());
        };
        if place_of(self.early.as_slice(), k).is_some() {
            return Ok(());
        }
        if 64 <= self.backlog() {
            return Ok(());
        }
        self.early.push(Late { number: k, length })
    }

    // The next message in sequence is unread, where it came early.
    fn come_in_turn(&mut self) -> Result<(), AllocError>
        ensures { OnOk result (self.new ≡ spec.comes_in_turn self.old) }
    {
        let next = self.received.saturating_add(1);
        match place_of(self.early.as_slice(), next) {
            Some(place) => {
                take_turn(&mut self.early, &mut self.unread, place)?;
                self.received = next;
                Ok(())
            }
            None => Ok(()),
        }
    }

    fn come_all(&mut self, turns: usize) -> Result<(), AllocError>
        ensures { OnOk result (self.new ≡ spec.come_in_turn turns self.old) }
    {
        for turn in 0..turns {
            let _ = turn;
            self.come_in_turn()?;
        }
        Ok(())
    }

    /// Accepts a message with this id and of this length in bytes.
    pub fn accept(&mut self, id: u32, length: u64) -> Result<(), AllocError>
        ensures { OnOk result (self.new ≡ spec.accepted id length self.old) }
    {
        let k = message_number(self.rstart.unwrap_or(0), id, self.received);
        self.come_early(k, length)?;
        let turns = self.early.len();
        self.come_all(turns)
    }

    /// Reads at most this number of bytes of the first unread message.
    pub fn read(&mut self, count: u64)
        ensures { self.new ≡ spec.counted_read count self.old }
    {
        let Some(first) = self.unread.as_slice().first().copied() else {
            return;
        };
        if count < first.saturating_sub(self.offset) {
            self.offset = self.offset.saturating_add(count);
        } else {
            drop_first(&mut self.unread);
            self.offset = 0;
        }
    }

    /// Is hung up.
    pub fn hang_up(&mut self)
        ensures { self.new ≡ spec.counted_hangup self.old }
    {
        match self.state {
            IlState::Syncer => self.close(Cause::Hungup),
            IlState::Listening => self.close(Cause::Hungup),
            IlState::Syncee => self.begin_to_close(),
            IlState::Established => self.begin_to_close(),
            IlState::Closed => {}
            IlState::Closing => {}
        }
    }

    /// Becomes Closed with a cause.
    pub fn close(&mut self, cause: Cause)
        ensures { self.new ≡ spec.counted_close cause self.old }
    {
        self.state = IlState::Closed;
        self.cause = Some(cause);
    }

    fn begin_to_close(&mut self)
        ensures { self.new ≡ spec.begins_to_close self.old }
    {
        self.state = IlState::Closing;
        self.cause = Some(Cause::Hungup);
    }
}

fn drop_first(unread: &mut Sequence<u64>)
    requires { 0 < length unread.old }
    ensures { unread.new ≡ spec.without_first unread.old }
{
    let _ = unread.remove(0);
}
