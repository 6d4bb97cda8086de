//! A UDP end.
ghost use Rattle.std.specs.Prelude.{◌≡◌, ◌<◌, ◌↔◌, [], length, not, take, IsTrue, IsOk, IfOk, IfErr, OnOk, OnErr, IsErrOf};
ghost use Rattle.net_base.specs.UdpEnd as spec;
ghost use Rattle.net_base.specs.UdpEnd.{IsDrained};

use circular_buffer::HeapCircularBuffer;
use net_base::{Octets, StateName, UdpState};
use std::alloc::{AllocError, Global};
use std::marker::Model;

/// How many datagrams an end may have unread.
pub const MOST_UNREAD: usize = 64;

/// Why a read gave no bytes.
#[derive(Clone, Copy, Debug, PartialEq, Eq)]
pub enum HungupError {
    /// No datagram waits, and the end is hung up.
    Hungup,
    /// There was no memory for a copy of the bytes.
    Memory,
}

impl From<AllocError> for HungupError {
    ghost use Rattle.udp_core.specs.declared.end.HungupError.{HungupError};

    ghost from_gives = { λ _ e. e ≡ HungupError.Memory };

    fn from(_: AllocError) -> HungupError {
        HungupError::Memory
    }
}

/// A UDP end. Clauses see its state and the list of the datagrams that wait to be read, oldest first.
#[derive(Drop)]
pub struct UdpEnd {
    state: UdpState,
    texts: HeapCircularBuffer<Octets>,
}

impl Model for UdpEnd {
    ghost use Rattle.std.specs.Prelude.{◌≡◌};
    ghost use Rattle.net_base.specs.UdpEnd.{UdpEnd as EndOf};

    ghost Value = { EndOf };

    ghost view = { λ e. record { state = e.state; unread = e.texts.items } };

    ghost invariant = { λ e. e.texts.capacity ≡ 64 };
}

impl UdpEnd {
    /// An end that was never connected or announced.
    pub fn fresh(alloc: Global) -> Result<UdpEnd, AllocError>
        ensures { IfOk result (λ e. e ≡ spec.fresh_udp) }
    {
        Ok(UdpEnd {
            state: UdpState::Fresh,
            texts: HeapCircularBuffer::with_capacity(alloc, MOST_UNREAD)?,
        })
    }

    /// Connects the end, which may hold datagrams already.
    pub fn connect(&mut self)
        requires { IsTrue (spec.is_fresh_udp self.old.state) }
        ensures { self.new ≡ spec.udp_connects self.old }
    {
        self.state = UdpState::Open;
    }

    /// Announces the end, which then listens.
    pub fn announced(&mut self)
        requires { IsTrue (spec.is_fresh_udp self.old.state) }
        ensures { self.new ≡ spec.udp_announced self.old }
    {
        self.state = UdpState::Listening;
    }

    /// Hangs the end up, unless it was never connected or announced.
    pub fn hangup(&mut self)
        ensures { self.new ≡ spec.udp_hangs_up self.old }
    {
        if self.state != UdpState::Fresh {
            self.state = UdpState::HungUp;
        }
    }

    /// The state as it is printed.
    pub fn state(&self) -> StateName
        ensures { result ≡ spec.udp_state_name self.now.state }
    {
        match self.state {
            UdpState::Listening => StateName::Listening,
            UdpState::Open => StateName::Open,
            UdpState::Fresh | UdpState::HungUp => StateName::Closed,
        }
    }

    /// Keeps a datagram that came, or hands it back where 64 are unread or the end is hung up.
    pub fn arrive(&mut self, text: Octets) -> Result<(), Octets>
        ensures room { IsOk result ↔ IsTrue (spec.takes_datagram self.old.state (length self.old.unread)) }
        ensures end { self.new ≡ spec.datagram_comes text self.old }
        ensures full { IfErr result (λ back. back ≡ text) }
    {
        if self.state == UdpState::HungUp {
            return Err(text);
        }
        self.texts.try_push_back(text)
    }

    /// Whether a datagram that comes is handed back: 64 are unread, or the end is hung up.
    pub fn is_full(&self) -> bool
        ensures { result ≡ not (spec.takes_datagram self.now.state (length self.now.unread)) }
    {
        match self.state {
            UdpState::HungUp => true,
            UdpState::Fresh | UdpState::Listening | UdpState::Open => {
                self.texts.len() >= MOST_UNREAD
            }
        }
    }

    /// Whether a read has an answer: a datagram waits, or the end is hung up.
    pub fn ready_read(&self) -> bool
        ensures { result ≡ spec.udp_reads_now self.now.state self.now.unread }
    {
        self.state == UdpState::HungUp || !self.texts.is_empty()
    }

    /// Reads the first bytes of the first datagram, whose rest is lost.
    pub fn read(&mut self, count: usize) -> Result<Octets, HungupError>
        requires { IsTrue (spec.udp_reads_now self.old.state self.old.unread) }
        ensures hungup { IsErrOf result HungupError.Hungup ↔ IsDrained self.old }
        ensures ok { IfOk result (λ text. text ≡ take count (spec.first_datagram self.old.unread)) }
        ensures end { OnOk result (self.new ≡ spec.datagram_read self.old) }
        ensures err { OnErr result (self.new ≡ self.old) }
        ensures memory { IfErr result (λ error. error ≡ HungupError.Memory → 0 < length self.old.unread) }
    {
        if self.texts.is_empty() {
            return Err(HungupError::Hungup);
        }
        let text = Octets::from_slice(*self.texts.allocator(), self.peek(count))?;
        self.texts.pop_front();
        Ok(text)
    }

    /// The bytes that such a read would give.
    pub fn peek(&self, count: usize) -> &[u8]
        ensures { result.now ≡ take count (spec.first_datagram self.now.unread) }
    {
        match self.texts.front() {
            Some(first) => &first.as_slice()[..count.min(first.len())],
            None => &[],
        }
    }
}
