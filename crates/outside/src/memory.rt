//! A source and a sink in memory, which fail in the calls that they are told.
ghost use Rattle.std.specs.Prelude.{◌≡◌, ◌↔◌, ◌⊎◌, [], Some, ◌+◌, ◌-◌, ◌<◌, ◌≤◌, ◌++◌, min, length, take, drop, IfOk, OnOk, OnErr, IsErr};
ghost use Rattle.std.specs.List.{Contains};
ghost use Rattle.std.specs.Io.KnownBytes.{Appends, Consumes, IsAtEnd, Keeps};
ghost use Rattle.outside.specs.Streams.{Rose};
ghost use Rattle.outside.specs.Memory.{one_more_counted};

use crate::fault::Failed;
use crate::sink::Sink;
use crate::source::Source;
use crate::sure::SureSource;
use net_base::{Octets, Sequence};
use std::alloc::{AllocError, Global};
use std::marker::Model;

/// The numbers of the calls that are to fail, from 1.
pub type FailList = Sequence<u64>;

/// Gives the bytes that it was made with, and fails in the calls of its list.
#[derive(Debug, Drop)]
pub struct MemSource {
    bytes: SureSource,
    fail: FailList,
    calls: u64,
    faults: u64,
}

impl Model for MemSource {
    ghost use Rattle.outside.specs.Memory.{Supply};

    ghost Value = { Supply };

    ghost view = { λ s. record { left = s.bytes; fails = s.fail; calls = s.calls; faults = s.faults } };
}

impl MemSource {
    /// A source of these bytes. It takes no memory.
    pub fn new(bytes: Octets, fail: FailList) -> MemSource
        ensures { result ≡ record { left = bytes; fails = fail; calls = 0; faults = 0 } }
    {
        MemSource {
            bytes: SureSource::new(bytes),
            fail,
            calls: 0,
            faults: 0,
        }
    }
}

impl Source for MemSource {
    ghost left = { λ s. Some s.left };

    ghost faults = { λ s. s.faults };

    ghost reads = { λ s. s.calls };

    fn read(&mut self, into: &mut [u8]) -> Result<usize, Failed>
        requires { 0 < length into.old }
        ensures within { IfOk result (λ n. n ≤ length into.old) }
        ensures took { IfOk result (λ n. Consumes (Some self.old.left) (Some self.new.left) (take n into.new)) }
        ensures end { IfOk result (λ n. n ≡ 0 → IsAtEnd (Some self.new.left)) }
        ensures same { OnOk result (self.new.faults ≡ self.old.faults) }
        ensures failed { OnErr result (Rose self.old.faults self.new.faults) }
        ensures kept { OnErr result (Keeps (Some self.old.left) (Some self.new.left)) }
        ensures once { self.new.calls ≤ self.old.calls + 1 }

        // What this source does at each call.
        ensures listed { IsErr result ↔ Contains self.old.fails (one_more_counted self.old.calls) }
        ensures most { IfOk result (λ n. n ≡ min (length into.old) (length self.old.left)) }
        ensures ok { IfOk result (λ n. self.new
            ≡ record self.old { left = drop n self.old.left; calls = one_more_counted self.old.calls }) }
        ensures err { OnErr result (self.new
            ≡ record self.old { calls = one_more_counted self.old.calls; faults = one_more_counted self.old.faults }) }
    {
        self.calls = self.calls.saturating_add(1);
        if self.fail.as_slice().contains(&self.calls) {
            self.faults = self.faults.saturating_add(1);
            return Err(Failed);
        }
        self.bytes.read(into)
    }
}

/// Holds as many bytes as it has room for, and fails in the calls of its list.
#[derive(Debug, Drop)]
pub struct MemSink {
    bytes: Vec<u8>,
    room: usize,
    fail: FailList,
    calls: u64,
    faults: u64,
}

impl Model for MemSink {
    ghost use Rattle.std.specs.Prelude.{length, ◌≤◌, vec_len, vec_capacity};
    ghost use Rattle.outside.specs.Memory.{Store};

    ghost Value = { Store };

    ghost view = { λ k. record {
      held = k.bytes.items;
      room = k.room;
      fails = k.fail;
      calls = k.calls;
      faults = k.faults;
    } };

    ghost invariant = { λ k. (vec_len k.bytes ≤ k.room) × (k.room ≤ vec_capacity k.bytes) };
}

impl MemSink {
    /// A sink with room for this many bytes, which it takes now.
    pub fn new(alloc: Global, room: usize, fail: FailList) -> Result<MemSink, AllocError>
        ensures { IfOk result (λ k. k ≡ record { held = []; room = room; fails = fail; calls = 0; faults = 0 }) }
    {
        Ok(MemSink {
            bytes: Vec::with_capacity(alloc, room)?,
            room,
            fail,
            calls: 0,
            faults: 0,
        })
    }

    /// The bytes that it holds.
    pub fn held(&self) -> &[u8]
        ensures { result.now ≡ self.now.held }
    {
        self.bytes.as_slice()
    }
}

impl Sink for MemSink {
    ghost held = { λ k. Some k.held };

    ghost faults = { λ k. k.faults };

    fn write(&mut self, bytes: &[u8]) -> Result<usize, Failed>
        ensures within { IfOk result (λ n. n ≤ length bytes.now) }
        ensures gained { IfOk result (λ n. Appends (Some self.old.held) (Some self.new.held) (take n bytes.now)) }
        ensures some { IfOk result (λ n. n ≡ 0 → bytes.now ≡ []) }
        ensures same { OnOk result (self.new.faults ≡ self.old.faults) }
        ensures failed { OnErr result (Rose self.old.faults self.new.faults) }
        ensures kept { OnErr result (Keeps (Some self.old.held) (Some self.new.held)) }

        // What this sink does at each call.
        ensures refused { IsErr result ↔ (Contains self.old.fails (one_more_counted self.old.calls)
            ⊎ ((self.old.room ≤ length self.old.held) × (0 < length bytes.now))) }
        ensures most { IfOk result (λ n. n ≡ min (length bytes.now) (self.old.room - length self.old.held)) }
        ensures ok { IfOk result (λ n. self.new
            ≡ record self.old { held = self.old.held ++ take n bytes.now; calls = one_more_counted self.old.calls }) }
        ensures err { OnErr result (self.new
            ≡ record self.old { calls = one_more_counted self.old.calls; faults = one_more_counted self.old.faults }) }
    {
        self.calls = self.calls.saturating_add(1);
        let room = self.room - self.bytes.len();
        let n = bytes.len().min(room);
        let is_full = room == 0 && !bytes.is_empty();
        if is_full || self.fail.as_slice().contains(&self.calls) {
            self.faults = self.faults.saturating_add(1);
            return Err(Failed);
        }
        match self.bytes.extend_from_slice(&bytes[..n]) {
            Ok(()) => Ok(n),
            Err(_) => unreachable!(),
        }
    }
}
