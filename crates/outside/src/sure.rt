//! A source and a sink that never fail.
ghost use Rattle.std.specs.Prelude.{◌≡◌, ℕ, List, [], Some, None, ◌+◌, ◌<◌, ◌≤◌, min, length, take, drop, IfOk, OnErr, Ok};
ghost use Rattle.std.specs.Io.KnownBytes.{Appends, Consumes, IsAtEnd, Keeps};
ghost use Rattle.outside.specs.Streams.{Rose};

use crate::fault::Failed;
use crate::sink::Sink;
use crate::source::{Source, copy_front};
use net_base::Octets;
use std::marker::Model;

/// Gives the bytes that it was made with. Clauses see what is left.
#[derive(Debug, Drop)]
pub struct SureSource {
    bytes: Octets,
    at: usize,
}

impl Model for SureSource {
    ghost use Rattle.std.specs.Prelude.{ℕ, List, length, drop, ◌≤◌};

    ghost Value = { List ℕ };

    ghost view = { λ s. drop s.at s.bytes };

    ghost invariant = { λ s. s.at ≤ length s.bytes };
}

impl SureSource {
    /// A source of these bytes. It takes no memory.
    pub fn new(bytes: Octets) -> SureSource
        ensures { result ≡ bytes }
    {
        SureSource { bytes, at: 0 }
    }
}

impl Source for SureSource {
    ghost left = { λ s. Some s };

    ghost faults = { λ _. 0 };

    fn read(&mut self, into: &mut [u8]) -> Result<usize, Failed>
        requires { 0 < length into.old }
        ensures within { IfOk result (λ n. n ≤ length into.old) }
        ensures took { IfOk result (λ n. Consumes (Some self.old) (Some self.new) (take n into.new)) }
        ensures end { IfOk result (λ n. n ≡ 0 → IsAtEnd (Some self.new)) }
        ensures same { ◌≡◌ {A = ℕ} 0 0 }
        ensures failed { OnErr result (Rose 0 0) }
        ensures kept { OnErr result (Keeps (Some self.old) (Some self.new)) }
        ensures once { 0 ≤ 0 + 1 }

        // What this source does at each call.
        ensures ok { result ≡ Ok (min (length into.old) (length self.old)) }
    {
        let n = copy_front(&self.bytes.as_slice()[self.at..], into);
        self.at += n;
        Ok(n)
    }
}

/// Takes every piece whole and keeps nothing of it.
#[derive(Debug, Drop)]
pub struct SureSink {}

impl SureSink {
    /// A sink, which takes no memory.
    pub fn new() -> SureSink {
        SureSink {}
    }
}

impl Sink for SureSink {
    ghost held = { λ _. None };

    ghost faults = { λ _. 0 };

    fn write(&mut self, bytes: &[u8]) -> Result<usize, Failed>
        ensures within { IfOk result (λ n. n ≤ length bytes.now) }
        ensures gained { IfOk result (λ n. Appends None None (take n bytes.now)) }
        ensures some { IfOk result (λ n. n ≡ 0 → bytes.now ≡ []) }
        ensures same { ◌≡◌ {A = ℕ} 0 0 }
        ensures failed { OnErr result (Rose 0 0) }
        ensures kept { OnErr result (Keeps None None) }

        // What this sink does at each call.
        ensures ok { result ≡ Ok (length bytes.now) }
    {
        Ok(bytes.len())
    }
}
