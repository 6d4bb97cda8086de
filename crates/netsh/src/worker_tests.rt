//! Runs on many workers, with gates that hold one call until the other went on, or count.
use crate::tests::{sink_of, words_of};
use crate::top::netsh;
use net_base::Octets;
use outside::{Gate, MemSink, SureSource};
use std::alloc::{AllocError, Global};
use std::str;
use std::sync::Wait;
use std::sync::atomic::{AtomicU64, Ordering};
use std::test::Fail;
use std::thread::{Threads, yield_now};

/// Two calls of anna to helix, who answers each at a service of its own.
const TWO_CALLS: &str = "networld 1\n\
end 60000\n\
seed 7\n\
medium ether0 1500\n\
host anna il udp\n\
if ether0 135.104.9.6 255.255.255.0\n\
host helix il udp\n\
if ether0 135.104.9.31 255.255.255.0\n\
script anna\n\
until 10\n\
dial d il!helix!9fs\n\
write d one\n\
read d 8192\n\
script anna\n\
until 10\n\
dial d il!helix!7777\n\
write d two\n\
read d 8192\n\
script helix\n\
announce a il!*!9fs\n\
listen c a\n\
accept e c\n\
read e 8192\n\
write e eno\n\
script helix\n\
announce a il!*!7777\n\
listen c a\n\
accept e c\n\
read e 8192\n\
write e owt\n\
ndb\n\
sys=helix ip=135.104.9.31\n\
il=9fs port=17008\n";

/// The summary of their run, whatever the order.
const SUMMARY: &str = "steps 18 of 18\nmessages 4 4\nbytes 12 12\nend done 10\n";

/// The most turns for which a gate holds a caller up.
const MOST_TURNS: u64 = 1_000_000_000;

/// Holds the first call at one place until another place is reached.
#[derive(Drop)]
struct Hold {
    held: u32,
    until: u32,
    calls: AtomicU64,
    reached: AtomicU64,
    late: AtomicU64,
}

impl Hold {
    fn new(held: u32, until: u32) -> Hold {
        Hold {
            held,
            until,
            calls: AtomicU64::new(0),
            reached: AtomicU64::new(0),
            late: AtomicU64::new(0),
        }
    }

    // Waits for the other place, or tells that it didn't come.
    fn wait(&self) {
        for _ in 0..MOST_TURNS {
            if self.reached.load(Ordering::SeqCst) != 0 {
                return;
            }
            yield_now();
        }
        self.late.store(1, Ordering::SeqCst);
    }

    // Whether a call was held, and not to the end of its turns.
    fn held_well(&self) -> bool {
        self.calls.load(Ordering::SeqCst) != 0 && self.late.load(Ordering::SeqCst) == 0
    }
}

impl Gate for Hold {
    fn at(&self, place: u32) {
        if place == self.until {
            self.reached.store(1, Ordering::SeqCst);
        }
        if place == self.held && self.calls.swap(1, Ordering::SeqCst) == 0 {
            self.wait();
        }
    }
}

/// Counts its calls, and those at the medium of a made world.
#[derive(Drop)]
struct Count {
    calls: AtomicU64,
    medium: AtomicU64,
}

impl Count {
    fn new() -> Count {
        Count {
            calls: AtomicU64::new(0),
            medium: AtomicU64::new(0),
        }
    }

    // Whether it was called so often, and so often at the medium.
    fn is_called(&self, calls: u64, medium: u64) -> bool {
        self.calls.load(Ordering::SeqCst) >= calls && self.medium.load(Ordering::SeqCst) >= medium
    }
}

impl Gate for Count {
    fn at(&self, place: u32) {
        self.calls.fetch_add(1, Ordering::SeqCst);
        if place == 268 {
            self.medium.fetch_add(1, Ordering::SeqCst);
        }
    }
}

/// The status of a call.
fn call<R: Threads + Wait + Sync, G: Gate + Sync>(
    rt: &R,
    alloc: Global,
    words: &[&str],
    input: &str,
    gate: &G,
    sink: &mut MemSink,
) -> Result<u8, AllocError> {
    let words = words_of(alloc, words)?;
    let mut source = SureSource::new(Octets::from_slice(alloc, input.as_bytes())?);
    Ok(netsh(rt, alloc, &words, &mut source, sink, gate))
}

/// Whether the one piece stands in a text before the first of the other.
fn stands_before(text: &str, first: &str, second: &str) -> bool {
    match text.split_once(second) {
        Some((before, _)) => before.split_once(first).is_some(),
        None => false,
    }
}

/// Whether the calls are told in this order, and all of them.
fn is_told(text: &[u8], first: &str, second: &str) -> bool {
    match str::from_utf8(text) {
        Ok(text) => stands_before(text, first, second) && text.ends_with(SUMMARY),
        Err(_) => false,
    }
}

/// A gate's two places, and the call that goes first before the other.
type Row = (u32, u32, &'static str, &'static str);

const ORDERS: &[Row] = &[
    (12, 15, " conv.0.il.1 ", " conv.0.il.0 "),
    (14, 13, " conv.0.il.0 ", " conv.0.il.1 "),
];

/// Whether a gate orders the two calls so.
fn is_ordered<R: Threads + Wait + Sync>(
    rt: &R,
    alloc: Global,
    row: Row,
) -> Result<bool, AllocError> {
    let (held, until, first, second) = row;
    let gate = Hold::new(held, until);
    let mut sink = sink_of(alloc, &[])?;
    let status = call(rt, alloc, &["run", "2"], TWO_CALLS, &gate, &mut sink)?;
    Ok(status == 0 && gate.held_well() && is_told(sink.held(), first, second))
}

#[test]
fn a_gate_lets_either_call_go_first(rt: HostRuntime) -> Result<(), Fail> {
    for (i, row) in ORDERS.iter().enumerate() {
        let ordered = is_ordered(&rt, rt.alloc(), *row)?;
        assert!(rt; ordered, "row {i}");
    }
    Ok(())
}

/// How many messages are made, the least calls of the gate and those at the medium, and what is written.
type Made = (&'static str, u64, u64, &'static str);

const MADE: &[Made] = &[
    (
        "1",
        26,
        10,
        "steps 13 of 13\nmessages 2 2\nbytes 2 2\nend done 10\n",
    ),
    (
        "1000",
        20000,
        4000,
        "steps 4009 of 4009\nmessages 2000 2000\nbytes 5786 5786\nend done 10\n",
    ),
];

/// Whether a gate is called so often at the run of a made world.
fn is_counted<R: Threads + Wait + Sync>(
    rt: &R,
    alloc: Global,
    row: Made,
) -> Result<bool, AllocError> {
    let (messages, calls, medium, text) = row;
    let count = Count::new();
    let mut sink = sink_of(alloc, &[])?;
    let status = call(rt, alloc, &["big", messages], "", &count, &mut sink)?;
    Ok(status == 0 && count.is_called(calls, medium) && sink.held() == text.as_bytes())
}

#[test]
fn made_worlds_on_two_workers(rt: HostRuntime) -> Result<(), Fail> {
    for (i, row) in MADE.iter().enumerate() {
        let counted = is_counted(&rt, rt.alloc(), *row)?;
        assert!(rt; counted, "row {i}");
    }
    Ok(())
}
