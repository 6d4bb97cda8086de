//! Histories of runs, as they are and with one entry changed.
ghost use Rattle.std.specs.Prelude.{IfOk};
ghost use Rattle.net_base.specs.World.{IsWorld};

use agenda::run;
use net_base::{ActorName, Entry, Event, History, Octets, Proto, Reply, World};
use netcheck::{CheckError, check};
use outside::OpenGate;
use plain_runner::summary_of;
use std::alloc::{AllocError, Global};
use std::mem;
use std::sync::Wait;
use std::test::*;
use std::thread::Threads;
use world_file::read_world;

// A datagram from anna to helix.
const DATAGRAM: &[u8] = b"networld 1
end 60000
seed 7
medium ether0 1500
host anna il udp
if ether0 135.104.9.6 255.255.255.0
host helix il udp
if ether0 135.104.9.31 255.255.255.0
script anna
open c /net/udp/clone
write c connect 135.104.9.31!7 5000
open d /net/udp/0/data
write d hi
script helix
open c /net/udp/clone
write c connect 135.104.9.6!5000 7
open d /net/udp/0/data
read d 8192
ndb
";

// A call over IL, whose message is read and which is closed.
const CALL: &[u8] = b"networld 1
end 60000
seed 7
medium ether0 1500
host anna il udp
if ether0 135.104.9.6 255.255.255.0
host helix il udp
if ether0 135.104.9.31 255.255.255.0
script anna
until 10
dial d il!135.104.9.31!17008
write d hello
close d
script helix
announce a il!*!17008
listen c a
accept e c
read e 8192
read e 8192
close e
ndb
";

const SUMMARY: &[u8] = b"steps 10 of 10
messages 1 1
bytes 5 5
end done 10
";

// What is told of a history.
#[derive(Clone, Copy, PartialEq, Eq)]
enum Told {
    Legal,
    Fault(u64, u32),
    Memory,
}

fn answer_of(alloc: Global, world: &World, history: &History) -> Told
    requires { IsWorld world.now }
{
    match check(alloc, world, history) {
        Ok(()) => Told::Legal,
        Err(CheckError::Fault { stamp, rule }) => Told::Fault(stamp, rule),
        Err(CheckError::Memory) => Told::Memory,
    }
}

// The world of a text, and the history of its run on one worker.
fn run_of<R: Threads + Wait + Sync>(
    rt: &R,
    alloc: Global,
    text: &[u8],
) -> Result<(World, Vec<Entry>), AllocError>
    ensures { IfOk result (λ both. IsWorld both.0) }
{
    let Ok(world) = read_world(alloc, text) else {
        return Err(AllocError);
    };
    let Ok(ran) = run(rt, alloc, &world, 1, &OpenGate) else {
        drop(world);
        return Err(AllocError);
    };
    Ok((world, ran.history.into_vec()))
}

#[derive(Clone, Copy)]
enum Change {
    Nothing,
    Text,
    Moment,
    Cites(u64),
    CitesNothing,
    Count,
    Caller(u32),
    Actor(ActorName),
    /// Another event, which its actor answers otherwise.
    Lists,
    Moves(u64),
    Stale,
    Ended,
    NoHeader,
}

fn set_event(entry: &mut Entry, event: Event) {
    drop(mem::replace(&mut entry.event, event));
}

fn set_reply(entry: &mut Entry, reply: Reply) {
    drop(mem::replace(&mut entry.reply, reply));
}

fn reads(count: u32) -> Event {
    Event::Read {
        generation: 1,
        count,
    }
}

fn bytes(alloc: Global, text: &[u8]) -> Result<Reply, AllocError> {
    Ok(Reply::Bytes {
        bytes: Octets::from_slice(alloc, text)?,
    })
}

fn make(alloc: Global, entry: &mut Entry, change: Change) -> Result<(), AllocError> {
    match change {
        Change::Nothing => {}
        Change::Text => set_reply(entry, bytes(alloc, b"hh")?),
        Change::Moment => entry.moment = 5,
        Change::Cites(stamp) => entry.cites = Some(stamp),
        Change::CitesNothing => entry.cites = None,
        Change::Count => set_event(entry, reads(100)),
        Change::Caller(caller) => entry.caller = caller,
        Change::Actor(actor) => entry.actor = actor,
        Change::Lists => set_event(entry, Event::Ls),
        Change::Moves(moment) => set_event(entry, Event::Move { moment }),
        Change::Stale => set_reply(entry, Reply::Stale),
        Change::Ended => entry.ended = !entry.ended,
        Change::NoHeader => entry.emits = None,
    }
    Ok(())
}

fn make_at(
    alloc: Global,
    entries: &mut [Entry],
    stamp: usize,
    change: Change,
) -> Result<(), AllocError> {
    if stamp >= entries.len() {
        return Ok(());
    }
    make(alloc, &mut entries[stamp], change)
}

// What is told of the history of a run with the entry of this stamp changed.
fn changed<R: Threads + Wait + Sync>(
    rt: &R,
    alloc: Global,
    text: &[u8],
    stamp: usize,
    change: Change,
) -> Result<Told, AllocError> {
    let (world, mut entries) = run_of(rt, alloc, text)?;
    let made = make_at(alloc, &mut entries, stamp, change);
    let history = History::from_vec(entries);
    let told = answer_of(alloc, &world, &history);
    drop(history);
    drop(world);
    made?;
    Ok(told)
}

// Whether a history is legal and has this summary.
fn has_summary(
    alloc: Global,
    world: &World,
    history: &History,
    wanted: &[u8],
) -> Result<bool, AllocError>
    requires { IsWorld world.now }
{
    match check(alloc, world, history) {
        Ok(()) => Ok(summary_of(alloc, world, history)?.as_slice() == wanted),
        Err(_) => Ok(false),
    }
}

fn call_is_legal<R: Threads + Wait + Sync>(rt: &R, alloc: Global) -> Result<bool, AllocError> {
    let (world, entries) = run_of(rt, alloc, CALL)?;
    let history = History::from_vec(entries);
    let has = has_summary(alloc, &world, &history, SUMMARY);
    drop(history);
    drop(world);
    has
}

#[test]
fn runs_are_legal(rt: HostRuntime) {
    let unchanged = changed(&rt, rt.alloc(), DATAGRAM, 0, Change::Nothing);
    assert!(rt; unchanged == Ok(Told::Legal));
    assert!(rt; call_is_legal(&rt, rt.alloc()) == Ok(true));
}

/// A stamp, a change of its entry, and the rule that it breaks.
const CHANGES: &[(usize, Change, u32)] = &[
    (17, Change::Text, 1),
    (13, Change::Cites(11), 3),
    (17, Change::Moment, 2),
    (17, Change::Count, 4),
    (12, Change::NoHeader, 1),
    (12, Change::Ended, 1),
    (6, Change::CitesNothing, 3),
    (0, Change::Caller(99), 4),
    (2, Change::Caller(99), 3),
    (0, Change::Actor(ActorName::Dir(9, Proto::Udp)), 4),
    (14, Change::Actor(ActorName::Medium(7)), 4),
    (0, Change::Lists, 1),
    // a move that the clock may not make, of a caller that isn't the clock
    (8, Change::Moves(7), 4),
];

// Whether the change is told by its stamp and this rule.
fn is_told<R: Threads + Wait + Sync>(
    rt: &R,
    alloc: Global,
    text: &[u8],
    stamp: usize,
    change: Change,
    rule: u32,
) -> Result<bool, AllocError> {
    let wanted = Told::Fault(stamp as u64, rule);
    Ok(changed(rt, alloc, text, stamp, change)? == wanted)
}

#[test]
fn a_changed_entry_of_a_datagram_is_told(rt: HostRuntime) -> Result<(), AllocError> {
    for (stamp, change, rule) in CHANGES {
        let told = is_told(&rt, rt.alloc(), DATAGRAM, *stamp, *change, *rule)?;
        assert!(rt; told, "stamp {stamp} rule {rule}");
    }
    Ok(())
}

fn is_move(entry: &Entry) -> bool {
    matches!(&entry.event, Event::Move { .. })
}

// The stamp of the one move.
fn only_move(entries: &[Entry]) -> Option<usize> {
    let mut only = None;
    for (stamp, entry) in entries.iter().enumerate() {
        if !is_move(entry) {
            continue;
        }
        if only != None {
            return None;
        }
        only = Some(stamp);
    }
    only
}

fn move_of<R: Threads + Wait + Sync>(
    rt: &R,
    alloc: Global,
    text: &[u8],
) -> Result<Option<usize>, AllocError> {
    let (world, entries) = run_of(rt, alloc, text)?;
    let stamp = only_move(&entries);
    drop(entries);
    drop(world);
    Ok(stamp)
}

const CHANGED_MOVES: &[(Change, u32)] = &[
    (Change::Moves(11), 6),
    (Change::Moves(9), 6),
    (Change::Stale, 1),
    (Change::Caller(0), 4),
];

#[test]
fn a_changed_move_is_told(rt: HostRuntime) -> Result<(), AllocError> {
    let Some(stamp) = move_of(&rt, rt.alloc(), CALL)? else {
        panic!(rt; "one move");
    };
    for (change, rule) in CHANGED_MOVES {
        let told = is_told(&rt, rt.alloc(), CALL, stamp, *change, *rule)?;
        assert!(rt; told, "rule {rule}");
    }
    Ok(())
}
