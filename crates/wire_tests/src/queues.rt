//! Worked numbers, and a run of each type that meets every answer.
ghost use Rattle.std.specs.Prelude.{◌<◌};

use il_queues::{Early, MOST_EARLY, MOST_UNACKED, MOST_UNREAD, Tick, Timer, Unacked, Unread};
use net_base::{Octets, Probe, Timers, number};
use std::alloc::{AllocError, Global};
use std::test::*;

/// A start, a number on the wire, how many were passed, and which message it is.
const NUMBERS: &[(u32, u32, u32, Option<u64>)] = &[
    // the third after the last but one
    (4294967294, 1, 2, Some(3)),
    // the first is long past
    (4294967294, 4294967295, 30, None),
    // the last of the window, one beyond it, and the sync
    (5000, 5020, 0, Some(20)),
    (5000, 5021, 0, None),
    (5000, 5000, 0, None),
];

#[test]
fn numbers_wrap_round(rt: HostRuntime) {
    for (start, id, passed, want) in NUMBERS {
        assert!(rt;
            number(*start, *id, u64::from(*passed)) == *want,
            "{id} after {start}"
        );
    }
}

/// What becomes of a message.
#[derive(Clone, Copy, PartialEq, Eq)]
enum Fate {
    Kept,
    /// It comes back as it was.
    Back,
    Changed,
}

fn fate_of(pushed: Result<(), Octets>, bytes: &[u8]) -> Fate {
    match pushed {
        Ok(()) => Fate::Kept,
        Err(text) => {
            if text.as_slice() == bytes {
                Fate::Back
            } else {
                Fate::Changed
            }
        }
    }
}

fn wait_for_ack(alloc: Global, unacked: &mut Unacked, bytes: &[u8]) -> Result<Fate, AllocError> {
    let text = Octets::from_slice(alloc, bytes)?;
    Ok(fate_of(unacked.push(text), bytes))
}

/// How many messages of one byte are kept while there is room, each another.
fn fill_unacked(alloc: Global, unacked: &mut Unacked) -> Result<usize, AllocError> {
    for n in 0..MOST_UNACKED {
        if unacked.is_full() || wait_for_ack(alloc, unacked, &[n as u8])? != Fate::Kept {
            return Ok(n);
        }
    }
    Ok(unacked.len())
}

/// Whether twenty messages are kept, and one more comes back.
fn takes_twenty(alloc: Global, unacked: &mut Unacked) -> Result<bool, AllocError> {
    let empty = unacked.is_empty();
    let kept = fill_unacked(alloc, unacked)? == 20;
    let full = unacked.is_full();
    let back = wait_for_ack(alloc, unacked, b"more")? == Fate::Back;
    Ok(empty && kept && full && back)
}

#[test]
fn twenty_messages_wait_for_their_ack(rt: HostRuntime) -> Result<(), AllocError> {
    let mut unacked = Unacked::new(rt.alloc())?;
    assert!(rt; takes_twenty(rt.alloc(), &mut unacked) == Ok(true));
    drop(unacked);
    Ok(())
}

/// Whether two messages are kept, and the second is first once one is acknowledged.
fn first_is_acknowledged(alloc: Global, unacked: &mut Unacked) -> Result<bool, AllocError> {
    let before = unacked.first().is_none();
    let first = wait_for_ack(alloc, unacked, b"a")?;
    let second = wait_for_ack(alloc, unacked, b"b")?;
    if first != Fate::Kept || second != Fate::Kept || unacked.len() != 2 {
        return Ok(false);
    }
    unacked.drop_first(1);
    Ok(before && unacked.first() == Some(b"b".as_slice()))
}

#[test]
fn acknowledged_messages_go(rt: HostRuntime) -> Result<(), AllocError> {
    let mut unacked = Unacked::new(rt.alloc())?;
    assert!(rt; first_is_acknowledged(rt.alloc(), &mut unacked) == Ok(true));
    drop(unacked);
    Ok(())
}

fn wait_for_reader(alloc: Global, unread: &mut Unread, bytes: &[u8]) -> Result<Fate, AllocError> {
    let text = Octets::from_slice(alloc, bytes)?;
    Ok(fate_of(unread.push(text), bytes))
}

// Whether a read of so many bytes gives these, as a look at them does.
fn reads(unread: &mut Unread, count: usize, bytes: &[u8]) -> Result<bool, AllocError>
    requires { 0 < count }
{
    let seen = unread.peek(count) == bytes;
    let read = unread.read(count)?;
    let given = is_given(&read, bytes);
    drop(read);
    Ok(seen && given)
}

fn is_given(read: &Option<Octets>, bytes: &[u8]) -> bool {
    match read {
        Some(text) => text.as_slice() == bytes,
        None => false,
    }
}

/// Whether two messages are kept, and each is read as far as it goes.
fn reads_pieces(alloc: Global, unread: &mut Unread) -> Result<bool, AllocError> {
    let first = wait_for_reader(alloc, unread, b"hello")? == Fate::Kept;
    let second = wait_for_reader(alloc, unread, b"again")? == Fate::Kept;
    let front = reads(unread, 2, b"he")? && unread.len() == 2;
    let rest = reads(unread, 8192, b"llo")? && reads(unread, 5, b"again")?;
    Ok(first && second && front && rest)
}

#[test]
fn messages_are_read_piece_by_piece(rt: HostRuntime) -> Result<(), AllocError> {
    let mut unread = Unread::new(rt.alloc())?;
    assert!(rt; reads_pieces(rt.alloc(), &mut unread) == Ok(true));
    drop(unread);
    Ok(())
}

/// Whether nothing is there to be read, and is read.
fn reads_nothing(unread: &mut Unread) -> Result<bool, AllocError> {
    let seen = unread.is_empty() && unread.peek(5).len() == 0;
    let read = unread.read(5)?;
    let nothing = read.is_none();
    drop(read);
    Ok(seen && nothing)
}

#[test]
fn nothing_is_read_where_nothing_waits(rt: HostRuntime) -> Result<(), AllocError> {
    let mut unread = Unread::new(rt.alloc())?;
    assert!(rt; reads_nothing(&mut unread) == Ok(true));
    drop(unread);
    Ok(())
}

/// How many messages of one byte are kept, each another.
fn fill_unread(alloc: Global, unread: &mut Unread) -> Result<usize, AllocError> {
    for n in 0..MOST_UNREAD {
        if wait_for_reader(alloc, unread, &[n as u8])? != Fate::Kept {
            return Ok(n);
        }
    }
    Ok(unread.len())
}

/// Whether 64 messages are kept, one more comes back, and the first is read.
fn takes_sixty_four(alloc: Global, unread: &mut Unread) -> Result<bool, AllocError> {
    let kept = fill_unread(alloc, unread)? == 64;
    let back = wait_for_reader(alloc, unread, b"more")? == Fate::Back;
    let first = reads(unread, 1, &[0])?;
    Ok(kept && back && first)
}

#[test]
fn sixty_four_messages_wait_for_a_reader(rt: HostRuntime) -> Result<(), AllocError> {
    let mut unread = Unread::new(rt.alloc())?;
    assert!(rt; takes_sixty_four(rt.alloc(), &mut unread) == Ok(true));
    drop(unread);
    Ok(())
}

/// What becomes of an early message, if there is room for it.
fn come_early(
    alloc: Global,
    early: &mut Early,
    k: u64,
    bytes: &[u8],
) -> Result<Option<Fate>, AllocError> {
    if early.len() >= MOST_EARLY {
        return Ok(None);
    }
    let text = Octets::from_slice(alloc, bytes)?;
    Ok(Some(fate_of(early.put(k, text), bytes)))
}

// Whether these bytes are given out for a number, and nothing where there are none.
fn takes(early: &mut Early, k: u64, bytes: &[u8]) -> bool {
    match early.take(k) {
        Some(text) => text.as_slice() == bytes,
        None => bytes.is_empty(),
    }
}

/// A call at the early messages, and what it must come to.
#[derive(Clone, Copy)]
enum Deed {
    /// How many there are then.
    Put(u64, &'static [u8], Fate, usize),
    Has(u64, bool),
    Take(u64, &'static [u8]),
}

fn is_met(alloc: Global, early: &mut Early, deed: Deed) -> Result<bool, AllocError> {
    match deed {
        Deed::Put(k, bytes, fate, len) => {
            let put = come_early(alloc, early, k, bytes)?;
            Ok(put == Some(fate) && early.len() == len)
        }
        Deed::Has(k, has) => Ok(early.contains(k) == has),
        Deed::Take(k, bytes) => Ok(takes(early, k, bytes)),
    }
}

const BY_NUMBER: &[Deed] = &[
    Deed::Take(2, b""),
    Deed::Put(4, b"d", Fate::Kept, 1),
    Deed::Put(2, b"b", Fate::Kept, 2),
    Deed::Put(4, b"D", Fate::Back, 2),
    Deed::Has(2, true),
    Deed::Has(3, false),
    Deed::Has(4, true),
    Deed::Take(3, b""),
    Deed::Take(2, b"b"),
    Deed::Take(2, b""),
    Deed::Take(4, b"d"),
];

/// The first call that comes to something else.
fn first_wrong(alloc: Global, early: &mut Early) -> Result<Option<usize>, AllocError> {
    for (i, deed) in BY_NUMBER.iter().enumerate() {
        if !is_met(alloc, early, *deed)? {
            return Ok(Some(i));
        }
    }
    Ok(None)
}

#[test]
fn early_messages_go_out_by_number(rt: HostRuntime) {
    let mut early = Early::new();
    assert_eq!(rt; first_wrong(rt.alloc(), &mut early), Ok(None));
    drop(early);
}

/// How many early messages of one byte are kept, each another.
fn fill_early(alloc: Global, early: &mut Early) -> Result<usize, AllocError> {
    for n in 0..MOST_EARLY {
        if come_early(alloc, early, n as u64, &[n as u8])? != Some(Fate::Kept) {
            return Ok(n);
        }
    }
    Ok(early.len())
}

#[test]
fn twenty_messages_can_be_early(rt: HostRuntime) {
    let mut early = Early::new();
    let full = fill_early(rt.alloc(), &mut early);
    let last = takes(&mut early, 19, &[19]);
    let first = takes(&mut early, 0, &[0]);
    assert!(rt; full == Ok(20) && last && first && early.len() == 18);
    drop(early);
}

/// Whether a tick at a moment says so, and leaves so much due.
fn ticks(timer: &mut Timer, now: u64, says: Tick, due: Option<u64>) -> bool {
    now < 1 << 62 && timer.tick(now) == says && timer.due == due
}

/// Ticks of a timer that starts at 10: moments, and what they say and leave due.
const SILENT_TICKS: &[(u64, Tick, Option<u64>)] = &[
    (10, Tick::NotDue, Some(510)),
    (509, Tick::NotDue, Some(510)),
    (510, Tick::Again, Some(1510)),
    (1510, Tick::Again, Some(3510)),
    (3510, Tick::Again, Some(7510)),
    (7510, Tick::Again, Some(15510)),
    (15510, Tick::Again, Some(23510)),
    (23510, Tick::Again, Some(30010)),
    (30010, Tick::TimedOut, None),
    (40000, Tick::NotDue, None),
];

/// The waits double from half a second to eight, and end after thirty seconds of silence.
#[test]
fn a_timer_runs_out(rt: HostRuntime) {
    let mut timer = Timer::idle(Timers::Fixed);
    assert!(rt; ticks(&mut timer, 5, Tick::NotDue, None));
    timer.start(10);
    for (now, says, due) in SILENT_TICKS {
        assert!(rt; ticks(&mut timer, *now, *says, *due), "at {now}");
    }
}

/// What a timer knows of round trips.
fn knows(timer: &Timer, measured: bool, mean: u64, dev: u64, probe: Option<Probe>) -> bool {
    (timer.measured, timer.mean, timer.dev, timer.probe) == (measured, mean, dev, probe)
}

/// A measured timer waits by the round trips of the messages that it has sent, from their first sending on.
#[test]
fn a_timer_follows_round_trips(rt: HostRuntime) {
    let mut timer = Timer::idle(Timers::Measured);
    timer.start(600);
    timer.sent(600, 1);
    // the second message is no probe while the first one is
    timer.sent(610, 2);
    assert!(rt; knows(&timer, false, 0, 0, Some(Probe { k: 1, at: 600 })));
    assert!(rt; timer.due == Some(1100));
    timer.acked(640, 1);
    assert!(rt; knows(&timer, true, 40, 20, None));
    timer.moved(640, false);
    timer.start(700);
    timer.sent(700, 3);
    assert!(rt; timer.due == Some(820), "40 and four times 20");
    // an ack below the probe measures nothing
    timer.acked(720, 2);
    assert!(rt; knows(&timer, true, 40, 20, Some(Probe { k: 3, at: 700 })));
    timer.acked(1500, 3);
    assert!(rt;
        knows(&timer, true, 135, 205, None),
        "(7 * 40 + 800) / 8, (3 * 20 + 760) / 4"
    );
}

/// The base lies between 100 and 8,000; a probe that is later than now counts as 0.
#[test]
fn a_measured_wait_is_bounded(rt: HostRuntime) {
    let mut quick = Timer::idle(Timers::Measured);
    quick.sent(50, 1);
    quick.acked(40, 1);
    quick.start(40);
    let least = quick.due;
    let mut slow = Timer::idle(Timers::Measured);
    slow.sent(0, 1);
    slow.acked(4_000_000_000, 1);
    slow.start(0);
    let most = (slow.mean, slow.dev, slow.due);
    let mut fixed = Timer::idle(Timers::Fixed);
    fixed.sent(0, 1);
    fixed.acked(40, 1);
    fixed.start(0);
    let as_before = (fixed.measured, fixed.probe, fixed.due);
    assert!(rt; least == Some(140));
    assert!(rt; most == (1_000_000_000, 500_000_000, Some(8000)));
    assert!(rt; as_before == (false, None, Some(500)));
}

#[test]
fn an_ack_starts_the_wait_anew(rt: HostRuntime) {
    let mut timer = Timer::idle(Timers::Fixed);
    timer.start(10);
    let again = ticks(&mut timer, 510, Tick::Again, Some(1510));
    timer.heard(600);
    let heard = timer.heard;
    timer.moved(600, true);
    // something still waits, and then nothing
    let (waits, interval) = (timer.due, timer.interval);
    timer.moved(700, false);
    let idle = timer.due;
    timer.start(800);
    timer.stop();
    let still = ticks(&mut timer, 99999, Tick::NotDue, None);
    assert!(rt;
        (again, heard, waits, interval, idle, still) == (true, 600, Some(1100), 500, None, true)
    );
}
