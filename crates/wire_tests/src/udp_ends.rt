//! A run that meets every answer of a UDP end.
use net_base::{Octets, StateName};
use std::alloc::{AllocError, Global};
use std::process::Abort;
use std::test::*;
use udp_core::{HungupError, MOST_UNREAD, UdpEnd};

/// How an end begins.
#[derive(Clone, Copy)]
enum Begin {
    Fresh,
    Connected,
    Announced,
}

fn begun(alloc: Global, how: Begin) -> Result<UdpEnd, AllocError> {
    let mut end = UdpEnd::fresh(alloc)?;
    match how {
        Begin::Fresh => {}
        Begin::Connected => end.connect(),
        Begin::Announced => end.announced(),
    }
    Ok(end)
}

/// A call at an end, and what it must come to.
#[derive(Clone, Copy)]
enum Deed {
    Hangup,
    Look(StateName),
    /// A datagram that is kept.
    Kept(&'static [u8]),
    /// One that comes back.
    Back(&'static [u8]),
    /// Whether a read has an answer.
    Ready(bool),
    /// A look at so many bytes.
    Peek(usize, &'static [u8]),
    Read(usize, &'static [u8]),
    ReadHungup,
}

/// Whether a datagram is kept, or comes back as it was.
fn keeps(alloc: Global, end: &mut UdpEnd, bytes: &[u8], kept: bool) -> Result<bool, AllocError> {
    match end.arrive(Octets::from_slice(alloc, bytes)?) {
        Ok(()) => Ok(kept),
        Err(text) => Ok(!kept && text.as_slice() == bytes),
    }
}

fn is_given(read: &Result<Octets, HungupError>, bytes: Option<&[u8]>) -> Result<bool, AllocError> {
    match (read, bytes) {
        (Ok(text), Some(bytes)) => Ok(text.as_slice() == bytes),
        (Err(HungupError::Hungup), None) => Ok(true),
        (Err(HungupError::Memory), _) => Err(AllocError),
        _ => Ok(false),
    }
}

/// Whether a read gives these bytes, or is refused for a hangup where there are none.
fn reads(end: &mut UdpEnd, count: usize, bytes: Option<&[u8]>) -> Result<bool, AllocError> {
    if !end.ready_read() {
        return Ok(false);
    }
    let read = end.read(count);
    let given = is_given(&read, bytes);
    drop(read);
    given
}

/// Makes the call. The answer is whether it comes to what it says.
fn is_met(alloc: Global, end: &mut UdpEnd, deed: Deed) -> Result<bool, AllocError> {
    match deed {
        Deed::Hangup => {
            end.hangup();
            Ok(true)
        }
        Deed::Look(state) => Ok(end.state() == state),
        Deed::Kept(bytes) => keeps(alloc, end, bytes, true),
        Deed::Back(bytes) => keeps(alloc, end, bytes, false),
        Deed::Ready(ready) => Ok(end.ready_read() == ready),
        Deed::Peek(count, bytes) => Ok(end.peek(count) == bytes),
        Deed::Read(count, bytes) => reads(end, count, Some(bytes)),
        Deed::ReadHungup => reads(end, 1, None),
    }
}

/// The first call that comes to something else.
fn first_wrong(
    alloc: Global,
    end: &mut UdpEnd,
    deeds: &[Deed],
) -> Result<Option<usize>, AllocError> {
    for (i, deed) in deeds.iter().enumerate() {
        if !is_met(alloc, end, *deed)? {
            return Ok(Some(i));
        }
    }
    Ok(None)
}

/// The first wrong deed at an end that begins so.
fn wrong_at(alloc: Global, how: Begin, deeds: &[Deed]) -> Result<Option<usize>, AllocError> {
    let mut end = begun(alloc, how)?;
    let wrong = first_wrong(alloc, &mut end, deeds);
    drop(end);
    wrong
}

/// No call is wrong.
fn none_wrong(rt: &impl Abort, wrong: Result<Option<usize>, AllocError>) {
    assert_eq!(rt; wrong, Ok(None));
}

const READ_ONCE: &[Deed] = &[
    Deed::Look(StateName::Closed),
    Deed::Ready(false),
    Deed::Peek(2, b""),
    // before it is connected
    Deed::Kept(b"hello"),
    Deed::Hangup,
    // it was never connected
    Deed::Kept(b"again"),
    Deed::Ready(true),
    Deed::Peek(2, b"he"),
    Deed::Read(2, b"he"),
    Deed::Ready(true),
    Deed::Read(8192, b"again"),
    // the rest of the first is lost
    Deed::Ready(false),
];

#[test]
fn a_datagram_is_read_once(rt: HostRuntime) {
    none_wrong(&rt, wrong_at(rt.alloc(), Begin::Fresh, READ_ONCE));
}

const FULL: &[Deed] = &[
    // 64 are unread
    Deed::Back(b"more"),
    Deed::Hangup,
    Deed::Look(StateName::Closed),
];

const DRAINED: &[Deed] = &[
    // it is hung up
    Deed::Back(b"late"),
    Deed::Ready(true),
    Deed::ReadHungup,
];

/// How many datagrams of one byte are kept, each another.
fn fill(alloc: Global, end: &mut UdpEnd) -> Result<usize, AllocError> {
    for n in 0..MOST_UNREAD {
        if !keeps(alloc, end, &[n as u8], true)? {
            return Ok(n);
        }
    }
    Ok(MOST_UNREAD)
}

/// How many of them are read.
fn drain(end: &mut UdpEnd) -> Result<usize, AllocError> {
    for n in 0..MOST_UNREAD {
        if !reads(end, 1, Some(&[n as u8]))? {
            return Ok(n);
        }
    }
    Ok(MOST_UNREAD)
}

/// How many datagrams are kept and read, and the first wrong call before and after they are read.
fn filled(alloc: Global, end: &mut UdpEnd) -> Result<[Option<usize>; 4], AllocError> {
    let kept = fill(alloc, end)?;
    let full = first_wrong(alloc, end, FULL)?;
    let read = drain(end)?;
    let drained = first_wrong(alloc, end, DRAINED)?;
    Ok([Some(kept), full, Some(read), drained])
}

fn filled_one(alloc: Global) -> Result<[Option<usize>; 4], AllocError> {
    let mut end = begun(alloc, Begin::Connected)?;
    let told = filled(alloc, &mut end);
    drop(end);
    told
}

const OPEN: &[Deed] = &[Deed::Look(StateName::Open)];

#[test]
fn a_hung_up_end_takes_no_more(rt: HostRuntime) {
    none_wrong(&rt, wrong_at(rt.alloc(), Begin::Connected, OPEN));
    assert!(rt; filled_one(rt.alloc()) == Ok([Some(64), None, Some(64), None]));
}

const ANNOUNCED: &[Deed] = &[
    Deed::Look(StateName::Listening),
    Deed::Hangup,
    Deed::Look(StateName::Closed),
];

#[test]
fn an_announced_end_listens(rt: HostRuntime) {
    none_wrong(&rt, wrong_at(rt.alloc(), Begin::Announced, ANNOUNCED));
}
