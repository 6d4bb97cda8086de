//! Calls over sources and sinks in memory, which may fail. `.ci/cases.txt` has what is written of other command lines.
use crate::top::{ask, ask_surely, netsh, netsh_surely};
use net_base::Octets;
use outside::{FailList, MemSink, MemSource, OpenGate, SureSink, SureSource};
use std::alloc::{AllocError, Global};
use std::sync::Wait;
use std::test::Fail;
use std::thread::Threads;

/// The worked database.
const LOCAL: &str = "# local network\n\
ipnet=astro ip=135.104.0.0 ipmask=255.255.0.0\n\
\tauth=bootes\n\
ipnet=astro9 ip=135.104.9.0 ipmask=255.255.255.0\n\
\tauth=helix\n\
sys=anna ip=135.104.9.6\n\
\tdom=anna.example.com\n\
sys=helix dom=helix.example.com\n\
\tip=10.0.0.31\n\
\tip=135.104.9.31\n\
sys=bootes\n\
\tip=135.104.50.2\n\
il=9fs port=17008\n\
udp=echo port=7\n";

/// The text of the made world of one message.
const ONE: &str = "networld 1\n\
end 1000000000\n\
seed 1\n\
medium ether0 1500\n\
host anna il udp\n\
if ether0 135.104.9.6 255.255.255.0\n\
host helix il udp\n\
if ether0 135.104.9.31 255.255.255.0\n\
script anna\n\
until 10\n\
dial d net!helix!9fs\n\
write d 1\n\
read d 8192\n\
close d\n\
script helix\n\
announce a net!*!9fs\n\
listen c a\n\
accept e c\n\
read e 8192\n\
write e 1\n\
read e 8192\n\
close e\n\
close c\n\
ndb\n\
ipnet=astro ip=135.104.0.0 ipmask=255.255.0.0\n\
\tauth=bootes\n\
ipnet=astro9 ip=135.104.9.0 ipmask=255.255.255.0\n\
\tauth=helix\n\
sys=anna ip=135.104.9.6\n\
\tdom=anna.example.com\n\
sys=helix dom=helix.example.com\n\
\tip=10.0.0.31\n\
\tip=135.104.9.31\n\
sys=bootes\n\
\tip=135.104.50.2\n\
il=9fs port=17008\n\
udp=echo port=7\n";

/// A world in which anna sends a datagram of two bytes to helix.
const DATAGRAM: &str = "networld 1\n\
end 60000\n\
seed 7\n\
medium ether0 1500\n\
host anna il udp\n\
if ether0 135.104.9.6 255.255.255.0\n\
host helix il udp\n\
if ether0 135.104.9.31 255.255.255.0\n\
script anna\n\
open c /net/udp/clone\n\
write c connect 135.104.9.31!7 5000\n\
open d /net/udp/0/data\n\
write d hi\n\
script helix\n\
open c /net/udp/clone\n\
write c connect 135.104.9.6!5000 7\n\
open d /net/udp/0/data\n\
read d 8192\n\
ndb\n";

/// What its run prints.
const DATAGRAM_RUN: &str = "0 0 0 dir.0.udp - reserve = slot 0 1\n\
1 0 1 dir.1.udp - reserve = slot 0 1\n\
2 0 0 conv.0.udp.0 0 begin 1 = ok\n\
3 0 1 conv.1.udp.0 1 begin 1 = ok\n\
4 0 0 dir.0.udp - grant 0 1 135.104.9.31!7 5000 = granted 135.104.9.6!5000 135.104.9.31!7 0 1472\n\
5 0 1 dir.1.udp - grant 0 1 135.104.9.6!5000 7 = granted 135.104.9.31!7 135.104.9.6!5000 0 1472\n\
6 0 0 conv.0.udp.0 4 connect 1 = ok\n\
7 0 1 conv.1.udp.0 5 connect 1 = ok\n\
8 0 0 conv.0.udp.0 - await 1 = ok\n\
9 0 1 conv.1.udp.0 - await 1 = ok\n\
10 0 0 conv.0.udp.0 - open data rw = opened 1\n\
11 0 1 conv.1.udp.0 - open data rw = opened 1\n\
12 0 0 conv.0.udp.0 - write 1 6869 = count 2 + udp 135.104.9.6!5000 135.104.9.31!7 255 0 2\n\
13 0 0 medium.0 12 put 1 = laid 1\n\
14 0 2 medium.0 - take = copy 1\n\
15 0 2 dir.1.udp 14 arrive = to 0 1\n\
16 0 2 conv.1.udp.0 15 arrive 1 = took\n\
17 0 1 conv.1.udp.0 - read 1 8192 = bytes 6869\n\
steps 8 of 8\n\
messages 1 1\n\
bytes 2 2\n\
end done 0\n";

/// Adds the words of a command line.
fn put_words(words: &[&str], all: &mut Vec<String>, alloc: Global) -> Result<(), AllocError> {
    for word in words {
        all.push(String::from_str(alloc, word)?)?;
    }
    Ok(())
}

/// The words of a command line.
pub(crate) fn words_of(alloc: Global, words: &[&str]) -> Result<Vec<String>, AllocError> {
    let mut all = Vec::new(alloc);
    put_words(words, &mut all, alloc)?;
    Ok(all)
}

/// A source of which these calls fail.
fn source_of(alloc: Global, input: &str, reads: &[u64]) -> Result<MemSource, AllocError> {
    let reads = FailList::from_vec(Vec::from_slice(alloc, reads)?);
    Ok(MemSource::new(Octets::from_slice(alloc, input.as_bytes())?, reads))
}

/// A sink of which these calls fail.
pub(crate) fn sink_of(alloc: Global, writes: &[u64]) -> Result<MemSink, AllocError> {
    MemSink::new(
        alloc,
        40000,
        FailList::from_vec(Vec::from_slice(alloc, writes)?),
    )
}

/// The calls of the source and of the sink that fail, the status, and what is written.
type Row = (&'static [u64], &'static [u64], u8, &'static str);

/// What anna is answered to `net!helix!9fs`.
const HELIX: &str = "/net/il/clone 135.104.9.31!17008\n/net/il/clone 10.0.0.31!17008\n";

const CS: &[Row] = &[
    (&[], &[], 0, HELIX),
    (&[1], &[], 6, "! read fault\n"),
    (&[2], &[], 6, "! read fault\n"),
    (&[], &[1], 7, ""),
    (&[1], &[1], 7, ""),
];

/// Whatever the source does, a made world is told.
const MAKE: &[Row] = &[(&[], &[], 0, ONE), (&[1], &[], 0, ONE), (&[1], &[1], 7, "")];

const RUN: &[Row] = &[
    (&[1], &[], 6, "! read fault\n"),
    (&[2], &[], 6, "! read fault\n"),
    (&[3], &[], 0, DATAGRAM_RUN),
    (&[], &[1], 7, ""),
    (&[1], &[1], 7, ""),
];

fn is_answered(alloc: Global, words: &[String], row: Row) -> Result<bool, AllocError> {
    let (reads, writes, status, text) = row;
    let mut source = source_of(alloc, LOCAL, reads)?;
    let mut sink = sink_of(alloc, writes)?;
    let answered = ask(alloc, words, &mut source, &mut sink);
    Ok(answered == Some(status) && sink.held() == text.as_bytes())
}

fn are_answered(alloc: Global, words: &[String], rows: &[Row]) -> Result<bool, AllocError> {
    for row in rows {
        if !is_answered(alloc, words, *row)? {
            return Ok(false);
        }
    }
    Ok(true)
}

/// Whether a command that never waits is answered so, where these calls fail.
fn answers(alloc: Global, words: &[&str], rows: &[Row]) -> Result<bool, AllocError> {
    let words = words_of(alloc, words)?;
    are_answered(alloc, &words, rows)
}

#[test]
fn a_question_whatever_fails(rt: HostRuntime) -> Result<(), Fail> {
    let answered = answers(rt.alloc(), &["cs", "anna", "net!helix!9fs"], CS)?;
    assert!(rt; answered);
    Ok(())
}

#[test]
fn a_made_world_whatever_the_source_does(rt: HostRuntime) -> Result<(), Fail> {
    let answered = answers(rt.alloc(), &["make", "1"], MAKE)?;
    assert!(rt; answered);
    Ok(())
}

/// The worked database and lines behind it: four reads take it, the last of which finds its end.
fn long_database(alloc: Global) -> Result<Octets, AllocError> {
    let mut text = Octets::from_slice(alloc, LOCAL.as_bytes())?;
    for _ in 0..200_u32 {
        text.append(b"# a comment of forty-two bytes, all told.\n")?;
    }
    Ok(text)
}

/// What cs answers where this read of that database fails.
fn is_told(alloc: Global, words: &[String], call: u64) -> Result<bool, AllocError> {
    let fails = FailList::from_vec(Vec::from_slice(alloc, &[call])?);
    let mut source = MemSource::new(long_database(alloc)?, fails);
    let mut sink = sink_of(alloc, &[])?;
    let status = ask(alloc, words, &mut source, &mut sink);
    if call > 4 {
        return Ok(status == Some(0) && sink.held() == HELIX.as_bytes());
    }
    Ok(status == Some(6) && sink.held() == b"! read fault\n".as_slice())
}

#[test]
fn a_source_that_fails_at_any_call(rt: HostRuntime) -> Result<(), Fail> {
    let words = words_of(rt.alloc(), &["cs", "anna", "net!helix!9fs"])?;
    for call in 1..=5_u64 {
        let told = is_told(rt.alloc(), &words, call)?;
        assert!(rt; told, "call {call}");
    }
    Ok(())
}

/// Whether a sink with room for so many bytes, too few, holds the first of the answer.
fn is_held(alloc: Global, words: &[String], room: usize) -> Result<bool, AllocError> {
    let mut source = source_of(alloc, LOCAL, &[])?;
    let mut sink = MemSink::new(alloc, room, FailList::from_vec(Vec::new(alloc)))?;
    let status = ask(alloc, words, &mut source, &mut sink);
    let held = sink.held();
    Ok(status == Some(7) && held.len() == room && HELIX.as_bytes().starts_with(held))
}

#[test]
fn a_sink_that_fails_after_any_byte(rt: HostRuntime) -> Result<(), Fail> {
    let words = words_of(rt.alloc(), &["cs", "anna", "net!helix!9fs"])?;
    for room in 0..HELIX.len() {
        let held = is_held(rt.alloc(), &words, room)?;
        assert!(rt; held, "room for {room}");
    }
    Ok(())
}

/// The beginning of the world, so many bytes.
fn beginning(alloc: Global, len: usize) -> Result<SureSource, AllocError> {
    let mut bytes = Vec::from_slice(alloc, DATAGRAM.as_bytes())?;
    bytes.truncate(len);
    Ok(SureSource::new(Octets::from_vec(bytes)))
}

/// Whether a beginning runs as the whole world does where it has the word `ndb`, and is refused otherwise.
fn is_begun<R: Threads + Wait + Sync>(
    rt: &R,
    alloc: Global,
    words: &[String],
    len: usize,
) -> Result<bool, AllocError> {
    let mut source = beginning(alloc, len)?;
    let mut sink = sink_of(alloc, &[])?;
    let status = netsh(rt, alloc, words, &mut source, &mut sink, &OpenGate);
    // the newline behind that word may be missing
    if len.saturating_add(1) < DATAGRAM.len() {
        return Ok(status == 2 && sink.held().starts_with(b"! line "));
    }
    Ok(status == 0 && sink.held() == DATAGRAM_RUN.as_bytes())
}

#[test]
fn each_beginning_of_a_world(rt: HostRuntime) -> Result<(), Fail> {
    let words = words_of(rt.alloc(), &["run", "1"])?;
    for len in 0..=DATAGRAM.len() {
        let begun = is_begun(&rt, rt.alloc(), &words, len)?;
        assert!(rt; begun, "the first {len} bytes");
    }
    Ok(())
}

fn is_run<R: Threads + Wait + Sync>(
    rt: &R,
    alloc: Global,
    words: &[String],
    row: Row,
) -> Result<bool, AllocError> {
    let (reads, writes, status, text) = row;
    let mut source = source_of(alloc, DATAGRAM, reads)?;
    let mut sink = sink_of(alloc, writes)?;
    let ended = netsh(rt, alloc, words, &mut source, &mut sink, &OpenGate);
    Ok(ended == status && sink.held() == text.as_bytes())
}

fn are_run<R: Threads + Wait + Sync>(rt: &R, alloc: Global) -> Result<bool, AllocError> {
    let words = words_of(alloc, &["run", "1"])?;
    for row in RUN {
        if !is_run(rt, alloc, &words, *row)? {
            return Ok(false);
        }
    }
    Ok(true)
}

#[test]
fn a_run_whatever_fails(rt: HostRuntime) -> Result<(), Fail> {
    let run = are_run(&rt, rt.alloc())?;
    assert!(rt; run);
    Ok(())
}

fn asks_for_nothing(
    alloc: Global,
    words: &[String],
    source: &mut MemSource,
    sink: &mut MemSink,
) -> bool {
    ask(alloc, words, source, sink).is_none() && sink.held().is_empty()
}

fn runs_the_datagram<R: Threads + Wait + Sync>(
    rt: &R,
    alloc: Global,
    words: &[String],
    source: &mut MemSource,
    sink: &mut MemSink,
) -> bool {
    let status = netsh(rt, alloc, words, source, sink, &OpenGate);
    status == 0 && sink.held() == DATAGRAM_RUN.as_bytes()
}

/// Whether asking leaves a run to do, over the same source and sink.
fn asks_and_runs<R: Threads + Wait + Sync>(rt: &R, alloc: Global) -> Result<bool, AllocError> {
    let words = words_of(alloc, &["run", "1"])?;
    let mut source = source_of(alloc, DATAGRAM, &[])?;
    let mut sink = sink_of(alloc, &[])?;
    let asked = asks_for_nothing(alloc, &words, &mut source, &mut sink);
    let ran = runs_the_datagram(rt, alloc, &words, &mut source, &mut sink);
    Ok(asked && ran)
}

#[test]
fn asking_for_a_run_reads_and_writes_nothing(rt: HostRuntime) -> Result<(), Fail> {
    let both = asks_and_runs(&rt, rt.alloc())?;
    assert!(rt; both);
    Ok(())
}

fn answers_surely(alloc: Global) -> Result<bool, AllocError> {
    let words = words_of(alloc, &["cs", "anna", "net!helix!9fs"])?;
    let mut source = SureSource::new(Octets::from_slice(alloc, LOCAL.as_bytes())?);
    Ok(ask_surely(alloc, &words, &mut source, &mut SureSink::new()) == Some(0))
}

fn runs_surely<R: Threads + Wait + Sync>(rt: &R, alloc: Global) -> Result<bool, AllocError> {
    let words = words_of(alloc, &["run", "1"])?;
    let mut source = beginning(alloc, DATAGRAM.len())?;
    let status = netsh_surely(
        rt,
        alloc,
        &words,
        &mut source,
        &mut SureSink::new(),
        &OpenGate,
    );
    Ok(status == 0)
}

#[test]
fn a_source_and_a_sink_that_never_fail(rt: HostRuntime) -> Result<(), Fail> {
    let answered = answers_surely(rt.alloc())?;
    let ran = runs_surely(&rt, rt.alloc())?;
    assert!(rt; answered && ran);
    Ok(())
}
