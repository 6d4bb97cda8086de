//! Printed histories read back, and refusals of lines.
use history_reader::{LineError, read_transcript};
use net_base::{History, Octets};
use std::alloc::{AllocError, Global};
use std::process::Abort;
use transcript::text_of;

// A datagram over UDP, as the program prints it.
const DATAGRAM: &[u8] = b"0 0 0 dir.0.udp - reserve = slot 0 1
1 0 1 dir.1.udp - reserve = slot 0 1
2 0 0 conv.0.udp.0 0 begin 1 = ok
3 0 1 conv.1.udp.0 1 begin 1 = ok
4 0 0 dir.0.udp - grant 0 1 135.104.9.31!7 5000 = granted 135.104.9.6!5000 135.104.9.31!7 0 1472
5 0 1 dir.1.udp - grant 0 1 135.104.9.6!5000 7 = granted 135.104.9.31!7 135.104.9.6!5000 0 1472
6 0 0 conv.0.udp.0 4 connect 1 = ok
7 0 1 conv.1.udp.0 5 connect 1 = ok
8 0 0 conv.0.udp.0 - await 1 = ok
9 0 1 conv.1.udp.0 - await 1 = ok
10 0 0 conv.0.udp.0 - open data rw = opened 1
11 0 1 conv.1.udp.0 - open data rw = opened 1
12 0 0 conv.0.udp.0 - write 1 6869 = count 2 + udp 135.104.9.6!5000 135.104.9.31!7 255 0 2
13 0 0 medium.0 12 put 1 = laid 1
14 0 2 medium.0 - take = copy 1
15 0 2 dir.1.udp 14 arrive = to 0 1
16 0 2 conv.1.udp.0 15 arrive 1 = took
17 0 1 conv.1.udp.0 - read 1 8192 = bytes 6869
";

const SUMMARY: &[u8] = b"steps 8 of 8
messages 1 1
bytes 2 2
end done 0
";

/// Whether a history prints as these lines.
fn prints(alloc: Global, history: &History, lines: &[u8]) -> Result<bool, AllocError> {
    let again = text_of(alloc, history)?;
    let same = again.as_slice() == lines;
    drop(again);
    Ok(same)
}

/// Whether what is read behind the lines is this summary, or none where it is empty.
fn is_summary(read: &Option<Octets>, summary: &[u8]) -> bool {
    match read {
        Some(read) => read.as_slice() == summary,
        None => summary.is_empty(),
    }
}

/// Whether a text reads as a history that prints as these lines, with this summary behind them.
fn reads(alloc: Global, text: &[u8], lines: &[u8], summary: &[u8]) -> Result<bool, AllocError> {
    let Ok((history, read)) = read_transcript(alloc, text) else {
        return Ok(false);
    };
    let printed = prints(alloc, &history, lines);
    let summed = is_summary(&read, summary);
    drop(history);
    drop(read);
    Ok(printed? && summed)
}

/// Whether the lines and the summary are read back, one behind the other.
fn reads_both(alloc: Global) -> Result<bool, AllocError> {
    let mut both = Vec::from_slice(alloc, DATAGRAM)?;
    both.extend_from_slice(SUMMARY)?;
    reads(alloc, both.as_slice(), DATAGRAM, SUMMARY)
}

#[test]
fn a_printed_history_is_read_back(rt: HostRuntime) {
    let alloc = rt.alloc();
    assert!(rt; reads(alloc, DATAGRAM, DATAGRAM, b"") == Ok(true));
    assert!(rt; reads_both(alloc) == Ok(true));
    assert!(rt; reads(alloc, b"", b"", b"") == Ok(true));
    assert!(rt; reads(alloc, SUMMARY, b"", SUMMARY) == Ok(true));
}

type Read = Result<(History, Option<Octets>), LineError>;

/// The line and the cause of a refusal; 0 where the text reads.
fn refusal_in(read: &Read) -> (u64, u32) {
    match read {
        Ok(_) => (0, 0),
        Err(LineError::Bad { line, cause }) => (*line, *cause),
        Err(LineError::Memory) => (0, 1),
    }
}

fn refusal(alloc: Global, text: &[u8]) -> (u64, u32) {
    let read = read_transcript(alloc, text);
    let refusal = refusal_in(&read);
    drop(read);
    refusal
}

// Texts, each with the line and the cause of its refusal.
const ROWS: &[(&[u8], (u64, u32))] = &[
    (b"0 0 0 clock - move 10 = ok\n", (0, 0)),
    (b"0 0 0 clock - move 10 = ok", (1, 41)),
    (b"0 0 0 clock - move 10 = ok\n1 0 0 clo", (2, 41)),
    (b"1 0 0 clock - move 10 = ok\n", (1, 42)),
    (
        b"99999999999999999999999 0 0 clock - move 10 = ok\n",
        (1, 42),
    ),
    (b"00 0 0 clock - move 10 = ok\n", (1, 41)),
    (b"x 0 0 clock - move 10 = ok\n", (1, 41)),
    (b"\n", (1, 41)),
    (b"0  0 0 clock - move 10 = ok\n", (1, 41)),
    (b"0 0 0 clock - move 10 = ok \n", (1, 41)),
    (b"0 0 0 clock - move 010 = ok\n", (1, 41)),
    (b"0 0 0 clock - move 18446744073709551615 = ok\n", (0, 0)),
    (b"0 0 0 clock - move 18446744073709551616 = ok\n", (1, 41)),
    (b"0 0 4294967296 clock - move 1 = ok\n", (1, 41)),
    (b"1 0 4294967296 clock - move 1 = ok\n", (1, 41)),
    (b"0 0 0 desk.0 - cs 6a = lines 610a620a\n", (0, 0)),
    (b"0 0 0 desk.0 - cs 6A = lines -\n", (1, 41)),
    (b"0 0 0 desk.0 - cs 6 = lines -\n", (1, 41)),
    (b"0 0 0 desk.0 - cs - = lines 61\n", (1, 41)),
    (
        b"0 0 0 desk.0 - ls - = names -\n0 0 0 dir.0.il - ls = names 0a\n",
        (2, 42),
    ),
    (
        b"0 0 0 desk.0 - use = = badfid\n1 0 0 desk.0 - misuse a=b = badmode\n",
        (0, 0),
    ),
    (
        b"0 0 0 desk.0 - open data r = ok\n1 0 0 desk.0 - open da r = nofile\n",
        (0, 0),
    ),
    (b"0 0 0 desk.0 - open dada rx = ok\n", (1, 41)),
    (b"0 0 0 conv.0.tcp.0 - tick 1 = ticked\n", (1, 41)),
    (b"0 0 0 conv.0.il.0 - tick 1 = hungup 5\n", (1, 41)),
    (b"0 0 0 conv.0.il.0 - tick 1 = hungup 4 ended\n", (0, 0)),
    (b"0 0 0 conv.0.il.0 - tick 1 = ended\n", (1, 41)),
    (
        b"0 0 0 dir.0.il - withdraw 0 1 = calls -\n1 0 0 dir.0.il - withdraw 0 1 = calls 1 2 3 4 ended\n",
        (0, 0),
    ),
    (b"0 0 0 dir.0.il - withdraw 0 1 = calls\n", (1, 41)),
    (b"0 0 0 dir.0.il - withdraw 0 1 = calls 1 2 3\n", (1, 41)),
    (
        b"0 0 0 conv.0.il.0 - tick 1 = ticked + il 1.2.3.4!5 6.7.8.9!10 255 0 ack 0 1 2 0\n",
        (0, 0),
    ),
    (
        b"0 0 0 conv.0.il.0 - tick 1 = ticked + il 1.2.3.256!5 6.7.8.9!10 255 0 ack 0 1 2 0\n",
        (1, 41),
    ),
    (
        b"0 0 0 conv.0.il.0 - tick 1 = ticked + udp 1.2.3.4!5 6.7.8.9!65536 255 0 2\n",
        (1, 41),
    ),
    (
        b"steps 1 of 2\nmessages 0 0\nbytes 0 0\nend unfinished 123456789012345678901234567890\n",
        (0, 0),
    ),
    (b"steps 1 of 2\nmessages 0 0\nbytes 0 0\n", (4, 41)),
    (
        b"steps 1 of 2\nmessages 0 0\nbytes 0 0\nend over 0\n",
        (4, 41),
    ),
    (
        b"steps 1 of 2\nmessages 0 0\nbytes 0 0\nend done 0\nsteps 1 of 2\n",
        (5, 41),
    ),
];

#[test]
fn the_first_bad_line_is_told(rt: HostRuntime) {
    let alloc = rt.alloc();
    for (i, (text, want)) in ROWS.iter().enumerate() {
        let told = refusal(alloc, text);
        assert!(rt; told == *want, "row {i}");
    }
}
