//! A world with a session of 9P: what it is translated to, what its messages are answered, and what of one that is cut.
use crate::tests::{sink_of, words_of};
use crate::top::netsh;
use net_base::Octets;
use outside::{FailList, MemSource, OpenGate};
use std::alloc::{AllocError, Global};
use std::sync::Wait;
use std::test::Fail;
use std::thread::Threads;

const HEAD: &str = "networld 1\n\
end 60000\n\
seed 7\n\
medium ether0 1500\n\
host anna il udp\n\
if ether0 135.104.9.6 255.255.255.0\n";

/// A client opens the clone file of UDP, and reads the number of its conversation.
const SESSION: &str = "session anna\n\
feed 1300000064ffff182000000600395032303030\n\
feed 1300000068010000000000ffffffff00000000\n\
feed 1d0000006e01000000000001000000020003007564700500636c6f6e65\n\
feed 0c0000007001000100000002\n\
feed 1700000074010001000000000000000000000020000000\n";

const SCRIPT: &str = "script anna\nopen f1 /net/udp/clone rw\nread f1 32\n";

const CUT: &str = "session anna\nfeed 13000000\n";

const DATABASE: &str = "ndb\nsys=anna ip=135.104.9.6\n";

const ANSWERS: &str = "0 0 0 dir.0.udp - reserve = slot 0 1\n\
1 0 0 conv.0.udp.0 0 begin 1 = ok\n\
2 0 0 conv.0.udp.0 - file 1 ctl 32 = bytes 30\n\
steps 2 of 2\n\
messages 0 0\n\
bytes 0 0\n\
end done 0\n\
9p 0 1300000065ffff182000000600395032303030\n\
9p 0 1400000069010080000000000000000000000000\n\
9p 0 230000006f010002008000000000030000000000000000000000000500000000000000\n\
9p 0 180000007101000000000000110200000000000000000000\n\
9p 0 0c0000007501000100000030\n";

/// The text of a world with these lines of a script or a session.
fn world_of(alloc: Global, lines: &str) -> Result<Octets, AllocError> {
    let mut text = Octets::from_slice(alloc, HEAD.as_bytes())?;
    text.append(lines.as_bytes())?;
    text.append(DATABASE.as_bytes())?;
    Ok(text)
}

/// Whether words are answered so over the world with these lines.
fn answers<R: Threads + Wait + Sync>(
    rt: &R,
    alloc: Global,
    words: &[&str],
    lines: &str,
    status: u8,
    text: &[u8],
) -> Result<bool, AllocError> {
    let words = words_of(alloc, words)?;
    let mut source = MemSource::new(world_of(alloc, lines)?, FailList::from_vec(Vec::new(alloc)));
    let mut sink = sink_of(alloc, &[])?;
    let told = netsh(rt, alloc, &words, &mut source, &mut sink, &OpenGate);
    Ok(told == status && sink.held() == text)
}

#[test]
fn a_session_is_answered(rt: HostRuntime) -> Result<(), Fail> {
    let answered = answers(
        &rt,
        rt.alloc(),
        &["export", "1"],
        SESSION,
        0,
        ANSWERS.as_bytes(),
    )?;
    assert!(rt; answered);
    Ok(())
}

#[test]
fn a_session_is_a_script(rt: HostRuntime) -> Result<(), Fail> {
    let script = world_of(rt.alloc(), SCRIPT)?;
    let translated = answers(
        &rt,
        rt.alloc(),
        &["translate"],
        SESSION,
        0,
        script.as_slice(),
    )?;
    assert!(rt; translated);
    Ok(())
}

#[test]
fn a_message_is_cut(rt: HostRuntime) -> Result<(), Fail> {
    let bad = b"! line 7 cause 51\n".as_slice();
    let exported = answers(&rt, rt.alloc(), &["export", "1"], CUT, 2, bad)?;
    let translated = answers(&rt, rt.alloc(), &["translate"], CUT, 2, bad)?;
    assert!(rt; exported && translated);
    Ok(())
}
