//! Answers to sessions of 9P.
use crate::messages::{ATTACH, OPEN, READ, VERSION, WALK, stream};
use net_base::{ActorName, Entry, Event, FileName, History, Lines, Octets, Proto, Reply};
use session_answers::answers_by;
use std::test::*;

const VERSION_IS: [u8; 19] = [
    0x13, 0, 0, 0, 0x65, 0xff, 0xff, 0x18, 0x20, 0, 0, 6, 0, 0x39, 0x50, 0x32, 0x30, 0x30, 0x30,
];

const ATTACHED: [u8; 20] = [
    0x14, 0, 0, 0, 0x69, 1, 0, 0x80, 0, 0, 0, 0, 0, 0, 0, 0, 0, 0, 0, 0,
];

const WALKED: [u8; 35] = [
    0x23, 0, 0, 0, 0x6f, 1, 0, 2, 0, 0x80, 0, 0, 0, 0, 3, 0, 0, 0, 0, 0, 0, 0, 0, 0, 0, 0, 0, 5, 0,
    0, 0, 0, 0, 0, 0,
];

const OPENED: [u8; 24] = [
    0x18, 0, 0, 0, 0x71, 1, 0, 0, 0, 0, 0, 0, 0x11, 2, 0, 0, 0, 0, 0, 0, 0, 0, 0, 0,
];

const DATA: [u8; 12] = [0x0c, 0, 0, 0, 0x75, 1, 0, 1, 0, 0, 0, 0x30];

fn entry(actor: ActorName, event: Event, cites: Option<u64>, reply: Reply) -> Entry {
    Entry {
        actor,
        caller: 0,
        moment: 0,
        event,
        cites,
        reply,
        emits: None,
        ended: false,
    }
}

// A ctl file is reserved and begun.
fn opened(rt: &HostRuntime) -> Result<History, Fail> {
    let dir = ActorName::Dir(0, Proto::Udp);
    let conv = ActorName::Conv(0, Proto::Udp, 0);
    let slot = Reply::Slot {
        slot: 0,
        generation: 1,
    };
    let mut entries = History::new(rt.alloc());
    entries.push(entry(dir, Event::Reserve, None, slot))?;
    entries.push(entry(conv, Event::Begin { generation: 1 }, Some(0), Reply::Ok))?;
    Ok(entries)
}

// .. and read.
fn history(rt: &HostRuntime) -> Result<History, Fail> {
    let conv = ActorName::Conv(0, Proto::Udp, 0);
    let read = Event::File {
        generation: 1,
        file: FileName::Ctl,
        count: 32,
    };
    let bytes = Octets::from_slice(rt.alloc(), b"0")?;
    let mut entries = opened(rt)?;
    entries.push(entry(conv, read, None, Reply::Bytes { bytes }))?;
    Ok(entries)
}

fn answered(rt: &HostRuntime, bytes: &[u8], entries: &History, owes: bool) -> Result<Lines, Fail> {
    Ok(answers_by(rt.alloc(), 0, bytes, 0, entries, owes)?)
}

#[test]
fn a_session_is_answered(rt: HostRuntime) -> Result<(), Fail> {
    let bytes = stream(&rt, &[&VERSION, &ATTACH, &WALK, &OPEN, &READ])?;
    let entries = history(&rt)?;
    let answers = answered(&rt, &bytes, &entries, false)?;
    let answers = answers.as_slice();
    assert_eq!(rt; answers.len(), 5);
    assert_eq!(rt; answers[0].as_slice(), VERSION_IS.as_slice());
    assert_eq!(rt; answers[1].as_slice(), ATTACHED.as_slice());
    assert_eq!(rt; answers[2].as_slice(), WALKED.as_slice());
    assert_eq!(rt; answers[3].as_slice(), OPENED.as_slice());
    assert_eq!(rt; answers[4].as_slice(), DATA.as_slice());
    Ok(())
}

#[test]
fn answers_end_at_a_step_that_is_not_answered(rt: HostRuntime) -> Result<(), Fail> {
    let bytes = stream(&rt, &[&VERSION, &ATTACH, &WALK, &OPEN, &READ, &VERSION])?;
    let entries = opened(&rt)?;
    let answers = answered(&rt, &bytes, &entries, true)?;
    assert_eq!(rt; answers.len(), 3);
    let answers = answered(&rt, &bytes, &entries, false)?;
    assert_eq!(rt; answers.len(), 4);
    let entries = history(&rt)?;
    let answers = answered(&rt, &bytes, &entries, true)?;
    assert_eq!(rt; answers.len(), 4);
    let answers = answered(&rt, &bytes, &entries, false)?;
    assert_eq!(rt; answers.len(), 6);
    Ok(())
}
