//! Messages of 9P2000, read and written again, and bytes that are refused.
ghost use Rattle.std.specs.Prelude.{◌<◌, ◌≤◌, length};
ghost use Rattle.net_base.specs.NinepMessages.{longest, r_bytes, r_qids, t_bytes, t_names};

use net_base::Octets;
use ninep_wire::*;
use std::alloc::{AllocError, Global};
use words::read_hex_word;

/// What a message says: its type, its tag, and its numbers in their order, with a text or a list by how much it holds.
type Key = (u8, u16, u64, u64, u64, u64);

/// A message in hexadecimal, and what it says.
type Row = (&'static [u8], Key);

/// Bytes, and why they are no request and no answer.
type Told = (&'static [u8], Option<NinepError>, Option<NinepError>);

/// Each request once, a walk of sixteen names, and an attach of two texts.
const REQUESTS: &[Row] = &[
    (
        b"1300000064ffff182000000600395032303030",
        (100, 65535, 8216, 6, 0, 0),
    ),
    (
        b"1600000066010007000000030067696c040064756d70",
        (102, 1, 7, 3, 4, 0),
    ),
    (
        b"1300000068010000000000ffffffff00000000",
        (104, 1, 0, 4294967295, 0, 0),
    ),
    (
        b"170000006802000300000004000000030067696c010078",
        (104, 2, 3, 4, 3, 1),
    ),
    (b"090000006c02010403", (108, 258, 772, 0, 0, 0)),
    (
        b"1d0000006e01000000000001000000020003007564700500636c6f6e65",
        (110, 1, 0, 1, 2, 0),
    ),
    (
        b"310000006e0100000000000100000010000000000000000000000000000000000000000000000000000000000000000000",
        (110, 1, 0, 1, 16, 0),
    ),
    (b"0c0000007001000100000002", (112, 1, 1, 2, 0, 0)),
    (
        b"160000007201000302010004006e6f74658001008001",
        (114, 1, 66051, 4, 2147484032, 1),
    ),
    (
        b"1700000074010001000000000000000000000020000000",
        (116, 1, 1, 0, 32, 0),
    ),
    (
        b"1a0000007603000100000008070605040302010300000068690a",
        (118, 3, 1, 72623859790382856, 3, 0),
    ),
    (b"0b00000078050009000000", (120, 5, 9, 0, 0, 0)),
    (b"0b0000007a050009000000", (122, 5, 9, 0, 0, 0)),
    (b"0b0000007c050009000000", (124, 5, 9, 0, 0, 0)),
    (
        b"120000007e05000900000005007374617421",
        (126, 5, 9, 5, 0, 0),
    ),
];

/// Each answer once.
const ANSWERS: &[Row] = &[
    (
        b"1300000065ffff182000000600395032303030",
        (101, 65535, 8216, 6, 0, 0),
    ),
    (
        b"1400000067010008010000000200000000000000",
        (103, 1, 8, 1, 2, 0),
    ),
    (
        b"1400000069010080000000000000000000000000",
        (105, 1, 128, 0, 0, 0),
    ),
    (b"0f0000006b01000600626164666964", (107, 1, 6, 0, 0, 0)),
    (b"070000006d0201", (109, 258, 0, 0, 0, 0)),
    (
        b"230000006f010002008000000000030000000000000000000000000500000000000000",
        (111, 1, 2, 0, 0, 0),
    ),
    (
        b"180000007101000000000000110200000000000000000000",
        (113, 1, 0, 0, 529, 0),
    ),
    (
        b"1800000073010001040302010c0b0a090807060500200000",
        (115, 1, 1, 16909060, 361984551142689548, 8192),
    ),
    (b"0c0000007501000100000030", (117, 1, 1, 0, 0, 0)),
    (b"0b00000077010003000000", (119, 1, 3, 0, 0, 0)),
    (b"07000000790500", (121, 5, 0, 0, 0, 0)),
    (b"070000007b0500", (123, 5, 0, 0, 0, 0)),
    (b"0e0000007d050005007374617421", (125, 5, 5, 0, 0, 0)),
    (b"070000007f0500", (127, 5, 0, 0, 0, 0)),
];

/// What is told of bytes as a request, and as an answer.
const REFUSALS: &[Told] = &[
    // nothing, a header cut short, and an unknown type and a wrong size besides
    (b"-", Some(NinepError::Short), Some(NinepError::Short)),
    (
        b"1300000064ff",
        Some(NinepError::Short),
        Some(NinepError::Short),
    ),
    (
        b"130000006aff",
        Some(NinepError::Short),
        Some(NinepError::Short),
    ),
    // a byte less than the size says, a byte more, and an unknown type besides
    (
        b"1300000064ffff1820000006003950323030",
        Some(NinepError::Size),
        Some(NinepError::Size),
    ),
    (
        b"1300000064ffff18200000060039503230303000",
        Some(NinepError::Size),
        Some(NinepError::Size),
    ),
    (
        b"080000006a0000",
        Some(NinepError::Size),
        Some(NinepError::Size),
    ),
    // an unknown type, and types of the other direction, with a byte too many besides
    (
        b"130000006affff182000000600395032303030",
        Some(NinepError::BadType),
        Some(NinepError::BadType),
    ),
    (
        b"1300000064ffff182000000600395032303030",
        None,
        Some(NinepError::BadType),
    ),
    (
        b"080000006d020100",
        Some(NinepError::BadType),
        Some(NinepError::Field),
    ),
    // a field that is cut, a byte behind the last, a text too long and too short, data too long
    (
        b"0a000000780500090000",
        Some(NinepError::Field),
        Some(NinepError::BadType),
    ),
    (
        b"0c0000007805000900000000",
        Some(NinepError::Field),
        Some(NinepError::BadType),
    ),
    (
        b"1300000064ffff182000000700395032303030",
        Some(NinepError::Field),
        Some(NinepError::BadType),
    ),
    (
        b"1300000064ffff182000000500395032303030",
        Some(NinepError::Field),
        Some(NinepError::BadType),
    ),
    (
        b"1a0000007603000100000000000000000000000400000068690a",
        Some(NinepError::Field),
        Some(NinepError::BadType),
    ),
    // seventeen names
    (
        b"330000006e01000000000001000000110000000000000000000000000000000000000000000000000000000000000000000000",
        Some(NinepError::Field),
        Some(NinepError::BadType),
    ),
];

fn bytes_of(alloc: Global, word: &[u8]) -> Result<Octets, AllocError> {
    Ok(read_hex_word(alloc, word)?.unwrap_or(Octets::new(alloc)))
}

fn request_key(message: &Tmsg) -> Key {
    match message {
        Tmsg::Version {
            tag,
            msize,
            version,
        } => (100, *tag, *msize as u64, version.len() as u64, 0, 0),
        Tmsg::Auth {
            tag,
            afid,
            uname,
            aname,
        } => (
            102,
            *tag,
            *afid as u64,
            uname.len() as u64,
            aname.len() as u64,
            0,
        ),
        Tmsg::Attach {
            tag,
            fid,
            afid,
            uname,
            aname,
        } => (
            104,
            *tag,
            *fid as u64,
            *afid as u64,
            uname.len() as u64,
            aname.len() as u64,
        ),
        Tmsg::Flush { tag, oldtag } => (108, *tag, *oldtag as u64, 0, 0, 0),
        Tmsg::Walk {
            tag,
            fid,
            newfid,
            names,
        } => (
            110,
            *tag,
            *fid as u64,
            *newfid as u64,
            names.len() as u64,
            0,
        ),
        Tmsg::Open { tag, fid, mode } => (112, *tag, *fid as u64, *mode as u64, 0, 0),
        Tmsg::Create {
            tag,
            fid,
            name,
            perm,
            mode,
        } => (
            114,
            *tag,
            *fid as u64,
            name.len() as u64,
            *perm as u64,
            *mode as u64,
        ),
        Tmsg::Read {
            tag,
            fid,
            offset,
            count,
        } => (116, *tag, *fid as u64, *offset, *count as u64, 0),
        Tmsg::Write {
            tag,
            fid,
            offset,
            bytes,
        } => (118, *tag, *fid as u64, *offset, bytes.len() as u64, 0),
        Tmsg::Clunk { tag, fid } => (120, *tag, *fid as u64, 0, 0, 0),
        Tmsg::Remove { tag, fid } => (122, *tag, *fid as u64, 0, 0, 0),
        Tmsg::Stat { tag, fid } => (124, *tag, *fid as u64, 0, 0, 0),
        Tmsg::Wstat { tag, fid, stat } => (126, *tag, *fid as u64, stat.len() as u64, 0, 0),
    }
}

/// A qid, and a number behind it.
fn file_key(kind: u8, tag: u16, qid: Qid, number: u32) -> Key {
    (
        kind,
        tag,
        qid.kind as u64,
        qid.version as u64,
        qid.path,
        number as u64,
    )
}

fn answer_key(message: &Rmsg) -> Key {
    match message {
        Rmsg::Version {
            tag,
            msize,
            version,
        } => (101, *tag, *msize as u64, version.len() as u64, 0, 0),
        Rmsg::Auth { tag, aqid } => file_key(103, *tag, *aqid, 0),
        Rmsg::Attach { tag, qid } => file_key(105, *tag, *qid, 0),
        Rmsg::Error { tag, ename } => (107, *tag, ename.len() as u64, 0, 0, 0),
        Rmsg::Flush { tag } => (109, *tag, 0, 0, 0, 0),
        Rmsg::Walk { tag, qids } => (111, *tag, qids.len() as u64, 0, 0, 0),
        Rmsg::Open { tag, qid, iounit } => file_key(113, *tag, *qid, *iounit),
        Rmsg::Create { tag, qid, iounit } => file_key(115, *tag, *qid, *iounit),
        Rmsg::Read { tag, bytes } => (117, *tag, bytes.len() as u64, 0, 0, 0),
        Rmsg::Write { tag, count } => (119, *tag, *count as u64, 0, 0, 0),
        Rmsg::Clunk { tag } => (121, *tag, 0, 0, 0, 0),
        Rmsg::Remove { tag } => (123, *tag, 0, 0, 0, 0),
        Rmsg::Stat { tag, stat } => (125, *tag, stat.len() as u64, 0, 0, 0),
        Rmsg::Wstat { tag } => (127, *tag, 0, 0, 0, 0),
    }
}

/// What a request says, if it is written as these bytes.
fn written_request(alloc: Global, message: &Tmsg, bytes: &[u8]) -> Option<Key>
    requires short { length (t_bytes message.now) ≤ longest }
    requires few { length (t_names message.now) < 17 }
{
    match encode_t(alloc, message) {
        Ok(written) if written.as_slice() == bytes => Some(request_key(message)),
        _ => None,
    }
}

fn written_answer(alloc: Global, message: &Rmsg, bytes: &[u8]) -> Option<Key>
    requires short { length (r_bytes message.now) ≤ longest }
    requires few { length (r_qids message.now) < 17 }
{
    match encode_r(alloc, message) {
        Ok(written) if written.as_slice() == bytes => Some(answer_key(message)),
        _ => None,
    }
}

/// What the bytes say as a request, which is written as they are, or why they are none.
fn read_request(alloc: Global, bytes: &[u8]) -> Result<Option<Key>, NinepError> {
    let message = decode_t(alloc, bytes)?;
    let key = written_request(alloc, &message, bytes);
    drop(message);
    Ok(key)
}

fn read_answer(alloc: Global, bytes: &[u8]) -> Result<Option<Key>, NinepError> {
    let message = decode_r(alloc, bytes)?;
    let key = written_answer(alloc, &message, bytes);
    drop(message);
    Ok(key)
}

/// The first request that isn't so.
fn first_wrong_request(alloc: Global) -> Result<Option<usize>, AllocError> {
    for (i, row) in REQUESTS.iter().enumerate() {
        let bytes = bytes_of(alloc, row.0)?;
        let read = read_request(alloc, bytes.as_slice());
        drop(bytes);
        if read != Ok(Some(row.1)) {
            return Ok(Some(i));
        }
    }
    Ok(None)
}

fn first_wrong_answer(alloc: Global) -> Result<Option<usize>, AllocError> {
    for (i, row) in ANSWERS.iter().enumerate() {
        let bytes = bytes_of(alloc, row.0)?;
        let read = read_answer(alloc, bytes.as_slice());
        drop(bytes);
        if read != Ok(Some(row.1)) {
            return Ok(Some(i));
        }
    }
    Ok(None)
}

#[test]
fn messages_are_read_and_written(rt: HostRuntime) {
    assert!(rt; first_wrong_request(rt.alloc()) == Ok(None));
    assert!(rt; first_wrong_answer(rt.alloc()) == Ok(None));
}

/// Whether these are told of the bytes as a request, and as an answer.
fn is_told(alloc: Global, bytes: &[u8], told: &Told) -> bool {
    read_request(alloc, bytes).err() == told.1 && read_answer(alloc, bytes).err() == told.2
}

/// The first bytes that aren't refused so.
fn first_wrong_refusal(alloc: Global) -> Result<Option<usize>, AllocError> {
    for (i, row) in REFUSALS.iter().enumerate() {
        let bytes = bytes_of(alloc, row.0)?;
        let so = is_told(alloc, bytes.as_slice(), row);
        drop(bytes);
        if !so {
            return Ok(Some(i));
        }
    }
    Ok(None)
}

#[test]
fn the_first_fault_is_told(rt: HostRuntime) {
    assert!(rt; first_wrong_refusal(rt.alloc()) == Ok(None));
}

/// A write of so many zeros, of which the low bytes of its size and of its count are given.
fn zeros(
    alloc: Global,
    length: usize,
    size: u8,
    count: u8,
) -> Result<Option<NinepError>, AllocError> {
    let mut bytes = Octets::new(alloc);
    bytes.append(&[
        size, 0x20, 0, 0, 0x76, 3, 0, 1, 0, 0, 0, 0, 0, 0, 0, 0, 0, 0, 0, count, 0x20, 0, 0,
    ])?;
    bytes.append(vec![in alloc; 0u8; length]?.as_slice())?;
    let fault = read_request(alloc, bytes.as_slice()).err();
    drop(bytes);
    Ok(fault)
}

#[test]
fn the_longest_is_read(rt: HostRuntime) {
    assert!(rt; zeros(rt.alloc(), 8193, 0x18, 1) == Ok(None));
    assert!(rt; zeros(rt.alloc(), 8194, 0x19, 2) == Ok(Some(NinepError::Size)));
}
