//! Worked IL messages, and those that are refused.
ghost use Rattle.std.specs.Prelude.{◌≤◌, length};

use crate::headers::{Edits, edit};
use il_header::*;
use net_base::{IlKind, IlMsg, Octets};
use std::alloc::{AllocError, Global};

/// The first message from port 5000 to port 17008.
const SYNC: [u8; 18] = [
    0xa9, 0xf4, 0, 0x12, 0, 0, 0x13, 0x88, 0x42, 0x70, 0, 0, 0, 1, 0, 0, 0, 0,
];

/// `hello` between the same ports, an odd number of bytes.
const HELLO: [u8; 23] = [
    0x64, 0xb7, 0, 0x17, 1, 0, 0x13, 0x88, 0x42, 0x70, 0, 0, 0, 2, 0, 0, 0, 0x65, 0x68, 0x65, 0x6c,
    0x6c, 0x6f,
];

/// A message by its kind, spec, id and ack.
type Parts = (IlKind, u8, u32, u32);

fn message(parts: Parts, text: Octets) -> IlMsg {
    let (kind, spec, id, ack) = parts;
    IlMsg {
        kind,
        spec,
        id,
        ack,
        text,
    }
}

/// Writes a message between the two ports, and answers how many bytes it takes, if it fits.
fn encoded(message: &IlMsg, out: &mut [u8]) -> Option<usize> {
    let count = message.text.len();
    if count <= 65517 && 18 + count <= out.len() {
        Some(encode_il(5000, 17008, message, out))
    } else {
        None
    }
}

/// The bytes of a message of these parts and this text.
fn written(
    alloc: Global,
    parts: Parts,
    text: &[u8],
    out: &mut [u8],
) -> Result<Option<usize>, AllocError> {
    let message = message(parts, Octets::from_slice(alloc, text)?);
    let count = encoded(&message, out);
    drop(message);
    Ok(count)
}

#[test]
fn messages_are_written(rt: HostRuntime) -> Result<(), AllocError> {
    let mut out = [7; 20];
    let count = written(rt.alloc(), (IlKind::Sync, 0, 1, 0), b"", &mut out)?;
    assert!(rt; (count, &out[..18]) == (Some(18), SYNC.as_slice()));
    assert!(rt; &out[18..] == [7, 7].as_slice());
    let mut out = [0; 23];
    let count = written(rt.alloc(), (IlKind::Data, 0, 2, 101), b"hello", &mut out)?;
    assert!(rt; (count, out) == (Some(23), HELLO));
    Ok(())
}

/// Whether a message between the two ports is read so.
fn reads(bytes: &[u8], parts: Parts, text: &[u8]) -> bool
    requires { length bytes.now ≤ 65535 }
{
    match decode_il(bytes) {
        Ok(view) => {
            (view.sport, view.dport) == (5000, 17008)
                && (view.kind, view.spec, view.id, view.ack) == parts
                && view.text == text
        }
        Err(_) => false,
    }
}

#[test]
fn messages_are_read(rt: HostRuntime) {
    let read = (
        reads(&SYNC, (IlKind::Sync, 0, 1, 0), b""),
        reads(&HELLO, (IlKind::Data, 0, 2, 101), b"hello"),
    );
    assert!(rt; read == (true, true));
}

const KINDS: &[(IlKind, u8)] = &[
    (IlKind::Sync, 0),
    (IlKind::Data, 1),
    (IlKind::DataQuery, 2),
    (IlKind::Ack, 3),
    (IlKind::Query, 4),
    (IlKind::State, 5),
    (IlKind::Close, 6),
];

/// The number that a kind is written as, if it is read again.
fn number_of(alloc: Global, kind: IlKind) -> Option<u8> {
    let parts = (kind, 1, 0xffff_ffff, 0x8000_0000);
    let message = message(parts, Octets::new(alloc));
    let mut out = [0; 18];
    let count = encoded(&message, &mut out)?;
    if count == 18 && reads(&out, parts, b"") {
        Some(out[4])
    } else {
        None
    }
}

#[test]
fn each_type_is_its_number(rt: HostRuntime) {
    for (kind, number) in KINDS {
        assert!(rt; number_of(rt.alloc(), *kind) == Some(*number));
    }
}

/// The fault of the sync with these edits.
fn fault_of(edits: Edits) -> Option<IlError> {
    let mut bytes = SYNC;
    edit(&mut bytes, edits);
    decode_il(&bytes).err()
}

/// Several faults tell the first.
const REFUSED: &[(Edits, IlError)] = &[
    (&[(17, 1)], IlError::Sum),
    (&[(1, 0xf5)], IlError::Sum),
    (&[(3, 0x11), (4, 7)], IlError::Sum),
    (&[(1, 0xf5), (3, 0x11)], IlError::Length),
    (&[(0, 0xa2), (1, 0xf5), (3, 0x11), (4, 7)], IlError::Length),
    (&[(0, 0xa2), (4, 7)], IlError::BadType),
    // a sum of 0 is a sum
    (&[(0, 0), (1, 0)], IlError::Sum),
    (
        &[(0, 0xff), (1, 0xff), (16, 0xa9), (17, 0xf4)],
        IlError::Sum,
    ),
];

#[test]
fn refused_messages(rt: HostRuntime) {
    for (i, row) in REFUSED.iter().enumerate() {
        assert!(rt; fault_of(row.0) == Some(row.1), "row {i}");
    }
}

#[test]
fn refused_pieces(rt: HostRuntime) {
    let faults = (
        decode_il(&[]).err(),
        decode_il(&SYNC[..17]).err(),
        decode_il(&HELLO[..22]).err(),
    );
    let wanted = (
        Some(IlError::Short),
        Some(IlError::Short),
        Some(IlError::Sum),
    );
    assert!(rt; faults == wanted);
}

#[test]
fn a_sum_of_zero_is_a_sum(rt: HostRuntime) {
    let mut bytes = SYNC;
    bytes[0] = 0;
    bytes[1] = 0;
    bytes[16] = 0xa9;
    bytes[17] = 0xf4;
    assert!(rt; reads(&bytes, (IlKind::Sync, 0, 1, 0xa9f4), b""));
}

/// Whether the longest message is written with this sum, and read again.
fn is_longest(message: &IlMsg, out: &mut [u8]) -> bool {
    encoded(message, out) == Some(65535)
        && out.len() == 65535
        && out[..2] == [0xa9, 0x9f]
        && reads(out, (IlKind::Data, 0, 2, 101), message.text.as_slice())
}

#[test]
fn the_longest_message(rt: HostRuntime) -> Result<(), AllocError> {
    let mut out = vec![in rt.alloc(); 0u8; 65535]?;
    let text = Octets::from_vec(vec![in rt.alloc(); 0xffu8; 65517]?);
    let data = message((IlKind::Data, 0, 2, 101), text);
    assert!(rt; is_longest(&data, &mut out));
    Ok(())
}
