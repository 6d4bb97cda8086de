//! Worked datagrams, and those that are refused.
ghost use Rattle.std.specs.Prelude.{◌≤◌, length};

use ip_wire::*;
use net_base::Addr;
use std::alloc::AllocError;

const ANNA: u32 = 0x8768_0906;

const HELIX: u32 = 0x8768_091f;

/// From 135.104.9.6!5000 to 135.104.9.31!7: `hi`.
const FRAME: [u8; 30] = [
    0x45, 0, 0, 0x1e, 0, 0, 0, 0, 0xff, 0x11, 0x9a, 0xd9, 0x87, 0x68, 9, 6, 0x87, 0x68, 9, 0x1f,
    0x13, 0x88, 0, 7, 0, 0x0a, 0x62, 0xec, 0x68, 0x69,
];

/// What follows its IPv4 header.
const DATAGRAM: [u8; 10] = [0x13, 0x88, 0, 7, 0, 0x0a, 0x62, 0xec, 0x68, 0x69];

const HEADER: IpHeader = IpHeader {
    tos: 0,
    ident: 0,
    dont_fragment: false,
    ttl: 255,
    proto: 17,
    src: ANNA,
    dst: HELIX,
};

const FROM: Addr = Addr {
    ip: ANNA,
    port: 5000,
};

const TO: Addr = Addr { ip: HELIX, port: 7 };

const WORKED_SUMS: &[(&[u8], u16)] = &[
    // nothing, zero, all ones
    (&[], 0xffff),
    (&[0, 0], 0xffff),
    (&[0xff, 0xff], 0),
    // the standard's example
    (&[0, 1, 0xf2, 3, 0xf4, 0xf5, 0xf6, 0xf7], 0x220d),
    // an odd number of bytes
    (&[0, 1, 0xf2, 3, 0xf4, 0xf5, 0xf6], 0x2304),
    // a carry
    (&[0xff, 0xff, 0, 1], 0xfffe),
];

/// The sum of bytes that aren't too many.
fn sum_of(bytes: &[u8]) -> Option<u16> {
    if bytes.len() <= 65547 {
        Some(sum(bytes))
    } else {
        None
    }
}

#[test]
fn sums(rt: HostRuntime) {
    for (i, row) in WORKED_SUMS.iter().enumerate() {
        assert!(rt; sum_of(row.0) == Some(row.1), "row {i}");
    }
}

/// The sums of all bytes, and of all but the first.
fn sums_of(bytes: &[u8]) -> (Option<u16>, Option<u16>) {
    (sum_of(bytes), sum_of(bytes.get(1..).unwrap_or(&[])))
}

#[test]
fn sums_of_the_most_bytes(rt: HostRuntime) -> Result<(), AllocError> {
    let longest = vec![in rt.alloc(); 0xffu8; 65547]?;
    assert!(rt; sums_of(&longest) == (Some(0xff), Some(0)));
    Ok(())
}

#[test]
fn a_frame_is_written(rt: HostRuntime) {
    let mut datagram = [7; 12];
    let carried = encode_udp(FROM, TO, b"hi", &mut datagram);
    let mut out = [9; 32];
    let whole = encode_ip(&HEADER, &datagram[..10], &mut out);
    assert!(rt; (carried, whole) == (10, 30));
    assert!(rt; &datagram[10..] == [7, 7].as_slice());
    assert!(rt; &out[..30] == FRAME.as_slice());
    assert!(rt; &out[30..] == [9, 9].as_slice());
}

/// Whether a datagram from port 5000 to port 7 carries this text.
fn carries(dst: u32, datagram: &[u8], text: &[u8]) -> bool
    requires { length datagram.now ≤ 65535 }
{
    match decode_udp(ANNA, dst, datagram) {
        Ok(view) => (view.sport, view.dport) == (5000, 7) && view.text == text,
        Err(_) => false,
    }
}

/// Whether a datagram with this header carries this text.
fn is_whole(bytes: &[u8], header: &IpHeader, text: &[u8]) -> bool {
    match decode_ip(bytes) {
        Ok(view) => {
            view.header == *header
                && view.payload.len() <= 65535
                && carries(view.header.dst, view.payload, text)
        }
        Err(_) => false,
    }
}

#[test]
fn a_frame_is_read(rt: HostRuntime) {
    assert!(rt; is_whole(&FRAME, &HEADER, b"hi"));
}

const SYNC: [u8; 18] = [
    0xa9, 0xf4, 0, 0x12, 0, 0, 0x13, 0x88, 0x42, 0x70, 0, 0, 0, 1, 0, 0, 0, 0,
];

const SYNC_HEADER: [u8; 20] = [
    0x45, 0, 0, 0x26, 0, 0, 0, 0, 0xff, 0x28, 0x9a, 0xba, 0x87, 0x68, 9, 6, 0x87, 0x68, 9, 0x1f,
];

#[test]
fn the_header_of_a_sync(rt: HostRuntime) {
    let header = IpHeader {
        proto: 40,
        ..HEADER
    };
    let mut out = [0; 38];
    let whole = encode_ip(&header, &SYNC, &mut out);
    assert!(rt; (whole, &out[..20]) == (38, SYNC_HEADER.as_slice()));
}

/// The header of the frame under these flags and this sum, with an identification.
fn header_under(flags: u8, high: u8, low: u8) -> Option<IpHeader> {
    let mut bytes = FRAME;
    bytes[4] = 0x12;
    bytes[5] = 0x34;
    bytes[6] = flags;
    bytes[10] = high;
    bytes[11] = low;
    Some(decode_ip(&bytes).ok()?.header)
}

/// The flags' byte that is written of it.
fn flags_of(header: &IpHeader) -> u8 {
    let mut out = [0; 30];
    let _ = encode_ip(header, &DATAGRAM, &mut out);
    out[6]
}

/// The flags that are read and written: whether the datagram may be cut up, its identification, and the byte.
fn flags_under(flags: u8, high: u8, low: u8) -> Option<(bool, u16, u8)> {
    let header = header_under(flags, high, low)?;
    Some((header.dont_fragment, header.ident, flags_of(&header)))
}

#[test]
fn flags(rt: HostRuntime) {
    // the reserved flag isn't written
    let read = (
        flags_under(0x80, 0x08, 0xa5),
        flags_under(0x40, 0x48, 0xa5),
        flags_under(0xc0, 0xc8, 0xa4),
    );
    let wanted = (
        Some((false, 0x1234, 0)),
        Some((true, 0x1234, 0x40)),
        Some((true, 0x1234, 0x40)),
    );
    assert!(rt; read == wanted);
}

/// What stands at which place.
pub type Edits = &'static [(usize, u8)];

/// Puts bytes at their places.
pub fn edit(bytes: &mut [u8], edits: Edits) {
    for (at, byte) in edits {
        if *at < bytes.len() {
            bytes[*at] = *byte;
        }
    }
}

/// The fault of so many bytes of the frame with these edits.
fn fault_of(edits: Edits, count: usize) -> Option<WireError> {
    let mut bytes = FRAME;
    edit(&mut bytes, edits);
    decode_ip(&bytes[..count.min(30)]).err()
}

/// Several faults tell the first.
const REFUSED: &[(Edits, usize, WireError)] = &[
    (&[(0, 0x65)], 30, WireError::Version),
    (&[(0, 0x66), (10, 0)], 30, WireError::Version),
    (&[(0, 0x46)], 30, WireError::Options),
    (&[(0, 0x44), (6, 0x20)], 30, WireError::Options),
    (&[(6, 0x20), (10, 0x7a)], 30, WireError::Fragment),
    (&[(7, 1)], 30, WireError::Fragment),
    (&[(11, 0xda)], 30, WireError::Sum),
    (&[(3, 0x1f)], 30, WireError::Sum),
    (&[(3, 0x1f), (11, 0xd8)], 30, WireError::Length),
    (&[], 0, WireError::Short),
    (&[], 19, WireError::Short),
    (&[], 29, WireError::Length),
];

#[test]
fn refused_datagrams(rt: HostRuntime) {
    for (i, row) in REFUSED.iter().enumerate() {
        assert!(rt; fault_of(row.0, row.1) == Some(row.2), "row {i}");
    }
}

/// The fault of so many bytes of the user datagram with these edits.
fn user_fault(dst: u32, edits: Edits, count: usize) -> Option<WireError> {
    let mut bytes = DATAGRAM;
    edit(&mut bytes, edits);
    decode_udp(ANNA, dst, &bytes[..count.min(10)]).err()
}

const REFUSED_USER: &[(u32, Edits, usize, WireError)] = &[
    (HELIX, &[], 0, WireError::Short),
    (HELIX, &[], 7, WireError::Short),
    (0x8768_0920, &[], 10, WireError::Sum),
    (HELIX, &[], 9, WireError::Sum),
    (HELIX, &[(5, 0x0b)], 10, WireError::Sum),
    (HELIX, &[(5, 0x0b), (7, 0xea)], 10, WireError::Length),
];

#[test]
fn refused_user_datagrams(rt: HostRuntime) {
    for (i, row) in REFUSED_USER.iter().enumerate() {
        assert!(rt; user_fault(row.0, row.1, row.2) == Some(row.3), "row {i}");
    }
}

/// The sum of a user datagram of a text, and whether it carries the text with the sum and with none.
fn summed(text: &[u8]) -> Option<(u8, u8, bool, bool)> {
    if text.len() > 2 {
        return None;
    }
    let mut out = [0; 10];
    let count = encode_udp(FROM, TO, text, &mut out);
    let (high, low) = (out[6], out[7]);
    let with_sum = carries(HELIX, &out[..count], text);
    out[6] = 0;
    out[7] = 0;
    Some((high, low, with_sum, carries(HELIX, &out[..count], text)))
}

#[test]
fn sums_of_user_datagrams(rt: HostRuntime) {
    // an even number of bytes, an odd one, and a computed 0
    assert!(rt; summed(b"hi") == Some((0x62, 0xec, true, true)));
    assert!(rt; summed(b"h") == Some((0x63, 0x57, true, true)));
    assert!(rt; summed(&[0xcb, 0x55]) == Some((0xff, 0xff, true, true)));
}

/// Whether the greatest text is written with this user datagram's sum and this header's, and read again.
fn is_greatest(text: &[u8], datagram: &mut [u8], out: &mut [u8]) -> bool {
    if text.len() != 65507 || datagram.len() != 65515 || out.len() != 65535 {
        return false;
    }
    let counts = (
        encode_udp(FROM, TO, text, datagram),
        encode_ip(&HEADER, datagram, out),
    );
    counts == (65515, 65535)
        && datagram[6..8] == [0xcc, 0x90]
        && out[10..12] == [0x9a, 0xf7]
        && is_whole(out, &HEADER, text)
}

#[test]
fn greatest_lengths(rt: HostRuntime) -> Result<(), AllocError> {
    let text = vec![in rt.alloc(); 0xffu8; 65507]?;
    let mut datagram = vec![in rt.alloc(); 0u8; 65515]?;
    let mut out = vec![in rt.alloc(); 0u8; 65535]?;
    assert!(rt; is_greatest(&text, &mut datagram, &mut out));
    Ok(())
}
