//! Worked headers, and bytes that begin with none.
use crate::*;
use net_base::Addr;

const ANNA: u32 = 0x8768_0906;

const HELIX: u32 = 0x8768_091f;

const HEADERS: Headers = Headers {
    remote: Addr {
        ip: ANNA,
        port: 5000,
    },
    local: Addr {
        ip: HELIX,
        port: 53,
    },
    iface: HELIX,
};

/// Anna's 5000 to helix' 53, at helix.
const WORKED: [u8; 52] = [
    0, 0, 0, 0, 0, 0, 0, 0, 0, 0, 0xff, 0xff, 0x87, 0x68, 9, 6, //
    0, 0, 0, 0, 0, 0, 0, 0, 0, 0, 0xff, 0xff, 0x87, 0x68, 9, 0x1f, //
    0, 0, 0, 0, 0, 0, 0, 0, 0, 0, 0xff, 0xff, 0x87, 0x68, 9, 0x1f, //
    0x13, 0x88, 0, 0x35,
];

#[test]
fn headers_are_written_as_worked(rt: HostRuntime) {
    let mut out = [7; 52];
    encode_headers(&HEADERS, &mut out);
    assert!(rt; out == WORKED);
}

#[test]
fn headers_are_read_as_worked(rt: HostRuntime) {
    match decode_headers(&WORKED) {
        Ok(view) => assert!(rt; view.headers == HEADERS && view.text.is_empty()),
        Err(_) => assert!(rt; false),
    }
}

#[test]
fn a_text_follows_the_headers(rt: HostRuntime) {
    let mut bytes = [7; 55];
    bytes[..52].copy_from_slice(&WORKED);
    match decode_headers(&bytes) {
        Ok(view) => assert!(rt; view.headers == HEADERS && view.text == [7, 7, 7].as_slice()),
        Err(_) => assert!(rt; false),
    }
}

#[test]
fn too_few_bytes_are_short(rt: HostRuntime) {
    assert!(rt; decode_headers(&WORKED[..51]).err() == Some(HeadersError::Short));
}

#[test]
fn each_address_has_to_be_one_of_ipv4(rt: HostRuntime) {
    for place in [0, 9, 10, 11, 16, 27, 32, 43] {
        let mut bytes = WORKED;
        bytes[place] = 1;
        assert!(rt; decode_headers(&bytes).err() == Some(HeadersError::NotMapped));
    }
}
