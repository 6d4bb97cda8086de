//! Messages of a session that opens the clone file of UDP and reads its number.
use std::test::*;

pub(crate) const VERSION: [u8; 19] = [
    0x13, 0, 0, 0, 0x64, 0xff, 0xff, 0x18, 0x20, 0, 0, 6, 0, 0x39, 0x50, 0x32, 0x30, 0x30, 0x30,
];

pub(crate) const ATTACH: [u8; 19] = [
    0x13, 0, 0, 0, 0x68, 1, 0, 0, 0, 0, 0, 0xff, 0xff, 0xff, 0xff, 0, 0, 0, 0,
];

pub(crate) const WALK: [u8; 29] = [
    0x1d, 0, 0, 0, 0x6e, 1, 0, 0, 0, 0, 0, 1, 0, 0, 0, 2, 0, 3, 0, 0x75, 0x64, 0x70, 5, 0, 0x63,
    0x6c, 0x6f, 0x6e, 0x65,
];

pub(crate) const OPEN: [u8; 12] = [0x0c, 0, 0, 0, 0x70, 1, 0, 1, 0, 0, 0, 2];

pub(crate) const READ: [u8; 23] = [
    0x17, 0, 0, 0, 0x74, 1, 0, 1, 0, 0, 0, 0, 0, 0, 0, 0, 0, 0, 0, 0x20, 0, 0, 0,
];

// These parts in a row.
pub(crate) fn stream(rt: &HostRuntime, parts: &[&[u8]]) -> Result<Vec<u8>, Fail> {
    let mut bytes = Vec::new(rt.alloc());
    for part in parts {
        bytes.extend_from_slice(part)?;
    }
    Ok(bytes)
}
