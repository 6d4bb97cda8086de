//! Capture files: a header, and a record for each packet.
ghost use Rattle.std.specs.Prelude.{◌≡◌, ◌≤◌, ◌<◌, ◌^◌, ◌++◌, length, OnOk};
ghost use Rattle.replay_views.specs.Savefile as spec;

use byteorder::{ByteOrder, LittleEndian};
use net_base::Octets;
use std::alloc::AllocError;

/// Says that times are in microseconds, and in which order the bytes of numbers stand.
const MAGIC: u32 = 0xa1b2c3d4;

/// The version of the format, 2.4.
const MAJOR: u16 = 2;

const MINOR: u16 = 4;

/// No packet has more bytes.
const SNAP_LENGTH: u32 = 65535;

/// Packets begin with their IPv4 header.
const RAW_IP: u32 = 101;

/// The bytes of a file's header, and of a record's.
const FILE_HEADER: usize = 24;

const RECORD_HEADER: usize = 16;

/// The header of a file.
pub fn file_header() -> [u8; 24]
    ensures { result ≡ spec.file_header }
{
    let mut bytes = [0; FILE_HEADER];
    LittleEndian::write_u32(&mut bytes, MAGIC);
    LittleEndian::write_u16(&mut bytes[4..], MAJOR);
    LittleEndian::write_u16(&mut bytes[6..], MINOR);
    LittleEndian::write_u32(&mut bytes[16..], SNAP_LENGTH);
    LittleEndian::write_u32(&mut bytes[20..], RAW_IP);
    bytes
}

/// Adds the record of a packet that was seen at a moment, in ms.
pub fn put_packet(out: &mut Octets, moment: u64, packet: &[u8]) -> Result<(), AllocError>
    requires early { moment ≤ 1000000000 }
    requires fits { length packet.now < 2 ^ 16 }
    ensures { OnOk result (out.new ≡ out.old ++ spec.packet_record (spec.seen_at_moment moment packet.now)) }
{
    let seconds = (moment / 1000) as u32;
    let microseconds = (moment % 1000) as u32 * 1000;
    let header = record_header(seconds, microseconds, packet.len() as u32);
    out.append(&header)?;
    out.append(packet)
}

// What stands before the bytes of a packet, of which all are kept.
fn record_header(seconds: u32, microseconds: u32, length: u32) -> [u8; 16]
    ensures { result ≡ spec.record_header seconds microseconds length }
{
    let mut bytes = [0; RECORD_HEADER];
    LittleEndian::write_u32(&mut bytes, seconds);
    LittleEndian::write_u32(&mut bytes[4..], microseconds);
    LittleEndian::write_u32(&mut bytes[8..], length);
    LittleEndian::write_u32(&mut bytes[12..], length);
    bytes
}
