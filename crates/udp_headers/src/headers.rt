//! Headers of a datagram.
ghost use Rattle.std.specs.Prelude.{◌≡◌, ◌+◌, ◌<◌, ◌≤◌, ◌↔◌, ℕ, true, false, List, length, IfOk, IsOk, IsOkAnd, IsErrOf};
ghost use Rattle.net_base.specs.declared.headers.Headers.{Headers};
ghost use Rattle.net_base.specs.DatagramHeaders.{AreHeaders, SpellsHeaders, all_mapped, has_headers, headers_bytes, headers_of, is_mapped, text_behind};
ghost use Rattle.udp_headers.specs.Faults.{AreWholeHeaders};

use crate::fault::HeadersError;
use byteorder::{BigEndian, ByteOrder};
use ip_wire::{long, word};
use net_base::{Addr, Headers};

/// The bytes of headers.
const HEADERS: usize = 52;

/// What stands in an address before its IPv4 address.
const FRONT: [u8; 12] = [0, 0, 0, 0, 0, 0, 0, 0, 0, 0, 0xff, 0xff];

/// Headers, and the text behind them, which is lent by its bytes.
#[derive(Clone, Copy, Debug)]
pub struct HeadersView<'a> {
    pub headers: Headers,
    pub text: &'a [u8],
}

/// Writes the headers. It takes no memory.
pub fn encode_headers(headers: &Headers, out: &mut [u8; 52])
    ensures spelled { out.new ≡ headers_bytes headers.now }
    ensures fits { AreHeaders headers.now }
{
    *out = header_bytes(*headers);
}

/// The headers that the bytes begin with, and the text behind them. It takes no memory.
pub fn decode_headers(bytes: &[u8]) -> Result<HeadersView<'_>, HeadersError>
    // What is read is spelled so.
    ensures found { IfOk result (λ v. SpellsHeaders v.headers v.text.now bytes.now) }
    // What is spelled so is read.
    ensures only { (h : Headers) (text : List ℕ) → SpellsHeaders h text bytes.now
        → IsOkAnd result (λ v. (v.headers ≡ h) × (v.text.now ≡ text)) }
    // What is read is the fields at their places.
    ensures fields { IfOk result (λ v. (v.headers ≡ headers_of bytes.now) × (v.text.now ≡ text_behind bytes.now)) }
    ensures whole { IsOk result ↔ (has_headers bytes.now ≡ true) }
    // Which fault it is: the first of these.
    ensures short { IsErrOf result HeadersError.Short ↔ (length bytes.now < 52) }
    ensures not_mapped { IsErrOf result HeadersError.NotMapped
        ↔ (AreWholeHeaders bytes.now × (all_mapped bytes.now ≡ false)) }
{
    if bytes.len() < HEADERS {
        return Err(HeadersError::Short);
    }
    if !are_mapped(bytes) {
        return Err(HeadersError::NotMapped);
    }
    let (_, text) = bytes.split_at(HEADERS);
    Ok(HeadersView {
        headers: read_headers(bytes),
        text,
    })
}

// Whether an IPv4 address stands at a place.
fn is_mapped(bytes: &[u8], at: usize) -> bool
    requires { at + 12 ≤ length bytes.now }
    ensures { result ≡ is_mapped at bytes.now }
{
    &bytes[at..at + 12] == FRONT.as_slice()
}

// Whether each of the three addresses is one of IPv4.
fn are_mapped(bytes: &[u8]) -> bool
    requires { 52 ≤ length bytes.now }
    ensures { result ≡ all_mapped bytes.now }
{
    is_mapped(bytes, 0) && is_mapped(bytes, 16) && is_mapped(bytes, 32)
}

// The fields of the headers.
fn read_headers(bytes: &[u8]) -> Headers
    requires { 52 ≤ length bytes.now }
    ensures { result ≡ headers_of bytes.now }
{
    let remote = Addr {
        ip: long(bytes, 12),
        port: word(bytes, 48),
    };
    let local = Addr {
        ip: long(bytes, 28),
        port: word(bytes, 50),
    };
    Headers {
        remote,
        local,
        iface: long(bytes, 44),
    }
}

// The bytes of the headers.
fn header_bytes(headers: Headers) -> [u8; 52]
    ensures value { result ≡ headers_bytes headers }
    ensures fits { AreHeaders headers }
{
    let mut bytes = [0; HEADERS];
    bytes[10] = 0xff;
    bytes[11] = 0xff;
    BigEndian::write_u32(&mut bytes[12..], headers.remote.ip);
    bytes[26] = 0xff;
    bytes[27] = 0xff;
    BigEndian::write_u32(&mut bytes[28..], headers.local.ip);
    bytes[42] = 0xff;
    bytes[43] = 0xff;
    BigEndian::write_u32(&mut bytes[44..], headers.iface);
    BigEndian::write_u16(&mut bytes[48..], headers.remote.port);
    BigEndian::write_u16(&mut bytes[50..], headers.local.port);
    bytes
}
