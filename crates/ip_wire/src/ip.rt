//! IPv4 headers.
ghost use Rattle.std.specs.Prelude.{◌≡◌, ◌≢◌, ◌+◌, ◌^◌, ◌<◌, ◌≤◌, ◌++◌, ◌↔◌, ℕ, false, List, length, take, drop, IfOk, IsOkAnd, IsErrOf};
ghost use Rattle.net_base.specs.Bytes.{word_at};
ghost use Rattle.formats.specs.Ipv4.{Ipv4, IsHeader, SpellsIpv4, flags, fragment, header_of, header_sum, length_words, ipv4_bytes, summed, total_length, version};
ghost use Rattle.ip_wire.specs.Faults.{HasIpHeader, HasHeaderSum, HasNoOptions, IsNoFragment, IsVersion4};
ghost use Rattle.ip_wire.specs.Headers.{view};

use crate::checksum::{add_words, complement, sum};
use crate::fault::WireError;
use crate::field::{long, word};
use byteorder::{BigEndian, ByteOrder};

/// The bytes of a header without options.
const HEADER: usize = 20;

/// What a header says, besides lengths and the sum.
#[derive(Clone, Copy, Debug, PartialEq, Eq)]
pub struct IpHeader {
    pub tos: u8,
    pub ident: u16,
    pub dont_fragment: bool,
    pub ttl: u8,
    pub proto: u8,
    pub src: u32,
    pub dst: u32,
}

/// A datagram, of which the payload is lent by its bytes.
#[derive(Clone, Copy, Debug)]
pub struct IpView<'a> {
    pub header: IpHeader,
    pub payload: &'a [u8],
}

/// Writes the datagram at the front of `out`, and answers its length.
pub fn encode_ip(header: &IpHeader, payload: &[u8], out: &mut [u8]) -> usize
    requires fits { 20 + length payload.now < 2 ^ 16 }
    requires room { 20 + length payload.now ≤ length out.old }
    ensures len { result ≡ 20 + length payload.now }
    ensures spelled { out.new ≡ ipv4_bytes (view header.now) payload.now ++ drop result out.old }
    ensures spells { SpellsIpv4 (view header.now) payload.now (take result out.new) }
{
    let total = HEADER + payload.len();
    out[..HEADER].copy_from_slice(&header_bytes(*header, total as u16));
    out[HEADER..total].copy_from_slice(payload);
    total
}

/// Writes the header of a datagram in front of a payload of so many bytes, which may stand behind it already.
pub fn encode_ip_header(header: &IpHeader, count: usize, out: &mut [u8])
    requires fits { 20 + count < 2 ^ 16 }
    requires room { 20 ≤ length out.old }
    ensures spelled { out.new ≡ summed false (20 + count) (view header.now) ++ drop 20 out.old }
    ensures fits { IsHeader (view header.now) }
{
    out[..HEADER].copy_from_slice(&header_bytes(*header, (HEADER + count) as u16));
}

/// The datagram that the bytes spell.
pub fn decode_ip(bytes: &[u8]) -> Result<IpView<'_>, WireError>
    // What is read is spelled so.
    ensures found { IfOk result (λ v. SpellsIpv4 (view v.header) v.payload.now bytes.now) }
    // What is spelled so is read.
    ensures only { (h : Ipv4) (payload : List ℕ) → SpellsIpv4 h payload bytes.now
        → IsOkAnd result (λ v. (view v.header ≡ h) × (v.payload.now ≡ payload)) }
    // Which fault it is: the first of these.
    ensures short { IsErrOf result WireError.Short ↔ (length bytes.now < 20) }
    ensures version { IsErrOf result WireError.Version ↔ (HasIpHeader bytes.now × (version bytes.now ≢ 4)) }
    ensures options { IsErrOf result WireError.Options ↔ (IsVersion4 bytes.now × (length_words bytes.now ≢ 5)) }
    ensures fragment { IsErrOf result WireError.Fragment ↔ (HasNoOptions bytes.now × (fragment bytes.now ≢ 0)) }
    ensures sum { IsErrOf result WireError.Sum ↔ (IsNoFragment bytes.now
        × (word_at 10 bytes.now ≢ header_sum bytes.now)) }
    ensures length { IsErrOf result WireError.Length
        ↔ (HasHeaderSum bytes.now × (total_length bytes.now ≢ length bytes.now)) }
{
    if bytes.len() < HEADER {
        return Err(WireError::Short);
    }
    if bytes[0] / 16 != 4 {
        return Err(WireError::Version);
    }
    if bytes[0] % 16 != 5 {
        return Err(WireError::Options);
    }
    if word(bytes, 6) % 0x4000 != 0 {
        return Err(WireError::Fragment);
    }
    if word(bytes, 10) != sum_of_header(bytes) {
        return Err(WireError::Sum);
    }
    if usize::from(word(bytes, 2)) != bytes.len() {
        return Err(WireError::Length);
    }
    let (_, payload) = bytes.split_at(HEADER);
    Ok(IpView {
        header: read_header(bytes),
        payload,
    })
}

// The sum of the header, with its sum field as zero.
fn sum_of_header(bytes: &[u8]) -> u16
    requires { 20 ≤ length bytes.now }
    ensures { result ≡ header_sum bytes.now }
{
    complement(add_words(add_words(0, &bytes[..10]), &bytes[12..HEADER]))
}

// The fields of the header.
fn read_header(bytes: &[u8]) -> IpHeader
    requires { 20 ≤ length bytes.now }
    ensures { view result ≡ header_of bytes.now }
{
    IpHeader {
        tos: bytes[1],
        ident: word(bytes, 4),
        dont_fragment: word(bytes, 6) / 0x4000 % 2 == 1,
        ttl: bytes[8],
        proto: bytes[9],
        src: long(bytes, 12),
        dst: long(bytes, 16),
    }
}

// The header of a datagram of so many bytes, with its sum.
fn header_bytes(header: IpHeader, total: u16) -> [u8; 20]
    ensures value { result ≡ summed false total (view header) }
    ensures fits { IsHeader (view header) }
{
    let flags = flags_of(&header);
    let mut bytes = [0; HEADER];
    bytes[0] = 0x45;
    bytes[1] = header.tos;
    BigEndian::write_u16(&mut bytes[2..], total);
    BigEndian::write_u16(&mut bytes[4..], header.ident);
    BigEndian::write_u16(&mut bytes[6..], flags);
    bytes[8] = header.ttl;
    bytes[9] = header.proto;
    BigEndian::write_u32(&mut bytes[12..], header.src);
    BigEndian::write_u32(&mut bytes[16..], header.dst);
    let sum = sum(&bytes);
    BigEndian::write_u16(&mut bytes[10..], sum);
    bytes
}

// Its flags and offset, with the reserved flag clear.
fn flags_of(header: &IpHeader) -> u16
    ensures { result ≡ flags false header.now.dont_fragment }
{
    if header.dont_fragment { 0x4000 } else { 0 }
}
