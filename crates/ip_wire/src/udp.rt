//! UDP headers.
ghost use Rattle.std.specs.Prelude.{◌≡◌, ◌≢◌, ◌+◌, ◌<◌, ◌≤◌, ◌++◌, ◌↔◌, ℕ, List, length, take, drop, sum, IfOk, IfErr, IsOkAnd, IsErrOf, ◌⊎◌};
ghost use Rattle.formats.specs.Sum.{words};
ghost use Rattle.formats.specs.UdpWire.{SpellsUdp, address, pseudo_header, received_sum, sent_sum, sum_field, udp_bytes, udp_length};
ghost use Rattle.ip_wire.specs.Faults.{HasUdpHeader, HasUdpSum};

use crate::checksum::{add_words, complement};
use crate::fault::WireError;
use crate::field::word;
use byteorder::{BigEndian, ByteOrder};
use net_base::Addr;

/// The bytes of a header.
const HEADER: usize = 8;

/// A datagram, of which the text is lent by its bytes.
#[derive(Clone, Copy, Debug)]
pub struct UdpView<'a> {
    pub sport: u16,
    pub dport: u16,
    pub text: &'a [u8],
}

/// Writes the datagram at the front of `out`, and answers its length.
pub fn encode_udp(src: Addr, dst: Addr, text: &[u8], out: &mut [u8]) -> usize
    requires fits { length text.now ≤ 65507 }
    requires room { 8 + length text.now ≤ length out.old }
    ensures len { result ≡ 8 + length text.now }
    ensures spelled { out.new ≡ udp_bytes src dst text.now ++ drop result out.old }
    ensures spells { SpellsUdp src dst text.now (take result out.new) }
{
    let total = HEADER + text.len();
    out[..HEADER].copy_from_slice(&header_bytes(src, dst, text));
    out[HEADER..total].copy_from_slice(text);
    total
}

/// The datagram that the bytes spell between two hosts.
pub fn decode_udp(src: u32, dst: u32, bytes: &[u8]) -> Result<UdpView<'_>, WireError>
    requires { length bytes.now ≤ 65535 }
    // What is read is spelled so.
    ensures found { IfOk result (λ v. SpellsUdp (address src v.sport) (address dst v.dport) v.text.now bytes.now) }
    // What is spelled so is read.
    ensures only { (sport dport : ℕ) (text : List ℕ)
        → SpellsUdp (address src sport) (address dst dport) text bytes.now
        → IsOkAnd result (λ v. (v.sport ≡ sport) × (v.dport ≡ dport) × (v.text.now ≡ text)) }
    // Which fault it is: the first of these.
    ensures short { IsErrOf result WireError.Short ↔ (length bytes.now < 8) }
    ensures sum { IsErrOf result WireError.Sum ↔ (HasUdpHeader bytes.now × (sum_field bytes.now ≢ 0)
        × (sum_field bytes.now ≢ received_sum src dst bytes.now)) }
    ensures length { IsErrOf result WireError.Length
        ↔ (HasUdpSum src dst bytes.now × (udp_length bytes.now ≢ length bytes.now)) }
    // It has no other fault.
    ensures faults { IfErr result (λ e. (e ≡ WireError.Short) ⊎ ((e ≡ WireError.Sum) ⊎ (e ≡ WireError.Length))) }
{
    if bytes.len() < HEADER {
        return Err(WireError::Short);
    }
    let field = word(bytes, 6);
    if field != 0 && field != sum_between(src, dst, bytes) {
        return Err(WireError::Sum);
    }
    if usize::from(word(bytes, 4)) != bytes.len() {
        return Err(WireError::Length);
    }
    let (_, text) = bytes.split_at(HEADER);
    Ok(UdpView {
        sport: word(bytes, 0),
        dport: word(bytes, 2),
        text,
    })
}

// The sum of a received datagram, as it has to be sent.
fn sum_between(src: u32, dst: u32, bytes: &[u8]) -> u16
    requires long { 8 ≤ length bytes.now }
    requires fits { length bytes.now ≤ 65535 }
    ensures { result ≡ received_sum src dst bytes.now }
{
    let pseudo = pseudo_words(src, dst, word(bytes, 4));
    let (_, text) = bytes.split_at(HEADER);
    let header = add_words(pseudo, &bytes[..6]);
    sent(complement(add_words(header, text)))
}

// The header of a datagram with this text, with its sum.
fn header_bytes(src: Addr, dst: Addr, text: &[u8]) -> [u8; 8]
    requires { length text.now ≤ 65507 }
    ensures { result ++ text.now ≡ udp_bytes src dst text.now }
{
    let total = (HEADER + text.len()) as u16;
    let mut bytes = [0; HEADER];
    BigEndian::write_u16(&mut bytes, src.port);
    BigEndian::write_u16(&mut bytes[2..], dst.port);
    BigEndian::write_u16(&mut bytes[4..], total);
    let pseudo = pseudo_words(src.ip, dst.ip, total);
    let header = add_words(pseudo, &bytes);
    let sum = sent(complement(add_words(header, text)));
    BigEndian::write_u16(&mut bytes[6..], sum);
    bytes
}

// The sum of the words of the pseudo header.
fn pseudo_words(src: u32, dst: u32, count: u16) -> u32
    ensures value { result ≡ sum (words (pseudo_header src dst count)) }
    ensures within { result ≤ 400000 }
{
    src / 65536 + src % 65536 + dst / 65536 + dst % 65536 + 17 + u32::from(count)
}

// The sum as it is sent, where 0 says that there is none.
fn sent(sum: u16) -> u16
    ensures { result ≡ sent_sum sum }
{
    if sum == 0 { 0xffff } else { sum }
}
