//! IL messages.
ghost use Rattle.std.specs.Prelude.{◌≡◌, ◌≢◌, ◌+◌, ◌<◌, ◌≤◌, ◌++◌, ◌↔◌, ℕ, List, length, take, drop, IfOk, IsOkAnd, IsErrOf};
ghost use Rattle.net_base.specs.declared.il.IlMsg.{IlMsg};
ghost use Rattle.net_base.specs.Bytes.{word_at};
ghost use Rattle.formats.specs.IlWire.{IsMessage, SpellsIl, il_bytes, il_length, il_sum, il_with, kind_of, il_type_field, type_number};
ghost use Rattle.il_header.specs.Faults.{HasIlHeader, HasLength, HasSum};
ghost use Rattle.il_header.specs.Views.{message_in};

use crate::fault::IlError;
use byteorder::{BigEndian, ByteOrder};
use ip_wire::{long, sum, word};
use net_base::{IlKind, IlMsg};

/// The bytes of a header.
const HEADER: usize = 18;

/// A message between two ports, of which the text is lent by its bytes.
#[derive(Clone, Copy, Debug)]
pub struct IlView<'a> {
    pub sport: u16,
    pub dport: u16,
    pub kind: IlKind,
    pub spec: u8,
    pub id: u32,
    pub ack: u32,
    pub text: &'a [u8],
}

/// Writes the message at the front of `out`, and answers its length.
pub fn encode_il(sport: u16, dport: u16, message: &IlMsg, out: &mut [u8]) -> usize
    requires fits { length message.now.text ≤ 65517 }
    requires room { 18 + length message.now.text ≤ length out.old }
    ensures len { result ≡ 18 + length message.now.text }
    ensures spelled { out.new ≡ il_bytes sport dport message.now ++ drop result out.old }
    ensures spells { SpellsIl sport dport message.now (take result out.new) }
{
    let text = message.text.as_slice();
    let total = HEADER + text.len();
    let header = header_bytes(
        sport,
        dport,
        message.kind,
        message.spec,
        message.id,
        message.ack,
        total as u16,
    );
    out[..HEADER].copy_from_slice(&header);
    out[HEADER..total].copy_from_slice(text);
    let sum = sum(&out[..total]);
    BigEndian::write_u16(out, sum);
    total
}

/// The message that the bytes spell.
pub fn decode_il(bytes: &[u8]) -> Result<IlView<'_>, IlError>
    requires { length bytes.now ≤ 65535 }
    // What is read is spelled so.
    ensures found { IfOk result (λ v. SpellsIl v.sport v.dport (message_in v.kind v.spec v.id v.ack v.text.now)
        bytes.now) }
    // What is spelled so is read.
    ensures only { (sport dport : ℕ) (m : IlMsg) → SpellsIl sport dport m bytes.now
        → IsOkAnd result (λ v. (v.sport ≡ sport) × (v.dport ≡ dport)
        × (message_in v.kind v.spec v.id v.ack v.text.now ≡ m)) }
    // Which fault it is: the first of these.
    ensures short { IsErrOf result IlError.Short ↔ (length bytes.now < 18) }
    ensures sum { IsErrOf result IlError.Sum ↔ (HasIlHeader bytes.now × (word_at 0 bytes.now ≢ il_sum bytes.now)) }
    ensures length { IsErrOf result IlError.Length ↔ (HasSum bytes.now × (il_length bytes.now ≢ length bytes.now)) }
    ensures bad_type { IsErrOf result IlError.BadType ↔ (HasLength bytes.now × (6 < il_type_field bytes.now)) }
{
    if bytes.len() < HEADER {
        return Err(IlError::Short);
    }
    if word(bytes, 0) != sum_of_message(bytes) {
        return Err(IlError::Sum);
    }
    if usize::from(word(bytes, 2)) != bytes.len() {
        return Err(IlError::Length);
    }
    if bytes[4] > 6 {
        return Err(IlError::BadType);
    }
    let (_, text) = bytes.split_at(HEADER);
    Ok(IlView {
        sport: word(bytes, 6),
        dport: word(bytes, 8),
        kind: kind_of_type(bytes[4]),
        spec: bytes[5],
        id: long(bytes, 10),
        ack: long(bytes, 14),
        text,
    })
}

// The sum of a message, with its sum field as zero. Zero words in front of others don't count.
fn sum_of_message(bytes: &[u8]) -> u16
    requires long { 18 ≤ length bytes.now }
    requires fits { length bytes.now ≤ 65535 }
    ensures { result ≡ il_sum bytes.now }
{
    let (_, after) = bytes.split_at(2);
    sum(after)
}

// The header of a message of so many bytes, with a zero in its sum field.
fn header_bytes(
    sport: u16,
    dport: u16,
    kind: IlKind,
    spec: u8,
    id: u32,
    ack: u32,
    total: u16,
) -> [u8; 18]
    ensures value { (text : List ℕ) → 18 + length text ≡ total
        → result ++ text ≡ il_with 0 sport dport (message_in kind spec id ack text) }
    ensures fits { (text : List ℕ) → IsMessage (message_in kind spec id ack text) }
{
    let mut bytes = [0; HEADER];
    BigEndian::write_u16(&mut bytes[2..], total);
    bytes[4] = type_of(kind);
    bytes[5] = spec;
    BigEndian::write_u16(&mut bytes[6..], sport);
    BigEndian::write_u16(&mut bytes[8..], dport);
    BigEndian::write_u32(&mut bytes[10..], id);
    BigEndian::write_u32(&mut bytes[14..], ack);
    bytes
}

fn type_of(kind: IlKind) -> u8
    ensures { result ≡ type_number kind }
{
    match kind {
        IlKind::Sync => 0,
        IlKind::Data => 1,
        IlKind::DataQuery => 2,
        IlKind::Ack => 3,
        IlKind::Query => 4,
        IlKind::State => 5,
        IlKind::Close => 6,
    }
}

fn kind_of_type(number: u8) -> IlKind
    requires { number ≤ 6 }
    ensures { result ≡ kind_of number }
{
    match number {
        0 => IlKind::Sync,
        1 => IlKind::Data,
        2 => IlKind::DataQuery,
        3 => IlKind::Ack,
        4 => IlKind::Query,
        5 => IlKind::State,
        _ => IlKind::Close,
    }
}
