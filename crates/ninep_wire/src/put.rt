//! Writing the fields of a message.
ghost use Rattle.std.specs.Prelude.{◌≡◌, ◌<◌, ◌++◌, length, All, IfOk, OnOk};
ghost use Rattle.net_base.specs.NinepFields as spec;
ghost use Rattle.net_base.specs.NinepMessages as messages;

use byteorder::{ByteOrder, LittleEndian};
use net_base::{Lines, Octets, Qid, Qids};
use std::alloc::{AllocError, Global};

/// A message with this type, this tag and these fields.
pub(crate) fn framed(
    alloc: Global,
    kind: u8,
    tag: u16,
    fields: &Octets,
) -> Result<Octets, AllocError>
    requires { length fields.now < 8210 }
    ensures fits { spec.Holds 2 tag }
    ensures spelled { IfOk result (λ o. o ≡ messages.framed kind tag fields.now) }
{
    let mut out = Octets::new(alloc);
    put_long(&mut out, (7 + fields.len()) as u32)?;
    put_byte(&mut out, kind)?;
    put_word(&mut out, tag)?;
    out.append(fields.as_slice())?;
    Ok(out)
}

/// Writes a number of one byte.
pub(crate) fn put_byte(out: &mut Octets, number: u8) -> Result<(), AllocError>
    ensures fits { spec.Holds 1 number }
    ensures spelled { OnOk result (out.new ≡ out.old ++ spec.number_bytes 1 number) }
{
    out.push(number)
}

/// Writes a number of two bytes.
pub(crate) fn put_word(out: &mut Octets, number: u16) -> Result<(), AllocError>
    ensures fits { spec.Holds 2 number }
    ensures spelled { OnOk result (out.new ≡ out.old ++ spec.number_bytes 2 number) }
{
    let mut bytes = [0; 2];
    LittleEndian::write_u16(&mut bytes, number);
    out.append(&bytes)
}

/// Writes a number of four bytes.
pub(crate) fn put_long(out: &mut Octets, number: u32) -> Result<(), AllocError>
    ensures fits { spec.Holds 4 number }
    ensures spelled { OnOk result (out.new ≡ out.old ++ spec.number_bytes 4 number) }
{
    let mut bytes = [0; 4];
    LittleEndian::write_u32(&mut bytes, number);
    out.append(&bytes)
}

/// Writes a number of eight bytes.
pub(crate) fn put_vast(out: &mut Octets, number: u64) -> Result<(), AllocError>
    ensures fits { spec.Holds 8 number }
    ensures spelled { OnOk result (out.new ≡ out.old ++ spec.number_bytes 8 number) }
{
    let mut bytes = [0; 8];
    LittleEndian::write_u64(&mut bytes, number);
    out.append(&bytes)
}

/// Writes a text after its length in two bytes.
pub(crate) fn put_string(out: &mut Octets, text: &Octets) -> Result<(), AllocError>
    requires { spec.Counts 2 text.now }
    ensures fits { spec.Counts 2 text.now }
    ensures spelled { OnOk result (out.new ≡ out.old ++ spec.string text.now) }
{
    put_word(out, text.len() as u16)?;
    out.append(text.as_slice())
}

/// Writes data after their length in four bytes.
pub(crate) fn put_data(out: &mut Octets, bytes: &Octets) -> Result<(), AllocError>
    requires { spec.Counts 4 bytes.now }
    ensures fits { spec.Counts 4 bytes.now }
    ensures spelled { OnOk result (out.new ≡ out.old ++ spec.counted 4 bytes.now) }
{
    put_long(out, bytes.len() as u32)?;
    out.append(bytes.as_slice())
}

/// Writes a qid.
pub(crate) fn put_qid(out: &mut Octets, qid: Qid) -> Result<(), AllocError>
    ensures fits { spec.IsQid qid }
    ensures spelled { OnOk result (out.new ≡ out.old ++ spec.qid qid) }
{
    put_byte(out, qid.kind)?;
    put_long(out, qid.version)?;
    put_vast(out, qid.path)
}

/// Writes texts after how many they are.
pub(crate) fn put_strings(out: &mut Octets, texts: &Lines) -> Result<(), AllocError>
    requires few { length texts.now < 17 }
    requires short { All (spec.Counts 2) texts.now }
    ensures fits { spec.AreFew (spec.Counts 2) texts.now }
    ensures spelled { OnOk result (out.new ≡ out.old ++ spec.many spec.string texts.now) }
{
    put_word(out, texts.len() as u16)?;
    for text in texts.as_slice() {
        put_string(out, text)?;
    }
    Ok(())
}

/// Writes qids after how many they are.
pub(crate) fn put_qids(out: &mut Octets, qids: &Qids) -> Result<(), AllocError>
    requires { length qids.now < 17 }
    ensures fits { OnOk result (spec.AreFew spec.IsQid qids.now) }
    ensures spelled { OnOk result (out.new ≡ out.old ++ spec.many spec.qid qids.now) }
{
    put_word(out, qids.len() as u16)?;
    for one in qids.as_slice() {
        put_qid(out, *one)?;
    }
    Ok(())
}
