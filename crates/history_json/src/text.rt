//! Texts: as people read them, and in hexadecimal.
ghost use Rattle.std.specs.Prelude.{◌≡◌, ◌++◌, IfOk, OnOk};
ghost use Rattle.std.specs.List.{list_all};
ghost use Rattle.net_base.specs.Transcript.{as_lines};
ghost use Rattle.history_json.specs.Members as spec;

use crate::member::{put_label, put_nothing};
use net_base::Octets;
use std::alloc::{AllocError, Global};
use words::put_hex_digits;

/// The members `text` and `hex` of a text.
pub fn put_text(out: &mut Octets, text: &[u8]) -> Result<(), AllocError>
    ensures { OnOk result (out.new ≡ out.old ++ spec.joined (spec.text text.now)) }
{
    put_text_member(out, text)?;
    put_hex_member(out, text)
}

/// The members `text` and `hex` of lines, with a newline after each.
pub fn put_lines(out: &mut Octets, alloc: Global, lines: &[Octets]) -> Result<(), AllocError>
    ensures { OnOk result (out.new ≡ out.old ++ spec.joined (spec.text (as_lines lines.now))) }
{
    let text = joined_lines(alloc, lines)?;
    put_text(out, text.as_slice())
}

fn joined_lines(alloc: Global, lines: &[Octets]) -> Result<Octets, AllocError>
    ensures { IfOk result (λ text. text ≡ as_lines lines.now) }
{
    let mut text = Octets::new(alloc);
    for line in lines {
        text.append(line.as_slice())?;
        text.push(b'\n')?;
    }
    Ok(text)
}

#[tactic(auto, unfolding(crate::specs::Members::text_member))]
fn put_text_member(out: &mut Octets, text: &[u8]) -> Result<(), AllocError>
    ensures { OnOk result (out.new ≡ out.old ++ spec.text_member text.now) }
{
    if !are_plain(text) {
        return put_nothing(out, b"text");
    }
    put_label(out, b"text")?;
    out.push(b'"')?;
    put_escapes(out, text)?;
    out.push(b'"')
}

#[tactic(auto, unfolding(crate::specs::Members::hex_member))]
fn put_hex_member(out: &mut Octets, bytes: &[u8]) -> Result<(), AllocError>
    ensures { OnOk result (out.new ≡ out.old ++ spec.hex_member bytes.now) }
{
    put_label(out, b"hex")?;
    out.push(b'"')?;
    put_hex_digits(out, bytes)?;
    out.push(b'"')
}

// Whether all of a text can be shown.
fn are_plain(text: &[u8]) -> bool
    ensures { result ≡ list_all spec.is_plain text.now }
{
    text.iter().all(|byte| is_plain(*byte))
}

fn is_plain(byte: u8) -> bool
    ensures { result ≡ spec.is_plain byte }
{
    (32 <= byte && byte <= 126) || byte == b'\t' || byte == b'\n'
}

fn put_escapes(out: &mut Octets, text: &[u8]) -> Result<(), AllocError>
    ensures { OnOk result (out.new ≡ out.old ++ spec.escapes text.now) }
{
    for byte in text {
        put_escaped(out, *byte)?;
    }
    Ok(())
}

fn put_escaped(out: &mut Octets, byte: u8) -> Result<(), AllocError>
    ensures { OnOk result (out.new ≡ out.old ++ spec.escaped byte) }
{
    if byte == b'\t' {
        return out.append(b"\\t");
    }
    if byte == b'\n' {
        return out.append(b"\\n");
    }
    if byte == b'"' || byte == b'\\' {
        return out.append(&[b'\\', byte]);
    }
    out.push(byte)
}
