//! Texts as people read them.
ghost use Rattle.std.specs.Prelude.{◌≡◌, ◌∷◌, ◌++◌, OnOk};
ghost use Rattle.std.specs.List.{list_all};
ghost use Rattle.net_base.specs.Transcript.{spaced};
ghost use Rattle.history_words.specs.Shown as spec;

use crate::put::put_word;
use net_base::{Lines, Octets};
use std::alloc::AllocError;
use words::put_hex_digits;

/// Adds a text between quotes where all of it can be shown, and else in hexadecimal.
#[tactic(auto, unfolding(crate::specs::Shown::shown))]
pub fn put_shown(out: &mut Octets, text: &[u8]) -> Result<(), AllocError>
    ensures { OnOk result (out.new ≡ out.old ++ spec.shown text.now) }
{
    if are_shown(text) {
        return put_quoted(out, text);
    }
    out.append(b"hex ")?;
    put_hex_digits(out, text)
}

// Whether all of a text can be shown.
fn are_shown(text: &[u8]) -> bool
    ensures { result ≡ list_all spec.is_plainly_shown text.now }
{
    text.iter().all(|byte| is_shown(*byte))
}

fn is_shown(byte: u8) -> bool
    ensures { result ≡ spec.is_plainly_shown byte }
{
    (32 <= byte && byte <= 126) || byte == b'\t' || byte == b'\n'
}

fn put_quoted(out: &mut Octets, text: &[u8]) -> Result<(), AllocError>
    ensures { OnOk result (out.new ≡ out.old ++ spec.quoted text.now) }
{
    out.push(b'"')?;
    put_escapes(out, text)?;
    out.push(b'"')
}

fn put_escapes(out: &mut Octets, text: &[u8]) -> Result<(), AllocError>
    ensures { OnOk result (out.new ≡ out.old ++ spec.escapes text.now) }
{
    for byte in text {
        put_escaped(out, *byte)?;
    }
    Ok(())
}

fn put_escaped(out: &mut Octets, byte: u8) -> Result<(), AllocError>
    ensures { OnOk result (out.new ≡ out.old ++ spec.escaped byte) }
{
    if byte == b'\t' {
        return out.append(b"\\t");
    }
    if byte == b'\n' {
        return out.append(b"\\n");
    }
    if byte == b'"' || byte == b'\\' {
        return out.append(&[b'\\', byte]);
    }
    out.push(byte)
}

/// Adds a word with texts behind it, or that there are none.
pub fn put_with_lines(out: &mut Octets, word: &[u8], lines: &Lines) -> Result<(), AllocError>
    ensures { OnOk result (out.new ≡ out.old ++ spaced (word.now ∷ spec.all_shown lines.now)) }
{
    put_word(out, word)?;
    if lines.len() == 0 {
        return put_word(out, b"none");
    }
    put_each(out, lines.as_slice())
}

fn put_each(out: &mut Octets, lines: &[Octets]) -> Result<(), AllocError>
    ensures { OnOk result (out.new ≡ out.old ++ spaced (spec.each_shown lines.now)) }
{
    for line in lines {
        out.push(b' ')?;
        put_shown(out, line.as_slice())?;
    }
    Ok(())
}
