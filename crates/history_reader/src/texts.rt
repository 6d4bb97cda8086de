//! Texts and names that a line begins with.
ghost use Rattle.std.specs.Prelude.{◌≡◌, IfOk};
ghost use Rattle.net_base.specs.Addresses.{parts_at};
ghost use Rattle.history_reader.specs.Fields as spec;

use crate::cursor::{Words, cut_line};
use net_base::{Lines, Octets};
use std::alloc::{AllocError, Global};
use words::read_hex_word;

/// Bytes in hexadecimal.
pub(crate) fn text<'a>(
    alloc: Global,
    words: &Words<'a>,
) -> Result<Option<(Octets, Words<'a>)>, AllocError>
    ensures { IfOk result (λ read. read ≡ spec.text words.now) }
{
    let Some((word, words)) = words.next() else {
        return Ok(None);
    };
    match read_hex_word(alloc, word)? {
        Some(bytes) => Ok(Some((bytes, words))),
        None => Ok(None),
    }
}

/// A name: a word that isn't empty.
pub(crate) fn name<'a>(
    alloc: Global,
    words: &Words<'a>,
) -> Result<Option<(Octets, Words<'a>)>, AllocError>
    ensures { IfOk result (λ read. read ≡ spec.read_called words.now) }
{
    let Some((word, words)) = words.next() else {
        return Ok(None);
    };
    if word.is_empty() {
        return Ok(None);
    }
    Ok(Some((Octets::from_slice(alloc, word)?, words)))
}

/// Lines in hexadecimal, with a newline after each.
pub(crate) fn texts<'a>(
    alloc: Global,
    words: &Words<'a>,
) -> Result<Option<(Lines, Words<'a>)>, AllocError>
    ensures { IfOk result (λ read. read ≡ spec.texts words.now) }
{
    let Some((word, words)) = words.next() else {
        return Ok(None);
    };
    match texts_in(alloc, word)? {
        Some(texts) => Ok(Some((texts, words))),
        None => Ok(None),
    }
}

fn texts_in(alloc: Global, word: &[u8]) -> Result<Option<Lines>, AllocError>
    ensures { IfOk result (λ texts. texts ≡ spec.texts_in (spec.hex_text word.now)) }
{
    match read_hex_word(alloc, word)? {
        Some(bytes) => cut_texts(alloc, bytes.as_slice()),
        None => Ok(None),
    }
}

/// Lines, each cut before its newline.
#[tactic(auto, using(crate::proofs::Loops::cut_on, crate::proofs::Loops::cut_none, crate::proofs::Loops::cut_end, crate::proofs::Loops::shorter))]
fn cut_texts(alloc: Global, bytes: &[u8]) -> Result<Option<Lines>, AllocError>
    ensures { IfOk result (λ texts. texts ≡ spec.cut_texts (parts_at 10 bytes.now)) }
{
    let mut texts = Lines::new(alloc);
    let mut rest = bytes;
    while !rest.is_empty() {
        let Some((text, behind)) = cut_line(rest) else {
            return Ok(None);
        };
        texts.push(Octets::from_slice(alloc, text)?)?;
        rest = behind;
    }
    Ok(Some(texts))
}
