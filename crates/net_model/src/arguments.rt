//! The words that the program is called with.
ghost use Rattle.std.specs.Prelude.{◌≡◌, ◌≤◌, ℕ, List, Option, None, length, map, take, string_bytes, IfOk, IfSome, IsErrOf, MatchOption};
ghost use Rattle.std.specs.declared.env.FillError.TheVariants as fill;
ghost use Rattle.net_model.specs.CommandLine.{AreWordsAfterPath, HasNoWordAt, IsWordAt};

use std::alloc::{AllocError, Global};
use std::env::{Env, FillError};
use std::str;

/// The words of a command line, with the program's path as the first.
pub trait CommandLine {
    // the words, if the command line tells them
    ghost words: { Self → Option (List (List ℕ)) };

    /// Copies the word at a place into the front of `into`, and returns its length.
    fn word(&self, place: usize, into: &mut [u8]) -> Result<usize, FillError>
        ensures within { IfOk result (λ len. len ≤ length into.new) }
        ensures found { IfOk result (λ len. IsWordAt (words self.now) place (take len into.new)) }
        ensures none { IsErrOf result fill.NotPresent → HasNoWordAt (words self.now) place };
}

/// The command line of an environment. It does not tell its words.
impl<E: Env> CommandLine for E {
    ghost words = { λ _. None };

    fn word(&self, place: usize, into: &mut [u8]) -> Result<usize, FillError> {
        self.arg(place, into)
    }
}

/// How long a word may be before the buffer grows.
const USUAL: usize = 256;

/// The words after the program's path, which is never read. If one of them is not UTF-8, there are none.
pub fn words_after_path<C: CommandLine>(line: &C, alloc: Global) -> Result<Vec<String>, AllocError>
    ensures { IfOk result (λ read. IfSome (C.words line.now) (λ words. AreWordsAfterPath words (map string_bytes read.items))) }
{
    let mut words = Vec::new(alloc);
    let mut buffer = vec![in alloc; 0u8; USUAL]?;
    for place in 1..usize::MAX {
        let Some(len) = read_word(line, place, &mut buffer)? else {
            return Ok(words);
        };
        let Ok(word) = str::from_utf8(&buffer[..len]) else {
            return Ok(Vec::new(alloc));
        };
        words.push(String::from_str(alloc, word)?)?;
    }
    Err(AllocError)
}

/// Reads the word at a place into the front of a buffer, which grows until the word fits, and returns its length.
fn read_word<C: CommandLine>(
    line: &C,
    place: usize,
    buffer: &mut Vec<u8>,
) -> Result<Option<usize>, AllocError>
    ensures within { IfOk result (λ found. IfSome found (λ len. len ≤ length buffer.new.items)) }
    ensures word { IfOk result (λ found. IfSome found (λ len. IsWordAt (C.words line.now) place (take len buffer.new.items))) }
    ensures none { IfOk result (λ found. found ≡ None → HasNoWordAt (C.words line.now) place) }
{
    for _ in 0..usize::BITS {
        match line.word(place, buffer.as_mut_slice()) {
            Ok(len) => return Ok(Some(len)),
            Err(FillError::NotPresent) => return Ok(None),
            Err(FillError::TooLong) => buffer.resize(buffer.len().saturating_mul(2), 0)?,
        }
    }
    Err(AllocError)
}
