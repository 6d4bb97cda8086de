//! Lines of cs: a clone file, and behind a blank an address.
ghost use Rattle.std.specs.Prelude.{◌≡◌, ◌≤◌, ◌++◌, ◌+◌, IfOk, drop, length};
ghost use Rattle.std.specs.List.{position_or_len};
ghost use Rattle.net_base.specs.Steps as steps;

use net_base::Octets;
use std::alloc::{AllocError, Global};

/// The clone file that a line names.
pub fn clone_path(line: &[u8]) -> &[u8]
    ensures { result.now ≡ steps.clone_path line.now }
{
    &line[..blank_at(line)]
}

// The address that a line names, behind its blank.
fn line_address(line: &[u8]) -> &[u8]
    ensures { result.now ≡ steps.line_address line.now }
{
    behind(line, blank_at(line))
}

/// A word and the address of a line.
pub fn text_to(alloc: Global, word: &[u8], line: &[u8]) -> Result<Octets, AllocError>
    ensures { IfOk result (λ text. text ≡ word.now ++ steps.line_address line.now) }
{
    let mut text = Octets::from_slice(alloc, word)?;
    text.append(line_address(line))?;
    Ok(text)
}

// The place of the first blank, or the length.
fn blank_at(line: &[u8]) -> usize
    ensures value { result ≡ position_or_len steps.is_blank line.now }
    ensures within { result ≤ length line.now }
{
    line.iter()
        .position(|byte| *byte == b' ')
        .unwrap_or(line.len())
}

// What stands behind a place.
fn behind(line: &[u8], place: usize) -> &[u8]
    ensures { result.now ≡ drop (place + 1) line.now }
{
    if place < line.len() {
        &line[place + 1..]
    } else {
        &[]
    }
}
