//! Names, paths and texts, and the words that name something.
ghost use Rattle.std.specs.Prelude.{◌≡◌, ◌==◌, not, ◌&&◌, ◌||◌, true, map, IfOk};
ghost use Rattle.std.specs.List.{list_all};
ghost use Rattle.net_base.specs.World as world;
ghost use Rattle.world_text.specs.WorldWords as spec;

use net_base::{Nets, Proto, Sequence};
use std::alloc::{AllocError, Global};
use words::proto_named;

/// The nets of one word or two; none where a word names none.
pub(crate) fn nets_named(alloc: Global, words: &[&[u8]]) -> Result<Nets, AllocError>
    ensures { IfOk result (λ nets. nets ≡ spec.nets_named (map (λ w. w.now) words.now)) }
{
    let mut nets = Sequence::new(alloc);
    match words {
        [word] => {
            if let Some(net) = proto_named(word) {
                nets.push(net)?;
            }
            Ok(nets)
        }
        [word, other] => {
            if let (Some(first), Some(second)) = (proto_named(word), proto_named(other)) {
                nets.push(first)?;
                nets.push(second)?;
            }
            Ok(nets)
        }
        _ => Ok(nets),
    }
}

pub fn is_name(word: &[u8]) -> bool
    ensures { result ≡ world.is_name word.now }
{
    !word.is_empty() && is_letter(word[0]) && word.len() <= 27 && are_name_bytes(&word[1..])
}

fn is_letter(byte: u8) -> bool
    ensures { result ≡ world.is_letter byte }
{
    b'a' <= byte && byte <= b'z'
}

fn is_name_byte(byte: u8) -> bool
    ensures { result ≡ world.is_name_byte byte }
{
    is_letter(byte) || b'0' <= byte && byte <= b'9' || byte == b'-'
}

fn are_name_bytes(bytes: &[u8]) -> bool
    ensures { result ≡ list_all world.is_name_byte bytes.now }
{
    bytes.iter().all(|byte| is_name_byte(*byte))
}

/// Whether bytes stand on one line.
pub(crate) fn is_text(bytes: &[u8]) -> bool
    ensures { result ≡ world.is_text bytes.now }
{
    bytes.iter().all(|byte| *byte != b'\n')
}

pub(crate) fn is_word(bytes: &[u8]) -> bool
    ensures { result ≡ world.is_word bytes.now }
{
    !bytes.is_empty() && is_run(bytes)
}

/// Whether no blank and no newline is among the bytes.
fn is_run(bytes: &[u8]) -> bool
    ensures { result ≡ list_all (λ c. world.is_byte c && not ((c == 32) || (c == 10))) bytes.now }
{
    bytes.iter().all(|byte| !(*byte == b' ' || *byte == b'\n'))
}

/// `il`, `udp`, `il udp` or `udp il`
pub(crate) fn is_nets(nets: &[Proto]) -> bool
    ensures { result ≡ world.is_nets nets.now }
{
    match nets {
        [_] => true,
        [Proto::Il, Proto::Udp] => true,
        [Proto::Udp, Proto::Il] => true,
        _ => false,
    }
}
