//! What may be opened, and the names in a directory.
ghost use Rattle.std.specs.Prelude.{◌≡◌, ◌<◌, ◌∷◌, ◌++◌, ◌↔◌, codes, IsOk, IfErr, IfOk, OnOk, true, map, decimal};
ghost use Rattle.net_base.specs.Paths as spec;
ghost use Rattle.net_tree.specs.Slots.{taken, taken_at};
ghost use Rattle.net_tree.specs.declared.fault.TreeError.TheVariants.{BadMode};

use crate::fault::TreeError;
use itoa::Buffer;
use net_base::{FileName, Lines, Mode, Node, Octets, Sequence};
use std::alloc::{AllocError, Global};

/// Whether a node may be opened so.
pub fn may_open(node: Node, mode: Mode) -> Result<(), TreeError>
    ensures ok { IsOk result ↔ (spec.may_open node mode ≡ true) }
    ensures err { IfErr result (λ e. e ≡ BadMode) }
{
    match node {
        Node::Clone(_) => Ok(()),
        Node::File(_, _, file) if mode == Mode::Read || !is_read_alone(file) => Ok(()),
        _ => Err(TreeError::BadMode),
    }
}

fn is_read_alone(file: FileName) -> bool
    ensures { result ≡ spec.is_read_alone file }
{
    match file {
        FileName::Err | FileName::Local | FileName::Remote | FileName::Status => true,
        FileName::Ctl | FileName::Data | FileName::Listen => false,
    }
}

/// The names in a directory. A slot is taken where its bit of `slots` is set.
pub fn names(alloc: Global, node: Node, slots: u32) -> Result<Lines, AllocError>
    ensures { IfOk result (λ names. names ≡ spec.names node (taken slots)) }
{
    match node {
        Node::Root => words(alloc, &[b"cs", b"il", b"udp"]),
        Node::Proto(_) => clone_and_slots(alloc, slots),
        Node::Dir(..) => words(
            alloc,
            &[
                b"ctl", b"data", b"err", b"listen", b"local", b"remote", b"status",
            ],
        ),
        Node::Cs | Node::Clone(_) | Node::File(..) => Ok(Sequence::new(alloc)),
    }
}

fn words(alloc: Global, words: &[&[u8]]) -> Result<Lines, AllocError>
    ensures { IfOk result (λ lines. lines ≡ map (λ w. w.now) words.now) }
{
    let mut lines = Sequence::new(alloc);
    for word in words {
        lines.push(Octets::from_slice(alloc, word)?)?;
    }
    Ok(lines)
}

// `clone`, and the numbers of the slots that are taken.
#[tactic(auto, using(crate::proofs::Taken::none_below))]
fn clone_and_slots(alloc: Global, slots: u32) -> Result<Lines, AllocError>
    ensures { IfOk result (λ lines. lines ≡ codes "clone" ∷ map decimal (taken slots)) }
{
    let mut lines = words(alloc, &[b"clone"])?;
    for slot in 0..32_u32 {
        put_taken(alloc, &mut lines, slots, slot)?;
    }
    Ok(lines)
}

// Adds the number of a slot where it is taken.
fn put_taken(alloc: Global, lines: &mut Lines, slots: u32, slot: u32) -> Result<(), AllocError>
    requires { slot < 32 }
    ensures { OnOk result (lines.new ≡ lines.old ++ map decimal (taken_at slots slot)) }
{
    if (slots >> slot) % 2 == 1 {
        let mut buffer = Buffer::new();
        lines.push(Octets::from_slice(alloc, buffer.format(slot).as_bytes())?)?;
        return Ok(());
    }
    Ok(())
}
