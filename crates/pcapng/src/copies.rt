//! The frames of which copies arrive.
ghost use Rattle.std.specs.Prelude.{◌≡◌, ◌++◌, IfOk, OnOk};
ghost use Rattle.pcapng.specs.Copies as spec;

use indexmap::IndexMap;
use net_base::{ActorName, Entry, Octets, Reply};
use std::alloc::{AllocError, Global};

/// The link of a frame, and its number there.
pub type Key = (u32, u64);

/// The frames of which copies arrive, and whether more than one does.
pub type Copies = IndexMap<Key, bool>;

// The frame of which a link gives a copy.
fn copied(entry: &Entry) -> Option<Key>
    ensures { result ≡ spec.copied entry.now.actor entry.now.reply }
{
    match (entry.actor, &entry.reply) {
        (ActorName::Medium(medium), Reply::Copy { frame }) => Some((medium, *frame)),
        _ => None,
    }
}

fn copies_at(copies: &Copies, key: Key) -> Option<bool>
    ensures { result ≡ spec.copies_at copies.now.entries key }
{
    copies.get(&key).copied()
}

fn note_copy(copies: &mut Copies, key: Option<Key>) -> Result<(), AllocError>
    ensures { OnOk result (copies.new.entries ≡ spec.with_copy copies.old.entries key) }
{
    let Some(key) = key else {
        return Ok(());
    };
    let again = copies_at(copies, key).is_some();
    copies.insert(key, again)?;
    Ok(())
}

/// The frames of which copies arrive by these entries.
pub fn copies_in(alloc: Global, entries: &[Entry]) -> Result<Copies, AllocError>
    ensures { IfOk result (λ copies. copies.entries ≡ spec.copies_in entries.now) }
{
    let mut copies = IndexMap::new(alloc);
    for entry in entries {
        note_copy(&mut copies, copied(entry))?;
    }
    Ok(copies)
}

/// Adds what became of a frame, if not one copy of it arrived.
pub fn put_fate(out: &mut Octets, copies: &Copies, key: Key) -> Result<(), AllocError>
    ensures { OnOk result (out.new ≡ out.old ++ spec.fate_text (spec.copies_at copies.now.entries key)) }
{
    match copies_at(copies, key) {
        None => out.append(b", lost"),
        Some(false) => Ok(()),
        Some(true) => out.append(b", twice"),
    }
}
