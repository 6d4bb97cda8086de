//! The text of a history, made by several workers.
ghost use Rattle.std.specs.Prelude.{◌≡◌, ◌≤◌, length, IfOk};
ghost use Rattle.std.specs.Thread.{IsSync};
ghost use Rattle.net_base.specs.Transcript.{history_text, lines_from};
ghost use Rattle.transcript.specs.Part.{part};

use crate::entry::text_from;
use net_base::{Entries, Octets};
use std::alloc::{AllocError, Global};
use std::thread::{Threads, join};

// The text of fewer entries is made before another thread has begun.
const FEW: usize = 256;

/// The text of a history, by so many workers.
pub fn text_by<R: Threads + Sync, E: Entries + Sync>(
    rt: &R,
    alloc: Global,
    workers: u32,
    entries: &E,
) -> Result<Octets, AllocError>
    ensures { IfOk result (λ text. text ≡ history_text (E.list entries.now)) }
{
    text_by_halves(rt, alloc, workers, entries, 0, entries.count())
}

// The text of the entries from a stamp up to another: that of either half, by half of the workers.
#[tactic(auto, using(crate::proofs::Runs::lines_of_halves))]
fn text_by_halves<R: Threads + Sync, E: Entries + Sync>(
    rt: &R,
    alloc: Global,
    workers: u32,
    entries: &E,
    first: usize,
    last: usize,
) -> Result<Octets, AllocError>
    requires order { first ≤ last }
    requires within { last ≤ length (E.list entries.now) }
    ensures { IfOk result (λ text. text ≡ lines_from first (part first last (E.list entries.now))) }
{
    if workers < 2 || last - first < FEW {
        return text_from(alloc, entries, first, last);
    }
    let middle = first + (last - first) / 2;
    let (front, back) = join(
        rt,
        || -> Result<Octets, AllocError>
            requires { IsSync R.row × IsSync E.row × (first ≤ middle) × (middle ≤ length (E.list entries.now)) }
            ensures { IfOk result (λ text. text ≡ lines_from first (part first middle (E.list entries.entry.now))) }
        { text_by_halves(rt, alloc, workers / 2, entries, first, middle) },
        || -> Result<Octets, AllocError>
            requires { IsSync R.row × IsSync E.row × (middle ≤ last) × (last ≤ length (E.list entries.now)) }
            ensures { IfOk result (λ text. text ≡ lines_from middle (part middle last (E.list entries.entry.now))) }
        { text_by_halves(rt, alloc, workers / 2, entries, middle, last) },
    );
    let mut text = front?;
    text.append(back?.as_slice())?;
    Ok(text)
}
