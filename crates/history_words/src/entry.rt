//! Entries as lines.
ghost use Rattle.std.specs.Prelude.{◌≡◌, ◌++◌, IfOk, OnOk};
ghost use Rattle.net_base.specs.Transcript.{spaced};
ghost use Rattle.history_words.specs.HistoryWords.{cited_words, ended_shown, history_words, line_shown, what_words, who_shown};

use crate::event::put_event;
use crate::header::put_emitted;
use crate::put::{put_named, put_word};
use crate::reply::put_reply;
use crate::who::{put_actor, put_caller};
use net_base::{Entry, History, Octets, World};
use std::alloc::{AllocError, Global};
use words::put_decimal;

// The room that is taken for a line at first.
const LINE: usize = 128;

/// A history of a world in words, a line for each entry in the order of stamps. It goes once through the history.
pub fn words_of(alloc: Global, world: &World, history: &History) -> Result<Octets, AllocError>
    ensures { IfOk result (λ text. text ≡ history_words world.now history.now) }
{
    let room = history.len().saturating_mul(LINE);
    let mut out = Octets::from_vec(Vec::with_capacity(alloc, room)?);
    put_lines(&mut out, world, history.as_slice())?;
    Ok(out)
}

fn put_lines(out: &mut Octets, world: &World, entries: &[Entry]) -> Result<(), AllocError>
    ensures { OnOk result (out.new ≡ out.old ++ history_words world.now entries.now) }
{
    for (stamp, entry) in entries.iter().enumerate() {
        put_line(out, world, stamp as u64, entry)?;
    }
    Ok(())
}

#[tactic(auto, unfolding(crate::specs::HistoryWords::line_shown))]
fn put_line(out: &mut Octets, world: &World, stamp: u64, entry: &Entry) -> Result<(), AllocError>
    ensures { OnOk result (out.new ≡ out.old ++ line_shown world.now stamp entry.now) }
{
    put_decimal(out, stamp)?;
    put_who(out, world, entry)?;
    put_what(out, world, entry)?;
    out.push(b'\n')
}

#[tactic(auto, using(crate::proofs::Spacing::spaced_both))]
fn put_who(out: &mut Octets, world: &World, entry: &Entry) -> Result<(), AllocError>
    ensures { OnOk result (out.new ≡ out.old ++ spaced (who_shown world.now entry.now)) }
{
    put_cited(out, entry.cites)?;
    put_named(out, b"|", entry.moment)?;
    put_word(out, b"ms |")?;
    put_caller(out, world, entry.caller)?;
    put_word(out, b"|")?;
    put_actor(out, world, entry.actor)
}

fn put_cited(out: &mut Octets, cites: Option<u64>) -> Result<(), AllocError>
    ensures { OnOk result (out.new ≡ out.old ++ spaced (cited_words cites)) }
{
    match cites {
        Some(stamp) => put_named(out, b"for", stamp),
        None => Ok(()),
    }
}

#[tactic(auto, using(crate::proofs::Spacing::spaced_both))]
fn put_what(out: &mut Octets, world: &World, entry: &Entry) -> Result<(), AllocError>
    ensures { OnOk result (out.new ≡ out.old ++ spaced (what_words world.now entry.now)) }
{
    put_word(out, b"|")?;
    put_event(out, world, &entry.event)?;
    put_word(out, b"|")?;
    put_reply(out, &entry.reply)?;
    put_emitted(out, entry.emits)?;
    put_ended(out, entry.ended)
}

fn put_ended(out: &mut Octets, ended: bool) -> Result<(), AllocError>
    ensures { OnOk result (out.new ≡ out.old ++ spaced (ended_shown ended)) }
{
    if ended {
        put_word(out, b"| ended")
    } else {
        Ok(())
    }
}
