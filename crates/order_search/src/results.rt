//! The results of steps in words.
ghost use Rattle.std.specs.Prelude.{◌≡◌, ◌++◌, drop, List, Some, IfOk, OnOk, option_copied, slice_get};
ghost use Rattle.net_base.specs.declared.reply.Reply.{Reply as AnyReply};
ghost use Rattle.net_base.specs.Transcript.{reply_words, spaced};
ghost use Rattle.turn_orders.specs.Results.{outcome_of, result_text};
ghost use Rattle.order_search.specs.Marks as spec;
ghost use Rattle.order_search.specs.Marks.{IsLatest, results_text};
ghost use Rattle.order_search.specs.Walks.{IsWalk};

use crate::marks::Latest;
use crate::walk::{Walk, finished_of};
use net_base::{History, Octets, Reply, Script, World};
use script_task::is_accepted;
use std::alloc::{AllocError, Global};
use transcript::put_reply;

/// The results of all steps, a line each.
pub fn results_of(alloc: Global, world: &World, walk: &Walk<'_>) -> Result<Octets, AllocError>
    requires { IsWalk world.now walk.now }
    ensures { IfOk result (λ text. text ≡ results_text (outcome_of world.now walk.now.history)) }
{
    let mut out = Octets::new(alloc);
    let scripts = world.scripts.as_slice();
    for (number, script) in scripts.iter().enumerate() {
        put_results(alloc, &mut out, world, walk, number, script)?;
    }
    Ok(out)
}

// Adds the results of the steps of a script.
fn put_results(
    alloc: Global,
    out: &mut Octets,
    world: &World,
    walk: &Walk<'_>,
    number: usize,
    script: &Script,
) -> Result<(), AllocError>
    requires walk { IsWalk world.now walk.now }
    requires script { slice_get world.now.scripts number ≡ Some script.now }
    ensures { OnOk result (out.new ≡ out.old ++ spec.script_lines world.now walk.now.history (number, script.now)) }
{
    let _ = world;
    let finished = finished_of(&walk.runner, number);
    for step in 0..script.steps.len() {
        let latest = walk.marks.at(number, step);
        put_line(alloc, out, &walk.history, latest, step < finished)?;
    }
    Ok(())
}

// Adds the line of a step, of which these are the last entries.
fn put_line(
    alloc: Global,
    out: &mut Octets,
    history: &History,
    latest: Option<Latest>,
    is_finished: bool,
) -> Result<(), AllocError>
    ensures { OnOk result ((rs : List AnyReply) → IsLatest history.now latest rs → out.new ≡ out.old ++ spec.line_of is_finished rs) }
{
    put_if_finished(alloc, out, history, latest, is_finished)?;
    out.push(b'\n')
}

fn put_if_finished(
    alloc: Global,
    out: &mut Octets,
    history: &History,
    latest: Option<Latest>,
    is_finished: bool,
) -> Result<(), AllocError>
    ensures { OnOk result (out.new ≡ out.old ++ result_text (spec.result_if is_finished (spec.latest_result history.now latest))) }
{
    if is_finished {
        return put_result(alloc, out, history, latest);
    }
    out.push(b'-')
}

// Adds the result of a finished step: the reply to its last event, or the refusal before it where that one is accepted.
fn put_result(
    alloc: Global,
    out: &mut Octets,
    history: &History,
    latest: Option<Latest>,
) -> Result<(), AllocError>
    ensures { OnOk result (out.new ≡ out.old ++ result_text (spec.latest_result history.now latest)) }
{
    let Some(latest) = latest else {
        return out.push(b'-');
    };
    let Some(entry) = history.as_slice().get(latest.last) else {
        return out.push(b'-');
    };
    if !is_accepted(&entry.reply) {
        return put_reply_word(alloc, out, &entry.reply);
    }
    match refused_before(history, latest.before) {
        Some(refused) => put_reply_word(alloc, out, refused),
        None => put_reply_word(alloc, out, &entry.reply),
    }
}

// The reply of an entry, if it is a refusal.
fn refused_before(history: &History, stamp: Option<usize>) -> Option<&Reply>
    ensures { option_copied result ≡ spec.refusal_at history.now stamp }
{
    let entry = history.as_slice().get(stamp?)?;
    if is_accepted(&entry.reply) {
        return None;
    }
    Some(&entry.reply)
}

// Adds a reply as histories print it, of `slot`, `call` and `opened` the word alone.
fn put_reply_word(alloc: Global, out: &mut Octets, reply: &Reply) -> Result<(), AllocError>
    ensures { OnOk result (out.new ≡ out.old ++ result_text (Some reply.now)) }
{
    match reply {
        Reply::Slot { .. } => out.append(b"slot"),
        Reply::Call { .. } => out.append(b"call"),
        Reply::Opened { .. } => out.append(b"opened"),
        _ => put_without_blank(alloc, out, reply),
    }
}

fn put_without_blank(alloc: Global, out: &mut Octets, reply: &Reply) -> Result<(), AllocError>
    ensures { OnOk result (out.new ≡ out.old ++ drop 1 (spaced (reply_words reply.now))) }
{
    let mut words = Octets::new(alloc);
    put_reply(&mut words, reply)?;
    match words.as_slice() {
        [_, rest @ ..] => out.append(rest),
        [] => Ok(()),
    }
}
