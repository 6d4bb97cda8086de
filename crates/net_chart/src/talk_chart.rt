//! The chart of a history by its conversations.
ghost use Rattle.std.specs.Prelude.{◌≡◌, ◌++◌, flat_map, slice_get, option_copied, Option, IfOk, OnOk};
ghost use Rattle.std.specs.List.{enumerate_from};
ghost use Rattle.net_base.specs.declared.world.HostSpec.{HostSpec as AnyHost};
ghost use Rattle.net_chart.specs.Drawing.{drawing_of};
ghost use Rattle.net_chart.specs.TalkChart as spec;
ghost use Rattle.net_chart.specs.Talks.{talks_drawn};

use crate::chart::{put_bands, put_drawn, put_end, put_start};
use crate::drawing::column_at;
use crate::past::{Past, arrivals_in};
use crate::place::{Page, bounded, page_of};
use crate::svg::{end_text, put_escaped, put_line, start_text};
use crate::talk::{Talks, talks_of};
use net_base::{ActorName, Entry, History, HostSpec, Octets, Proto, World};
use std::alloc::{AllocError, Global};
use words::{proto_name, put_decimal};

/// Draws the chart of a history of a world with a column for each conversation, as a page of SVG: its operations, and the frames between
/// conversations. Rows are those of `chart_of`. It goes four times through the history.
pub fn chart_of_talks(alloc: Global, world: &World, history: &History) -> Result<Octets, AllocError>
    ensures { IfOk result (λ text. text ≡ spec.talk_chart world.now history.now) }
{
    let page = page_of(alloc, history.as_slice())?;
    let talks = talks_of(alloc, history.as_slice())?;
    charted(alloc, world, history.as_slice(), &page, &talks)
}

fn charted(
    alloc: Global,
    world: &World,
    entries: &[Entry],
    page: &Page,
    talks: &Talks,
) -> Result<Octets, AllocError>
    ensures { IfOk result (λ text. text ≡ spec.talks_charted world.now entries.now page.now talks.now) }
{
    let mut out = Octets::new(alloc);
    let width = talk_width(talks);
    let bottom = page.bottom();
    put_start(&mut out, width, bottom)?;
    put_columns(&mut out, world, bottom, talks.columns())?;
    put_bands(&mut out, page, width)?;
    put_things(alloc, &mut out, page, entries, talks)?;
    put_end(&mut out)?;
    Ok(out)
}

fn talk_width(talks: &Talks) -> u64
    ensures { result ≡ spec.talk_width talks.now }
{
    200 + 320 * bounded(talks.columns().len() as u64)
}

fn put_host(out: &mut Octets, host: Option<&HostSpec>) -> Result<(), AllocError>
    ensures { OnOk result ((named : Option AnyHost) → option_copied host.entry ≡ named
        → out.new ≡ out.old ++ spec.host_text named) }
{
    match host {
        Some(host) => put_escaped(out, host.name.as_slice()),
        None => out.append(b"?"),
    }
}

#[tactic(auto, unfolding(crate::specs::TalkChart::slot_text))]
fn put_slot(out: &mut Octets, proto: Proto, slot: u32) -> Result<(), AllocError>
    ensures { OnOk result (out.new ≡ out.old ++ spec.slot_text proto slot) }
{
    out.append(b" ")?;
    out.append(proto_name(proto))?;
    out.append(b"/")?;
    put_decimal(out, slot as u64)
}

fn host_at(world: &World, host: u32) -> Option<&HostSpec>
    ensures { option_copied result ≡ slice_get world.now.hosts host }
{
    world.hosts.as_slice().get(host as usize)
}

// The name of a host with the protocol and the number of its conversation.
fn put_name(out: &mut Octets, world: &World, actor: ActorName) -> Result<(), AllocError>
    ensures { OnOk result (out.new ≡ out.old ++ spec.talk_name world.now actor) }
{
    match actor {
        ActorName::Conv(host, proto, slot) => {
            put_host(out, host_at(world, host))?;
            put_slot(out, proto, slot)
        }
        _ => Ok(()),
    }
}

#[tactic(auto, unfolding(crate::specs::TalkChart::talk_column))]
fn put_column(
    out: &mut Octets,
    world: &World,
    bottom: u64,
    number: u64,
    actor: ActorName,
) -> Result<(), AllocError>
    ensures { OnOk result (out.new ≡ out.old ++ spec.talk_column world.now bottom (number, actor)) }
{
    let x = column_at(number);
    start_text(out, b"host", b"", x, 30)?;
    put_name(out, world, actor)?;
    end_text(out)?;
    put_line(out, b"life", x, 40, x, bottom)
}

fn put_columns(
    out: &mut Octets,
    world: &World,
    bottom: u64,
    columns: &[ActorName],
) -> Result<(), AllocError>
    ensures { OnOk result (out.new ≡ out.old ++ flat_map (spec.talk_column world.now bottom)
        (enumerate_from 0 columns.now)) }
{
    for (number, actor) in columns.iter().enumerate() {
        put_column(out, world, bottom, number as u64, *actor)?;
    }
    Ok(())
}

// All that is drawn of the conversations of a history.
fn put_things(
    alloc: Global,
    out: &mut Octets,
    page: &Page,
    entries: &[Entry],
    talks: &Talks,
) -> Result<(), AllocError>
    ensures { OnOk result (out.new ≡ out.old ++ drawing_of page.now
        (talks_drawn page.now.brief entries.now talks.now)) }
{
    let came = arrivals_in(alloc, entries)?;
    let mut past = Past::new(alloc);
    for (stamp, entry) in entries.iter().enumerate() {
        let thing = past.take(page.brief, entries, &came, entry)?;
        put_drawn(out, page, entry, talks.talked(stamp as u64, entry, thing))?;
    }
    Ok(())
}
