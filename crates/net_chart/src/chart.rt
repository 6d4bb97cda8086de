//! The chart of a history.
ghost use Rattle.std.specs.Prelude.{◌≡◌, ◌++◌, flat_map, IfOk, OnOk};
ghost use Rattle.std.specs.List.{enumerate_from};
ghost use Rattle.net_chart.specs.Chart as spec;
ghost use Rattle.net_chart.specs.Drawing.{band_text, column_text, drawing_of};
ghost use Rattle.net_chart.specs.Things.{drawn_of, things_of};

use crate::drawing::{put_band, put_column, put_thing};
use crate::past::{Past, arrivals_in};
use crate::place::{Page, bounded, page_of};
use crate::svg::put_attribute;
use crate::thing::Thing;
use net_base::{Entry, History, HostSpec, Octets, World};
use std::alloc::{AllocError, Global};
use words::put_decimal;

/// How the page looks.
const STYLE: &[u8] = b"<style>
text{font:10px monospace;fill:#222}
line,path{stroke:#357;fill:none}
.host{font:bold 14px sans-serif;text-anchor:middle}
.life{stroke:#bbb}
.moment{stroke:#ddd}
.when{fill:#888}
.right{text-anchor:start}
.left{text-anchor:end}
.again{stroke:#a60}
line.again{stroke-dasharray:5 3}
.lost{stroke:#c22}
.op{fill:#262}
</style>
<rect width='100%' height='100%' fill='#fff'/>
";

/// Draws the chart of a history of a world, as a page of SVG. A page of more than 400 rows shows the first and the last frame of each
/// moment, and how many are between. It goes three times through the history.
pub fn chart_of(alloc: Global, world: &World, history: &History) -> Result<Octets, AllocError>
    ensures { IfOk result (λ text. text ≡ spec.chart world.now history.now) }
{
    let page = page_of(alloc, history.as_slice())?;
    charted(alloc, world, history.as_slice(), &page)
}

fn charted(
    alloc: Global,
    world: &World,
    entries: &[Entry],
    page: &Page,
) -> Result<Octets, AllocError>
    ensures { IfOk result (λ text. text ≡ spec.charted world.now entries.now page.now) }
{
    let mut out = Octets::new(alloc);
    let width = width_of(world);
    let bottom = page.bottom();
    put_start(&mut out, width, bottom)?;
    put_columns(&mut out, bottom, world.hosts.as_slice())?;
    put_bands(&mut out, page, width)?;
    put_things(alloc, &mut out, page, entries)?;
    put_end(&mut out)?;
    Ok(out)
}

fn width_of(world: &World) -> u64
    ensures { result ≡ spec.chart_width world.now }
{
    200 + 320 * bounded(world.hosts.len() as u64)
}

#[tactic(auto, unfolding(crate::specs::Chart::opening_text))]
fn put_opening(out: &mut Octets) -> Result<(), AllocError>
    ensures { OnOk result (out.new ≡ out.old ++ spec.opening_text) }
{
    out.append(b"<svg xmlns='http://www.w3.org/2000/svg'")
}

#[tactic(auto, unfolding(crate::specs::Chart::size_text))]
fn put_size(out: &mut Octets, width: u64, bottom: u64) -> Result<(), AllocError>
    ensures { OnOk result (out.new ≡ out.old ++ spec.size_text width bottom) }
{
    put_attribute(out, b"width", width)?;
    put_attribute(out, b"height", bottom)
}

#[tactic(auto, unfolding(crate::specs::Chart::view_name))]
fn view_name() -> &'static [u8]
    ensures { result.now ≡ spec.view_name }
{
    b" viewBox='0 0 "
}

#[tactic(auto, unfolding(crate::specs::Chart::view_text))]
fn put_view(out: &mut Octets, width: u64, bottom: u64) -> Result<(), AllocError>
    ensures { OnOk result (out.new ≡ out.old ++ spec.view_text width bottom) }
{
    put_pair(out, view_name(), width, bottom)?;
    put_opening_end(out)
}

#[tactic(auto, unfolding(crate::specs::Chart::opening_end))]
fn put_opening_end(out: &mut Octets) -> Result<(), AllocError>
    ensures { OnOk result (out.new ≡ out.old ++ spec.opening_end) }
{
    out.append(b"'>")?;
    out.append(b"\n")
}

// Two numbers behind the beginning of an attribute.
#[tactic(auto, unfolding(crate::specs::Chart::svg_pair_text))]
fn put_pair(out: &mut Octets, name: &[u8], a: u64, b: u64) -> Result<(), AllocError>
    ensures { OnOk result (out.new ≡ out.old ++ spec.svg_pair_text name.now a b) }
{
    out.append(name)?;
    put_decimal(out, a)?;
    out.append(b" ")?;
    put_decimal(out, b)
}

#[tactic(auto, unfolding(crate::specs::Chart::style_text))]
fn put_style(out: &mut Octets) -> Result<(), AllocError>
    ensures { OnOk result (out.new ≡ out.old ++ spec.style_text) }
{
    out.append(STYLE)
}

/// Begins a page.
#[tactic(auto, unfolding(crate::specs::Chart::page_start))]
pub fn put_start(out: &mut Octets, width: u64, bottom: u64) -> Result<(), AllocError>
    ensures { OnOk result (out.new ≡ out.old ++ spec.page_start width bottom) }
{
    put_opening(out)?;
    put_size(out, width, bottom)?;
    put_view(out, width, bottom)?;
    put_style(out)
}

/// Ends it.
pub fn put_end(out: &mut Octets) -> Result<(), AllocError>
    ensures { OnOk result (out.new ≡ out.old ++ spec.page_end) }
{
    out.append(b"</svg>")?;
    out.append(b"\n")
}

fn put_columns(out: &mut Octets, bottom: u64, hosts: &[HostSpec]) -> Result<(), AllocError>
    ensures { OnOk result (out.new ≡ out.old ++ flat_map (column_text bottom) (enumerate_from 0 hosts.now)) }
{
    for (number, host) in hosts.iter().enumerate() {
        put_column(out, bottom, number as u64, host)?;
    }
    Ok(())
}

/// Adds the moments of a page.
pub fn put_bands(out: &mut Octets, page: &Page, width: u64) -> Result<(), AllocError>
    ensures { OnOk result (out.new ≡ out.old ++ flat_map (band_text page.now width) page.now.places) }
{
    for place in page.places.as_slice() {
        put_band(out, page, width, *place)?;
    }
    Ok(())
}

// All that is drawn of a history.
fn put_things(
    alloc: Global,
    out: &mut Octets,
    page: &Page,
    entries: &[Entry],
) -> Result<(), AllocError>
    ensures { OnOk result (out.new ≡ out.old ++ drawing_of page.now (things_of page.now.brief entries.now)) }
{
    let came = arrivals_in(alloc, entries)?;
    let mut past = Past::new(alloc);
    for entry in entries {
        let thing = past.take(page.brief, entries, &came, entry)?;
        put_drawn(out, page, entry, thing)?;
    }
    Ok(())
}

/// Adds what is drawn by an entry, if anything is.
pub fn put_drawn(
    out: &mut Octets,
    page: &Page,
    entry: &Entry,
    thing: Option<Thing>,
) -> Result<(), AllocError>
    ensures { OnOk result (out.new ≡ out.old ++ drawing_of page.now (drawn_of entry.now thing)) }
{
    match thing {
        Some(thing) => put_thing(out, page, entry, thing),
        None => Ok(()),
    }
}
