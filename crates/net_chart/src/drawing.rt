//! The things of a history as they are drawn on their page.
ghost use Rattle.std.specs.Prelude.{◌≡◌, ◌+◌, ◌<◌, ◌≤◌, ◌^◌, ◌++◌, OnOk};
ghost use Rattle.net_chart.specs.Drawing as spec;
ghost use Rattle.net_chart.specs.Svg.{path_text};

use crate::frame::Frame;
use crate::labels::{put_frame, put_operation};
use crate::place::{Page, Place, bounded, is_first};
use crate::svg::{end_path, end_text, put_escaped, put_line, start_path, start_text};
use crate::thing::Thing;
use net_base::{Entry, HostSpec, Octets};
use std::alloc::AllocError;
use words::put_decimal;

/// The column of a host, by its number.
pub fn column_at(host: u64) -> u64
    ensures { result ≡ spec.column_at host }
{
    260 + 320 * bounded(host)
}

// The middle between the columns of two hosts.
fn middle_of(one: u64, other: u64) -> u64
    ensures { result ≡ spec.middle_of one other }
{
    260 + 160 * (bounded(one) + bounded(other))
}

/// Adds the column of a host.
#[tactic(auto, unfolding(crate::specs::Drawing::column_text))]
pub fn put_column(
    out: &mut Octets,
    bottom: u64,
    number: u64,
    host: &HostSpec,
) -> Result<(), AllocError>
    ensures { OnOk result (out.new ≡ out.old ++ spec.column_text bottom (number, host.now)) }
{
    let x = column_at(number);
    start_text(out, b"host", b"", x, 30)?;
    put_escaped(out, host.name.as_slice())?;
    end_text(out)?;
    put_line(out, b"life", x, 40, x, bottom)
}

fn put_path(
    out: &mut Octets,
    class: &[u8],
    x: u64,
    y: u64,
    strokes: &[u8],
) -> Result<(), AllocError>
    ensures { OnOk result (out.new ≡ out.old ++ path_text class.now x y strokes.now) }
{
    start_path(out, class, x, y)?;
    out.append(strokes)?;
    end_path(out)
}

fn start_label(out: &mut Octets, frame: &Frame, y: u64) -> Result<(), AllocError>
    ensures { OnOk result (out.new ≡ out.old ++ spec.label_start frame.now y) }
{
    let start = frame.start();
    let x = column_at(start as u64);
    if start <= frame.to {
        start_text(out, b"right", b" dx='10' dy='-3'", x, y)
    } else {
        start_text(out, b"left", b" dx='-10' dy='-3'", x, y)
    }
}

#[tactic(auto, unfolding(crate::specs::Drawing::label_text))]
fn put_label(out: &mut Octets, page: &Page, frame: &Frame) -> Result<(), AllocError>
    ensures { OnOk result (out.new ≡ out.old ++ spec.label_text page.now frame.now) }
{
    start_label(out, frame, page.height_of(frame.at))?;
    put_frame(out, frame)?;
    end_text(out)
}

// The head of an arrow that comes from the left, or from the right.
fn head_strokes(frame: &Frame) -> &'static [u8]
    ensures { result.now ≡ spec.head_strokes frame.now }
{
    if frame.start() < frame.to {
        b"m-8-4l8 4l-8 4"
    } else {
        b"m8-4l-8 4l8 4"
    }
}

fn put_head(out: &mut Octets, class: &[u8], frame: &Frame, y: u64) -> Result<(), AllocError>
    ensures { OnOk result (out.new ≡ out.old ++ spec.head_text class.now frame.now y) }
{
    put_path(
        out,
        class,
        column_at(frame.to as u64),
        y,
        head_strokes(frame),
    )
}

// Out of a column and back to it.
fn put_round(out: &mut Octets, class: &[u8], x: u64, y: u64, to_y: u64) -> Result<(), AllocError>
    ensures { OnOk result (out.new ≡ out.old ++ spec.round_text class.now x y to_y) }
{
    start_path(out, class, x, y)?;
    out.append(b"h30V")?;
    put_decimal(out, to_y)?;
    out.append(b"h-30")?;
    end_path(out)
}

fn put_shaft(
    out: &mut Octets,
    class: &[u8],
    frame: &Frame,
    y: u64,
    to_y: u64,
) -> Result<(), AllocError>
    ensures { OnOk result (out.new ≡ out.old ++ spec.shaft_text class.now frame.now y to_y) }
{
    let start = frame.start();
    let to_x = column_at(frame.to as u64);
    if start == frame.to {
        put_round(out, class, to_x, y, to_y)
    } else {
        put_line(out, class, column_at(start as u64), y, to_x, to_y)
    }
}

fn put_arrow(
    out: &mut Octets,
    page: &Page,
    class: &[u8],
    frame: &Frame,
    to_y: u64,
) -> Result<(), AllocError>
    ensures { OnOk result (out.new ≡ out.old ++ spec.drawn_arrow page.now class.now frame.now to_y) }
{
    put_shaft(out, class, frame, page.height_of(frame.at), to_y)?;
    put_head(out, class, frame, to_y)
}

// How far a copy that has no row of its own comes below its frame's.
fn drop_of(frame: &Frame) -> u64
    ensures value { result ≡ spec.drop_of frame.now }
    ensures within { result ≤ 28 }
{
    if frame.came { 28 } else { 12 }
}

// Where an arrow ends: on a brief page its copy has no row of its own.
fn end_height(page: &Page, frame: &Frame, at: Place) -> u64
    ensures { result ≡ spec.end_height page.now frame.now at }
{
    if page.brief {
        page.height_of(frame.at) + drop_of(frame)
    } else {
        page.height_of(at)
    }
}

// The first copy of a frame, with its label, or a later one.
fn put_copy(out: &mut Octets, page: &Page, frame: &Frame, at: Place) -> Result<(), AllocError>
    ensures { OnOk result (out.new ≡ out.old ++ spec.arrow_text page.now frame.now at) }
{
    let to_y = end_height(page, frame, at);
    if frame.came {
        return put_arrow(out, page, b"again", frame, to_y);
    }
    put_arrow(out, page, b"frame", frame, to_y)?;
    put_label(out, page, frame)
}

// Half an arrow from a column on, with a cross at its end.
#[tactic(auto, unfolding(crate::specs::Drawing::half_text))]
fn put_half(out: &mut Octets, x: u64, y: u64, to_x: u64) -> Result<(), AllocError>
    requires { y < 2 ^ 50 }
    ensures { OnOk result (out.new ≡ out.old ++ spec.half_text x y to_x) }
{
    put_line(out, b"lost", x, y, to_x, y + 8)?;
    put_path(out, b"lost", to_x, y + 8, b"m-5-5l10 10m0-10l-10 10")
}

fn put_cross(out: &mut Octets, page: &Page, frame: &Frame) -> Result<(), AllocError>
    ensures { OnOk result (out.new ≡ out.old ++ spec.cross_text page.now frame.now) }
{
    let start = frame.start() as u64;
    put_half(
        out,
        column_at(start),
        page.height_of(frame.at),
        middle_of(start, frame.to as u64),
    )?;
    put_label(out, page, frame)
}

fn start_operation(out: &mut Octets, host: u32, y: u64) -> Result<(), AllocError>
    ensures { OnOk result (out.new ≡ out.old ++ spec.operation_start host y) }
{
    let x = column_at(host as u64);
    if host == 0 {
        start_text(out, b"left op", b" dx='-6' dy='3'", x, y)
    } else {
        start_text(out, b"right op", b" dx='6' dy='3'", x, y)
    }
}

fn put_done(
    out: &mut Octets,
    page: &Page,
    entry: &Entry,
    host: u32,
    at: Place,
) -> Result<(), AllocError>
    ensures { OnOk result (out.new ≡ out.old ++ spec.operation_text page.now entry.now host at) }
{
    start_operation(out, host, page.height_of(at))?;
    put_operation(out, entry)?;
    end_text(out)
}

/// Adds what an entry draws.
pub fn put_thing(
    out: &mut Octets,
    page: &Page,
    entry: &Entry,
    thing: Thing,
) -> Result<(), AllocError>
    ensures { OnOk result (out.new ≡ out.old ++ spec.thing_text page.now entry.now thing) }
{
    match thing {
        Thing::Arrow { frame, at } => {
            if page.is_drawn(frame.at) {
                put_copy(out, page, &frame, at)
            } else {
                Ok(())
            }
        }
        Thing::Cross { frame } => {
            if page.is_drawn(frame.at) {
                put_cross(out, page, &frame)
            } else {
                Ok(())
            }
        }
        Thing::Operation { host, at } => {
            if page.brief {
                Ok(())
            } else {
                put_done(out, page, entry, host, at)
            }
        }
    }
}

// A line across the page, and the moment below it.
#[tactic(auto, unfolding(crate::specs::Drawing::when_text))]
fn put_when(out: &mut Octets, width: u64, y: u64, moment: u64) -> Result<(), AllocError>
    ensures { OnOk result (out.new ≡ out.old ++ spec.when_text width y moment) }
{
    let above = y.saturating_sub(16);
    put_line(out, b"moment", 0, above, width, above)?;
    start_text(out, b"when", b"", 4, y.saturating_sub(5))?;
    put_decimal(out, moment)?;
    out.append(b" ms")?;
    end_text(out)
}

fn put_moment(out: &mut Octets, page: &Page, width: u64, place: Place) -> Result<(), AllocError>
    ensures { OnOk result (out.new ≡ out.old ++ spec.moment_text page.now width place) }
{
    if is_first(place) {
        put_when(out, width, page.height_of(place), place.moment)
    } else {
        Ok(())
    }
}

// How many frames of a moment aren't drawn, above its last one.
#[tactic(auto, unfolding(crate::specs::Drawing::count_text))]
fn put_count(out: &mut Octets, page: &Page, place: Place) -> Result<(), AllocError>
    ensures { OnOk result (out.new ≡ out.old ++ spec.count_text page.now place) }
{
    if page.hides(place) {
        let between = place.row.saturating_sub(place.first).saturating_sub(1);
        let y = page.height_of(place).saturating_sub(16);
        start_text(out, b"when", b"", 4, y)?;
        put_decimal(out, between)?;
        out.append(b" between")?;
        end_text(out)
    } else {
        Ok(())
    }
}

/// Adds the moment of a band at its first row, and at its last how many aren't drawn.
pub fn put_band(out: &mut Octets, page: &Page, width: u64, place: Place) -> Result<(), AllocError>
    ensures { OnOk result (out.new ≡ out.old ++ spec.band_text page.now width place) }
{
    put_moment(out, page, width, place)?;
    put_count(out, page, place)
}
