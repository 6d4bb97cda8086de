//! Where entries stand on the page.
ghost use Rattle.std.specs.Prelude.{◌≡◌, ◌<◌, ◌≤◌, ◌^◌, ◌++◌, IfOk, OnOk};
ghost use Rattle.net_chart.specs.Places as spec;

use crate::sight::{has_row, sight_of};
use net_base::{Entry, Sequence};
use std::alloc::{AllocError, Global};

/// More rows than these aren't drawn one by one.
const MOST_ROWS: usize = 400;

/// No number on a page is greater.
const GREATEST: u64 = 4_294_967_296;

/// A row, from 1, with its moment in ms; the band of that moment, from 1, and the band's first row.
#[derive(Clone, Copy)]
pub struct Place {
    pub moment: u64,
    pub row: u64,
    pub band: u64,
    pub first: u64,
}

/// A page by its rows. A brief one has rows of frames alone, and shows the first and the last of each moment.
#[derive(Drop)]
pub struct Page {
    pub brief: bool,
    pub places: Sequence<Place>,
}

/// Before the first row.
pub const ABOVE_ALL: Place = Place {
    moment: 0,
    row: 0,
    band: 0,
    first: 0,
};

// Whether the next row begins a band.
fn begins_band(place: Place, moment: u64) -> bool
    ensures { result ≡ spec.begins_band place moment }
{
    place.row == 0 || place.moment != moment
}

fn next_place(place: Place, moment: u64) -> Place
    ensures { result ≡ spec.next_place place moment }
{
    let row = place.row.saturating_add(1);
    if begins_band(place, moment) {
        Place {
            moment,
            row,
            band: place.band.saturating_add(1),
            first: row,
        }
    } else {
        Place {
            moment,
            row,
            band: place.band,
            first: place.first,
        }
    }
}

/// The place after an entry, which is its own where it has a row.
pub fn place_after(brief: bool, place: Place, entry: &Entry) -> Place
    ensures { result ≡ spec.place_after brief place entry.now }
{
    if has_row(brief, sight_of(entry)) {
        next_place(place, entry.moment)
    } else {
        place
    }
}

// Adds the row of an entry that has one.
fn add_row(
    places: &mut Sequence<Place>,
    brief: bool,
    place: Place,
    entry: &Entry,
) -> Result<(), AllocError>
    ensures { OnOk result (places.new ≡ places.old ++ spec.rows_of brief place entry.now) }
{
    if has_row(brief, sight_of(entry)) {
        places.push(next_place(place, entry.moment))
    } else {
        Ok(())
    }
}

// The rows of a history.
fn places_of(alloc: Global, brief: bool, entries: &[Entry]) -> Result<Sequence<Place>, AllocError>
    ensures { IfOk result (λ places. places ≡ spec.chart_places brief entries.now) }
{
    let mut places = Sequence::new(alloc);
    let mut place = ABOVE_ALL;
    for entry in entries {
        add_row(&mut places, brief, place, entry)?;
        place = place_after(brief, place, entry);
    }
    Ok(places)
}

/// The page of a history: of all that is seen, or a brief one.
pub fn page_of(alloc: Global, entries: &[Entry]) -> Result<Page, AllocError>
    ensures { IfOk result (λ page. page ≡ spec.page_of entries.now) }
{
    let places = places_of(alloc, false, entries)?;
    if places.len() <= MOST_ROWS {
        return Ok(Page {
            brief: false,
            places,
        });
    }
    Ok(Page {
        brief: true,
        places: places_of(alloc, true, entries)?,
    })
}

/// Whether it begins a band.
pub fn is_first(place: Place) -> bool
    ensures { result ≡ spec.is_first_row place }
{
    place.row == place.first
}

/// A number, but at most one that a page has.
pub fn bounded(n: u64) -> u64
    ensures value { result ≡ spec.bounded n }
    ensures within { result < 2 ^ 33 }
{
    n.min(GREATEST)
}

// The row of a band's four: the first frame's, or the last one's.
fn slot_of(place: Place) -> u64
    ensures value { result ≡ spec.place_slot place }
    ensures within { result ≤ 2 }
{
    if is_first(place) { 0 } else { 2 }
}

// Whether the next row, if there is one, is in another band.
fn differs(next: Option<Place>, place: Place) -> bool
    ensures { result ≡ spec.differs next place }
{
    match next {
        Some(next) => next.band != place.band,
        None => true,
    }
}

fn last_of(places: &[Place]) -> Place
    ensures { result ≡ spec.last_of places.now }
{
    places.last().copied().unwrap_or(ABOVE_ALL)
}

impl Page {
    /// Whether a band ends with this row.
    pub fn is_last(&self, place: Place) -> bool
        ensures { result ≡ spec.is_last self.now place }
    {
        differs(
            self.places.as_slice().get(place.row as usize).copied(),
            place,
        )
    }

    /// Whether what has this row is drawn.
    pub fn is_drawn(&self, place: Place) -> bool
        ensures { result ≡ spec.is_drawn self.now place }
    {
        !self.brief || is_first(place) || self.is_last(place)
    }

    /// How far a row is from the top of the page, in pixels.
    pub fn height_of(&self, place: Place) -> u64
        ensures value { result ≡ spec.height_of self.now place }
        ensures within { result < 2 ^ 50 }
    {
        if self.brief {
            60 + 16 * (4 * bounded(place.band) + slot_of(place))
        } else {
            60 + 16 * (bounded(place.row) + bounded(place.band))
        }
    }

    /// How far its end is from its top, in pixels.
    pub fn bottom(&self) -> u64
        ensures { result ≡ spec.bottom_of self.now }
    {
        self.height_of(last_of(self.places.as_slice())) + 60
    }

    /// Whether frames of a band that ends with this row aren't drawn.
    pub fn hides(&self, place: Place) -> bool
        ensures { result ≡ spec.hides self.now place }
    {
        self.brief && self.is_last(place) && 1 < place.row.saturating_sub(place.first)
    }
}
