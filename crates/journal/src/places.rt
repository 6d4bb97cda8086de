// Where entries stand in the lists of closed books.
ghost use Rattle.std.specs.Prelude.{◌≡◌, ◌<◌, ◌^◌, ◌++◌, ◌∷◌, [], List, length, slice_set, IfOk, IfSome, IsNone, Some, None};
ghost use Rattle.journal.specs.declared.tokens.Stamped.{Stamped as AnyStamped};
ghost use Rattle.journal.specs.Places.{ArePlaced, there};

use crate::tokens::Stamped;
use net_base::Sequence;
use std::alloc::{AllocError, Global};

/// The place of an entry: its list, and where it stands there.
#[derive(Clone, Copy, Debug)]
pub struct Place {
    pub(crate) list: u32,
    pub(crate) at: u32,
}

// So many places at which no entry is yet.
pub(crate) fn nowhere(alloc: Global, count: usize) -> Result<Vec<Place>, AllocError>
    ensures { IfOk result (λ places. length places.items ≡ count) }
{
    let mut places = Vec::new(alloc);
    places.resize(count, Place { list: 0, at: 0 })?;
    Ok(places)
}

// Notes where the entries of a list stand, which comes behind so many others.
pub(crate) fn note(entries: &[Stamped], list: u32, places: &mut Vec<Place>)
    requires short { length entries.now < 2 ^ 32 }
    ensures long { length places.new.items ≡ length places.old.items }
    ensures placed { (ls : List (List AnyStamped)) → length ls ≡ list → ArePlaced ls places.old.items
        → ArePlaced (ls ++ entries.now ∷ []) places.new.items }
{
    for (at, entry) in entries.iter().enumerate() {
        note_at(
            entry.stamp as usize,
            Place {
                list,
                at: at as u32,
            },
            places,
        );
    }
}

// Notes a place at one stamp, where the places reach so far.
#[tactic(auto, using(crate::proofs::Lists::set_outside))]
fn note_at(stamp: usize, place: Place, places: &mut Vec<Place>)
    ensures { places.new.items ≡ slice_set places.old.items stamp place }
{
    if stamp >= places.len() {
        return;
    }
    places[stamp] = place;
}

// What stands at a place.
pub(crate) fn found_at(lists: &[Sequence<Stamped>], place: Place) -> Option<&Stamped>
    ensures some { IfSome result (λ e. there lists.entry.now place ≡ Some e.now) }
    ensures none { IsNone result → there lists.now place ≡ None }
{
    let list = lists.get(place.list as usize)?;
    list.as_slice().get(place.at as usize)
}
