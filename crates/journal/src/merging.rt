// The entries of lists in one piece, by stamp.
ghost use Rattle.std.specs.Prelude.{◌≡◌, List, [], map, length, IfOk, IfSome, OnOk};
ghost use Rattle.std.specs.Vec.Iter.{into_iter_items};
ghost use Rattle.net_base.specs.declared.history.Entry.{Entry};
ghost use Rattle.journal.specs.declared.tokens.Stamped.{Stamped};
ghost use Rattle.journal.specs.Closing.{IsLeft, AreAt};

use crate::places::Place;
use crate::tokens::Stamped;
use net_base::{Entry, Sequence};
use std::alloc::{AllocError, Global};
use std::vec::IntoIter;

// The lists, each from its first entry on.
pub(crate) fn opened(
    alloc: Global,
    lists: Vec<Sequence<Stamped>>,
) -> Result<Vec<IntoIter<Stamped, Global>>, AllocError>
    ensures { IfOk result (λ all. map into_iter_items all.items ≡ lists.items) }
{
    let mut all = Vec::with_capacity(alloc, lists.len())?;
    for list in lists {
        all.push(list.into_vec().into_iter())?;
    }
    Ok(all)
}

// The entries of all lists by stamp, each of which is the next of the list where its place is.
pub(crate) fn merge(
    mut lists: Vec<IntoIter<Stamped, Global>>,
    places: &[Place],
    history: &mut Vec<Entry>,
) -> Result<(), AllocError>
    requires empty { history.old.items ≡ [] }
    ensures { OnOk result ((log : List Entry) → length log ≡ length places.now
        → AreAt log (map into_iter_items lists.items) → history.new.items ≡ log) }
{
    while history.len() < places.len() {
        let stamp = history.len();
        let Some(next) = next_of(&mut lists, places[stamp].list as usize) else {
            return Err(AllocError);
        };
        history.push(entry_of(next, stamp)?)?;
    }
    Ok(())
}

// The first entry that is left in the list of this place.
fn next_of(lists: &mut Vec<IntoIter<Stamped, Global>>, place: usize) -> Option<Stamped>
    ensures rest { (e : Stamped) → IsLeft e (map into_iter_items lists.new.items)
        → IsLeft e (map into_iter_items lists.old.items) }
    ensures found { IfSome result (λ e. IsLeft e (map into_iter_items lists.old.items)) }
{
    if place >= lists.len() {
        return None;
    }
    lists[place].next()
}

// The entry, which always has this stamp: that is seen here.
fn entry_of(next: Stamped, stamp: usize) -> Result<Entry, AllocError>
    ensures { IfOk result (λ x. next ≡ record { stamp = stamp; entry = x }) }
{
    let Stamped { stamp: own, entry } = next;
    if own != stamp as u64 {
        return Err(AllocError);
    }
    Ok(entry)
}
