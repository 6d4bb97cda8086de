//! The end: the books behind all locks.
ghost use Rattle.std.specs.Prelude.{◌≡◌, map, IfOk};
ghost use Rattle.net_locks.specs.Rosters.{AreReplayed, IsReplayed};

use crate::machine::WorldActor;
use crate::placing::Placing;
use journal::{Book, Naming};
use locked::Locked;
use net_base::same_actor;
use std::alloc::{AllocError, Global};

// The books behind the locks, in the order of these. Each entry was a step of its actor.
pub(crate) fn books_of<J: Naming + Placing>(
    alloc: Global,
    mut locks: Vec<Locked<J, WorldActor<J>>>,
) -> Result<Vec<Book<J>>, AllocError>
    ensures actors { IfOk result (λ books. map (λ b. b.actor) books.items ≡ map (λ l. l.actor) locks.items) }
    ensures replayed { IfOk result (λ books. AreReplayed J.world books.items) }
{
    let mut books = Vec::with_capacity(alloc, locks.len())?;
    locks.reverse();
    while let Some(lock) = locks.pop() {
        let book = book_of(lock)?;
        books.push(book)?;
    }
    Ok(books)
}

// The book behind a lock. Nothing is known of what lies behind a lock but its type, so that it is this actor's is seen
// here. It always is.
fn book_of<J: Naming + Placing>(lock: Locked<J, WorldActor<J>>) -> Result<Book<J>, AllocError>
    ensures actor { IfOk result (λ b. b.actor ≡ lock.actor) }
    ensures replayed { IfOk result (λ b. IsReplayed J.world b.actor b.list) }
{
    let actor = lock.actor();
    let (_, book) = lock.into_parts();
    if !same_actor(book.actor(), actor) {
        return Err(AllocError);
    }
    Ok(book)
}
