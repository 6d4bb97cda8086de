//! The replies to a caller's own events.
ghost use Rattle.std.specs.Prelude.{◌≡◌, ◌==◌, ◌&&◌, ◌∷◌, [], MatchOption, drop, length, is_none};
ghost use Rattle.net_base.specs.Next.{own_replies};
ghost use Rattle.session_answers.specs.Served.{answered_of};

use net_base::{Entries, Entry, Reply};
use std::marker::Model;

/// The replies to a caller's own events that are left, but for the last one where the caller owes something.
#[derive(Drop)]
pub struct Replies<'a, E: Entries> {
    entries: &'a E,
    caller: u32,
    // the stamp from which entries weren't looked at
    next: usize,
    left: usize,
}

impl<'a, E: Entries> Model for Replies<'a, E> {
    ghost use Rattle.std.specs.Prelude.{List, drop, take};
    ghost use Rattle.net_base.specs.declared.reply.Reply.{Reply};
    ghost use Rattle.net_base.specs.Next.{own_replies};

    ghost Value = { List Reply };

    ghost view = { λ r. take r.left (own_replies (drop r.next (E.list r.entries.now)) r.caller) };
}

impl<'a, E: Entries> Replies<'a, E> {
    /// Those of a whole history.
    pub fn new(entries: &'a E, caller: u32, owes: bool) -> Replies<'a, E>
        ensures { result ≡ answered_of owes (E.list entries.now) caller }
    {
        let count = own_count(entries, caller);
        let left = if owes { count.saturating_sub(1) } else { count };
        Replies {
            entries,
            caller,
            next: 0,
            left,
        }
    }

    /// The next one.
    pub fn next(&mut self) -> Option<&'a Reply>
        ensures { MatchOption result (self.old ≡ []) (λ reply. self.old ≡ reply.now ∷ self.new) }
    {
        if self.left == 0 {
            return None;
        }
        let (reply, next) = next_own(self.entries, self.caller, self.next)?;
        self.next = next;
        self.left -= 1;
        Some(reply)
    }
}

// Whether nothing owed the entry, which is the caller's.
fn is_own(entry: &Entry, caller: u32) -> bool
    ensures { result ≡ ((entry.now.caller == caller) && is_none entry.now.cites) }
{
    entry.caller == caller && entry.cites.is_none()
}

#[tactic(auto, using(crate::proofs::OwnReplies::own_at, crate::proofs::OwnReplies::other_at, crate::proofs::OwnReplies::none_behind))]
fn own_count<E: Entries>(entries: &E, caller: u32) -> usize
    ensures { result ≡ length (own_replies (E.list entries.now) caller) }
{
    let mut count = 0;
    for stamp in 0..entries.count() {
        if is_own(entries.entry(stamp), caller) {
            count += 1;
        }
    }
    count
}

// The reply to the first of a caller's own entries from a stamp on, and the stamp behind it.
#[tactic(auto, using(crate::proofs::OwnReplies::own_at, crate::proofs::OwnReplies::other_at, crate::proofs::OwnReplies::none_behind))]
fn next_own<E: Entries>(entries: &E, caller: u32, first: usize) -> Option<(&Reply, usize)>
    ensures { MatchOption result (own_replies (drop first (E.list entries.entry.now)) caller ≡ [])
        (λ x. own_replies (drop first (E.list entries.entry.now)) caller
        ≡ x.0.now ∷ own_replies (drop x.1 (E.list entries.entry.now)) caller) }
{
    for stamp in first..entries.count() {
        let entry = entries.entry(stamp);
        if is_own(entry, caller) {
            return Some((&entry.reply, stamp + 1));
        }
    }
    None
}
