//! At which conversations a caller recorded something.
ghost use Rattle.std.specs.Prelude.{◌≡◌, ℕ, ◌<◌, ◌++◌, ◌∷◌, [], List, IfOk, OnErr, OnOk};
ghost use Rattle.net_base.specs.declared.noted.Noted.{Noted};
ghost use Rattle.duties.specs.Marks.{AreAlike, Covers, forgot, is_marked_among, is_conversation, marks_noted};

use net_base::{ActorName, same_actor};
use std::alloc::{AllocError, Global};
use std::marker::Model;

/// The conversations at which a caller recorded something from a stamp on. Clauses see these, that stamp, one that none of
/// its entries at a conversation passes, and for how many more conversations there is room.
#[derive(Debug, Drop)]
pub struct Touched {
    actors: Vec<ActorName>,
    since: u64,
    last: u64,
}

impl Model for Touched {
    ghost use Rattle.std.specs.Prelude.{◌-◌, vec_capacity, vec_len};
    ghost use Rattle.duties.specs.Marks.{Marks};

    ghost Value = { Marks };

    ghost view = { λ t. record {
      actors = t.actors.items;
      since = t.since;
      last = t.last;
      room = vec_capacity t.actors - vec_len t.actors;
    } };
}

#[tactic(auto, using(crate::proofs::Covering::covers_other))]
impl Touched {
    /// Those of a caller that has recorded nothing. It takes no memory yet.
    pub fn new(alloc: Global) -> Touched
        ensures { Covers [] result }
    {
        Touched {
            actors: Vec::new(alloc),
            since: 0,
            last: 0,
        }
    }

    /// They, each once.
    pub fn actors(&self) -> &[ActorName]
        ensures { result.now ≡ self.now.actors }
    {
        self.actors.as_slice()
    }

    /// The stamp from which on.
    pub fn since(&self) -> u64
        ensures { result ≡ self.now.since }
    {
        self.since
    }

    /// Room for one more.
    pub fn reserve(&mut self) -> Result<(), AllocError>
        ensures same { AreAlike self.old self.new }
        ensures covers { (own : List (ℕ × Noted)) → Covers own self.old → Covers own self.new }
        ensures room { OnOk result (0 < self.new.room) }
        ensures err { OnErr result (self.old.room < 1) }
    {
        self.actors.reserve(1)
    }

    /// An entry of this stamp was recorded at an actor, which is noted where it's a conversation. It takes no memory.
    pub fn note(&mut self, actor: ActorName, stamp: u64)
        requires { 0 < self.old.room }
        ensures value { AreAlike (marks_noted actor stamp self.old) self.new }
        ensures covers { (own : List (ℕ × Noted)) (x : Noted) → Covers own self.old → x.entry.actor ≡ actor
            → Covers (own ++ (stamp, x) ∷ []) self.new }
    {
        if !is_conversation(actor) {
            return;
        }
        self.last = self.last.max(stamp);
        if self.has(actor) {
            return;
        }
        self.actors.push_reserved(actor);
    }

    /// All are forgotten, where none of the caller's entries at a conversation comes from this stamp on.
    pub fn forget(&mut self, at: u64)
        ensures value { AreAlike (forgot at self.old) self.new }
        ensures covers { (own : List (ℕ × Noted)) → Covers own self.old → Covers own self.new }
    {
        if self.last < at {
            self.actors.clear();
            self.since = at;
        }
    }

    /// A copy, which covers what this one does.
    pub fn copy(&self, alloc: Global) -> Result<Touched, AllocError>
        ensures same { IfOk result (AreAlike self.now) }
        ensures covers { (own : List (ℕ × Noted)) → Covers own self.now → IfOk result (Covers own) }
    {
        Ok(Touched {
            actors: Vec::from_slice(alloc, self.actors.as_slice())?,
            since: self.since,
            last: self.last,
        })
    }

    // Whether an actor is one of them.
    fn has(&self, actor: ActorName) -> bool
        ensures { result ≡ is_marked_among self.now.actors actor }
    {
        self.actors.iter().any(|one| same_actor(*one, actor))
    }
}

fn is_conversation(actor: ActorName) -> bool
    ensures { result ≡ is_conversation actor }
{
    matches!(actor, ActorName::Conv(_, _, _))
}
