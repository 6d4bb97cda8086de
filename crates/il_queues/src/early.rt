//! The messages that came before their turn.
ghost use Rattle.std.specs.Prelude.{◌≡◌, ◌==◌, ◌<◌, ◌≤◌, ◌↔◌, [], ◌∷◌, length, is_some, IsTrue, IsErr, OnOk, IfErr, IfSome, IfNone};
ghost use Rattle.std.specs.List.{position_from};
ghost use Rattle.il_queues.specs.Slots as spec;
ghost use Rattle.il_queues.specs.Slots.{has_number, text_in, IsAtSlot, IsNowhere};

use arrayvec::ArrayVec;
use net_base::Octets;
use std::marker::Model;

/// How many messages may be early: the window of the other end.
pub const MOST_EARLY: usize = 20;

/// A message with its number.
#[derive(Debug, Drop)]
struct Numbered {
    number: u64,
    text: Octets,
}

/// The early messages of an end, which lie in the value itself. Clauses see a list of numbers and texts, latest first.
#[derive(Drop)]
pub struct Early {
    slots: ArrayVec<Option<Numbered>, MOST_EARLY>,
}

impl Model for Early {
    ghost use Rattle.std.specs.Prelude.{◌≡◌, List, length};
    ghost use Rattle.il_queues.specs.Slots.{messages_in};
    ghost use Rattle.net_base.specs.IlEnd.{Early as Numbers};

    ghost Value = { List Numbers };

    ghost view = { λ e. messages_in e.slots.items };

    // each slot that is in use holds a message
    ghost invariant = { λ e. length (messages_in e.slots.items) ≡ length e.slots.items };
}

impl Early {
    ghost use Rattle.net_base.specs.IlEnd.{early_at, without_early};

    /// No messages.
    pub fn new() -> Early
        ensures { result ≡ [] }
    {
        Early {
            slots: ArrayVec::new(),
        }
    }

    /// How many messages there are.
    pub fn len(&self) -> usize
        ensures len { result ≡ length self.now }
        ensures within { result ≤ 20 }
    {
        self.slots.len()
    }

    /// Whether the message with this number is there.
    pub fn contains(&self, k: u64) -> bool
        ensures { result ≡ is_some (early_at k self.now) }
    {
        match place_of(self.slots.as_slice(), k) {
            Some(_) => true,
            None => false,
        }
    }

    /// Keeps a message, or hands it back where one with its number is there.
    pub fn put(&mut self, k: u64, text: Octets) -> Result<(), Octets>
        requires { length self.old < 20 }
        ensures there { IsErr result ↔ IsTrue (is_some (early_at k self.old)) }
        ensures ok { OnOk result (self.new ≡ record { number = k; text = text } ∷ self.old) }
        ensures back { IfErr result (λ back. (back ≡ text) × (self.new ≡ self.old)) }
    {
        if self.contains(k) {
            return Err(text);
        }
        self.slots.insert(0, Some(Numbered { number: k, text }));
        Ok(())
    }

    /// Gives out the message with this number, if it is there.
    pub fn take(&mut self, k: u64) -> Option<Octets>
        ensures value { result ≡ early_at k self.old }
        ensures rest { self.new ≡ without_early k self.old }
    {
        match place_of(self.slots.as_slice(), k) {
            Some(place) => text_of(self.slots.remove(place)),
            None => None,
        }
    }
}

// Where the message with this number stands.
#[tactic(auto, using(crate::proofs::Places::is_at, crate::proofs::Places::is_nowhere))]
fn place_of(slots: &[Option<Numbered>], k: u64) -> Option<usize>
    ensures found { IfSome result (IsAtSlot k slots.now) }
    ensures none { IfNone result (IsNowhere k slots.now) }
{
    position_of(slots, k)
}

fn position_of(slots: &[Option<Numbered>], k: u64) -> Option<usize>
    ensures { result ≡ position_from (has_number k) 0 slots.now }
{
    slots.iter().position(|slot| has_number(slot, k))
}

fn has_number(slot: &Option<Numbered>, k: u64) -> bool
    ensures { result ≡ spec.has_number k slot.now }
{
    match slot {
        Some(message) => message.number == k,
        None => false,
    }
}

// The text in a slot.
fn text_of(slot: Option<Numbered>) -> Option<Octets>
    ensures { result ≡ text_in slot }
{
    match slot {
        Some(message) => Some(message.text),
        None => None,
    }
}
