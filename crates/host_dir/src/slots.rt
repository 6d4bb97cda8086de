//! The slots of a directory, and the pairs that were given to them.
ghost use Rattle.std.specs.Prelude.{◌≡◌, ◌≢◌, ◌<◌, ◌+◌, [], ◌∷◌, ◌++◌, drop, length, replicate, nat_lt, slice_get, slice_set, is_some, false, None, Some, IfOk, IfSome, OnOk, OnErr};
ghost use Rattle.std.specs.List.{position_from};
ghost use Rattle.std.specs.Map.{lookup};
ghost use Rattle.std.specs.Option.{option_map_or};
ghost use Rattle.net_base.specs.declared.il.StateName.TheVariants as state_name;
ghost use Rattle.net_base.specs.Actors.{slot_count};
ghost use Rattle.net_base.specs.Directory.{Dir as AnyDir, first_slot, free_slot, is_slot_bound, is_free, is_keyed, is_live_with, slot_listens, match_of, pair_place};
ghost use Rattle.host_dir.specs.Found.{found_at, slot_at};
ghost use Rattle.net_base.specs.Same.{same_pair};
ghost use Rattle.host_dir.specs.Tables.{IsIndexed, kept_pair};

use crate::slot::{Key, Slot};
use indexmap::IndexMap;
use net_base::{Addr, Call, Pair, StateName};
use std::alloc::{AllocError, Global};
use std::marker::Model;

/// How many slots a directory has.
const SLOTS: usize = 32;

/// A pair as a key of a map.
#[derive(Clone, Copy, Debug, PartialEq, Eq, Hash)]
struct Ends {
    local_ip: u32,
    local_port: u16,
    remote_ip: u32,
    remote_port: u16,
}

/// The key of a pair.
fn ends_of(pair: Pair) -> Ends
    ensures { kept_pair result ≡ pair }
{
    Ends {
        local_ip: pair.local.ip,
        local_port: pair.local.port,
        remote_ip: pair.remote.ip,
        remote_port: pair.remote.port,
    }
}

/// The numbers of the slot that a birth takes and of the one that announces.
#[derive(Clone, Copy, Debug, PartialEq, Eq)]
pub struct TakerAt {
    pub free: u32,
    pub listener: u32,
}

/// Where the first slot stands that is free.
fn free_position(slots: &[Slot]) -> Option<usize>
    ensures within { IfSome result (λ n. n < length slots.now) }
    ensures value { result ≡ position_from is_free 0 slots.now }
{
    slots.iter().position(|slot| slot.is_free())
}

/// The number of that slot.
#[tactic(auto, using(crate::proofs::Firsts::first_was))]
fn free_place(slots: &[Slot]) -> Option<u32>
    requires { length slots.now ≡ 32 }
    ensures within { IfSome result (λ n. n < length slots.now) }
    ensures value { first_slot is_free 0 slots.now ≡ found_at slots.now result }
{
    match free_position(slots) {
        Some(n) => Some(n as u32),
        None => None,
    }
}

/// Where the first slot stands that announces this.
fn keyed_position(slots: &[Slot], key: Key) -> Option<usize>
    ensures within { IfSome result (λ n. n < length slots.now) }
    ensures value { result ≡ position_from (is_keyed key) 0 slots.now }
{
    slots.iter().position(|slot| slot.announces(key))
}

/// The number of that slot.
#[tactic(auto, using(crate::proofs::Firsts::first_was))]
fn keyed_place(slots: &[Slot], key: Key) -> Option<u32>
    requires { length slots.now ≡ 32 }
    ensures within { IfSome result (λ n. n < length slots.now) }
    ensures value { first_slot (is_keyed key) 0 slots.now ≡ found_at slots.now result }
{
    match keyed_position(slots, key) {
        Some(n) => Some(n as u32),
        None => None,
    }
}

/// Where the first slot stands that is bound to the port.
fn bound_position(slots: &[Slot], port: u16) -> Option<usize>
    ensures within { IfSome result (λ n. n < length slots.now) }
    ensures value { result ≡ position_from (is_slot_bound port) 0 slots.now }
{
    slots.iter().position(|slot| slot.is_bound(port))
}

/// The number of that slot.
#[tactic(auto, using(crate::proofs::Firsts::first_was))]
fn bound_place(slots: &[Slot], port: u16) -> Option<u32>
    requires { length slots.now ≡ 32 }
    ensures within { IfSome result (λ n. n < length slots.now) }
    ensures value { first_slot (is_slot_bound port) 0 slots.now ≡ found_at slots.now result }
{
    match bound_position(slots, port) {
        Some(n) => Some(n as u32),
        None => None,
    }
}

/// The number of the slot that the pair was given to.
fn given_to(given: &IndexMap<Ends, u32>, pair: Pair) -> Option<u32>
    ensures { result ≡ lookup (λ e. same_pair pair (kept_pair e)) given.now.entries }
{
    given.get(&ends_of(pair)).copied()
}

/// Whether the slot of this number, if there is one, is live with the pair.
fn is_live_at(slots: &[Slot], n: u32, pair: Pair) -> bool
    ensures { result ≡ option_map_or (is_live_with pair) (slice_get slots.now n) false }
{
    match slots.get(n as usize) {
        Some(slot) => slot.is_live_with(pair),
        None => false,
    }
}

/// Where the live slot with the pair stands.
#[tactic(auto, using(crate::proofs::Index::none_live, crate::proofs::Index::live_at, crate::proofs::Index::not_live, crate::proofs::Index::live_within))]
fn live_place(slots: &[Slot], given: &IndexMap<Ends, u32>, pair: Pair) -> Option<u32>
    requires { IsIndexed slots.now given.now.entries }
    ensures within { IfSome result (λ n. n < length slots.now) }
    ensures value { first_slot (is_live_with pair) 0 slots.now ≡ found_at slots.now result }
{
    match given_to(given, pair) {
        Some(n) => {
            if is_live_at(slots, n, pair) {
                Some(n)
            } else {
                None
            }
        }
        None => None,
    }
}

/// The slots, which are 32, and all pairs that were granted or born, with the slot of each.
///
/// Clauses see the slots by number, and the pairs in order.
#[derive(Drop)]
pub struct Slots {
    slots: Vec<Slot>,
    given: IndexMap<Ends, u32>,
}

impl Model for Slots {
    ghost use Rattle.std.specs.Prelude.{◌≡◌, length};
    ghost use Rattle.host_dir.specs.Tables.{IsIndexed, Tables, kept_pairs};

    ghost Value = { Tables };

    ghost view = { λ s. record { slots = s.slots.items; pairs = kept_pairs s.given.entries } };

    ghost invariant = { λ s. (length s.slots.items ≡ 32) × IsIndexed s.slots.items s.given.entries };
}

/// Slots that were never taken.
fn fresh_slots(alloc: Global) -> Result<Vec<Slot>, AllocError>
    ensures { IfOk result (λ slots. slots.items ≡ replicate slot_count free_slot) }
{
    let mut slots = Vec::new(alloc);
    for _ in 0..SLOTS {
        let slot = Slot::new(alloc)?;
        slots.push(slot)?;
    }
    Ok(slots)
}

impl Slots {
    /// Slots that were never taken, and no pairs.
    pub fn new(alloc: Global) -> Result<Slots, AllocError>
        ensures { IfOk result (λ s. s ≡ record { slots = replicate slot_count free_slot; pairs = [] }) }
    {
        Ok(Slots {
            slots: fresh_slots(alloc)?,
            given: IndexMap::new(alloc),
        })
    }

    /// All slots, in order.
    pub fn all(&self) -> &[Slot]
        ensures { result.now ≡ self.now.slots }
    {
        &self.slots
    }

    /// How many pairs there are.
    pub fn pairs(&self) -> usize
        ensures { result ≡ length self.now.pairs }
    {
        self.given.len()
    }

    /// Whether there is a slot of this number.
    pub fn has(&self, n: u32) -> bool
        ensures { result ≡ nat_lt n (length self.now.slots) }
    {
        (n as usize) < self.slots.len()
    }

    /// Whether a listen at the slot has an answer: there is the slot, and it doesn't announce or a call waits.
    pub fn hears(&self, n: u32) -> bool
        ensures { (d : AnyDir) → result ≡ is_some (slot_listens (slice_get self.now.slots n) n d) }
    {
        match self.slots.get(n as usize) {
            Some(slot) => slot.hears(),
            None => false,
        }
    }

    /// The slot of this number.
    pub fn at(&self, n: u32) -> &Slot
        requires { n < length self.now.slots }
        ensures value { result.now ≡ slot_at self.now.slots n }
        ensures found { slice_get self.now.slots n ≡ Some (slot_at self.now.slots n) }
    {
        &self.slots[n as usize]
    }

    /// The lowest free slot.
    pub fn first_free(&self) -> Option<u32>
        ensures within { IfSome result (λ n. n < length self.now.slots) }
        ensures value { first_slot is_free 0 self.now.slots ≡ found_at self.now.slots result }
    {
        free_place(&self.slots)
    }

    /// The first slot that announces this.
    pub fn announcing(&self, key: Key) -> Option<u32>
        ensures within { IfSome result (λ n. n < length self.now.slots) }
        ensures value { first_slot (is_keyed key) 0 self.now.slots ≡ found_at self.now.slots result }
    {
        keyed_place(&self.slots, key)
    }

    /// The first slot that is bound to the port.
    pub fn bound_to(&self, port: u16) -> Option<u32>
        ensures within { IfSome result (λ n. n < length self.now.slots) }
        ensures value { first_slot (is_slot_bound port) 0 self.now.slots ≡ found_at self.now.slots result }
    {
        bound_place(&self.slots, port)
    }

    /// The slot that announces an address: by address and port, else by `*` and the port, else by `*` alone.
    pub fn listener(&self, address: Addr) -> Option<u32>
        ensures within { IfSome result (λ n. n < length self.now.slots) }
        ensures value { match_of address self.now.slots ≡ found_at self.now.slots result }
    {
        let exactly = Key {
            ip: Some(address.ip),
            port: Some(address.port),
        };
        if let Some(n) = self.announcing(exactly) {
            return Some(n);
        }
        let by_port = Key {
            ip: None,
            port: Some(address.port),
        };
        if let Some(n) = self.announcing(by_port) {
            return Some(n);
        }
        self.announcing(Key {
            ip: None,
            port: None,
        })
    }

    /// The live slot that has the pair.
    pub fn with_pair(&self, pair: Pair) -> Option<u32>
        ensures within { IfSome result (λ n. n < length self.now.slots) }
        ensures value { first_slot (is_live_with pair) 0 self.now.slots ≡ found_at self.now.slots result }
    {
        live_place(&self.slots, &self.given, pair)
    }

    /// The number of a pair among those that were granted or born, from 1.
    pub fn number_of(&self, pair: Pair) -> Option<u64>
        ensures { result ≡ pair_place pair 1 self.now.pairs }
    {
        let ends = ends_of(pair);
        let place = self.given.get_index_of(&ends)?;
        prove!(place < self.given.len());
        Some(place as u64 + 1)
    }

    /// The slot is Reserved, in this generation.
    pub fn reserve(&mut self, n: u32, generation: u64)
        requires { n < length self.old.slots }
        ensures { self.new ≡ record self.old {
          slots =
              slice_set self.old.slots n (record free_slot { kind = state_name.Reserved; generation = generation });
        } }
    {
        let slot = &mut self.slots[n as usize];
        slot.reserve(generation);
    }

    /// The slot is Free.
    pub fn release(&mut self, n: u32)
        requires { n < length self.old.slots }
        ensures { self.new ≡ record self.old {
          slots =
              slice_set self.old.slots n (record free_slot { generation = (slot_at self.old.slots n).generation });
        } }
    {
        let slot = &mut self.slots[n as usize];
        slot.release();
    }

    /// The slot is Announced.
    pub fn announce(&mut self, n: u32, key: Key)
        requires { n < length self.old.slots }
        ensures { self.new ≡ record self.old {
          slots =
              slice_set self.old.slots n (record (slot_at self.old.slots n) {
                kind = state_name.Announced;
                key = Some key;
              });
        } }
    {
        let slot = &mut self.slots[n as usize];
        slot.announce(key);
    }

    /// The slot is bound to the port.
    pub fn bind(&mut self, n: u32, port: u16)
        requires { n < length self.old.slots }
        ensures { self.new ≡ record self.old {
          slots = slice_set self.old.slots n (record
              (slot_at self.old.slots n) { bound = Some port });
        } }
    {
        let slot = &mut self.slots[n as usize];
        slot.bind(port);
    }

    /// Takes the oldest call of the slot.
    pub fn take_call(&mut self, n: u32) -> Option<Call>
        requires { n < length self.old.slots }
        ensures value { result ≡ slice_get (slot_at self.old.slots n).calls 0 }
        ensures rest { self.new ≡ record self.old {
          slots =
              slice_set self.old.slots n (record (slot_at self.old.slots n)
              { calls = drop 1 (slot_at self.old.slots n).calls });
        } }
    {
        let slot = &mut self.slots[n as usize];
        slot.take_call()
    }

    /// The slot is Withdrawn.
    pub fn withdraw(&mut self, n: u32)
        requires { n < length self.old.slots }
        ensures { self.new ≡ record self.old {
          slots =
              slice_set self.old.slots n (record (slot_at self.old.slots n) {
                kind = state_name.Withdrawn;
                calls = [];
              });
        } }
    {
        let slot = &mut self.slots[n as usize];
        slot.withdraw();
    }

    /// Gives the slot a pair that wasn't granted or born before.
    pub fn give(&mut self, n: u32, pair: Pair) -> Result<(), AllocError>
        requires within { n < length self.old.slots }
        requires new { pair_place pair 1 self.old.pairs ≡ None }
        ensures ok { OnOk result (self.new ≡ record {
          slots = slice_set self.old.slots n (record (slot_at self.old.slots n) {
            kind = state_name.Granted;
            pair = Some pair;
          });
          pairs = self.old.pairs ++ pair ∷ [];
        }) }
        ensures err { OnErr result (self.new ≡ self.old) }
    {
        self.given.insert(ends_of(pair), n)?;
        let slot = &mut self.slots[n as usize];
        slot.grant(pair);
        Ok(())
    }

    /// Bears a conversation with a pair that wasn't granted or born before, whose call waits at the listener.
    pub fn bear(&mut self, at: TakerAt, generation: u64, pair: Pair) -> Result<(), AllocError>
        requires within { (at.free < length self.old.slots) × (at.listener < length self.old.slots) }
        requires apart { at.free ≢ at.listener }
        requires room { length (slot_at self.old.slots at.listener).calls < 10 }
        requires new { pair_place pair 1 self.old.pairs ≡ None }
        ensures ok { OnOk result (self.new ≡ record {
          slots = slice_set
              (slice_set self.old.slots at.free (record free_slot {
                kind = state_name.Granted;
                generation = generation;
                pair = Some pair;
              }))
              at.listener
              (record (slot_at self.old.slots at.listener) {
                calls = (slot_at self.old.slots at.listener).calls ++ record {
                  slot = at.free;
                  generation = generation;
                } ∷ [];
              });
          pairs = self.old.pairs ++ pair ∷ [];
        }) }
        ensures err { OnErr result (self.new ≡ self.old) }
    {
        self.given.insert(ends_of(pair), at.free)?;
        let born = &mut self.slots[at.free as usize];
        born.bear(generation, pair);
        let listener = &mut self.slots[at.listener as usize];
        listener.queue(Call {
            slot: at.free,
            generation,
        });
        Ok(())
    }
}
