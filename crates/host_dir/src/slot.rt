//! A slot.
ghost use Rattle.std.specs.Prelude.{◌≡◌, ◌<◌, ℕ, [], ◌∷◌, ◌++◌, drop, length, slice_get, is_some, Some, IfOk};
ghost use Rattle.net_base.specs.declared.il.StateName.TheVariants as state_name;
ghost use Rattle.net_base.specs.Directory as spec;
ghost use Rattle.net_base.specs.Directory.{Dir as AnyDir, slot_listens, free_slot, is_slot_bound, is_free, is_keyed, is_live_with};

use listen_queue::CallQueue;
use net_base::{Call, Pair, StateName};
use std::alloc::{AllocError, Global};
use std::marker::Model;

/// What a slot announces: any address or one, and any port or one.
#[derive(Clone, Copy)]
pub struct Key {
    pub ip: Option<u32>,
    pub port: Option<u16>,
}

impl Model for Key {
    ghost use Rattle.net_base.specs.Directory.{Key as AnyKey};

    ghost Value = { AnyKey };

    ghost view = { λ k. record { ip = k.ip; port = k.port } };

    ghost inverse = { λ k. record { ip = k.ip; port = k.port } };
}

impl Key {
    /// Whether both name the same.
    fn is(self, other: Key) -> bool
        ensures { result ≡ spec.same_key self other }
    {
        self.ip == other.ip && self.port == other.port
    }
}

/// A slot. Its generation counts how often it was taken.
#[derive(Drop)]
pub struct Slot {
    kind: StateName,
    generation: u64,
    bound: Option<u16>,
    key: Option<Key>,
    pair: Option<Pair>,
    calls: CallQueue,
}

impl Model for Slot {
    ghost use Rattle.net_base.specs.Directory.{Slot as AnySlot};

    ghost Value = { AnySlot };

    ghost view = { λ s. record {
      kind = s.kind;
      generation = s.generation;
      bound = s.bound;
      key = s.key;
      pair = s.pair;
      calls = s.calls;
    } };
}

impl Slot {
    /// A slot that was never taken, with room for its calls.
    pub fn new(alloc: Global) -> Result<Slot, AllocError>
        ensures { IfOk result (λ s. s ≡ free_slot) }
    {
        Ok(Slot {
            kind: StateName::Free,
            generation: 0,
            bound: None,
            key: None,
            pair: None,
            calls: CallQueue::new(alloc)?,
        })
    }

    /// What it is for.
    pub fn kind(&self) -> StateName
        ensures { result ≡ self.now.kind }
    {
        self.kind
    }

    /// How often it was taken.
    pub fn generation(&self) -> u64
        ensures { result ≡ self.now.generation }
    {
        self.generation
    }

    /// The port that it is bound to.
    pub fn bound(&self) -> Option<u16>
        ensures { result ≡ self.now.bound }
    {
        self.bound
    }

    /// The calls that wait.
    pub fn calls(&self) -> &CallQueue
        ensures { result.now ≡ self.now.calls }
    {
        &self.calls
    }

    /// Whether a listen has an answer at it.
    pub fn hears(&self) -> bool
        ensures { (n : ℕ) (d : AnyDir) → result ≡ is_some (slot_listens (Some self.now) n d) }
    {
        self.kind != StateName::Announced || self.calls.first().is_some()
    }

    /// Whether it is free.
    pub fn is_free(&self) -> bool
        ensures { result ≡ is_free self.now }
    {
        self.kind == StateName::Free
    }

    /// Whether it is Reserved.
    pub fn is_reserved(&self) -> bool
        ensures { result ≡ spec.is_reserved self.now.kind }
    {
        self.kind == StateName::Reserved
    }

    /// Whether it announces this.
    pub fn announces(&self, key: Key) -> bool
        ensures { result ≡ is_keyed key self.now }
    {
        match self.key {
            Some(own) => self.kind == StateName::Announced && key.is(own),
            None => false,
        }
    }

    /// Whether it is taken and bound to the port.
    pub fn is_bound(&self, port: u16) -> bool
        ensures { result ≡ is_slot_bound port self.now }
    {
        !self.is_free() && self.bound == Some(port)
    }

    /// Whether it is taken and has the pair.
    pub fn is_live_with(&self, pair: Pair) -> bool
        ensures { result ≡ is_live_with pair self.now }
    {
        match self.pair {
            Some(own) => !self.is_free() && pair == own,
            None => false,
        }
    }

    /// Empties it for what it is to be, in this generation.
    fn begin(&mut self, kind: StateName, generation: u64, pair: Option<Pair>)
        ensures { self.new ≡ record free_slot { kind = kind; generation = generation; pair = pair } }
    {
        self.kind = kind;
        self.generation = generation;
        self.bound = None;
        self.key = None;
        self.pair = pair;
        self.calls.clear();
    }

    /// It is Reserved, in this generation.
    pub fn reserve(&mut self, generation: u64)
        ensures { self.new ≡ record free_slot { kind = state_name.Reserved; generation = generation } }
    {
        self.begin(StateName::Reserved, generation, None);
    }

    /// It is Granted with the pair of a birth, in this generation.
    pub fn bear(&mut self, generation: u64, pair: Pair)
        ensures { self.new ≡ record free_slot { kind = state_name.Granted; generation = generation; pair = Some pair } }
    {
        self.begin(StateName::Granted, generation, Some(pair));
    }

    /// It is Free.
    pub fn release(&mut self)
        ensures { self.new ≡ record free_slot { generation = self.old.generation } }
    {
        let generation = self.generation;
        self.begin(StateName::Free, generation, None);
    }

    /// It is Granted with the pair.
    pub fn grant(&mut self, pair: Pair)
        ensures { self.new ≡ record self.old { kind = state_name.Granted; pair = Some pair } }
    {
        self.kind = StateName::Granted;
        self.pair = Some(pair);
    }

    /// It is Announced.
    pub fn announce(&mut self, key: Key)
        ensures { self.new ≡ record self.old { kind = state_name.Announced; key = Some key } }
    {
        self.kind = StateName::Announced;
        self.key = Some(key);
    }

    /// It is bound to the port.
    pub fn bind(&mut self, port: u16)
        ensures { self.new ≡ record self.old { bound = Some port } }
    {
        self.bound = Some(port);
    }

    /// A call waits at it, where fewer than 10 do.
    pub fn queue(&mut self, call: Call)
        requires { length self.old.calls < 10 }
        ensures { self.new ≡ record self.old { calls = self.old.calls ++ call ∷ [] } }
    {
        // there is room for it
        let _ = self.calls.queue(call);
    }

    /// Takes the oldest call.
    pub fn take_call(&mut self) -> Option<Call>
        ensures value { result ≡ slice_get self.old.calls 0 }
        ensures rest { self.new ≡ record self.old { calls = drop 1 self.old.calls } }
    {
        self.calls.take()
    }

    /// It is Withdrawn, and its calls are sent away.
    pub fn withdraw(&mut self)
        ensures { self.new ≡ record self.old { kind = state_name.Withdrawn; calls = [] } }
    {
        self.kind = StateName::Withdrawn;
        self.calls.clear();
    }
}
