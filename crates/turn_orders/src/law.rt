//! Theorems about the turns of a legal and timed history.
ghost use Rattle.std.specs.Prelude.{◌≡◌, ◌≤◌, ◌<◌, ◌+◌, ◌-◌, ◌∷◌, ◌++◌, List, [], ℕ, Some, is_some, length, true, false};
ghost use Rattle.net_base.specs.declared.history.Entry.{Entry};
ghost use Rattle.net_base.specs.declared.world.World.{World};
ghost use Rattle.net_base.specs.Actors.{actor_step};
ghost use Rattle.net_base.specs.Callers.{caller_count, clock_number};
ghost use Rattle.net_base.specs.Calm.{can_go_on, movable};
ghost use Rattle.net_base.specs.Duties.{Duty};
ghost use Rattle.net_base.specs.Legal.{IsInTime, IsLegal, IsTimed, MayFollow};
ghost use Rattle.net_base.specs.Net.{Net, after};
ghost use Rattle.net_base.specs.Stamped.{In};
ghost use Rattle.net_base.specs.World.{IsWorld};
ghost use Rattle.turn_orders.specs.Orders.{too_many};
ghost use Rattle.turn_orders.specs.Paths.{left};
ghost use Rattle.turn_orders.specs.Preemptions.{cost, last_caller, preemptions};
ghost use Rattle.turn_orders.specs.Turns.{callers_of, comes, goes, next_entry, with_turn, with_turns};

/// Proves that an entry that can come next, and in time, is the entry of its caller's turn. Its caller can continue.
pub fn entries_are_turns()
    ensures next { (w : World) (h : List Entry) (x : Entry) → MayFollow w h x → IsInTime (after w h) w x.event
        → next_entry w (after w h) x.caller ≡ Some x }
    ensures grows { (w : World) (h : List Entry) (x : Entry) → MayFollow w h x → IsInTime (after w h) w x.event
        → with_turn w h x.caller ≡ h ++ x ∷ [] }
    ensures comes { (w : World) (h : List Entry) (x : Entry) → MayFollow w h x → IsInTime (after w h) w x.event
        → In x.caller (comes w h) }
{}

/// Proves that the entry of each caller that can continue can come next, and in time, after a legal history of a world.
pub fn turns_follow()
    ensures { (w : World) (h : List Entry) (c : ℕ) → IsWorld w → IsLegal w h → In c (comes w h)
        → (x : Entry) × (next_entry w (after w h) c ≡ Some x) × (x.caller ≡ c) × MayFollow w h x
        × IsInTime (after w h) w x.event }
{}

/// Proves which callers can continue: those of the world with room and a turn that is ready. If the clock can move, no other
/// caller can continue.
pub fn callers_that_come()
    ensures only { (w : World) (h : List Entry) (c : ℕ) → In c (comes w h)
        → (c < caller_count w) × (goes w (after w h) c ≡ true) }
    ensures these { (w : World) (h : List Entry) (c : ℕ) → c < caller_count w → goes w (after w h) c ≡ true
        → In c (comes w h) }
    ensures clock_alone { (w : World) (h : List Entry) (c : ℕ) → movable w (after w h) ≡ true → In c (comes w h)
        → c ≡ clock_number w }
{}

/// Proves when a turn is ready: if the caller's first follow-up event is. Without a follow-up event its next event must be
/// ready, or the clock able to move.
pub fn turns_are_ready()
    ensures duty { (w : World) (net : Net) (c : ℕ) (d : Duty) (ds : List Duty) → net.owed c ≡ d ∷ ds
        → is_some (next_entry w net c) ≡ is_some (actor_step w d.actor (net.actors d.actor) net.moment
        (record { event = d.event; with = d.with })) }
    ensures own { (w : World) (net : Net) (c : ℕ) → net.owed c ≡ [] → c < clock_number w
        → is_some (next_entry w net c) ≡ can_go_on w net c }
    ensures clock { (w : World) (h : List Entry) → (after w h).owed (clock_number w) ≡ []
        → is_some (next_entry w (after w h) (clock_number w)) ≡ movable w (after w h) }
{}

/// Proves that the list of its callers determines a legal and timed history.
pub fn a_history_is_its_callers()
    ensures turns { (w : World) (h : List Entry) → IsLegal w h → IsTimed w h → with_turns w [] (callers_of h) ≡ h }
    ensures same { (w : World) (h k : List Entry) → IsLegal w h → IsTimed w h → IsLegal w k → IsTimed w k
        → callers_of h ≡ callers_of k → h ≡ k }
{}

/// Proves that each entry adds its cost to the preemptions of a history. A beginning has no more preemptions than the whole.
pub fn preemptions_grow()
    ensures entry { (w : World) (h : List Entry) (x : Entry)
        → preemptions w (h ++ x ∷ []) ≡ preemptions w h + cost w h x.caller }
    ensures last { (h : List Entry) (x : Entry) → last_caller (h ++ x ∷ []) ≡ Some x.caller }
    ensures beginning { (w : World) (h more : List Entry) → preemptions w h ≤ preemptions w (h ++ more) }
    ensures left { (w : World) (p : ℕ) (h : List Entry) → IsLegal w h → IsTimed w h → preemptions w h ≤ p
        → left w p (callers_of h) ≡ p - preemptions w h }
{}

/// Proves that a turn costs one preemption if the last caller can continue and is another caller. Otherwise it costs none.
pub fn costs_are()
    ensures within { (w : World) (h : List Entry) (c : ℕ) → cost w h c ≤ 1 }
    ensures first { (w : World) (c : ℕ) → cost w [] c ≡ 0 }
    ensures same { (w : World) (h : List Entry) (c : ℕ) → last_caller h ≡ Some c → cost w h c ≡ 0 }
    ensures waits { (w : World) (h : List Entry) (last c : ℕ) → last_caller h ≡ Some last
        → goes w (after w h) last ≡ false → cost w h c ≡ 0 }
    ensures early { (w : World) (h : List Entry) (last c : ℕ) → last_caller h ≡ Some last → (last ≡ c → ⊥)
        → goes w (after w h) last ≡ true → cost w h c ≡ 1 }
{}

/// Proves that a legal history of a world has fewer than 2,147,483,648 entries.
pub fn histories_are_short()
    ensures { (w : World) (h : List Entry) → IsWorld w → IsLegal w h → length h < too_many }
{}
