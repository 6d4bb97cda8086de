//! Theorems about the list of histories, and about the outcomes that a search reports of it.
ghost use Rattle.std.specs.Prelude.{◌≡◌, ◌≤◌, ◌+◌, ◌++◌, ℕ, List, AllPairs, false, length, take};
ghost use Rattle.net_base.specs.declared.history.Entry.{Entry};
ghost use Rattle.net_base.specs.declared.world.World.{World};
ghost use Rattle.net_base.specs.Legal.{IsLegal, IsTimed};
ghost use Rattle.net_base.specs.Stamped.{In};
ghost use Rattle.net_base.specs.World.{IsWorld};
ghost use Rattle.turn_orders.specs.Orders.{ComesBefore, Told, first_told, histories, histories_with, refuses_with, told_onto};
ghost use Rattle.turn_orders.specs.Preemptions.{IsWithin, preemptions};
ghost use Rattle.turn_orders.specs.Results.{outcome_of};
ghost use Rattle.turn_orders.specs.Turns.{IsEnded};

/// Proves that the list has exactly the legal, timed and ended histories with at most p preemptions.
pub fn histories_are_listed()
    ensures all { (w : World) (p : ℕ) (h : List Entry) → IsWorld w → IsWithin w p h → In h (histories w p) }
    ensures only { (w : World) (p : ℕ) (h : List Entry) → IsWorld w → In h (histories w p) → IsWithin w p h }
{}

/// Proves the order of the list: by the number of preemptions, and then by the lists of callers. No history comes twice.
pub fn histories_are_in_order()
    ensures order { (w : World) (p : ℕ) → IsWorld w → AllPairs (ComesBefore w) (histories w p) }
    ensures once { (w : World) (h : List Entry) → ComesBefore w h h → ⊥ }
{}

/// Proves that the witness of a reported outcome is legal, timed and ended, and has that outcome and that number of
/// preemptions.
pub fn what_is_told_is_sound()
    ensures within { (w : World) (p n : ℕ) (t : Told) → IsWorld w → In t (first_told w (take n (histories w p)))
        → IsWithin w p t.witness }
    ensures outcome { (w : World) (p n : ℕ) (t : Told) → IsWorld w → In t (first_told w (take n (histories w p)))
        → t.outcome ≡ outcome_of w t.witness }
    ensures preemptions { (w : World) (p n : ℕ) (t : Told) → IsWorld w → In t (first_told w (take n (histories w p)))
        → t.preemptions ≡ preemptions w t.witness }
{}

/// Proves that no ended history with a reported outcome has fewer preemptions than the report says.
pub fn what_is_told_is_least()
    ensures { (w : World) (p n : ℕ) (t : Told) (h : List Entry) → IsWorld w
        → In t (first_told w (take n (histories w p))) → IsLegal w h → IsTimed w h → IsEnded w h
        → t.outcome ≡ outcome_of w h → t.preemptions ≤ preemptions w h }
{}

/// Proves that a search of the whole list reports the outcome of each ended history with at most p preemptions.
pub fn what_is_told_is_complete()
    ensures { (w : World) (p n : ℕ) (h : List Entry) → IsWorld w → length (histories w p) ≤ n → IsWithin w p h
        → (t : Told) × In t (first_told w (take n (histories w p))) × (t.outcome ≡ outcome_of w h) }
{}

/// Proves that no outcome has two numbers, and that a greater bound or limit gives no outcome another number.
pub fn outcomes_keep_their_numbers()
    ensures once { (w : World) (hs : List (List Entry))
        → AllPairs (λ (s t : Told). s.outcome ≡ t.outcome → ⊥) (first_told w hs) }
    ensures onwards { (w : World) (ts : List Told) (hs more : List (List Entry))
        → told_onto w ts (hs ++ more) ≡ told_onto w (told_onto w ts hs) more }
    ensures longer { (w : World) (hs more : List (List Entry)) → (rest : List Told)
        × (first_told w (hs ++ more) ≡ first_told w hs ++ rest) }
    ensures greater { (w : World) (p q : ℕ) → p ≤ q → (rest : List (List Entry))
        × (histories w q ≡ histories w p ++ rest) }
{}

/// Proves how the list grows with the bound. If a search with p preemptions refuses no turn, a greater bound adds nothing.
pub fn histories_come_pass_by_pass()
    ensures first { (w : World) → histories w 0 ≡ histories_with w 0 }
    ensures next { (w : World) (p : ℕ) → histories w (p + 1) ≡ histories w p ++ histories_with w (p + 1) }
    ensures last { (w : World) (p q : ℕ) → refuses_with w p ≡ false → p ≤ q → histories w q ≡ histories w p }
{}
