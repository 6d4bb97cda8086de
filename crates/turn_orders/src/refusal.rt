//! Theorems about the turns that a search refuses because too few preemptions are left: at each step, whether one is to come.
ghost use Rattle.std.specs.Prelude.{◌≡◌, ◌+◌, ◌≤◌, ◌<◌, ◌∷◌, ◌++◌, List, [], ℕ, false, length, true};
ghost use Rattle.net_base.specs.declared.world.World.{World};
ghost use Rattle.net_base.specs.Stamped.{In};
ghost use Rattle.turn_orders.specs.Orders.{histories_with, refuses_with, too_many};
ghost use Rattle.turn_orders.specs.Paths.{IsLowest, beginning, left, refused_ahead, refused_to_come};
ghost use Rattle.turn_orders.specs.Preemptions.{cost};
ghost use Rattle.turn_orders.specs.Turns.{IsEnded, comes};

/// Proves that no history has more than p preemptions, if a search with p preemptions refuses no turn.
pub fn refusals_tell_of_more()
    ensures { (w : World) (p q : ℕ) → refuses_with w p ≡ false → p < q → histories_with w q ≡ [] }
{}

/// Proves which refusals are to come: at the path without a caller all of them, and at a refused turn at least one. If enough
/// preemptions are left for the lowest caller, the path can be extended by it. At an end nothing is refused.
pub fn refusals_come()
    ensures begin { (w : World) (p : ℕ) → refuses_with w p ≡ refused_to_come w p [] }
    ensures show { (w : World) (p : ℕ) (path : List ℕ) (d : ℕ) → length path < too_many
        → In d (comes w (beginning w path)) → left w p path < cost w (beginning w path) d
        → refused_to_come w p path ≡ true }
    ensures go_on { (w : World) (p : ℕ) (path : List ℕ) (c : ℕ) → length path < too_many
        → IsLowest w (beginning w path) (left w p path) 0 c
        → refused_to_come w p path ≡ refused_to_come w p (path ++ c ∷ []) }
    ensures end { (w : World) (p : ℕ) (path : List ℕ) → length path < too_many → IsEnded w (beginning w path)
        → refused_to_come w p path ≡ refused_ahead w p path }
{}

/// Proves which refusals come after the turns of a path: those of the next caller in the place of the last one, or those of
/// the shorter path.
pub fn refusals_come_behind()
    ensures nothing { (w : World) (p : ℕ) → refused_ahead w p [] ≡ false }
    ensures turn { (w : World) (p : ℕ) (path : List ℕ) (c d : ℕ) → length path < too_many
        → IsLowest w (beginning w path) (left w p path) (c + 1) d
        → refused_ahead w p (path ++ c ∷ []) ≡ refused_to_come w p (path ++ d ∷ []) }
    ensures go_back { (w : World) (p : ℕ) (path : List ℕ) (c : ℕ) → length path < too_many
        → ((d : ℕ) → In d (comes w (beginning w path)) → c + 1 ≤ d → ⊥)
        → refused_ahead w p (path ++ c ∷ []) ≡ refused_ahead w p path }
{}
