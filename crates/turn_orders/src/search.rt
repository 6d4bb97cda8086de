//! Theorems about a depth-first search, one for each step: which histories of the list are still to come.
ghost use Rattle.std.specs.Prelude.{◌≡◌, ◌+◌, ◌≤◌, ◌<◌, ◌∷◌, ◌++◌, List, [], ℕ, length};
ghost use Rattle.net_base.specs.declared.history.Entry.{Entry};
ghost use Rattle.net_base.specs.declared.world.World.{World};
ghost use Rattle.turn_orders.specs.Orders.{histories_with, if_spent, too_many};
ghost use Rattle.turn_orders.specs.Paths.{IsFirst, IsLowest, IsNone, ahead, beginning, left, to_come};
ghost use Rattle.turn_orders.specs.Preemptions.{cost};
ghost use Rattle.turn_orders.specs.Turns.{IsEnded};

/// Proves that all histories are to come at the path without a caller.
pub fn searches_begin()
    ensures all { (w : World) (p : ℕ) → histories_with w p ≡ to_come w p [] }
    ensures nothing { (w : World) (p : ℕ) → ahead w p [] ≡ [] }
{}

/// Proves that a path can be extended by the lowest caller for which enough preemptions are left: the same is to come.
pub fn searches_go_on()
    ensures { (w : World) (p : ℕ) (path : List ℕ) (c : ℕ) → length path < too_many
        → IsFirst w (beginning w path) (left w p path) 0 c → to_come w p path ≡ to_come w p (path ++ c ∷ []) }
{}

/// Proves that the beginning of a path comes first, if it has ended and no preemption is left. Then the rest comes.
pub fn searches_end()
    ensures { (w : World) (p : ℕ) (path : List ℕ) → length path < too_many → IsEnded w (beginning w path)
        → to_come w p path ≡ if_spent (left w p path) (beginning w path) ++ ahead w p path }
{}

/// Proves that those with the next caller in the place of the last one come after the histories of a path.
pub fn searches_turn()
    ensures { (w : World) (p : ℕ) (path : List ℕ) (c d : ℕ) → length path < too_many
        → IsFirst w (beginning w path) (left w p path) (c + 1) d
        → ahead w p (path ++ c ∷ []) ≡ to_come w p (path ++ d ∷ []) }
{}

/// Proves that the rest is that of the shorter path, if no other caller can come in the place of the last one.
pub fn searches_go_back()
    ensures { (w : World) (p : ℕ) (path : List ℕ) (c : ℕ) → length path < too_many
        → IsNone w (beginning w path) (left w p path) (c + 1) → ahead w p (path ++ c ∷ []) ≡ ahead w p path }
{}

/// Proves that the lowest caller that can continue is the first choice, if enough preemptions are left for it. With one left,
/// they are for each caller.
pub fn lowest_callers_are_first()
    ensures lowest { (w : World) (h : List Entry) (p k c : ℕ) → IsLowest w h p k c → IsFirst w h p k c }
    ensures free { (w : World) (h : List Entry) (p c : ℕ) → 1 ≤ p → cost w h c ≤ p }
{}
