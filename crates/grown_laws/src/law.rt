//! The theorems about worlds with more steps at the end of a script.
ghost use Rattle.std.specs.Prelude.{◌≡◌, ◌<◌, ◌∷◌, ◌++◌, ℕ, List, [], Some, None, IsSome, is_some, length, min, slice_get, true};
ghost use Rattle.net_base.specs.declared.history.Entry.{Entry};
ghost use Rattle.net_base.specs.declared.world.Script.{Script};
ghost use Rattle.net_base.specs.declared.world.Step.{Step};
ghost use Rattle.net_base.specs.declared.world.Step.TheVariants as step;
ghost use Rattle.net_base.specs.declared.world.World.{World};
ghost use Rattle.net_base.specs.Calm.{awaited_moment, calm, movable, target, unfinished};
ghost use Rattle.net_base.specs.Legal.{IsLegal, IsTimed};
ghost use Rattle.net_base.specs.Net.{Net, after};
ghost use Rattle.net_base.specs.Next.{finished_by, is_unfinished, next_recorded, own_replies, zone_of};
ghost use Rattle.net_base.specs.Scripts.{Kept, step_play};
ghost use Rattle.net_base.specs.StepWords.{is_step};
ghost use Rattle.net_base.specs.Steps.{Ask, Asking, stands};
ghost use Rattle.net_base.specs.World.{IsWorld};
ghost use Rattle.std.specs.List.{list_all};
ghost use Rattle.grown_laws.specs.Grown.{HasNextAt, HasNextAtMoves, IsTimedTill, IsWithinSteps, StaysBeforeMoves, grown, longer};
ghost use Rattle.grown_laws.specs.Needed.{moved, small};

/// States that the net after a history does not depend on the scripts.
pub fn nets_are_alike()
    ensures { (w : World) (c : ℕ) (more : List Step) (h : List Entry) → after (grown w c more) h ≡ after w h }
{}

/// States that a legal history stays legal if a script gets more steps.
pub fn grown_is_legal()
    ensures { (w : World) (c : ℕ) (more : List Step) (h : List Entry) → IsLegal w h → IsLegal (grown w c more) h }
{}

/// States that a timed history stays timed if a script gets more steps and had a next event whenever the clock advanced.
pub fn grown_is_timed()
    ensures { (w : World) (c : ℕ) (more : List Step) (h : List Entry) → IsTimed w h → HasNextAtMoves w c h → IsTimed (grown w c more) h }
{}

/// States that more steps at the end of a script do not change when the clock can advance, nor to which moment.
///
/// The script must have a next event.
pub fn calms_are_alike()
    ensures calm { (w : World) (c : ℕ) (more : List Step) (net : Net) → IsSome (next_recorded w net.past c)
        → calm (grown w c more) net ≡ calm w net }
    ensures unfinished { (w : World) (c : ℕ) (more : List Step) (net : Net) → IsSome (next_recorded w net.past c)
        → unfinished (grown w c more) net ≡ unfinished w net }
    ensures movable { (w : World) (c : ℕ) (more : List Step) (net : Net) → IsSome (next_recorded w net.past c)
        → movable (grown w c more) net ≡ movable w net }
    ensures target { (w : World) (c : ℕ) (more : List Step) (net : Net) → IsSome (next_recorded w net.past c)
        → target (grown w c more) net ≡ target w net }
{}

/// States when a script had a next event at each clock move.
///
/// One more entry and more steps of any script preserve this fact. It is true of a script with a step that has no event in the history.
pub fn next_events_stay()
    ensures pushed { (w : World) (c : ℕ) (h : List Entry) (x : Entry) → HasNextAtMoves w c h → HasNextAt w c h x.event
        → HasNextAtMoves w c (h ++ x ∷ []) }
    ensures unbegun { (w : World) (c : ℕ) (s : Step) (more : List Step) (h : List Entry) → c < length w.scripts → IsWithinSteps w c h
        → HasNextAtMoves (grown w c (s ∷ more)) c h }
    ensures grown { (w : World) (c d : ℕ) (more : List Step) (h : List Entry) → HasNextAtMoves w c h
        → HasNextAtMoves (grown w d more) c h }
{}

/// States that a world file can describe a grown world if its lines can describe the new steps.
pub fn grown_is_world()
    ensures { (w : World) (c : ℕ) (more : List Step) → IsWorld w → list_all is_step more ≡ true → IsWorld (grown w c more) }
{}

/// States that a legal history stays legal if other steps, or none, replace the steps of which it has no event.
pub fn unbegun_steps_can_go()
    ensures gone { (w : World) (c : ℕ) (more : List Step) (h : List Entry) → IsWithinSteps w c h → IsLegal (grown w c more) h
        → IsLegal w h }
    ensures replaced { (w : World) (c : ℕ) (more others : List Step) (h : List Entry) → IsWithinSteps w c h → IsLegal (grown w c more) h
        → IsLegal (grown w c others) h }
{}

/// States how more steps change the target of the clock if the script has no next event.
///
/// They change it only if the first of them waits for a moment.
pub fn steps_behind_wait()
    ensures none { (w : World) (c : ℕ) (more : List Step) (net : Net) → next_recorded w net.past c ≡ None
        → awaited_moment (next_recorded (grown w c more) net.past c) ≡ None → target (grown w c more) net ≡ target w net }
    ensures some { (w : World) (c : ℕ) (more : List Step) (net : Net) (m : ℕ) → c < length w.scripts → next_recorded w net.past c ≡ None
        → awaited_moment (next_recorded (grown w c more) net.past c) ≡ Some m → target (grown w c more) net ≡ min m (target w net) }
{}

/// States that a timed history is timed up to a deadline if no clock move passes the deadline after the new step has begun.
pub fn waiting_is_timed()
    ensures { (w : World) (c : ℕ) (more : List Step) (last : ℕ) (h : List Entry) → c < length w.scripts → IsTimed (grown w c more) h
        → StaysBeforeMoves w c more last h → IsTimedTill w c more last h }
{}

/// States that a history that is timed up to a deadline stays timed if `until` with the deadline replaces the new steps.
pub fn deadlines_are_timed()
    ensures { (w : World) (c : ℕ) (more : List Step) (last : ℕ) (h : List Entry) → c < length w.scripts → IsWithinSteps w c h
        → IsTimedTill w c more last h → IsTimed (grown w c (step.Until last ∷ [])) h }
{}

/// States that a script has a next event exactly if one of its steps is unfinished, and that each step has at least one event.
pub fn unfinished_scripts_ask()
    ensures exactly { (w : World) (h : List Entry) (c : ℕ) (s : Script) → slice_get w.scripts c ≡ Some s
        → is_some (next_recorded w h c) ≡ is_unfinished w h c s }
    ensures some { (h : ℕ) (k : Kept) (s : Step) → (a : Ask) × (stands (step_play h k s) [] ≡ Asking a) }
{}

/// Gives two small worlds in which the theorems are false without their premises.
///
/// `idle`: the clock advances while the script has no next event. `waits`: the step is an `until` with an earlier moment than the deadline.
pub fn premises_are_needed()
    ensures idle { IsTimed (small 5) (moved 5) × (IsTimed (grown (small 5) 0 (step.Until 3 ∷ [])) (moved 5) → ⊥) }
    ensures waits { IsTimed (grown (small 5) 0 (step.Until 2 ∷ [])) (moved 2)
        × (IsTimed (grown (small 5) 0 (step.Until 4 ∷ [])) (moved 2) → ⊥) }
{}

/// States that a legal history has no events beyond the steps of a script, and that more steps do not change the number of finished ones.
pub fn finished_steps_stay()
    ensures within { (w : World) (c : ℕ) (h : List Entry) → IsLegal w h → IsWithinSteps w c h }
    ensures finished { (w : World) (c : ℕ) (s : Script) (more : List Step) (h : List Entry) → slice_get w.scripts c ≡ Some s → IsLegal w h
        → finished_by (zone_of w) (own_replies h c) (longer s more) ≡ finished_by (zone_of w) (own_replies h c) s }
{}
