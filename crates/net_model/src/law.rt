//! Laws of the definitions.
ghost use Rattle.std.specs.Prelude.{◌≡◌, [], List, ℕ, Some, slice_get, take};
ghost use Rattle.net_base.specs.declared.event.Event.TheVariants as event;
ghost use Rattle.net_base.specs.declared.history.Entry.{Entry};
ghost use Rattle.net_base.specs.declared.world.World.{World};
ghost use Rattle.net_model.specs.Headline.{AnswersCs, Headline};
ghost use Rattle.prefix_law.specs.Order.{Begins};
ghost use Rattle.net_model.specs.ScriptOrder.{KeepsScript};
ghost use Rattle.net_base.specs.Scripts.{Kept, step_play};
ghost use Rattle.net_base.specs.declared.world.Step.{Step};
ghost use Rattle.net_base.specs.declared.world.Script.{Script};
ghost use Rattle.net_base.specs.World.{IsWorld};
ghost use Rattle.net_base.specs.Callers.{IsScript, caller_of};
ghost use Rattle.net_base.specs.Legal.{IsLegal};
ghost use Rattle.net_base.specs.Plain.{IsPlain};
ghost use Rattle.net_base.specs.Versions.{IsInForce, in_force};

use prefix_law::{imports_are_answered, prefix_law};

/// Every legal history of a world is plain: names are words, lines have no newline, and paths are made of bytes.
pub fn legal_histories_are_plain()
    ensures { (w : World) → IsWorld w → (h : List Entry) → IsLegal w h → IsPlain h }
{}

/// The events of a script's steps are its caller's own entries, in order and each once, at least one a step. So many steps are
/// finished, and so many answered, as the definitions count.
pub fn steps_stand_in_order()
    ensures each { (h : ℕ) (k : Kept) (s : Step) → Begins (step_play h k s) [] }
    ensures in_order { (w : World) (h : List Entry) (c : ℕ) (s : Script) → IsLegal w h → caller_of w c ≡ IsScript s
        → KeepsScript w h c s }
{}

/// Each answer to a query of cs is what the database of the version that the desk told last lists for the host that asks, or why
/// it lists nothing.
pub fn cs_answers_are_lists()
    ensures { (w : World) (h : List Entry) (k : ℕ) (x : Entry) (query : List ℕ) → IsLegal w h → slice_get h k ≡ Some x
        → x.event ≡ event.Cs query → AnswersCs w (take k h) x query }
{}

/// Of the versions of a world's database one is in force at each moment: the last one whose own moment has come.
pub fn one_version_is_in_force()
    ensures { (w : World) (now : ℕ) → IsWorld w → IsInForce w.dbs now (in_force now w.dbs) }
{}

/// What every legal history of a world keeps.
pub fn legal_histories_keep_it()
    ensures { (w : World) (h : List Entry) → IsWorld w → IsLegal w h → Headline w h }
{
    prefix_law();
    imports_are_answered();
}
