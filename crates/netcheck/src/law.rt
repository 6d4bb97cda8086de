//! Laws of callers that a world hasn't, of the first entry that breaks a rule, and of inputs that are printed.
ghost use Rattle.std.specs.Prelude.{◌≡◌, ◌≤◌, ◌<◌, ◌^◌, ◌⊎◌, ◌∷◌, ◌++◌, ℕ, List, [], None, Some, length};
ghost use Rattle.net_base.specs.declared.history.Entry.{Entry};
ghost use Rattle.net_base.specs.declared.world.World.{World};
ghost use Rattle.net_base.specs.Callers.{caller_count};
ghost use Rattle.net_base.specs.Legal.{IsFault, IsLegal, IsTimed, Rule};
ghost use Rattle.net_base.specs.Net.{owed};
ghost use Rattle.net_base.specs.Next.{next_recorded};
ghost use Rattle.net_base.specs.Plain.{IsPlain};
ghost use Rattle.net_base.specs.Summary.{summary};
ghost use Rattle.net_base.specs.Transcript.{history_text};
ghost use Rattle.history_reader.specs.Wide.{IsWide};
ghost use Rattle.world_text.specs.WorldSpelling.{IsWorldText};
ghost use Rattle.netcheck.specs.Input.{with_printed};
ghost use Rattle.netcheck.specs.Told.{HandsIn};

use history_reader::{summaries_are_four_lines, texts_spell_one_history};
use world_text::worlds_are_spelled;

/// A caller that the world hasn't owes nothing after a legal history, and nothing of it comes next.
pub fn nobody_owes()
    ensures owes { (w : World) (h : List Entry) (c : ℕ) → IsLegal w h → caller_count w ≤ c → owed w h c ≡ [] }
    ensures next { (w : World) (h : List Entry) (c : ℕ) → caller_count w ≤ c → next_recorded w h c ≡ None }
{}

/// A history has at most one fault.
pub fn a_fault_is_one()
    ensures { (w : World) (h : List Entry) (s t : ℕ) (r q : Rule) → IsFault w h s r → IsFault w h t q → (s ≡ t)
        × (r ≡ q) }
{}

/// A history is legal and timed, or it has a fault.
pub fn legal_or_at_fault()
    ensures { (w : World) (h : List Entry) → (IsLegal w h × IsTimed w h) ⊎ ((s : ℕ) × (r : Rule) × IsFault w h s r) }
{}

/// States what a printed input hands in: its world, its plain history and the summary of that, and nothing else.
///
/// The text of the world ends with a newline. Then follow the line `%history`, the text of the history and the summary.
pub fn printed_histories_are_handed_in()
    ensures { (w : World) (h : List Entry) (text : List ℕ) → IsWorldText (text ++ 10 ∷ []) w → IsWide h → IsPlain h
        → length (history_text h ++ summary w h) < 2 ^ 64
        → HandsIn (with_printed (text ++ 10 ∷ []) (history_text h ++ summary w h)) w h (Some (summary w h)) }
{
    summaries_are_four_lines();
    texts_spell_one_history();
    worlds_are_spelled();
}
