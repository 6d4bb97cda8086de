//! Laws of the text of a history.
ghost use Rattle.std.specs.Prelude.{◌≡◌, ◌++◌, ◌<◌, ◌^◌, List, ℕ, Option, Some, None, length};
ghost use Rattle.net_base.specs.declared.history.Entry.{Entry};
ghost use Rattle.net_base.specs.declared.world.World.{World};
ghost use Rattle.net_base.specs.Plain.{IsPlain};
ghost use Rattle.net_base.specs.Summary.{summary};
ghost use Rattle.net_base.specs.Transcript.{history_text};
ghost use Rattle.history_reader.specs.Spelling.{IsBadText, IsSummary, SpellsHistory};
ghost use Rattle.history_reader.specs.Wide.{IsWide};

use crate::wide::histories_are_wide;
use net_base::Entries;

/// States that the summary of a history has four lines, one of each form.
pub fn summaries_are_four_lines()
    ensures { (w : World) (h : List Entry) → IsSummary (summary w h) }
{}

/// Shows that the text of a plain history spells it, alone or with its summary.
///
/// So `read_transcript` reads the text of each plain `History` as that history: no number of a value is too wide for its field.
pub fn printed_histories_are_spelled<E: Entries>(history: &E)
    ensures wide { IsWide (E.list history.now) }
    ensures alone { IsPlain (E.list history.now)
        → SpellsHistory (history_text (E.list history.now)) (E.list history.now) None }
    ensures summed { (w : World) → IsPlain (E.list history.now)
        → SpellsHistory (history_text (E.list history.now) ++ summary w (E.list history.now)) (E.list history.now)
        (Some (summary w (E.list history.now))) }
{
    histories_are_wide(history);
}

/// States that a text spells at most one history with its summary, and that a text which spells one has no bad line.
pub fn texts_spell_one_history()
    ensures one { (bytes : List ℕ) (h k : List Entry) (s t : Option (List ℕ)) → length bytes < 2 ^ 64
        → SpellsHistory bytes h s → SpellsHistory bytes k t → (k ≡ h) × (t ≡ s) }
    ensures good { (bytes : List ℕ) (h : List Entry) (s : Option (List ℕ)) (line cause : ℕ) → length bytes < 2 ^ 64
        → SpellsHistory bytes h s → IsBadText bytes line cause → ⊥ }
{}
