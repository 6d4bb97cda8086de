//! What makes a text that is defined by an input the answer to a command.
ghost use Rattle.std.specs.Prelude.{◌≡◌, ◌≤◌, ◌↔◌, ◌∷◌, ◌++◌, [], ℕ, List, Option, length};
ghost use Rattle.net_base.specs.declared.history.Entry.{Entry as AnyEntry};
ghost use Rattle.net_base.specs.declared.world.World.{World as AnyWorld};
ghost use Rattle.net_base.specs.Legal.{IsLegal, IsTimed};
ghost use Rattle.net_base.specs.Summary.{summary};
ghost use Rattle.net_base.specs.Transcript.{history_text};
ghost use Rattle.world_text.specs.WorldSpelling.{IsWorldText};
ghost use Rattle.net_model.specs.Answers.{Answer as AnyAnswer, all_kept, input_limit};
ghost use Rattle.net_model.specs.Words.{Check, Cs, Dns, Make, Query, Run};
ghost use Rattle.netcheck.specs.Input.{with_printed};
ghost use Rattle.netsh.specs.Built.{IsAnswer, cs_over, dns_over, made, query_over};

use history_reader::histories_are_wide;
use net_base::Entries;
use net_model::legal_histories_are_plain;
use netcheck::printed_histories_are_handed_in;
use world_text::worlds_are_spelled;

/// What `cs`, the two forms of `query`, `dns` and `make` give is the answer to their command, where the input is within its limit.
pub fn values_are_answers()
    ensures cs { (sys query input : List ℕ) (answer : AnyAnswer) → length input ≤ input_limit (Cs sys query)
        → answer ≡ cs_over sys query input → IsAnswer (Cs sys query) input answer }
    ensures query { (attr value : List ℕ) (other : Option (List ℕ)) (input : List ℕ) (answer : AnyAnswer)
        → length input ≤ input_limit (Query attr value other) → answer ≡ query_over attr value other input
        → IsAnswer (Query attr value other) input answer }
    ensures dns { (word input : List ℕ) (answer : AnyAnswer) → length input ≤ input_limit (Dns word)
        → answer ≡ dns_over word input → IsAnswer (Dns word) input answer }
    ensures made { (messages : ℕ) (input : List ℕ) (answer : AnyAnswer) → answer ≡ made messages
        → IsAnswer (Make messages) input answer }
{}

/// Shows that `check` answers `ok N` to each legal and timed history of a world, and nothing else.
///
/// The input is the text of the world, which ends with a newline, the line `%history`, the text of the history and its summary.
pub fn printed_histories_are_accepted<E: Entries>(history: &E)
    ensures { (w : AnyWorld) (text : List ℕ) (answer : AnyAnswer) → IsWorldText (text ++ 10 ∷ []) w
        → IsLegal w (E.list history.now) → IsTimed w (E.list history.now)
        → length (with_printed (text ++ 10 ∷ []) (history_text (E.list history.now) ++ summary w (E.list history.now)))
        ≤ input_limit Check
        → IsAnswer Check (with_printed (text ++ 10 ∷ []) (history_text (E.list history.now)
        ++ summary w (E.list history.now))) answer ↔ (answer ≡ all_kept (length (E.list history.now))) }
{
    histories_are_wide(history);
    legal_histories_are_plain();
    printed_histories_are_handed_in();
}

/// States that `check` accepts what `run` prints: its one answer is `ok N`, where N is the number of the printed entries.
///
/// The input is the text of the world, which ends with a newline, the line `%history` and what `run` prints of the world.
pub fn printed_runs_are_accepted()
    ensures { (workers : ℕ) (text : List ℕ) (w : AnyWorld) (printed : AnyAnswer) → IsWorldText (text ++ 10 ∷ []) w
        → length (text ++ 10 ∷ []) ≤ input_limit (Run workers) → IsAnswer (Run workers) (text ++ 10 ∷ []) printed
        → length (with_printed (text ++ 10 ∷ []) printed.text) ≤ input_limit Check
        → (h : List AnyEntry) × (printed.text ≡ history_text h ++ summary w h)
        × ((answer : AnyAnswer) → IsAnswer Check (with_printed (text ++ 10 ∷ []) printed.text) answer
        ↔ (answer ≡ all_kept (length h))) }
{
    legal_histories_are_plain();
    printed_histories_are_handed_in();
    worlds_are_spelled();
}
