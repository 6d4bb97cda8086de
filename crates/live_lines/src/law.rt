//! Theorems about the lines that the reader accepts.
ghost use Rattle.std.specs.Prelude.{◌≡◌, ◌≤◌, List, ℕ, Ok, Option, Some, length, true};
ghost use Rattle.net_base.specs.StepWords.{is_step, is_within};
ghost use Rattle.net_base.specs.declared.world.Step.{Step};
ghost use Rattle.live_lines.specs.declared.action.Action.TheVariants as action;
ghost use Rattle.live_lines.specs.declared.line.LiveLine.{LiveLine};
ghost use Rattle.live_lines.specs.LiveLines.{read_line};
ghost use Rattle.live_lines.specs.LiveSpelling.{is_fit_line, line_spelled};

use world_text::lines_are_spelled;

/// States that an accepted line is the one text of its value, and that its numbers and its step are in range.
pub fn read_steps_are_steps()
    ensures spelled { (text : List ℕ) (l : LiveLine) → read_line text ≡ Ok (Some l) → text ≡ line_spelled l }
    ensures fit { (text : List ℕ) (l : LiveLine) → read_line text ≡ Ok (Some l) → is_fit_line l ≡ true }
    ensures step { (text : List ℕ) (l : LiveLine) (by : Option ℕ) (s : Step) → read_line text ≡ Ok (Some l)
        → l.action ≡ action.Step by s → is_step s ≡ true }
    ensures deadline { (text : List ℕ) (l : LiveLine) (m : ℕ) (s : Step) → read_line text ≡ Ok (Some l)
        → l.action ≡ action.Step (Some m) s → is_within 1 1000000000 m ≡ true }
{
    lines_are_spelled();
}

/// States that the text of each line whose numbers and step are in range is accepted, with this line as its value.
pub fn spelled_lines_are_read()
    ensures { (l : LiveLine) → is_fit_line l ≡ true → length (line_spelled l) ≤ 65536 → read_line (line_spelled l) ≡ Ok (Some l) }
{
    lines_are_spelled();
}
