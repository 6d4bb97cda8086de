//! Laws of frames, and of steps.
ghost use Rattle.std.specs.Prelude.{◌≡◌, ◌++◌, List, ℕ, filter_map, map};
ghost use Rattle.net_base.specs.declared.history.Entry.{Entry};
ghost use Rattle.net_base.specs.declared.world.Script.{Script};
ghost use Rattle.net_base.specs.declared.world.World.{World};
ghost use Rattle.net_base.specs.Legal.{IsLegal};
ghost use Rattle.net_base.specs.World.{IsWorld};
ghost use Rattle.replay_views.specs.declared.steps.Form.TheVariants as form;
ghost use Rattle.replay_views.specs.Alike.{AreAlike};
ghost use Rattle.replay_views.specs.Capture.{frames, laid_at, frame_place};
ghost use Rattle.replay_views.specs.StepLines.{EndsLine, step_spellings, texts_of};
ghost use Rattle.replay_views.specs.Steps.{state_text};
ghost use Rattle.replay_views.specs.WorldSteps.{step_lines};
ghost use Rattle.world_text.specs.WorldSpelling.{IsWorldText};

/// States that the frames of a legal history are those that its entries laid, none left out, in the order of stamps.
pub fn frames_are_laid()
    ensures { (w : World) (h : List Entry) → IsWorld w → IsLegal w h
        → map frame_place (frames w h) ≡ filter_map laid_at h }
{}

/// Says that the text of a world has one line for each step of the world, in its order, whatever follows the text.
pub fn steps_have_lines()
    ensures { (text behind : List ℕ) (w : World) → IsWorldText text w → EndsLine text behind
        → texts_of (step_lines (text ++ behind)) ≡ step_spellings w }
{}

/// Says that the row of a step and its line have the same word, moment and reply.
pub fn steps_are_told_alike()
    ensures { (w : World) (h : List Entry) (cs : ℕ × Script) (n : ℕ)
        → AreAlike h (state_text form.Row w h cs n) (state_text form.Line w h cs n) }
{}
