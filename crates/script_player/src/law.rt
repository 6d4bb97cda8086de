//! The theorem about players of scripts that grow.
ghost use Rattle.std.specs.Prelude.{◌≡◌, List, Some};
ghost use Rattle.net_base.specs.declared.reply.Reply.{Reply};
ghost use Rattle.net_base.specs.declared.world.Script.{Script};
ghost use Rattle.net_base.specs.declared.world.Step.{Step};
ghost use Rattle.net_base.specs.Steps.{Ask};
ghost use Rattle.net_base.specs.Versions.{Tuples};
ghost use Rattle.script_player.specs.Players.{IsAt, Playing, next_after, with_steps};

/// States that the player of a script is also at its place in the script with more steps at the end.
///
/// If the script has a next event, the longer script has the same one.
pub fn players_fit_longer_scripts()
    ensures at { (zone : Tuples) (s : Script) (more : List Step) (rs : List Reply) (p : Playing) → IsAt zone s rs p
        → IsAt zone (with_steps s more) rs p }
    ensures next { (zone : Tuples) (s : Script) (more : List Step) (rs : List Reply) (p : Playing) (a : Ask) → IsAt zone s rs p
        → next_after zone s rs ≡ Some a → next_after zone (with_steps s more) rs ≡ Some a }
{}
