//! What a script owes is told by what its entries show, and the sessions of a translated world are its scripts.
ghost use Rattle.std.specs.Prelude.{◌≡◌, ◌<◌, ℕ, List, length};
ghost use Rattle.net_base.specs.declared.history.Entry.{Entry};
ghost use Rattle.net_base.specs.declared.world.World.{World};
ghost use Rattle.net_base.specs.Legal.{IsLegal};
ghost use Rattle.net_base.specs.Net.{owed};
ghost use Rattle.net_base.specs.Next.{own_replies};
ghost use Rattle.net_export.specs.Answered.{ArePlayed};
ghost use Rattle.net_export.specs.Counted.{count_after};
ghost use Rattle.session_answers.specs.Told.{AreTold};
ghost use Rattle.session_script.specs.InHistory.{IsSessionOf};
ghost use Rattle.session_script.specs.declared.world.SessionWorld.{SessionWorld};
ghost use Rattle.session_script.specs.Worlds.{HaveHosts, HaveStreams, IsTranslated};

/// In a legal history, timed or not, a script owes as many events as its entries count.
pub fn what_is_owed_is_counted()
    ensures { (w : World) (h : List Entry) (c : ℕ) → IsLegal w h → c < length w.scripts
        → length (owed w h c) ≡ count_after w c 0 h }
{}

/// In a legal history each reply to an event of a session grants it or is a few short words: no list is ever told as a refusal.
pub fn session_replies_are_told()
    ensures { (w : World) (h : List Entry) (c : ℕ) (bytes : List ℕ) → IsLegal w h → IsSessionOf w c bytes
        → AreTold (own_replies h c) }
{}

/// Each session of a translated world is a script of its host there.
pub fn sessions_are_played()
    ensures { (s : SessionWorld) (w : World) → HaveStreams s → HaveHosts s → IsTranslated s w → ArePlayed w s.sessions }
{}
