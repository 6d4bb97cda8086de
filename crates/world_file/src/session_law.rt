//! Laws of the text of a world with sessions.
ghost use Rattle.std.specs.Prelude.{◌≡◌, ℕ, List, Result, Ok, true};
ghost use Rattle.std.specs.List.{list_all};
ghost use Rattle.net_base.specs.World.{IsWorld, is_byte};
ghost use Rattle.session_script.specs.declared.world.SessionWorld.{SessionWorld};
ghost use Rattle.session_script.specs.Worlds.{HaveHosts, HaveStreams};
ghost use Rattle.world_file.specs.SessionText.{SaysSessions};

/// A text says one world with sessions, or one bad line.
pub fn texts_of_sessions_say_one()
    ensures { (text : List ℕ) (r s : Result SessionWorld (ℕ × ℕ)) → SaysSessions text r → SaysSessions text s → r ≡ s }
{}

/// What a text says is a world that a file can say, with a script of its host in the place of each session.
pub fn sessions_have_places()
    ensures world { (text : List ℕ) (w : SessionWorld) → list_all is_byte text ≡ true → SaysSessions text (Ok w)
        → IsWorld w.world }
    ensures streams { (text : List ℕ) (w : SessionWorld) → list_all is_byte text ≡ true → SaysSessions text (Ok w)
        → HaveStreams w }
    ensures hosts { (text : List ℕ) (w : SessionWorld) → list_all is_byte text ≡ true → SaysSessions text (Ok w)
        → HaveHosts w }
{}
