//! What the definitions of sessions say together.
ghost use Rattle.std.specs.Prelude.{◌≡◌, ◌≤◌, ℕ, List, true, map, flat_map, length, nat_le};
ghost use Rattle.std.specs.List.{list_all};
ghost use Rattle.net_base.specs.Hexadecimal.{hex_digits};
ghost use Rattle.net_base.specs.Transcript.{reply_words};
ghost use Rattle.net_base.specs.World.{is_byte, is_step};
ghost use Rattle.net_base.specs.declared.reply.Reply.{Reply};
ghost use Rattle.net_base.specs.declared.world.Step.{Step};
ghost use Rattle.net_base.specs.declared.ninep.Tmsg.{Tmsg};
ghost use Rattle.net_base.specs.NinepMessages.{r_tag, t_bytes, t_tag};
ghost use Rattle.net_base.specs.SessionAnswers.{Found, longest_error, printed, replied, said_at_once};
ghost use Rattle.net_base.specs.SessionScript.{AreMessages, IsScript, script};
ghost use Rattle.net_base.specs.Server.{answers_to};
ghost use Rattle.net_base.specs.Session.{first, session};
ghost use Rattle.net_base.specs.SessionTable.{Table};
ghost use Rattle.session_script.specs.Worked as worked;

/// An answer has the tag of its message.
pub fn answers_have_the_tag()
    ensures said { (table : Table) (found : Found) (m : Tmsg) → r_tag (said_at_once table found m) ≡ t_tag m }
    ensures replied { (table : Table) (m : Tmsg) (x : Reply) → r_tag (replied table m x) ≡ t_tag m }
{}

/// A reply of at most 80 words of at most 100 bytes has room in the text of an error.
pub fn short_replies_have_room()
    ensures { (x : Reply) → list_all (λ (word : List ℕ). nat_le (length word) 100) (reply_words x) ≡ true
        → length (reply_words x) ≤ 80 → length (printed x) ≤ longest_error }
{}

/// A session that opens the clone file of UDP and reads its number has two steps, and five answers.
pub fn a_session_is_answered()
    ensures messages { hex_digits (flat_map t_bytes worked.messages) ≡ worked.feed }
    ensures stream { AreMessages (flat_map t_bytes worked.messages) worked.messages }
    ensures script { script worked.messages ≡ worked.steps }
    ensures answers { map hex_digits (answers_to (session 0) first worked.messages worked.worked_replies)
        ≡ worked.worked_answers }
{}

/// Each step of a session's script is one that a world file can say.
pub fn scripts_can_be_said()
    ensures { (bytes : List ℕ) (steps : List Step) → list_all is_byte bytes ≡ true → IsScript bytes steps
        → list_all is_step steps ≡ true }
{}
