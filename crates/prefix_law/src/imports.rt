//! The import law.
ghost use Rattle.std.specs.Prelude.{◌≡◌, ◌<◌, List, ℕ, Bool, Some, true, length};
ghost use Rattle.net_base.specs.declared.reply.Reply.{Reply};
ghost use Rattle.net_base.specs.declared.world.Step.{Step};
ghost use Rattle.net_base.specs.Exports.{Own, exports, own_of};
ghost use Rattle.net_base.specs.Scripts.{Kept, step_play};
ghost use Rattle.net_base.specs.Server.{Server};
ghost use Rattle.net_base.specs.Steps.{Names, fid_of, stands};
ghost use Rattle.net_base.specs.declared.history.Entry.{Entry};
ghost use Rattle.net_base.specs.declared.names.FileName.TheVariants.{Data};
ghost use Rattle.net_base.specs.declared.names.Mode.{Mode};
ghost use Rattle.net_base.specs.declared.world.World.{World};
ghost use Rattle.net_base.specs.declared.address.Proto.TheVariants.{Il};
ghost use Rattle.net_base.specs.Legal.{IsLegal};
ghost use Rattle.net_base.specs.World.{IsWorld};
ghost use Rattle.net_base.specs.Written.{Conversation, peer};
ghost use Rattle.prefix_law.specs.ImportLaw.{Exports, Imports, Served, calls, own_of_data, got_back};
ghost use Rattle.prefix_law.specs.WorldImports.{ImportsAnswered};
ghost use Rattle.prefix_law.specs.LongReads.{ReadsWhole};
ghost use Rattle.prefix_law.specs.Scripted.{is_importing};
ghost use Rattle.prefix_law.specs.Spans.{Scripted};

use crate::{a_pair_has_one_holder, prefix_law};

/// How many requests an exporting step may serve doesn't matter, where they are more than the replies: its next event is the same.
pub fn rounds_are_enough<S>()
    ensures { (v : Server S (List ℕ)) (own : Own) (n m : ℕ) (s : S) (rs : List Reply) → length rs < n → length rs < m
        → stands (exports v own n s) rs ≡ stands (exports v own m s) rs }
{}

/// Where all that is read and written at one end of an IL call is of importing steps, and at the other of one exporting step: requests
/// are calls, replies are answers, and answers are those of the session.
pub fn import_law<S, M, N, T, U>()
    ensures { (w : World) (h : List Entry) (e f : Conversation) → IsWorld w → IsLegal w h → e.proto ≡ Il
        → peer w h e ≡ Some f
        → (c : ℕ) (near : Scripted M T) (is_near : T → Bool) → Imports M T h c e near is_near
        → (v : Server S (List ℕ)) (s : ℕ) (far : Scripted N U) (i : ℕ) → (x : Exports v N U h s f far i)
        → Served v x.start f (calls h c e near is_near) (got_back h c e near is_near) x.span.entries }
{
    prefix_law();
    a_pair_has_one_holder();
}

/// The importing steps read whole messages, whatever is kept between steps and whatever the replies.
pub fn importing_steps_read_whole()
    ensures { (h : ℕ) (k : Kept) (s : Step) → is_importing s ≡ true → ReadsWhole (step_play h k s) }
{}

/// What is asked on a name that is bound to a data file of a conversation.
pub fn own_is_of_data()
    ensures { (f : Conversation) (called : List ℕ) (m : Mode) (names : Names)
        → fid_of called names ≡ Some (record {
          proto = f.proto;
          slot = f.slot;
          generation = f.generation;
          file = Data;
          mode = m;
        })
        → own_of f.host called names ≡ own_of_data f called m }
{}

/// What a script imports over a call is what the exporting script answered, in every legal history.
pub fn imports_are_answered()
    ensures { (w : World) (h : List Entry) → IsWorld w → IsLegal w h → ImportsAnswered w h }
{
    prefix_law();
    a_pair_has_one_holder();
}
