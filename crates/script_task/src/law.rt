//! Laws of replies: which an event can have, and what they do to the names.
ghost use Rattle.std.specs.Prelude.{◌≡◌, ℕ, List, Some, true, slice_get};
ghost use Rattle.net_base.specs.declared.actor.ActorName.{ActorName};
ghost use Rattle.net_base.specs.declared.history.Entry.{Entry};
ghost use Rattle.net_base.specs.declared.history.Work.{Work};
ghost use Rattle.net_base.specs.declared.world.World.{World};
ghost use Rattle.net_base.specs.ActorStep.{Step};
ghost use Rattle.net_base.specs.Actors.{Actor, actor_step, opening_actor};
ghost use Rattle.net_base.specs.Legal.{IsLegal};
ghost use Rattle.net_base.specs.Net.{WorkAt, after, played};
ghost use Rattle.net_base.specs.declared.reply.Reply.{Reply};
ghost use Rattle.script_task.specs.Holdings.{Holdings};
ghost use Rattle.net_base.specs.declared.request.Request.{Request};
ghost use Rattle.script_task.specs.Effects.{effect_of, opened_file, settles_effect};
ghost use Rattle.script_task.specs.Fitting.{fits};
ghost use Rattle.net_base.specs.Requests.{settled};

/// Each entry of a legal history has a reply that fits its event, and so has each step of an actor as it is after any
/// history, or after any works.
pub fn replies_fit()
    ensures entries { (w : World) (h : List Entry) (k : ℕ) (x : Entry)
        → IsLegal w h → slice_get h k ≡ Some x → fits x.event x.reply ≡ true }
    ensures steps { (w : World) (h : List Entry) (a : ActorName) (now : ℕ) (work : Work) (t : Step Actor)
        → actor_step w a ((after w h).actors a) now work ≡ Some t → fits work.event t.outcome.reply ≡ true }
    ensures works { (w : World) (a : ActorName) (ps : List WorkAt) (now : ℕ) (work : Work) (t : Step Actor)
        → actor_step w a (played w a (opening_actor w.timers a) ps) now work ≡ Some t
        → fits work.event t.outcome.reply ≡ true }
{}

/// The effect of a request settles the names as the request itself does.
pub fn effects_settle()
    ensures { (b : Holdings) (q : Request) (r : Reply)
        → (settles_effect (effect_of b.names q) (opened_file (effect_of b.names q) r) b).names ≡ settled b.names q r }
{}
