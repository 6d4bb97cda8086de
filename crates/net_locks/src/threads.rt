//! Laws of histories whose entries stand with their works, and of the guests that know a part of one.
ghost use Rattle.std.specs.Prelude.{◌≡◌, ◌<◌, ◌≤◌, length, ◌==◌, ◌++◌, ◌∷◌, List, [], Option, Some, None, ℕ, false, is_some};
ghost use mathlib.Core.List.{IsPrefix};
ghost use Rattle.net_base.specs.declared.actor.ActorName.{ActorName};
ghost use Rattle.net_base.specs.declared.actor.ActorName.TheVariants as name;
ghost use Rattle.net_base.specs.declared.actor.Call.{Call};
ghost use Rattle.net_base.specs.declared.event.Event.TheVariants as event;
ghost use Rattle.net_base.specs.declared.history.Entry.{Entry};
ghost use Rattle.net_base.specs.declared.history.Outcome.{Outcome};
ghost use Rattle.net_base.specs.declared.history.With.TheVariants as given;
ghost use Rattle.net_base.specs.declared.history.Work.{Work};
ghost use Rattle.net_base.specs.declared.noted.Noted.{Noted};
ghost use Rattle.net_base.specs.declared.noted.Number.TheVariants as number;
ghost use Rattle.net_base.specs.declared.reply.Reply.TheVariants as reply;
ghost use Rattle.net_base.specs.declared.world.Script.{Script};
ghost use Rattle.net_base.specs.declared.world.World.{World};
ghost use Rattle.net_base.specs.ActorStep.{Step};
ghost use Rattle.net_base.specs.Actors.{Actor, actor_step};
ghost use Rattle.net_base.specs.Callers.{IsScript, IsCourier, IsClock, caller_of};
ghost use Rattle.net_base.specs.Duties as duties;
ghost use Rattle.net_base.specs.Duties.{Duty};
ghost use Rattle.net_base.specs.Legal.{IsInTimeBy, IsLegalBy, IsTimedBy};
ghost use Rattle.net_base.specs.Net.{Net, after};
ghost use Rattle.net_base.specs.Stamped.{In, at, moment_noted, same_actor};
ghost use Rattle.net_base.specs.Tasks.{Tasks};
ghost use Rattle.journal.specs.declared.law.Roster.{Roster};
ghost use Rattle.journal.specs.declared.tokens.Sight.{Sight};
ghost use Rattle.journal.specs.Tokens.{Looked, Met};
ghost use Rattle.locked.specs.Acts.{state_at};
ghost use Rattle.net_locks.specs.Works.{noted_net, next_noted, entries, owed_in};
ghost use Rattle.net_locks.specs.Own.{AreNext, AreTimely, DoScriptsGoOn, OwnGains, IsLegalButScripts, OwnStandsStill};
ghost use Rattle.net_locks.specs.Named.{answer_in, named_due, named_generation, named, named_opening};
ghost use Rattle.net_locks.specs.Guests.{HandsOver, HasRecorded, IsGuest, IsOfGuests, IsGuestTurn, GuestRecords, StaysGuest, deed_at};

use history_laws::{callers_are_apart, histories_grow, same_actors_are_equal};

/// With an entry more the net of the works is the next one. It has these entries, and their moment.
pub fn nets_of_works_grow()
    ensures next { (w : World) (log : List Noted) (x : Noted)
        → noted_net w (log ++ x ∷ []) ≡ next_noted w (noted_net w log) x }
    ensures past { (w : World) (log : List Noted) → (noted_net w log).past ≡ entries log }
    ensures moment { (w : World) (log : List Noted) → (noted_net w log).moment ≡ moment_noted log }
{}

/// What lies under an actor's lock is that actor of the net of the works.
pub fn locks_keep_actors()
    ensures state { (w : World) (log : List Noted) (a : ActorName)
        → state_at (named_opening w) (answer_in w) a log ≡ named a ((noted_net w log).actors a) }
    ensures ready { (w : World) (log : List Noted) (a : ActorName) (now : ℕ) (work : Work)
        → is_some (answer_in w (state_at (named_opening w) (answer_in w) a log) now work)
        ≡ is_some (actor_step w a ((noted_net w log).actors a) now work) }
    ensures due { (w : World) (log : List Noted) (a : ActorName)
        → named_due (state_at (named_opening w) (answer_in w) a log) ≡ duties.due_of ((noted_net w log).actors a) }
    ensures generation { (w : World) (log : List Noted) (a : ActorName)
        → named_generation (state_at (named_opening w) (answer_in w) a log)
        ≡ duties.generation_of ((noted_net w log).actors a) }
{
    same_actors_are_equal();
}

/// What is ready elsewhere than at the clock is no move, so that it comes in time.
pub fn moves_are_the_clocks()
    ensures { (ts : Tasks) (w : World) (net : Net) (a : ActorName) (s : Actor) (now : ℕ) (work : Work) (t : Step Actor)
        → same_actor a name.Clock ≡ false → actor_step w a s now work ≡ Some t → IsInTimeBy ts net w work.event }
{}

/// No actor ever tells more than ten calls that waited, whatever works were done before.
pub fn few_calls_wait()
    ensures { (w : World) (a : ActorName) (log : List Noted) (now : ℕ) (work : Work) (t : Step Actor)
        (calls : List Call)
        → actor_step w a ((noted_net w log).actors a) now work ≡ Some t
        → t.outcome.reply ≡ reply.Calls calls → length calls ≤ 10 }
{
    same_actors_are_equal();
}

/// No duty is one at the clock.
pub fn no_duty_is_the_clocks()
    ensures { (w : World) (log : List Noted) (c : ℕ) (d : Duty) → In d (owed_in w log c)
        → same_actor d.actor name.Clock ≡ false }
{}

/// What a caller owes, what comes next for it and what its own entries are stay when others record.
pub fn others_leave_a_caller()
    ensures { (w : World) (c : ℕ) (earlier later : List Noted) → IsPrefix earlier later
        → at (number.Caller c) earlier ≡ at (number.Caller c) later → OwnStandsStill w c earlier later }
{
    callers_are_apart();
}

/// What is known of a caller's entries is known with one entry more of which it is known.
pub fn an_own_entry_is_gained()
    ensures { (w : World) (c : ℕ) (past : List Noted) (x : Noted) → OwnGains w c past x (past ++ x ∷ []) }
{}

/// Turns are the first duty, any event of a script that owes nothing, a copy that a courier takes of its medium, a move
/// of the clock.
pub fn turns_are_these()
    ensures duty { (w : World) (c : ℕ) (p : Sight) (d : Duty) (ds : List Duty)
        → IsGuestTurn w c p (d ∷ ds) d.actor (record { event = d.event; with = d.with }) (Some d.cites) }
    ensures script { (w : World) (c : ℕ) (p : Sight) (s : Script) (a : ActorName) (work : Work)
        → caller_of w c ≡ IsScript s → work.with ≡ given.Nothing → IsGuestTurn w c p [] a work None }
    ensures courier { (w : World) (c : ℕ) (p : Sight) (m : ℕ) → caller_of w c ≡ IsCourier m
        → IsGuestTurn w c p [] (name.Medium m) (record { event = event.Take; with = given.Nothing }) None }
    ensures clock { (w : World) (c : ℕ) (p : Sight) (m : ℕ) → caller_of w c ≡ IsClock
        → IsGuestTurn w c p [] name.Clock (record { event = event.Move m; with = given.Nothing }) None }
{}

/// A caller whose pass has seen nothing is a guest that owes nothing, and all of its entries are as they should be.
pub fn guests_begin()
    ensures guest { (w : World) (r : Roster) (c : ℕ) (p : Sight) → c < r.callers → p.seen ≡ []
        → In (number.Caller c, []) p.held
        → IsGuest w r c p [] }
    ensures nexts { (ts : Tasks) (w : World) (c : ℕ) (log : List Noted) → log ≡ [] → AreNext ts w c log }
    ensures timely { (ts : Tasks) (w : World) (c : ℕ) (log : List Noted) → log ≡ [] → AreTimely ts w c log }
{}

/// A caller whose turn was recorded owes the duties of the entry after the others, its first duty being done.
pub fn guests_record()
    ensures { (w : World) (r : Roster) (a : ActorName) (c now : ℕ) (work : Work) (cites : Option ℕ) (p : Sight)
        (ds : List Duty) (stamp : ℕ) (o : Outcome) (p' : Sight) → IsGuest w r c p ds → IsGuestTurn w c p ds a work cites
        → (d : GuestRecords w r (deed_at a c now work cites) p stamp o p')
        → HasRecorded w r (deed_at a c now work cites) d.past p ds stamp o p' }
{
    callers_are_apart();
    locks_keep_actors();
}

/// A guest stays one over a look.
pub fn guests_look()
    ensures { (w : World) (r : Roster) (c : ℕ) (p : Sight) (ds : List Duty) (front : ℕ) (p' : Sight)
        → IsGuest w r c p ds → Looked r p front p' → StaysGuest w r c p ds p' }
{
    callers_are_apart();
}

/// A guest stays one over an entry of another caller by the same pass.
pub fn guests_stay_by_others()
    ensures { (w : World) (r : Roster) (a : ActorName) (c e now : ℕ) (work : Work) (cites : Option ℕ) (p : Sight)
        (ds : List Duty) (stamp : ℕ) (o : Outcome) (p' : Sight) → IsGuest w r e p ds → (c == e) ≡ false
        → GuestRecords w r (deed_at a c now work cites) p stamp o p' → StaysGuest w r e p ds p' }
{
    callers_are_apart();
}

/// The guests of two passes that meet are guests of the one that stays.
pub fn guests_meet()
    ensures this { (w : World) (r : Roster) (c : ℕ) (p q p' : Sight) (ds : List Duty)
        → IsGuest w r c p ds → Met r p q p' → StaysGuest w r c p ds p' }
    ensures that { (w : World) (r : Roster) (c : ℕ) (p q p' : Sight) (ds : List Duty)
        → IsGuest w r c q ds → Met r p q p' → StaysGuest w r c q ds p' }
{
    callers_are_apart();
}

/// Where a number goes from one pass to another, its guest goes with it, and the others stay.
pub fn guests_hand_over()
    ensures over { (w : World) (r : Roster) (c : ℕ) (p q p' q' : Sight) (ds : List Duty)
        → HandsOver r c p q p' q' → IsGuest w r c p ds → StaysGuest w r c p ds q' }
    ensures there { (w : World) (r : Roster) (c d : ℕ) (p q p' q' : Sight) (ds : List Duty)
        → HandsOver r c p q p' q' → IsGuest w r d q ds → StaysGuest w r d q ds q' }
    ensures here { (w : World) (r : Roster) (c d : ℕ) (p q p' q' : Sight) (ds : List Duty)
        → HandsOver r c p q p' q' → (d == c) ≡ false → IsGuest w r d p ds → StaysGuest w r d p ds p' }
{
    callers_are_apart();
}

/// What is known of every caller's entries by itself gives the whole history: legal, but that the entries of scripts
/// are their next events; legal where they are; timed where each move comes in time.
pub fn histories_of_guests_are_legal()
    ensures but_scripts { (w : World) (r : Roster) (log : List Noted) → IsOfGuests w r log
        → IsLegalButScripts w (entries log) }
    ensures net { (w : World) (r : Roster) (log : List Noted) → IsOfGuests w r log
        → noted_net w log ≡ after w (entries log) }
    ensures legal { (ts : Tasks) (w : World) (r : Roster) (log : List Noted) → IsOfGuests w r log
        → ((c : ℕ) → c < r.callers → AreNext ts w c log) → IsLegalBy ts w (entries log) }
    ensures timed { (ts : Tasks) (w : World) (r : Roster) (log : List Noted) → IsOfGuests w r log
        → ((c : ℕ) → c < r.callers → AreTimely ts w c log) → IsTimedBy ts w (entries log) }
{
    histories_grow();
}

/// Where the entries of scripts, and of tasks in their places, that owe nothing are their next events, nothing is missing of a legal
/// history.
pub fn scripts_that_go_on_are_legal()
    ensures { (ts : Tasks) (w : World) (h : List Entry) → IsLegalButScripts w h → DoScriptsGoOn ts w h
        → IsLegalBy ts w h }
{}
