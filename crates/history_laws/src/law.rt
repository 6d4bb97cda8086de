//! Laws of legal histories that look into no conversation.
ghost use Rattle.std.specs.Prelude.{◌≡◌, ◌<◌, ◌≤◌, ◌∷◌, ◌++◌, List, [], ℕ, Some, true, length, map, take, slice_get};
ghost use mathlib.Core.List.{IsPrefix};
ghost use Rattle.net_base.specs.declared.actor.ActorName.{ActorName};
ghost use Rattle.net_base.specs.declared.event.Event.TheVariants as event;
ghost use Rattle.net_base.specs.declared.history.Entry.{Entry};
ghost use Rattle.net_base.specs.declared.world.Script.{Script};
ghost use Rattle.net_base.specs.declared.world.World.{World};
ghost use Rattle.net_base.specs.Actors.{opening_actor};
ghost use Rattle.net_base.specs.Callers.{IsScript, caller_count, caller_of};
ghost use Rattle.net_base.specs.Calm.{could_record_by, limited_by, most_entries};
ghost use Rattle.net_base.specs.Legal.{Asked, HasRoom, IsFault, IsInTime, IsLegal, IsLegalBy, IsTimed, Keeps, Known, MayFollow, Ready, Rule};
ghost use Rattle.net_base.specs.Net.{Net, after, next_net, owed, state, played, works};
ghost use Rattle.net_base.specs.Next.{by};
ghost use Rattle.net_base.specs.Duties.{Duty};
ghost use Rattle.net_base.specs.Stamped.{In, of_caller, same_actor};
ghost use Rattle.net_base.specs.Tasks.{Asking, Tasks};
ghost use Rattle.net_base.specs.Written.{Given, given_in};
ghost use Rattle.history_laws.specs.Apart.{StandsStill, own_steps, owed_by};
ghost use Rattle.history_laws.specs.Asked.{AsksInOrder};

/// A beginning of a legal history is legal, and of a timed one timed.
pub fn prefix_is_legal()
    ensures legal { (w : World) (h : List Entry) (k : ℕ) → IsLegal w h → IsLegal w (take k h) }
    ensures timed { (w : World) (h : List Entry) (k : ℕ) → IsTimed w h → IsTimed w (take k h) }
{}

/// With an entry more a legal history is legal where the entry may follow, and a timed one timed; the net is the next one.
pub fn histories_grow()
    ensures net { (w : World) (h : List Entry) (x : Entry) → after w (h ++ x ∷ []) ≡ next_net w (after w h) x }
    ensures past { (w : World) (h : List Entry) → (after w h).past ≡ h }
    ensures legal { (w : World) (h : List Entry) (x : Entry) → IsLegal w h → MayFollow w h x → IsLegal w (h ++ x ∷ []) }
    ensures timed { (w : World) (h : List Entry) (x : Entry) → IsTimed w h → IsInTime (after w h) w x.event
        → IsTimed w (h ++ x ∷ []) }
{}

/// Actors that pass the test of being the same are equal.
pub fn same_actors_are_equal()
    ensures { (a b : ActorName) → same_actor a b ≡ true → a ≡ b }
{}

/// An actor's state is the fold of its own step over its own works, from its opening state.
pub fn state_is_fold()
    ensures { (w : World) (h : List Entry) (a : ActorName)
        → state w h a ≡ played w a (opening_actor w.timers a) (works w h a) }
{}

/// A history with a fault isn't both legal and timed.
pub fn a_fault_is_not_legal()
    ensures { (w : World) (h : List Entry) (stamp : ℕ) (rule : Rule) → IsFault w h stamp rule → IsLegal w h
        → IsTimed w h → ⊥ }
{}

/// Each duty that a caller owes cites an earlier entry of its own.
pub fn duties_cite_their_own()
    ensures { (w : World) (h : List Entry) (c : ℕ) (d : Duty) → In d (owed w h c) → (x : Entry)
        × (slice_get h d.cites ≡ Some x) × (x.caller ≡ c) }
{}

/// In a legal history a directory grants a pair, or bears a conversation with it, at most once.
pub fn a_pair_is_given_once()
    ensures { (w : World) (h : List Entry) → IsLegal w h → (i j : ℕ) (f g : Given)
        → slice_get (given_in w h) i ≡ Some f → slice_get (given_in w h) j ≡ Some g → f.to.host ≡ g.to.host
        → f.to.proto ≡ g.to.proto → f.pair ≡ g.pair → i ≡ j }
{}

/// An entry that is its caller's next and is ready is at an actor and of a caller of the world, so that the rule of known ones is
/// never the least that an entry breaks.
pub fn what_is_ready_is_known()
    ensures known { (w : World) (h : List Entry) (x : Entry) → IsLegal w h → Keeps Asked w h (after w h) x
        → Keeps Ready w h (after w h) x → Keeps Known w h (after w h) x }
    ensures never_least { (w : World) (h : List Entry) (stamp : ℕ) → IsFault w h stamp Known → ⊥ }
{}

/// A caller records at most 131,072 entries, and one more breaks the rule of room.
pub fn callers_have_room()
    ensures within { (w : World) (h : List Entry) (c : ℕ) → IsLegal w h → length (by h c) ≤ most_entries }
    ensures full { (w : World) (past : List Entry) (net : Net) (x : Entry) → length (by past x.caller) ≡ most_entries
        → Keeps HasRoom w past net x → ⊥ }
    ensures fault { (w : World) (h : List Entry) (stamp : ℕ) → IsFault w h stamp HasRoom → (x : Entry)
        × (slice_get h stamp ≡ Some x) × (length (by (take stamp h) x.caller) ≡ most_entries) }
{}

/// A run is limited exactly where a caller that has all its entries owes a duty or could record its next event.
pub fn full_callers_limit()
    ensures owes { (ts : Tasks) (w : World) (net : Net) (c : ℕ) (d : Duty) → c < caller_count w
        → length (by net.past c) ≡ most_entries → In d (net.owed c) → limited_by ts w net ≡ true }
    ensures could { (ts : Tasks) (w : World) (net : Net) (c : ℕ) → c < caller_count w
        → length (by net.past c) ≡ most_entries → could_record_by ts w net (caller_of w c) c ≡ true
        → limited_by ts w net ≡ true }
    ensures only { (ts : Tasks) (w : World) (net : Net) → limited_by ts w net ≡ true → (c : ℕ)
        × (length (by net.past c) ≡ most_entries) × (could_record_by ts w net (caller_of w c) c ≡ true) }
{}

/// A caller stands by itself: what it owes is the fold of its own steps, and entries of others leave it as it is.
pub fn callers_are_apart()
    ensures fold { (w : World) (h : List Entry) (c : ℕ) → owed w h c ≡ owed_by w [] (own_steps w h c) }
    ensures others { (w : World) (h more : List Entry) (c : ℕ) → by more c ≡ [] → StandsStill w c h (h ++ more) }
    ensures later { (w : World) (h l : List Entry) (c : ℕ) → IsPrefix h l → by l c ≡ by h c → StandsStill w c h l }
    ensures stamped { (h : List Entry) (c : ℕ) → by h c ≡ map (λ (y : ℕ × Entry). y.1) (of_caller c h) }
{}

/// In the place of a script a task records what it asks for, in order: each event that it owes to nobody is asked for once it was told
/// the replies to those before it.
pub fn tasks_ask_in_order()
    ensures { (ts : Tasks) (w : World) (h : List Entry) (c : ℕ) (s : Script) (asks : Asking) → IsLegalBy ts w h
        → caller_of w c ≡ IsScript s → ts c ≡ Some asks → AsksInOrder w h c s asks }
{}
