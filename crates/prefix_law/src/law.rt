//! The prefix law, and two laws that stand on its lemmas.
ghost use Rattle.std.specs.Prelude.{◌≡◌, ◌<◌, ◌≤◌, List, ℕ, None, Some, slice_get};
ghost use Rattle.net_base.specs.declared.event.Event.TheVariants as event;
ghost use Rattle.net_base.specs.declared.history.Entry.{Entry};
ghost use Rattle.net_base.specs.declared.world.World.{World};
ghost use Rattle.net_base.specs.declared.address.Proto.TheVariants.{Il, Udp};
ghost use Rattle.prefix_law.specs.PrefixLaw.{Alone, InOrder, KeepsPrefixes, WasWritten};
ghost use Rattle.net_base.specs.World.{IsWorld};
ghost use Rattle.net_base.specs.Written.{Conversation, IsRead, peer};
ghost use Rattle.net_base.specs.Legal.{IsLegal, IsLegalBy, IsTimed};
ghost use Rattle.net_base.specs.Tasks.{Tasks};
ghost use Rattle.net_base.specs.Written.{Given, given_in, holder, pair_of};
ghost use Rattle.net_base.specs.declared.address.Pair.{Pair};
ghost use Rattle.net_base.specs.Mirror.{mirror};

/// What is read was written at the peer: of IL in order, with an end of file only after a close and after all of it; of UDP in datagrams.
pub fn prefix_law()
    ensures alone { (w : World) (h : List Entry) (e : Conversation) → IsWorld w → IsLegal w h → e.proto ≡ Il
        → peer w h e ≡ None → Alone w h e }
    ensures datagrams { (w : World) (h : List Entry) (e : Conversation) (k count : ℕ) (text : List ℕ) → IsWorld w
        → IsLegal w h → e.proto ≡ Udp → IsRead h e k count text → WasWritten w h e k count text }
    ensures in_order { (w : World) (h : List Entry) (e f : Conversation) → IsWorld w → IsLegal w h → e.proto ≡ Il
        → peer w h e ≡ Some f → InOrder w h e f }
{}

/// What conversations read is a prefix of what their peers wrote, where tasks are played in the places of scripts, too, whatever they ask.
pub fn tasks_keep_prefixes()
    ensures { (ts : Tasks) (w : World) (h : List Entry) → IsWorld w → IsLegalBy ts w h → KeepsPrefixes w h }
{}

/// In a timed legal history the clock's moments rise: each move goes beyond the moment before it, and no entry's moment falls.
pub fn moments_rise()
    ensures moves { (w : World) (h : List Entry) (k m : ℕ) (x : Entry) → IsWorld w → IsLegal w h → IsTimed w h
        → slice_get h k ≡ Some x → x.event ≡ event.Move m → x.moment < m }
    ensures entries { (w : World) (h : List Entry) (i j : ℕ) (x y : Entry) → IsWorld w → IsLegal w h → IsTimed w h
        → i ≤ j → slice_get h i ≡ Some x → slice_get h j ≡ Some y → x.moment ≤ y.moment }
    ensures strictly { (w : World) (h : List Entry) (i j m n : ℕ) (x y : Entry) → IsWorld w → IsLegal w h
        → IsTimed w h → i < j → slice_get h i ≡ Some x → slice_get h j ≡ Some y → x.event ≡ event.Move m
        → y.event ≡ event.Move n → m < n }
{}

/// In the whole net a pair of a protocol has one holder and a conversation one pair. Who got the mirror of a conversation's pair is
/// its one peer, and peers are one another's.
pub fn a_pair_has_one_holder()
    ensures once { (w : World) (h : List Entry) → IsWorld w → IsLegal w h → (i j : ℕ) (f g : Given)
        → slice_get (given_in w h) i ≡ Some f → slice_get (given_in w h) j ≡ Some g → f.to.proto ≡ g.to.proto
        → f.pair ≡ g.pair → i ≡ j }
    ensures pair { (w : World) (h : List Entry) → IsWorld w → IsLegal w h → (i j : ℕ) (f g : Given)
        → slice_get (given_in w h) i ≡ Some f → slice_get (given_in w h) j ≡ Some g → f.to ≡ g.to → i ≡ j }
    ensures holder { (w : World) (h : List Entry) (k : ℕ) (g : Given) → IsWorld w → IsLegal w h
        → slice_get (given_in w h) k ≡ Some g → holder w h g.to.proto g.pair ≡ Some g.to }
    ensures peer { (w : World) (h : List Entry) (e : Conversation) (pair : Pair) (k : ℕ) (g : Given) → IsWorld w
        → IsLegal w h → pair_of w h e ≡ Some pair → slice_get (given_in w h) k ≡ Some g → g.to.proto ≡ e.proto
        → g.pair ≡ mirror pair → peer w h e ≡ Some g.to }
    ensures each_other { (w : World) (h : List Entry) (e f : Conversation) → IsWorld w → IsLegal w h
        → peer w h e ≡ Some f → peer w h f ≡ Some e }
{}
