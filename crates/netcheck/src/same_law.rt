//! Two values are the same or they aren't.
ghost use Rattle.std.specs.Prelude.{◌≡◌, ◌≢◌, ◌⊎◌, Option};
ghost use Rattle.net_base.specs.declared.actor.ActorName.{ActorName};
ghost use Rattle.net_base.specs.declared.event.Event.{Event};
ghost use Rattle.net_base.specs.declared.packet.Header.{Header};
ghost use Rattle.net_base.specs.declared.reply.Reply.{Reply};

/// Two events, two replies, two actors and two headers are the same or not, which proofs may go by.
pub fn values_are_the_same_or_not()
    ensures events { (e f : Event) → (e ≡ f) ⊎ (e ≢ f) }
    ensures replies { (r s : Reply) → (r ≡ s) ⊎ (r ≢ s) }
    ensures actors { (a b : ActorName) → (a ≡ b) ⊎ (a ≢ b) }
    ensures headers { (o p : Option Header) → (o ≡ p) ⊎ (o ≢ p) }
{}
