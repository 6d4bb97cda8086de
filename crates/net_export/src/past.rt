//! The messages that an exporting step answered, as what only clauses see. At run time they are nothing.
ghost use Rattle.std.specs.Prelude.{◌≡◌, List, [], ◌∷◌, Some, None};
ghost use Rattle.std.specs.Borrow.{ftrue};
ghost use Rattle.net_export.specs.Serving.{PastMessage as Answered};

use net_base::{Reply, Tmsg};
use std::marker::{Model, PhantomData};

/// Messages, the last one first. They have no bytes, so only clauses tie them to what was heard.
#[derive(Drop)]
pub struct Past {
    marker: PhantomData<()>,
    pub ghost messages: { List Answered },
}

impl Model for Past {
    ghost also_owns = { λ _. ftrue };
}

// There are no bytes that a thread could share with another.
unsafe impl Send for Past {}

/// One message more.
pub trait More {
    ghost answered: { Self → Answered };
}

/// A message without a step.
#[derive(Clone, Copy)]
pub struct Told<'a> {
    pub message: &'a Tmsg,
}

impl<'a> More for Told<'a> {
    ghost answered = { λ x. record { message = x.message.now; last = None } };
}

/// A message with a step, and the last reply to its events.
#[derive(Clone, Copy)]
pub struct Replied<'a> {
    pub message: &'a Tmsg,
    pub reply: &'a Reply,
}

impl<'a> More for Replied<'a> {
    ghost answered = { λ x. record { message = x.message.now; last = Some x.reply.now } };
}

impl Past {
    /// None was answered yet.
    pub fn none() -> Past
        ensures { result.messages ≡ [] }
    {
        Past {
            marker: PhantomData,
        }
    }

    /// These, and one more.
    pub fn with<M: More>(&self, more: &M) -> Past
        ensures { result.messages ≡ M.answered more.now ∷ self.now.messages }
    {
        let _ = more;
        Past {
            marker: PhantomData,
        }
    }
}
