//! The end of the definitions that an IL end stands for, as what only clauses see. At run time it is nothing.
ghost use Rattle.std.specs.Prelude.{◌≡◌};
ghost use Rattle.std.specs.Borrow.{ftrue};
ghost use Rattle.net_base.specs.declared.timer.Timers.TheVariants.{Fixed};
ghost use Rattle.net_base.specs.IlEnd.{End, fresh_end};

use std::marker::{Model, PhantomData};

/// An end of the definitions. It has no bytes, so only clauses tie it to an end that is kept.
#[derive(Drop)]
pub struct GhostEnd {
    marker: PhantomData<()>,
    pub ghost end: { End },
}

impl Model for GhostEnd {
    ghost also_owns = { λ _. ftrue };
}

// There are no bytes that a thread could share with another.
unsafe impl Send for GhostEnd {}

/// What happens to an end.
pub trait Change {
    // the end that it leaves
    ghost after: { Self → End → End };
}

impl GhostEnd {
    /// The end that was never connected, with fixed timers.
    pub fn fresh() -> GhostEnd
        ensures { result.end ≡ fresh_end Fixed }
    {
        GhostEnd {
            marker: PhantomData,
        }
    }

    /// The end after a change.
    pub fn after<C: Change>(&self, change: &C) -> GhostEnd
        ensures { result.end ≡ C.after change.now self.now.end }
    {
        let _ = change;
        GhostEnd {
            marker: PhantomData,
        }
    }
}
