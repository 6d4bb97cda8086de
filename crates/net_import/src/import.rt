//! Importing: a call's other end is asked for its version and its tree.
ghost use Rattle.std.specs.Prelude.{◌≡◌, IfOk};
ghost use Rattle.net_base.specs.declared.world.Step.TheVariants as step;
ghost use Rattle.net_import.specs.Importing as spec;

use crate::messages::{attach, is_version, version};
use crate::talk::Talk;
use net_base::{Octets, Reply};
use script_task::{Names, Request, Task, bytes_in};
use std::alloc::{AllocError, Global};

/// Agrees on a version over a call, and then attaches to the tree of its other end.
#[derive(Debug, Drop)]
pub struct Import {
    talk: Talk,
    // the version was agreed on
    attaches: bool,
}

impl Import {
    /// Imports over the call of this name.
    #[tactic(auto, using(crate::specs::ImportLaws::fresh))]
    pub fn new(alloc: Global, name: &[u8]) -> Result<Import, AllocError>
        ensures value { IfOk result (λ t. t ≡ spec.begun name.now) }
        ensures stands { IfOk result (λ t. spec.Begins t (step.Import name.now)) }
    {
        Ok(Import {
            talk: Talk::new(Octets::from_slice(alloc, name)?, version(alloc)?),
            attaches: false,
        })
    }

    // Whether this reply agrees on the version.
    fn agrees(&self, alloc: Global, reply: &Reply) -> Result<bool, AllocError>
        ensures { IfOk result (λ is. is ≡ spec.agrees self.now reply.now) }
    {
        if self.attaches || !self.talk.reads() {
            return Ok(false);
        }
        is_version(alloc, bytes_in(reply))
    }
}

impl Task for Import {
    ghost use Rattle.net_import.specs.ImportLaws as laws;

    ghost asks = { spec.asks };

    ghost after = { spec.after };

    ghost Stands = { spec.StandsFor };

    ghost asks_so = { laws.asks_so };

    ghost moves_so = { laws.moves_so };

    fn next(&self, _alloc: Global, _fids: &Names) -> Result<Option<Request>, AllocError> {
        self.talk.next()
    }

    fn is_through(&self) -> bool {
        self.talk.is_over()
    }

    fn told(&mut self, alloc: Global, reply: Reply) -> Result<(), AllocError> {
        if self.agrees(alloc, &reply)? {
            self.talk.goes_on(attach(alloc)?);
            self.attaches = true;
        } else {
            self.talk.told(&reply);
        }
        Ok(())
    }
}
