//! Steps of one request.
ghost use Rattle.std.specs.Prelude.{◌≡◌, false};

use net_base::Reply;
use script_task::{Names, Request, Task};
use std::alloc::{AllocError, Global};

/// A step that is a single request, whatever its reply.
#[derive(Debug, Drop)]
pub struct OneRequest {
    request: Request,
    is_through: bool,
}

impl OneRequest {
    /// The step of this request. It takes no memory.
    pub fn new(request: Request) -> OneRequest
        ensures { result ≡ record { request = request; is_through = false } }
    {
        OneRequest {
            request,
            is_through: false,
        }
    }
}

impl Task for OneRequest {
    ghost use Rattle.dial_lib.specs.OneRequest as spec;
    ghost use Rattle.dial_lib.specs.OneRequestLaws as laws;

    ghost asks = { spec.asks };

    ghost after = { spec.after };

    ghost Stands = { spec.StandsFor };

    ghost asks_so = { laws.asks_so };

    ghost moves_so = { laws.moves_so };

    fn next(&self, _alloc: Global, _fids: &Names) -> Result<Option<Request>, AllocError> {
        if self.is_through {
            return Ok(None);
        }
        Ok(Some(self.request.clone()?))
    }

    fn is_through(&self) -> bool {
        self.is_through
    }

    fn told(&mut self, _alloc: Global, _reply: Reply) -> Result<(), AllocError> {
        self.is_through = true;
        Ok(())
    }
}
