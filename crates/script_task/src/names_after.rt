//! The names after a reply.
ghost use Rattle.std.specs.Prelude.{◌≡◌, IsOk, OnOk, OnErr};
ghost use Rattle.script_task.specs.Requests as spec;

use crate::effect::{bind_free, opened_fid};
use crate::names::Names;
use crate::paths::openable;
use net_base::{Mode, Octets, Reply, Request};
use std::alloc::AllocError;

/// The names after the reply to the event of a request. Without memory they are as before.
///
/// It takes none where there is room for the request's name, or where nothing is bound.
pub fn settle(fids: &mut Names, request: Request, reply: &Reply) -> Result<(), AllocError>
    ensures ok { OnOk result (fids.new ≡ spec.settles_to fids.old request reply.now) }
    ensures err { OnErr result (fids.new ≡ fids.old) }
    ensures room { spec.RequestHasRoom fids.old (spec.newly_bound fids.old.names request reply.now) → IsOk result }
{
    match request {
        Request::Open { name, path, mode } => settle_open(fids, &name, &path, mode, reply),
        Request::Close { name } => {
            fids.unbind(name.as_slice());
            Ok(())
        }
        Request::Hear { heard, .. } => {
            fids.hear(heard);
            Ok(())
        }
        _ => Ok(()),
    }
}

// Binds the name of an open, where it was granted.
fn settle_open(
    fids: &mut Names,
    name: &Octets,
    path: &Octets,
    mode: Mode,
    reply: &Reply,
) -> Result<(), AllocError>
    ensures ok { OnOk result (fids.new ≡ spec.opens_to fids.old name.now path.now mode reply.now) }
    ensures err { OnErr result (fids.new ≡ fids.old) }
    ensures room { spec.RequestHasRoom fids.old (spec.newly_opened fids.old.names name.now path.now mode reply.now)
        → IsOk result }
{
    let Some(node) = openable(path.as_slice(), mode) else {
        return Ok(());
    };
    match opened_fid(node, mode, reply) {
        Some(fid) => bind_free(fids, name.as_slice(), fid),
        None => Ok(()),
    }
}
