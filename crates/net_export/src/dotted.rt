//! The names of files in an exporting step.
ghost use Rattle.std.specs.Prelude.{◌≡◌, IfOk};
ghost use Rattle.net_base.specs.Exports as spec;
ghost use Rattle.net_export.specs.Rows as rows;

use net_base::Octets;
use script_task::Request;
use std::alloc::{AllocError, Global};
use words::put_decimal;

/// The name of a fid's file.
pub(crate) fn dotted_fid(alloc: Global, fid: u32) -> Result<Octets, AllocError>
    ensures { IfOk result (λ name. name ≡ spec.dotted_fid fid) }
{
    let mut name = Octets::from_slice(alloc, b".")?;
    put_decimal(&mut name, fid as u64)?;
    Ok(name)
}

/// A request of a session's step, with such a name.
pub(crate) fn dotted_request(alloc: Global, request: Request) -> Result<Request, AllocError>
    ensures { IfOk result (λ q. q ≡ rows.dotted_request request) }
{
    Ok(match request {
        Request::Open { name, path, mode } => Request::Open {
            name: dotted(alloc, &name)?,
            path,
            mode,
        },
        Request::Read { name, count } => Request::Read {
            name: dotted(alloc, &name)?,
            count,
        },
        Request::Write { name, text } => Request::Write {
            name: dotted(alloc, &name)?,
            text,
        },
        Request::Close { name } => Request::Close {
            name: dotted(alloc, &name)?,
        },
        other => other,
    })
}

// A dot stands in place of the first byte.
fn dotted(alloc: Global, name: &Octets) -> Result<Octets, AllocError>
    ensures { IfOk result (λ dotted. dotted ≡ spec.dotted name.now) }
{
    let mut dotted = Octets::from_slice(alloc, b".")?;
    if let Some((_, rest)) = name.as_slice().split_first() {
        dotted.append(rest)?;
    }
    Ok(dotted)
}
