//! Addresses that files tell.
ghost use Rattle.std.specs.Prelude.{◌≡◌};
ghost use Rattle.net_base.specs.Addresses.{parts_at};
ghost use Rattle.net_base.specs.Steps as steps;

use ctl_words::without_newline;
use net_base::{Addr, Octets, Reply};
use script_task::bytes_in;
use std::alloc::Global;
use words::{address_in, number_in, two_parts};

/// The address A!PORT that a reply tells, or 0.0.0.0!0 where it tells none.
pub fn address_told(reply: &Reply) -> Addr
    ensures { result ≡ steps.address_told (steps.bytes_in reply.now) }
{
    match place_in(without_newline(bytes_in(reply))) {
        Some(at) => at,
        None => Addr { ip: 0, port: 0 },
    }
}

/// The bytes of a reply, or none. It takes no memory.
pub fn taken_bytes(alloc: Global, reply: Reply) -> Octets
    ensures { result ≡ steps.bytes_in reply }
{
    match reply {
        Reply::Bytes { bytes } => bytes,
        _ => Octets::new(alloc),
    }
}

// An address with its port, a `!` between them.
fn place_in(text: &[u8]) -> Option<Addr>
    ensures { result ≡ steps.place_in (parts_at 33 text.now) }
{
    let (ip, port) = two_parts(text, b'!')?;
    let ip = address_in(ip)?;
    let port = number_in(0, 65535, port)?;
    Some(Addr {
        ip,
        port: port as u16,
    })
}
