//! Addresses and the nets and services that complete them.
ghost use Rattle.std.specs.Prelude.{◌≡◌, ◌==◌, ◌≤◌, ◌+◌, ◌++◌, codes, count_by, drop, length, take, IfOk};
ghost use Rattle.net_base.specs.Steps as steps;
ghost use Rattle.dial_lib.specs.Written.{LaysCall, call_written};

use net_base::Octets;
use std::alloc::{AllocError, Global};

/// Completes an address by a net and a service where it lacks them, at the front of `out`, and gives its length in bytes.
pub fn netmkaddr(address: &[u8], net: &[u8], service: &[u8], out: &mut [u8]) -> usize
    requires room { length (steps.netmkaddr address.now net.now service.now) ≤ length out.old }
    ensures len { result ≡ length (steps.netmkaddr address.now net.now service.now) }
    ensures text { out.new ≡ steps.netmkaddr address.now net.now service.now ++ drop result out.old }
{
    let bang = b"!".as_slice();
    match bangs(address) {
        0 => put_all(out, &[net, bang, address, bang, service]),
        1 => put_all(out, &[address, bang, service]),
        _ => put_all(out, &[address]),
    }
}

/// The query for the lines of an address, which is completed by the net `net` and the service `9fs`.
pub fn query_of(alloc: Global, address: &[u8]) -> Result<Octets, AllocError>
    ensures { IfOk result (λ query. query ≡ steps.netmkaddr address.now (codes "net") (codes "9fs")) }
{
    let mut query = vec![in alloc; 0; address.len() + 8]?;
    let length = netmkaddr(address, b"net", b"9fs", &mut query);
    query.truncate(length);
    Ok(Octets::from_vec(query))
}

// How many `!` there are.
fn bangs(address: &[u8]) -> usize
    ensures { result ≡ count_by (λ b. b == 33) address.now }
{
    address.iter().filter(|byte| **byte == b'!').count()
}

// Writes texts in a row at the front, and gives their length.
fn put_all(out: &mut [u8], texts: &[&[u8]]) -> usize
    requires { length (call_written texts.now) ≤ length out.old }
    ensures { LaysCall (call_written texts.now) out.old out.new result }
{
    let mut at = 0;
    for text in texts {
        at = put(out, at, text);
    }
    at
}

// Writes a text at a place, and gives the place behind it.
fn put(out: &mut [u8], at: usize, text: &[u8]) -> usize
    requires { at + length text.now ≤ length out.old }
    ensures end { result ≡ at + length text.now }
    ensures text { out.new ≡ take at out.old ++ (text.now ++ drop result out.old) }
{
    let end = at + text.len();
    out[at..end].copy_from_slice(text);
    end
}
