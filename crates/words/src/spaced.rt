//! Words of a line, each with a blank before it.
ghost use Rattle.std.specs.Prelude.{◌≡◌, ◌∷◌, ◌++◌, [], OnOk};
ghost use Rattle.net_base.specs.Numeral.{numeral};
ghost use Rattle.net_base.specs.Transcript.{spaced, addr_word, ip_or_star, number_or_star};

use crate::address::{put_address, put_place};
use crate::number::put_decimal;
use net_base::{Addr, Octets};
use std::alloc::AllocError;

/// A word as it is.
#[inline(always)]
pub fn put_word(out: &mut Octets, word: &[u8]) -> Result<(), AllocError>
    ensures { OnOk result (out.new ≡ out.old ++ spaced (word.now ∷ [])) }
{
    out.push(b' ')?;
    out.append(word)
}

/// A number.
#[inline(always)]
#[tactic(auto, using(crate::proofs::Numerals::numeral_one))]
pub fn put_number(out: &mut Octets, n: u64) -> Result<(), AllocError>
    ensures { OnOk result (out.new ≡ out.old ++ spaced (numeral n ∷ [])) }
{
    if n < 10 {
        return out.append(&[b' ', b'0' + n as u8]);
    }
    out.push(b' ')?;
    put_decimal(out, n)
}

/// An address with its port.
pub fn put_addr(out: &mut Octets, addr: Addr) -> Result<(), AllocError>
    ensures { OnOk result (out.new ≡ out.old ++ spaced (addr_word addr ∷ [])) }
{
    out.push(b' ')?;
    put_place(out, addr)
}

/// A port, or a star for any.
pub fn put_port_or_star(out: &mut Octets, port: Option<u16>) -> Result<(), AllocError>
    ensures { OnOk result (out.new ≡ out.old ++ spaced (number_or_star port ∷ [])) }
{
    match port {
        Some(port) => put_number(out, port as u64),
        None => put_word(out, b"*"),
    }
}

/// An address without a port, or a star for any.
pub fn put_ip_or_star(out: &mut Octets, ip: Option<u32>) -> Result<(), AllocError>
    ensures { OnOk result (out.new ≡ out.old ++ spaced (ip_or_star ip ∷ [])) }
{
    match ip {
        Some(ip) => {
            out.push(b' ')?;
            put_address(out, ip)
        }
        None => put_word(out, b"*"),
    }
}
