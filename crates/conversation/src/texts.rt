//! The texts of the files.
ghost use Rattle.std.specs.Prelude.{◌≡◌, take, decimal, IfOk};
ghost use Rattle.net_base.specs.ControlWords as control;
ghost use Rattle.net_base.specs.Conversation as spec;
ghost use Rattle.net_base.specs.Paths as paths;

use net_base::{Addr, Lines, Octets, Sequence};
use std::alloc::{AllocError, Global};
use words::{put_decimal, put_place};

/// A number.
pub fn number(alloc: Global, n: u32) -> Result<Octets, AllocError>
    ensures { IfOk result (λ text. text ≡ decimal n) }
{
    let mut text = Octets::new(alloc);
    put_decimal(&mut text, u64::from(n))?;
    Ok(text)
}

/// A text and a newline.
pub fn line(alloc: Global, text: &[u8]) -> Result<Octets, AllocError>
    ensures { IfOk result (λ out. out ≡ spec.line text.now) }
{
    let mut out = Octets::from_slice(alloc, text)?;
    out.push(b'\n')?;
    Ok(out)
}

/// An address with its port, and a newline.
pub fn address_line(alloc: Global, at: Addr) -> Result<Octets, AllocError>
    ensures { IfOk result (λ out. out ≡ spec.line (control.place at)) }
{
    let mut out = Octets::new(alloc);
    put_place(&mut out, at)?;
    out.push(b'\n')?;
    Ok(out)
}

/// The names of the files.
pub fn file_names(alloc: Global) -> Result<Lines, AllocError>
    ensures { IfOk result (λ names. names ≡ paths.file_names) }
{
    let mut names = Sequence::new(alloc);
    names.push(Octets::from_slice(alloc, b"ctl")?)?;
    names.push(Octets::from_slice(alloc, b"data")?)?;
    names.push(Octets::from_slice(alloc, b"err")?)?;
    names.push(Octets::from_slice(alloc, b"listen")?)?;
    names.push(Octets::from_slice(alloc, b"local")?)?;
    names.push(Octets::from_slice(alloc, b"remote")?)?;
    names.push(Octets::from_slice(alloc, b"status")?)?;
    Ok(names)
}

/// At most so many first bytes.
pub fn first_bytes(text: &[u8], count: u32) -> &[u8]
    ensures { result.now ≡ take count text.now }
{
    &text[..text.len().min(count as usize)]
}
