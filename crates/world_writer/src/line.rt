//! The words of a line, with one blank between two.
ghost use Rattle.std.specs.Prelude.{◌≡◌, ◌∷◌, ◌++◌, [], decimal, OnOk};
ghost use Rattle.net_base.specs.ControlWords.{dotted};
ghost use Rattle.net_base.specs.Hexadecimal.{hex_word};
ghost use Rattle.world_text.specs.WorldSpelling.{spaced_line};

use net_base::Octets;
use std::alloc::AllocError;
use words::{put_address, put_decimal, put_hex_word};

/// Adds two words.
pub fn put_two(out: &mut Octets, first: &[u8], second: &[u8]) -> Result<(), AllocError>
    ensures { OnOk result (out.new ≡ out.old ++ spaced_line (first.now ∷ second.now ∷ [])) }
{
    out.append(first)?;
    put_word(out, second)
}

/// Adds three words.
pub fn put_three(
    out: &mut Octets,
    first: &[u8],
    second: &[u8],
    third: &[u8],
) -> Result<(), AllocError>
    ensures { OnOk result (out.new ≡ out.old ++ spaced_line (first.now ∷ second.now ∷ third.now ∷ [])) }
{
    put_two(out, first, second)?;
    put_word(out, third)
}

/// Adds a word behind others.
pub fn put_word(out: &mut Octets, word: &[u8]) -> Result<(), AllocError>
    ensures { OnOk result (out.new ≡ out.old ++ 32 ∷ word.now) }
{
    out.push(b' ')?;
    out.append(word)
}

/// Adds a number behind words.
pub fn put_number(out: &mut Octets, n: u64) -> Result<(), AllocError>
    ensures { OnOk result (out.new ≡ out.old ++ 32 ∷ decimal n) }
{
    out.push(b' ')?;
    put_decimal(out, n)
}

/// Adds an address behind words.
pub fn put_ip(out: &mut Octets, ip: u32) -> Result<(), AllocError>
    ensures { OnOk result (out.new ≡ out.old ++ 32 ∷ dotted ip) }
{
    out.push(b' ')?;
    put_address(out, ip)
}

/// Adds two addresses behind words.
pub fn put_ips(out: &mut Octets, first: u32, second: u32) -> Result<(), AllocError>
    ensures { OnOk result (out.new ≡ out.old ++ 32 ∷ spaced_line (dotted first ∷ dotted second ∷ [])) }
{
    put_ip(out, first)?;
    put_ip(out, second)
}

/// Adds three addresses behind words.
pub fn put_three_ips(
    out: &mut Octets,
    first: u32,
    second: u32,
    third: u32,
) -> Result<(), AllocError>
    ensures { OnOk result (out.new ≡ out.old ++ 32 ∷ spaced_line (dotted first ∷ dotted second ∷ dotted third ∷ [])) }
{
    put_ip(out, first)?;
    put_ips(out, second, third)
}

/// Adds bytes in hexadecimal behind words.
pub fn put_hex(out: &mut Octets, bytes: &[u8]) -> Result<(), AllocError>
    ensures { OnOk result (out.new ≡ out.old ++ 32 ∷ hex_word bytes.now) }
{
    out.push(b' ')?;
    put_hex_word(out, bytes)
}
