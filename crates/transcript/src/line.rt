//! Words of a line, each with a blank before it.
ghost use Rattle.std.specs.Prelude.{◌≡◌, ◌∷◌, ◌++◌, [], OnOk};
ghost use Rattle.net_base.specs.Numeral.{numeral};
ghost use Rattle.net_base.specs.Transcript.{spaced, hex_word, as_lines};
ghost use Rattle.transcript.specs.Digits.{line_digits};

use net_base::{Lines, Octets};
use std::alloc::AllocError;
use words::{put_hex_digits, put_hex_word};
pub use words::{put_number, put_word};

/// A word with a number behind it.
pub fn put_with_number(out: &mut Octets, word: &[u8], n: u64) -> Result<(), AllocError>
    ensures { OnOk result (out.new ≡ out.old ++ spaced (word.now ∷ numeral n ∷ [])) }
{
    put_word(out, word)?;
    put_number(out, n)
}

/// A word with two numbers behind it.
pub fn put_with_numbers(out: &mut Octets, word: &[u8], n: u64, m: u64) -> Result<(), AllocError>
    ensures { OnOk result (out.new ≡ out.old ++ spaced (word.now ∷ numeral n ∷ numeral m ∷ [])) }
{
    put_with_number(out, word, n)?;
    put_number(out, m)
}

/// Bytes in hexadecimal.
pub fn put_hex(out: &mut Octets, bytes: &[u8]) -> Result<(), AllocError>
    ensures { OnOk result (out.new ≡ out.old ++ spaced (hex_word bytes.now ∷ [])) }
{
    out.push(b' ')?;
    put_hex_word(out, bytes)
}

/// A word with bytes in hexadecimal behind it.
pub fn put_with_hex(out: &mut Octets, word: &[u8], bytes: &[u8]) -> Result<(), AllocError>
    ensures { OnOk result (out.new ≡ out.old ++ spaced (word.now ∷ hex_word bytes.now ∷ [])) }
{
    put_word(out, word)?;
    put_hex(out, bytes)
}

// The digits of texts with a newline after each.
fn put_line_digits(out: &mut Octets, lines: &[Octets]) -> Result<(), AllocError>
    ensures { OnOk result (out.new ≡ out.old ++ line_digits lines.now) }
{
    for line in lines {
        put_hex_digits(out, line.as_slice())?;
        put_hex_digits(out, b"\n")?;
    }
    Ok(())
}

/// Texts in hexadecimal, a newline after each.
fn put_lines(out: &mut Octets, lines: &[Octets]) -> Result<(), AllocError>
    ensures { OnOk result (out.new ≡ out.old ++ spaced (hex_word (as_lines lines.now) ∷ [])) }
{
    if lines.is_empty() {
        put_word(out, b"-")
    } else {
        out.push(b' ')?;
        put_line_digits(out, lines)?;
        Ok(())
    }
}

/// A word with texts in hexadecimal behind it.
pub fn put_with_lines(out: &mut Octets, word: &[u8], lines: &Lines) -> Result<(), AllocError>
    ensures { OnOk result (out.new ≡ out.old ++ spaced (word.now ∷ hex_word (as_lines lines.now) ∷ [])) }
{
    put_word(out, word)?;
    put_lines(out, lines.as_slice())
}
