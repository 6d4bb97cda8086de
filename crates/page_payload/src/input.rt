//! The input in characters that a page may have.
ghost use Rattle.std.specs.Prelude.{◌≡◌, ◌++◌, true, flat_map, OnOk};
ghost use Rattle.page_payload.specs.Encoding as spec;

use net_base::Octets;
use std::alloc::AllocError;
use words::put_hex_digits;

/// Whether a byte is kept as it is.
fn is_kept(byte: u8) -> bool
    ensures { result ≡ spec.is_kept byte }
{
    byte == 10
        || (32 <= byte && byte <= 126 && byte != 60 && byte != 62 && byte != 38 && byte != 92)
}

fn put_byte(out: &mut Octets, byte: u8) -> Result<(), AllocError>
    ensures { OnOk result (out.new ≡ out.old ++ spec.encoded_byte byte) }
{
    if is_kept(byte) {
        return out.push(byte);
    }
    out.append(b"\\")?;
    put_hex_digits(out, &[byte])
}

fn put_bytes(out: &mut Octets, input: &[u8]) -> Result<(), AllocError>
    ensures { OnOk result (out.new ≡ out.old ++ flat_map spec.encoded_byte input.now) }
{
    for byte in input {
        put_byte(out, *byte)?;
    }
    Ok(())
}

// Whether the last line, if there is one, ends with a newline.
fn ends_line(input: &[u8]) -> bool
    ensures { result ≡ spec.ends_line true input.now }
{
    let mut ended = true;
    for byte in input {
        ended = *byte == 10;
    }
    ended
}

/// Adds an input. A byte that a page may not have is a backslash and two hexadecimal digits. A backslash and a newline follow
/// a last line without a newline.
pub fn put_input(out: &mut Octets, input: &[u8]) -> Result<(), AllocError>
    ensures { OnOk result (out.new ≡ out.old ++ spec.encoded input.now) }
{
    put_bytes(out, input)?;
    if ends_line(input) {
        return Ok(());
    }
    out.append(b"\\\n")
}
