//! Blocks of a capture file, and options in them.
ghost use Rattle.std.specs.Prelude.{◌≡◌, ◌+◌, ◌++◌, OnOk};
ghost use Rattle.pcapng.specs.Blocks as spec;

use net_base::Octets;
use std::alloc::AllocError;

/// Adds the low 16 bits of a number, the lowest byte first.
#[tactic(auto, unfolding(crate::specs::Blocks::short_number))]
pub fn put_short(out: &mut Octets, n: u16) -> Result<(), AllocError>
    ensures { OnOk result (out.new ≡ out.old ++ spec.short_number n) }
{
    out.append(&n.to_le_bytes())
}

/// Adds the low 32 bits of a number, the lowest byte first.
#[tactic(auto, unfolding(crate::specs::Blocks::long_number))]
pub fn put_long(out: &mut Octets, n: u32) -> Result<(), AllocError>
    ensures { OnOk result (out.new ≡ out.old ++ spec.long_number n) }
{
    out.append(&n.to_le_bytes())
}

// Adds a length in 16 bits.
#[tactic(auto, using(crate::proofs::Wrapping::short_wraps))]
fn put_length(out: &mut Octets, count: usize) -> Result<(), AllocError>
    ensures { OnOk result (out.new ≡ out.old ++ spec.short_number count) }
{
    put_short(out, (count % 65536) as u16)
}

// Adds the total length of a block.
#[tactic(auto, using(crate::proofs::Wrapping::total_wraps))]
fn put_total(out: &mut Octets, count: usize) -> Result<(), AllocError>
    ensures { OnOk result (out.new ≡ out.old ++ spec.long_number (count + 12)) }
{
    put_long(out, ((count % 4294967296) as u32).wrapping_add(12))
}

// The bytes from a length to the next multiple of 4.
fn padding(count: usize) -> &'static [u8]
    ensures { result.now ≡ spec.padding count }
{
    match count % 4 {
        1 => &[0, 0, 0],
        2 => &[0, 0],
        3 => &[0],
        _ => &[],
    }
}

/// Adds bytes, and fills the last group of 4.
pub fn put_padded(out: &mut Octets, bytes: &[u8]) -> Result<(), AllocError>
    ensures { OnOk result (out.new ≡ out.old ++ spec.padded bytes.now) }
{
    out.append(bytes)?;
    out.append(padding(bytes.len()))
}

/// Adds an option.
#[tactic(auto, unfolding(crate::specs::Blocks::option_bytes))]
pub fn put_option(out: &mut Octets, code: u16, value: &[u8]) -> Result<(), AllocError>
    ensures { OnOk result (out.new ≡ out.old ++ spec.option_bytes code value.now) }
{
    put_short(out, code)?;
    put_length(out, value.len())?;
    put_padded(out, value)
}

/// Adds a block: its type, its total length, its body, and its total length again.
#[tactic(auto, unfolding(crate::specs::Blocks::block))]
pub fn put_block(out: &mut Octets, kind: u32, body: &[u8]) -> Result<(), AllocError>
    ensures { OnOk result (out.new ≡ out.old ++ spec.block kind body.now) }
{
    put_long(out, kind)?;
    put_total(out, body.len())?;
    out.append(body)?;
    put_total(out, body.len())
}
