//! The parts of a payload.
ghost use Rattle.std.specs.Prelude.{◌≡◌, ◌++◌, count_by, OnOk};
ghost use Rattle.page_payload.specs.PlainText.{is_newline};
ghost use Rattle.page_payload.specs.Parts as spec;

use net_base::Octets;
use std::alloc::AllocError;
use words::put_number;

// The number of lines of a text whose last line ends with a newline.
fn lines_in(text: &[u8]) -> usize
    ensures { result ≡ count_by is_newline text.now }
{
    text.iter().filter(|byte| **byte == b'\n').count()
}

/// Adds a part: its name with the number of its lines, and then the lines.
pub fn put_part(out: &mut Octets, name: &[u8], lines: &[u8]) -> Result<(), AllocError>
    ensures { OnOk result (out.new ≡ out.old ++ spec.part name.now lines.now) }
{
    out.append(b"%")?;
    out.append(name)?;
    put_number(out, lines_in(lines) as u64)?;
    out.append(b"\n")?;
    out.append(lines)
}
