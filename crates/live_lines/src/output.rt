//! The first line, the line of an invalid input line, and the last line.
ghost use Rattle.std.specs.Prelude.{◌≡◌, ◌++◌, OnOk, map};
ghost use Rattle.net_base.specs.Numeral.{numeral};
ghost use Rattle.net_base.specs.Transcript.{spaced};
ghost use Rattle.live_lines.specs.OutputLines as spec;

use crate::cause::LiveCause;
use net_base::{Octets, RunEnd};
use std::alloc::AllocError;
use words::{put_decimal, put_number};

/// Writes the first line: `netlive 1` and the numbers of the places.
pub fn put_places(out: &mut Octets, places: &[u32]) -> Result<(), AllocError>
    ensures { OnOk result (out.new ≡ out.old ++ spec.places_line places.now) }
{
    out.append(b"netlive 1")?;
    put_numbers(out, places)?;
    out.push(b'\n')
}

fn put_numbers(out: &mut Octets, numbers: &[u32]) -> Result<(), AllocError>
    ensures { OnOk result (out.new ≡ out.old ++ spaced (map numeral numbers.now)) }
{
    for number in numbers {
        put_number(out, u64::from(*number))?;
    }
    Ok(())
}

/// Writes the line of an invalid input line. Lines are counted from 1.
pub fn put_bad_line(out: &mut Octets, line: u64, cause: LiveCause) -> Result<(), AllocError>
    ensures { OnOk result (out.new ≡ out.old ++ spec.bad_line line cause) }
{
    out.append(b"! line ")?;
    put_decimal(out, line)?;
    out.append(b" cause ")?;
    put_decimal(out, u64::from(cause.number()))?;
    out.push(b'\n')
}

/// Writes the last line: how the run ended, and when in ms.
pub fn put_end(out: &mut Octets, end: RunEnd, moment: u64) -> Result<(), AllocError>
    ensures { OnOk result (out.new ≡ out.old ++ spec.end_text end moment) }
{
    out.append(b"end ")?;
    out.append(end_word(end))?;
    out.append(b" ")?;
    put_decimal(out, moment)?;
    out.push(b'\n')
}

fn end_word(end: RunEnd) -> &'static [u8]
    ensures { result.now ≡ spec.end_word end }
{
    match end {
        RunEnd::Done => b"done",
        RunEnd::Stopped => b"stopped",
        RunEnd::Limit => b"limit",
    }
}
