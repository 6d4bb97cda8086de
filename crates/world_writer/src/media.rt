//! The lines of media.
ghost use Rattle.std.specs.Prelude.{◌≡◌, ◌∷◌, ◌++◌, [], map, flat_map, OnOk};
ghost use Rattle.world_text.specs.WorldSpelling as spec;
ghost use Rattle.world_text.specs.WorldSpelling.{laid};

use crate::line::{put_number, put_two, put_word};
use net_base::{Fate, FateRange, MediumSpec, Octets};
use std::alloc::AllocError;
use words::put_decimal;

/// The word of a fate.
fn fate_word(fate: Fate) -> &'static [u8]
    ensures { result.now ≡ spec.fate_word fate }
{
    match fate {
        Fate::Deliver => b"deliver",
        Fate::Lose => b"lose",
        Fate::Twice => b"twice",
        Fate::Later => b"later",
    }
}

/// Adds the frames of a fate: the first, and the last where it is another.
fn put_frames(out: &mut Octets, range: &FateRange) -> Result<(), AllocError>
    ensures { OnOk result (out.new ≡ out.old ++ 32 ∷ spec.frames_word range.now) }
{
    put_number(out, range.first)?;
    if range.first == range.last {
        return Ok(());
    }
    out.append(b"-")?;
    put_decimal(out, range.last)
}

/// Adds a `fate` line of the medium with this name.
fn put_fate(out: &mut Octets, name: &[u8], range: &FateRange) -> Result<(), AllocError>
    ensures { OnOk result (out.new ≡ out.old ++ laid (spec.line_of_fate name.now range.now ∷ [])) }
{
    put_two(out, b"fate", name)?;
    put_frames(out, range)?;
    put_word(out, fate_word(range.fate))?;
    out.push(b'\n')
}

/// Adds the `fate` lines of the medium with this name.
fn put_fates(out: &mut Octets, name: &[u8], fates: &[FateRange]) -> Result<(), AllocError>
    ensures { OnOk result (out.new ≡ out.old ++ laid (map (spec.line_of_fate name.now) fates.now)) }
{
    for range in fates {
        put_fate(out, name, range)?;
    }
    Ok(())
}

/// Adds the `rates` line of a medium, unless all of its rates are 0.
fn put_rates(out: &mut Octets, medium: &MediumSpec) -> Result<(), AllocError>
    ensures { OnOk result (out.new ≡ out.old ++ laid (spec.lines_of_rates medium.now)) }
{
    if medium.loss == 0 && medium.twice == 0 && medium.later == 0 {
        return Ok(());
    }
    put_two(out, b"rates", medium.name.as_slice())?;
    put_number(out, u64::from(medium.loss))?;
    put_number(out, u64::from(medium.twice))?;
    put_number(out, u64::from(medium.later))?;
    out.push(b'\n')
}

/// Adds the lines of a medium.
#[tactic(auto, using(crate::proofs::Laid::laid_append))]
fn put_medium(out: &mut Octets, medium: &MediumSpec) -> Result<(), AllocError>
    ensures { OnOk result (out.new ≡ out.old ++ laid (spec.lines_of_medium medium.now)) }
{
    put_two(out, b"medium", medium.name.as_slice())?;
    put_number(out, u64::from(medium.mtu))?;
    out.push(b'\n')?;
    put_rates(out, medium)?;
    put_fates(out, medium.name.as_slice(), medium.fates.as_slice())
}

/// Adds the lines of media.
pub fn put_media(out: &mut Octets, media: &[MediumSpec]) -> Result<(), AllocError>
    ensures { OnOk result (out.new ≡ out.old ++ laid (flat_map spec.lines_of_medium media.now)) }
{
    for medium in media {
        put_medium(out, medium)?;
    }
    Ok(())
}

/// The name of a medium by its place, and none where no medium has it.
pub fn medium_name(media: &[MediumSpec], place: u32) -> &[u8]
    ensures { result.now ≡ spec.nth_name (spec.medium_names media.now) place }
{
    match media.get(place as usize) {
        Some(medium) => medium.name.as_slice(),
        None => b"",
    }
}
