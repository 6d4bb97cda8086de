//! The text of a world, line by line.
ghost use Rattle.std.specs.Prelude.{◌≡◌, ◌+◌, ◌^◌, ◌<◌, ◌∷◌, length, drop, Ok, IfOk, IfErr};
ghost use Rattle.std.specs.List.{position_or_len};
ghost use Rattle.net_base.specs.NdbText.{is_newline};
ghost use Rattle.net_base.specs.World.{IsWorld};
ghost use Rattle.world_text.specs.WorldLines as spec;
ghost use Rattle.world_text.specs.WorldSpelling.{IsWorldText};
ghost use Rattle.world_text.specs.VersionLines.{bad_version_line};
ghost use Rattle.world_text.specs.WorldText.{cuts_of, missing, with_versions, world_reading};
ghost use Rattle.world_file.specs.Told.{Tells, TellsAt};

use crate::draft::Draft;
use crate::fault::WorldError;
use crate::versions::read_versions;
use net_base::World;
use std::alloc::Global;
use words::are_bytes;
use world_text::{worlds_are_spelled, worlds_so_far_are_small};
use world_words::LineFault;

/// The world that a text says, or its first bad line. It goes once through the bytes, and copies each at most once.
pub fn read_world(alloc: Global, bytes: &[u8]) -> Result<World, WorldError>
    ensures ok { IfOk result (λ w. world_reading bytes.now ≡ Ok w) }
    ensures bad { IfErr result (λ e. Tells e (world_reading bytes.now)) }
    ensures spelled { IfOk result (λ w. IsWorldText bytes.now w) }
    ensures world { IfOk result (λ w. IsWorld w) }
{
    worlds_are_spelled();
    are_bytes(bytes);
    read_lines(alloc, bytes)
}

fn read_lines(alloc: Global, bytes: &[u8]) -> Result<World, WorldError>
    ensures ok { IfOk result (λ w. world_reading bytes.now ≡ Ok w) }
    ensures bad { IfErr result (λ e. Tells e (world_reading bytes.now)) }
{
    worlds_so_far_are_small();
    let mut draft = Draft::new(alloc);
    let mut number: u64 = 1;
    let mut rest = bytes;
    while !rest.is_empty() {
        let (line, behind) = cut_line(rest);
        match draft.take_text(alloc, line) {
            Ok(false) => {}
            Ok(true) => return read_bundles(alloc, draft, number, behind),
            Err(fault) => return Err(at_line(fault, number)),
        }
        number += 1;
        rest = behind;
    }
    Err(WorldError::Bad {
        line: number,
        cause: draft.missing().number(),
    })
}

/// The world of a draft with the versions that stand behind the line with this number.
pub(crate) fn read_bundles(
    alloc: Global,
    draft: Draft,
    number: u64,
    text: &[u8],
) -> Result<World, WorldError>
    requires { number + length text.now < 2 ^ 63 }
    ensures ok { IfOk result (λ w. with_versions number (spec.world_of draft) text.now (bad_version_line text.now)
        ≡ Ok w) }
    ensures bad { IfErr result (λ e. Tells e (with_versions number (spec.world_of draft) text.now
        (bad_version_line text.now))) }
{
    let mut world = draft.finish(alloc)?;
    world.dbs = read_versions(alloc, number, text)?;
    Ok(world)
}

/// The fault of the line with this number.
pub(crate) fn at_line(fault: LineFault, number: u64) -> WorldError
    ensures { TellsAt fault number result }
{
    match fault {
        LineFault::Memory => WorldError::Memory,
        LineFault::Cause(cause) => WorldError::Bad {
            line: number,
            cause: cause.number(),
        },
    }
}

/// The first line of a text, and what stands behind its newline.
pub fn cut_line(text: &[u8]) -> (&[u8], &[u8])
    requires { 0 < length text.now }
    ensures cut { cuts_of text.now ≡ record { line = result.0.now; behind = result.1.now } ∷ cuts_of result.1.now }
    ensures less { length result.1.now < length text.now }
{
    let end = line_len(text);
    (&text[..end], behind(text, end))
}

/// How many bytes stand before the first newline.
fn line_len(text: &[u8]) -> usize
    ensures { result ≡ position_or_len is_newline text.now }
{
    text.iter()
        .position(|byte| *byte == b'\n')
        .unwrap_or(text.len())
}

/// What stands behind a place.
fn behind(text: &[u8], place: usize) -> &[u8]
    ensures { result.now ≡ drop (place + 1) text.now }
{
    if place < text.len() {
        &text[place + 1..]
    } else {
        &[]
    }
}
