//! The versions of a world's database: the bundles behind `ndb`, and the lines `%at M` between them.
ghost use Rattle.std.specs.Prelude.{◌≡◌, ◌+◌, ◌-◌, ◌<◌, ◌≤◌, ◌^◌, length, take, drop, Some, None, IfOk, IfErr, IfSome, IfNone};
ghost use Rattle.net_base.specs.NdbBundle.{bad_line, database};
ghost use Rattle.net_base.specs.NdbText.{lines_of};
ghost use Rattle.world_text.specs.LineCauses.{cause_number_of};
ghost use Rattle.world_text.specs.VersionLines as spec;
ghost use Rattle.world_file.specs.Bundles.{IsFront, IsWithoutVersion, TellsMoment};
ghost use Rattle.world_file.specs.Told.{TellsBehind};
ghost use Rattle.world_file.specs.declared.fault.WorldError.TheVariants as error;

use crate::fault::WorldError;
use crate::reader::cut_line;
use ndb_reader::{NdbError, read_ndb};
use net_base::{Db, Version, Versions};
use std::alloc::Global;
use words::number_in;
use world_text::LineCause;

/// The versions that stand behind the line with this number, or their first bad line.
pub(crate) fn read_versions(alloc: Global, number: u64, text: &[u8]) -> Result<Versions, WorldError>
    requires { number + length text.now < 2 ^ 63 }
    ensures ok { IfOk result (λ versions. (spec.bad_version_line text.now ≡ None)
        × (versions ≡ spec.versions_in (lines_of text.now))) }
    ensures bad { IfErr result (λ e. TellsBehind number e (spec.bad_version_line text.now)) }
{
    let mut versions = Versions::new(alloc);
    let mut moment: u64 = 0;
    let mut before = number;
    let mut rest = text;
    while let Some((place, lines)) = next_version(rest) {
        let db = read_bundle(alloc, before, bundle_before(rest, place))?;
        versions.push(Version { moment, db })?;
        let (line, behind) = cut_line(from(rest, place));
        before += lines + 1;
        moment = moment_behind(moment, line, before)?;
        rest = behind;
    }
    let db = read_bundle(alloc, before, rest)?;
    versions.push(Version { moment, db })?;
    Ok(versions)
}

/// How many bytes and lines stand before the first line that begins a version, if one does.
fn next_version(text: &[u8]) -> Option<(usize, u64)>
    requires { length text.now < 2 ^ 63 }
    ensures some { IfSome result (λ found. IsFront text.now found.0 found.1) }
    ensures none { IfNone result (IsWithoutVersion text.now) }
{
    let mut lines = 0;
    let mut rest = text;
    while !rest.is_empty() {
        let (line, behind) = cut_line(rest);
        if is_at_line(line) {
            return Some((text.len() - rest.len(), lines));
        }
        lines += 1;
        rest = behind;
    }
    None
}

/// The bundle that stands before a line at this place, without the newline before that line.
fn bundle_before(text: &[u8], place: usize) -> &[u8]
    requires { place ≤ length text.now }
    ensures { result.now ≡ take (place - 1) text.now }
{
    &text[..place.saturating_sub(1)]
}

/// What stands from a place on.
fn from(text: &[u8], place: usize) -> &[u8]
    requires { place ≤ length text.now }
    ensures { result.now ≡ drop place text.now }
{
    &text[place..]
}

/// Whether a line begins a version: `%at` alone or before a blank.
fn is_at_line(line: &[u8]) -> bool
    ensures { result ≡ spec.is_at_line line.now }
{
    line == b"%at".as_slice() || line.starts_with(b"%at ")
}

/// The moment of a line `%at M` with this number, which is above the one before.
fn moment_behind(last: u64, line: &[u8], number: u64) -> Result<u64, WorldError>
    ensures ok { IfOk result (λ moment. (spec.moment_of line.now ≡ Some moment) × (last < moment)) }
    ensures bad { IfErr result (TellsMoment number last line.now) }
{
    let Some(moment) = moment_of(line) else {
        return Err(bad_at(number, LineCause::WrongArgument));
    };
    if moment <= last {
        return Err(bad_at(number, LineCause::EarlyVersion));
    }
    Ok(moment)
}

fn bad_at(line: u64, cause: LineCause) -> WorldError
    ensures { result ≡ error.Bad line (cause_number_of cause) }
{
    WorldError::Bad {
        line,
        cause: cause.number(),
    }
}

/// The moment that a line which begins a version names.
fn moment_of(line: &[u8]) -> Option<u64>
    ensures { result ≡ spec.moment_of line.now }
{
    let [_, _, _, _, word @ ..] = line else {
        return None;
    };
    number_in(1, 1_000_000_000, word)
}

/// The database of a bundle that stands behind the line with this number.
#[tactic(auto, using(crate::proofs::Cuts::is_database, crate::proofs::Cuts::told_behind))]
fn read_bundle(alloc: Global, number: u64, text: &[u8]) -> Result<Db, WorldError>
    requires { number + length text.now < 2 ^ 63 }
    ensures ok { IfOk result (λ db. (bad_line text.now ≡ None) × (db ≡ database (lines_of text.now))) }
    ensures bad { IfErr result (λ e. TellsBehind number e (bad_line text.now)) }
{
    match read_ndb(alloc, text) {
        Ok(db) => Ok(db),
        Err(NdbError::Memory) => Err(WorldError::Memory),
        Err(NdbError::Bad { line, cause }) => Err(WorldError::Bad {
            line: number + line,
            cause,
        }),
    }
}
