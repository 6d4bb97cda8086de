//! The file of a world.
ghost use Rattle.std.specs.Prelude.{◌≡◌, ◌∷◌, ◌++◌, [], flat_map, IfOk, OnOk};
ghost use Rattle.world_text.specs.WorldSpelling.{laid, line_of_end, line_of_seed, line_of_timers, lines_of_world};
ghost use Rattle.ndb_reader.specs.Written.{db_text};
ghost use Rattle.world_writer.specs.Written.{world_file_text, later_text, lines_of_parts, versions_text};

use crate::hosts::put_hosts;
use crate::line::put_number;
use crate::media::put_media;
use crate::scripts::put_scripts;
use ndb_reader::write_ndb;
use net_base::{HostSpec, MediumSpec, Octets, Script, Timers, Version, World};
use std::alloc::{AllocError, Global};

/// Adds the first line, which names the kind of timers.
fn put_timers(out: &mut Octets, timers: Timers) -> Result<(), AllocError>
    ensures { OnOk result (out.new ≡ out.old ++ laid (line_of_timers timers ∷ [])) }
{
    match timers {
        Timers::Fixed => out.append(b"networld 1\n"),
        Timers::Measured => out.append(b"networld 2\n"),
    }
}

/// Adds the lines that stand before the media.
fn put_head(out: &mut Octets, world: &World) -> Result<(), AllocError>
    ensures { OnOk result (out.new ≡ out.old ++ laid
        (line_of_timers world.now.timers ∷ line_of_end world.now.end ∷ line_of_seed world.now.seed ∷ [])) }
{
    put_timers(out, world.timers)?;
    out.append(b"end")?;
    put_number(out, world.end)?;
    out.append(b"\nseed")?;
    put_number(out, world.seed)?;
    out.push(b'\n')
}

/// Adds the lines of media, hosts and scripts.
fn put_parts(
    out: &mut Octets,
    media: &[MediumSpec],
    hosts: &[HostSpec],
    scripts: &[Script],
) -> Result<(), AllocError>
    ensures { OnOk result (out.new ≡ out.old ++ laid (lines_of_parts media.now hosts.now scripts.now)) }
{
    put_media(out, media)?;
    put_hosts(out, media, hosts)?;
    put_scripts(out, hosts, scripts)
}

/// Adds the lines before `ndb`.
fn put_lines(out: &mut Octets, world: &World) -> Result<(), AllocError>
    ensures { OnOk result (out.new ≡ out.old ++ laid (lines_of_world world.now)) }
{
    put_head(out, world)?;
    let media = world.media.as_slice();
    let hosts = world.hosts.as_slice();
    put_parts(out, media, hosts, world.scripts.as_slice())
}

/// Adds a later version: the line that begins it, and the text of its database.
fn put_later(alloc: Global, out: &mut Octets, version: &Version) -> Result<(), AllocError>
    ensures { OnOk result (out.new ≡ out.old ++ later_text version.now) }
{
    out.append(b"%at")?;
    put_number(out, version.moment)?;
    out.push(b'\n')?;
    put_database(alloc, out, version)
}

/// Adds the text of a version's database.
fn put_database(alloc: Global, out: &mut Octets, version: &Version) -> Result<(), AllocError>
    ensures { OnOk result (out.new ≡ out.old ++ db_text version.now.db) }
{
    let text = write_ndb(alloc, &version.db)?;
    out.append(text.as_slice())
}

/// Adds later versions.
fn put_all_later(alloc: Global, out: &mut Octets, versions: &[Version]) -> Result<(), AllocError>
    ensures { OnOk result (out.new ≡ out.old ++ flat_map later_text versions.now) }
{
    for version in versions {
        put_later(alloc, out, version)?;
    }
    Ok(())
}

/// Adds the text of all versions.
fn put_versions(alloc: Global, out: &mut Octets, versions: &[Version]) -> Result<(), AllocError>
    ensures { OnOk result (out.new ≡ out.old ++ versions_text versions.now) }
{
    let [first, later @ ..] = versions else {
        return Ok(());
    };
    put_database(alloc, out, first)?;
    put_all_later(alloc, out, later)
}

/// The text of a world's file: its lines, `ndb`, and the text of its versions.
pub fn write_world(alloc: Global, world: &World) -> Result<Octets, AllocError>
    ensures { IfOk result (λ text. text ≡ world_file_text world.now) }
{
    let mut out = Octets::new(alloc);
    put_lines(&mut out, world)?;
    out.append(b"ndb\n")?;
    put_versions(alloc, &mut out, world.dbs.as_slice())?;
    Ok(out)
}
