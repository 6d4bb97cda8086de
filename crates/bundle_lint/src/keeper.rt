//! The notes on a bundle.
ghost use Rattle.std.specs.Prelude.{◌≡◌, None, IfErr, OnOk};
ghost use Rattle.bundle_lint.specs.Told.{Tells};
ghost use Rattle.net_base.specs.NdbBundle.{bad_line};

use crate::attribute::{Attr, near_miss};
use crate::bundle::{Bundle, Line, Pair, Part, Tuple, bundle_of};
use crate::facts::{Facts, Outline, facts_of};
use crate::fault::LintError;
use crate::hosts::{note_hosts, note_unreached};
use crate::network::network_of;
use crate::notes::Notes;
use crate::pair::{Spot, note_pair};
use crate::world::{Setting, setting_of};
use ndb_reader::{NdbError, read_ndb};
use net_base::Octets;
use std::alloc::{AllocError, Global};

/// Notes on a bundle of files of a network database, in the order of their lines. Each note is one line: the number of the line that
/// it is about, what is wrong there, what this means for `cs` or `dns`, and what to write.
///
/// A text that begins with `networld` is a world file: the notes are on its database, and on hosts and interfaces that differ
/// from it. It goes a few times through the text.
pub fn lint(alloc: Global, text: &[u8]) -> Result<Octets, LintError>
    ensures good { OnOk result (bad_line text.now ≡ None) }
    ensures bad { IfErr result (λ e. Tells e (bad_line text.now)) }
{
    read_through(alloc, text)?;
    Ok(notes_of(alloc, text)?)
}

// Whether a text is a database, or its first bad line.
fn read_through(alloc: Global, text: &[u8]) -> Result<(), LintError>
    ensures good { OnOk result (bad_line text.now ≡ None) }
    ensures bad { IfErr result (λ e. Tells e (bad_line text.now)) }
{
    match read_ndb(alloc, text) {
        Ok(_) => Ok(()),
        Err(NdbError::Memory) => Err(LintError::Memory),
        Err(NdbError::Bad { line, cause }) => Err(LintError::Bad { line, cause }),
    }
}

// The notes on a bundle without bad lines.
fn notes_of(alloc: Global, text: &[u8]) -> Result<Octets, AllocError> {
    let setting = setting_of(alloc, text)?;
    let mut notes = Notes::new(alloc);
    if setting.has_database {
        let bundle = bundle_of(alloc, setting.database, setting.before)?;
        let facts = facts_of(alloc, &bundle)?;
        note_hosts(&mut notes, &setting, &facts)?;
        note_parts(&mut notes, &bundle, &facts, &setting)?;
    } else {
        notes.add(
            1,
            &[
                b"this is a world without a database: cs finds no name; write a line ndb, and the database after it",
            ],
        )?;
    }
    Ok(notes.into_text())
}

fn note_parts(
    notes: &mut Notes,
    bundle: &Bundle<'_>,
    facts: &Facts<'_>,
    setting: &Setting<'_>,
) -> Result<(), AllocError> {
    for (number, part) in bundle.parts.iter().enumerate() {
        match *part {
            Part::File { line, name } => note_file(notes, facts, line, name)?,
            Part::Tuple(tuple) => note_tuple(notes, bundle, facts, setting, number, tuple)?,
        }
    }
    Ok(())
}

fn note_file(
    notes: &mut Notes,
    facts: &Facts<'_>,
    line: u64,
    name: &[u8],
) -> Result<(), AllocError> {
    if facts.named.contains(&name) {
        return Ok(());
    }
    notes.add(
        line,
        &[
            b"no database names the file ",
            name,
            b": cs does not read it; write file=",
            name,
            b" in the first tuple with database",
        ],
    )
}

fn note_tuple(
    notes: &mut Notes,
    bundle: &Bundle<'_>,
    facts: &Facts<'_>,
    setting: &Setting<'_>,
    number: usize,
    tuple: Tuple,
) -> Result<(), AllocError> {
    let outline = Outline::of_tuple(bundle, tuple);
    let network = if outline.ipnet {
        network_of(bundle, tuple)
    } else {
        None
    };
    let alone = line_alone(bundle, tuple);
    for line in bundle.lines_of(tuple) {
        let spot = Spot {
            line: line.number,
            tuple: number,
            outline,
            own: Outline::of_line(bundle, *line),
            network,
            alone,
        };
        note_line(notes, bundle, facts, setting, &spot, *line)?;
    }
    Ok(())
}

// The line of the first `sys`, if it has an `ip`: then `cs` takes the addresses of this line alone.
fn line_alone(bundle: &Bundle<'_>, tuple: Tuple) -> Option<u64> {
    for line in bundle.lines_of(tuple) {
        let own = Outline::of_line(bundle, *line);
        if own.sys.is_some() {
            return if own.ip { Some(line.number) } else { None };
        }
    }
    None
}

fn note_line(
    notes: &mut Notes,
    bundle: &Bundle<'_>,
    facts: &Facts<'_>,
    setting: &Setting<'_>,
    spot: &Spot<'_>,
    line: Line,
) -> Result<(), AllocError> {
    for place in line.first..line.end {
        let Some(pair) = bundle.pair_at(place) else {
            continue;
        };
        note_pair(notes, facts, spot, pair)?;
        note_near(notes, spot.line, pair)?;
        note_unreached(notes, setting, spot, pair)?;
    }
    Ok(())
}

fn note_near(notes: &mut Notes, line: u64, pair: Pair<'_>) -> Result<(), AllocError> {
    if pair.kind != Attr::Other {
        return Ok(());
    }
    match near_miss(pair.attr) {
        Some(meant) => note_meant(notes, line, pair.attr, meant),
        None => Ok(()),
    }
}

fn note_meant(notes: &mut Notes, line: u64, attr: &[u8], meant: &[u8]) -> Result<(), AllocError> {
    notes.add(
        line,
        &[
            attr,
            b" is no known attribute: nothing asks for it; write ",
            meant,
        ],
    )
}
