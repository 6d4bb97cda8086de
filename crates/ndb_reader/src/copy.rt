//! Tuples that are copied, pair by pair.
ghost use Rattle.std.specs.Prelude.{◌≡◌, ◌≤◌, ◌∷◌, [], length, slice_range, OnOk};
ghost use Rattle.net_base.specs.Store.{line_ended, with_pairs, with_tuples};

use net_base::{Db, Growing, Line, Tuple};
use std::alloc::AllocError;

/// Adds the pairs of a line to the line that is open, and ends it.
fn add_line(line: &Line<'_>, out: &mut Growing) -> Result<(), AllocError>
    ensures { OnOk result (out.new ≡ line_ended (with_pairs line.now out.old)) }
{
    for number in 0..line.len() {
        let pair = line.pair(number);
        out.push(pair.attr(), pair.value())?;
    }
    out.end_line()?;
    Ok(())
}

/// Adds a tuple.
fn add_tuple(tuple: &Tuple<'_>, out: &mut Growing) -> Result<(), AllocError>
    requires lines { out.old.lines ≡ [] }
    requires pairs { out.old.pairs ≡ [] }
    ensures { OnOk result (out.new ≡ with_tuples (tuple.now ∷ []) out.old) }
{
    for number in 0..tuple.len() {
        add_line(&tuple.line(number), out)?;
    }
    out.end_tuple()?;
    Ok(())
}

/// Adds the tuples from a place to another.
pub(crate) fn add_tuples(
    db: &Db,
    first: usize,
    end: usize,
    out: &mut Growing,
) -> Result<(), AllocError>
    requires rise { first ≤ end }
    requires within { end ≤ length db.now }
    requires lines { out.old.lines ≡ [] }
    requires pairs { out.old.pairs ≡ [] }
    ensures { OnOk result (out.new ≡ with_tuples (slice_range db.now first end) out.old) }
{
    for place in first..end {
        add_tuple(&db.tuple(place), out)?;
    }
    Ok(())
}
