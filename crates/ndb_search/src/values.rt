//! The values of an attribute, on a line, in a tuple and beside a pair.
ghost use Rattle.std.specs.Prelude.{◌≡◌, ◌++◌, find, OnOk};
ghost use Rattle.net_base.specs.Search as spec;

use net_base::{Line, Lines, Tuple};
use std::alloc::AllocError;

/// Adds the values of an attribute on a line.
fn add_on(attr: &[u8], line: &Line<'_>, values: &mut Lines) -> Result<(), AllocError>
    ensures { OnOk result (values.new ≡ values.old ++ spec.values_on attr.now line.now) }
{
    for number in 0..line.len() {
        let pair = line.pair(number);
        if !pair.has_attr(attr) {
            continue;
        }
        values.add(pair.value())?;
    }
    Ok(())
}

/// Adds the values of an attribute in a tuple.
fn add_in(attr: &[u8], tuple: &Tuple<'_>, values: &mut Lines) -> Result<(), AllocError>
    ensures { OnOk result (values.new ≡ values.old ++ spec.values_in attr.now tuple.now) }
{
    for number in 0..tuple.len() {
        add_on(attr, &tuple.line(number), values)?;
    }
    Ok(())
}

/// The line on which the pair first stands.
pub fn line_with<'a>(attr: &[u8], value: &[u8], tuple: &Tuple<'a>) -> Option<Line<'a>>
    ensures { result ≡ find (spec.line_has attr.now value.now) tuple.now }
{
    for number in 0..tuple.len() {
        let line = tuple.line(number);
        if line.has(attr, value) {
            return Some(line);
        }
    }
    None
}

/// Adds the values of an attribute beside the pair: on its first line, or else in the tuple.
#[tactic(auto, using(crate::proofs::Copied::near_on, crate::proofs::Copied::near_in, crate::proofs::Copied::near_none))]
pub fn add_beside(
    attr: &[u8],
    value: &[u8],
    other: &[u8],
    tuple: &Tuple<'_>,
    values: &mut Lines,
) -> Result<(), AllocError>
    ensures { OnOk result (values.new ≡ values.old ++ spec.beside attr.now value.now other.now tuple.now) }
{
    let Some(line) = line_with(attr, value, tuple) else {
        return add_in(other, tuple, values);
    };
    if line.names(other) {
        add_on(other, &line, values)
    } else {
        add_in(other, tuple, values)
    }
}
