//! The values of an attribute in a tuple, without empty ones.
ghost use Rattle.std.specs.Prelude.{◌≡◌, ◌++◌, filter, IfOk, OnOk};
ghost use Rattle.net_base.specs.Networks as spec;
ghost use Rattle.net_base.specs.Search.{values_on, values_in};

use net_base::{Line, Lines, Tuple};
use std::alloc::{AllocError, Global};

/// Adds the values of an attribute on a line, without empty ones.
fn add_filled_on(attr: &[u8], line: &Line<'_>, values: &mut Lines) -> Result<(), AllocError>
    ensures { OnOk result (values.new ≡ values.old ++ filter spec.is_filled (values_on attr.now line.now)) }
{
    for number in 0..line.len() {
        let pair = line.pair(number);
        if !pair.has_attr(attr) {
            continue;
        }
        if pair.value().len() == 0 {
            continue;
        }
        values.add(pair.value())?;
    }
    Ok(())
}

/// The values of an attribute in a tuple, without empty ones.
pub fn filled_in(alloc: Global, attr: &[u8], tuple: &Tuple<'_>) -> Result<Lines, AllocError>
    ensures { IfOk result (λ values. values ≡ filter spec.is_filled (values_in attr.now tuple.now)) }
{
    let mut values = Lines::new(alloc);
    for number in 0..tuple.len() {
        add_filled_on(attr, &tuple.line(number), &mut values)?;
    }
    Ok(values)
}
