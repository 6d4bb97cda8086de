//! Names as values of a database.
ghost use Rattle.std.specs.Prelude.{◌≡◌, ◌++◌, true, IfOk, OnOk};
ghost use Rattle.std.specs.List.{list_all};
ghost use Rattle.net_base.specs.Addresses.{parts_at};
ghost use Rattle.net_base.specs.DomainNames as spec;

use crate::label::{is_label, put_lowered};
use net_base::Octets;
use std::alloc::{AllocError, Global};
use words::split_first;

/// The most bytes of a name as a text.
const MOST: usize = 253;

/// Whether a value is a name: its parts at dots are labels, and it isn't too long. The empty value is the root.
#[tactic(auto, using(crate::proofs::Sizes::short_name, crate::proofs::Sizes::long_name))]
pub fn is_name(value: &[u8]) -> bool
    ensures { result ≡ spec.is_domain_name (spec.labels_of value.now) }
{
    value.is_empty() || value.len() <= MOST && are_labels(value)
}

// Whether all parts at dots are labels.
fn are_labels(value: &[u8]) -> bool
    ensures { result ≡ list_all spec.is_label (parts_at 46 value.now) }
{
    let (label, behind) = split_first(value, b'.');
    match behind {
        Some(rest) => is_label(label) && are_labels(rest),
        None => is_label(label),
    }
}

/// The name that a value is, in lower case.
pub fn name_in(alloc: Global, value: &[u8]) -> Result<Option<Octets>, AllocError>
    ensures { IfOk result (λ name. name ≡ spec.name_in value.now) }
{
    if !is_name(value) {
        return Ok(None);
    }
    let mut name = Octets::new(alloc);
    put_lowered(&mut name, value)?;
    Ok(Some(name))
}

/// Adds the bytes of the name with this text.
pub fn put_name(out: &mut Octets, text: &[u8]) -> Result<(), AllocError>
    requires { spec.is_domain_name (spec.labels_of text.now) ≡ true }
    ensures { OnOk result (out.new ≡ out.old ++ spec.bytes_of_name text.now) }
{
    if !text.is_empty() {
        put_labels(out, text)?;
    }
    out.push(0)
}

// Adds the parts at dots, each after its length.
fn put_labels(out: &mut Octets, text: &[u8]) -> Result<(), AllocError>
    requires { list_all spec.is_label (parts_at 46 text.now) ≡ true }
    ensures { OnOk result (out.new ≡ out.old ++ spec.labels_bytes (parts_at 46 text.now)) }
{
    let (label, behind) = split_first(text, b'.');
    out.push(label.len() as u8)?;
    out.append(label)?;
    match behind {
        Some(rest) => put_labels(out, rest),
        None => Ok(()),
    }
}
