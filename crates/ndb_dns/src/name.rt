//! Names in messages.
ghost use Rattle.std.specs.Prelude.{◌≡◌, ◌<◌, ◌≤◌, ℕ, true, List, None, Some, length, IfOk, IfErr, IfSome, MatchOption, OnOk};
ghost use Rattle.net_base.specs.DomainNames.{ReadsName, is_label};
ghost use Rattle.ndb_dns.specs.Runs as spec;
ghost use Rattle.ndb_dns.specs.Runs.{AddsLabels, AddsPointed, AddsRun, AreTooLong, HasNoRun, IsRunRefused, LeadsToNone, behind_label, label_of, with_label};

use crate::fault::DnsError;
use crate::label::{is_label, put_lowered};
use net_base::Octets;
use std::alloc::Global;

/// The most bytes of a name as a text: 255 without the first length and the zero byte.
const MOST: usize = 253;

/// The bytes of a header, behind which pointers point.
const HEADER: usize = 12;

/// The two bits that a pointer begins with.
const POINTER: u16 = 0xc000;

/// A name in lower case, and the place behind it.
#[derive(Debug, Drop)]
pub struct Name {
    pub text: Octets,
    pub end: u64,
}

/// What ends labels: how many bytes it has, and where it points.
#[derive(Clone, Copy)]
struct End {
    len: usize,
    target: Option<usize>,
}

/// Labels that end before this place, and where what follows them stands.
#[derive(Clone, Copy)]
struct Run {
    end: usize,
    target: Option<usize>,
}

/// The name that begins at a place.
pub fn read_name(alloc: Global, bytes: &[u8], place: u64) -> Result<Name, DnsError>
    requires { place ≤ length bytes.now }
    // What is read stands there.
    ensures found { IfOk result (λ n. ReadsName bytes.now place n.text n.end) }
    // What stands there is read.
    ensures only { (text : List ℕ) (end : ℕ) → ReadsName bytes.now place text end
        → IfOk result (λ n. (n.text ≡ text) × (n.end ≡ end)) }
    // Where none stands there, or memory runs out, is an error, and there is no other.
    ensures refused { IfErr result (λ e. IsRunRefused e
        ((text : List ℕ) (end : ℕ) → ReadsName bytes.now place text end → ⊥)) }
{
    let mut text = Octets::new(alloc);
    let first = add_run(bytes, place as usize, &mut text)?;
    add_pointed(bytes, first.target, &mut text)?;
    Ok(Name {
        text,
        end: first.end as u64,
    })
}

// Adds the labels to which a pointer leads, and those to which theirs leads, and so on: each stands before the last.
fn add_pointed(bytes: &[u8], target: Option<usize>, text: &mut Octets) -> Result<(), DnsError>
    requires within { IfSome target (λ place. place ≤ length bytes.now) }
    requires short { length text.old ≤ 253 }
    ensures found { OnOk result (AddsPointed bytes.now target text.old text.new) }
    ensures refused { IfErr result (λ e. IsRunRefused e (LeadsToNone bytes.now target text.old)) }
{
    let mut next = target;
    while let Some(place) = next {
        let run = add_run(bytes, place, text)?;
        next = run.target;
    }
    Ok(())
}

// Adds the labels from a place up to what ends them.
fn add_run(bytes: &[u8], place: usize, text: &mut Octets) -> Result<Run, DnsError>
    requires within { place ≤ length bytes.now }
    requires short { length text.old ≤ 253 }
    ensures found { IfOk result (λ run. AddsRun bytes.now place text.old text.new run) }
    ensures back { IfOk result (λ run. IfSome run.target (λ target. target < place)) }
    ensures refused { IfErr result (λ e. IsRunRefused e (HasNoRun bytes.now place text.old)) }
{
    let (_, front) = bytes.split_at(place);
    let rest = add_labels(front, text)?;
    let Some(last) = ending(place, rest) else {
        return Err(DnsError::Format);
    };
    Ok(Run {
        end: bytes.len() - rest.len() + last.len,
        target: last.target,
    })
}

// Adds the labels in front, and answers what stands behind them.
fn add_labels<'a>(bytes: &'a [u8], text: &mut Octets) -> Result<&'a [u8], DnsError>
    requires short { length text.old ≤ 253 }
    ensures found { IfOk result (λ rest. AddsLabels bytes.now text.old rest.now text.new) }
    ensures within { IfOk result (λ rest. length rest.now ≤ length bytes.now) }
    ensures refused { IfErr result (λ e. IsRunRefused e (AreTooLong bytes.now text.old)) }
{
    let Some((label, behind)) = label_in(bytes) else {
        return Ok(bytes);
    };
    add_label(label, text)?;
    add_labels(behind, text)
}

// The label in front, and what stands behind it.
fn label_in(bytes: &[u8]) -> Option<(&[u8], &[u8])>
    ensures { MatchOption result (label_of bytes.now ≡ None)
        (λ two. (label_of bytes.now ≡ Some two.0.now) × (two.1.now ≡ behind_label two.0.now bytes.now)) }
{
    let [count, rest @ ..] = bytes else {
        return None;
    };
    let count = usize::from(*count);
    if rest.len() < count {
        return None;
    }
    let (label, behind) = rest.split_at(count);
    if is_label(label) {
        Some((label, behind))
    } else {
        None
    }
}

// What ends labels that began at a place, where it may.
fn ending(place: usize, rest: &[u8]) -> Option<End>
    ensures value { result ≡ spec.run_ending place rest.now }
    ensures len { IfSome result (λ last. last.len ≤ 2) }
{
    let last = end_of(rest)?;
    if may_point(place, last.target) {
        Some(last)
    } else {
        None
    }
}

// Whether the pointer of labels that begin at a place may point there.
fn may_point(place: usize, target: Option<usize>) -> bool
    ensures { result ≡ spec.may_point place target }
{
    match target {
        Some(target) => HEADER <= target && target < place,
        None => true,
    }
}

// A zero byte or a pointer in front.
fn end_of(bytes: &[u8]) -> Option<End>
    ensures value { result ≡ spec.run_end_of bytes.now }
    ensures len { IfSome result (λ last. last.len ≤ 2) }
{
    let [high, behind @ ..] = bytes else {
        return None;
    };
    if *high == 0 {
        return Some(End {
            len: 1,
            target: None,
        });
    }
    let [low, ..] = behind else {
        return None;
    };
    pointer_in(u16::from_be_bytes([*high, *low]))
}

// The pointer that a number is.
fn pointer_in(number: u16) -> Option<End>
    ensures value { result ≡ spec.pointer_in number }
    ensures len { IfSome result (λ last. last.len ≤ 2) }
{
    if number < POINTER {
        return None;
    }
    Some(End {
        len: 2,
        target: Some(usize::from(number - POINTER)),
    })
}

// Adds a label, behind a dot where it isn't the first.
fn add_label(label: &[u8], text: &mut Octets) -> Result<(), DnsError>
    requires short { length text.old ≤ 253 }
    ensures told { OnOk result (text.new ≡ with_label text.old label.now) }
    ensures short { OnOk result (length text.new ≤ 253) }
    ensures refused { IfErr result (λ e. IsRunRefused e (253 < length (with_label text.old label.now))) }
{
    let dot = if text.len() == 0 { 0 } else { 1 };
    if text.len() + dot + label.len() > MOST {
        return Err(DnsError::Format);
    }
    if dot == 1 {
        text.push(b'.')?;
    }
    put_lowered(text, label)?;
    Ok(())
}
