//! The numbers that values of the database spell; what spells none is passed over.
ghost use Rattle.std.specs.Prelude.{◌≡◌, ◌++◌, OnOk};
ghost use Rattle.net_base.specs.Networks.{first_of};
ghost use Rattle.ndb_search.specs.Numbers as spec;

use net_base::{Line, NdbPair, Tuple};
use std::alloc::{AllocError, Global};
use words::{read_address, read_mask, read_port};

/// What values spell, and so the attribute that they stand under.
#[derive(Clone, Copy)]
pub enum Kind {
    /// `ip`
    Address,
    /// `ipmask`, read as its number of ones.
    Mask,
    /// `port`
    Port,
}

impl Kind {
    /// The attribute of such values.
    pub fn attr(self) -> &'static [u8]
        ensures { result.now ≡ spec.attr_of self }
    {
        match self {
            Kind::Address => b"ip",
            Kind::Mask => b"ipmask",
            Kind::Port => b"port",
        }
    }

    /// The number that such a value spells.
    pub fn read(self, word: &[u8]) -> Option<u32>
        ensures { result ≡ spec.number_read_of self word.now }
    {
        match self {
            Kind::Address => read_address(word),
            Kind::Mask => read_mask(word),
            Kind::Port => match read_port(word) {
                Some(port) => Some(u32::from(port)),
                None => None,
            },
        }
    }
}

/// The number of a kind that a pair holds.
#[tactic(auto, unfolding(crate::specs::Numbers::pair_number))]
fn number_of(kind: Kind, pair: &NdbPair<'_>) -> Option<u32>
    ensures { result ≡ spec.pair_number kind pair.now }
{
    if pair.has_attr(kind.attr()) {
        kind.read(pair.value())
    } else {
        None
    }
}

/// The first number of a kind on a line.
pub fn first_on(kind: Kind, line: &Line<'_>) -> Option<u32>
    ensures { result ≡ first_of (spec.numbers_on kind line.now) }
{
    for place in 0..line.len() {
        if let Some(number) = number_of(kind, &line.pair(place)) {
            return Some(number);
        }
    }
    None
}

/// The first number of a kind in a tuple.
pub fn first_in(kind: Kind, tuple: &Tuple<'_>) -> Option<u32>
    ensures { result ≡ first_of (spec.numbers_in kind tuple.now) }
{
    for place in 0..tuple.len() {
        if let Some(number) = first_on(kind, &tuple.line(place)) {
            return Some(number);
        }
    }
    None
}

/// Adds the numbers of a kind on a line.
pub fn add_on(kind: Kind, line: &Line<'_>, numbers: &mut Vec<u32>) -> Result<(), AllocError>
    ensures { OnOk result (numbers.new.items ≡ numbers.old.items ++ spec.numbers_on kind line.now) }
{
    for place in 0..line.len() {
        let Some(number) = number_of(kind, &line.pair(place)) else {
            continue;
        };
        numbers.push(number)?;
    }
    Ok(())
}

/// Adds the numbers of a kind in a tuple.
pub fn add_in(kind: Kind, tuple: &Tuple<'_>, numbers: &mut Vec<u32>) -> Result<(), AllocError>
    ensures { OnOk result (numbers.new.items ≡ numbers.old.items ++ spec.numbers_in kind tuple.now) }
{
    for place in 0..tuple.len() {
        add_on(kind, &tuple.line(place), numbers)?;
    }
    Ok(())
}

/// Adds the numbers of a kind beside the pair that stands on this line of the tuple first.
#[tactic(auto, using(crate::proofs::Pieces::near_on, crate::proofs::Pieces::near_in))]
pub fn add_beside(
    kind: Kind,
    line: &Line<'_>,
    tuple: &Tuple<'_>,
    numbers: &mut Vec<u32>,
) -> Result<(), AllocError>
    ensures { OnOk result (numbers.new.items
        ≡ numbers.old.items ++ spec.numbers_near kind line.now tuple.now) }
{
    if line.names(kind.attr()) {
        add_on(kind, line, numbers)
    } else {
        add_in(kind, tuple, numbers)
    }
}
