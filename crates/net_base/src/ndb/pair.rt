//! Pairs as they are lent.
ghost use Rattle.std.specs.Prelude.{◌≡◌};
ghost use Rattle.net_base.specs.Search as spec;
ghost use Rattle.net_base.specs.Store.{pair_with};

use std::marker::Model;

/// An attribute with its value, perhaps empty, as a database lends it. Clauses see the pair.
#[derive(Drop)]
pub struct NdbPair<'a> {
    attr: &'a [u8],
    value: &'a [u8],
}

impl<'a> Model for NdbPair<'a> {
    ghost use Rattle.net_base.specs.Ndb.{NdbPair};

    ghost Value = { NdbPair };

    ghost view = { λ p. record { attr = p.attr.now; value = p.value.now } };
}

impl<'a> NdbPair<'a> {
    /// The pair of these texts.
    #[inline(always)]
    pub fn new(attr: &'a [u8], value: &'a [u8]) -> NdbPair<'a>
        ensures { result ≡ pair_with attr.now value.now }
    {
        NdbPair { attr, value }
    }

    /// Its attribute.
    #[inline(always)]
    pub fn attr(&self) -> &'a [u8]
        ensures { result.now ≡ self.now.attr }
    {
        self.attr
    }

    /// Its value.
    #[inline(always)]
    pub fn value(&self) -> &'a [u8]
        ensures { result.now ≡ self.now.value }
    {
        self.value
    }

    /// Whether it has this attribute. Most attributes differ in length.
    #[inline(always)]
    pub fn has_attr(&self, attr: &[u8]) -> bool
        ensures { result ≡ spec.has_attr attr.now self.now }
    {
        self.attr.len() == attr.len() && self.attr == attr
    }

    /// Whether it has this attribute and this value, each byte for byte. Most values differ in length.
    #[inline(always)]
    pub fn is(&self, attr: &[u8], value: &[u8]) -> bool
        ensures { result ≡ spec.is_pair attr.now value.now self.now }
    {
        self.value.len() == value.len() && self.has_attr(attr) && self.value == value
    }
}
