//! Masks whose ones are a prefix.
ghost use Rattle.std.specs.Prelude.{◌≡◌, ◌≤◌};
ghost use Rattle.net_base.specs.Networks as spec;

use crate::address::read_address;

/// The mask whose ones are its first so many bits.
pub fn mask_of(bits: u32) -> u64
    requires { bits ≤ 32 }
    ensures { result ≡ spec.mask_of bits }
{
    (1u64 << 32) - (1u64 << (32 - bits))
}

/// How many ones a mask has, where they are a prefix.
pub fn mask_bits(mask: u32) -> Option<u32>
    ensures { result ≡ spec.mask_bits mask }
{
    for bits in 0..33 {
        if mask_of(bits) == u64::from(mask) {
            return Some(bits);
        }
    }
    None
}

/// The ones of a mask that is written as an address.
pub fn read_mask(word: &[u8]) -> Option<u32>
    ensures { result ≡ spec.read_mask word.now }
{
    mask_bits(read_address(word)?)
}
