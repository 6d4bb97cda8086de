//! Masks.
ghost use Rattle.std.specs.Prelude.{◌≡◌, ◌≤◌};
ghost use Rattle.net_base.specs.Networks as spec;
ghost use Rattle.net_base.specs.World as world;

/// Whether the ones of a mask are its first bits.
pub fn is_mask(mask: u32) -> bool
    ensures { result ≡ world.is_mask mask }
{
    for ones in 0..33 {
        if mask_of(ones) == u64::from(mask) {
            return true;
        }
    }
    false
}

/// The mask whose ones are its first so many bits.
fn mask_of(ones: u32) -> u64
    requires { ones ≤ 32 }
    ensures { result ≡ spec.mask_of ones }
{
    (1u64 << 32) - (1u64 << (32 - ones))
}
