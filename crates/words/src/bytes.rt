//! What holds of bytes by their type.
ghost use Rattle.std.specs.Prelude.{◌≡◌, true};
ghost use Rattle.std.specs.List.{list_all};
ghost use Rattle.net_base.specs.World as world;

/// Each byte is below 256, by its type.
pub fn are_bytes(bytes: &[u8])
    ensures { list_all world.is_byte bytes.now ≡ true }
{}
