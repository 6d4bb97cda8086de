//! Laws of the file of a world.
ghost use Rattle.std.specs.Prelude.{◌≡◌, ℕ, ◌<◌, ◌^◌, Ok, true};
ghost use Rattle.world_writer.specs.Made.{made_world};
ghost use Rattle.std.specs.List.{All};
ghost use Rattle.net_base.specs.declared.world.Version.{Version};
ghost use Rattle.net_base.specs.declared.world.World.{World};
ghost use Rattle.net_base.specs.World.{IsWorld};
ghost use Rattle.net_model.specs.NdbWhole.{is_file_whole};
ghost use Rattle.world_text.specs.WorldSpelling.{IsWorldText};
ghost use Rattle.world_text.specs.WorldText.{world_reading};
ghost use Rattle.world_writer.specs.Written.{world_file_text};

use crate::ndb_law::written_databases_read_back;
use world_text::{worlds_are_spelled, worlds_have_texts};
use world_writer::made_worlds_are_worlds;

/// What is written of a world, with a whole database in each version, says this world, and is read back as it.
pub fn written_worlds_read_back()
    ensures spelled { (w : World) → IsWorld w → All (λ (v : Version). is_file_whole v.db ≡ true) w.dbs
        → IsWorldText (world_file_text w) w }
    ensures read { (w : World) → IsWorld w → All (λ (v : Version). is_file_whole v.db ≡ true) w.dbs
        → world_reading (world_file_text w) ≡ Ok w }
{
    written_databases_read_back();
    worlds_have_texts();
    worlds_are_spelled();
}

/// What is written of a made world is read back as it.
pub fn made_worlds_read_back()
    ensures { (n : ℕ) → n < 2 ^ 64 → world_reading (world_file_text (made_world n)) ≡ Ok (made_world n) }
{
    made_worlds_are_worlds();
    written_worlds_read_back();
}
