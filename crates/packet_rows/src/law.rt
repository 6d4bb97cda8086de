//! A law of rows.
ghost use Rattle.std.specs.Prelude.{List};
ghost use Rattle.net_base.specs.declared.history.Entry.{Entry};
ghost use Rattle.net_base.specs.declared.world.World.{World};
ghost use Rattle.packet_rows.specs.Laws.{TellsPackets};

/// Says that a row has the stamps of all copies of its frame, that rows are sorted by stamps, and that an entry has at most one row.
pub fn packets_are_told()
    ensures { (w : World) (h : List Entry) → TellsPackets w h }
{}
