//! A law of capture files.
ghost use Rattle.std.specs.Prelude.{◌≡◌, List, map};
ghost use Rattle.net_base.specs.declared.history.Entry.{Entry};
ghost use Rattle.net_base.specs.declared.world.World.{World};
ghost use Rattle.net_base.specs.Legal.{IsLegal, IsTimed};
ghost use Rattle.net_base.specs.World.{IsWorld};
ghost use Rattle.replay_views.specs.Capture.{frames};
ghost use Rattle.pcapng.specs.Frames.{pcapng};
ghost use Rattle.pcapng.specs.Reading.{as_read, packets_in};

/// Says that a reader who goes from block to block finds the frames of a legal and timed history, each one time, in the order of stamps,
/// with the number of its link, its moment and its bytes.
pub fn frames_are_read_back()
    ensures { (w : World) (h : List Entry) → IsWorld w → IsLegal w h → IsTimed w h
        → packets_in (pcapng w h) ≡ map as_read (frames w h) }
{}
