//! Laws of worlds that lose chosen frames.
ghost use Rattle.std.specs.Prelude.{◌≡◌, List};
ghost use Rattle.net_base.specs.declared.world.World.{World};
ghost use Rattle.net_base.specs.World.{IsWorld};
ghost use Rattle.order_search.specs.Losses.{AreFrames, without};
ghost use Rattle.order_search.specs.declared.losses.Frame.{Frame};

/// Proves that a world that loses chosen frames is a world.
pub fn lost_worlds_are_worlds()
    ensures { (w : World) (lost : List Frame) → IsWorld w → AreFrames lost → IsWorld (without w lost) }
{}

/// Proves that the frames that a world lost before make no difference.
pub fn losses_replace_losses()
    ensures { (w : World) (before lost : List Frame) → without (without w before) lost ≡ without w lost }
{}
