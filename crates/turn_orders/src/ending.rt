//! Theorems about the end of a history.
ghost use Rattle.std.specs.Prelude.{List};
ghost use Rattle.net_base.specs.declared.end.RunEnd.{RunEnd};
ghost use Rattle.net_base.specs.declared.end.RunEnd.TheVariants as ends;
ghost use Rattle.net_base.specs.declared.history.Entry.{Entry};
ghost use Rattle.net_base.specs.declared.world.World.{World};
ghost use Rattle.net_base.specs.Ends.{EndsSo};
ghost use Rattle.net_base.specs.Legal.{IsLegal, IsTimed};
ghost use Rattle.net_base.specs.Net.{after};
ghost use Rattle.net_base.specs.World.{IsWorld};
ghost use Rattle.turn_orders.specs.Turns.{IsEnded};

use history_laws::{some_duty_is_ready, somebody_is_limited};

/// Proves that a history is done, stopped or at the limit if no caller can continue.
pub fn ended_histories_end()
    ensures { (w : World) (h : List Entry) → IsWorld w → IsLegal w h → IsTimed w h → IsEnded w h
        → (e : RunEnd) × EndsSo w (after w h) e }
{
    some_duty_is_ready();
    somebody_is_limited();
}

/// Proves that no caller can continue after a history that is done or stopped.
pub fn nobody_goes_on_behind_an_end()
    ensures done { (w : World) (h : List Entry) → EndsSo w (after w h) ends.Done → IsEnded w h }
    ensures stopped { (w : World) (h : List Entry) → EndsSo w (after w h) ends.Stopped → IsEnded w h }
{}
