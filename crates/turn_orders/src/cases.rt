//! Worked cases, computed.
ghost use Rattle.std.specs.Prelude.{◌≡◌, ◌∷◌, [], Some, codes, map};
ghost use Rattle.net_base.specs.declared.reply.Reply.TheVariants as reply;
ghost use Rattle.net_base.specs.Net.{moment};
ghost use Rattle.turn_orders.specs.Orders.{histories};
ghost use Rattle.turn_orders.specs.Results.{result_text, results, step_result};
ghost use Rattle.turn_orders.specs.Turns.{callers_of, with_turns};
ghost use Rattle.turn_orders.specs.WorkedOrders.{two_and_one, waiting};

/// Computes the three orders of a script with two steps and a script with one step. One of them has a preemption.
pub fn two_steps_beside_one()
    ensures early { map callers_of (histories two_and_one 1)
        ≡ (0 ∷ 0 ∷ 1 ∷ []) ∷ (1 ∷ 0 ∷ 0 ∷ []) ∷ (0 ∷ 1 ∷ 0 ∷ []) ∷ [] }
    ensures never { map callers_of (histories two_and_one 0) ≡ (0 ∷ 0 ∷ 1 ∷ []) ∷ (1 ∷ 0 ∷ 0 ∷ []) ∷ [] }
    ensures results { map (map result_text) (results two_and_one (with_turns two_and_one [] (0 ∷ 1 ∷ 0 ∷ [])))
        ≡ (codes "version 0" ∷ codes "names 63730a696c0a7564700a" ∷ []) ∷ (codes "badfid" ∷ []) ∷ [] }
{}

/// Computes the one order of a script that waits and a script that does not: the clock moves after the second script.
pub fn the_clock_moves_last()
    ensures order { map callers_of (histories waiting 1) ≡ (1 ∷ 3 ∷ 0 ∷ []) ∷ [] }
    ensures moment { moment waiting (with_turns waiting [] (1 ∷ 3 ∷ 0 ∷ [])) ≡ 10 }
{}

/// Computes the result of a step: the last reply, or the refusal before a last reply that is accepted. A slot has no numbers.
pub fn a_refusal_is_the_result()
    ensures before { step_result (reply.Slot 0 1 ∷ reply.NoRoute ∷ reply.Ok ∷ []) ≡ Some reply.NoRoute }
    ensures last { step_result (reply.NoRoute ∷ reply.Ok ∷ reply.BadFid ∷ []) ≡ Some reply.BadFid }
    ensures accepted { step_result (reply.NoRoute ∷ reply.Ok ∷ reply.Left ∷ []) ≡ Some reply.Left }
    ensures word { result_text (Some (reply.Slot 3 1)) ≡ codes "slot" }
{}
