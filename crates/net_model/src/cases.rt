//! Worked histories, computed by the definitions.
ghost use Rattle.std.specs.Prelude.{◌≡◌, ◌∷◌, ◌++◌, [], Some, codes, take, true, false};
ghost use Rattle.net_base.specs.declared.il.IlKind.TheVariants.{Sync, Data, DataQuery, Ack, State, Close};
ghost use Rattle.net_base.specs.Calm.{done, limited_to, stopped};
ghost use Rattle.net_base.specs.Legal.{IsLegal, IsTimed, IsFault, Answers, AtMoment, Cites, Asked, Ready, InTime};
ghost use Rattle.net_base.specs.Net.{after, opening_net};
ghost use Rattle.net_base.specs.World.{IsWorld};
ghost use Rattle.net_base.specs.Written.{peer, read_texts, written_texts};
ghost use Rattle.net_model.specs.Rounds.{rounds, rounds_to, run_of};
ghost use Rattle.world_text.specs.WorkedFaults as fault;
ghost use Rattle.world_text.specs.WorkedFaults.{with_at};
ghost use Rattle.world_text.specs.WorkedIl.{lossy_world, lossy_history, calling, called, refused_world, refused_history};
ghost use Rattle.world_text.specs.WorkedRuns.{who_recorded, moves, texts_read, kinds, data_ids, hello_world, early_close_world, repeated_world, wrapping_world, cut_world, nobody_world, lost_world, dropped_world, two_calls_world};
ghost use Rattle.world_text.specs.WorkedUdp.{datagram_world, datagram_history};

/// A datagram that anna writes is read by helix, in 18 entries.
pub fn a_datagram_goes()
    ensures legal { IsLegal datagram_world datagram_history }
    ensures timed { IsTimed datagram_world datagram_history }
    ensures done { done datagram_world (after datagram_world datagram_history) ≡ true }
    ensures in_rounds { run_of 30 datagram_world ≡ datagram_history }
{}

/// A message whose first frame is lost is sent again, in 51 entries.
pub fn a_lost_frame_is_sent_again()
    ensures legal { IsLegal lossy_world lossy_history }
    ensures timed { IsTimed lossy_world lossy_history }
    ensures done { done lossy_world (after lossy_world lossy_history) ≡ true }
    ensures in_rounds { run_of 60 lossy_world ≡ lossy_history }
{}

/// The law of what is read speaks of such a world: both conversations of the call are peers, and what the one wrote the other reads.
pub fn a_call_has_two_ends()
    ensures call { IsWorld lossy_world × IsLegal lossy_world lossy_history
        × (peer lossy_world lossy_history called ≡ Some calling) }
    ensures back { peer lossy_world lossy_history calling ≡ Some called }
    ensures written { written_texts lossy_history calling ≡ codes "hello" ∷ [] }
    ensures read { read_texts lossy_history called ≡ codes "hello" ∷ [] }
{}

/// A call that nobody listens for is refused, in 17 entries.
pub fn a_call_is_refused()
    ensures legal { IsLegal refused_world refused_history }
    ensures timed { IsTimed refused_world refused_history }
    ensures done { done refused_world (after refused_world refused_history) ≡ true }
    ensures in_rounds { run_of 60 refused_world ≡ refused_history }
{}

/// Each of these histories breaks a rule at the entry that was changed.
pub fn changes_are_faults()
    ensures another_text { IsFault datagram_world (with_at 17 fault.another_text datagram_history) 17 Answers }
    ensures another_moment { IsFault datagram_world (with_at 17 fault.another_moment datagram_history) 17 AtMoment }
    ensures another_cite { IsFault datagram_world (with_at 6 fault.another_cite datagram_history) 6 Cites }
    ensures another_event { IsFault datagram_world (with_at 8 fault.another_event datagram_history) 8 Asked }
    ensures taken_too_early { IsFault datagram_world (with_at 13 fault.taken_too_early datagram_history) 13 Ready }
    ensures moved_too_early { IsFault datagram_world (with_at 13 fault.moved_too_early datagram_history) 13 InTime }
    ensures moved_too_far { IsFault lossy_world (with_at 32 fault.moved_too_far lossy_history) 32 InTime }
    ensures sent_as_data { IsFault lossy_world (with_at 41 fault.sent_as_data lossy_history) 41 Answers }
    ensures read_too_early { IsFault lossy_world (with_at 20 fault.read_too_early lossy_history) 20 Ready }
    ensures refused_otherwise { IsFault refused_world (with_at 9 fault.refused_otherwise refused_history) 9 Answers }
    ensures not_ended { IsFault refused_world (with_at 15 fault.not_ended refused_history) 15 Answers }
{}

/// The runs of worlds over two hosts: what is read, which messages are emitted, and to which moments the clock moves.
pub fn runs_are_as_worked()
    ensures hello_texts_read { texts_read (run_of 100 hello_world) ≡ codes "hello" ∷ [] ∷ [] }
    ensures hello_moves { moves (run_of 100 hello_world) ≡ 10 ∷ [] }
    ensures early_close_texts_read { texts_read (run_of 100 early_close_world) ≡ codes "hello" ∷ [] ∷ [] }
    ensures early_close_moves { moves (run_of 100 early_close_world) ≡ 10 ∷ [] }
    ensures early_close_kinds { kinds (run_of 100 early_close_world) ≡ Sync ∷ Sync ∷ Ack ∷ Data ∷ Close ∷ State
        ∷ DataQuery ∷ State ∷ Close ∷ Close ∷ [] }
    ensures repeated_texts_read { texts_read (run_of 100 repeated_world) ≡ codes "a" ∷ codes "b" ∷ codes "c" ∷ [] ∷ [] }
    ensures wrapping_texts_read { texts_read (run_of 100 wrapping_world) ≡ codes "a" ∷ codes "b" ∷ codes "c" ∷ [] ∷ [] }
    ensures wrapping_data_ids { data_ids (run_of 100 wrapping_world) ≡ 4294967295 ∷ 0 ∷ 1 ∷ [] }
    ensures cut_texts_read { texts_read (run_of 100 cut_world) ≡ codes "he" ∷ codes "llo" ∷ [] }
    ensures nobody_moves { moves (run_of 100 nobody_world) ≡ 10 ∷ 510 ∷ 1510 ∷ 3510 ∷ 7510 ∷ 15510 ∷ 23510 ∷ 30010
        ∷ [] }
    ensures nobody_kinds { kinds (run_of 100 nobody_world) ≡ Sync ∷ Sync ∷ Sync ∷ Sync ∷ Sync ∷ Sync ∷ Sync ∷ [] }
    ensures hello_is_done { done hello_world (rounds 100 hello_world (opening_net hello_world)) ≡ true }
    ensures early_close_is_done { done early_close_world
        (rounds 100 early_close_world (opening_net early_close_world)) ≡ true }
    ensures repeated_is_done { done repeated_world (rounds 100 repeated_world (opening_net repeated_world)) ≡ true }
    ensures wrapping_is_done { done wrapping_world (rounds 100 wrapping_world (opening_net wrapping_world)) ≡ true }
    ensures cut_is_done { done cut_world (rounds 100 cut_world (opening_net cut_world)) ≡ true }
    ensures nobody_is_done { done nobody_world (rounds 100 nobody_world (opening_net nobody_world)) ≡ true }
    ensures lost_moves { moves (run_of 200 lost_world) ≡ 10 ∷ 510 ∷ 1510 ∷ 3510 ∷ 7510 ∷ 15510 ∷ 20000 ∷ [] }
    ensures lost_is_stopped { stopped lost_world (rounds 200 lost_world (opening_net lost_world)) ≡ true }
    ensures dropped_texts_read { texts_read (run_of 100 dropped_world) ≡ codes "he" ∷ [] }
    ensures dropped_is_stopped { stopped dropped_world (rounds 100 dropped_world (opening_net dropped_world)) ≡ true }
    ensures two_calls_texts_read { texts_read (run_of 100 two_calls_world) ≡ codes "one" ∷ codes "two" ∷ codes "eno"
        ∷ codes "owt" ∷ [] }
    ensures two_calls_is_done { done two_calls_world (rounds 100 two_calls_world (opening_net two_calls_world)) ≡ true }
{}

/// Where callers may record few entries, one that has so many is passed over, and the run ends as limited, where it could record more.
pub fn small_limits_end_runs()
    ensures passed { who_recorded (rounds_to 7 60 lossy_world (opening_net lossy_world)).past
        ≡ who_recorded (take 19 lossy_history) ++ (2 ∷ 2 ∷ 2 ∷ []) }
    ensures limited { limited_to 7 lossy_world (rounds_to 7 60 lossy_world (opening_net lossy_world)) ≡ true }
    ensures enough { (rounds_to 8 30 datagram_world (opening_net datagram_world)).past ≡ datagram_history }
    ensures enough_is_unlimited { limited_to 8 datagram_world
        (rounds_to 8 30 datagram_world (opening_net datagram_world)) ≡ false }
    ensures clock_moves { moves (rounds_to 10 100 nobody_world (opening_net nobody_world)).past
        ≡ 10 ∷ 510 ∷ 1510 ∷ 3510 ∷ [] }
    ensures clock_is_limited { limited_to 10 nobody_world (rounds_to 10 100 nobody_world (opening_net nobody_world))
        ≡ true }
{}
