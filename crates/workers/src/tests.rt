//! Who rests, which actors had entries, and when workers are called.
use crate::{Awaited, Crew, Marks, Pace, Shift, Spot};
use std::process::Abort;
use std::sync::Wait;
use std::test::Fail;
use std::thread::{Threads, join};

// A worker that has recorded something once rests until all do. How many changes it saw at last.
fn work<R: Wait>(rt: &R, crew: &Crew) -> u64 {
    let mut shift = crew.begin(rt);
    crew.record(rt, &mut shift);
    let _goes_on = crew.tell(rt, &mut shift);
    for _ in rt.forever() {
        let (changes, _) = crew.look(rt);
        if crew.rest(rt, changes) {
            crew.leave(rt, shift);
            return changes;
        }
    }
    unreachable!()
}

// In so many rounds the worker records something. Whether it goes on after the last.
fn records<R: Wait>(rt: &R, crew: &Crew, shift: &mut Shift, rounds: u32) -> bool {
    let mut goes_on = true;
    for _ in 0..rounds {
        goes_on = crew.record(rt, shift);
    }
    goes_on
}

#[test]
fn a_worker_alone_rests_at_once(rt: HostRuntime) -> Result<(), Fail> {
    let crew = Crew::new(1);
    let shift = crew.begin(&rt);
    assert_eq!(rt; crew.look(&rt), (0, 1));
    assert!(rt; crew.rest(&rt, 0));
    crew.leave(&rt, shift);
    assert!(rt; !crew.has_paid(&rt) && !crew.has_waited(&rt));
    Ok(())
}

#[test]
fn who_has_not_seen_a_change_looks_again(rt: HostRuntime) -> Result<(), Fail> {
    let crew = Crew::new(2);
    let (mut one, two) = (crew.begin(&rt), crew.begin(&rt));
    assert!(rt; records(&rt, &crew, &mut one, 63));
    assert_eq!(rt; crew.look(&rt), (0, 1000));
    assert!(rt; records(&rt, &crew, &mut one, 1));
    assert_eq!(rt; crew.look(&rt).0, 1);
    assert!(rt; !crew.rest(&rt, 0));
    crew.leave(&rt, two);
    assert!(rt; crew.rest(&rt, 1));
    crew.leave(&rt, one);
    Ok(())
}

#[test]
fn who_goes_on_alone_leaves_with_the_others(rt: HostRuntime) -> Result<(), Fail> {
    let crew = Crew::new(1);
    let mut shift = crew.begin(&rt);
    assert!(rt; records(&rt, &crew, &mut shift, 63));
    assert!(rt; !records(&rt, &crew, &mut shift, 1));
    assert!(rt; crew.rest(&rt, 1));
    crew.leave(&rt, shift);
    Ok(())
}

#[test]
fn who_waits_after_each_round_leaves_with_the_others(rt: HostRuntime) -> Result<(), Fail> {
    let crew = Crew::new(2);
    let (mut one, two) = (crew.begin(&rt), crew.begin(&rt));
    for _ in 0..7_u32 {
        assert!(rt; crew.record(&rt, &mut one) && crew.tell(&rt, &mut one));
    }
    assert!(rt; crew.record(&rt, &mut one) && !crew.tell(&rt, &mut one));
    assert!(rt; crew.rest(&rt, 8));
    crew.leave(&rt, one);
    crew.leave(&rt, two);
    assert!(rt; crew.has_waited(&rt) && !crew.has_paid(&rt));
    Ok(())
}

#[test]
fn two_workers_rest_until_both_do(rt: HostRuntime) -> Result<(), Fail> {
    let crew = Crew::new(2);
    let (one, two) = join(&rt, || work(&rt, &crew), || work(&rt, &crew));
    assert!(rt; one == 2 || two == 2);
    assert_eq!(rt; crew.look(&rt).0, 2);
    Ok(())
}

#[test]
fn workers_are_called_where_several_go_on(rt: HostRuntime) -> Result<(), Fail> {
    let mut pace = Pace::new();
    assert!(rt; !pace.calls(2) && !pace.calls(1) && !pace.calls(4) && pace.calls(2));
    pace.begin();
    assert!(rt; !pace.calls(2) && pace.calls(2) && pace.has_threads(&rt, 4));
    for _ in 0..9_u32 {
        pace.learn(false);
    }
    assert!(rt; !pace.calls(2) && !pace.calls(2) && !pace.calls(2) && pace.calls(2));
    pace.learn(true);
    assert!(rt; !pace.calls(2) && pace.calls(2));
    Ok(())
}

#[test]
fn an_entry_is_seen_at_its_actor_alone(rt: HostRuntime) -> Result<(), Fail> {
    let marks = Marks::new(rt.alloc(), 2)?;
    let (one, two) = (marks.spot(0, Awaited::Entry), marks.spot(1, Awaited::Entry));
    let reads = marks.spot(1, Awaited::Text);
    marks.add(1, false);
    assert!(rt; marks.stands(one) && !marks.stands(two) && marks.stands(reads));
    marks.add(1, true);
    marks.add(2, true);
    let none = marks.spot(2, Awaited::Text);
    assert!(rt;
        marks.stands(one)
            && !marks.stands(reads)
            && marks.stands(none)
            && marks.stands(Spot::nowhere())
    );
    Ok(())
}
