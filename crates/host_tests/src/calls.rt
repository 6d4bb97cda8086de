//! Calls that wait and are taken.
use listen_queue::CallQueue;
use net_base::Call;
use std::alloc::{AllocError, Global};
use std::process::Abort;
use std::test::*;

fn call(slot: u32) -> Call {
    Call {
        slot,
        generation: 1,
    }
}

/// What a queue does with the call of a slot.
#[derive(Clone, Copy)]
enum Row {
    Queues(u32),
    Refuses(u32),
    Gives(u32),
    GivesNone,
}

fn does(queue: &mut CallQueue, row: Row) -> bool {
    match row {
        Row::Queues(slot) => queue.queue(call(slot)) == Ok(()),
        Row::Refuses(slot) => queue.queue(call(slot)) == Err(call(slot)),
        Row::Gives(slot) => queue.take() == Some(call(slot)),
        Row::GivesNone => queue.take().is_none(),
    }
}

fn play(rt: &impl Abort, queue: &mut CallQueue, rows: &[Row]) {
    for (i, row) in rows.iter().enumerate() {
        assert!(rt; does(queue, *row), "row {i}");
    }
}

const TEN: &[Row] = &[
    Row::Queues(0),
    Row::Queues(1),
    Row::Queues(2),
    Row::Queues(3),
    Row::Queues(4),
    Row::Queues(5),
    Row::Queues(6),
    Row::Queues(7),
    Row::Queues(8),
    Row::Queues(9),
    // the eleventh
    Row::Refuses(10),
    // the oldest
    Row::Gives(0),
    // there is room again
    Row::Queues(11),
];

#[test]
fn ten_calls_wait(rt: HostRuntime) -> Result<(), AllocError> {
    let mut queue = CallQueue::new(rt.alloc())?;
    play(&rt, &mut queue, TEN);
    assert!(rt; queue.len() == 10);
    Ok(())
}

const TWO: &[Row] = &[Row::GivesNone, Row::Queues(3), Row::Queues(1)];

fn has_two(alloc: Global, queue: &CallQueue) -> Result<bool, AllocError> {
    let list = queue.list(alloc)?;
    Ok(list.as_slice() == [call(3), call(1)].as_slice())
}

#[test]
fn calls_are_listed_and_sent_away(rt: HostRuntime) -> Result<(), AllocError> {
    let mut queue = CallQueue::new(rt.alloc())?;
    play(&rt, &mut queue, TWO);
    assert!(rt; has_two(rt.alloc(), &queue) == Ok(true));
    queue.clear();
    assert!(rt; queue.first().is_none());
    Ok(())
}
