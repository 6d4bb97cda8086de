//! A made world.
use net_base::World;
use std::alloc::{AllocError, Global};
use world_writer::make_world;

/// Whether the scripts of a world have this many steps each.
fn has_steps(world: &World, first: usize, second: usize) -> bool {
    match world.scripts.as_slice() {
        [one, other] => one.steps.len() == first && other.steps.len() == second,
        _ => false,
    }
}

fn is_made(alloc: Global, messages: u32) -> Result<bool, AllocError> {
    let world = make_world(alloc, messages)?;
    let head = world.end == 1000000000
        && world.seed == 20
        && world.dbs.len() == 1
        && world.dbs.as_slice()[0].db.len() == 7;
    let steps = has_steps(&world, 43, 46);
    drop(world);
    Ok(head && steps)
}

#[test]
fn each_message_has_two_steps_a_host(rt: HostRuntime) {
    assert!(rt; is_made(rt.alloc(), 20) == Ok(true));
}
