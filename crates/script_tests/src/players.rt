//! A script, from its first event to its last.
use crate::holding::no_tuples;
use net_base::{ActorName, Event, Octets, Reply, Script, Sequence, Step};
use script_player::Player;
use std::alloc::{AllocError, Global};
use std::test::*;

fn closes(alloc: Global) -> Result<Step, AllocError> {
    Ok(Step::Close {
        name: Octets::from_slice(alloc, b"c")?,
    })
}

// A script of one step, which closes a name that isn't bound.
fn script(alloc: Global) -> Result<Script, AllocError> {
    let mut steps = Sequence::new(alloc);
    steps.push(closes(alloc)?)?;
    Ok(Script { host: 2, steps })
}

// Whether the event is one at the desk of the script's host.
fn is_at_desk(asked: &Option<(ActorName, Event)>) -> bool {
    match asked {
        Some((actor, _)) => *actor == ActorName::Desk(2),
        None => false,
    }
}

// Whether the next event is one at the desk of the script's host.
fn asks_desk(player: &mut Player, script: &Script) -> Result<bool, AllocError> {
    let asked = player.next(script)?;
    let at_desk = is_at_desk(&asked);
    drop(asked);
    Ok(at_desk)
}

// Whether the script asks at the desk, and with the refusal ends.
fn ends_refused(player: &mut Player, script: &Script) -> Result<bool, AllocError> {
    let asks = asks_desk(player, script)?;
    player.told(script, Reply::BadFid)?;
    let asks_on = asks_desk(player, script)?;
    Ok(asks && !asks_on && player.finished() == 1)
}

fn ends(alloc: Global, script: &Script) -> Result<bool, AllocError> {
    let mut player = Player::new(alloc, no_tuples(alloc)?);
    let ends = ends_refused(&mut player, script);
    drop(player);
    ends
}

#[test]
fn a_script_is_played(rt: HostRuntime) -> Result<(), AllocError> {
    let script = script(rt.alloc())?;
    assert!(rt; ends(rt.alloc(), &script) == Ok(true));
    drop(script);
    Ok(())
}
