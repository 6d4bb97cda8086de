//! A run whose order of turns is drawn.
ghost use Rattle.std.specs.Prelude.{◌≡◌, length, true, IfOk, IfSome, IfNone};
ghost use Rattle.net_base.specs.World.{IsWorld};
ghost use Rattle.turn_orders.specs.Turns.{IsEnded};
ghost use Rattle.order_search.specs.Walks.{IsGoer, IsWalk};
ghost use Rattle.order_search.specs.Tellings.{IsEndedRun};

use crate::ended::{Ended, ended_of};
use crate::going::{can_go, first_goer};
use crate::walk::{Walk, advance};
use net_base::World;
use rand_core::utils::NextWord;
use rand_pcg::Lcg64Xsh32;
use std::alloc::{AllocError, Global};

/// The stream of words from which orders are drawn; nothing of a world draws from it.
const STREAM: u64 = 1000;

/// One turn in this number draws new ranks.
const TURNS: u32 = 8;

/// The ranks of callers, drawn from a seed.
#[derive(Drop)]
pub struct Ranks {
    words: Lcg64Xsh32,
    ranks: Vec<u32>,
}

impl Ranks {
    /// Draws a rank for each of this number of callers.
    pub fn new(alloc: Global, seed: u64, callers: usize) -> Result<Ranks, AllocError> {
        let mut words = Lcg64Xsh32::new(seed, STREAM);
        let mut ranks = vec![in alloc; 0u32; callers]?;
        draw(&mut words, ranks.as_mut_slice());
        Ok(Ranks { words, ranks })
    }

    /// Draws new ranks for all callers, at about one turn in eight.
    pub fn begin_turn(&mut self) {
        if self.words.next_word() % TURNS == 0 {
            draw(&mut self.words, self.ranks.as_mut_slice());
        }
    }

    /// Returns the rank of a caller.
    pub fn of(&self, caller: usize) -> u32 {
        self.ranks.get(caller).copied().unwrap_or(0)
    }
}

/// Runs a world in an order of turns that is drawn from a seed: of the callers that can continue, the one of the greatest rank has the turn,
/// and one turn in eight draws new ranks.
pub fn drawn(alloc: Global, world: &World, seed: u64) -> Result<Ended, AllocError>
    requires { IsWorld world.now }
    ensures { IfOk result (IsEndedRun world.now) }
{
    let mut walk = Walk::new(alloc, world)?;
    let mut ranks = Ranks::new(alloc, seed, walk.runner.callers.len())?;
    for _ in 0..u64::MAX {
        let Some(first) = first_goer(&walk.runner, world) else {
            return ended_of(alloc, world, &mut walk, &[]);
        };
        if !is_move(&walk, world, first) {
            ranks.begin_turn();
        }
        let caller = greatest(&walk, world, first, &ranks);
        advance(world, &mut walk, caller)?;
    }
    Err(AllocError)
}

// Whether the turn of this caller is a move of the clock.
fn is_move(walk: &Walk<'_>, world: &World, caller: usize) -> bool
    requires { IsWalk world.now walk.now }
{
    caller.checked_add(1) == Some(walk.runner.callers.len()) && walk.runner.is_movable(world)
}

// Draws the ranks of all callers.
fn draw(words: &mut Lcg64Xsh32, ranks: &mut [u32]) {
    for rank in ranks.iter_mut() {
        *rank = words.next_word();
    }
}

// The caller of the greatest rank that can continue, the lowest number among equal ranks.
fn greatest(walk: &Walk<'_>, world: &World, first: usize, ranks: &Ranks) -> usize
    requires walk { IsWalk world.now walk.now }
    requires first { IsGoer world.now walk.now.runner.history.entries (length walk.now.runner.callers.items) first }
    ensures { IsGoer world.now walk.now.runner.history.entries (length walk.now.runner.callers.items) result }
{
    let mut best = first;
    for caller in 0..walk.runner.callers.len() {
        if ranks.of(best) < ranks.of(caller) && can_go(&walk.runner, world, caller) {
            best = caller;
        }
    }
    best
}
