//! The starts of a host.
ghost use Rattle.std.specs.Prelude.{◌≡◌, ◌<◌, ◌+◌, ◌-◌, length, IfOk};
ghost use Rattle.net_base.specs.declared.world.World.{World as AnyWorld};
ghost use Rattle.net_base.specs.Directory.{host_start};
ghost use Rattle.net_base.specs.Draws.{drawn_word};
ghost use Rattle.host_dir.specs.Starts.{AreStartsOf};

use net_base::World;
use rand_core::utils::NextWord;
use rand_pcg::Lcg64Xsh32;
use std::alloc::AllocError;

/// The start lines of a host, and what further starts are drawn from.
#[derive(Drop)]
pub struct Starts {
    pub seed: u64,
    pub host: u32,
    pub lines: net_base::Starts,
}

/// The word of a stream before which so many were drawn.
fn word_after(seed: u64, stream: u64, before: u64) -> u32
    ensures { result ≡ drawn_word seed stream (before + 1) }
{
    let mut words = Lcg64Xsh32::new(seed, stream);
    words.advance(before);
    words.next_word()
}

impl Starts {
    /// The starts of a host of the world.
    pub fn new(world: &World, host: u32) -> Result<Starts, AllocError>
        requires { host < length world.now.hosts }
        ensures { IfOk result (AreStartsOf world.now host) }
    {
        Ok(Starts {
            seed: world.seed,
            host,
            lines: world.hosts.as_slice()[host as usize].starts.clone()?,
        })
    }

    /// The start that comes after so many: that of the next line, or else the next drawn word, where 0 becomes 1.
    pub fn after(&self, given: usize) -> u32
        ensures { (w : AnyWorld) → self.now.seed ≡ w.seed
            → result ≡ host_start w self.now.host self.now.lines (given + 1) }
    {
        let lines = self.lines.as_slice();
        match lines.get(given) {
            Some(line) => *line,
            None => word_after(
                self.seed,
                u64::from(self.host),
                (given - lines.len()) as u64,
            )
            .max(1),
        }
    }
}
