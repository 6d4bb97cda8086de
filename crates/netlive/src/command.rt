//! The words of a call.

use words::number_in;

/// A call: where the world is, where the history goes, and the seed of the order of turns, if it is drawn.
#[derive(Drop)]
pub struct Command<'a> {
    pub world: &'a str,
    pub out: &'a str,
    pub seed: Option<u64>,
}

/// Reads the words of a call: `[--schedule SEED] WORLD OUT`.
pub fn read_command(words: &[String]) -> Option<Command<'_>> {
    match words {
        [world, out] => Some(Command {
            world: world.as_str(),
            out: out.as_str(),
            seed: None,
        }),
        [option, seed, world, out] if option.as_bytes() == b"--schedule".as_slice() => Some(
            Command {
                world: world.as_str(),
                out: out.as_str(),
                seed: Some(number_in(0, u64::MAX, seed.as_bytes())?),
            },
        ),
        _ => None,
    }
}
