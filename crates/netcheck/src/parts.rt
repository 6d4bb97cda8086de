//! The two parts of an input, which its first line `%history` divides.
ghost use Rattle.std.specs.Prelude.{◌≡◌, ◌+◌, ◌<◌, ◌≤◌, ◌^◌, length, IfErr, IfOk, None, Some};
ghost use Rattle.world_text.specs.WorldText.{cuts_of};
ghost use Rattle.netcheck.specs.Input.{is_mark, parts_of};

use world_file::cut_line;

/// The parts of an input that has a history.
#[derive(Clone, Copy)]
pub struct Parts<'a> {
    /// The text of the world.
    pub world: &'a [u8],
    /// How many lines it has.
    pub lines: u64,
    /// What stands behind the line between.
    pub history: &'a [u8],
}

/// The parts of an input, or how many lines it has where none is the one between. No byte is copied.
pub fn split(input: &[u8]) -> Result<Parts<'_>, u64>
    requires { length input.now < 2 ^ 32 }
    ensures ok { IfOk result (λ p. parts_of input.now
        ≡ Some (record { world = p.world.now; lines = p.lines; history = p.history.now })) }
    ensures room { IfOk result (λ p. p.lines + length p.history.now ≤ length input.now) }
    ensures err { IfErr result (λ lines. parts_of input.now ≡ None) }
    ensures count { IfErr result (λ lines. lines ≡ length (cuts_of input.now)) }
{
    let mut rest = input;
    let mut lines: u64 = 0;
    while !rest.is_empty() {
        let (line, behind) = cut_line(rest);
        if is_mark(line) {
            return Ok(Parts {
                world: &input[..input.len() - rest.len()],
                lines,
                history: behind,
            });
        }
        lines += 1;
        rest = behind;
    }
    Err(lines)
}

// Whether a line is the one between.
fn is_mark(line: &[u8]) -> bool
    ensures { result ≡ is_mark line.now }
{
    line == b"%history".as_slice()
}
