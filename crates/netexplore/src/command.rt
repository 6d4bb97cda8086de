//! The words of the command line.
ghost use Rattle.std.specs.Prelude.{◌≡◌, ◌≤◌, ◌∷◌, IfSome, map, option_map, string_bytes};
ghost use Rattle.netexplore.specs.Commands.{command_read, part_read, span_read};
ghost use Rattle.netexplore.specs.Words as spec;

use words::{number_in, two_parts};

/// A part of the histories, and the number of parts.
#[derive(Clone, Copy)]
pub struct PartWord {
    pub number: u64,
    pub count: u64,
}

/// Which histories are looked at: with at most p preemptions, the first ones up to a limit, of one part or all.
#[derive(Clone, Copy)]
pub struct Span {
    pub preemptions: u32,
    pub limit: u64,
    pub part: Option<PartWord>,
}

/// A command.
#[derive(Clone, Copy)]
pub enum Command {
    /// `schedule SEED`
    Schedule(u64),
    /// `outcomes P LIMIT`
    Outcomes(Span),
    /// `witness P LIMIT N`
    Witness(Span, u32),
    /// `losses K P LIMIT`
    Losses(u32, Span),
    /// `lost K P LIMIT N`
    Lost(u32, Span, u32),
}

/// The command that words give, if they are in a row.
pub fn read_words(words: &[String]) -> Option<Command>
    ensures { option_map command_read result ≡ spec.command_of (map string_bytes words.now) }
{
    match words {
        [name, rest @ ..] => read_named(name.as_bytes(), rest),
        [] => None,
    }
}

/// The command of a name and the words after it.
fn read_named(name: &[u8], words: &[String]) -> Option<Command>
    ensures { option_map command_read result ≡ spec.named_command name.now (map string_bytes words.now) }
{
    if name == b"schedule".as_slice() {
        return read_schedule(words);
    }
    if name == b"outcomes".as_slice() {
        return read_outcomes(words);
    }
    if name == b"witness".as_slice() {
        return read_witness(words);
    }
    if name == b"losses".as_slice() {
        return read_losses(words);
    }
    if name == b"lost".as_slice() {
        return read_lost(words);
    }
    None
}

fn read_schedule(words: &[String]) -> Option<Command>
    ensures { option_map command_read result ≡ spec.schedule_in (map string_bytes words.now) }
{
    match words {
        [seed] => Some(Command::Schedule(read_seed(seed.as_bytes())?)),
        _ => None,
    }
}

fn read_outcomes(words: &[String]) -> Option<Command>
    ensures { option_map command_read result ≡ spec.outcomes_in (map string_bytes words.now) }
{
    match words {
        [preemptions, limit, part @ ..] => Some(Command::Outcomes(read_span(
            preemptions.as_bytes(),
            limit.as_bytes(),
            part,
        )?)),
        _ => None,
    }
}

fn read_witness(words: &[String]) -> Option<Command>
    ensures { option_map command_read result ≡ spec.witness_in (map string_bytes words.now) }
{
    match words {
        [preemptions, limit, number, part @ ..] => {
            let span = read_span(preemptions.as_bytes(), limit.as_bytes(), part)?;
            let number = read_number(number.as_bytes())?;
            Some(Command::Witness(span, number))
        }
        _ => None,
    }
}

fn read_losses(words: &[String]) -> Option<Command>
    ensures { option_map command_read result ≡ spec.losses_in (map string_bytes words.now) }
{
    match words {
        [losses, preemptions, limit, part @ ..] => {
            let losses = read_bound(losses.as_bytes())?;
            let span = read_span(preemptions.as_bytes(), limit.as_bytes(), part)?;
            Some(Command::Losses(losses, span))
        }
        _ => None,
    }
}

fn read_lost(words: &[String]) -> Option<Command>
    ensures { option_map command_read result ≡ spec.lost_in (map string_bytes words.now) }
{
    match words {
        [losses, preemptions, limit, number, part @ ..] => {
            let losses = read_bound(losses.as_bytes())?;
            let span = read_span(preemptions.as_bytes(), limit.as_bytes(), part)?;
            let number = read_number(number.as_bytes())?;
            Some(Command::Lost(losses, span, number))
        }
        _ => None,
    }
}

fn read_span(preemptions: &[u8], limit: &[u8], part: &[String]) -> Option<Span>
    ensures { option_map span_read result
        ≡ spec.span_of (spec.bound_in preemptions.now) (spec.limit_in limit.now) (spec.part_words (map string_bytes part.now)) }
{
    let preemptions = read_bound(preemptions)?;
    let limit = read_limit(limit)?;
    let part = read_part(part)?;
    Some(Span {
        preemptions,
        limit,
        part,
    })
}

/// A seed, any number of 64 bits.
#[tactic(auto, unfolding(crate::specs::Words::seed_in))]
fn read_seed(word: &[u8]) -> Option<u64>
    ensures { result ≡ spec.seed_in word.now }
{
    number_in(0, 18_446_744_073_709_551_615, word)
}

/// A bound on losses or preemptions, 0 to 99.
#[tactic(auto, unfolding(crate::specs::Words::bound_in))]
fn read_bound(word: &[u8]) -> Option<u32>
    ensures { result ≡ spec.bound_in word.now }
{
    let bound = number_in(0, 99, word)?;
    Some(bound as u32)
}

/// How many histories are looked at, 1 to 1,000,000,000.
#[tactic(auto, unfolding(crate::specs::Words::limit_in))]
fn read_limit(word: &[u8]) -> Option<u64>
    ensures { result ≡ spec.limit_in word.now }
{
    number_in(1, 1_000_000_000, word)
}

/// The number of an outcome, 0 to 999,999,999.
#[tactic(auto, unfolding(crate::specs::Words::outcome_in))]
fn read_number(word: &[u8]) -> Option<u32>
    ensures { result ≡ spec.outcome_in word.now }
{
    let number = number_in(0, 999_999_999, word)?;
    Some(number as u32)
}

/// `PART/PARTS`, or no word.
fn read_part(words: &[String]) -> Option<Option<PartWord>>
    ensures { option_map (option_map part_read) result ≡ spec.part_words (map string_bytes words.now) }
{
    match words {
        [] => Some(None),
        [word] => Some(Some(read_part_word(word.as_bytes())?)),
        _ => None,
    }
}

#[tactic(auto, unfolding(crate::specs::Words::part_word))]
fn read_part_word(word: &[u8]) -> Option<PartWord>
    ensures { option_map part_read result ≡ spec.part_word word.now }
{
    let (number, count) = two_parts(word, b'/')?;
    let count = number_in(1, 1000, count)?;
    let number = number_in(1, count, number)?;
    Some(PartWord { number, count })
}
