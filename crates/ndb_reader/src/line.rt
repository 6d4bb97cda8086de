//! A line of a text: its pairs, or the least cause for which it is bad.
ghost use Rattle.std.specs.Prelude.{◌≡◌, ℕ, OnOk, not, ◌&&◌, MatchOption, true, false, codes, None, IfOk, IfErr};
ghost use Rattle.std.specs.List.{list_any};
ghost use Rattle.std.specs.Option.{option_map};
ghost use Rattle.net_base.specs.NdbText as spec;
ghost use Rattle.net_base.specs.NdbText.{begins_with};
ghost use Rattle.net_base.specs.NdbBundle.{causes_of, is_file_line, bundle_file, least_of_causes};
ghost use Rattle.net_base.specs.Store.{with_pairs};
ghost use Rattle.ndb_reader.specs.Told.{Tells, AreWords};

use crate::fault::NdbError;
use crate::words::{Words, is_white, read_words};
use net_base::Growing;
use std::alloc::AllocError;

/// Whether a line begins with white space.
pub(crate) fn is_indented(line: &[u8]) -> bool
    ensures { result ≡ spec.begins spec.is_white line.now }
{
    !line.is_empty() && is_white(line[0])
}

/// The name of the file that a line begins.
pub(crate) fn begun_file(line: &[u8]) -> Option<&[u8]>
    ensures { MatchOption result
        (is_file_line line.now ≡ false)
        (λ name. (is_file_line line.now ≡ true) × (name.now ≡ bundle_file line.now)) }
{
    if !is_headed(line) {
        return None;
    }
    let name = &line[6..];
    if name.is_empty() || has_white(name) {
        return None;
    }
    Some(name)
}

/// Whether a line begins as one that begins a file. Few lines have even its first byte.
fn is_headed(line: &[u8]) -> bool
    ensures { result ≡ begins_with (codes "%file ") line.now }
{
    is_percent(line) && line.starts_with(b"%file ")
}

/// Whether there is white space among bytes.
fn has_white(bytes: &[u8]) -> bool
    ensures { result ≡ list_any spec.is_white bytes.now }
{
    bytes.iter().any(|byte| is_white(*byte))
}

/// Reads the line with this number onto the line that is open, in a file that has a tuple before it or has none, of a text that has
/// zero bytes or has none; tells whether it has words.
pub(crate) fn read_line(
    growing: &mut Growing,
    line: &[u8],
    number: u64,
    has_tuple: bool,
    zeros: bool,
) -> Result<bool, NdbError>
    requires { list_any spec.is_zero line.now ≡ true → zeros ≡ true }
    ensures good { OnOk result (least_of_causes (causes_of has_tuple line.now) ≡ None) }
    ensures pairs { OnOk result (growing.new ≡ with_pairs (spec.pairs_of line.now) growing.old) }
    ensures some { IfOk result (λ some. some ≡ not (spec.is_empty (spec.words_of line.now))) }
    ensures bad { IfErr result (λ e. Tells e (option_map (λ (c : ℕ). (number, c))
        (least_of_causes (causes_of has_tuple line.now)))) }
{
    let words = words_of(line, growing)?;
    match least_cause(line, words, has_tuple, zeros) {
        Some(cause) => Err(NdbError::Bad {
            line: number,
            cause,
        }),
        None => Ok(words.some),
    }
}

/// The words of a line; one that begins with `%` has none.
fn words_of(line: &[u8], growing: &mut Growing) -> Result<Words, AllocError>
    ensures words { IfOk result (λ words. AreWords words (spec.words_of line.now)) }
    ensures pairs { OnOk result (growing.new ≡ with_pairs (spec.pairs_of line.now) growing.old) }
{
    if is_percent(line) {
        return Ok(Words::new());
    }
    read_words(line, growing)
}

/// The least cause for which a line with these words is bad.
fn least_cause(line: &[u8], words: Words, has_tuple: bool, zeros: bool) -> Option<u32>
    requires words { AreWords words (spec.words_of line.now) }
    requires zeros { list_any spec.is_zero line.now ≡ true → zeros ≡ true }
    ensures { result ≡ least_of_causes (causes_of has_tuple line.now) }
{
    if goes_on_alone(line, words, has_tuple) {
        Some(1)
    } else if words.unclosed {
        Some(2)
    } else if words.nameless {
        Some(3)
    } else if words.followed {
        Some(4)
    } else if is_zeroed(line, zeros) {
        Some(5)
    } else if is_directive(line) {
        Some(6)
    } else {
        None
    }
}

/// Whether a line goes on with a tuple where there is none.
fn goes_on_alone(line: &[u8], words: Words, has_tuple: bool) -> bool
    ensures { result ≡ (words.some && (spec.begins spec.is_white line.now && not has_tuple)) }
{
    words.some && is_indented(line) && !has_tuple
}

/// Whether a line begins with `%` and begins no file.
fn is_directive(line: &[u8]) -> bool
    ensures { result ≡ (spec.begins spec.is_percent line.now && not (is_file_line line.now)) }
{
    is_percent(line) && begun_file(line).is_none()
}

/// Whether there is a zero byte among bytes.
pub(crate) fn has_zero(bytes: &[u8]) -> bool
    ensures { result ≡ list_any spec.is_zero bytes.now }
{
    bytes.contains(&0)
}

/// Whether a line has a zero byte, of a text that has some or has none: mostly the text was looked through once for all lines.
fn is_zeroed(line: &[u8], zeros: bool) -> bool
    requires { list_any spec.is_zero line.now ≡ true → zeros ≡ true }
    ensures { result ≡ list_any spec.is_zero line.now }
{
    zeros && has_zero(line)
}

fn is_percent(line: &[u8]) -> bool
    ensures { result ≡ spec.begins spec.is_percent line.now }
{
    !line.is_empty() && line[0] == b'%'
}
