//! The run of bytes and the runs of places.
ghost use Rattle.std.specs.Prelude.{◌≡◌, ◌≤◌, ◌<◌, ◌+◌, ◌-◌, ℕ, slice_set, true, ◌∷◌, ◌++◌, [], length, take, drop, slice_range, get_or, IfOk, OnOk, OnErr};
ghost use Rattle.net_base.specs.declared.ndb.spot.Spot.{Spot as Seen};
ghost use Rattle.net_base.specs.Spots.{pair_spots, Owns};
ghost use Rattle.net_base.specs.Parts.{start_at, last_end, ends_lowered, Rise};
ghost use Rattle.net_base.specs.Store.{pair_with, grown, with_pair, line_ended, tuple_ended, pairs_in, tuples_in, value_at, last_value, mark_lowered, marks_lowered, AreSound, AreWhole};
ghost use Rattle.net_base.specs.Ndb.{NdbPair};

use crate::ndb::pair::NdbPair;
use crate::ndb::spot::Spot;
use std::alloc::{AllocError, Global};

/// Where a pair's attribute ends, and where its value does. Its attribute begins where the pair before it ends.
#[derive(Clone, Copy, Debug, Drop)]
pub(crate) struct Mark {
    pub(crate) attr: u32,
    pub(crate) value: u32,
}

impl Mark {
    /// The mark where so many bytes in front are gone.
    fn lowered(self, count: usize) -> Mark
        ensures { result ≡ mark_lowered count self }
    {
        Mark {
            attr: (self.attr as usize).saturating_sub(count) as u32,
            value: (self.value as usize).saturating_sub(count) as u32,
        }
    }
}

/// All pairs in a row, where lines end among the pairs, and where tuples end among the lines.
#[derive(Debug, Drop)]
pub(crate) struct Runs {
    pub(crate) bytes: Vec<u8>,
    pub(crate) pairs: Vec<Mark>,
    pub(crate) lines: Vec<u32>,
    pub(crate) tuples: Vec<u32>,
}

/// A place as it is kept; a run that is longer has no room.
fn place_of(count: usize) -> Result<u32, AllocError>
    ensures { IfOk result (λ place. place ≡ count) }
{
    if count > 0xffff_ffff {
        return Err(AllocError);
    }
    Ok(count as u32)
}

/// Where the list with this number begins.
#[tactic(auto, using(crate::proofs::Cuts::begin_is))]
#[inline(always)]
pub(crate) fn begin_of(ends: &[u32], number: usize) -> usize
    requires { number ≤ length ends.now }
    ensures { result ≡ start_at 0 ends.now number }
{
    if number == 0 {
        return 0;
    }
    ends[number - 1] as usize
}

/// Where the last list ends.
fn end_of(ends: &[u32]) -> usize
    ensures { result ≡ last_end 0 ends.now }
{
    begin_of(ends, ends.len())
}

/// Where the pair with this number begins.
#[inline(always)]
fn value_begin(marks: &[Mark], number: usize) -> usize
    requires { number ≤ length marks.now }
    ensures { result ≡ value_at 0 marks.now number }
{
    if number == 0 {
        return 0;
    }
    marks[number - 1].value as usize
}

/// Where the last pair ends.
fn value_end(marks: &[Mark]) -> usize
    ensures { result ≡ last_value 0 marks.now }
{
    value_begin(marks, marks.len())
}

/// Drops the first elements, so many. It takes no memory.
fn drop_first<T: Copy + Drop>(list: &mut Vec<T>, count: usize)
    requires { count ≤ length list.old.items }
    ensures { list.new.items ≡ drop count list.old.items }
{
    list.rotate_left(count);
    list.truncate(list.len() - count);
}

/// The ends where so many elements in front are gone.
fn lower(ends: &mut Vec<u32>, count: usize)
    ensures { ends.new.items ≡ ends_lowered count ends.old.items }
{
    for place in 0..ends.len() {
        lower_at(ends, place, count);
    }
}

/// One end, lowered so.
fn lower_at(ends: &mut Vec<u32>, place: usize, count: usize)
    requires { place < length ends.old.items }
    ensures { (d : ℕ) → ends.new.items ≡ slice_set ends.old.items place (get_or ends.old.items place d - count) }
{
    ends[place] = (ends[place] as usize).saturating_sub(count) as u32;
}

/// The marks where so many bytes in front are gone.
fn lower_marks(marks: &mut Vec<Mark>, count: usize)
    ensures { marks.new.items ≡ marks_lowered count marks.old.items }
{
    for place in 0..marks.len() {
        lower_mark(marks, place, count);
    }
}

/// One mark, lowered so.
fn lower_mark(marks: &mut Vec<Mark>, place: usize, count: usize)
    requires { place < length marks.old.items }
    ensures { (d : Mark) → marks.new.items ≡ slice_set marks.old.items place
        (mark_lowered count (get_or marks.old.items place d)) }
{
    marks[place] = marks[place].lowered(count);
}

/// The number of the list in which the element with this number is, if all lists have the same length.
fn guess_of(ends: &[u32], number: usize) -> usize {
    match ends.last() {
        Some(end) if *end > 0 => number.wrapping_mul(ends.len()) / *end as usize,
        _ => 0,
    }
}

/// Whether the element with this number is in the list with that one.
fn owns(ends: &[u32], number: usize, list: usize) -> bool
    ensures { result ≡ true → Owns ends.now number list }
{
    if list >= ends.len() {
        return false;
    }
    begin_of(ends, list) <= number && number < ends[list] as usize
}

/// The number of the list in which the element with this number is. Mostly lists are about as long as one another.
fn owner_of(ends: &[u32], number: usize) -> usize
    ensures { (count : ℕ) → Rise 0 ends.now count → number < last_end 0 ends.now → Owns ends.now number result }
{
    let guess = guess_of(ends, number);
    if owns(ends, number, guess) {
        return guess;
    }
    ends.partition_point(|end| *end as usize <= number)
}

impl Runs {
    /// Empty runs, which take no memory yet.
    pub(crate) fn new(alloc: Global) -> Runs
        ensures bytes { result.bytes.items ≡ [] }
        ensures pairs { result.pairs.items ≡ [] }
        ensures lines { result.lines.items ≡ [] }
        ensures tuples { result.tuples.items ≡ [] }
    {
        Runs {
            bytes: Vec::new(alloc),
            pairs: Vec::new(alloc),
            lines: Vec::new(alloc),
            tuples: Vec::new(alloc),
        }
    }

    /// Adds a pair. After an error bytes may stand behind those that were there.
    fn put(&mut self, attr: &[u8], value: &[u8]) -> Result<(), AllocError>
        ensures lines { self.new.lines.items ≡ self.old.lines.items }
        ensures tuples { self.new.tuples.items ≡ self.old.tuples.items }
        ensures bytes { OnOk result (self.new.bytes.items ≡ self.old.bytes.items ++ (attr.now ++ value.now)) }
        ensures pairs { OnOk result (self.new.pairs.items ≡ self.old.pairs.items ++ record {
          attr = length self.old.bytes.items + length attr.now;
          value = length self.old.bytes.items + length attr.now + length value.now;
        } ∷ []) }
        ensures kept { OnErr result (take (length self.old.bytes.items) self.new.bytes.items ≡ self.old.bytes.items) }
        ensures same { OnErr result (self.new.pairs.items ≡ self.old.pairs.items) }
    {
        self.bytes.extend_from_slice(attr)?;
        let attr = place_of(self.bytes.len())?;
        self.bytes.extend_from_slice(value)?;
        let value = place_of(self.bytes.len())?;
        self.pairs.push(Mark { attr, value })?;
        Ok(())
    }

    /// Adds a pair to the line that is open.
    pub(crate) fn push(&mut self, attr: &[u8], value: &[u8]) -> Result<(), AllocError>
        requires { AreSound self.old }
        ensures sound { AreSound self.new }
        ensures ok { OnOk result (grown self.new ≡ with_pair (pair_with attr.now value.now) (grown self.old)) }
        ensures err { OnErr result (grown self.new ≡ grown self.old) }
    {
        let len = self.bytes.len();
        match self.put(attr, value) {
            Ok(()) => Ok(()),
            Err(error) => {
                self.bytes.truncate(len);
                Err(error)
            }
        }
    }

    /// Where the pairs end.
    fn pairs_end(&self) -> Result<u32, AllocError>
        ensures { IfOk result (λ place. place ≡ length self.now.pairs.items) }
    {
        place_of(self.pairs.len())
    }

    /// Where the lines end.
    fn lines_end(&self) -> Result<u32, AllocError>
        ensures { IfOk result (λ place. place ≡ length self.now.lines.items) }
    {
        place_of(self.lines.len())
    }

    /// Ends the line that is open.
    pub(crate) fn end_line(&mut self) -> Result<(), AllocError>
        requires { AreSound self.old }
        ensures sound { AreSound self.new }
        ensures ok { OnOk result (grown self.new ≡ line_ended (grown self.old)) }
        ensures err { OnErr result (grown self.new ≡ grown self.old) }
    {
        let place = self.pairs_end()?;
        self.lines.push(place)?;
        Ok(())
    }

    /// Ends the tuple that is open.
    pub(crate) fn end_tuple(&mut self) -> Result<(), AllocError>
        requires { AreSound self.old }
        ensures sound { AreSound self.new }
        ensures ok { OnOk result (grown self.new ≡ tuple_ended (grown self.old)) }
        ensures err { OnErr result (grown self.new ≡ grown self.old) }
    {
        let place = self.lines_end()?;
        self.tuples.push(place)?;
        Ok(())
    }

    /// The pair with this number.
    #[inline(always)]
    pub(crate) fn pair(&self, number: usize) -> NdbPair<'_>
        requires sound { AreSound self.now }
        requires within { number < length self.now.pairs.items }
        ensures { (d : NdbPair) → result ≡ get_or (pairs_in self.now) number d }
    {
        let start = value_begin(&self.pairs, number);
        let mark = self.pairs[number];
        let middle = mark.attr as usize;
        let end = mark.value as usize;
        NdbPair::new(&self.bytes[start..middle], &self.bytes[middle..end])
    }

    /// Where the pair with this number stands: its tuple, and its line, counted in that tuple.
    pub(crate) fn spot(&self, number: usize) -> Spot
        requires sound { AreSound self.now }
        requires whole { AreWhole self.now }
        requires within { number < length self.now.pairs.items }
        ensures { (d : Seen) → result ≡ get_or (pair_spots (tuples_in self.now)) number d }
    {
        let line = owner_of(&self.lines, number);
        let tuple = owner_of(&self.tuples, line);
        let first = begin_of(&self.tuples, tuple);
        Spot {
            place: tuple as u64,
            line: (line - first) as u64,
        }
    }

    /// Keeps the first tuples, so many, with what they have.
    fn truncate(&mut self, count: usize)
        requires sound { AreSound self.old }
        requires whole { AreWhole self.old }
        ensures sound { AreSound self.new }
        ensures whole { AreWhole self.new }
        ensures kept { tuples_in self.new ≡ take count (tuples_in self.old) }
    {
        self.tuples.truncate(count);
        self.lines.truncate(end_of(&self.tuples));
        self.pairs.truncate(end_of(&self.lines));
        self.bytes.truncate(value_end(&self.pairs));
    }

    /// Drops the first tuples, so many, with what they have.
    fn skip(&mut self, count: usize)
        requires sound { AreSound self.old }
        requires whole { AreWhole self.old }
        requires within { count ≤ length self.old.tuples.items }
        ensures sound { AreSound self.new }
        ensures whole { AreWhole self.new }
        ensures rest { tuples_in self.new ≡ drop count (tuples_in self.old) }
    {
        let lines = begin_of(&self.tuples, count);
        let pairs = begin_of(&self.lines, lines);
        let bytes = value_begin(&self.pairs, pairs);
        drop_first(&mut self.tuples, count);
        lower(&mut self.tuples, lines);
        drop_first(&mut self.lines, lines);
        lower(&mut self.lines, pairs);
        drop_first(&mut self.pairs, pairs);
        lower_marks(&mut self.pairs, bytes);
        drop_first(&mut self.bytes, bytes);
    }

    /// Keeps the tuples from a place to another, with what they have.
    pub(crate) fn keep(&mut self, first: usize, end: usize)
        requires sound { AreSound self.old }
        requires whole { AreWhole self.old }
        requires rise { first ≤ end }
        requires within { end ≤ length self.old.tuples.items }
        ensures sound { AreSound self.new }
        ensures whole { AreWhole self.new }
        ensures kept { tuples_in self.new ≡ slice_range (tuples_in self.old) first end }
    {
        self.truncate(end);
        if first == 0 {
            return;
        }
        self.skip(first);
    }

    /// A copy, in runs of its own.
    pub(crate) fn copied(&self) -> Result<Runs, AllocError>
        ensures bytes { IfOk result (λ r. r.bytes.items ≡ self.now.bytes.items) }
        ensures pairs { IfOk result (λ r. r.pairs.items ≡ self.now.pairs.items) }
        ensures lines { IfOk result (λ r. r.lines.items ≡ self.now.lines.items) }
        ensures tuples { IfOk result (λ r. r.tuples.items ≡ self.now.tuples.items) }
    {
        Ok(Runs {
            bytes: self.bytes.clone()?,
            pairs: self.pairs.clone()?,
            lines: self.lines.clone()?,
            tuples: self.tuples.clone()?,
        })
    }
}
