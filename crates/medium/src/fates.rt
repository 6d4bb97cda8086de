//! What becomes of a medium's frames.
ghost use Rattle.std.specs.Prelude.{◌≡◌, ℕ, ◌+◌, ◌%◌, ◌≤◌, true, false, find, IfOk, unwrap_or};
ghost use Rattle.net_base.specs.Medium.{fate_of};
ghost use Rattle.net_base.specs.Medium as rule;
ghost use Rattle.net_base.specs.World.{is_medium};
ghost use Rattle.rand_pcg.specs.Lcg.{next};
ghost use Rattle.rand_pcg.specs.Pcg.{multiplier_64, pcg32};
ghost use Rattle.medium.specs.OnFates.{AreInOrder, FindsAlike, HasRates, begins_past, fate_line, names_fate, next_frame_number};

use net_base::{Fate, FateRange, MediumSpec};
use rand_core::utils::NextWord;
use rand_pcg::Lcg64Xsh32;
use std::alloc::{AllocError, Global};
use std::collections::VecDeque;
use std::marker::Model;

/// The fates of frames in their order, known one frame ahead.
#[derive(Drop)]
pub struct Fates {
    spec: MediumSpec,
    seed: u64,
    laid: u64,
    // The lines of later frames, the nearest first.
    lines: VecDeque<FateRange>,
    words: Lcg64Xsh32,
    ahead: Fate,
}

impl Model for Fates {
    ghost use Rattle.medium.specs.OnFates.{OnFates, IsAhead};

    ghost Value = { OnFates };

    ghost view = { λ f. record { spec = f.spec; seed = f.seed; laid = f.laid } };

    ghost invariant = { λ f. IsAhead f.spec f.seed f.laid f.lines.items f.words f.ahead };
}

impl Fates {
    /// The fates on a medium of a world, where no frame was laid.
    pub fn new(alloc: Global, spec: &MediumSpec, seed: u64) -> Result<Fates, AllocError>
        requires { is_medium spec.now.number spec.now ≡ true }
        ensures { IfOk result (λ f. f ≡ record { spec = spec.now; seed = seed; laid = 0 }) }
    {
        let mut lines = lines_in_order(alloc, spec)?;
        let mut words = Lcg64Xsh32::new(seed, 64 + u64::from(spec.number));
        let ahead = fate_after(0, spec, &mut lines, &mut words);
        Ok(Fates {
            spec: spec.clone()?,
            seed,
            laid: 0,
            lines,
            words,
            ahead,
        })
    }

    /// The number of the next frame. The last number is given again.
    pub fn number(&self) -> u64
        ensures { result ≡ next_frame_number self.now.laid }
    {
        self.laid.saturating_add(1)
    }

    /// The mtu of the medium, in bytes.
    pub fn mtu(&self) -> u32
        ensures value { result ≡ self.now.spec.mtu }
        ensures within { (576 ≤ result) × (result ≤ 16384) }
    {
        self.spec.mtu
    }

    /// The fate of the next frame.
    pub fn ahead(&self) -> Fate
        ensures { result ≡ fate_of self.now.seed self.now.spec (self.now.laid + 1) }
    {
        self.ahead
    }

    /// The next frame is laid, if there is a number for it.
    pub fn pass(&mut self)
        ensures { self.new ≡ record self.old { laid = next_frame_number self.old.laid } }
    {
        if self.laid < u64::MAX {
            self.laid += 1;
            self.ahead = fate_after(self.laid, &self.spec, &mut self.lines, &mut self.words);
        }
    }
}

// The lines of the world file in the order of their frames.
#[tactic(auto, using(crate::proofs::Fating::sorted_alike))]
fn lines_in_order(alloc: Global, spec: &MediumSpec) -> Result<VecDeque<FateRange>, AllocError>
    requires { is_medium spec.now.number spec.now ≡ true }
    ensures order { IfOk result (λ lines. AreInOrder lines.items) }
    ensures alike { IfOk result (λ lines. (m : ℕ)
        → find (names_fate m) lines.items ≡ find (names_fate m) spec.now.fates) }
{
    let mut lines = Vec::from_slice(alloc, spec.fates.as_slice())?;
    lines.sort_by_key(|line| line.first)?;
    Ok(VecDeque::from_vec(lines))
}

// The fate of the frame after so many: a line names it, or a drawn word.
fn fate_after(
    laid: u64,
    spec: &MediumSpec,
    lines: &mut VecDeque<FateRange>,
    words: &mut Lcg64Xsh32,
) -> Fate
    requires rates { HasRates spec.now }
    requires order { AreInOrder lines.old.items }
    ensures fate { result ≡ unwrap_or (fate_line (laid + 1) lines.old.items)
        (rule.fate_by_rates spec.now ((pcg32 words.old).0 % 1000)) }
    ensures words { words.new ≡ next 64 multiplier_64 words.old }
    ensures order { AreInOrder lines.new.items }
    ensures alike { FindsAlike laid lines.old.items lines.new.items }
{
    let word = words.next_word();
    line_after(laid, lines).unwrap_or(fate_by_rates(spec, word % 1000))
}

// The fate that a line names for the frame after so many. Lines of earlier frames go.
fn line_after(laid: u64, lines: &mut VecDeque<FateRange>) -> Option<Fate>
    requires { AreInOrder lines.old.items }
    ensures fate { result ≡ fate_line (laid + 1) lines.old.items }
    ensures order { AreInOrder lines.new.items }
    ensures alike { FindsAlike laid lines.old.items lines.new.items }
{
    drop_past(laid, lines);
    first_fate(laid, lines)
}

// Drops the lines that name no frame after so many, up to the first that names one.
fn drop_past(laid: u64, lines: &mut VecDeque<FateRange>)
    requires { AreInOrder lines.old.items }
    ensures first { begins_past laid lines.new.items ≡ false }
    ensures order { AreInOrder lines.new.items }
    ensures alike { FindsAlike laid lines.old.items lines.new.items }
{
    while begins_past(laid, lines) {
        lines.pop_front();
    }
}

// The fate that the first line names for the frame after so many.
#[tactic(auto, using(crate::proofs::Fating::line_tells))]
fn first_fate(laid: u64, lines: &VecDeque<FateRange>) -> Option<Fate>
    requires order { AreInOrder lines.now.items }
    requires first { begins_past laid lines.now.items ≡ false }
    ensures { result ≡ fate_line (laid + 1) lines.now.items }
{
    let line = lines.front()?;
    if line.first.saturating_sub(1) <= laid {
        Some(line.fate)
    } else {
        None
    }
}

// Tells whether the first line names no frame after so many.
fn begins_past(laid: u64, lines: &VecDeque<FateRange>) -> bool
    ensures { result ≡ begins_past laid lines.now.items }
{
    match lines.front() {
        Some(line) => line.last <= laid,
        None => false,
    }
}

// The fate that the rates give to a number below 1,000.
fn fate_by_rates(spec: &MediumSpec, drawn: u32) -> Fate
    requires { HasRates spec.now }
    ensures { result ≡ rule.fate_by_rates spec.now drawn }
{
    if drawn < spec.loss {
        Fate::Lose
    } else if drawn < spec.loss + spec.twice {
        Fate::Twice
    } else if drawn < spec.loss + spec.twice + spec.later {
        Fate::Later
    } else {
        Fate::Deliver
    }
}
