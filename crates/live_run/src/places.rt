//! The places of a world.
ghost use Rattle.std.specs.Prelude.{◌≡◌, ◌≤◌, ℕ, true, IfOk, IfSome, Some, length, slice_get, slice_set};
ghost use Rattle.live_run.specs.Currents.{AllNone, ChangesAt, HasNone, IsReplaced, IsUnheard};
ghost use Rattle.live_run.specs.LiveWorlds.{ArePlaces, Narrows};
ghost use Rattle.live_run.specs.Deadlines.{AreNone};
ghost use Rattle.net_base.specs.StepWords.{is_step};

use crate::currents::{no_currents, replace};
use crate::place::Place;
use live_answers::Current;
use live_lines::{PlaceState, StepWord};
use net_base::{Step, World};
use std::alloc::{AllocError, Global};

/// The places by the numbers of their scripts.
#[derive(Drop)]
pub struct Places {
    /// For each script whether more steps can begin at its end.
    pub grows: Vec<bool>,
    /// For each script whose last step has no entry, a moment in ms that the clock does not pass before. It is not later than the
    /// deadline of the step, nor than the moment that the step waits for.
    pub deadlines: Vec<Option<u64>>,
    /// For each script its current step, if it is a place with one.
    pub currents: Vec<Option<Current>>,
    /// For each script its place, if it is one.
    pub seats: Vec<Option<Place>>,
    /// How many bytes the accepted step lines have, with their newlines.
    pub accepted: u64,
}

impl Places {
    /// The places of a world: its scripts without steps.
    pub fn new(alloc: Global, world: &World) -> Result<Places, AllocError>
        ensures places { IfOk result (λ places. ArePlaces world.now places.grows.items) }
        ensures deadlines { IfOk result (λ places. AreNone places.deadlines.items) }
        ensures currents { IfOk result (λ places. AllNone (length world.now.scripts) places.currents.items) }
    {
        let grows = places_of(alloc, world)?;
        let deadlines = no_deadlines(alloc, grows.len())?;
        let currents = no_currents(alloc, world.scripts.len())?;
        let seats = seats_of(alloc, grows.as_slice())?;
        Ok(Places {
            grows,
            deadlines,
            currents,
            seats,
            accepted: 0,
        })
    }

    /// The numbers of the places, upwards.
    pub fn numbers(&self, alloc: Global) -> Result<Vec<u32>, AllocError> {
        let mut numbers = Vec::new(alloc);
        for (number, seat) in self.seats.iter().enumerate() {
            if seat.is_some() {
                numbers.push(place_number(number))?;
            }
        }
        Ok(numbers)
    }

    /// Whether more steps can begin at the end of a script.
    pub fn may_grow(&self, script: usize) -> bool
        ensures { result ≡ true → slice_get self.now.grows.items script ≡ Some true }
    {
        match self.grows.get(script) {
            Some(grows) => *grows,
            None => false,
        }
    }

    /// Whether a place waits for a line.
    pub fn is_some_idle(&self) -> bool {
        for script in 0..self.seats.len() {
            if self.is_idle(script) {
                return true;
            }
        }
        false
    }

    fn is_idle(&self, script: usize) -> bool {
        match self.seats.get(script) {
            Some(Some(place)) => place.needs_line() && self.has_none(script),
            _ => false,
        }
    }

    /// Whether the script of this number is a place whose next step can begin.
    pub fn can_begin(&self, script: usize) -> bool
        ensures { result ≡ true → HasNone self.now.currents.items script }
    {
        self.count(script) != 0 && self.has_none(script)
    }

    // Whether a script has no current step.
    fn has_none(&self, script: usize) -> bool
        ensures { result ≡ true → HasNone self.now.currents.items script }
    {
        match self.currents.get(script) {
            Some(Some(_)) => false,
            _ => true,
        }
    }

    /// Whether a script has a current step of which the history has no entry.
    pub fn is_waiting(&self, script: usize) -> bool
        ensures { result ≡ true → IsUnheard self.now.currents.items script }
    {
        match self.currents.get(script) {
            Some(Some(current)) => current.is_waiting(),
            _ => false,
        }
    }

    /// What makes a line for this place invalid. `None` if it is no place.
    pub fn state(&self, script: u32) -> Option<PlaceState> {
        match self.seats.get(script as usize) {
            Some(Some(place)) => Some(PlaceState {
                ended: place.ended,
                waits: self.is_waiting(script as usize),
            }),
            _ => None,
        }
    }

    /// Adds a step after those of a place. Its line has this many bytes without its newline.
    pub fn accept(
        &mut self,
        script: u32,
        step: Step,
        by: Option<u64>,
        length: usize,
    ) -> Result<(), AllocError>
        requires { is_step step ≡ true }
        ensures grows { self.new.grows ≡ self.old.grows }
        ensures deadlines { self.new.deadlines ≡ self.old.deadlines }
        ensures currents { self.new.currents ≡ self.old.currents }
    {
        if let Some(Some(place)) = self.seats.get_mut(script as usize) {
            place.queue.push(step, by)?;
            self.accepted = self
                .accepted
                .saturating_add(length as u64)
                .saturating_add(1);
        }
        Ok(())
    }

    /// A place gets no more lines.
    pub fn end(&mut self, script: usize)
        ensures narrows { Narrows self.old.grows.items self.new.grows.items }
        ensures deadlines { self.new.deadlines ≡ self.old.deadlines }
        ensures currents { self.new.currents ≡ self.old.currents }
    {
        if let Some(Some(place)) = self.seats.get_mut(script) {
            place.ended = true;
        }
        self.lower(script);
    }

    /// No place gets more lines.
    pub fn end_all(&mut self)
        ensures narrows { Narrows self.old.grows.items self.new.grows.items }
        ensures deadlines { self.new.deadlines ≡ self.old.deadlines }
        ensures currents { self.new.currents ≡ self.old.currents }
    {
        for script in 0..self.seats.len() {
            self.end(script);
        }
    }

    // A script without steps that could begin grows no more.
    #[tactic(auto, using(crate::proofs::PlaceLists::lowered))]
    fn lower(&mut self, script: usize)
        ensures narrows { Narrows self.old.grows.items self.new.grows.items }
        ensures deadlines { self.new.deadlines ≡ self.old.deadlines }
        ensures currents { self.new.currents ≡ self.old.currents }
    {
        if self.can_grow(script) {
            return;
        }
        if let Some(grows) = self.grows.get_mut(script) {
            *grows = false;
        }
    }

    fn can_grow(&self, script: usize) -> bool {
        match self.seats.get(script) {
            Some(Some(place)) => place.can_grow(),
            _ => false,
        }
    }

    /// How many steps of a place have not begun.
    pub fn count(&self, script: usize) -> usize {
        match self.seats.get(script) {
            Some(Some(place)) => place.queue.len(),
            _ => 0,
        }
    }

    /// Takes the step of a place that begins.
    pub fn take_next(&mut self, script: usize) -> Option<(Step, Option<u64>)>
        ensures step { IfSome result (λ taken. is_step taken.0 ≡ true) }
        ensures grows { self.new.grows ≡ self.old.grows }
        ensures deadlines { self.new.deadlines ≡ self.old.deadlines }
        ensures currents { self.new.currents ≡ self.old.currents }
    {
        match self.seats.get_mut(script) {
            Some(Some(place)) => place.queue.pop(),
            _ => None,
        }
    }

    /// A step of a place has begun.
    pub fn begin(&mut self, script: usize, current: Current)
        ensures narrows { Narrows self.old.grows.items self.new.grows.items }
        ensures deadlines { self.new.deadlines ≡ self.old.deadlines }
        ensures currents { self.new.currents.items ≡ slice_set self.old.currents.items script (Some current) }
    {
        set(&mut self.currents, script, Some(current));
        self.lower(script);
    }

    /// `until` replaces the current step of a place, for this reason.
    pub fn replace(&mut self, script: usize, word: StepWord)
        ensures grows { self.new.grows ≡ self.old.grows }
        ensures deadlines { self.new.deadlines ≡ self.old.deadlines }
        ensures currents { ChangesAt self.old.currents.items self.new.currents.items script IsReplaced }
    {
        replace(&mut self.currents, script, word);
    }

    /// The current step of a place is removed.
    pub fn remove(&mut self, script: usize)
        ensures grows { self.new.grows ≡ self.old.grows }
        ensures deadlines { self.new.deadlines ≡ self.old.deadlines }
        ensures currents { self.new.currents.items ≡ slice_set self.old.currents.items script None }
    {
        set(&mut self.currents, script, None);
    }

    /// The place whose deadline comes first, if it comes by this moment in ms.
    pub fn first_due(&self, moment: u64) -> Option<usize> {
        let mut first = None;
        let mut least = moment;
        for (script, current) in self.currents.iter().enumerate() {
            if let Some(last) = due_of(current) {
                if last < least || (last == least && first.is_none()) {
                    first = Some(script);
                    least = last;
                }
            }
        }
        first
    }

    /// The moment in ms that the clock does not pass before the last step of a script has an entry, if there is one.
    pub fn deadline(&self, script: usize) -> Option<u64>
        ensures { (last : ℕ) → result ≡ Some last → slice_get self.now.deadlines.items script ≡ Some (Some last) }
    {
        match self.deadlines.get(script) {
            Some(deadline) => *deadline,
            None => None,
        }
    }

    /// The clock does not pass this moment in ms before the last step of a script has an entry, if there is one.
    pub fn set_deadline(&mut self, script: usize, deadline: Option<u64>)
        ensures deadlines { self.new.deadlines.items ≡ slice_set self.old.deadlines.items script deadline }
        ensures grows { self.new.grows ≡ self.old.grows }
        ensures currents { self.new.currents ≡ self.old.currents }
    {
        if let Some(place) = self.deadlines.get_mut(script) {
            *place = deadline;
        }
    }
}

/// The number of a place as lines have it. A world has at most 32 scripts.
pub fn place_number(script: usize) -> u32
    ensures { script ≤ 4294967295 → result ≡ script }
{
    u32::try_from(script).unwrap_or(u32::MAX)
}

/// For each script of a world whether it is a place: it has no steps.
pub fn places_of(alloc: Global, world: &World) -> Result<Vec<bool>, AllocError>
    ensures { IfOk result (λ grows. ArePlaces world.now grows.items) }
{
    let mut places = Vec::new(alloc);
    for script in world.scripts.as_slice() {
        places.push(script.steps.len() == 0)?;
    }
    Ok(places)
}

// No deadline for each of this number of scripts.
fn no_deadlines(alloc: Global, count: usize) -> Result<Vec<Option<u64>>, AllocError>
    ensures { IfOk result (λ deadlines. AreNone deadlines.items) }
{
    let mut deadlines = Vec::new(alloc);
    for _ in 0..count {
        deadlines.push(None)?;
    }
    Ok(deadlines)
}

// The places that these scripts are.
fn seats_of(alloc: Global, places: &[bool]) -> Result<Vec<Option<Place>>, AllocError> {
    let mut seats = Vec::new(alloc);
    for is_place in places {
        seats.push(seat(alloc, *is_place))?;
    }
    Ok(seats)
}

fn seat(alloc: Global, is_place: bool) -> Option<Place> {
    if is_place {
        Some(Place::new(alloc))
    } else {
        None
    }
}

fn due_of(current: &Option<Current>) -> Option<u64> {
    match current {
        Some(current) => current.due(),
        None => None,
    }
}

fn set(currents: &mut Vec<Option<Current>>, script: usize, current: Option<Current>)
    ensures { currents.new.items ≡ slice_set currents.old.items script current }
{
    if let Some(place) = currents.get_mut(script) {
        *place = current;
    }
}
