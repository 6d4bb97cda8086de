//! The timer of an IL end.
ghost use Rattle.std.specs.Prelude.{◌≡◌, ◌^◌, ◌<◌, ◌≤◌};
ghost use Rattle.net_base.specs.Timer as spec;

use net_base::{Probe, Tick, Timers};
use std::marker::Model;

/// How long an end first waits for an answer where no round trip was measured, in milliseconds.
const FIRST_WAIT: u64 = 500;

/// The least time that an end first waits where round trips were measured.
const SHORTEST_WAIT: u64 = 100;

/// The longest time that an end waits before it asks once more.
const LONGEST_WAIT: u64 = 8000;

/// How long the other end may be silent.
const LONGEST_SILENCE: u64 = 30000;

/// The longest round trip that counts.
const LONGEST_TRIP: u64 = 1_000_000_000;

/// The timer of an end: when it asks once more, how long it waited for that, when the other end was last heard,
/// and, where timers are measured, what is known of round trips. Moments and times are in ms.
#[derive(Debug, Drop)]
pub struct Timer {
    pub due: Option<u64>,
    pub interval: u64,
    pub heard: u64,
    pub timers: Timers,
    pub measured: bool,
    pub mean: u64,
    pub dev: u64,
    pub probe: Option<Probe>,
}

impl Model for Timer {
    ghost use Rattle.std.specs.Prelude.{◌^◌, ◌<◌, ◌≤◌};
    ghost use Rattle.net_base.specs.Timer.{Timer as TimerOf};

    ghost Value = { TimerOf };

    ghost view = { λ t. record {
      due = t.due;
      interval = t.interval;
      heard = t.heard;
      timers = t.timers;
      measured = t.measured;
      mean = t.mean;
      dev = t.dev;
      probe = t.probe;
    } };

    ghost invariant = { λ t. (t.interval ≤ 8000) × (t.heard < 2 ^ 63) × (t.mean < 2 ^ 60) × (t.dev < 2 ^ 60) };
}

impl Timer {
    /// The timer of an end that waits for nothing yet.
    pub fn idle(timers: Timers) -> Timer
        ensures { result ≡ spec.idle_timer timers }
    {
        Timer {
            due: None,
            interval: 0,
            heard: 0,
            timers,
            measured: false,
            mean: 0,
            dev: 0,
            probe: None,
        }
    }

    /// A copy of the timer.
    pub fn copied(&self) -> Timer
        ensures { result ≡ self.now }
    {
        Timer {
            due: self.due,
            interval: self.interval,
            heard: self.heard,
            timers: self.timers,
            measured: self.measured,
            mean: self.mean,
            dev: self.dev,
            probe: self.probe,
        }
    }

    /// How long the end first waits.
    fn base(&self) -> u64
        ensures value { result ≡ spec.base self.now }
        ensures least { 100 ≤ result }
        ensures most { result ≤ 8000 }
    {
        match self.timers {
            Timers::Measured if self.measured => {
                LONGEST_WAIT.min(SHORTEST_WAIT.max(self.mean + 4 * self.dev))
            }
            _ => FIRST_WAIT,
        }
    }

    /// The message k was sent for the first time: it is the probe, where timers are measured and there is none.
    pub fn sent(&mut self, now: u64, k: u64)
        requires { now < 2 ^ 63 }
        ensures { self.new ≡ spec.timer_sends now k self.old }
    {
        match (self.timers, self.probe) {
            (Timers::Measured, None) => self.probe = Some(Probe { k, at: now }),
            _ => {}
        }
    }

    /// The messages up to k were acknowledged: where the probe is one of them, its round trip is measured.
    pub fn acked(&mut self, now: u64, k: u64)
        requires { now < 2 ^ 63 }
        ensures { self.new ≡ spec.timer_acks now k self.old }
    {
        match self.probe {
            Some(probe) if probe.k <= k => self.measure(round_trip(now, probe.at)),
            _ => {}
        }
    }

    /// A round trip was measured.
    fn measure(&mut self, trip: u64)
        requires { trip ≤ 1000000000 }
        ensures { self.new ≡ spec.measures trip self.old }
    {
        self.probe = None;
        if self.measured {
            self.dev = (3 * self.dev + distance(trip, self.mean)) / 4;
            self.mean = (7 * self.mean + trip) / 8;
        } else {
            self.measured = true;
            self.dev = trip / 2;
            self.mean = trip;
        }
    }

    /// The end begins to wait for an answer.
    pub fn start(&mut self, now: u64)
        requires { now < 2 ^ 63 }
        ensures { self.new ≡ spec.timer_starts now self.old }
    {
        let base = self.base();
        self.due = Some(now + base);
        self.interval = base;
        self.heard = now;
    }

    /// A message came.
    pub fn heard(&mut self, now: u64)
        requires { now < 2 ^ 63 }
        ensures { self.new ≡ spec.timer_hears now self.old }
    {
        self.heard = now;
    }

    /// Something was acknowledged, and the end still waits for something or doesn't.
    pub fn moved(&mut self, now: u64, waits: bool)
        requires { now < 2 ^ 63 }
        ensures { self.new ≡ spec.timer_moves now waits self.old }
    {
        let base = self.base();
        self.interval = base;
        self.due = if waits { Some(now + base) } else { None };
    }

    /// Time has passed: says whether the end asks once more, or gives up.
    pub fn tick(&mut self, now: u64) -> Tick
        requires { now < 2 ^ 63 }
        ensures says { result ≡ (spec.timer_ticks now self.old).says }
        ensures timer { self.new ≡ (spec.timer_ticks now self.old).timer }
    {
        match self.due {
            Some(due) if due <= now => {}
            _ => return Tick::NotDue,
        }
        let last = self.heard + LONGEST_SILENCE;
        if last <= now {
            self.due = None;
            return Tick::TimedOut;
        }
        self.interval = LONGEST_WAIT.min(2 * self.interval);
        self.due = Some(last.min(now + self.interval));
        Tick::Again
    }

    /// The end waits for nothing more.
    pub fn stop(&mut self)
        ensures { self.new ≡ spec.stops self.old }
    {
        self.due = None;
    }
}

/// The time since a moment; none where that moment is later.
fn round_trip(now: u64, at: u64) -> u64
    ensures value { result ≡ spec.round_trip now at }
    ensures most { result ≤ 1000000000 }
{
    LONGEST_TRIP.min(now.saturating_sub(at))
}

/// How far two numbers lie apart.
fn distance(m: u64, n: u64) -> u64
    ensures { result ≡ spec.distance m n }
{
    if m < n { n - m } else { m - n }
}
