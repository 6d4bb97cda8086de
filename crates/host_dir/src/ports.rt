//! The ports that were used.
ghost use Rattle.std.specs.Prelude.{◌≡◌, ◌≤◌, ◌<◌, [], false, nat_eq, OnOk};
ghost use Rattle.std.specs.List.{list_any};
ghost use Rattle.net_base.specs.Directory.{with_port};
ghost use Rattle.host_dir.specs.Ports.{AreUsed, drawn};

use indexmap::IndexSet;
use std::alloc::{AllocError, Global};
use std::marker::Model;

/// The least port that is drawn.
const FIRST_DRAWN: u32 = 5000;

/// How many ports there are.
const PORTS: u32 = 1 << 16;

/// The ports that were used, each once, and one before which no port can be drawn.
///
/// Clauses see the ports in order, and how many more have room.
#[derive(Drop)]
pub struct Ports {
    used: IndexSet<u16>,
    next: u32,
}

impl Model for Ports {
    ghost use Rattle.std.specs.Prelude.{◌≤◌};
    ghost use Rattle.indexmap.specs.IndexSet.{spare};
    ghost use Rattle.host_dir.specs.Ports.{AreUsed, UsedPorts};

    ghost Value = { UsedPorts };

    ghost view = { λ p. record { used = p.used.keys; room = spare p.used } };

    ghost invariant = { λ p. (5000 ≤ p.next) × (p.next ≤ 65536) × AreUsed 5000 p.next p.used.keys };
}

/// The least port from here on that isn't used, or the number of ports.
#[tactic(auto, using(crate::proofs::Drawn::one_more, crate::proofs::Drawn::none_yet))]
fn least_unused(used: &IndexSet<u16>, first: u32) -> u32
    requires { first ≤ 65536 }
    ensures from { first ≤ result }
    ensures within { result ≤ 65536 }
    ensures before { AreUsed first result used.now.keys }
    ensures unused { result < 65536 → list_any (nat_eq result) used.now.keys ≡ false }
{
    for port in first..PORTS {
        if !used.contains(&(port as u16)) {
            return port;
        }
    }
    PORTS
}

/// The least port that isn't used, where all before this one are.
#[tactic(auto, using(crate::proofs::Drawn::drawn_is, crate::proofs::Drawn::none_drawn))]
fn port_at(used: &IndexSet<u16>, next: u32) -> Option<u16>
    requires from { 5000 ≤ next }
    requires within { next ≤ 65536 }
    requires before { AreUsed 5000 next used.now.keys }
    requires unused { next < 65536 → list_any (nat_eq next) used.now.keys ≡ false }
    ensures { result ≡ drawn used.now.keys }
{
    if next < PORTS {
        Some(next as u16)
    } else {
        None
    }
}

impl Ports {
    /// No ports yet, which take no memory.
    pub fn new(alloc: Global) -> Ports
        ensures { result.used ≡ [] }
    {
        Ports {
            used: IndexSet::new(alloc),
            next: FIRST_DRAWN,
        }
    }

    /// The least port from 5000 that was never used.
    #[tactic(auto, using(crate::proofs::Drawn::both_runs))]
    pub fn draw(&mut self) -> Option<u16>
        ensures value { result ≡ drawn self.old.used }
        ensures same { self.new ≡ self.old }
    {
        self.next = least_unused(&self.used, self.next);
        port_at(&self.used, self.next)
    }

    /// Makes room for one more port.
    pub fn reserve(&mut self) -> Result<(), AllocError>
        ensures same { self.new.used ≡ self.old.used }
        ensures ok { OnOk result (1 ≤ self.new.room) }
    {
        self.used.reserve(1)
    }

    /// Uses a port. There is room for one more.
    pub fn add(&mut self, port: u16)
        requires { 1 ≤ self.old.room }
        ensures { self.new.used ≡ with_port port self.old.used }
    {
        // there is room for it
        let _ = self.used.insert(port);
    }
}
