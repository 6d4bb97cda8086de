//! Which route an address takes.
use ip_route::{Hop, RouteError, Routes};
use std::alloc::Global;
use std::test::*;

/// 255.255.255.0
const MASK_24: u32 = 0xffff_ff00;

/// 135.104.9.0
const ETHER: u32 = 0x8768_0900;

/// 135.104.9.1
const GATE: u32 = 0x8768_0901;

/// 135.104.9.31
const HELIX: u32 = 0x8768_091f;

/// 10.0.0.1
const FAR: u32 = 0x0a00_0001;

/// A call at a table of routes.
#[derive(Clone, Copy)]
enum Deed {
    /// A route to a network under a mask by an interface and a gateway, and whether it is refused.
    Add(u32, u32, u32, Option<u32>, Option<RouteError>),
    /// An address, and the interface and address of its next hop.
    LookUp(u32, Option<(u32, u32)>),
}

/// Makes the call. The answer is whether it comes to what it says.
fn is_met(routes: &mut Routes, deed: Deed) -> bool {
    match deed {
        Deed::Add(net, mask, iface, next, refused) => {
            routes.add(net, mask, Hop { iface, next }).err() == refused
        }
        Deed::LookUp(ip, hop) => match (routes.lookup(ip), hop) {
            (Some(found), Some((iface, next))) => {
                (found.iface, found.next) == (iface, Some(next))
            }
            (None, None) => true,
            _ => false,
        },
    }
}

/// The first call that comes to something else.
fn first_wrong(routes: &mut Routes, deeds: &[Deed]) -> Option<usize> {
    for (i, deed) in deeds.iter().enumerate() {
        if !is_met(routes, *deed) {
            return Some(i);
        }
    }
    None
}

/// By a gateway to all networks, and then by interface 0 to its own.
const BY_GATE: &[Deed] = &[
    Deed::LookUp(HELIX, None),
    Deed::Add(0, 0, 0, Some(GATE), None),
    Deed::Add(ETHER, MASK_24, 0, None, None),
    // its own network, and by the gateway
    Deed::LookUp(HELIX, Some((0, HELIX))),
    Deed::LookUp(FAR, Some((0, GATE))),
];

const REFUSED: &[Deed] = &[
    Deed::Add(ETHER, MASK_24, 1, Some(GATE), Some(RouteError::Twice(1))),
    // 255.0.255.0, bits outside the mask, and a mask with a gap over no network
    Deed::Add(ETHER, 0xff00_ff00, 0, None, Some(RouteError::BadMask)),
    Deed::Add(HELIX, MASK_24, 0, None, Some(RouteError::BadMask)),
    Deed::Add(0, 0xff00_ff00, 0, None, Some(RouteError::BadMask)),
    // nothing was added
    Deed::LookUp(HELIX, Some((0, HELIX))),
];

const HOST_ROUTE: &[Deed] = &[
    Deed::Add(HELIX, 0xffff_ffff, 1, Some(GATE), None),
    Deed::LookUp(HELIX, Some((1, GATE))),
    Deed::LookUp(0x8768_0920, Some((0, 0x8768_0920))),
];

/// The first wrong call of `BY_GATE` at a fresh table, and then of these.
fn wrong_after_gate(alloc: Global, deeds: &[Deed]) -> (Option<usize>, Option<usize>) {
    let mut routes = Routes::new(alloc);
    let gate = first_wrong(&mut routes, BY_GATE);
    (gate, first_wrong(&mut routes, deeds))
}

#[test]
fn the_longest_mask_is_taken(rt: HostRuntime) {
    assert!(rt; wrong_after_gate(rt.alloc(), &[]) == (None, None));
}

#[test]
fn a_host_route_is_longer_than_its_network(rt: HostRuntime) {
    assert!(rt; wrong_after_gate(rt.alloc(), HOST_ROUTE) == (None, None));
}

#[test]
fn routes_are_refused(rt: HostRuntime) {
    assert!(rt; wrong_after_gate(rt.alloc(), REFUSED) == (None, None));
}
