//! Routes, and the search for the one that an address takes.
ghost use Rattle.std.specs.Prelude.{◌≡◌, ◌+◌, ◌<◌, ◌^◌, ◌++◌, ◌∷◌, [], length, IfOk, IfSome, OnOk, OnErr};
ghost use Rattle.std.specs.List.{position_from};
ghost use Rattle.std.specs.Option.{option_map};
ghost use Rattle.net_base.specs.Routes as spec;
ghost use Rattle.net_base.specs.World.{same_network};
ghost use Rattle.ip_route.specs.Adding.{AnswersAdding, better, is_route_network, refused_route, route_by};
ghost use Rattle.ip_route.specs.Hops.{hop_from};

use crate::error::RouteError;
use crate::mask::is_mask;
use net_base::{HostSpec, Iface, RouteLine};
use std::alloc::{AllocError, Global};
use std::marker::Model;

/// Where a packet goes next: out by the interface of this number, to this address, or to its own where there is none.
#[derive(Clone, Copy, Debug, PartialEq, Eq)]
pub struct Hop {
    pub iface: u32,
    pub next: Option<u32>,
}

/// A route to a network.
#[derive(Clone, Copy)]
pub struct Route {
    net: u32,
    mask: u32,
    iface: u32,
    next: Option<u32>,
}

impl Model for Route {
    ghost use Rattle.net_base.specs.Routes.{Route as AnyRoute};

    ghost Value = { AnyRoute };

    ghost view = { λ r. record { net = r.net; mask = r.mask; iface = r.iface; next = r.next } };

    ghost inverse = { λ r. record { net = r.net; mask = r.mask; iface = r.iface; next = r.next } };
}

impl Route {
    /// Whether the route's network contains the address.
    fn matches(self, ip: u32) -> bool
        ensures { result ≡ spec.route_contains ip self }
    {
        ip & self.mask == self.net
    }

    /// Whether the route is to this network.
    fn is_to(self, net: u32, mask: u32) -> bool
        ensures { result ≡ same_network (route_by net mask (record { iface = 0; next = None })) self }
    {
        net == self.net && mask == self.mask
    }

    /// The hop of a packet to the address.
    fn hop(self, ip: u32) -> Hop
        ensures { result ≡ hop_from ip self }
    {
        Hop {
            iface: self.iface,
            next: Some(self.next.unwrap_or(ip)),
        }
    }
}

/// The one of two routes with the longer mask, or the first.
fn better(best: Option<Route>, route: Route) -> Option<Route>
    ensures { result ≡ better best (Some route) }
{
    match best {
        Some(first) if first.mask >= route.mask => Some(first),
        _ => Some(route),
    }
}

/// The route with the longest mask that matches, the first of those.
#[tactic(auto, using(crate::proofs::Longest::next_matches, crate::proofs::Longest::next_not))]
fn longest_match(routes: &[Route], ip: u32) -> Option<Route>
    ensures { result ≡ spec.longest_match ip routes.now }
{
    let mut best = None;
    for route in routes {
        if route.matches(ip) {
            best = better(best, *route);
        }
    }
    best
}

/// Whether the ones of the mask are its first bits, and the net has no bits outside it.
fn is_network(net: u32, mask: u32) -> bool
    ensures { result ≡ is_route_network net mask }
{
    is_mask(mask) && net & mask == net
}

/// Where the first route to this network stands.
fn place_of(routes: &[Route], net: u32, mask: u32) -> Option<usize>
    ensures within { IfSome result (λ n. n < length routes.now) }
    ensures value { result ≡ position_from (same_network (route_by net mask
        (record { iface = 0; next = None }))) 0 routes.now }
{
    routes.iter().position(|route| route.is_to(net, mask))
}

/// The networks of interfaces. More interfaces than numbers of them count as want of memory.
fn networks_of(alloc: Global, ifaces: &[Iface]) -> Result<Vec<Route>, AllocError>
    ensures { IfOk result (λ routes. routes.items ≡ spec.iface_routes 0 ifaces.now) }
{
    let mut routes = Vec::new(alloc);
    for (n, iface) in ifaces.iter().enumerate() {
        let Ok(number) = u32::try_from(n) else {
            return Err(AllocError);
        };
        routes.push(Route {
            net: iface.ip & iface.mask,
            mask: iface.mask,
            iface: number,
            next: None,
        })?;
    }
    Ok(routes)
}

/// The route of a line, by the interface whose network has the longest mask that matches its gateway.
fn line_route(networks: &[Route], line: &RouteLine) -> Option<Route>
    ensures { result ≡ spec.line_route networks.now line.now }
{
    let network = longest_match(networks, line.gateway)?;
    Some(Route {
        net: line.net,
        mask: line.mask,
        iface: network.iface,
        next: Some(line.gateway),
    })
}

/// The routes of a host, in order. More than numbers of them count as want of memory. Clauses see the list.
#[derive(Drop)]
pub struct Routes {
    routes: Vec<Route>,
}

impl Model for Routes {
    ghost use Rattle.std.specs.Prelude.{◌<◌, ◌^◌, List, length};
    ghost use Rattle.net_base.specs.Routes.{Route as AnyRoute};

    ghost Value = { List AnyRoute };

    ghost view = { λ r. r.routes.items };

    ghost invariant = { λ r. length r.routes.items < 2 ^ 32 };
}

impl Routes {
    /// No routes, which take no memory yet.
    pub fn new(alloc: Global) -> Routes
        ensures { result ≡ [] }
    {
        Routes {
            routes: Vec::new(alloc),
        }
    }

    /// All routes of a host: its interfaces' networks, and then its route lines.
    pub fn of_host(alloc: Global, host: &HostSpec) -> Result<Routes, AllocError>
        ensures { IfOk result (λ r. r ≡ spec.host_routes host.now) }
    {
        let networks = networks_of(alloc, host.ifaces.as_slice())?;
        let mut routes = networks_of(alloc, host.ifaces.as_slice())?;
        for line in host.routes.as_slice() {
            if let Some(route) = line_route(&networks, line) {
                routes.push(route)?;
            }
        }
        if u32::try_from(routes.len()).is_err() {
            return Err(AllocError);
        }
        Ok(Routes { routes })
    }

    /// Adds a route to a network, unless the network is none or has a route already.
    #[tactic(auto, using(crate::proofs::Refusals::twice, crate::proofs::Refusals::none))]
    pub fn add(&mut self, net: u32, mask: u32, hop: Hop) -> Result<(), RouteError>
        ensures refused { AnswersAdding (refused_route (route_by net mask hop) self.old) result }
        ensures ok { OnOk result (self.new ≡ self.old ++ route_by net mask hop ∷ []) }
        ensures err { OnErr result (self.new ≡ self.old) }
    {
        if !is_network(net, mask) {
            return Err(RouteError::BadMask);
        }
        if let Some(place) = place_of(&self.routes, net, mask) {
            return Err(RouteError::Twice(place as u32));
        }
        let added = self.push(Route {
            net,
            mask,
            iface: hop.iface,
            next: hop.next,
        });
        match added {
            Ok(()) => Ok(()),
            Err(_) => Err(RouteError::Memory),
        }
    }

    /// Adds a route.
    fn push(&mut self, route: Route) -> Result<(), AllocError>
        ensures ok { OnOk result (self.new ≡ self.old ++ route ∷ []) }
        ensures err { OnErr result (self.new ≡ self.old) }
    {
        if self.routes.len() + 1 > u32::MAX as usize {
            return Err(AllocError);
        }
        self.routes.push(route)?;
        Ok(())
    }

    /// Where a packet to the address goes next: by the route with the longest mask that matches.
    pub fn lookup(&self, ip: u32) -> Option<Hop>
        ensures { result ≡ option_map (hop_from ip) (spec.longest_match ip self.now) }
    {
        Some(longest_match(&self.routes, ip)?.hop(ip))
    }
}
