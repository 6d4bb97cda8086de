//! A host as its lines have made it.
ghost use Rattle.std.specs.Prelude.{◌≡◌, false, OnOk, bit_and};
ghost use Rattle.net_base.specs.Routes.{has_ip};
ghost use Rattle.world_text.specs.WorldLines as spec;

use indexmap::IndexSet;
use net_base::{HostSpec, Iface, Nets, Octets, RouteLine, Sequence};
use std::alloc::{AllocError, Global};
use std::marker::Model;

/// A host so far.
#[derive(Drop)]
pub(crate) struct HostDraft {
    name: Octets,
    nets: Nets,
    ifaces: Vec<Iface>,
    routes: Vec<RouteLine>,
    starts: Vec<u32>,
    /// The networks of the interfaces and those that routes lead to, as nets with their masks.
    networks: IndexSet<(u32, u32)>,
}

impl Model for HostDraft {
    ghost use Rattle.net_base.specs.declared.world.HostSpec.{HostSpec};
    ghost use Rattle.world_file.specs.Indexed.{AreNetworks};

    ghost Value = { HostSpec };

    ghost view = { λ h. record {
      name = h.name;
      nets = h.nets;
      ifaces = h.ifaces.items;
      routes = h.routes.items;
      starts = h.starts.items;
    } };

    ghost invariant = { λ h. AreNetworks h.networks.keys (record {
      name = h.name;
      nets = h.nets;
      ifaces = h.ifaces.items;
      routes = h.routes.items;
      starts = h.starts.items;
    }) };
}

impl HostDraft {
    /// A host without interfaces, routes and starts.
    pub(crate) fn new(alloc: Global, name: Octets, nets: Nets) -> HostDraft
        ensures { result ≡ spec.bare_host name nets }
    {
        HostDraft {
            name,
            nets,
            ifaces: Vec::new(alloc),
            routes: Vec::new(alloc),
            starts: Vec::new(alloc),
            networks: IndexSet::new(alloc),
        }
    }

    pub(crate) fn is_named(&self, name: &[u8]) -> bool
        ensures { result ≡ spec.is_host_named name.now self.now }
    {
        name == self.name.as_slice()
    }

    pub(crate) fn has_ip(&self, ip: u32) -> bool
        ensures { result ≡ has_ip ip self.now }
    {
        self.ifaces.iter().any(|iface| iface.ip == ip)
    }

    pub(crate) fn has_iface_on(&self, medium: u32) -> bool
        ensures { result ≡ spec.has_iface_on medium self.now }
    {
        self.ifaces.iter().any(|iface| iface.medium == medium)
    }

    /// Whether an address is on the network of an interface.
    pub(crate) fn reaches(&self, ip: u32) -> bool
        ensures { result ≡ spec.reaches ip self.now }
    {
        self.ifaces
            .iter()
            .any(|iface| ip & iface.mask == iface.ip & iface.mask)
    }

    /// Whether the network is an interface's, or a route leads to it.
    pub(crate) fn knows_network(&self, net: u32, mask: u32) -> bool
        ensures { result ≡ spec.knows_network net mask self.now }
    {
        self.networks.contains(&(net, mask))
    }

    /// Adds an interface with a network of its own.
    pub(crate) fn add_iface(&mut self, iface: Iface) -> Result<(), AllocError>
        requires { spec.knows_network (bit_and iface.ip iface.mask) iface.mask self.old ≡ false }
        ensures { OnOk result (self.new ≡ spec.with_iface iface self.old) }
    {
        self.ifaces.reserve(1)?;
        self.networks.insert((iface.ip & iface.mask, iface.mask))?;
        self.ifaces.push(iface)?;
        Ok(())
    }

    /// Adds a route to a network that isn't known yet.
    pub(crate) fn add_route(&mut self, route: RouteLine) -> Result<(), AllocError>
        requires { spec.knows_network route.net route.mask self.old ≡ false }
        ensures { OnOk result (self.new ≡ spec.with_route route self.old) }
    {
        self.routes.reserve(1)?;
        self.networks.insert((route.net, route.mask))?;
        self.routes.push(route)?;
        Ok(())
    }

    /// Adds an initial id.
    pub(crate) fn add_start(&mut self, start: u32) -> Result<(), AllocError>
        ensures { OnOk result (self.new ≡ spec.with_start start self.old) }
    {
        self.starts.push(start)?;
        Ok(())
    }

    /// The host. It takes no memory.
    pub(crate) fn finish(self) -> HostSpec
        ensures { result ≡ self }
    {
        let HostDraft {
            name,
            nets,
            ifaces,
            routes,
            starts,
            ..
        } = self;
        HostSpec {
            name,
            nets,
            ifaces: Sequence::from_vec(ifaces),
            routes: Sequence::from_vec(routes),
            starts: Sequence::from_vec(starts),
        }
    }
}
