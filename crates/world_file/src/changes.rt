//! What a line that isn't bad makes of the world so far.
ghost use Rattle.std.specs.Prelude.{◌≡◌, ◌≤◌, length, None, OnOk, is_none, false, true, bit_and};
ghost use Rattle.world_text.specs.declared.line.MediumLine.TheVariants as medium;
ghost use Rattle.world_text.specs.declared.line.WorldLine.TheVariants as line;
ghost use Rattle.world_text.specs.LineFit.{fit_medium_line, is_fit};
ghost use Rattle.world_text.specs.WorldLines as spec;
ghost use Rattle.world_file.specs.Told.{IsSmallDraft};

use crate::causes::range_of;
use crate::draft::{Draft, medium_place};
use crate::host::HostDraft;
use crate::medium::MediumDraft;
use net_base::{FateRange, Iface, Nets, Octets, RouteLine, Script, Sequence, Step};
use std::alloc::{AllocError, Global};
use world_text::{HostLine, MediumLine, WorldLine};

impl Draft {
    /// Goes on behind a line that isn't bad.
    pub(crate) fn take_line(&mut self, alloc: Global, line: WorldLine) -> Result<(), AllocError>
        requires small { IsSmallDraft self.old }
        requires fit { is_fit line ≡ true }
        requires good { spec.line_cause self.old line ≡ None }
        ensures { OnOk result (self.new ≡ spec.after self.old line) }
    {
        match line {
            WorldLine::Networld(timers) => {
                self.group = 1;
                self.timers = timers;
                Ok(())
            }
            WorldLine::End(moment) => {
                self.group = 2;
                self.end = moment;
                Ok(())
            }
            WorldLine::Seed(seed) => {
                self.group = 3;
                self.seed = seed;
                Ok(())
            }
            WorldLine::OfMedium(line) => self.take_medium_line(alloc, line),
            WorldLine::Host { name, nets } => self.take_host(alloc, name, nets),
            WorldLine::OfHost(line) => self.take_host_line(line),
            WorldLine::Script { host } => self.take_script(alloc, host),
            WorldLine::OfScript(step) => self.take_step(step),
            WorldLine::Ndb => Ok(()),
        }
    }

    fn take_medium_line(&mut self, alloc: Global, line: MediumLine) -> Result<(), AllocError>
        requires small { IsSmallDraft self.old }
        requires fit { fit_medium_line line ≡ true }
        requires good { spec.medium_line_cause self.old line ≡ None }
        ensures { OnOk result (self.new ≡ spec.after_medium_line self.old line) }
    {
        match line {
            MediumLine::Medium { name, mtu } => self.take_medium(alloc, name, mtu),
            MediumLine::Rates {
                name,
                loss,
                twice,
                later,
            } => self.take_rates(name, loss, twice, later),
            MediumLine::Fate { name, frames, fate } => {
                self.take_fate(name.as_slice(), range_of(frames, fate))
            }
        }
    }

    fn take_medium(&mut self, alloc: Global, name: Octets, mtu: u32) -> Result<(), AllocError>
        requires { length self.old.media ≤ 4 }
        ensures { OnOk result (self.new ≡ spec.after_medium_line self.old (medium.Medium name mtu)) }
    {
        let number = self.media.len() as u32;
        self.media.push(MediumDraft::new(alloc, number, name, mtu))?;
        self.group = 4;
        Ok(())
    }

    fn take_rates(
        &mut self,
        name: Octets,
        loss: u32,
        twice: u32,
        later: u32,
    ) -> Result<(), AllocError>
        requires { IsSmallDraft self.old }
        ensures { OnOk result (self.new ≡ spec.after_medium_line self.old (medium.Rates name loss twice later)) }
    {
        self.set_rates(name.as_slice(), loss, twice, later);
        self.rated.push(name)?;
        Ok(())
    }

    /// Sets the rates of the medium with this name.
    fn set_rates(&mut self, name: &[u8], loss: u32, twice: u32, later: u32)
        requires { IsSmallDraft self.old }
        ensures { self.new ≡ record self.old {
          media = spec.on_named_medium name.now
              (spec.with_rates loss twice later) self.old.media;
        } }
    {
        let place = medium_place(self.media.as_slice(), name);
        if place < self.media.len() {
            let medium = &mut self.media[place];
            medium.set_rates(loss, twice, later);
        }
    }

    /// Adds a fate to the medium with this name.
    fn take_fate(&mut self, name: &[u8], fate: FateRange) -> Result<(), AllocError>
        requires small { IsSmallDraft self.old }
        requires forward { fate.first ≤ fate.last }
        requires apart { spec.has_fate name.now fate self.old ≡ false }
        ensures { OnOk result (self.new ≡ record self.old
            { media = spec.on_named_medium name.now (spec.with_fate fate) self.old.media }) }
    {
        let place = medium_place(self.media.as_slice(), name);
        if place < self.media.len() {
            let medium = &mut self.media[place];
            medium.add_fate(fate)?;
            return Ok(());
        }
        Ok(())
    }

    fn take_host(&mut self, alloc: Global, name: Octets, nets: Nets) -> Result<(), AllocError>
        ensures { OnOk result (self.new ≡ spec.after self.old (line.Host name nets)) }
    {
        self.hosts.push(HostDraft::new(alloc, name, nets))?;
        self.group = 5;
        Ok(())
    }

    fn take_host_line(&mut self, line: HostLine) -> Result<(), AllocError>
        requires small { IsSmallDraft self.old }
        requires good { spec.host_line_cause self.old line ≡ None }
        ensures { OnOk result (self.new ≡ spec.after_host_line self.old line) }
    {
        match line {
            HostLine::If { medium, ip, mask } => {
                let medium = self.medium_number(medium.as_slice());
                self.take_iface(Iface { medium, ip, mask })
            }
            HostLine::Route(route) => self.take_route(route),
            HostLine::Start(start) => self.take_start(start),
        }
    }

    /// Adds an interface to the last host.
    fn take_iface(&mut self, iface: Iface) -> Result<(), AllocError>
        requires new { spec.is_under (spec.knows_network (bit_and iface.ip iface.mask) iface.mask) self.old ≡ false }
        requires under { is_none (spec.host_under self.old) ≡ false }
        ensures { OnOk result (self.new ≡ record self.old
            { hosts = spec.at_last (spec.with_iface iface) self.old.hosts }) }
    {
        let count = self.hosts.len();
        if 0 < count {
            let host = &mut self.hosts[count - 1];
            host.add_iface(iface)?;
        }
        Ok(())
    }

    /// Adds a route to the last host.
    fn take_route(&mut self, route: RouteLine) -> Result<(), AllocError>
        requires new { spec.is_under (spec.knows_network route.net route.mask) self.old ≡ false }
        requires under { is_none (spec.host_under self.old) ≡ false }
        ensures { OnOk result (self.new ≡ record self.old
            { hosts = spec.at_last (spec.with_route route) self.old.hosts }) }
    {
        let count = self.hosts.len();
        if 0 < count {
            let host = &mut self.hosts[count - 1];
            host.add_route(route)?;
        }
        Ok(())
    }

    /// Adds an initial id to the last host.
    fn take_start(&mut self, start: u32) -> Result<(), AllocError>
        ensures { OnOk result (self.new ≡ record self.old
            { hosts = spec.at_last (spec.with_start start) self.old.hosts }) }
    {
        let count = self.hosts.len();
        if 0 < count {
            let host = &mut self.hosts[count - 1];
            host.add_start(start)?;
        }
        Ok(())
    }

    fn take_script(&mut self, alloc: Global, host: Octets) -> Result<(), AllocError>
        requires { length self.old.hosts ≤ 8 }
        ensures { OnOk result (self.new ≡ spec.after self.old (line.Script host)) }
    {
        let host = self.host_number(host.as_slice());
        self.scripts.push(Script {
            host,
            steps: Sequence::new(alloc),
        })?;
        self.group = 6;
        Ok(())
    }

    /// Adds a step to the last script.
    fn take_step(&mut self, step: Step) -> Result<(), AllocError>
        ensures { OnOk result (self.new ≡ spec.after self.old (line.OfScript step)) }
    {
        let count = self.scripts.len();
        if 0 < count {
            let script = &mut self.scripts[count - 1];
            script.steps.push(step)?;
        }
        Ok(())
    }
}
