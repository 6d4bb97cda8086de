//! What a bundle says as a whole: its files, those that are selected, its networks, its systems and their addresses.
use crate::attribute::Attr;
use crate::bundle::{Bundle, Line, Pair, Part, Tuple};
use crate::network::{Networks, network_of};
use indexmap::{IndexMap, IndexSet};
use std::alloc::{AllocError, Global};
use words::read_address;

/// The name of the file before the first line `%file NAME`.
const LOCAL: &[u8] = b"/lib/ndb/local";

/// Which kinds of pairs a tuple or a line has.
#[derive(Clone, Copy)]
pub struct Outline<'a> {
    /// The first value of `sys`.
    pub sys: Option<&'a [u8]>,
    /// A `dom`.
    pub dom: bool,
    /// An `ip`.
    pub ip: bool,
    /// An `ipnet`.
    pub ipnet: bool,
    /// A `port`.
    pub port: bool,
    /// A `database`.
    pub database: bool,
}

impl<'a> Outline<'a> {
    fn none() -> Outline<'a> {
        Outline {
            sys: None,
            dom: false,
            ip: false,
            ipnet: false,
            port: false,
            database: false,
        }
    }

    // With one more pair.
    fn with(self, pair: Pair<'a>) -> Outline<'a> {
        match pair.kind {
            Attr::Sys => Outline {
                sys: self.sys.or(Some(pair.value)),
                ..self
            },
            Attr::Dom => Outline { dom: true, ..self },
            Attr::Ip => Outline { ip: true, ..self },
            Attr::IpNet => Outline {
                ipnet: true,
                ..self
            },
            Attr::Port => Outline { port: true, ..self },
            Attr::Database => Outline {
                database: true,
                ..self
            },
            _ => self,
        }
    }

    // With those of a later line.
    fn joined(self, later: Outline<'a>) -> Outline<'a> {
        Outline {
            sys: self.sys.or(later.sys),
            dom: self.dom || later.dom,
            ip: self.ip || later.ip,
            ipnet: self.ipnet || later.ipnet,
            port: self.port || later.port,
            database: self.database || later.database,
        }
    }

    /// The kinds of pairs on a line.
    pub fn of_line(bundle: &Bundle<'a>, line: Line) -> Outline<'a> {
        let mut outline = Outline::none();
        for place in line.first..line.end {
            let Some(pair) = bundle.pair_at(place) else {
                continue;
            };
            outline = outline.with(pair);
        }
        outline
    }

    /// The kinds of pairs of a tuple.
    pub fn of_tuple(bundle: &Bundle<'a>, tuple: Tuple) -> Outline<'a> {
        let mut outline = Outline::none();
        for line in bundle.lines_of(tuple) {
            outline = outline.joined(Outline::of_line(bundle, *line));
        }
        outline
    }
}

/// The first tuple that has a name, or an address.
#[derive(Clone, Copy)]
pub struct Owner<'a> {
    /// The system of the tuple, or no name.
    pub name: &'a [u8],
    /// The line of the name or address.
    pub line: u64,
    /// The number of the tuple.
    pub tuple: usize,
    /// Whether it has addresses.
    pub has_ip: bool,
}

/// What a bundle says.
#[derive(Drop)]
pub struct Facts<'a> {
    /// The files of the bundle.
    pub files: IndexSet<&'a [u8]>,
    /// The files that the tuple with `database` names.
    pub named: IndexSet<&'a [u8]>,
    /// The networks.
    pub networks: Networks,
    /// The tuple of each system, the first one with addresses if one has them.
    pub systems: IndexMap<&'a [u8], Owner<'a>>,
    /// The tuple of each domain, likewise.
    pub domains: IndexMap<&'a [u8], Owner<'a>>,
    /// The first system with each address.
    pub addresses: IndexMap<u32, Owner<'a>>,
    /// The name servers.
    pub servers: IndexSet<&'a [u8]>,
}

/// What a bundle says.
pub fn facts_of<'a>(alloc: Global, bundle: &Bundle<'a>) -> Result<Facts<'a>, AllocError> {
    let mut facts = Facts {
        files: IndexSet::new(alloc),
        named: IndexSet::new(alloc),
        networks: Networks::new(alloc),
        systems: IndexMap::new(alloc),
        domains: IndexMap::new(alloc),
        addresses: IndexMap::new(alloc),
        servers: IndexSet::new(alloc),
    };
    facts.files.insert(LOCAL)?;
    for (number, part) in bundle.parts.iter().enumerate() {
        match *part {
            Part::File { name, .. } => {
                facts.files.insert(name)?;
            }
            Part::Tuple(tuple) => facts.take(bundle, number, tuple)?,
        }
    }
    Ok(facts)
}

impl<'a> Facts<'a> {
    fn take(&mut self, bundle: &Bundle<'a>, number: usize, tuple: Tuple) -> Result<(), AllocError> {
        let outline = Outline::of_tuple(bundle, tuple);
        if outline.ipnet {
            self.add_network(bundle, tuple)?;
        }
        // the first tuple with `database` in the first file selects the files
        let selects = outline.database && self.files.len() == 1 && self.named.is_empty();
        for line in bundle.lines_of(tuple) {
            let owner = Owner {
                name: outline.sys.unwrap_or(&[]),
                line: line.number,
                tuple: number,
                has_ip: outline.ip,
            };
            self.take_line(bundle, *line, outline, owner, selects)?;
        }
        Ok(())
    }

    fn take_line(
        &mut self,
        bundle: &Bundle<'a>,
        line: Line,
        outline: Outline<'a>,
        owner: Owner<'a>,
        selects: bool,
    ) -> Result<(), AllocError> {
        for place in line.first..line.end {
            let Some(pair) = bundle.pair_at(place) else {
                continue;
            };
            if pair.kind != Attr::File || selects {
                self.take_pair(outline, pair, owner)?;
            }
        }
        Ok(())
    }

    fn add_network(&mut self, bundle: &Bundle<'a>, tuple: Tuple) -> Result<(), AllocError> {
        match network_of(bundle, tuple) {
            Some(network) => self.networks.add(network),
            None => Ok(()),
        }
    }

    fn take_pair(
        &mut self,
        outline: Outline<'a>,
        pair: Pair<'a>,
        owner: Owner<'a>,
    ) -> Result<(), AllocError> {
        match pair.kind {
            Attr::Sys => add_owner(&mut self.systems, pair.value, owner),
            Attr::Dom => add_owner(&mut self.domains, pair.value, owner),
            Attr::Ip if outline.sys.is_some() && !outline.ipnet => {
                self.add_address(pair.value, owner)
            }
            Attr::NameServer => add_name(&mut self.servers, pair.value),
            Attr::File => add_name(&mut self.named, pair.value),
            _ => Ok(()),
        }
    }

    fn add_address(&mut self, text: &[u8], owner: Owner<'a>) -> Result<(), AllocError> {
        let Some(ip) = read_address(text) else {
            return Ok(());
        };
        if self.addresses.contains_key(&ip) {
            return Ok(());
        }
        self.addresses.insert(ip, owner)?;
        Ok(())
    }
}

fn add_name<'a>(names: &mut IndexSet<&'a [u8]>, name: &'a [u8]) -> Result<(), AllocError> {
    names.insert(name)?;
    Ok(())
}

// Adds the tuple of a name. A tuple with addresses replaces one without.
fn add_owner<'a>(
    owners: &mut IndexMap<&'a [u8], Owner<'a>>,
    name: &'a [u8],
    owner: Owner<'a>,
) -> Result<(), AllocError> {
    let is_better = match owners.get(&name) {
        Some(earlier) => owner.has_ip && !earlier.has_ip,
        None => true,
    };
    if is_better {
        owners.insert(name, owner)?;
    }
    Ok(())
}
