//! Which callers play in one group: those whose frames may reach one another. Nothing is proved of a deal but that there are
//! groups, since each deal gives a legal history.
ghost use Rattle.std.specs.Prelude.{◌<◌, ◌≤◌, IfOk};

use net_base::{Iface, World};
use std::alloc::{AllocError, Global};
use std::thread;
use std::thread::Threads;

/// The least number of groups where more workers than one are asked for, so that none of two scripts has to wait for the other.
const FEW_GROUPS: usize = 2;

/// How many groups there are, and a number for each caller by which it joins one of them, or none.
#[derive(Drop)]
pub(crate) struct Deal {
    pub(crate) groups: usize,
    pub(crate) numbers: Vec<usize>,
}

// A group for each part of the world whose frames don't reach another, as far as there are workers and processors for them. Who
// waits for another's frame then finds it in its own group. The callers of a world of one part are dealt one by one.
pub(crate) fn deal_of<R: Threads>(
    rt: &R,
    alloc: Global,
    world: &World,
    workers: u32,
) -> Result<Deal, AllocError>
    requires some { 0 < workers }
    ensures some { IfOk result (λ deal. 0 < deal.groups) }
    ensures few { IfOk result (λ deal. deal.groups ≤ workers) }
{
    let media = parts_of(alloc, world)?;
    let mut parts = Vec::new(alloc);
    let mut numbers = Vec::new(alloc);
    add_scripts(world, &media, &mut parts, &mut numbers)?;
    if parts.len() < FEW_GROUPS {
        numbers = Vec::new(alloc);
    } else {
        add_couriers(&media, &parts, &mut numbers)?;
    }
    Ok(Deal {
        groups: group_count(rt, workers, parts.len()),
        numbers,
    })
}

// So many groups for so many parts.
fn group_count<R: Threads>(rt: &R, workers: u32, parts: usize) -> usize
    requires some { 0 < workers }
    ensures some { 0 < result }
    ensures few { result ≤ workers }
{
    let wanted = (workers as usize).min(parts.max(FEW_GROUPS));
    if wanted <= FEW_GROUPS {
        return wanted;
    }
    wanted.min(processors(rt).max(FEW_GROUPS))
}

// How many threads can run at once, as far as that is known.
fn processors<R: Threads>(rt: &R) -> usize {
    match thread::available_parallelism(rt) {
        Ok(processors) => processors.get(),
        Err(_) => usize::MAX,
    }
}

// The part of each medium: the least medium that its frames may reach.
fn parts_of(alloc: Global, world: &World) -> Result<Vec<usize>, AllocError> {
    let mut media = Vec::with_capacity(alloc, world.media.len())?;
    for medium in 0..world.media.len() {
        media.push(medium)?;
    }
    for _ in 0..world.media.len() {
        join_hosts(world, media.as_mut_slice());
    }
    Ok(media)
}

// What reaches one medium of a host reaches all of them.
fn join_hosts(world: &World, media: &mut [usize]) {
    for host in world.hosts.as_slice() {
        join(host.ifaces.as_slice(), media);
    }
}

fn join(ifaces: &[Iface], media: &mut [usize]) {
    let part = part_at(ifaces, media);
    for iface in ifaces {
        if let Some(medium) = media.get_mut(iface.medium as usize) {
            *medium = part;
        }
    }
}

// The least part of these interfaces' media.
fn part_at(ifaces: &[Iface], media: &[usize]) -> usize {
    let mut least = usize::MAX;
    for iface in ifaces {
        if let Some(part) = media.get(iface.medium as usize) {
            least = least.min(*part);
        }
    }
    least
}

// A number for each script: that of its host's part, in the order in which scripts are in them.
fn add_scripts(
    world: &World,
    media: &[usize],
    parts: &mut Vec<usize>,
    numbers: &mut Vec<usize>,
) -> Result<(), AllocError> {
    for script in world.scripts.as_slice() {
        let part = match world.hosts.as_slice().get(script.host as usize) {
            Some(host) => part_at(host.ifaces.as_slice(), media),
            None => usize::MAX,
        };
        let number = number_of(parts.as_slice(), part);
        if number == parts.len() {
            parts.push(part)?;
        }
        numbers.push(number)?;
    }
    Ok(())
}

// And for each courier that of its medium's part.
fn add_couriers(
    media: &[usize],
    parts: &[usize],
    numbers: &mut Vec<usize>,
) -> Result<(), AllocError> {
    for part in media {
        numbers.push(number_of(parts, *part))?;
    }
    Ok(())
}

// The place of a part among these, or the next one.
fn number_of(parts: &[usize], part: usize) -> usize {
    for (number, other) in parts.iter().enumerate() {
        if *other == part {
            return number;
        }
    }
    parts.len()
}
