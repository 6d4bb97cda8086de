//! The number of an actor, both ways.
ghost use Rattle.std.specs.Prelude.{◌≡◌, ◌<◌, true};
ghost use Rattle.net_base.specs.declared.actor.ActorName.{ActorName as Name};
ghost use Rattle.net_base.specs.declared.world.World.{World};
ghost use Rattle.net_base.specs.Actors.{has_actor};
ghost use Rattle.net_actors.specs.Numbers as spec;

use net_base::{ActorName, Proto};

/// The slots of a host and protocol.
const SLOTS: usize = 32;

fn proto_number(proto: Proto) -> usize
    ensures { result ≡ spec.number_of_proto proto }
{
    match proto {
        Proto::Il => 0,
        Proto::Udp => 1,
    }
}

/// How many actors a world with so many hosts and media has.
pub fn actor_count(hosts: u32, media: u32) -> usize
    ensures { result ≡ spec.actor_count hosts media }
{
    67 * hosts as usize + media as usize + 1
}

/// The number of an actor of a world with so many hosts and media.
pub fn number_of(hosts: u32, media: u32, name: ActorName) -> usize
    ensures { result ≡ spec.number_of hosts media name }
{
    let all_hosts = hosts as usize;
    match name {
        ActorName::Desk(host) => host as usize,
        ActorName::Dir(host, proto) => all_hosts + 2 * host as usize + proto_number(proto),
        ActorName::Conv(host, proto, slot) => {
            3 * all_hosts + 64 * host as usize + SLOTS * proto_number(proto) + slot as usize
        }
        ActorName::Medium(medium) => 67 * all_hosts + medium as usize,
        ActorName::Clock => 67 * all_hosts + media as usize,
    }
}

/// Whether a world with so many hosts and media has the actor.
pub fn is_among(hosts: u32, media: u32, name: ActorName) -> bool
    ensures { result ≡ spec.is_actor_among hosts media name }
{
    match name {
        ActorName::Desk(host) | ActorName::Dir(host, _) => host < hosts,
        ActorName::Conv(host, _, slot) => host < hosts && slot < 32,
        ActorName::Medium(medium) => medium < media,
        ActorName::Clock => true,
    }
}

fn proto_of(number: usize) -> Proto
    requires { number < 2 }
    ensures { spec.number_of_proto result ≡ number }
{
    if number == 0 { Proto::Il } else { Proto::Udp }
}

/// The actor of a number, of a world with so many hosts and media.
pub fn actor_at(hosts: u32, media: u32, number: usize) -> ActorName
    requires { number < spec.actor_count hosts media }
    ensures number { spec.number_of hosts media result ≡ number }
    ensures among { spec.is_actor_among hosts media result ≡ true }
{
    let all_hosts = hosts as usize;
    if number < all_hosts {
        return ActorName::Desk(number as u32);
    }
    if number < 3 * all_hosts {
        let place = number - all_hosts;
        return ActorName::Dir((place / 2) as u32, proto_of(place % 2));
    }
    if number < 67 * all_hosts {
        let place = number - 3 * all_hosts;
        let (host, rest) = (place / 64, place % 64);
        return ActorName::Conv(host as u32, proto_of(rest / SLOTS), (rest % SLOTS) as u32);
    }
    if number < 67 * all_hosts + media as usize {
        return ActorName::Medium((number - 67 * all_hosts) as u32);
    }
    ActorName::Clock
}

/// The numbers of a world's actors are below their count, and different actors have different ones.
#[tactic(auto, using(crate::proofs::Numbering::below_in, crate::proofs::Numbering::same_in))]
pub fn numbers_are_apart()
    ensures below { (w : World) (a : Name) → has_actor w a ≡ true → spec.number_in_world w a < spec.count_in w }
    ensures apart { (w : World) (a b : Name) → has_actor w a ≡ true → has_actor w b ≡ true
        → spec.number_in_world w a ≡ spec.number_in_world w b → a ≡ b }
{}
