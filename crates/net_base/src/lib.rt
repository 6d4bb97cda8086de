//! The plain data of the network and the definitions that contracts cite: hosts, packets, events, replies, entries,
//! how a run ends, and the rules of a valid history. All crates depend on it.
//!
//! The definitions are in specs/, one module for each part of the standard that it states.
#![tactic(auto)]

mod actor;
mod address;
mod end;
mod entries;
mod event;
mod headers;
mod history;
mod il;
mod left;
mod names;
mod ndb;
mod ninep;
mod noted;
mod numbers;
mod octets;
mod packet;
mod question;
mod reply;
mod request;
mod sequence;
mod timer;
mod udp;
mod world;

pub use actor::{ActorList, ActorName, Call, CallList, same_actor};
pub use address::{Addr, Pair, Proto, mirror};
pub use end::RunEnd;
pub use entries::Entries;
pub use event::Event;
pub use headers::{Headers, Heard};
pub use history::{Entry, History, Outcome, Taken, With, Work};
pub use il::{Cause, IlKind, IlMsg, IlState, StateName};
pub use left::{Left, Remote, Remotes};
pub use names::{Ctl, FileName, Mode, Node};
pub use ndb::{Db, Growing, Line, NdbPair, Spot, Tuple};
pub use ninep::{Qid, Qids, Rmsg, Target, Tmsg};
pub use noted::{Noted, Number};
pub use numbers::number;
pub use octets::{Lines, Octets};
pub use packet::{Body, BodyHeader, Header, Packet};
pub use question::Question;
pub use reply::Reply;
pub use request::Request;
pub use sequence::Sequence;
pub use timer::{Probe, Tick, Timers};
pub use udp::UdpState;
pub use world::{
    Fate, FateRange, Fates, HostSpec, Hosts, Iface, Ifaces, Media, MediumSpec, Nets, RouteLine,
    RouteLines, Script, Scripts, Starts, Step, StepList, Version, Versions, World,
};
