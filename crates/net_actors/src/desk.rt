//! The desk of a host.
ghost use Rattle.std.specs.Prelude.{◌≡◌, ◌<◌, length, IfOk, IsTrue, OnErr, bytes_eq, codes, is_some, Some, true};
ghost use Rattle.std.specs.Arc.{arc_value};
ghost use Rattle.net_base.specs.declared.reply.Reply.TheVariants as reply;
ghost use Rattle.net_base.specs.Cs.{cs_list};
ghost use Rattle.net_base.specs.Desk as spec;
ghost use Rattle.net_base.specs.Paths.{walk as node_at};
ghost use Rattle.net_base.specs.World.{is_nets};
ghost use Rattle.net_base.specs.Versions.{database_of, in_force};
ghost use Rattle.net_actors.specs.AtDesk.{Replies, desk_at, host_at_desk, leaves_desk};
ghost use Rattle.net_actors.specs.Stepping.{desk_takes};

use crate::outcome::answered;
use cs_resolver::{CsError, answer_indexed};
use ndb_index::IndexedVersions;
use net_base::{Event, HostSpec, Lines, Mode, Nets, Node, Octets, Outcome, Reply};
use net_tree::{may_open, names, walk};
use std::alloc::{AllocError, Global};
use std::marker::Model;
use std::sync::Arc;

/// The desk of a host, which keeps the number of the version that cs searches, and else what the world says. The
/// versions of the database stand once for all desks, each with its index.
///
/// Clauses see the versions, the name and the nets of the host, and the number.
#[derive(Drop)]
pub struct Desk {
    alloc: Global,
    dbs: Arc<IndexedVersions, Global>,
    name: Octets,
    nets: Nets,
    version: u64,
}

impl Model for Desk {
    ghost use Rattle.std.specs.Prelude.{◌<◌, length};
    ghost use Rattle.std.specs.Arc.{arc_value};
    ghost use Rattle.net_actors.specs.AtDesk.{AreNets, AtDesk};

    ghost Value = { AtDesk };

    ghost view = { λ d. record { dbs = arc_value d.dbs; name = d.name; nets = d.nets; version = d.version } };

    ghost invariant = { λ d. AreNets d.nets × (d.version < length (arc_value d.dbs)) };
}

impl Desk {
    /// The desk of a host, which searches the first version.
    #[tactic(auto, using(crate::proofs::Said::are_nets))]
    pub fn new(
        alloc: Global,
        dbs: &Arc<IndexedVersions, Global>,
        host: &HostSpec,
    ) -> Result<Desk, AllocError>
        requires nets { is_nets host.now.nets ≡ true }
        requires some { 0 < length (arc_value dbs.now) }
        ensures { IfOk result (λ d. d ≡ record {
          dbs = arc_value dbs.now;
          name = host.now.name;
          nets = host.now.nets;
          version = 0;
        }) }
    {
        Ok(Desk {
            alloc,
            dbs: Arc::try_clone(dbs)?,
            name: host.name.clone()?,
            nets: host.nets.clone()?,
            version: 0,
        })
    }

    /// Whether the desk has an answer at a moment, in ms.
    pub fn ready(&self, now: u64, event: &Event) -> bool
        ensures { result ≡ is_some (spec.desk_reply self.now.dbs (host_at_desk self.now) event.now now
            (desk_at self.now)) }
    {
        match event {
            Event::Cs { .. } => true,
            Event::LsPath { .. } => true,
            Event::OpenPath { path, mode } => is_refused(path.as_slice(), *mode),
            Event::Use { .. } => true,
            Event::Misuse { .. } => true,
            Event::Until { moment } => *moment <= now,
            Event::Refresh => true,
            _ => false,
        }
    }

    /// The answer to an event, where there is one.
    #[tactic(auto, using(crate::proofs::ByKind::told_steps))]
    pub fn answer(&mut self, now: u64, event: &Event) -> Result<Outcome, AllocError>
        requires { IsTrue (is_some (spec.desk_reply self.old.dbs (host_at_desk self.old) event.now now
            (desk_at self.old))) }
        ensures ok { IfOk result (λ o. spec.desk_step self.old.dbs (host_at_desk self.old) event.now now
            (desk_at self.old)
            ≡ Some (record { state = desk_at self.new; outcome = o })) }
        ensures same { self.new ≡ record self.old { version = self.new.version } }
        ensures err { OnErr result (self.new ≡ self.old) }
        ensures memory { OnErr result (desk_takes event.now ≡ true) }
    {
        match event {
            Event::Refresh => Ok(self.read_again(now)),
            _ => self.tell(event, now),
        }
    }

    /// The answer to an event that leaves the desk as it is.
    fn tell(&self, event: &Event, now: u64) -> Result<Outcome, AllocError>
        requires some { IsTrue (is_some (spec.desk_reply self.now.dbs (host_at_desk self.now) event.now now
            (desk_at self.now))) }
        requires leaves { leaves_desk event.now ≡ true }
        ensures ok { IfOk result (Replies (spec.desk_reply self.now.dbs (host_at_desk self.now) event.now now
            (desk_at self.now))) }
        ensures memory { OnErr result (desk_takes event.now ≡ true) }
    {
        match event {
            Event::Cs { query } => self.resolve(query.as_slice()),
            Event::LsPath { path } => list(self.alloc, path.as_slice()),
            Event::OpenPath { path, mode } => Ok(refuse(path.as_slice(), *mode)),
            Event::Use { .. } => Ok(answered(Reply::BadFid, Reply::BadFid)),
            Event::Misuse { .. } => Ok(answered(Reply::BadMode, Reply::BadMode)),
            Event::Until { .. } => Ok(answered(Reply::Ok, Reply::Ok)),
            _ => unreachable!(),
        }
    }

    /// Has cs search the version that is in force at a moment.
    #[tactic(auto, using(crate::proofs::InForce::in_force_below))]
    fn read_again(&mut self, now: u64) -> Outcome
        ensures tells { Replies (Some (reply.Version self.new.version)) result }
        ensures version { self.new ≡ record self.old { version = in_force now self.old.dbs } }
    {
        let version = self.dbs.in_force(now);
        self.version = version;
        answered(Reply::Version { version }, Reply::Version { version })
    }

    /// The lines of cs, or the number of what it refuses.
    fn resolve(&self, query: &[u8]) -> Result<Outcome, AllocError>
        ensures { IfOk result (Replies (Some (spec.cs_reply
            (cs_list (database_of self.now.dbs self.now.version) self.now.name self.now.nets query.now)))) }
    {
        let nets = self.nets.as_slice();
        let db = self.dbs.index(self.version);
        match answer_indexed(self.alloc, db, self.name.as_slice(), nets, query) {
            Ok(lines) => given(lines),
            Err(CsError::Memory) => Err(AllocError),
            Err(error) => Ok(refused(error.number())),
        }
    }
}

/// The lines, twice.
fn given(lines: Lines) -> Result<Outcome, AllocError>
    ensures { IfOk result (Replies (Some (reply.Lines lines))) }
{
    let copy = lines.clone()?;
    Ok(answered(Reply::Lines { lines }, Reply::Lines { lines: copy }))
}

fn refused(number: u32) -> Outcome
    ensures { Replies (Some (reply.CsRefused number)) result }
{
    answered(Reply::CsRefused { number }, Reply::CsRefused { number })
}

/// The names in /net, which is the only directory of a desk.
fn list(alloc: Global, path: &[u8]) -> Result<Outcome, AllocError>
    ensures ok { IfOk result (Replies (Some (spec.ls_reply path.now))) }
    ensures memory { OnErr result (bytes_eq path.now (codes "/net") ≡ true) }
{
    if path != b"/net".as_slice() {
        return Ok(answered(Reply::NoFile, Reply::NoFile));
    }
    let told = names(alloc, Node::Root, 0)?;
    let copy = names(alloc, Node::Root, 0)?;
    Ok(answered(Reply::Names { names: told }, Reply::Names { names: copy }))
}

/// Whether the path names nothing, or what it names may not be opened so.
fn is_refused(path: &[u8], mode: Mode) -> bool
    ensures { result ≡ is_some (spec.open_refusal (node_at path.now) mode) }
{
    match walk(path) {
        Ok(node) => may_open(node, mode).is_err(),
        Err(_) => true,
    }
}

/// Why it is refused.
fn refuse(path: &[u8], mode: Mode) -> Outcome
    requires { IsTrue (is_some (spec.open_refusal (node_at path.now) mode)) }
    ensures { Replies (spec.open_refusal (node_at path.now) mode) result }
{
    match walk(path) {
        Ok(_) => answered(Reply::BadMode, Reply::BadMode),
        Err(_) => answered(Reply::NoFile, Reply::NoFile),
    }
}
