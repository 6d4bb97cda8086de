//! What paths name, and where they are opened and listed.
ghost use Rattle.std.specs.Prelude.{◌≡◌};
ghost use Rattle.net_base.specs.Paths as paths;
ghost use Rattle.net_base.specs.Steps as spec;

use net_base::{ActorName, Event, FileName, Mode, Node, Octets};
use net_tree::{may_open, node_named};

// The node of a path that may be opened so.
pub(crate) fn openable(path: &[u8], mode: Mode) -> Option<Node>
    ensures { result ≡ spec.openable (paths.walk path.now) mode }
{
    let node = node_named(path)?;
    if may_open(node, mode).is_ok() {
        Some(node)
    } else {
        None
    }
}

// The actor at which a node is opened.
pub(crate) fn open_actor(host: u32, node: Option<Node>) -> ActorName
    ensures { result ≡ spec.open_actor host node }
{
    match node {
        Some(Node::Clone(proto)) => ActorName::Dir(host, proto),
        Some(Node::File(proto, _, FileName::Listen)) => ActorName::Dir(host, proto),
        Some(Node::File(proto, slot, _)) => ActorName::Conv(host, proto, slot),
        _ => ActorName::Desk(host),
    }
}

// The event that opens it.
pub(crate) fn open_event(path: Octets, mode: Mode, node: Option<Node>) -> Event
    ensures { result ≡ spec.open_event path mode node }
{
    match node {
        Some(Node::Clone(_)) => Event::Reserve,
        Some(Node::File(_, slot, FileName::Listen)) => Event::Listen { slot },
        Some(Node::File(_, _, file)) => Event::Open { file, mode },
        _ => Event::OpenPath { path, mode },
    }
}

// The actor that lists a directory.
pub(crate) fn ls_actor(host: u32, node: Option<Node>) -> ActorName
    ensures { result ≡ spec.ls_actor host node }
{
    match node {
        Some(Node::Proto(proto)) => ActorName::Dir(host, proto),
        Some(Node::Dir(proto, slot)) => ActorName::Conv(host, proto, slot),
        _ => ActorName::Desk(host),
    }
}

// The event that lists it.
pub(crate) fn ls_event(path: Octets, node: Option<Node>) -> Event
    ensures { result ≡ spec.ls_event path node }
{
    match node {
        Some(Node::Proto(_)) => Event::Ls,
        Some(Node::Dir(_, _)) => Event::Ls,
        _ => Event::LsPath { path },
    }
}
