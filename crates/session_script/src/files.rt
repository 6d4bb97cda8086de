//! The tree under /net as 9P sees it.
ghost use Rattle.std.specs.Prelude.{◌≡◌, ◌==◌, ◌++◌, ℕ, codes, IfOk, OnOk};
ghost use Rattle.std.specs.List.{list_any};
ghost use Rattle.net_base.specs.Paths as paths;
ghost use Rattle.net_base.specs.declared.names.Node.TheVariants as node;
ghost use Rattle.net_base.specs.SessionFiles as spec;

use net_base::{FileName, Lines, Mode, Node, Octets, Proto};
use net_tree::node_named;
use std::alloc::{AllocError, Global};
use words::{file_name, proto_name, put_decimal};

/// Whether it is a directory.
pub fn is_directory(node: Node) -> bool
    ensures { result ≡ spec.is_directory node }
{
    matches!(node, Node::Root | Node::Proto(_) | Node::Dir(..))
}

/// Whether it is a data file.
pub fn is_data(node: Node) -> bool
    ensures { result ≡ spec.is_data_node node }
{
    matches!(node, Node::File(_, _, FileName::Data))
}

/// Whether it is cs.
pub fn is_cs(node: Node) -> bool
    ensures { result ≡ spec.is_cs node }
{
    matches!(node, Node::Cs)
}

/// Whether it is a file but cs.
pub fn is_plain(node: Node) -> bool
    ensures { result ≡ spec.is_plain node }
{
    matches!(node, Node::Clone(_) | Node::File(..))
}

/// The mode of a file that 9P opens so.
pub fn access(mode: u8) -> Option<Mode>
    ensures { result ≡ spec.access mode }
{
    if mode == 0 || mode == 16 {
        return Some(Mode::Read);
    }
    if mode == 1 || mode == 17 {
        return Some(Mode::Write);
    }
    if mode == 2 || mode == 18 {
        return Some(Mode::Both);
    }
    None
}

/// Whether it may be opened so.
pub fn can_open(node: Node, mode: u8) -> bool
    ensures { result ≡ spec.can_open node mode }
{
    if is_directory(node) {
        mode == 0
    } else {
        access(mode).is_some()
    }
}

/// Where `..` leads.
fn parent(node: Node) -> Node
    ensures { result ≡ spec.parent node }
{
    match node {
        Node::Root | Node::Cs | Node::Proto(_) => Node::Root,
        Node::Clone(proto) | Node::Dir(proto, _) => Node::Proto(proto),
        Node::File(proto, slot, _) => Node::Dir(proto, slot),
    }
}

/// Adds the path of a node.
pub fn put_path(out: &mut Octets, node: Node) -> Result<(), AllocError>
    ensures { OnOk result (out.new ≡ out.old ++ paths.path_of node) }
{
    match node {
        Node::Root => out.append(b"/net"),
        Node::Cs => out.append(b"/net/cs"),
        Node::Proto(proto) => put_proto(out, proto),
        Node::Clone(proto) => {
            put_proto(out, proto)?;
            out.append(b"/clone")
        }
        Node::Dir(proto, slot) => put_dir(out, proto, slot),
        Node::File(proto, slot, file) => {
            put_dir(out, proto, slot)?;
            out.append(b"/")?;
            out.append(file_name(file))
        }
    }
}

fn put_proto(out: &mut Octets, proto: Proto) -> Result<(), AllocError>
    ensures { OnOk result (out.new ≡ out.old ++ paths.path_of (node.Proto proto)) }
{
    out.append(b"/net/")?;
    out.append(proto_name(proto))
}

fn put_dir(out: &mut Octets, proto: Proto, slot: u32) -> Result<(), AllocError>
    ensures { OnOk result (out.new ≡ out.old ++ paths.path_of (node.Dir proto slot)) }
{
    put_proto(out, proto)?;
    out.append(b"/")?;
    put_decimal(out, slot as u64)
}

fn has_slash(name: &[u8]) -> bool
    ensures { result ≡ list_any (λ (b : ℕ). b == 47) name.now }
{
    name.iter().any(|byte| *byte == b'/')
}

#[tactic(auto, using(std::proofs::Common::append_assoc))]
fn child_path(alloc: Global, node: Node, name: &[u8]) -> Result<Octets, AllocError>
    ensures { IfOk result (λ path. path ≡ paths.path_of node ++ codes "/" ++ name.now) }
{
    let mut path = Octets::new(alloc);
    put_path(&mut path, node)?;
    path.append(b"/")?;
    path.append(name)?;
    Ok(path)
}

/// What a name below a node names.
fn child(alloc: Global, node: Node, name: &[u8]) -> Result<Option<Node>, AllocError>
    ensures { IfOk result (λ at. at ≡ spec.child node name.now) }
{
    if has_slash(name) {
        return Ok(None);
    }
    let path = child_path(alloc, node, name)?;
    Ok(node_named(path.as_slice()))
}

/// Where a name of a walk leads.
pub fn step_to(alloc: Global, node: Node, name: &[u8]) -> Result<Option<Node>, AllocError>
    ensures { IfOk result (λ at. at ≡ spec.step_to node name.now) }
{
    if name == b"..".as_slice() {
        return Ok(Some(parent(node)));
    }
    child(alloc, node, name)
}

/// Where a walk ends, where all its names are found.
pub fn reached(alloc: Global, node: Node, names: &Lines) -> Result<Option<Node>, AllocError>
    ensures { IfOk result (λ at. at ≡ spec.reached node names.now) }
{
    let mut at = node;
    for name in names.as_slice() {
        let Some(next) = step_to(alloc, at, name.as_slice())? else {
            return Ok(None);
        };
        at = next;
    }
    Ok(Some(at))
}
