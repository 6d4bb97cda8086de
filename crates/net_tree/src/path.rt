//! The node that a path names.
ghost use Rattle.std.specs.Prelude.{◌≡◌, ◌==◌, ◌++◌, ◌∷◌, [], List, ℕ, Some, ok_or, bytes_eq, codes};
ghost use Rattle.std.specs.List.{slice_split};
ghost use Rattle.std.specs.Str.Parse.{digits_value};
ghost use Rattle.net_base.specs.declared.names.Node.TheVariants as node;
ghost use Rattle.net_base.specs.Paths as spec;
ghost use Rattle.net_tree.specs.declared.fault.TreeError.TheVariants.{NoFile};
ghost use Rattle.net_tree.specs.Guess.{Begins, kept_node, kept_slot, under_proto};

use crate::fault::TreeError;
use itoa::Buffer;
use net_base::{FileName, Node, Proto};
use words::{file_named, number_up_to, proto_named, split_first};

/// The node that a path names.
pub fn walk(path: &[u8]) -> Result<Node, TreeError>
    ensures { result ≡ ok_or (spec.walk path.now) NoFile }
{
    match node_of(path) {
        Some(node) => {
            if is_path_of(path, node) {
                Ok(node)
            } else {
                Err(TreeError::NoFile)
            }
        }
        None => Err(TreeError::NoFile),
    }
}

/// The node that a path names, if it names one.
pub fn node_named(path: &[u8]) -> Option<Node>
    ensures { result ≡ spec.walk path.now }
{
    match walk(path) {
        Ok(node) => Some(node),
        Err(_) => None,
    }
}

// The node that the parts of a path would name, where its slot is below 32.
fn node_of(path: &[u8]) -> Option<Node>
    ensures { result ≡ kept_node (spec.node_of (slice_split (λ b. b == 47) path.now)) }
{
    let (_, rest) = split_first(path, b'/');
    let (_, rest) = split_first(rest?, b'/');
    match rest {
        None => Some(Node::Root),
        Some(rest) => under_net(rest),
    }
}

// What the parts behind `/net/` would name.
fn under_net(path: &[u8]) -> Option<Node>
    ensures { (root net : List ℕ) → result ≡ kept_node
        (spec.node_of (root ∷ net ∷ slice_split (λ b. b == 47) path.now)) }
{
    let (name, rest) = split_first(path, b'/');
    match rest {
        None => cs_or_proto(name),
        Some(rest) => match proto_named(name) {
            Some(proto) => under_proto(proto, rest),
            None => None,
        },
    }
}

fn cs_or_proto(name: &[u8]) -> Option<Node>
    ensures { result ≡ spec.cs_or_proto name.now }
{
    if name == b"cs".as_slice() {
        return Some(Node::Cs);
    }
    match proto_named(name) {
        Some(proto) => Some(Node::Proto(proto)),
        None => None,
    }
}

// What the parts behind a protocol would name.
fn under_proto(proto: Proto, path: &[u8]) -> Option<Node>
    ensures { result ≡ kept_node (under_proto proto (slice_split (λ b. b == 47) path.now)) }
{
    let (name, rest) = split_first(path, b'/');
    match rest {
        None => clone_or_dir(proto, name),
        Some(rest) => match split_first(rest, b'/') {
            (file, None) => file_of_slot(proto, name, file),
            (_, Some(_)) => None,
        },
    }
}

fn clone_or_dir(proto: Proto, name: &[u8]) -> Option<Node>
    ensures { result ≡ kept_node (Some (spec.clone_or_dir name.now proto)) }
{
    if name == b"clone".as_slice() {
        return Some(Node::Clone(proto));
    }
    match slot_of(name) {
        Some(slot) => Some(Node::Dir(proto, slot)),
        None => None,
    }
}

fn file_of_slot(proto: Proto, slot: &[u8], file: &[u8]) -> Option<Node>
    ensures { result ≡ kept_node (under_proto proto (slot.now ∷ file.now ∷ [])) }
{
    match (file_named(file), slot_of(slot)) {
        (Some(file), Some(slot)) => Some(Node::File(proto, slot, file)),
        _ => None,
    }
}

// A slot below 32. What isn't spelled so is refused later, where the whole path is compared.
fn slot_of(text: &[u8]) -> Option<u32>
    ensures { result ≡ kept_slot (digits_value 10 text.now) }
{
    let number = number_up_to(32, text);
    if number < 32 {
        Some(number as u32)
    } else {
        None
    }
}

// Whether the path is the node's.
fn is_path_of(path: &[u8], node: Node) -> bool
    ensures { result ≡ bytes_eq path.now (spec.path_of node) }
{
    match node {
        Node::Root => path == b"/net".as_slice(),
        Node::Cs => path == b"/net/cs".as_slice(),
        Node::Proto(Proto::Il) => path == b"/net/il".as_slice(),
        Node::Proto(Proto::Udp) => path == b"/net/udp".as_slice(),
        Node::Clone(Proto::Il) => path == b"/net/il/clone".as_slice(),
        Node::Clone(Proto::Udp) => path == b"/net/udp/clone".as_slice(),
        Node::Dir(proto, slot) => match behind_slot(path, proto, slot) {
            Some(rest) => rest.is_empty(),
            None => false,
        },
        Node::File(proto, slot, file) => match behind_slot(path, proto, slot) {
            Some(rest) => is_file_of(rest, file),
            None => false,
        },
    }
}

// What stands behind the directory of a slot.
fn behind_slot(path: &[u8], proto: Proto, slot: u32) -> Option<&[u8]>
    ensures { Begins path.now (spec.path_of (node.Dir proto slot)) result }
{
    match behind_proto(path, proto) {
        Some(rest) => {
            let mut buffer = Buffer::new();
            behind(rest, buffer.format(slot).as_bytes())
        }
        None => None,
    }
}

// What stands behind the directory of a protocol and a slash.
fn behind_proto(path: &[u8], proto: Proto) -> Option<&[u8]>
    ensures { Begins path.now (codes "/net/" ++ spec.proto_name proto ++ codes "/") result }
{
    match proto {
        Proto::Il => behind(path, b"/net/il/"),
        Proto::Udp => behind(path, b"/net/udp/"),
    }
}

// What stands behind a front, where the text begins with it.
fn behind<'a>(text: &'a [u8], front: &[u8]) -> Option<&'a [u8]>
    ensures { Begins text.now front.now result }
{
    text.strip_prefix(front)
}

// Whether this stands behind a directory where it has the file.
fn is_file_of(rest: &[u8], file: FileName) -> bool
    ensures { result ≡ bytes_eq rest.now (codes "/" ++ spec.file_name file) }
{
    match file {
        FileName::Ctl => rest == b"/ctl".as_slice(),
        FileName::Data => rest == b"/data".as_slice(),
        FileName::Err => rest == b"/err".as_slice(),
        FileName::Listen => rest == b"/listen".as_slice(),
        FileName::Local => rest == b"/local".as_slice(),
        FileName::Remote => rest == b"/remote".as_slice(),
        FileName::Status => rest == b"/status".as_slice(),
    }
}
