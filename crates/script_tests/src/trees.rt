//! Paths, modes, directories and bound names.
use net_base::{FileName, Lines, Mode, Node, Proto};
use net_tree::{Fid, Fids, TreeError, may_open, names, walk};
use std::alloc::{AllocError, Global};
use std::test::*;

fn fid(slot: u32) -> Fid {
    Fid {
        proto: Proto::Il,
        slot,
        generation: 7,
        file: FileName::Data,
        mode: Mode::Both,
    }
}

const PATHS: &[(&[u8], Node)] = &[
    (b"/net", Node::Root),
    (b"/net/cs", Node::Cs),
    (b"/net/il", Node::Proto(Proto::Il)),
    (b"/net/udp/clone", Node::Clone(Proto::Udp)),
    (b"/net/il/0", Node::Dir(Proto::Il, 0)),
    (b"/net/udp/31", Node::Dir(Proto::Udp, 31)),
    (b"/net/il/7/ctl", Node::File(Proto::Il, 7, FileName::Ctl)),
    (
        b"/net/udp/30/status",
        Node::File(Proto::Udp, 30, FileName::Status),
    ),
    (
        b"/net/udp/10/listen",
        Node::File(Proto::Udp, 10, FileName::Listen),
    ),
];

#[test]
fn paths_name_nodes(rt: HostRuntime) {
    for (i, (path, node)) in PATHS.iter().enumerate() {
        assert!(rt; walk(path) == Ok(*node), "row {i}");
    }
}

const NO_PATHS: &[&[u8]] = &[
    b"",
    b"/",
    b"net",
    b"/net/",
    b"//net",
    b"/net/tcp",
    b"/net/il/32",
    b"/net/il/07",
    b"/net/il/00",
    b"/net/il/",
    b"/net/cs/0",
    b"/net/il/clone/ctl",
    b"/net/il/0/Data",
    b"/net/il/0/data/",
];

#[test]
fn other_paths_name_nothing(rt: HostRuntime) {
    for (i, path) in NO_PATHS.iter().enumerate() {
        assert!(rt; walk(path) == Err(TreeError::NoFile), "row {i}");
    }
    let numbers = (
        TreeError::NoFile.number(),
        TreeError::BadMode.number(),
        TreeError::BadFid.number(),
    );
    assert!(rt; numbers == (1, 2, 3));
}

/// A directory with a number for what is live there, and its names.
const DIRECTORIES: &[(Node, u32, &[&[u8]])] = &[
    (Node::Root, 0, &[b"cs", b"il", b"udp"]),
    (
        Node::Proto(Proto::Il),
        0x8000_0005,
        &[b"clone", b"0", b"2", b"31"],
    ),
    (
        Node::Dir(Proto::Udp, 3),
        8,
        &[
            b"ctl", b"data", b"err", b"listen", b"local", b"remote", b"status",
        ],
    ),
    (Node::Cs, 1, &[]),
];

/// Whether a directory has these names.
fn has_names(alloc: Global, node: Node, live: u32, words: &[&[u8]]) -> Result<bool, AllocError> {
    let lines = names(alloc, node, live)?;
    let has = is_list(&lines, words);
    drop(lines);
    Ok(has)
}

#[test]
fn directories_have_names(rt: HostRuntime) -> Result<(), AllocError> {
    for (i, (node, live, words)) in DIRECTORIES.iter().enumerate() {
        let has = has_names(rt.alloc(), *node, *live, words)?;
        assert!(rt; has, "row {i}");
    }
    Ok(())
}

fn is_list(lines: &Lines, words: &[&[u8]]) -> bool {
    let lines = lines.as_slice();
    for (line, word) in lines.iter().zip(words.iter()) {
        if line.as_slice() != *word {
            return false;
        }
    }
    lines.len() == words.len()
}

/// What a name does, with the slot of its file.
#[derive(Clone, Copy)]
enum Ask {
    IsBound(u32),
    IsRefused(u32),
    Has(u32),
    Loses(u32),
    HasNothing,
}

fn does(fids: &mut Fids, name: &[u8], ask: Ask) -> bool {
    match ask {
        Ask::IsBound(slot) => fids.bind(name, fid(slot)) == Ok(()),
        Ask::IsRefused(slot) => fids.bind(name, fid(slot)) == Err(TreeError::BadFid),
        Ask::Has(slot) => fids.get(name) == Some(fid(slot)),
        Ask::Loses(slot) => fids.unbind(name) == Some(fid(slot)),
        Ask::HasNothing => fids.unbind(name).is_none(),
    }
}

const BINDINGS: &[(&[u8], Ask)] = &[
    (b"a", Ask::IsBound(1)),
    (b"b", Ask::IsBound(2)),
    (b"a", Ask::IsRefused(3)),
    (b"a", Ask::Has(1)),
    (b"a", Ask::Loses(1)),
    (b"a", Ask::HasNothing),
    (b"b", Ask::Has(2)),
];

#[test]
fn names_are_bound_and_unbound(rt: HostRuntime) {
    let mut fids = Fids::new(rt.alloc());
    for (i, (name, ask)) in BINDINGS.iter().enumerate() {
        assert!(rt; does(&mut fids, name, *ask), "row {i}");
    }
    drop(fids);
}

// Whether a name is bound, where there is room for it.
fn is_bound_in_room(fids: &mut Fids) -> bool {
    if fids.reserve(b"conversation").is_err() {
        return true;
    }
    fids.bind(b"conversation", fid(1)) == Ok(()) && fids.get(b"conversation") == Some(fid(1))
}

// Run it with each allocation failing in turn: where there was memory for the room, there is none that the binding wants.
#[test]
fn a_reserved_name_is_bound(rt: HostRuntime) {
    let mut fids = Fids::new(rt.alloc());
    assert!(rt; is_bound_in_room(&mut fids));
    drop(fids);
}
