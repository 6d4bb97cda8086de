//! Steps over calls, as dialogues: what each step asks, and the replies.
use crate::dialling::names;
use net_base::{Left, Mode, Octets, Reply, Step};
use played_task::StepTask;
use script_task::{Names, Request, Task, settle};
use std::alloc::{AllocError, Global};
use std::process::Abort;
use std::test::*;
use words::{put_hex_word, read_hex_word, split_first};

// A file is opened over a call, another one isn't, and the first is closed.
const IMPORT: &[u8] = b"step import d
> write d 1300000064ffff000200000600395032303030
< ok
> read d
< 1300000065ffff000200000600395032303030
> write d 1300000068010000000000ffffffff00000000
< ok
> read d
< 1400000069010080000000000000000000000000
step ropen f d /net/udp/clone
> write d 1d0000006e01000000000001000000020003007564700500636c6f6e65
< ok
> read d
< 230000006f010002008000000000030000000000000000000000000500000000000000
> write d 0c0000007001000100000002
< ok
> read d
< 180000007101000000000000410200000000000000000000
step ropen g d /net/il/0/data
> write d 1e0000006e0100000000000200000003000200696c010030040064617461
< ok
> read d
< 300000006f01000300800000000002000000000000008000000000100000000000000000000000001200000000000000
> write d 0c0000007001000200000002
< ok
> read d
< 100000006b010007006e6f746f70656e
> write d 0b00000078010002000000
< ok
> read d
< 07000000790100
step rread f
> write d 1700000074010001000000000000000000000020000000
< ok
> read d
< 0c0000007501000100000030
step ropen f d /net
> use f
< no
step rclose f
> write d 0b00000078010001000000
< no
step rread f
> use f
< no";

// A version, bytes that are no message, and a file that is left open.
const EXPORT: &[u8] = b"step export d
> read d
< 1300000064ffff000200000600395032303030
> write d 1300000065ffff000200000600395032303030
< ok
> read d
< 00
> write d 140000006bffff0b00626164206d657373616765
< ok
> read d
< 1300000068010000000000ffffffff00000000
> write d 1400000069010080000000000000000000000000
< ok
> read d
< 1d0000006e01000000000001000000020003007564700500636c6f6e65
> write d 230000006f010002008000000000030000000000000000000000000500000000000000
< ok
> read d
< 0c0000007001000100000002
> open .1 /net/udp/clone
< slot
> write d 180000007101000000000000410200000000000000000000
< ok
> read d
< -
> close .1
< no";

// What stands before the first blank, and behind it.
fn cut(text: &[u8]) -> (&[u8], &[u8]) {
    match split_first(text, b' ') {
        (first, Some(rest)) => (first, rest),
        (first, None) => (first, &[]),
    }
}

// A step by its words. It opens in both modes, and reads 32 bytes.
fn step(alloc: Global, words: &[u8]) -> Result<Step, AllocError> {
    let (word, rest) = cut(words);
    let (name, rest) = cut(rest);
    let name = Octets::from_slice(alloc, name)?;
    match word {
        b"import" => Ok(Step::Import { name }),
        b"ropen" => {
            let (call, path) = cut(rest);
            Ok(Step::Ropen {
                name,
                call: Octets::from_slice(alloc, call)?,
                path: Octets::from_slice(alloc, path)?,
                mode: Mode::Both,
            })
        }
        b"rread" => Ok(Step::Rread { name, count: 32 }),
        b"rclose" => Ok(Step::Rclose { name }),
        _ => Ok(Step::Export { name }),
    }
}

// A request as text.
fn text_of(alloc: Global, request: &Request) -> Result<Octets, AllocError> {
    let mut out = Octets::new(alloc);
    match request {
        Request::Write { name, text } => {
            put_words(&mut out, b"write ", name)?;
            out.append(b" ")?;
            put_hex_word(&mut out, text.as_slice())?;
        }
        Request::Open { name, path, .. } => {
            put_words(&mut out, b"open ", name)?;
            out.append(b" ")?;
            out.append(path.as_slice())?;
        }
        Request::Read { name, .. } => put_words(&mut out, b"read ", name)?,
        Request::Close { name } => put_words(&mut out, b"close ", name)?,
        Request::Unbound { name } => put_words(&mut out, b"use ", name)?,
        _ => out.append(b"another")?,
    }
    Ok(out)
}

fn put_words(out: &mut Octets, word: &[u8], name: &Octets) -> Result<(), AllocError> {
    out.append(word)?;
    out.append(name.as_slice())
}

// A reply by its word, or by the bytes that were read.
fn reply(alloc: Global, word: &[u8]) -> Result<Reply, AllocError> {
    match word {
        b"ok" => Ok(Reply::Count { count: 1 }),
        b"slot" => Ok(Reply::Slot {
            slot: 3,
            generation: 7,
        }),
        _ => match read_hex_word(alloc, word)? {
            Some(bytes) => Ok(Reply::Bytes { bytes }),
            None => Ok(Reply::NoFile),
        },
    }
}

// What a dialogue goes on with.
#[derive(Drop)]
struct Player {
    task: StepTask,
    names: Names,
    left: Left,
    // the request that waits for its reply
    request: Option<Request>,
}

impl Player {
    fn new(alloc: Global) -> Result<Player, AllocError> {
        let left = Left::new(alloc);
        Ok(Player {
            task: StepTask::new(alloc, &Step::Refresh, &left)?,
            names: names(alloc)?,
            left,
            request: None,
        })
    }

    // A step begins, by what those before it left.
    fn begins(&mut self, alloc: Global, words: &[u8]) -> Result<bool, AllocError> {
        let step = step(alloc, words)?;
        self.task = StepTask::new(alloc, &step, &self.left)?;
        Ok(true)
    }

    fn asks(&mut self, alloc: Global, wanted: &[u8]) -> Result<bool, AllocError> {
        let Some(request) = self.task.next(alloc, &self.names)? else {
            return Ok(false);
        };
        let same = text_of(alloc, &request)?.as_slice() == wanted;
        self.request = Some(request);
        Ok(same)
    }

    fn hears(&mut self, alloc: Global, word: &[u8]) -> Result<bool, AllocError> {
        let Some(request) = self.request.take() else {
            return Ok(false);
        };
        let reply = reply(alloc, word)?;
        settle(&mut self.names, request, &reply)?;
        self.task.hear(alloc, reply, &mut self.left)?;
        Ok(true)
    }
}

// The first line of a dialogue that isn't met, or none.
fn first_wrong(alloc: Global, dialogue: &[u8]) -> Result<Option<usize>, AllocError> {
    let mut player = Player::new(alloc)?;
    for (i, line) in dialogue.split(|byte| *byte == b'\n').enumerate() {
        let (mark, rest) = cut(line);
        let met = match mark {
            b"step" => (i == 0 || player.task.is_through()) && player.begins(alloc, rest)?,
            b">" => player.asks(alloc, rest)?,
            _ => player.hears(alloc, rest)?,
        };
        if !met {
            return Ok(Some(i));
        }
    }
    if player.task.is_through() {
        Ok(None)
    } else {
        Ok(Some(usize::MAX))
    }
}

#[test]
fn imports_are_played(rt: HostRuntime) {
    assert_eq!(rt; first_wrong(rt.alloc(), IMPORT), Ok(None));
}

#[test]
fn exports_are_played(rt: HostRuntime) {
    assert_eq!(rt; first_wrong(rt.alloc(), EXPORT), Ok(None));
}
