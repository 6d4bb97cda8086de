//! Steps along their accepted and their refused replies, and completed addresses.
use crate::holding::no_names;
use dial_lib::{Announce, Beside, Dial, Reject, netmkaddr};
use net_base::{Addr, FileName, Left, Lines, Mode, Octets, Pair, Proto, Reply, Step};
use net_tree::Fid;
use played_task::StepTask;
use script_task::{Names, Request, Task, settle};
use std::alloc::{AllocError, Global};
use std::process::Abort;
use std::test::*;
use words::split_first;

// Rows of tests: a step, the letters of its replies, and its requests, with `end` where it is through then.

const STEPS: &[u8] = b"open f /net/il/clone|s|open f /net/il/clone;end
open f /net/il/clone|n|open f /net/il/clone;end
open f /net/udp/5/listen|c|open f /net/udp/5/listen;end
open f /net/udp/5/status|o|read-only open f /net/udp/5/status;end
open f /net/udp/32/status|n|open f /net/udp/32/status;end
open d /net/il/clone|n|open d /net/il/clone;end
read d 100|k|read d;end
read x 100|n|read x;end
write d hello|k|write d hello;end
write d hello|n|write d hello;end
write s hello|n|write s hello;end
write c connect 1.2.3.4!5|gk|write c connect 1.2.3.4!5;wait c;end
write c connect 1.2.3.4!5|gn|write c connect 1.2.3.4!5;wait c;end
write c connect 1.2.3.4!5|n|write c connect 1.2.3.4!5;end
writex c ttl 9|k|write c ttl 9;end
close c|k|close c;end
close c|n|close c;end
ls /net|k|ls /net;end
ls /net/x|n|ls /net/x;end
cs net!helix!9fs|l|cs net!helix!9fs;end
cs x|n|cs x;end
until|k|until;end
hangup c|k|write c hangup;end
hangup d|n|write d hangup;end
hangup x|n|write x hangup;end";

// These have a task of their own, too.
const LONG_STEPS: &[u8] = b"dial f helix|n|cs net!helix!9fs;end
dial f helix|e|cs net!helix!9fs;end
dial f il!helix|lsgkok|cs il!helix!9fs;open .f /net/il/clone;write .f connect 1.2.3.4!5;wait .f;open f /net/il/3/data;close .f;end
dial f il!helix!echo|lsgkon|cs il!helix!echo;open .f /net/il/clone;write .f connect 1.2.3.4!5;wait .f;open f /net/il/3/data;close .f;end
dial f x!y!z|lsgknk|cs x!y!z;open .f /net/il/clone;write .f connect 1.2.3.4!5;wait .f;open f /net/il/3/data;close .f;end
dial f x!y!z|lnn|cs x!y!z;open .f /net/il/clone;open .f /net/udp/clone;end
dial f x!y!z|lnsgkok|cs x!y!z;open .f /net/il/clone;open .f /net/udp/clone;write .f connect 1.2.3.4!7;wait .f;open f /net/udp/3/data;close .f;end
dial f x!y!z|lsnkn|cs x!y!z;open .f /net/il/clone;write .f connect 1.2.3.4!5;close .f;open .f /net/udp/clone;end
dial f x!y!z|lsgnkn|cs x!y!z;open .f /net/il/clone;write .f connect 1.2.3.4!5;wait .f;close .f;open .f /net/udp/clone;end
dial f x!y!z|lsnn|cs x!y!z;open .f /net/il/clone;write .f connect 1.2.3.4!5;close .f;end
dial f x!y!z|ls|cs x!y!z;open .f /net/il/clone;
dial c x!y!z|n|use c;end
dial g x!y!z|n|use .g;end
announce f udp!*|n|cs udp!*!9fs;end
announce f udp!*|e|cs udp!*!9fs;end
announce f udp!*|ln|cs udp!*!9fs;open f /net/il/clone;end
announce f udp!*|lsk|cs udp!*!9fs;open f /net/il/clone;write f announce 1.2.3.4!5;end
announce f udp!*|lsnk|cs udp!*!9fs;open f /net/il/clone;write f announce 1.2.3.4!5;close f;end
announce f udp!*|lsnn|cs udp!*!9fs;open f /net/il/clone;write f announce 1.2.3.4!5;close f;end
announce c udp!*|n|use c;end
listen f c|c|open f /net/udp/5/listen;end
listen f c|n|open f /net/udp/5/listen;end
listen c x|n|use x;end
listen d c|n|use d;end
accept f c|o|open f /net/udp/5/data;end
accept f c|n|open f /net/udp/5/data;end
accept c x|n|use x;end
accept d c|n|use d;end
reject c|kk|write c hangup;close c;end
reject c|kn|write c hangup;close c;end
reject d|kk|write d hangup;close d;end
reject d|n|write d hangup;end
reject s|n|write s hangup;end
reject x|n|write x hangup;end";

// Calls of datagrams: each event of theirs refused, and none.
const CALLS: &[u8] = b"hread c|n|open .c /net/udp/5/listen;end
hread c|cnn|open .c /net/udp/5/listen;open .d /net/udp/4/data;close .c;end
hread c|conkk|open .c /net/udp/5/listen;open .d /net/udp/4/data;read-only open .r /net/udp/4/remote;close .d;close .c;end
hread c|coonnkk|open .c /net/udp/5/listen;open .d /net/udp/4/data;read-only open .r /net/udp/4/remote;read .r;close .r;close .d;close .c;end
hread c|coobnkk|open .c /net/udp/5/listen;open .d /net/udp/4/data;read-only open .r /net/udp/4/remote;read .r;close .r;close .d;close .c;end
hread c|coobkobkb|open .c /net/udp/5/listen;open .d /net/udp/4/data;read-only open .r /net/udp/4/remote;read .r;close .r;read-only open .l /net/udp/4/local;read .l;close .l;hear .d;end
hread c|coobkobknkk|open .c /net/udp/5/listen;open .d /net/udp/4/data;read-only open .r /net/udp/4/remote;read .r;close .r;read-only open .l /net/udp/4/local;read .l;close .l;hear .d;close .d;close .c;end
hread x|n|use x;end
hwrite c 00|f|use .d;end
dns c|coobkobkbkkn|open .c /net/udp/5/listen;open .d /net/udp/4/data;read-only open .r /net/udp/4/remote;read .r;close .r;read-only open .l /net/udp/4/local;read .l;close .l;read .d;close .d;close .c;open .c /net/udp/5/listen;end
dns c|coobkobkqkkkn|open .c /net/udp/5/listen;open .d /net/udp/4/data;read-only open .r /net/udp/4/remote;read .r;close .r;read-only open .l /net/udp/4/local;read .l;close .l;read .d;write .d \x00\x00\x80\x01\x00\x00\x00\x00\x00\x00\x00\x00;close .d;close .c;open .c /net/udp/5/listen;end
dns c|coobkobkqnkk|open .c /net/udp/5/listen;open .d /net/udp/4/data;read-only open .r /net/udp/4/remote;read .r;close .r;read-only open .l /net/udp/4/local;read .l;close .l;read .d;write .d \x00\x00\x80\x01\x00\x00\x00\x00\x00\x00\x00\x00;close .d;close .c;end
dns x|n|use x;end";

// Names and replies.

// Names that are bound: `c` and `.g` to ctl files, `d` to a data file and `s` to a status file.
fn bind_all(fids: &mut Names) -> Result<(), AllocError> {
    bind(fids, b"c", FileName::Ctl, Mode::Both)?;
    bind(fids, b".g", FileName::Ctl, Mode::Both)?;
    bind(fids, b"d", FileName::Data, Mode::Both)?;
    bind(fids, b"s", FileName::Status, Mode::Read)
}

pub(crate) fn names(alloc: Global) -> Result<Names, AllocError> {
    let mut fids = no_names(alloc)?;
    if bind_all(&mut fids).is_err() {
        drop(fids);
        return Err(AllocError);
    }
    Ok(fids)
}

fn bind(fids: &mut Names, name: &[u8], file: FileName, mode: Mode) -> Result<(), AllocError> {
    let fid = Fid {
        proto: Proto::Udp,
        slot: 5,
        generation: 2,
        file,
        mode,
    };
    match fids.bind(name, fid) {
        Ok(()) => Ok(()),
        Err(_) => Err(AllocError),
    }
}

// A reply by its letter. Another letter is a refusal.
fn reply(alloc: Global, letter: u8) -> Result<Reply, AllocError> {
    match letter {
        b'l' => lines(alloc),
        b'e' => Ok(Reply::Lines {
            lines: Lines::new(alloc),
        }),
        b's' => Ok(Reply::Slot {
            slot: 3,
            generation: 7,
        }),
        b'c' => Ok(Reply::Call {
            slot: 4,
            generation: 8,
        }),
        b'g' => Ok(granted()),
        b'o' => Ok(Reply::Opened { generation: 7 }),
        b'k' => Ok(Reply::Ok),
        b'f' => Ok(Reply::BadFid),
        b'b' => bytes(alloc, b"1.2.3.4!5\n"),
        b'q' => bytes(alloc, &[0; 12]),
        _ => Ok(Reply::NoFile),
    }
}

fn bytes(alloc: Global, told: &[u8]) -> Result<Reply, AllocError> {
    Ok(Reply::Bytes {
        bytes: Octets::from_slice(alloc, told)?,
    })
}

fn put_lines(alloc: Global, lines: &mut Lines) -> Result<(), AllocError> {
    lines.push(Octets::from_slice(alloc, b"/net/il/clone 1.2.3.4!5")?)?;
    lines.push(Octets::from_slice(alloc, b"/net/udp/clone 1.2.3.4!7")?)
}

fn lines(alloc: Global) -> Result<Reply, AllocError> {
    let mut lines = Lines::new(alloc);
    if put_lines(alloc, &mut lines).is_err() {
        drop(lines);
        return Err(AllocError);
    }
    Ok(Reply::Lines { lines })
}

fn granted() -> Reply {
    let local = Addr { ip: 1, port: 5000 };
    let remote = Addr { ip: 2, port: 5 };
    Reply::Granted {
        pair: Pair { local, remote },
        start: 1,
        limit: 20,
    }
}

// Requests as text.

fn put(out: &mut Octets, request: &Request) -> Result<(), AllocError> {
    match request {
        Request::Open { name, path, mode } => put_open(out, name, path, *mode),
        Request::Read { name, .. } => put_words(out, b"read ", name, b""),
        Request::Write { name, text } => put_words(out, b"write ", name, text.as_slice()),
        Request::Close { name } => put_words(out, b"close ", name, b""),
        Request::Cs { query } => put_words(out, b"cs ", query, b""),
        Request::Ls { path } => put_words(out, b"ls ", path, b""),
        Request::Until { .. } => out.append(b"until;"),
        Request::Refresh => out.append(b"refresh;"),
        Request::Hear { name, .. } => put_words(out, b"hear ", name, b""),
        Request::Wait { name } => put_words(out, b"wait ", name, b""),
        Request::Unbound { name } => put_words(out, b"use ", name, b""),
        Request::Misuse { name } => put_words(out, b"misuse ", name, b""),
    }
}

fn put_open(out: &mut Octets, name: &Octets, path: &Octets, mode: Mode) -> Result<(), AllocError> {
    if mode == Mode::Read {
        out.append(b"read-only ")?;
    }
    put_words(out, b"open ", name, path.as_slice())
}

fn put_words(out: &mut Octets, word: &[u8], name: &Octets, rest: &[u8]) -> Result<(), AllocError> {
    out.append(word)?;
    out.append(name.as_slice())?;
    if !rest.is_empty() {
        out.append(b" ")?;
        out.append(rest)?;
    }
    out.append(b";")
}

// Plays.

// The reply by a letter to a request, which is put down and settled.
fn answer(
    alloc: Global,
    fids: &mut Names,
    out: &mut Octets,
    request: Request,
    letter: u8,
) -> Result<Reply, AllocError> {
    put(out, &request)?;
    let reply = reply(alloc, letter)?;
    let settled = settle(fids, request, &reply);
    if settled.is_err() {
        drop(reply);
        return Err(AllocError);
    }
    Ok(reply)
}

fn turn<T: Task>(
    alloc: Global,
    task: &mut T,
    fids: &mut Names,
    out: &mut Octets,
    letter: u8,
) -> Result<(), AllocError> {
    let Some(request) = task.next(alloc, fids)? else {
        return Ok(());
    };
    let reply = answer(alloc, fids, out, request, letter)?;
    task.told(alloc, reply)
}

fn turns<T: Task>(
    alloc: Global,
    task: &mut T,
    fids: &mut Names,
    out: &mut Octets,
    letters: &[u8],
) -> Result<(), AllocError> {
    for letter in letters {
        turn(alloc, task, fids, out, *letter)?;
    }
    if task.is_through() {
        out.append(b"end")?;
    }
    Ok(())
}

fn tells<T: Task>(
    alloc: Global,
    task: &mut T,
    fids: &mut Names,
    letters: &[u8],
    wanted: &[u8],
) -> Result<bool, AllocError> {
    let mut out = Octets::new(alloc);
    let told = turns(alloc, task, fids, &mut out, letters);
    let same = out.as_slice() == wanted;
    drop(out);
    told?;
    Ok(same)
}

// Whether these are the requests of a task whose replies have these letters.
fn plays<T: Task>(
    alloc: Global,
    task: &mut T,
    letters: &[u8],
    wanted: &[u8],
) -> Result<bool, AllocError> {
    let mut fids = names(alloc)?;
    let told = tells(alloc, task, &mut fids, letters, wanted);
    drop(fids);
    told
}

// What stands before the first separator, and behind it.
fn cut(text: &[u8], separator: u8) -> (&[u8], &[u8]) {
    match split_first(text, separator) {
        (first, Some(rest)) => (first, rest),
        (first, None) => (first, &[]),
    }
}

fn pair(alloc: Global, first: &[u8], last: &[u8]) -> Result<(Octets, Octets), AllocError> {
    let name = Octets::from_slice(alloc, first)?;
    let other = Octets::from_slice(alloc, last)?;
    Ok((name, other))
}

// A step of two words behind its own.
fn step_of_two(alloc: Global, word: &[u8], first: &[u8], last: &[u8]) -> Result<Step, AllocError> {
    let (name, other) = pair(alloc, first, last)?;
    match word {
        b"open" => Ok(Step::Open {
            name,
            path: other,
            mode: None,
        }),
        b"write" => Ok(Step::Write { name, text: other }),
        b"writex" => Ok(Step::Writex { name, text: other }),
        b"dial" => Ok(Step::Dial {
            name,
            address: other,
        }),
        b"announce" => Ok(Step::Announce {
            name,
            address: other,
        }),
        b"listen" => Ok(Step::Listen { name, from: other }),
        b"hwrite" => Ok(Step::Hwrite { name, bytes: other }),
        _ => Ok(Step::Accept { name, from: other }),
    }
}

// A step of one word behind its own.
fn step_of_one(alloc: Global, word: &[u8], first: &[u8]) -> Result<Step, AllocError> {
    let name = Octets::from_slice(alloc, first)?;
    match word {
        b"read" => Ok(Step::Read { name, count: 100 }),
        b"close" => Ok(Step::Close { name }),
        b"ls" => Ok(Step::Ls { path: name }),
        b"cs" => Ok(Step::Cs { query: name }),
        b"hangup" => Ok(Step::Hangup { name }),
        b"hread" => Ok(Step::Hread { name, count: 100 }),
        b"dns" => Ok(Step::Dns { name, times: 2 }),
        _ => Ok(Step::Reject { name }),
    }
}

// A step by its words.
fn step(alloc: Global, words: &[u8]) -> Result<Step, AllocError> {
    let (word, rest) = cut(words, b' ');
    let (first, last) = cut(rest, b' ');
    match word {
        b"until" => Ok(Step::Until { moment: 9 }),
        b"refresh" => Ok(Step::Refresh),
        b"read" | b"close" | b"ls" | b"cs" | b"hangup" | b"reject" | b"hread" | b"dns" => {
            step_of_one(alloc, word, first)
        }
        _ => step_of_two(alloc, word, first, last),
    }
}

fn task_of(alloc: Global, words: &[u8]) -> Result<StepTask, AllocError> {
    let step = step(alloc, words)?;
    let left = Left::new(alloc);
    let task = StepTask::new(alloc, &step, &left);
    drop(step);
    drop(left);
    task
}

// Whether the step of a row makes its requests.
fn is_met(alloc: Global, row: &[u8]) -> Result<bool, AllocError> {
    let (words, rest) = cut(row, b'|');
    let (letters, wanted) = cut(rest, b'|');
    let mut task = task_of(alloc, words)?;
    let met = plays(alloc, &mut task, letters, wanted);
    drop(task);
    met
}

// The names and the letters of a step that has a task of its own, and the requests wanted of it.
#[derive(Clone, Copy)]
struct Alone<'a> {
    name: &'a [u8],
    other: &'a [u8],
    letters: &'a [u8],
    wanted: &'a [u8],
}

fn dials(alloc: Global, row: Alone<'_>) -> Result<bool, AllocError> {
    let mut task = Dial::new(alloc, row.name, row.other)?;
    let met = plays(alloc, &mut task, row.letters, row.wanted);
    drop(task);
    met
}

fn announces(alloc: Global, row: Alone<'_>) -> Result<bool, AllocError> {
    let mut task = Announce::new(alloc, row.name, row.other)?;
    let met = plays(alloc, &mut task, row.letters, row.wanted);
    drop(task);
    met
}

fn listens(alloc: Global, row: Alone<'_>) -> Result<bool, AllocError> {
    let mut task = Beside::listen(alloc, row.name, row.other)?;
    let met = plays(alloc, &mut task, row.letters, row.wanted);
    drop(task);
    met
}

fn accepts(alloc: Global, row: Alone<'_>) -> Result<bool, AllocError> {
    let mut task = Beside::accept(alloc, row.name, row.other)?;
    let met = plays(alloc, &mut task, row.letters, row.wanted);
    drop(task);
    met
}

fn rejects(alloc: Global, row: Alone<'_>) -> Result<bool, AllocError> {
    let mut task = Reject::new(alloc, row.name)?;
    let met = plays(alloc, &mut task, row.letters, row.wanted);
    drop(task);
    met
}

// Whether the step's own task makes them.
fn is_met_alone(alloc: Global, row: &[u8]) -> Result<bool, AllocError> {
    let (words, rest) = cut(row, b'|');
    let (letters, wanted) = cut(rest, b'|');
    let (word, rest) = cut(words, b' ');
    let (name, other) = cut(rest, b' ');
    let row = Alone {
        name,
        other,
        letters,
        wanted,
    };
    match word {
        b"dial" => dials(alloc, row),
        b"announce" => announces(alloc, row),
        b"listen" => listens(alloc, row),
        b"accept" => accepts(alloc, row),
        _ => rejects(alloc, row),
    }
}

fn play_rows(rt: &impl Abort, alloc: Global, rows: &[u8], alone: bool) {
    for (i, row) in rows.split(|byte| *byte == b'\n').enumerate() {
        let met = is_met(alloc, row) == Ok(true);
        let met_alone = !alone || is_met_alone(alloc, row) == Ok(true);
        assert!(rt; met && met_alone, "row {i}");
    }
}

#[test]
fn steps_are_played(rt: HostRuntime) {
    play_rows(&rt, rt.alloc(), STEPS, false);
}

#[test]
fn long_steps_are_played(rt: HostRuntime) {
    play_rows(&rt, rt.alloc(), LONG_STEPS, true);
}

#[test]
fn calls_are_played(rt: HostRuntime) {
    play_rows(&rt, rt.alloc(), CALLS, false);
}

#[test]
fn addresses_are_completed(rt: HostRuntime) {
    let rows: [(&[u8], &[u8]); 6] = [
        (b"helix", b"net!helix!9fs"),
        (b"il!helix", b"il!helix!9fs"),
        (b"il!helix!echo", b"il!helix!echo"),
        (b"a!b!c!d", b"a!b!c!d"),
        (b"", b"net!!9fs"),
        (b"!", b"!!9fs"),
    ];
    let blank = [b'#'; 16];
    for (address, wanted) in rows {
        let mut out = blank;
        let length = netmkaddr(address, b"net", b"9fs", &mut out);
        assert!(rt; &out[..length] == wanted && &out[length..] == &blank[length..]);
    }
}
