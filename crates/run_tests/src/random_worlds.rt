//! Histories of random worlds, on some workers.
ghost use Rattle.std.specs.Prelude.{◌<◌, ◌≤◌};
ghost use Rattle.net_base.specs.World.{IsWorld};

use agenda::BookedRun;
use net_base::{History, World};
use netcheck::check;
use outside::OpenGate;
use rand_core::utils::NextWord;
use rand_pcg::Lcg64Xsh32;
use std::alloc::{AllocError, Global};
use std::sync::Wait;
use std::thread::Threads;
use transcript::text_of;
use world_file::read_world;

/// What becomes of frames.
pub(crate) const FATES: [&str; 6] = [
    "",
    "rates ether0 150 0 0\n",
    "rates ether0 100 200 200\n",
    "rates ether0 0 100 500\n",
    "fate ether0 2 lose\nfate ether0 4-5 twice\n",
    "fate ether0 1-3 later\n",
];

/// How scripts that call begin.
const CALLERS: [&str; 6] = [
    "script anna\nuntil 10\ndial d net!helix!9fs\nwrite d hello\nread d 8192\n",
    "script anna\nuntil 10\ndial d il!helix!9fs\nwrite d one\nwrite d two\n",
    "script anna\nuntil 700\ndial d il!helix!9fs\nread d 8192\n",
    "script helix\ndial d il!135.104.9.99!9fs\n",
    "script anna\nuntil 10\ndial d udp!helix!echo\nwrite d hi\nread d 3\n",
    "script anna\nopen c /net/udp/clone\nwrite c connect 135.104.9.31!7 5000\nopen d /net/udp/0/data\nwrite d hi\n",
];

/// How scripts that are called begin.
const LISTENERS: [&str; 5] = [
    "script helix\nannounce a net!*!9fs\nlisten c a\naccept d c\nread d 8192\nwrite d olleh\n",
    "script helix\nannounce a il!*!9fs\nlisten b a\nreject b\nlisten c a\naccept d c\n",
    "script helix\nannounce a udp!*!echo\nlisten c a\naccept d c\nread d 8192\nwrite d ih\n",
    "script helix\nopen c /net/il/clone\nwrite c announce 17008\nopen l /net/il/0/listen\nopen d /net/il/1/data\n",
    "script helix\nannounce a net!*!9fs\nuntil 20\ndial d net!anna!9fs\n",
];

/// How they go on.
const STEPS: [&str; 15] = [
    "write d hi\n",
    "read d 8192\n",
    "read d 3\n",
    "writex d 0001ff\n",
    "hangup d\n",
    "close d\n",
    "until 900\n",
    "cs net!helix!9fs\n",
    "ls /net/il\n",
    "open f /net/il/0/status\n",
    "read f 100\n",
    "close c\n",
    "close a\n",
    "listen g a\nread g 9\n",
    "dial h udp!helix!echo\nwrite h x\n",
];

/// How they go on where databases change.
const AGAIN: [&str; 4] = [
    "refresh\n",
    "refresh\ncs net!helix!9fs\n",
    "until 30\nrefresh\ndial k il!helix!9fs\nwrite k x\nwrite k y\n",
    "write d hi\nuntil 40\nwrite d ho\nuntil 60\nwrite d hu\n",
];

pub(crate) const HOSTS: &str = "host anna il udp\nif ether0 135.104.9.6 255.255.255.0\n\
host helix udp il\nif ether0 135.104.9.31 255.255.255.0\nstart 4294967290\n";

pub(crate) const DATABASE: &str =
    "ndb\nsys=anna ip=135.104.9.6\nsys=helix ip=135.104.9.31\nil=9fs port=17008\nudp=echo port=7\n";

/// How databases change.
const VERSIONS: [&str; 5] = [
    "",
    "%at 20\nsys=anna ip=135.104.9.6\nsys=helix ip=135.104.9.31\nil=9fs port=564\n",
    "%at 5\nsys=helix ip=135.104.9.99\nil=9fs port=17008\n\
%at 700\nsys=helix ip=135.104.9.31\nil=9fs port=17008\nudp=echo port=7\n",
    "%at 10\n%at 30\nsys=helix ip=135.104.9.31\nil=9fs port=17008\n",
    "%at 8\ndatabase= file=b\n%file b\nsys=helix ip=135.104.9.31\nil=9fs port=17008\n%at 9001\n",
];

/// One of these.
pub(crate) fn one_of<'a>(words: &mut Lcg64Xsh32, rows: &[&'a str]) -> &'a str {
    let row = words.next_word() as usize % rows.len().max(1);
    match rows.get(row) {
        Some(text) => *text,
        None => "",
    }
}

/// A step, or some where databases change.
fn put_step(words: &mut Lcg64Xsh32, changes: bool, text: &mut String) -> Result<(), AllocError> {
    if changes && words.next_word() % 2 == 0 {
        return text.push_str(one_of(words, &AGAIN));
    }
    text.push_str(one_of(words, &STEPS))
}

fn put_script(
    words: &mut Lcg64Xsh32,
    begins: &[&str],
    changes: bool,
    text: &mut String,
) -> Result<(), AllocError> {
    text.push_str(one_of(words, begins))?;
    for _ in 0..words.next_word() % 4 {
        put_step(words, changes, text)?;
    }
    Ok(())
}

fn put_scripts(words: &mut Lcg64Xsh32, changes: bool, text: &mut String) -> Result<(), AllocError> {
    put_script(words, &CALLERS, changes, text)?;
    put_script(words, &LISTENERS, changes, text)?;
    for _ in 0..words.next_word() % 2 {
        put_script(words, &CALLERS, changes, text)?;
    }
    Ok(())
}

/// Adds a world of two hosts on a medium: with fixed timers and one database, or with measured ones and versions.
fn put_world(words: &mut Lcg64Xsh32, changes: bool, text: &mut String) -> Result<(), AllocError> {
    let seed = words.next_word();
    let kind = if changes { 2 } else { 1 };
    write!(
        text,
        "networld {kind}\nend 9000\nseed {seed}\nmedium ether0 1500\n"
    )?;
    text.push_str(one_of(words, &FATES))?;
    text.push_str(HOSTS)?;
    put_scripts(words, changes, text)?;
    text.push_str(DATABASE)?;
    if changes {
        text.push_str(one_of(words, &VERSIONS))?;
    }
    Ok(())
}

/// A number of a text, and of what was told before.
fn told_of(before: u64, text: &[u8]) -> u64 {
    let mut told = before;
    for byte in text {
        told = told.wrapping_mul(31).wrapping_add(u64::from(*byte));
    }
    told
}

/// Whether the history of a run on so many workers keeps all rules, put together of its books.
fn is_legal<R: Threads + Wait + Sync>(
    rt: &R,
    alloc: Global,
    world: &World,
    workers: u32,
) -> Result<bool, AllocError>
    requires is { IsWorld world.now }
    requires some { 0 < workers }
    requires few { workers ≤ 16 }
{
    let Ok(run) = agenda::run_in_books(rt, alloc, world, workers, &OpenGate) else {
        return Err(AllocError);
    };
    let BookedRun {
        books,
        answered: _,
        end: _,
        lacks_threads: _,
    } = run;
    let lent = books.get(0).is_some() && books.get(books.len()).is_none();
    let history = books.into_history(alloc)?;
    let legal = check(alloc, world, &history).is_ok();
    drop(history);
    Ok(lent && legal)
}

/// Whether that holds on two, four and sixteen.
fn are_legal<R: Threads + Wait + Sync>(
    rt: &R,
    alloc: Global,
    world: &World,
) -> Result<bool, AllocError>
    requires { IsWorld world.now }
{
    let two = is_legal(rt, alloc, world, 2)?;
    let four = is_legal(rt, alloc, world, 4)?;
    let many = is_legal(rt, alloc, world, 16)?;
    Ok(two && four && many)
}

/// Whether a history keeps all rules, with what it tells.
fn is_told_legal(
    alloc: Global,
    world: &World,
    history: &History,
    before: u64,
) -> Result<(bool, u64), AllocError>
    requires { IsWorld world.now }
{
    let text = text_of(alloc, history)?;
    let told = told_of(before, text.as_slice());
    Ok((check(alloc, world, history).is_ok(), told))
}

/// Whether the histories of a world on one worker and on more keep all rules, with what that on one tells.
fn are_legal_in<R: Threads + Wait + Sync>(
    rt: &R,
    alloc: Global,
    world: &World,
    before: u64,
) -> Result<(bool, u64), AllocError>
    requires { IsWorld world.now }
{
    let Ok(run) = agenda::run(rt, alloc, world, 1, &OpenGate) else {
        return Err(AllocError);
    };
    let told = is_told_legal(alloc, world, &run.history, before);
    drop(run);
    let (alone, told) = told?;
    let others = are_legal(rt, alloc, world)?;
    Ok((alone && others, told))
}

/// Whether the histories of the world of a text are legal.
pub(crate) fn are_legal_of<R: Threads + Wait + Sync>(
    rt: &R,
    alloc: Global,
    text: &str,
    before: u64,
) -> Result<(bool, u64), AllocError> {
    let Ok(world) = read_world(alloc, text.as_bytes()) else {
        return Ok((false, before));
    };
    let legal = are_legal_in(rt, alloc, &world, before);
    drop(world);
    legal
}

/// Whether the histories of the next world are legal.
fn are_legal_next<R: Threads + Wait + Sync>(
    rt: &R,
    alloc: Global,
    words: &mut Lcg64Xsh32,
    changes: bool,
    before: u64,
) -> Result<(bool, u64), AllocError> {
    let mut text = String::new(alloc);
    put_world(words, changes, &mut text)?;
    are_legal_of(rt, alloc, &text, before)
}

/// What the histories of all worlds on one worker told, made once: their order is fixed.
const TOLD: u64 = 5_407_751_749_184_666_353;

#[test]
fn histories_of_random_worlds_are_legal(rt: HostRuntime) -> Result<(), AllocError> {
    let mut words = Lcg64Xsh32::new(30, 1);
    let mut told = 0;
    for i in 0..300_u32 {
        let (legal, next) = are_legal_next(&rt, rt.alloc(), &mut words, false, told)?;
        assert!(rt; legal, "world {i}");
        told = next;
    }
    assert!(rt; told == TOLD);
    Ok(())
}

/// The number for worlds with measured timers and versions.
const TOLD_OF_CHANGES: u64 = 14_064_421_479_661_945_035;

#[test]
fn histories_of_changed_worlds_are_legal(rt: HostRuntime) -> Result<(), AllocError> {
    let mut words = Lcg64Xsh32::new(45, 1);
    let mut told = 0;
    for i in 0..300_u32 {
        let (legal, next) = are_legal_next(&rt, rt.alloc(), &mut words, true, told)?;
        assert!(rt; legal, "world {i}");
        told = next;
    }
    assert!(rt; told == TOLD_OF_CHANGES);
    Ok(())
}
