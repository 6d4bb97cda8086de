//! One machine that counts behind its lock, by two threads and past a gate that watches.
ghost use Rattle.std.specs.Prelude.{◌≡◌, ℕ, ◌+◌, ◌<◌, ◌≤◌, List, [], ◌∷◌, length};
ghost use Rattle.net_base.specs.declared.noted.Noted.{Noted};
ghost use Rattle.net_base.specs.declared.actor.ActorName.TheVariants.{Desk as DeskName, Clock as ClockName};
ghost use Rattle.net_base.specs.Stamped.{moment_noted};
ghost use Rattle.journal.specs.Tokens.{HoldsPass};

mod counter;
mod gates;

use counter::Counter;
use gates::Watch;
use journal::{Journal, Naming, Opened, Pass};
use locked::*;
use net_base::{ActorList, ActorName, Entry, Event, Reply, With, Work, same_actor};
use outside::{Gate, OpenGate};
use std::alloc::{AllocError, Global};
use std::marker::Brand;
use std::process::Abort;
use std::sync::atomic::{AtomicU64, Ordering};
use std::sync::{Mutex, Wait};
use std::test::*;
use std::thread::{Threads, join};

// What an act answered: the stamp and the count, or the front.
#[derive(Clone, Copy, PartialEq, Eq)]
enum Told {
    Counted(u64, u32),
    NotReady(u64),
    Nothing,
}

fn told_of(stamp: u64, reply: &Reply) -> Told {
    match reply {
        Reply::Count { count } => Told::Counted(stamp, *count),
        _ => Told::Nothing,
    }
}

fn told_by(answer: &Answer) -> Told {
    match answer {
        Answer::Done { stamp, outcome } => told_of(*stamp, &outcome.reply),
        Answer::NotReady { front } => Told::NotReady(*front),
        Answer::Memory => Told::Nothing,
    }
}

fn heard(answer: Answer) -> Told {
    let told = told_by(&answer);
    drop(answer);
    told
}

// What a caller asks for at moment 0, and cites nothing for.
fn asked_by(caller: u32, work: &Work) -> Asked<'_>
    ensures caller { result.caller ≡ caller }
    ensures now { result.now ≡ 0 }
{
    Asked {
        caller,
        now: 0,
        work,
        cites: None,
    }
}

// Acts at a desk at moment 0, by a caller that has made at most so many entries.
fn act_once<J: Naming, R: Wait, G: Gate>(
    rt: &R,
    journal: &Journal<J>,
    gate: &G,
    desk: &Locked<J, Counter>,
    mut pass: Pass<J>,
    made: u32,
    asked: Asked<'_>,
) -> (Told, Pass<J>)
    requires held { (es : List (ℕ × Noted)) × HoldsPass pass asked.caller es × (length es ≤ made) }
    requires few { made < 100 }
    requires moment { moment_noted pass.seen ≡ 0 }
    requires now { asked.now ≡ 0 }
    requires actor { desk.now.actor ≡ DeskName 0 }
    ensures held { (es : List (ℕ × Noted)) × HoldsPass result.1 asked.entry.caller es × (length es ≤ made + 1) }
    ensures moment { moment_noted result.1.seen ≡ 0 }
{
    let answer = desk.act(rt, journal, gate, &mut pass, asked);
    (heard(answer), pass)
}

// The first act of a caller who has seen nothing.
fn act_first<J: Naming, R: Wait>(
    rt: &R,
    journal: &Journal<J>,
    desk: &Locked<J, Counter>,
    pass: Pass<J>,
    caller: u32,
    work: &Work,
) -> (Told, Pass<J>)
    requires held { HoldsPass pass caller [] }
    requires seen { pass.seen ≡ [] }
    requires actor { desk.now.actor ≡ DeskName 0 }
    ensures { (es : List (ℕ × Noted)) × HoldsPass result.1 caller es × (length es ≤ 1) }
{
    let asked = asked_by(caller, work);
    act_once(rt, journal, &OpenGate, desk, pass, 0, asked)
}

fn take() -> Work {
    Work {
        event: Event::Take,
        with: With::Nothing,
    }
}

// Ready once so many were counted.
fn await_count(generation: u64) -> Work {
    Work {
        event: Event::Await { generation },
        with: With::Nothing,
    }
}

fn moves() -> Work {
    Work {
        event: Event::Move { moment: 7 },
        with: With::Nothing,
    }
}

// Whether the entries are those of two callers, in the order in which these were told of them.
fn are_counted(history: &[Entry], a: Told, b: Told) -> bool {
    if history.len() != 2 {
        return false;
    }
    let (first, second) = (&history[0], &history[1]);
    let (one, two) = if first.caller == 0 { (a, b) } else { (b, a) };
    first.moment == 0
        && second.moment == 0
        && first.caller != second.caller
        && matches!(&first.reply, Reply::Count { count: 1 })
        && matches!(&second.reply, Reply::Count { count: 2 })
        && one == Told::Counted(0, 1)
        && two == Told::Counted(1, 2)
}

fn counted_by_two<J: Naming + Send + Sync, R: Threads + Wait + Abort + Sync>(
    rt: &R,
    alloc: Global,
    opened: Opened,
) -> Result<(), AllocError>
    requires name { opened ≡ J.run }
    requires callers { J.run.roster.callers ≡ 2 }
    requires actors { J.run.roster.actors ≡ DeskName 0 ∷ [] }
{
    let (journal, mut one, mut books) = opened.named::<J>(alloc)?;
    let two = journal.split_pass(&mut one, 1);
    let Some(book) = books.pop() else {
        panic!(rt; "one book")
    };
    let desk = Locked::new(Counter { count: 0 }, book);
    let work = take();
    let ((a, mut one), (b, two)) = join(
        rt,
        || -> (Told, Pass<J>)
            requires { HoldsPass one 0 [] × (one.seen ≡ []) × (desk.actor ≡ DeskName 0) }
            ensures { (es : List (ℕ × Noted)) × HoldsPass result.1 0 es × (length es ≤ 1) }
        { act_first(rt, &journal, &desk, one, 0, &work) },
        || -> (Told, Pass<J>)
            requires { HoldsPass two 1 [] × (two.seen ≡ []) × (desk.actor ≡ DeskName 0) }
            ensures { (es : List (ℕ × Noted)) × HoldsPass result.1 1 es × (length es ≤ 1) }
        { act_first(rt, &journal, &desk, two, 1, &work) },
    );
    drop(work);
    journal.meet(&mut one, two);
    assert!(rt; journal.look(&mut one) == 2);
    assert!(rt; one.room(0) == 131071);
    assert!(rt; one.room(1) == 131071);
    let (machine, book) = desk.into_parts();
    assert!(rt; machine.count == 2);
    if !same_actor(book.actor(), ActorName::Desk(0)) {
        panic!(rt; "another actor's book");
    }
    let mut books = Vec::new(alloc);
    books.push(book)?;
    let history = journal.close(alloc, one, books)?.into_vec();
    assert!(rt; are_counted(&history, a, b));
    drop(history);
    Ok(())
}

#[test]
fn two_threads_count(rt: HostRuntime) -> Result<(), AllocError> {
    let mut names = Vec::new(rt.alloc());
    names.push(ActorName::Desk(0))?;
    let opened = Opened::new(rt.alloc(), 2, &ActorList::from_vec(names))?;
    counted_by_two::<Brand, _>(&rt, rt.alloc(), opened)
}

// Acts at a desk, once where it isn't ready, and then at the clock. At each call of the gate, a pass without numbers looks at
// the journal: each entry is recorded between two calls.
fn watched<J: Naming, R: Wait + Abort>(
    rt: &R,
    alloc: Global,
    opened: Opened,
) -> Result<(), AllocError>
    requires name { opened ≡ J.run }
    requires callers { J.run.roster.callers ≡ 1 }
    requires actors { J.run.roster.actors ≡ DeskName 0 ∷ ClockName ∷ [] }
{
    let (journal, mut idle, mut books) = opened.named::<J>(alloc)?;
    let pass = journal.split_pass(&mut idle, 0);
    let gate = Watch {
        rt,
        journal: &journal,
        pass: Mutex::new(idle),
        calls: AtomicU64::new(0),
    };
    let (Some(second), Some(first)) = (books.pop(), books.pop()) else {
        panic!(rt; "two books")
    };
    let desk = Locked::new(Counter { count: 0 }, first);
    let clock = Locked::new(Counter { count: 0 }, second);
    let (waits, takes, late, work) = (await_count(1), take(), await_count(3), moves());
    let (told, pass) = act_once(rt, &journal, &gate, &desk, pass, 0, asked_by(0, &waits));
    assert!(rt; told == Told::NotReady(0));
    assert!(rt; gate.calls.load(Ordering::SeqCst) == 0);
    let (told, pass) = act_once(rt, &journal, &gate, &desk, pass, 1, asked_by(0, &takes));
    assert!(rt; told == Told::Counted(0, 1));
    assert!(rt; gate.calls.load(Ordering::SeqCst) == 1021);
    let (told, mut pass) = act_once(rt, &journal, &gate, &desk, pass, 2, asked_by(0, &waits));
    assert!(rt; told == Told::Counted(1, 2));
    let moved = clock.act(rt, &journal, &gate, &mut pass, asked_by(0, &work));
    let told = heard(moved);
    assert!(rt; told == Told::Counted(2, 1));
    assert!(rt; gate.calls.load(Ordering::SeqCst) == 102111223243);
    let seen = desk.view(rt, &journal, &mut pass, 7, Some(&late));
    assert!(rt; !seen.ready && seen.due.is_none() && seen.front == 3);
    let seen = desk.view(rt, &journal, &mut pass, 7, Some(&work));
    assert!(rt; seen.ready && seen.front == 3);
    let seen = clock.view(rt, &journal, &mut pass, 7, None);
    assert!(rt; !seen.ready && seen.front == 3);
    assert!(rt; gate.calls.load(Ordering::SeqCst) == 102111223243);
    drop(waits);
    drop(takes);
    drop(late);
    drop(work);
    Ok(())
}

#[test]
fn the_gate_is_called_round_each_record(rt: HostRuntime) -> Result<(), AllocError> {
    let mut names = Vec::new(rt.alloc());
    names.push(ActorName::Desk(0))?;
    names.push(ActorName::Clock)?;
    let opened = Opened::new(rt.alloc(), 1, &ActorList::from_vec(names))?;
    watched::<Brand, _>(&rt, rt.alloc(), opened)
}
