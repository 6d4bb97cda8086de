//! The words of explanations, and what is kept of streams.
use crate::asked::Program;
use crate::explaining::{Call, explain};
use crate::kept::KeptSource;
use crate::refusals::RefusedNote;
use crate::seen::{RunEnd, SeenSink, run_end_in};
use net_base::{Octets, Sequence};
use outside::{MemSink, MemSource, Sink, Source};
use std::alloc::{AllocError, Global};
use std::test::Fail;

/// A program, its words, an input, a status, what was written, and the explanation.
type Row = (
    Program,
    &'static [&'static str],
    &'static str,
    u8,
    &'static str,
    &'static str,
);

const ROWS: &[Row] = &[
    (
        Program::Netsh,
        &["run", "1"],
        "networld 1\nend 60000\nsead 7\n",
        2,
        "! line 3 cause 12\n",
        "line 3: unknown word: \"sead\" (cause 12); one of these may stand here: networld, end, seed, medium",
    ),
    (
        Program::Netsh,
        &["run", "1"],
        "networld 1\nend 0",
        2,
        "! line 2 cause 13\n",
        "line 2: wrong argument: \"0\" (cause 13); M must be a number from 1 to 1000000000 without zeros in front; the form is: end M",
    ),
    (
        Program::Netsh,
        &["cs", "anna", "net!helix!nosuch"],
        "sys=anna\n",
        5,
        "! 4 no service\n",
        "cs: no service (4): the database has no port for \"nosuch\"; add a line il=nosuch port=N, or udp=nosuch port=N",
    ),
    (
        Program::Netview,
        &["words"],
        "networld 1\n%history\n0 0 0 clock - move 1 = ok\n",
        5,
        "! stamp 0 rule 6\n",
        "line 3: entry 0: the clock must not move yet, or moves to another moment (rule 6); the entry is \"0 0 0 clock - move 1 = ok\"",
    ),
    (Program::Netsh, &["run", "1"], "", 8, "", "out of memory"),
];

// A source of these bytes, which fails in no call.
fn source_of(alloc: Global, text: &str) -> Result<MemSource, AllocError> {
    let bytes = Octets::from_slice(alloc, text.as_bytes())?;
    Ok(MemSource::new(bytes, Sequence::new(alloc)))
}

// A sink with this room that saw a text.
fn seen_sink(alloc: Global, room: usize, text: &str) -> Result<SeenSink<MemSink>, AllocError> {
    let sink = MemSink::new(alloc, room, Sequence::new(alloc))?;
    let mut sink = SeenSink::new(alloc, sink);
    let _ = sink.write(text.as_bytes());
    Ok(sink)
}

fn words_of(alloc: Global, words: &[&str]) -> Result<Vec<String>, AllocError> {
    let mut all = Vec::new(alloc);
    for word in words {
        all.push(String::from_str(alloc, word)?)?;
    }
    Ok(all)
}

fn explained(alloc: Global, row: Row) -> Result<String, AllocError> {
    let (program, words, input, status, written, _) = row;
    let words = words_of(alloc, words)?;
    let mut source = KeptSource::new(alloc, source_of(alloc, input)?);
    let mut piece = [0u8; 64];
    for _ in 0..input.len() {
        let _ = source.read(&mut piece[..]);
    }
    let sink = seen_sink(alloc, 200, written)?;
    let explanation = explain(Call {
        program,
        words: &words,
        kept: source.kept(),
        seen: sink.seen(),
        status,
        expected: None,
    });
    format!(in alloc; "{explanation}")
}

#[test]
fn calls_are_explained(rt: HostRuntime) -> Result<(), Fail> {
    for (i, row) in ROWS.iter().enumerate() {
        let told = explained(rt.alloc(), *row)?;
        assert!(rt; told.as_str() == row.5, "row {i}");
    }
    Ok(())
}

#[test]
fn an_end_is_found_before_answers(rt: HostRuntime) -> Result<(), Fail> {
    let text = "x\nsteps 1 of 2\nmessages 0 0\nbytes 0 0\nend stopped 60\n9p 0 00\n";
    let end = RunEnd {
        answered: 1,
        steps: 2,
        moment: 60,
    };
    assert!(rt; run_end_in(text.as_bytes()) == Some(end));
    assert!(rt; run_end_in(b"steps 1 of 2") == None);
    Ok(())
}

#[test]
fn refusals_are_counted(rt: HostRuntime) -> Result<(), Fail> {
    let text =
        "0 0 0 desk.0 - cs 6e = csrefused 3\n1 0 0 desk.0 - use d = badfid\n2 0 1 medium.0 - take = copy 1\n";
    let sink = seen_sink(rt.alloc(), 200, text)?;
    let Some(refused) = sink.seen().refusals.refused() else {
        return Err(Fail::new("none"));
    };
    let told = format!(in rt.alloc(); "{}", RefusedNote(refused))?;
    assert!(rt;
        told.as_str()
            == "2 events of the scripts were refused; the first is \"0 0 0 desk.0 - cs 6e = csrefused 3\" (no host: the database has no address for it); netview steps shows each step"
    );
    assert!(rt; sink.seen().refusals.lost().is_none());
    Ok(())
}
