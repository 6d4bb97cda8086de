//! What no clause says: that the calls succeed with ample memory, and what the standard streams do.
mod readers;
mod writers;

use net_base::Octets;
use outside::{
    FailList, Failed, MemSink, MemSource, Sink, Source, StdSink, StdSource, SureSink, SureSource,
    TakeError, read_to_end, write_all,
};
use std::alloc::{AllocError, Global};

/// How many bytes the text has.
const COUNT: usize = 10000;

/// Makes each byte differ from the one before.
fn vary(bytes: &mut [u8]) {
    for i in 0..bytes.len() {
        bytes[i] = (i % 251) as u8;
    }
}

fn text(alloc: Global) -> Result<Octets, AllocError> {
    let mut bytes = vec![in alloc; 0u8; COUNT]?;
    vary(&mut bytes);
    Ok(Octets::from_vec(bytes))
}

fn fails(alloc: Global, calls: &[u64]) -> Result<FailList, AllocError> {
    Ok(FailList::from_vec(Vec::from_slice(alloc, calls)?))
}

/// What reading to the end gives.
#[derive(Clone, Copy, PartialEq, Eq)]
enum Taken {
    /// So many last bytes of the text.
    Last(usize),
    Other,
    Fault(TakeError),
}

fn take_all<S: Source>(alloc: Global, source: &mut S, text: &[u8], limit: usize) -> Taken {
    match read_to_end(alloc, source, limit) {
        Ok(bytes) => {
            if text.ends_with(bytes.as_slice()) {
                Taken::Last(bytes.len())
            } else {
                Taken::Other
            }
        }
        Err(error) => Taken::Fault(error),
    }
}

/// What a source of the text gives under a limit.
fn taken_under(alloc: Global, text: &[u8], limit: usize) -> Result<Taken, AllocError> {
    let mut source = SureSource::new(Octets::from_slice(alloc, text)?);
    Ok(take_all(alloc, &mut source, text, limit))
}

/// What is taken under four limits.
fn taken_under_limits(alloc: Global, text: &[u8]) -> Result<[Taken; 4], AllocError> {
    Ok([
        taken_under(alloc, text, 10001)?,
        taken_under(alloc, text, 10000)?,
        taken_under(alloc, text, 9999)?,
        taken_under(alloc, text, 0)?,
    ])
}

const TOO_LARGE: Taken = Taken::Fault(TakeError::TooLarge);

#[test]
fn a_source_is_read_to_its_end(rt: HostRuntime) -> Result<(), AllocError> {
    let text = text(rt.alloc())?;
    let told = taken_under_limits(rt.alloc(), text.as_slice());
    let whole = Taken::Last(COUNT);
    assert!(rt; told == Ok([whole, whole, TOO_LARGE, TOO_LARGE]));
    Ok(())
}

/// What three readings of a source give whose second and fourth calls fail.
fn taken_in_parts(alloc: Global, text: &[u8]) -> Result<[Taken; 3], AllocError> {
    let calls = fails(alloc, &[2, 4])?;
    let mut source = MemSource::new(Octets::from_slice(alloc, text)?, calls);
    Ok([
        take_all(alloc, &mut source, text, COUNT),
        take_all(alloc, &mut source, text, COUNT),
        take_all(alloc, &mut source, text, COUNT),
    ])
}

const CALL_FAILED: Taken = Taken::Fault(TakeError::Failed);

#[test]
fn a_read_that_fails_in_between(rt: HostRuntime) -> Result<(), AllocError> {
    let text = text(rt.alloc())?;
    let told = taken_in_parts(rt.alloc(), text.as_slice());
    assert!(rt; told == Ok([CALL_FAILED, CALL_FAILED, Taken::Last(1808)]));
    Ok(())
}

/// What is written to a sink with room for five bytes whose second call fails.
fn written(sink: &mut MemSink) -> [Result<(), Failed>; 3] {
    [
        write_all(sink, b"abc"),
        write_all(sink, b"de"),
        write_all(sink, b"defg"),
    ]
}

#[test]
fn a_sink_whose_room_is_used_up(rt: HostRuntime) -> Result<(), AllocError> {
    let mut sink = MemSink::new(rt.alloc(), 5, fails(rt.alloc(), &[2])?)?;
    let told = written(&mut sink);
    let more = (sink.write(b""), sink.write(b"f"));
    assert!(rt; told == [Ok(()), Err(Failed), Err(Failed)]);
    assert!(rt; more == (Ok(0), Err(Failed)));
    assert!(rt; sink.held() == b"abcde".as_slice());
    Ok(())
}

#[test]
fn a_sink_that_never_fails(rt: HostRuntime) {
    assert!(rt; write_all(&mut SureSink::new(), b"abc") == Ok(()));
}

#[test]
fn standard_input(rt: HostRuntime) {
    let mut source = StdSource::new(rt.stdin());
    assert!(rt; take_all(rt.alloc(), &mut source, b"", 1000) == Taken::Last(0));
}

#[test]
fn standard_output(rt: HostRuntime) {
    assert!(rt; write_all(&mut StdSink::new(rt.stdout()), b"written\n") == Ok(()));
}
