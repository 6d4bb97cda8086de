//! Worlds with sessions as they are read.
use std::test::*;
use world_file::{WorldError, read_sessions};

const HEAD: &str =
    "networld 1\nend 1000\nseed 1\nmedium ether0 1500\nhost anna il udp\nif ether0 10.0.1.1 255.255.255.0\n";

// What comes of these lines behind the lines of a host: the line and the cause, or 0 and the number of sessions.
fn outcome(rt: &HostRuntime, lines: &str) -> Result<(u64, u64), Fail> {
    let mut text = Vec::new(rt.alloc());
    text.extend_from_slice(HEAD.as_bytes())?;
    text.extend_from_slice(lines.as_bytes())?;
    match read_sessions(rt.alloc(), text.as_slice()) {
        Ok(told) => Ok((0, told.sessions.len() as u64)),
        Err(WorldError::Bad { line, cause }) => Ok((line, u64::from(cause))),
        Err(WorldError::Memory) => Ok((0, 0)),
    }
}

#[test]
fn sessions_are_read(rt: HostRuntime) -> Result<(), Fail> {
    let version = "feed 1300000064ffff182000000600395032303030\n";
    assert_eq!(rt; outcome(&rt, "session anna\nndb\nsys=anna\n")?, (0, 1));
    let mut whole = String::new(rt.alloc());
    whole.push_str("session anna\n# a comment\n")?;
    whole.push_str(version)?;
    whole.push_str("feed -\nscript anna\nuntil 5\nsession anna\nndb\nsys=anna\n")?;
    assert_eq!(rt; outcome(&rt, whole.as_str())?, (0, 2));
    assert_eq!(rt;
        outcome(&rt, "session anna\nfeed 13000000\nndb\nsys=anna\n")?,
        (7, 51)
    );
    assert_eq!(rt;
        outcome(&rt, "session anna\nfeed 13000000\nscript nobody\n")?,
        (7, 51)
    );
    assert_eq!(rt;
        outcome(&rt, "session anna\nfeed 13\nfeed zz\nndb\n")?,
        (9, 13)
    );
    assert_eq!(rt; outcome(&rt, "session anna\nfeed 13\n")?, (7, 51));
    assert_eq!(rt; outcome(&rt, "session anna\n")?, (8, 19));
    assert_eq!(rt; outcome(&rt, "session anna\nuntil 5\n")?, (8, 18));
    assert_eq!(rt; outcome(&rt, "session anna\nuntil x\n")?, (8, 13));
    assert_eq!(rt; outcome(&rt, "script anna\nfeed -\n")?, (8, 18));
    assert_eq!(rt; outcome(&rt, "feed\n")?, (7, 13));
    assert_eq!(rt; outcome(&rt, "session nobody\n")?, (7, 15));
    assert_eq!(rt; outcome(&rt, "session anna anna\n")?, (7, 13));
    assert_eq!(rt; outcome(&rt, "session\n")?, (7, 13));
    Ok(())
}
