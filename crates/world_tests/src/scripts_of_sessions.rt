//! Scripts of sessions of 9P.
use crate::messages::{ATTACH, OPEN, READ, VERSION, WALK, stream};
use net_base::{Mode, Step};
use session_script::{ExportError, script_of};
use std::test::*;

const CLUNK: [u8; 11] = [0x0b, 0, 0, 0, 0x78, 1, 0, 1, 0, 0, 0];

// Whether it is `open f1 /net/udp/clone rw`.
fn opens_clone(step: &Step) -> bool {
    match step {
        Step::Open {
            name,
            path,
            mode: Some(Mode::Both),
        } => {
            name.as_slice() == b"f1".as_slice() && path.as_slice() == b"/net/udp/clone".as_slice()
        }
        _ => false,
    }
}

// Whether it is `read f1 32`.
fn reads_number(step: &Step) -> bool {
    match step {
        Step::Read { name, count: 32 } => name.as_slice() == b"f1".as_slice(),
        _ => false,
    }
}

#[test]
fn a_session_is_a_script(rt: HostRuntime) -> Result<(), Fail> {
    let bytes = stream(
        &rt,
        &[&VERSION, &ATTACH, &WALK, &OPEN, &READ, &CLUNK, &CLUNK],
    )?;
    let script = script_of(rt.alloc(), &bytes)
        .ok()
        .ok_or("the bytes are messages")?;
    let steps = script.as_slice();
    assert_eq!(rt; steps.len(), 3);
    assert!(rt; opens_clone(&steps[0]));
    assert!(rt; reads_number(&steps[1]));
    assert!(rt; matches!(&steps[2], Step::Close { .. }));
    Ok(())
}

#[test]
fn other_bytes_are_none(rt: HostRuntime) -> Result<(), Fail> {
    assert!(rt;
        matches!(
            script_of(rt.alloc(), &[0x13, 0, 0, 0]),
            Err(ExportError::BadStream)
        )
    );
    let cut = stream(&rt, &[&VERSION, &ATTACH[..18]])?;
    assert!(rt; matches!(script_of(rt.alloc(), &cut), Err(ExportError::BadStream)));
    assert!(rt; script_of(rt.alloc(), &[]).is_ok());
    Ok(())
}
