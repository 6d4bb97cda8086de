//! What files hold.
use super::rows::{Deed, NOTHING, Row, Told, plays};
use net_base::{FileName, Proto};
use std::alloc::AllocError;
use std::test::*;

const BEGUN: &[Row] = &[
    (0, Deed::Begin(1), Told::Ok, NOTHING, false),
    (0, Deed::Bound(1, 9), Told::Ok, NOTHING, false),
];

const FILES: &[Row] = &[
    (
        0,
        Deed::File(1, FileName::Ctl, 9),
        Told::Bytes(b"3"),
        NOTHING,
        false,
    ),
    (
        0,
        Deed::File(1, FileName::Local, 99),
        Told::Bytes(b"0.0.0.0!9\n"),
        NOTHING,
        false,
    ),
    (
        0,
        Deed::File(1, FileName::Remote, 99),
        Told::Bytes(b"0.0.0.0!0\n"),
        NOTHING,
        false,
    ),
    (
        0,
        Deed::File(1, FileName::Status, 5),
        Told::Bytes(b"Close"),
        NOTHING,
        false,
    ),
    (
        0,
        Deed::File(1, FileName::Err, 9),
        Told::Bytes(b""),
        NOTHING,
        false,
    ),
    (
        0,
        Deed::File(1, FileName::Data, 9),
        Told::Bytes(b""),
        NOTHING,
        false,
    ),
    (
        0,
        Deed::File(1, FileName::Listen, 9),
        Told::Bytes(b""),
        NOTHING,
        false,
    ),
    (0, Deed::Close(1), Told::Ok, NOTHING, true),
    (0, Deed::Close(1), Told::Ok, NOTHING, false),
];

#[test]
fn an_unused_conversation_has_texts(rt: HostRuntime) -> Result<(), AllocError> {
    plays(&rt, rt.alloc(), Proto::Il, 3, &[BEGUN, FILES])
}
