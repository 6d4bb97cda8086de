//! Texts that are controls, and texts that are none.
ghost use Rattle.std.specs.Prelude.{◌≡◌, true};
ghost use Rattle.net_base.specs.ControlWords.{control_in_range};

use ctl_words::{CtlError, read_ctl, write_ctl};
use net_base::{Addr, Ctl};
use std::process::Abort;
use std::test::*;

const HELIX: Addr = Addr {
    ip: 0x8768_091f,
    port: 17008,
};

const CONTROLS: &[(&[u8], Ctl)] = &[
    (
        b"connect 135.104.9.31!17008",
        Ctl::Connect {
            remote: HELIX,
            lport: None,
        },
    ),
    (
        b"connect 135.104.9.31!17008 7\n",
        Ctl::Connect {
            remote: HELIX,
            lport: Some(7),
        },
    ),
    (
        b"announce *!17008",
        Ctl::Announce {
            ip: None,
            port: Some(17008),
        },
    ),
    (
        b"announce 17008",
        Ctl::Announce {
            ip: None,
            port: Some(17008),
        },
    ),
    (
        b"announce *",
        Ctl::Announce {
            ip: None,
            port: None,
        },
    ),
    (
        b"announce 135.104.9.31!17008",
        Ctl::Announce {
            ip: Some(HELIX.ip),
            port: Some(17008),
        },
    ),
    (b"bind 65535", Ctl::Bind { port: 65535 }),
    (b"hangup\n", Ctl::Hangup),
    (b"ttl 255", Ctl::Ttl { n: 255 }),
    (b"tos 0", Ctl::Tos { n: 0 }),
    (
        b"connect 0.0.0.0!1",
        Ctl::Connect {
            remote: Addr { ip: 0, port: 1 },
            lport: None,
        },
    ),
];

#[test]
fn controls_are_read(rt: HostRuntime) {
    for (i, (text, control)) in CONTROLS.iter().enumerate() {
        assert!(rt; read_ctl(text) == Ok(*control), "row {i}");
    }
}

const OTHER_WORDS: &[&[u8]] = &[b"", b"connec 1", b"Hangup", b" hangup", b"accept 1"];

const OTHER_ARGUMENTS: &[&[u8]] = &[
    b"hangup ",
    b"hangup\n\n",
    b"connect",
    b"connect *!1",
    b"connect 1.2.3.4!0",
    b"connect 1.2.3.4!65536",
    b"connect 1.2.3.256!1",
    b"connect 01.2.3.4!1",
    b"connect 1.2.3.4!1 ",
    b"connect 1.2.3.4!1 2 3",
    b"announce *!0",
    b"announce 99999999999999999999999999999",
    b"bind +1",
    b"ttl 0",
    b"tos 256",
];

fn are_refused(rt: &impl Abort, texts: &[&[u8]], error: CtlError) {
    for (i, text) in texts.iter().enumerate() {
        assert!(rt; read_ctl(text) == Err(error), "text {i}");
    }
}

#[test]
fn other_texts_are_refused(rt: HostRuntime) {
    are_refused(&rt, OTHER_WORDS, CtlError::BadWord);
    are_refused(&rt, OTHER_ARGUMENTS, CtlError::BadArgument);
    let numbers = (CtlError::BadWord.number(), CtlError::BadArgument.number());
    assert!(rt; numbers == (1, 2));
}

// Whether what is written of a control reads so.
fn is_read_back(control: Ctl) -> bool
    requires { control_in_range control ≡ true }
{
    let mut out = [b'!'; 48];
    let len = write_ctl(&control, &mut out);
    read_ctl(&out[..len]) == Ok(control)
}

fn connects_are_read_back() -> bool {
    is_read_back(Ctl::Connect {
        remote: HELIX,
        lport: None,
    }) && is_read_back(Ctl::Connect {
        remote: HELIX,
        lport: Some(7),
    })
}

fn announces_are_read_back() -> bool {
    is_read_back(Ctl::Announce {
        ip: None,
        port: None,
    }) && is_read_back(Ctl::Announce {
        ip: None,
        port: Some(17008),
    }) && is_read_back(Ctl::Announce {
        ip: Some(HELIX.ip),
        port: Some(1),
    })
}

fn others_are_read_back() -> bool {
    is_read_back(Ctl::Bind { port: 65535 })
        && is_read_back(Ctl::Hangup)
        && is_read_back(Ctl::Ttl { n: 255 })
        && is_read_back(Ctl::Tos { n: 0 })
}

#[test]
fn written_controls_are_read_back(rt: HostRuntime) {
    assert!(rt; connects_are_read_back());
    assert!(rt; announces_are_read_back());
    assert!(rt; others_are_read_back());
}

#[test]
fn the_longest_text_fits(rt: HostRuntime) {
    let control = Ctl::Connect {
        remote: Addr {
            ip: 0xffff_ffff,
            port: 65535,
        },
        lport: Some(65535),
    };
    let mut out = [b'!'; 48];
    let len = write_ctl(&control, &mut out);
    let wanted = b"connect 255.255.255.255!65535 65535";
    assert!(rt; &out[..len] == wanted.as_slice());
}
