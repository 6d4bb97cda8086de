//! Histories of random worlds whose calls carry files, on some workers.
use crate::random_worlds::{DATABASE, FATES, HOSTS, are_legal_of, one_of};
use rand_core::utils::NextWord;
use rand_pcg::Lcg64Xsh32;
use std::alloc::{AllocError, Global};
use std::sync::Wait;
use std::thread::Threads;

/// What an importing script opens first, at a host whose own call is `/net/il/1`.
const OPENS: [&str; 6] = [
    "ropen f d /net/udp/clone rw\nrread f 32\nrwrite f connect 135.104.9.6!7 5000\n",
    "ropen f d /net/cs rw\nrwrite f net!helix!9fs\nrread f 488\n",
    "ropen f d /net/il/1/status r\nrread f 100\n",
    "ropen f d /net/udp/nosuch r\n",
    "ropen f d /net/udp/0/data rw\n",
    "writex d 00\nread d 8192\n",
];

/// How it goes on.
const STEPS: [&str; 8] = [
    "ropen g d /net/udp/0/data rw\nrwrite g hello\n",
    "rread f 3\n",
    "rwrite f ttl 9\n",
    "rclose f\n",
    "import d\n",
    "open f /net/udp/clone\n",
    "until 900\n",
    "close d\n",
];

/// How the exporting script ends.
const ENDS: [&str; 4] = [
    "export d\n",
    "export d\nclose d\nlisten c a\n",
    "export c\nexport d\nexport d\n",
    "read d 8192\nexport d\n",
];

/// A world of two importing scripts and two exporting ones.
fn put_world(words: &mut Lcg64Xsh32, text: &mut String) -> Result<(), AllocError> {
    let seed = words.next_word();
    write!(
        text,
        "networld 1\nend 9000\nseed {seed}\nmedium ether0 1500\n"
    )?;
    text.push_str(one_of(words, &FATES))?;
    text.push_str(HOSTS)?;
    for port in 600..602_u32 {
        put_importer(words, port, text)?;
        write!(
            text,
            "script helix\nannounce a il!*!{port}\nlisten c a\naccept d c\n"
        )?;
        text.push_str(one_of(words, &ENDS))?;
    }
    text.push_str(DATABASE)
}

fn put_importer(words: &mut Lcg64Xsh32, port: u32, text: &mut String) -> Result<(), AllocError> {
    write!(
        text,
        "script anna\nuntil 10\ndial d il!helix!{port}\nimport d\n"
    )?;
    text.push_str(one_of(words, &OPENS))?;
    for _ in 0..words.next_word() % 5 {
        text.push_str(one_of(words, &STEPS))?;
    }
    Ok(())
}

/// Whether the histories of the next world keep all rules.
fn are_legal_next<R: Threads + Wait + Sync>(
    rt: &R,
    alloc: Global,
    words: &mut Lcg64Xsh32,
) -> Result<bool, AllocError> {
    let mut text = String::new(alloc);
    put_world(words, &mut text)?;
    let (legal, _) = are_legal_of(rt, alloc, &text, 0)?;
    Ok(legal)
}

#[test]
fn histories_of_imports_are_legal(rt: HostRuntime) -> Result<(), AllocError> {
    let mut words = Lcg64Xsh32::new(48, 1);
    for i in 0..30_u32 {
        let legal = are_legal_next(&rt, rt.alloc(), &mut words)?;
        assert!(rt; legal, "world {i}");
    }
    Ok(())
}
