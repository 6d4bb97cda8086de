//! Notes on small bundles.
use bundle_lint::{LintError, lint};
use std::alloc::Global;
use std::process::Abort;

const GOOD: &[u8] = b"database= file=/lib/ndb/local
 file=/lib/ndb/common
ipnet=a ip=10.0.0.0 ipmask=255.0.0.0
 auth=x
sys=x sys=x ip=10.0.0.1
%file /lib/ndb/common
il=9fs port=17008
";

const MASKS: &[u8] = b"ipnet=a ip=10.0.0.0 ipmask=/8
sys=x

  ip=11.0.0.1
";

const OF_MASKS: &[u8] =
    b"1 ipmask=/8 is no mask: cs takes the class of the address in its place; write ipmask=255.0.0.0
4 11.0.0.1 is on no network: cs finds no value such as $auth by this address; write a tuple with ipnet, ip and ipmask
";

const FILES: &[u8] = b"database= file=/lib/ndb/local file=/a
%file /b
";

const OF_FILES: &[u8] =
    b"1 there is no file /a: cs reads nothing for it; write its text behind a line %file /a
2 no database names the file /b: cs does not read it; write file=/b in the first tuple with database
";

const NAMES: &[u8] = b"# names
ipnet=a ip=10.0.0.0
sys=x ip=10.0.0.1

sys=\"x\" ip=10.0.0.2
tcp=http port=80 prot=80
";

const OF_NAMES: &[u8] =
    b"5 sys=x is on line 3, too: cs gives the addresses of both tuples; write another name, or one tuple
6 prot is no known attribute: nothing asks for it; write port
";

// Whether these are the notes on a text.
fn notes(alloc: Global, text: &[u8], wanted: &[u8]) -> Result<bool, LintError> {
    let told = lint(alloc, text)?;
    Ok(told.as_slice() == wanted)
}

#[test]
fn each_kind_is_told(rt: HostRuntime) {
    let alloc = rt.alloc();
    let good = notes(alloc, GOOD, b"");
    assert_eq!(rt; good, Ok(true));
    let masks = notes(alloc, MASKS, OF_MASKS);
    assert_eq!(rt; masks, Ok(true));
    let files = notes(alloc, FILES, OF_FILES);
    assert_eq!(rt; files, Ok(true));
    let names = notes(alloc, NAMES, OF_NAMES);
    assert_eq!(rt; names, Ok(true));
}

#[test]
fn a_bad_line_is_told(rt: HostRuntime) {
    let told = notes(rt.alloc(), b"sys=x\n=y\n", b"");
    assert_eq!(rt; told, Err(LintError::Bad { line: 2, cause: 3 }));
}
