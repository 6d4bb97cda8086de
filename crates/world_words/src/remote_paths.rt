//! Paths of remote files.
ghost use Rattle.std.specs.Prelude.{◌≡◌, ◌&&◌, length, nat_le};
ghost use Rattle.std.specs.List.{list_all};
ghost use Rattle.net_base.specs.Addresses.{parts_at};
ghost use Rattle.net_base.specs.Remotes as spec;

use words::split_first;

/// No path has more names behind `/net`.
const MOST_NAMES: usize = 16;

/// `/net`, and at most 16 names behind it, each after a slash.
pub fn is_remote_path(path: &[u8]) -> bool
    ensures { result ≡ spec.is_remote_path path.now }
{
    let (root, rest) = split_first(path, b'/');
    let Some(rest) = rest else {
        return false;
    };
    let (net, names) = split_first(rest, b'/');
    if !(root.is_empty() && net == b"net".as_slice()) {
        return false;
    }
    match names {
        Some(names) => are_few_names(names),
        None => true,
    }
}

/// At most 16 names, between slashes.
fn are_few_names(names: &[u8]) -> bool
    ensures { result ≡ (nat_le (length (parts_at 47 names.now)) 16 && list_all spec.is_remote_name
        (parts_at 47 names.now)) }
{
    let mut rest = names;
    for _i in 0..MOST_NAMES {
        let (name, behind) = split_first(rest, b'/');
        if !is_remote_name(name) {
            return false;
        }
        let Some(behind) = behind else {
            return true;
        };
        rest = behind;
    }
    false
}

fn is_remote_name(name: &[u8]) -> bool
    ensures { result ≡ spec.is_remote_name name.now }
{
    1 <= name.len() && name.len() <= 27
}
