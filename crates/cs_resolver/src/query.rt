//! The query, and which queries are answered.
ghost use Rattle.std.specs.Prelude.{◌≡◌, ◌==◌, IfOk, MatchOption, None, Some};
ghost use Rattle.std.specs.List.{list_any};
ghost use Rattle.std.specs.Char.{is_ascii_alphabetic};
ghost use Rattle.net_base.specs.Cs as spec;
ghost use Rattle.cs_resolver.specs.Targets.{is_net_named};

use net_base::Proto;
use std::alloc::{AllocError, Global};
use words::{proto_name, split_first};

/// The three parts of NET!HOST!SERVICE.
#[derive(Clone, Copy)]
pub struct Query<'a> {
    pub net: &'a [u8],
    pub host: &'a [u8],
    pub service: &'a [u8],
}

/// The query of a text, which has three parts that are not empty.
pub fn read_query(text: &[u8]) -> Option<Query<'_>>
    ensures { MatchOption result (spec.read_query text.now ≡ None)
        (λ query. spec.read_query text.now
        ≡ Some (record { net = query.net.now; host = query.host.now; service = query.service.now })) }
{
    let (net, rest) = split_first(text, b'!');
    let (host, rest) = split_first(rest?, b'!');
    let (service, rest) = split_first(rest?, b'!');
    if let Some(_) = rest {
        return None;
    }
    if net.is_empty() || host.is_empty() || service.is_empty() {
        return None;
    }
    Some(Query { net, host, service })
}

/// Whether the host is any address of the asker's, `*`.
pub fn is_any(host: &[u8]) -> bool
    ensures { result ≡ spec.is_any host.now }
{
    host == b"*".as_slice()
}

/// Whether the word has digits and dots alone.
pub fn is_numeric(word: &[u8]) -> bool
    ensures { result ≡ spec.is_numeric word.now }
{
    word.iter()
        .all(|byte| byte.is_ascii_digit() || *byte == b'.')
}

/// Whether the word has a letter.
fn has_letter(word: &[u8]) -> bool
    ensures { result ≡ list_any is_ascii_alphabetic word.now }
{
    word.iter().any(|byte| byte.is_ascii_alphabetic())
}

/// Whether the word has a dot.
fn has_dot(word: &[u8]) -> bool
    ensures { result ≡ list_any (λ byte. byte == 46) word.now }
{
    word.iter().any(|byte| *byte == b'.')
}

/// Whether the word has a letter and a dot.
pub fn is_domain(word: &[u8]) -> bool
    ensures { result ≡ spec.is_domain word.now }
{
    has_letter(word) && has_dot(word)
}

/// Whether the word is an attribute to look up.
pub fn is_attribute(word: &[u8]) -> bool
    ensures { result ≡ spec.is_attribute word.now }
{
    match word {
        [first, ..] => *first == b'$',
        [] => false,
    }
}

/// The attribute by which a word that is no address is searched.
pub fn name_attr(word: &[u8]) -> &'static [u8]
    ensures { result.now ≡ spec.name_attr word.now }
{
    if is_domain(word) { b"dom" } else { b"sys" }
}

/// The nets that a word names, in the host's order.
pub fn nets_of(alloc: Global, nets: &[Proto], word: &[u8]) -> Result<Vec<Proto>, AllocError>
    ensures { IfOk result (λ named. named.items ≡ spec.nets_of nets.now word.now) }
{
    let mut named = Vec::new(alloc);
    for net in nets {
        if is_named(word, *net) {
            named.push(*net)?;
        }
    }
    Ok(named)
}

/// Whether a word names one of these nets.
pub fn names_some(nets: &[Proto], word: &[u8]) -> bool
    ensures { result ≡ list_any (is_net_named word.now) nets.now }
{
    nets.iter().any(|net| is_named(word, *net))
}

/// Whether a word names the net.
pub fn is_named(word: &[u8], net: Proto) -> bool
    ensures { result ≡ is_net_named word.now net }
{
    word == b"net".as_slice() || word == proto_name(net)
}
