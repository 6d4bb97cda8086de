//! Questions.
ghost use Rattle.std.specs.Prelude.{◌≡◌, ◌<◌, ◌≤◌, ◌↔◌, ◌^◌, length, IfOk, IfErr, IsErrOf, Some, None};
ghost use Rattle.net_base.specs.Bytes.{word_at};
ghost use Rattle.net_base.specs.DomainQuestions.{HasDomainHeader, question_of};
ghost use Rattle.ndb_dns.specs.Refusals.{IsQuery, RefusesMessage};
ghost use Rattle.ndb_dns.specs.Runs.{IsRunRefused};

use crate::fault::DnsError;
use crate::field::word;
use crate::name::read_name;
use net_base::Question;
use std::alloc::Global;

/// The bytes of a header.
const HEADER: usize = 12;

/// The bit of the flags that a response has.
const RESPONSE: u16 = 0x8000;

/// The question of a message. What follows it isn't looked at.
pub fn read_question(alloc: Global, bytes: &[u8]) -> Result<Question, DnsError>
    ensures ok { IfOk result (λ q. IsQuery bytes.now × (question_of bytes.now ≡ Some q)) }
    ensures within { IfOk result (λ q. (12 ≤ q.end) × (q.end ≤ 271) × (q.end ≤ length bytes.now)) }
    // Which refusal it is: the first of these.
    ensures short { IsErrOf result DnsError.Short ↔ (length bytes.now < 12) }
    ensures response { IsErrOf result DnsError.Response ↔ (HasDomainHeader bytes.now × (2 ^ 15 ≤ word_at 2 bytes.now)) }
    // want of memory apart, which may come at any message
    ensures refused { IfErr result (λ e. RefusesMessage e bytes.now) }
{
    if bytes.len() < HEADER {
        return Err(DnsError::Short);
    }
    let flags = word(bytes, 2);
    if flags >= RESPONSE {
        return Err(DnsError::Response);
    }
    if word(bytes, 4) != 1 {
        return Err(DnsError::Format);
    }
    read_asked(alloc, bytes, word(bytes, 0), flags)
}

// The question behind the header.
fn read_asked(alloc: Global, bytes: &[u8], id: u16, flags: u16) -> Result<Question, DnsError>
    requires header { HasDomainHeader bytes.now }
    requires one { word_at 4 bytes.now ≡ 1 }
    requires id { id ≡ word_at 0 bytes.now }
    requires flags { flags ≡ word_at 2 bytes.now }
    ensures ok { IfOk result (λ q. question_of bytes.now ≡ Some q) }
    ensures within { IfOk result (λ q. (12 ≤ q.end) × (q.end ≤ 271) × (q.end ≤ length bytes.now)) }
    ensures refused { IfErr result (λ e. IsRunRefused e (question_of bytes.now ≡ None)) }
{
    let name = read_name(alloc, bytes, HEADER as u64)?;
    let behind = name.end as usize;
    if bytes.len() < behind + 4 {
        return Err(DnsError::Format);
    }
    Ok(Question {
        id,
        flags,
        name: name.text,
        kind: word(bytes, behind),
        class: word(bytes, behind + 2),
        end: name.end + 4,
    })
}
