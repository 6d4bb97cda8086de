//! The size, the type and the tag in front of a message.
ghost use Rattle.std.specs.Prelude.{◌≡◌, ◌≢◌, ◌<◌, ◌⊎◌, ◌↔◌, length, drop, IfOk, IsErrOf};
ghost use Rattle.net_base.specs.NinepFaults.{HasHeader, HasSize, is_r_type, is_t_type, size_field, tag_field, type_field};
ghost use Rattle.net_base.specs.NinepMessages.{longest};

use crate::fault::NinepError;
use byteorder::{ByteOrder, LittleEndian};

/// The bytes of a size, a type and a tag.
const HEADER: usize = 7;

/// No message is longer.
const LONGEST: usize = 8216;

/// What stands in front of a message, and its fields.
#[derive(Clone, Copy, Debug)]
pub(crate) struct Header<'a> {
    pub kind: u8,
    pub tag: u16,
    pub fields: &'a [u8],
}

/// The header of bytes that are as many as they say.
pub(crate) fn header_of(bytes: &[u8]) -> Result<Header<'_>, NinepError>
    ensures kind { IfOk result (λ h. h.kind ≡ type_field bytes.now) }
    ensures tag { IfOk result (λ h. h.tag ≡ tag_field bytes.now) }
    ensures fields { IfOk result (λ h. h.fields.now ≡ drop 7 bytes.now) }
    ensures sized { IfOk result (λ h. HasSize bytes.now) }
    ensures short { IsErrOf result NinepError.Short ↔ (length bytes.now < 7) }
    ensures size { IsErrOf result NinepError.Size
        ↔ (HasHeader bytes.now × ((size_field bytes.now ≢ length bytes.now) ⊎ (longest < length bytes.now))) }
    ensures memory { IsErrOf result NinepError.Memory → ⊥ }
    ensures bad_type { IsErrOf result NinepError.BadType → ⊥ }
    ensures field { IsErrOf result NinepError.Field → ⊥ }
{
    if bytes.len() < HEADER {
        return Err(NinepError::Short);
    }
    if bytes.len() > LONGEST || LittleEndian::read_u32(bytes) as usize != bytes.len() {
        return Err(NinepError::Size);
    }
    let (_, fields) = bytes.split_at(HEADER);
    Ok(Header {
        kind: bytes[4],
        tag: LittleEndian::read_u16(&bytes[5..]),
        fields,
    })
}

/// Whether a T-message has this type.
pub(crate) fn is_request(kind: u8) -> bool
    ensures { result ≡ is_t_type kind }
{
    matches!(
        kind,
        100 | 102 | 104 | 108 | 110 | 112 | 114 | 116 | 118 | 120 | 122 | 124 | 126
    )
}

/// Whether an R-message has this type.
pub(crate) fn is_answer(kind: u8) -> bool
    ensures { result ≡ is_r_type kind }
{
    matches!(
        kind,
        101 | 103 | 105 | 107 | 109 | 111 | 113 | 115 | 117 | 119 | 121 | 123 | 125 | 127
    )
}
