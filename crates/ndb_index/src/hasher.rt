//! The hash of a pair.
ghost use Rattle.std.specs.Prelude.{◌≡◌, ◌<◌, fold};
ghost use Rattle.ndb_index.specs.Hashing as spec;

/// The hash before any byte.
const FIRST: u64 = 0xcbf2_9ce4_8422_2325;

/// The hash after more bytes: FNV-1a of 64 bits, a step a byte. For texts of some ten bytes it is far cheaper than std's hasher.
fn hash_on(hash: u64, bytes: &[u8]) -> u64
    ensures { result ≡ fold spec.step hash bytes.now }
{
    let mut hash = hash;
    for byte in bytes {
        hash = (hash ^ u64::from(*byte)).wrapping_mul(0x100_0000_01b3);
    }
    hash
}

/// The bucket of a pair, of so many: by the hash of its attribute with its value behind it.
#[tactic(auto, unfolding(crate::specs::Hashing::bucket_of_pair))]
pub fn bucket_of(width: usize, attr: &[u8], value: &[u8]) -> usize
    requires { 0 < width }
    ensures value { result ≡ spec.bucket_of_pair width attr.now value.now }
    ensures within { result < width }
{
    let hash = hash_on(hash_on(FIRST, attr), value);
    (hash % width as u64) as usize
}
