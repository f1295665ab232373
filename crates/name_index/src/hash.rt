ghost use Rattle.std.specs.Prelude.{◌≡◌, ◌<◌};
ghost use Rattle.name_index.specs.Hash.{bucket_at, hash as hash_by};

/// The 64-bit FNV-1a hash of no bytes.
pub const OFFSET_BASIS: u64 = 0xcbf2_9ce4_8422_2325;

/// The factor of the 64-bit FNV-1a hash.
pub const PRIME: u64 = 0x100_0000_01b3;

#[tactic(auto, unfolding(crate::specs::Hash::hash))]
fn hash(name: &[u8]) -> u64
    ensures { result ≡ hash_by name.now }
{
    name.iter().fold(
        OFFSET_BASIS,
        |hash, byte| (hash ^ u64::from(*byte)).wrapping_mul(PRIME),
    )
}

/// Which of so many buckets a name belongs to.
#[tactic(auto, unfolding(crate::specs::Hash::bucket_at))]
pub fn bucket(name: &[u8], buckets: usize) -> usize
    requires { 0 < buckets }
    ensures value { result ≡ bucket_at buckets name.now }
    ensures within { result < buckets }
{
    let hash = hash(name);
    ((hash ^ (hash >> 32)) % buckets as u64) as usize
}
