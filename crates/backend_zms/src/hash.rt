// The ids of a name, by its hash.
ghost use Rattle.std.specs.Prelude.{◌≡◌, ◌+◌, ◌≤◌};
ghost use Rattle.backend_zms.specs.Hash.{fnv, group_of, first_of};

// The hash of no bytes.
const BASIS: u32 = 2_166_136_261;
// What the hash is multiplied by at each byte.
const PRIME: u32 = 16_777_619;
// The bits of the hash that give the group of a name.
pub(crate) const GROUP_BITS: u32 = 0xFFF0;
/// How many ids for names a group has.
pub const GROUP_SIZE: u32 = 16;
/// The least id at which a name may stand.
pub const FIRST: u32 = 0x8000_0000;
// How far the id of a value is above that of its name.
pub(crate) const STEP: u32 = 0x4000_0000;

// The FNV-1a hash of 32 bits.
fn hash(bytes: &[u8]) -> u32
    ensures { result ≡ fnv bytes.now }
{
    bytes.iter().fold(BASIS, |hash, byte| {
        (hash ^ u32::from(*byte)).wrapping_mul(PRIME)
    })
}

/// The first of the 16 ids at which the name may stand, by its hash. It is from `FIRST` to
/// `FIRST + 0xFFF0`.
#[tactic(auto, unfolding(crate::specs::Hash::group_of))]
pub fn first_of(name: &[u8]) -> u32
    ensures first { result ≡ first_of name.now }
    ensures above { FIRST ≤ result }
    ensures below { result ≤ FIRST + GROUP_BITS }
{
    FIRST + (hash(name) & GROUP_BITS)
}
