//! The hashes of names (gABI, "Hash Table").

ghost use Rattle.std.specs.Prelude.{◌≡◌, fold};
ghost use Rattle.sym_hash.specs.Hash.{gnu_hash, gnu_step, sysv_fold, sysv_hash, sysv_step};

/// The four highest bits of a hash.
const HIGH: u32 = 0xf000_0000;
/// The GNU hash of an empty name.
const GNU_START: u32 = 5381;

/// Moves the four highest bits down.
fn sysv_fold(hash: u32) -> u32
    ensures { result ≡ sysv_fold hash }
{
    let high = hash & HIGH;
    (hash ^ (high >> 24)) & !high
}

fn sysv_step(hash: u32, byte: u8) -> u32
    ensures { result ≡ sysv_step hash byte }
{
    sysv_fold(hash.wrapping_mul(16).wrapping_add(u32::from(byte)))
}

/// The hash of a name in the System V hash table.
#[tactic(auto, unfolding(crate::specs::Hash::sysv_hash))]
pub fn sysv_hash(name: &[u8]) -> u32
    ensures { result ≡ sysv_hash name.now }
{
    name.iter().fold(0, |hash, byte| sysv_step(hash, *byte))
}

fn gnu_step(hash: u32, byte: u8) -> u32
    ensures { result ≡ gnu_step hash byte }
{
    hash.wrapping_mul(33).wrapping_add(u32::from(byte))
}

/// The hash of a name in the GNU hash table.
#[tactic(auto, unfolding(crate::specs::Hash::gnu_hash))]
pub fn gnu_hash(name: &[u8]) -> u32
    ensures { result ≡ gnu_hash name.now }
{
    name.iter()
        .fold(GNU_START, |hash, byte| gnu_step(hash, *byte))
}
