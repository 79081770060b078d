//! Whether walks in a hash table are long.

use ld_base::{HashTable, SysvPart};

/// How many symbols a walk passes at most that isn't long.
const FEW: usize = 32;

/// Whether so many chain words follow one another without an end mark.
fn has_long_run(words: &[u32]) -> bool {
    words
        .split(|word| word % 2 == 1)
        .any(|run| run.len() >= FEW)
}

/// Whether the walk from a bucket passes so many symbols.
fn is_long(chain: &[u32], bucket: u32) -> bool {
    let mut at = bucket;
    for _ in 0..FEW {
        if at == 0 || at as usize >= chain.len() {
            return false;
        }
        at = chain[at as usize];
    }
    true
}

/// Whether that from some bucket does.
fn has_long_walk(sysv: &SysvPart) -> bool {
    let chain = sysv.chain.as_slice();
    sysv.buckets
        .as_slice()
        .iter()
        .any(|bucket| is_long(chain, *bucket))
}

/// Whether a walk in a table may pass many symbols.
pub(crate) fn has_long_walks(table: &HashTable) -> bool {
    match (&table.gnu, &table.sysv) {
        (Some(gnu), _) => has_long_run(gnu.chain.as_slice()),
        (None, Some(sysv)) => has_long_walk(sysv),
        (None, None) => false,
    }
}
