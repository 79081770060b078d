//! Words that stand as operands.

ghost use Rattle.std.specs.Prelude.{◌≡◌};
ghost use Rattle.asm_statement.specs.AsmWords.Kinds.{fence_set, kind, hash};

use crate::asm_words::table::named;
use crate::{FenceSet, HashKind, ObjectKind};

/// Input, output, reads and writes, by their letters.
const FENCE_SETS: [(&[u8], (bool, bool, bool, bool)); 15] = [
    (b"i", (true, false, false, false)),
    (b"o", (false, true, false, false)),
    (b"io", (true, true, false, false)),
    (b"r", (false, false, true, false)),
    (b"ir", (true, false, true, false)),
    (b"or", (false, true, true, false)),
    (b"ior", (true, true, true, false)),
    (b"w", (false, false, false, true)),
    (b"iw", (true, false, false, true)),
    (b"ow", (false, true, false, true)),
    (b"iow", (true, true, false, true)),
    (b"rw", (false, false, true, true)),
    (b"irw", (true, false, true, true)),
    (b"orw", (false, true, true, true)),
    (b"iorw", (true, true, true, true)),
];

const KINDS: [(&[u8], ObjectKind); 3] = [
    (b"lib", ObjectKind::Library),
    (b"prog", ObjectKind::Program),
    (b"exec", ObjectKind::Executable),
];

const HASHES: [(&[u8], HashKind); 3] = [
    (b"gnu", HashKind::Gnu),
    (b"sysv", HashKind::Sysv),
    (b"both", HashKind::Both),
];

/// What a fence orders on one of its sides.
#[tactic(auto, unfolding(crate::specs::AsmWords::Kinds::fence_set))]
pub fn fence_set(word: &[u8]) -> Option<FenceSet>
    ensures { result ≡ fence_set word.now }
{
    let (input, output, reads, writes) = named(&FENCE_SETS, word)?;
    Some(FenceSet {
        input,
        output,
        reads,
        writes,
    })
}

/// A kind of object.
#[tactic(auto, unfolding(crate::specs::AsmWords::Kinds::kind))]
pub fn kind(word: &[u8]) -> Option<ObjectKind>
    ensures { result ≡ kind word.now }
{
    named(&KINDS, word)
}

/// Hash tables.
#[tactic(auto, unfolding(crate::specs::AsmWords::Kinds::hash))]
pub fn hash(word: &[u8]) -> Option<HashKind>
    ensures { result ≡ hash word.now }
{
    named(&HASHES, word)
}
