//! What takes bytes, and how all of a text is written to it.

ghost use Rattle.std.specs.Prelude.{◌≡◌, ◌<◌, ◌≤◌, ℕ, List, Option, Result, length, take, IfOk, OnOk, OnErr};
ghost use Rattle.std.specs.Result.{IsErrOf};
ghost use Rattle.std.specs.Io.KnownBytes.{append_known};
ghost use Rattle.library_source.specs.Count.{Rises};
ghost use Rattle.library_source.specs.Writing.{Puts, TakesFront};
ghost use Rattle.library_source.specs.declared.sink.WriteError.{WriteError};
ghost use Rattle.library_source.specs.declared.sink.WriteError.TheVariants.{Memory};

use std::alloc::AllocError;
use thiserror::Error;

/// Why bytes weren't taken.
#[derive(Clone, Copy, Debug, PartialEq, Eq, Error)]
pub enum WriteError {
    /// The sink failed to write.
    #[error("the write failed")]
    Failed,
    #[error("out of memory")]
    Memory,
}

impl From<AllocError> for WriteError {
    ghost from_gives = { λ _ error. error ≡ Memory };

    fn from(_error: AllocError) -> Self {
        WriteError::Memory
    }
}

/// What takes bytes in pieces.
pub trait Sink {
    /// All the bytes that it took, where it tells them.
    ghost taken: { Self → Option (List ℕ) };

    /// How often it failed.
    ghost faults: { Self → ℕ };

    /// What one call does: the sink before it, the piece, the answer, and the sink after it.
    ghost writes: { Self → List ℕ → Result ℕ WriteError → Self → Type 0 };

    /// Takes bytes from the front of a piece, and says how many.
    fn write(&mut self, piece: &[u8]) -> Result<usize, WriteError>
        ensures writes { writes self.old piece.now result self.new }
        ensures faults { faults self.old ≤ faults self.new }

        // What it took is what it says.
        ensures bound { IfOk result (λ n. n ≤ length piece.now) }
        ensures takes { IfOk result (λ n.
            taken self.new ≡ append_known (taken self.old) (take n piece.now)) }
        ensures refuses { OnErr result (taken self.new ≡ taken self.old) }

        // No failure is invented, and to take nothing is one.
        ensures failed { IsErrOf result WriteError.Failed
            → Rises (faults self.old) (faults self.new) }
        ensures stuck { result ≡ Ok 0 → 0 < length piece.now
            → Rises (faults self.old) (faults self.new) };
}

/// Writes all of the bytes, in as many pieces as the sink takes them. It hands no empty piece to the
/// sink, and writes no more once a write failed.
///
/// # Errors
///
/// That the sink failed, which it counts, or want of memory. What it took is a front of the bytes then.
pub fn put_all<K: Sink>(out: &mut K, bytes: &[u8]) -> Result<(), WriteError>
    ensures writes { Puts K.writes bytes.now out.old result out.new }
    ensures all { OnOk result (K.taken out.new ≡ append_known (K.taken out.old) bytes.now) }
    ensures front { OnErr result (TakesFront (K.taken out.old) bytes.now (K.taken out.new)) }
    ensures faults { K.faults out.old ≤ K.faults out.new }

    // No failure is invented.
    ensures failed { IsErrOf result WriteError.Failed
        → Rises (K.faults out.old) (K.faults out.new) }
{
    let mut rest = bytes;
    while !rest.is_empty() {
        let taken = out.write(rest)?;
        if taken == 0 {
            return Err(WriteError::Failed);
        }
        rest = &rest[taken..];
    }
    Ok(())
}
