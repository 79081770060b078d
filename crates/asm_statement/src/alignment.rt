//! Alignments: contracts see each as its number of bytes.

ghost use Rattle.std.specs.Prelude.{◌≡◌, Some, None, if◌then◌else◌};
ghost use Rattle.asm_statement.specs.Alignments.{is_alignment, IsPower};

use std::marker::Model;

/// A power of two from 1 to 4,096: how many bytes lie between the places that are aligned.
#[derive(Clone, Copy, PartialEq, Eq)]
pub struct Alignment(u64);

impl Model for Alignment {
    ghost use Rattle.std.specs.Prelude.{ℕ, true, ◌≡◌};
    ghost use Rattle.asm_statement.specs.Alignments.{is_alignment};

    ghost Value = { ℕ };

    ghost view = { λ a. a.0 };

    ghost invariant = { λ a. is_alignment a.0 ≡ true };

    ghost inverse = { λ n. record { 0 = n } };
}

impl Alignment {
    /// The alignment of so many bytes; None where they are no power of two, or more than 4,096.
    pub fn from_bytes(bytes: u64) -> Option<Self>
        ensures { result ≡ (if is_alignment bytes then Some bytes else None) }
    {
        if is_alignment(bytes) {
            Some(Alignment(bytes))
        } else {
            None
        }
    }

    /// How many bytes it is.
    #[tactic(auto, using(crate::proofs::Powers::power))]
    pub fn bytes(self) -> u64
        ensures value { result ≡ self }
        ensures power { IsPower self }
    {
        self.0
    }
}

#[tactic(auto, unfolding(crate::specs::Alignments::is_alignment))]
fn is_alignment(bytes: u64) -> bool
    ensures { result ≡ is_alignment bytes }
{
    matches!(
        bytes,
        1 | 2 | 4 | 8 | 16 | 32 | 64 | 128 | 256 | 512 | 1024 | 2048 | 4096
    )
}
