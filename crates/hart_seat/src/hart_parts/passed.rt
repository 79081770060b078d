//! The bytes that a hart passes.

ghost use Rattle.std.specs.Prelude.{◌≡◌, ◌==◌, ◌≤◌, [], ◌∷◌, ◌++◌, false, length, take};
ghost use Rattle.std.specs.List.{position};
ghost use Rattle.hart_moves.specs.Copying.{before_end, bytes_from, is_copied};

use std::marker::Model;

/// How many bytes there are at most.
const CAPACITY: usize = 256;

/// The first bytes of what a hart passes to the linker, 256 at most. Contracts see the list.
#[derive(Drop)]
pub struct PassedBytes {
    bytes: [u8; CAPACITY],
    len: usize,
}

impl Model for PassedBytes {
    ghost use Rattle.std.specs.Prelude.{ℕ, ◌≤◌, List, take};

    ghost Value = { List ℕ };

    ghost view = { λ p. take p.len p.bytes };

    ghost invariant = { λ p. p.len ≤ 256 };
}

impl PassedBytes {
    /// No bytes.
    pub fn new() -> Self
        ensures { result ≡ [] }
    {
        PassedBytes {
            bytes: [0; CAPACITY],
            len: 0,
        }
    }

    /// The bytes as a slice.
    pub fn as_slice(&self) -> &[u8]
        ensures bytes { result.now ≡ self.now }
        ensures few { length result.now ≤ 256 }
    {
        &self.bytes[..self.len]
    }

    /// Takes all away.
    pub fn clear(&mut self)
        ensures { self.new ≡ [] }
    {
        self.len = 0;
    }

    /// Appends the bytes of a doubleword from an address in it on, up to so many bytes in all.
    pub fn grow(&mut self, most: usize, address: u64, word: u64)
        requires { most ≤ 256 }
        ensures { self.new ≡ take most (self.old ++ bytes_from address word) }
    {
        self.truncate(most);
        let bytes = word.to_le_bytes();
        for byte in &bytes[(address % 8) as usize..] {
            self.push(most, *byte);
        }
    }

    /// Cuts a name at the zero byte that ends it, and answers whether it is copied. One that is too long is
    /// copied where its first 256 bytes are.
    pub fn cut(&mut self) -> bool
        ensures copied { result ≡ is_copied self.old }
        ensures left { self.new ≡ before_end self.old }
        ensures whole { result ≡ false → self.new ≡ self.old }
    {
        match first_zero(self.as_slice()) {
            Some(end) => {
                self.truncate(end);
                true
            }
            None => self.len == CAPACITY,
        }
    }

    fn truncate(&mut self, most: usize)
        ensures { self.new ≡ take most self.old }
    {
        self.len = self.len.min(most);
    }

    /// Appends a byte where there are fewer.
    fn push(&mut self, most: usize, byte: u8)
        requires most { most ≤ 256 }
        requires few { length self.old ≤ most }
        ensures { self.new ≡ take most (self.old ++ byte ∷ []) }
    {
        if self.len < most {
            self.bytes[self.len] = byte;
            self.len += 1;
        }
    }
}

/// The place of the first zero byte.
fn first_zero(bytes: &[u8]) -> Option<usize>
    ensures { result ≡ position (λ b. b == 0) bytes.now }
{
    bytes.iter().position(|byte| *byte == 0)
}
