//! Names: of objects, of symbols and of versions.

ghost use Rattle.std.specs.Prelude.{◌≡◌, [], IfOk};
ghost use Rattle.std.specs.Str.{bytes_eq};

use crate::SharedBytes;
use std::alloc::{AllocError, Global};
use std::marker::Model;

/// A name, which is a list of bytes: a string of an object file needn't be text. It may have its bytes in the
/// memory of the file in which it stands.
#[derive(Debug, Drop)]
pub struct Name {
    bytes: SharedBytes,
}

impl Model for Name {
    ghost use Rattle.std.specs.Prelude.{List, ℕ};

    ghost Value = { List ℕ };

    ghost view = { λ n. n.bytes };
}

impl Name {
    /// The name of no bytes, which takes no memory.
    pub fn empty() -> Self
        ensures { result ≡ [] }
    {
        Name {
            bytes: SharedBytes::new(),
        }
    }

    /// The name with these bytes, in memory of its own.
    ///
    /// # Errors
    ///
    /// Want of memory.
    pub fn new(alloc: Global, bytes: &[u8]) -> Result<Self, AllocError>
        ensures { IfOk result (λ n. n ≡ bytes.now) }
    {
        let bytes = SharedBytes::copy_from_slice(alloc, bytes)?;
        Ok(Name { bytes })
    }

    /// The name with the bytes of a vector, which are kept where they are.
    ///
    /// # Errors
    ///
    /// Want of memory.
    pub fn from_vec(bytes: Vec<u8>) -> Result<Self, AllocError>
        ensures { IfOk result (λ n. n ≡ bytes.items) }
    {
        let bytes = SharedBytes::from_vec(bytes)?;
        Ok(Name { bytes })
    }

    /// The bytes of the name.
    pub fn as_bytes(&self) -> &[u8]
        ensures { result.now ≡ self.now }
    {
        self.bytes.as_slice()
    }

    /// Whether the name is spelled so.
    pub fn is(&self, bytes: &[u8]) -> bool
        ensures { result ≡ bytes_eq self.now bytes.now }
    {
        self.as_bytes() == bytes
    }
}

impl From<SharedBytes> for Name {
    ghost from_gives = { λ bytes name. name ≡ bytes };

    fn from(bytes: SharedBytes) -> Self {
        Name { bytes }
    }
}
