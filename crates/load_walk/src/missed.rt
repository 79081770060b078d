//! The paths at which a load found no file.

ghost use Rattle.std.specs.Prelude.{◌≡◌, ◌++◌, ◌∷◌, [], false, OnOk, OnErr};
ghost use Rattle.std.specs.Set.{is_member};
ghost use Rattle.std.specs.Str.{bytes_eq};

use indexmap::IndexSet;
use std::alloc::{AllocError, Global};
use std::marker::Model;

/// Paths at which there was no file, in the order of first sight.
#[derive(Drop)]
pub struct Missed {
    paths: IndexSet<Vec<u8>>,
}

impl Model for Missed {
    ghost use Rattle.std.specs.Prelude.{List, ℕ, map};

    ghost Value = { List (List ℕ) };

    ghost view = { λ missed. map (λ path. path.items) missed.paths.keys };
}

impl Missed {
    /// No path yet.
    pub fn new(alloc: Global) -> Self
        ensures { result ≡ [] }
    {
        Missed {
            paths: IndexSet::new(alloc),
        }
    }

    /// Whether a path is one of them.
    pub fn has(&self, path: &[u8]) -> bool
        ensures { result ≡ is_member bytes_eq self.now path.now }
    {
        self.paths.contains(path)
    }

    /// Adds a path.
    pub fn add(&mut self, alloc: Global, path: &[u8]) -> Result<(), AllocError>
        ensures ok { OnOk result (is_member bytes_eq self.old path.now ≡ false → self.new ≡ self.old ++ path.now ∷ []) }
        ensures err { OnErr result (self.new ≡ self.old) }
    {
        let path = Vec::from_slice(alloc, path)?;
        self.paths.insert(path)?;
        Ok(())
    }
}
