//! What is needed of one file.

ghost use Rattle.std.specs.Prelude.{◌≡◌, [], OnOk, if◌then◌else◌};
ghost use Rattle.std.specs.Str.{bytes_eq};
ghost use Rattle.asm_layout.specs.Once.{added};

use asm_statement::Need;
use asm_uses::NameSet;
use std::alloc::{AllocError, Global};

/// The versions that are needed of a file, each once.
#[derive(Drop)]
pub struct NeededFile {
    /// All of them, by their first need.
    pub versions: NameSet,
    /// Those that the file may not lack: some need of them isn't weak.
    pub strong: NameSet,
}

impl NeededFile {
    /// Nothing.
    pub(crate) fn new(alloc: Global) -> Self
        ensures { result ≡ record { versions = []; strong = [] } }
    {
        NeededFile {
            versions: NameSet::new(alloc),
            strong: NameSet::new(alloc),
        }
    }

    /// Adds what one more need asks of the file.
    pub(crate) fn add(&mut self, alloc: Global, need: &Need) -> Result<(), AllocError>
        ensures { OnOk result (self.new ≡ record {
          versions = added bytes_eq self.old.versions need.now.version;
          strong = if need.now.is_weak then self.old.strong else added bytes_eq self.old.strong need.now.version;
        }) }
    {
        self.versions.add(alloc, need.version.as_bytes())?;
        if !need.is_weak {
            self.strong.add(alloc, need.version.as_bytes())?;
        }
        Ok(())
    }
}
