//! Version tables that were read, before it is asked whether they have too many bytes of names.

ghost use Rattle.std.specs.Prelude.{◌≡◌, IfOk};

use crate::verdef::{VerdefRecord, named_verdefs};
use crate::verneed::{VerneedRecord, named_verneeds};
use ld_base::{SharedBytes, Shorts, Versions};
use std::alloc::{AllocError, Global};
use std::marker::Model;

/// Version tables that were read, before it is asked whether they have too many bytes of names: contracts
/// see the versions that they say.
#[derive(Drop)]
pub struct JudgedVersions {
    pub(crate) strings: SharedBytes,
    pub(crate) has_versym: bool,
    pub(crate) versym: Shorts,
    pub(crate) verdefs: Vec<VerdefRecord>,
    pub(crate) verneeds: Vec<VerneedRecord>,
}

impl Model for JudgedVersions {
    ghost use Rattle.std.specs.Prelude.{map};
    ghost use Rattle.ld_base.specs.declared.parts.Versions.{Versions};
    ghost use Rattle.elf_versions.specs.Names.{defined, needed};

    ghost Value = { Versions };

    ghost view = { λ v. record {
      has_versym = v.has_versym;
      versym = v.versym;
      verdefs = map (defined v.strings) v.verdefs.items;
      verneeds = map (needed v.strings) v.verneeds.items;
    } };
}

impl JudgedVersions {
    /// The versions. More than 64 MiB of names are want of memory.
    ///
    /// # Errors
    ///
    /// Want of memory.
    pub fn into_versions(self, alloc: Global) -> Result<Versions, AllocError>
        ensures { IfOk result (λ versions. versions ≡ self) }
    {
        Ok(Versions {
            verdefs: named_verdefs(alloc, &self.strings, &self.verdefs)?,
            verneeds: named_verneeds(alloc, &self.strings, &self.verneeds)?,
            has_versym: self.has_versym,
            versym: self.versym,
        })
    }
}
