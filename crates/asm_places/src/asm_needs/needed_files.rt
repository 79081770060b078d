//! The files of which versions are needed.

ghost use Rattle.std.specs.Prelude.{◌≡◌, length};

use crate::asm_needs::filling::{files_of, firsts_of, names_of};
use crate::asm_needs::needed_file::NeededFile;
use crate::asm_needs::version_number::VersionNumber;
use asm_statement::Need;
use asm_uses::NameSet;
use std::alloc::{AllocError, Global};

/// The files of which a source needs versions, by their first need.
#[derive(Drop)]
pub struct NeededFiles {
    /// Their names.
    pub names: NameSet,
    /// What is needed of each.
    pub files: Vec<NeededFile>,
    /// The number of the first version of each among all that are needed.
    pub firsts: Vec<VersionNumber>,
    pub ghost all: { length files.items ≡ length names },
    pub ghost counted: { length firsts.items ≡ length names },
}

impl NeededFiles {
    ghost use Rattle.std.specs.Prelude.{◌≡◌, ◌+◌, ◌^◌, ◌<◌, [], List, IfOk, IfSome, length, slice_index_or};
    ghost use Rattle.asm_statement.specs.declared.line.Line.{Line};
    ghost use Rattle.asm_layout.specs.Uses.{needs as needs_of};
    ghost use Rattle.asm_layout.specs.Versions.{needed_files, needed_number};
    ghost use Rattle.asm_places.specs.AsmNeeds.Files.{AreFilesOf, number_within};

    /// The files that the needs of a source are of.
    ///
    /// # Errors
    ///
    /// Want of memory.
    pub fn of(alloc: Global, needs: &[Need]) -> Result<Self, AllocError>
        ensures { IfOk result (λ files. (lines : List Line) → needs.now ≡ needs_of lines → AreFilesOf lines files) }
    {
        let names = names_of(alloc, needs)?;
        let files = files_of(alloc, &names, needs)?;
        let firsts = firsts_of(alloc, &files)?;
        Ok(NeededFiles {
            names,
            files,
            firsts,
        })
    }

    /// The number of the version of a file among all that are needed, file by file, from 0.
    pub fn number(&self, file: &[u8], version: &[u8]) -> Option<u128>
        ensures value { (lines : List Line) → AreFilesOf lines self.now → result ≡ needed_number lines file.now version.now }
        ensures bound { IfSome result (λ number. number < 2 ^ 127 + 2 ^ 64) }
    {
        match self.names.number(file) {
            Some(at) => self.number_in(at, version),
            None => None,
        }
    }

    /// The same of the file with this place among them.
    fn number_in(&self, at: usize, version: &[u8]) -> Option<u128>
        requires { at < length self.now.names }
        ensures value { (lines : List Line) → AreFilesOf lines self.now
            → result ≡ number_within lines at (slice_index_or (needed_files lines) at []) version.now }
        ensures bound { IfSome result (λ number. number < 2 ^ 127 + 2 ^ 64) }
    {
        match self.files[at].versions.number(version) {
            Some(place) => Some(self.firsts[at].get() + place as u128),
            None => None,
        }
    }
}
