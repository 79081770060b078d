//! What is needed of files, need by need.

ghost use Rattle.std.specs.Prelude.{◌≡◌, length, map, IfOk, OnOk};
ghost use Rattle.asm_layout.specs.Uses.{distinct_names};
ghost use Rattle.asm_places.specs.AsmNeeds.Filled.{AreEmpty, ArePartOf, Adds, running_counts};

use crate::asm_needs::needed_file::NeededFile;
use crate::asm_needs::version_number::VersionNumber;
use asm_statement::Need;
use asm_uses::NameSet;
use std::alloc::{AllocError, Global};

/// The names of the files that needs are of, each once.
pub(crate) fn names_of(alloc: Global, needs: &[Need]) -> Result<NameSet, AllocError>
    ensures { IfOk result (λ names. names ≡ distinct_names (map (λ need. need.file) needs.now)) }
{
    let mut names = NameSet::new(alloc);
    for need in needs {
        names.add(alloc, need.file.as_bytes())?;
    }
    Ok(names)
}

/// So many files of which nothing is needed yet.
fn empty_files(alloc: Global, count: usize) -> Result<Vec<NeededFile>, AllocError>
    ensures { IfOk result (λ files. AreEmpty count files.items) }
{
    let mut files = Vec::new(alloc);
    for _file in 0..count {
        files.push(NeededFile::new(alloc))?;
    }
    Ok(files)
}

/// Adds a need to what is needed of its file.
fn add_need(
    alloc: Global,
    names: &NameSet,
    files: &mut Vec<NeededFile>,
    need: &Need,
) -> Result<(), AllocError>
    requires { length files.old.items ≡ length names.now }
    ensures { OnOk result (Adds names.now need.now files.old.items files.new.items) }
{
    match names.number(need.file.as_bytes()) {
        Some(number) => files[number].add(alloc, need),
        None => Ok(()),
    }
}

/// What needs ask of files with these names.
pub(crate) fn files_of(
    alloc: Global,
    names: &NameSet,
    needs: &[Need],
) -> Result<Vec<NeededFile>, AllocError>
    requires { names.now ≡ distinct_names (map (λ need. need.file) needs.now) }
    ensures { IfOk result (λ files. ArePartOf names.now needs.now files.items) }
{
    let mut files = empty_files(alloc, names.len())?;
    for need in needs {
        add_need(alloc, names, &mut files, need)?;
    }
    Ok(files)
}

/// The number of the first version of each file.
pub(crate) fn firsts_of(
    alloc: Global,
    files: &[NeededFile],
) -> Result<Vec<VersionNumber>, AllocError>
    ensures { IfOk result (λ firsts. firsts.items ≡ running_counts 0 (map (λ file. length file.versions) files.now)) }
{
    let mut firsts = Vec::new(alloc);
    let mut first = 0u128;
    for file in files {
        firsts.push(VersionNumber::new(first))?;
        first += file.versions.len() as u128;
    }
    Ok(firsts)
}
