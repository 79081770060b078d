//! Reading the versions of an object.

ghost use Rattle.std.specs.Prelude.{◌≡◌, Ok, IfOk};
ghost use Rattle.elf_head.specs.AcceptancePart.Gives.{Answers, Gives};
ghost use Rattle.elf_head.specs.Rules.{head_verdict};
ghost use Rattle.elf_versions.specs.Spells.{BreaksFirst, SpellsVersions};
ghost use Rattle.elf_versions.specs.Verdict.{strings_of, tables_of, versions_in, versions_verdict};

use crate::index::unknown_index;
use crate::judged::JudgedVersions;
use crate::law::one_verdict;
use crate::records::Records;
use crate::verdef::read_verdefs;
use crate::verneed::read_verneeds;
use crate::versym::read_versym;
use elf_head::{
    DT_STRSZ, DT_STRTAB, DT_VERDEF, DT_VERNEED, DT_VERSYM, file_part, last_of, value_of,
};
use ld_base::{DynParts, Head, NotAccepted, ReadFault, SharedBytes, Tag, Versions};
use std::alloc::{AllocError, Global};

/// The string table, in the memory of the file.
#[tactic(auto, unfolding(crate::specs::Verdict::strings_of))]
fn strings_of(file: &SharedBytes, head: &Head, tags: &[Tag]) -> Result<SharedBytes, AllocError>
    requires { head_verdict file.now ≡ Ok head.now }
    ensures { IfOk result (λ strings. strings ≡ strings_of file.now head.now.headers tags.now) }
{
    let start = value_of(tags, DT_STRTAB);
    match file_part(file, head, start, value_of(tags, DT_STRSZ))? {
        Some(strings) => Ok(strings),
        None => Ok(SharedBytes::new()),
    }
}

/// What the tables say, for so many symbols (rule 17).
#[tactic(auto, unfolding(crate::specs::Verdict::tables_of))]
fn read_tables(
    alloc: Global,
    file: &SharedBytes,
    head: &Head,
    tags: &[Tag],
    count: u32,
) -> Result<JudgedVersions, ReadFault>
    requires { head_verdict file.now ≡ Ok head.now }
    ensures { Gives result (tables_of file.now head.now.headers tags.now count) }
{
    let strings = strings_of(file, head, tags)?;
    let (bytes, names) = (file.as_slice(), strings.as_slice());
    let versym = read_versym(
        alloc,
        &Records::new(bytes, head, names, DT_VERSYM),
        tags,
        count,
    )?;
    let verdefs = read_verdefs(alloc, &Records::new(bytes, head, names, DT_VERDEF), tags)?;
    let verneeds = read_verneeds(alloc, &Records::new(bytes, head, names, DT_VERNEED), tags)?;
    Ok(JudgedVersions {
        strings,
        has_versym: last_of(tags, DT_VERSYM).is_some(),
        versym,
        verdefs,
        verneeds,
    })
}

/// Judges the version tables that these entries of the dynamic table name, for so many symbols. What
/// bounds memory comes later, so that a rule of another table may be broken first.
///
/// # Errors
///
/// The first of the rules 17 and 18 that the tables break, with its number, or want of memory.
#[tactic(auto, unfolding(crate::specs::Verdict::versions_in, crate::specs::Verdict::with_indexes))]
pub fn judge_versions(
    alloc: Global,
    file: &SharedBytes,
    head: &Head,
    tags: &[Tag],
    count: u32,
) -> Result<JudgedVersions, ReadFault>
    requires { head_verdict file.now ≡ Ok head.now }
    ensures { Gives result (versions_in file.now head.now.headers tags.now count) }
{
    let versions = read_tables(alloc, file, head, tags, count)?;
    match unknown_index(alloc, &versions)? {
        Some(symbol) => Err(ReadFault::NotAccepted(NotAccepted {
            rule: 18,
            number: symbol as u64,
        })),
        None => Ok(versions),
    }
}

/// Reads the versions that an object defines, those that it needs, and the version index of each of
/// its symbols. Its parts are those that `read_dynamic` answers for these bytes.
///
/// # Errors
///
/// The first of the rules 17 and 18 that the tables break, with its number, or want of memory: more than
/// 64 MiB of names are that, too.
pub fn read_versions(
    alloc: Global,
    file: &SharedBytes,
    head: &Head,
    parts: &DynParts,
) -> Result<Versions, ReadFault>
    requires { head_verdict file.now ≡ Ok head.now }
    ensures answers { Answers (SpellsVersions file.now head.now parts.now) (BreaksFirst file.now head.now parts.now) result }
    ensures verdict { Gives result (versions_verdict file.now head.now parts.now) }
{
    one_verdict();
    read_judged(alloc, file, head, parts)
}

/// The versions that the tables say, or the first rule that they break.
fn read_judged(
    alloc: Global,
    file: &SharedBytes,
    head: &Head,
    parts: &DynParts,
) -> Result<Versions, ReadFault>
    requires { head_verdict file.now ≡ Ok head.now }
    ensures { Gives result (versions_verdict file.now head.now parts.now) }
{
    let tags = parts.tags.as_slice();
    let versions = judge_versions(alloc, file, head, tags, parts.symbols.len())?;
    Ok(versions.into_versions(alloc)?)
}
