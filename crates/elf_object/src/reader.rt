//! Reading an object.

ghost use Rattle.std.specs.Prelude.{◌≡◌, slice_index, Ok, IfOk};
ghost use Rattle.elf_head.specs.AcceptancePart.Gives.{Answers, Gives};
ghost use Rattle.elf_head.specs.Rules.{head_verdict};
ghost use Rattle.sym_hash.specs.Reached.{IsTableOf};
ghost use Rattle.elf_dynamic.specs.Verdict.{ArePartsOf};
ghost use Rattle.elf_versions.specs.Verdict.{versions_verdict};
ghost use Rattle.sym_hash.specs.Verdict.{hash_verdict};
ghost use Rattle.elf_object.specs.Object.{object_of, with_versions};
ghost use Rattle.elf_object.specs.Spells.{Broken, Spells};
ghost use Rattle.elf_object.specs.Verdict.{object_verdict};

use crate::law::one_object;
use crate::segment::{dynamic_of, read_segments, relro_of, tls_of};
use elf_dynamic::{JudgedParts, judge_dynamic};
use elf_head::read_head;
use elf_versions::{JudgedVersions, judge_versions};
use ld_base::{DynParts, HashTable, Head, Object, ReadFault, SharedBytes, Symbols, Versions};
use std::alloc::{AllocError, Global};
use sym_hash::judge_table;

/// The entry of the versym table at an index; 0 where there is none.
fn version_at(versym: &[u16], index: usize) -> u16
    ensures { result ≡ slice_index versym.now index }
{
    versym.get(index).copied().unwrap_or(0)
}

/// The symbols, each with the entry of the versym table at its index.
fn with_versions(symbols: Symbols, versym: &[u16]) -> Symbols
    ensures { result ≡ with_versions symbols versym.now }
{
    let mut versioned = symbols.into_vec();
    for index in 0..versioned.len() {
        versioned[index].version = version_at(versym, index);
    }
    Symbols::from_vec(versioned)
}

/// The object that the parts of a file say.
#[tactic(auto, unfolding(crate::specs::Object::object_of))]
fn object_of(
    alloc: Global,
    file: &SharedBytes,
    head: &Head,
    parts: DynParts,
    versions: Versions,
) -> Result<Object, AllocError>
    requires { head_verdict file.now ≡ Ok head.now }
    ensures { IfOk result (λ object. object ≡ object_of file.now head.now parts versions) }
{
    let headers = head.headers.as_slice();
    let symbols = with_versions(parts.symbols, versions.versym.as_slice());
    Ok(Object {
        kind: head.kind,
        entry: head.entry,
        soname: parts.soname,
        needed: parts.needed.into_shared(alloc)?,
        segments: read_segments(alloc, file, head)?.into_shared(alloc)?,
        symbols: symbols.into_shared(alloc)?,
        first_exported: parts.first_exported,
        has_versym: versions.has_versym,
        verdefs: versions.verdefs.into_shared(alloc)?,
        verneeds: versions.verneeds.into_shared(alloc)?,
        relocs: parts.relocs.into_shared(alloc)?,
        plt_relocs: parts.plt_relocs.into_shared(alloc)?,
        pltgot: parts.pltgot,
        preinit: parts.preinit,
        init: parts.init,
        init_array: parts.init_array,
        fini: parts.fini,
        fini_array: parts.fini_array,
        tls: tls_of(headers),
        relro: relro_of(headers),
        flags: parts.flags,
        relr: parts.relr.into_shared(alloc)?,
        dynamic: dynamic_of(headers),
    })
}

/// Judges the versions of an object with these parts.
fn versions_of(
    alloc: Global,
    file: &SharedBytes,
    head: &Head,
    parts: &JudgedParts,
) -> Result<JudgedVersions, ReadFault>
    requires { head_verdict file.now ≡ Ok head.now }
    ensures { Gives result (versions_verdict file.now head.now parts.now) }
{
    let count = parts.symbols().len();
    judge_versions(alloc, file, head, parts.tags(), count)
}

/// Judges the hash tables of an object with these parts.
fn table_of(
    alloc: Global,
    file: &SharedBytes,
    head: &Head,
    parts: &JudgedParts,
) -> Result<HashTable, ReadFault>
    requires head { head_verdict file.now ≡ Ok head.now }
    requires parts { ArePartsOf file.now head.now parts.now }
    ensures { Gives result (hash_verdict file.now head.now parts.now) }
{
    judge_table(alloc, file.as_slice(), head, parts)
}

/// The object that judged parts say. What bounds memory comes here, where no rule is broken.
fn kept_object(
    alloc: Global,
    file: &SharedBytes,
    head: &Head,
    parts: JudgedParts,
    versions: JudgedVersions,
) -> Result<Object, AllocError>
    requires { head_verdict file.now ≡ Ok head.now }
    ensures { IfOk result (λ object. object ≡ object_of file.now head.now parts.entry versions) }
{
    let parts = parts.into_parts(alloc)?;
    let versions = versions.into_versions(alloc)?;
    object_of(alloc, file, head, parts, versions)
}

/// What the parts of a file say, read one after the other.
#[tactic(auto, unfolding(crate::specs::Verdict::object_verdict))]
fn read_parts(
    alloc: Global,
    file: &SharedBytes,
    program: bool,
) -> Result<(Object, HashTable), ReadFault>
    ensures { Gives result (object_verdict file.now program) }
{
    elf_dynamic::one_verdict();
    let head = read_head(alloc, file.as_slice())?;
    let parts = judge_dynamic(alloc, file, &head, program)?;
    let versions = versions_of(alloc, file, &head, &parts)?;
    let table = table_of(alloc, file, &head, &parts)?;
    let object = kept_object(alloc, file, &head, parts, versions)?;
    Ok((object, table))
}

/// Reads the object that a file is, as the program or as another object, and its hash tables. The names
/// of its symbols, its versions and what it needs, and the bytes of its segments, stand in the file's memory,
/// which stays as long as one of them. Its own name has memory of its own.
///
/// # Errors
///
/// The first of the rules 1 to 19 that the file breaks, with its number, or want of memory.
pub fn read_object(
    alloc: Global,
    file: &SharedBytes,
    program: bool,
) -> Result<(Object, HashTable), ReadFault>
    ensures answers { Answers (λ read. Spells file.now program read.0) (Broken file.now program) result }
    ensures verdict { Gives result (object_verdict file.now program) }
    ensures table { IfOk result (λ read. IsTableOf read.1 read.0) }
{
    one_object();
    read_parts(alloc, file, program)
}
