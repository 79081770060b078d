//! What isn't linked (gABI, "Relocation" and "Dynamic Section"; psABI, "Relocations").

ghost use Rattle.std.specs.Prelude.{◌≡◌, ◌==◌, ◌&&◌, ◌||◌, ◌++◌, option_map};
ghost use Rattle.std.specs.List.{list_any};
ghost use Rattle.ld_base.specs.Symbol.{binding, is_defined, type_of};
ghost use Rattle.elf_dynamic.specs.Feature.{number_of};
ghost use Rattle.elf_dynamic.specs.Rules.{has_open_segment, has_type, is_exec, is_other_type, refused_feature};
ghost use Rattle.elf_head.specs.DynTable.Tag.{has, has_flag};
ghost use Rattle.elf_head.specs.DynTable.TagNumbers.{dt_flags, dt_textrel};

use crate::memory::{is_executable, is_loaded, is_writable};
use crate::symbol_rules::{STB_GNU_UNIQUE, binding_of};
use crate::tables::DF_TEXTREL;
use elf_head::{DT_FLAGS, DT_REL, DT_TEXTREL, R_RISCV_JUMP_SLOT, has, has_flag};
use ld_base::{Head, Header, Kind, Reloc, Symbol, Tag};

/// The type of a symbol whose value is a function that gives its address.
const STT_GNU_IFUNC: u8 = 10;

/// Nothing.
pub(crate) const R_RISCV_NONE: u32 = 0;
/// The 32 lower bits of an address.
const R_RISCV_32: u32 = 1;
/// An address.
const R_RISCV_64: u32 = 2;
/// An address of the object itself.
const R_RISCV_RELATIVE: u32 = 3;
/// The bytes of a library's variable, for a program that has a place for them.
pub(crate) const R_RISCV_COPY: u32 = 4;
/// The number of a module of thread-local storage.
const R_RISCV_TLS_DTPMOD64: u32 = 7;
/// An offset in the thread-local storage of a module.
const R_RISCV_TLS_DTPREL64: u32 = 9;
/// An offset from the thread pointer.
const R_RISCV_TLS_TPREL64: u32 = 11;
/// A function that gives the place of a thread-local variable.
const R_RISCV_TLSDESC: u32 = 12;
/// What a function of the object gives.
const R_RISCV_IRELATIVE: u32 = 58;

/// What an object may have and isn't linked, the least number first.
#[derive(Clone, Copy, PartialEq, Eq)]
pub(crate) enum Feature {
    /// A definition of STT_GNU_IFUNC.
    IndirectFunction,
    /// A relocation of R_RISCV_IRELATIVE.
    Irelative,
    /// A symbol of STB_GNU_UNIQUE.
    UniqueSymbol,
    /// A relocation of R_RISCV_TLSDESC.
    TlsDescriptor,
    /// A relocation of R_RISCV_32.
    Reloc32,
    /// A table of relocations without addends (DT_REL).
    RelTable,
    /// Relocations in segments that aren't writable (DT_TEXTREL, DF_TEXTREL).
    TextRelocations,
    /// A relocation of R_RISCV_COPY in a library.
    CopyInLibrary,
    /// A relocation of another type.
    OtherRelocation,
    /// A segment that may be written and run.
    OpenSegment,
    /// A library at its own addresses (ET_EXEC).
    FixedLibrary,
}

impl Feature {
    /// The number by which rule 15 names the feature; none is 10.
    pub(crate) fn number(self) -> u64
        ensures { result ≡ number_of self }
    {
        match self {
            Self::IndirectFunction => 1,
            Self::Irelative => 2,
            Self::UniqueSymbol => 3,
            Self::TlsDescriptor => 4,
            Self::Reloc32 => 5,
            Self::RelTable => 6,
            Self::TextRelocations => 7,
            Self::CopyInLibrary => 8,
            Self::OtherRelocation => 9,
            Self::OpenSegment => 11,
            Self::FixedLibrary => 12,
        }
    }
}

/// Relocations: slots, and the others with addends.
#[derive(Clone, Copy)]
pub(crate) struct Both<'a> {
    pub(crate) others: &'a [Reloc],
    pub(crate) slots: &'a [Reloc],
}

/// The least of the features that an object has, as the program or as a library, and that isn't
/// linked.
#[tactic(auto, unfolding(crate::specs::Rules::refused_feature))]
pub(crate) fn refused_feature(
    head: &Head,
    program: bool,
    tags: &[Tag],
    symbols: &[Symbol],
    relocs: Both,
) -> Option<Feature>
    ensures { option_map number_of result ≡ refused_feature head.now program tags.now symbols.now (relocs.entry.others.now ++ relocs.entry.slots.now) }
{
    let feature = if has_indirect(symbols) {
        Feature::IndirectFunction
    } else if has_type(relocs, R_RISCV_IRELATIVE) {
        Feature::Irelative
    } else if has_unique(symbols) {
        Feature::UniqueSymbol
    } else if has_type(relocs, R_RISCV_TLSDESC) {
        Feature::TlsDescriptor
    } else if has_type(relocs, R_RISCV_32) {
        Feature::Reloc32
    } else if has(tags, DT_REL) {
        Feature::RelTable
    } else if changes_text(tags) {
        Feature::TextRelocations
    } else if !program && has_type(relocs, R_RISCV_COPY) {
        Feature::CopyInLibrary
    } else if has_other_type(relocs) {
        Feature::OtherRelocation
    } else if has_open_segment(head.headers.as_slice()) {
        Feature::OpenSegment
    } else if !program && is_exec(head.kind) {
        Feature::FixedLibrary
    } else {
        return None;
    };
    Some(feature)
}

/// Whether a definition's value is a function that gives its address.
fn has_indirect(symbols: &[Symbol]) -> bool
    ensures { result ≡ list_any (λ s. is_defined s && type_of s == 10) symbols.now }
{
    symbols.iter().any(|symbol| symbol.is_defined() && symbol.info % 16 == STT_GNU_IFUNC)
}

/// Whether a symbol is to be the only one of its name in a process.
fn has_unique(symbols: &[Symbol]) -> bool
    ensures { result ≡ list_any (λ s. binding s == 10) symbols.now }
{
    symbols
        .iter()
        .any(|symbol| binding_of(symbol) == STB_GNU_UNIQUE)
}

/// Whether a relocation, a slot's too, is of this type.
#[tactic(auto, using(crate::proofs::Reading::any_of_both))]
fn has_type(relocs: Both, kind: u32) -> bool
    ensures { result ≡ has_type kind (relocs.entry.others.now ++ relocs.entry.slots.now) }
{
    is_any_of(relocs.others, kind) || is_any_of(relocs.slots, kind)
}

/// Whether one of these relocations is of this type.
fn is_any_of(relocs: &[Reloc], kind: u32) -> bool
    ensures { result ≡ has_type kind relocs.now }
{
    relocs.iter().any(|reloc| reloc.kind == kind)
}

/// Whether relocations stand in segments that aren't writable.
fn changes_text(tags: &[Tag]) -> bool
    ensures { result ≡ (has tags.now dt_textrel || has_flag tags.now dt_flags 4) }
{
    has(tags, DT_TEXTREL) || has_flag(tags, DT_FLAGS, DF_TEXTREL)
}

/// Whether a relocation, a slot's too, is of a type that isn't known.
#[tactic(auto, using(crate::proofs::Reading::any_of_both))]
fn has_other_type(relocs: Both) -> bool
    ensures { result ≡ list_any is_other_type (relocs.entry.others.now ++ relocs.entry.slots.now) }
{
    is_any_other(relocs.others) || is_any_other(relocs.slots)
}

/// Whether one of these relocations is of a type that isn't known.
fn is_any_other(relocs: &[Reloc]) -> bool
    ensures { result ≡ list_any is_other_type relocs.now }
{
    relocs.iter().any(|reloc| is_other_type(*reloc))
}

/// Whether the relocation is of a type that is neither linked nor a feature of its own.
fn is_other_type(reloc: Reloc) -> bool
    ensures { result ≡ is_other_type reloc }
{
    !matches!(
        reloc.kind,
        R_RISCV_NONE
            | R_RISCV_32
            | R_RISCV_64
            | R_RISCV_RELATIVE
            | R_RISCV_COPY
            | R_RISCV_JUMP_SLOT
            | R_RISCV_TLS_DTPMOD64
            | R_RISCV_TLS_DTPREL64
            | R_RISCV_TLS_TPREL64
            | R_RISCV_TLSDESC
            | R_RISCV_IRELATIVE
    )
}

/// Whether a segment may be written and run.
fn has_open_segment(headers: &[Header]) -> bool
    ensures { result ≡ has_open_segment headers.now }
{
    headers.iter().any(|header| is_loaded(header) && is_writable(header) && is_executable(header))
}

/// Whether the file stands at its own addresses.
fn is_exec(kind: Kind) -> bool
    ensures { result ≡ is_exec kind }
{
    matches!(kind, Kind::Exec)
}
