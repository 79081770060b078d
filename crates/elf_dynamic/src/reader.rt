//! Reading the dynamic table and the tables that it names.

ghost use Rattle.std.specs.Prelude.{◌≡◌, ◌*◌, ◌<◌, ◌≤◌, ◌^◌, Ok, Err, IfOk, IsTrue, MatchResult, None, length, map, option_map};
ghost use Rattle.elf_head.specs.AcceptancePart.Broken.{first_broken};
ghost use Rattle.elf_head.specs.AcceptancePart.Gives.{Answers, Gives};
ghost use Rattle.elf_head.specs.Readable.{readable};
ghost use Rattle.elf_head.specs.Rules.{head_verdict};
ghost use Rattle.ld_base.specs.declared.fault.ReadFault.TheVariants as faults;
ghost use Rattle.elf_dynamic.specs.Memory.{AreLow};
ghost use Rattle.elf_dynamic.specs.Counted.{counted_in, rules_from_names};
ghost use Rattle.elf_dynamic.specs.Judged.{broken_at, ArePlaces, FaultIs};
ghost use Rattle.elf_dynamic.specs.Relr.{relr_places};
ghost use Rattle.elf_dynamic.specs.Rules.{bad_table, dynamic_verdict, rules_on, tables_verdict};
ghost use Rattle.elf_dynamic.specs.Verdict.{BreaksFirst, SpellsDynamic};
ghost use Rattle.elf_head.specs.DynTable.HashWords.{hash_words};
ghost use Rattle.elf_head.specs.DynTable.Name.{string_in};
ghost use Rattle.elf_head.specs.DynTable.Tag.{last_of, value_of, values_of};
ghost use Rattle.elf_head.specs.DynTable.TagNumbers.{dt_needed, dt_soname, dt_symtab};
ghost use Rattle.elf_dynamic.specs.Tables.{count_in, relr_bytes, strings_in, symbol_bytes, symbols_of};

use crate::feature::{Both, refused_feature};
use crate::law::one_verdict;
use crate::reloc_rules::judge_relocs;
use crate::relr::{Judged, MOST_PLACES};
use crate::slot_rules::{Slots, bad_slot};
use crate::string_rules::bad_string;
use crate::symbol_rules::bad_symbol;
use crate::table_rules::bad_table;
use crate::tables::{
    bytes_in, dynamic_tags, first_exported, flags_of, plt_span, rela_span, span_of, symbol_count,
};
use elf_head::{
    DT_FINI, DT_FINI_ARRAY, DT_FINI_ARRAYSZ, DT_INIT, DT_INIT_ARRAY, DT_INIT_ARRAYSZ, DT_NEEDED,
    DT_PLTGOT, DT_PREINIT_ARRAY, DT_PREINIT_ARRAYSZ, DT_RELR, DT_RELRSZ, DT_SONAME, DT_STRSZ,
    DT_STRTAB, DT_SYMTAB, SYMBOL_SIZE, accepted_head, file_bytes, file_part, last_of,
    read_hash_words, read_relocs, read_string, read_symbols, value_of, values_of, with_name,
};
use ld_base::{
    DynParts, Head, Name, Names, NotAccepted, ReadFault, Reloc, Relocs, SharedBytes, Symbol,
    Symbols, Tag, Tags,
};
use std::alloc::{AllocError, Global};
use std::marker::Model;

/// The fault of a rule that is broken with a number.
pub(crate) fn broken(rule: u8, number: u64) -> ReadFault
    ensures { result ≡ faults.NotAccepted (record { rule = rule; number = number }) }
{
    ReadFault::NotAccepted(NotAccepted { rule, number })
}

/// What the relocations and the hash tables say, and how many symbols they tell of.
#[derive(Drop)]
struct Counted {
    relocs: Relocs,
    plt_relocs: Relocs,
    first_exported: u32,
    count: u32,
}

/// Reads the relocations that aren't packed and the hash tables, where no table is bad (rule 11).
#[tactic(auto, using(crate::proofs::Reading::all_symbols, crate::proofs::Reading::few_symbols))]
fn read_counted(
    alloc: Global,
    bytes: &[u8],
    head: &Head,
    tags: &[Tag],
) -> Result<Counted, ReadFault>
    requires { head_verdict bytes.now ≡ Ok head.now }
    ensures read { MatchResult result
        (λ counted. (bad_table head.now.headers tags.now (hash_words bytes.now head.now.headers tags.now) (count_in bytes.now head.now.headers tags.now) ≡ None)
        × (counted ≡ counted_in bytes.now head.now.headers tags.now))
        (λ fault. FaultIs (option_map (broken_at 11) (bad_table head.now.headers tags.now (hash_words bytes.now head.now.headers tags.now)
        (count_in bytes.now head.now.headers tags.now))) fault) }
    ensures readable { IfOk result (λ c. IsTrue (readable head.now.headers (value_of tags.now dt_symtab) (24 * c.count))) }
{
    accepted_head();
    let words = read_hash_words(alloc, bytes, head, tags)?;
    let relocs = read_relocs(alloc, bytes_in(bytes, head, rela_span(tags)))?;
    let plt_relocs = read_relocs(alloc, bytes_in(bytes, head, plt_span(tags)))?;
    let count = symbol_count(&words, relocs.as_slice(), plt_relocs.as_slice());
    if let Some(tag) = bad_table(head.headers.as_slice(), tags, &words, count) {
        return Err(broken(11, tag));
    }
    Ok(Counted {
        relocs,
        plt_relocs,
        first_exported: first_exported(&words),
        count: count as u32,
    })
}

/// The bytes of the symbol table, which are in the file.
#[tactic(auto, unfolding(crate::specs::Tables::symbol_bytes))]
fn symbol_part<'a>(bytes: &'a [u8], head: &Head, tags: &[Tag], count: u32) -> &'a [u8]
    requires accepted { head_verdict bytes.now ≡ Ok head.now }
    requires count { count ≡ count_in bytes.now head.now.headers tags.now }
    requires readable { IsTrue (readable head.now.headers (value_of tags.now dt_symtab) (24 * count)) }
    ensures value { result.now ≡ symbol_bytes bytes.now head.now.headers tags.now }
    ensures size { 24 * count ≤ length result.now }
{
    let size = SYMBOL_SIZE * u64::from(count);
    match file_bytes(bytes, head, value_of(tags, DT_SYMTAB), size) {
        Some(part) => part,
        None => unreachable!(),
    }
}

/// The string table, in the memory of the file.
#[tactic(auto, unfolding(crate::specs::Tables::strings_in))]
fn strings_in(file: &SharedBytes, head: &Head, tags: &[Tag]) -> Result<SharedBytes, AllocError>
    requires { head_verdict file.now ≡ Ok head.now }
    ensures { IfOk result (λ strings. strings ≡ strings_in file.now head.now.headers tags.now) }
{
    let Some(span) = span_of(tags, DT_STRTAB, DT_STRSZ) else {
        return Ok(SharedBytes::new());
    };
    match file_part(file, head, span.start, span.size)? {
        Some(part) => Ok(part),
        None => Ok(SharedBytes::new()),
    }
}

/// The names of the needed objects.
fn needed_in(alloc: Global, strings: &SharedBytes, tags: &[Tag]) -> Result<Names, AllocError>
    ensures { IfOk result (λ names. names ≡ map (string_in strings.now) (values_of tags.now dt_needed)) }
{
    let mut names = Names::new(alloc);
    let mut name_bytes = 0;
    for offset in &values_of(alloc, tags, DT_NEEDED)? {
        let name = read_string(strings, *offset)?;
        name_bytes = with_name(name_bytes, &name)?;
        names.push(name)?;
    }
    Ok(names)
}

/// The object's own name, in memory of its own: what is kept of an opening keeps it, and not the file.
fn soname_in(alloc: Global, strings: &SharedBytes, tags: &[Tag]) -> Result<Option<Name>, AllocError>
    ensures { IfOk result (λ name. name ≡ option_map (string_in strings.now) (last_of tags.now dt_soname)) }
{
    match last_of(tags, DT_SONAME) {
        Some(offset) => {
            let name = read_string(strings, offset)?;
            Ok(Some(Name::new(alloc, name.as_bytes())?))
        }
        None => Ok(None),
    }
}

/// The tables of an object that aren't read yet as they are kept.
#[derive(Clone, Copy)]
struct Tables<'a> {
    bytes: &'a [u8],
    head: &'a Head,
    tags: &'a [Tag],
    symbols: &'a [Symbol],
    relocs: &'a [Reloc],
    slots: &'a [Reloc],
    packed: &'a [u8],
}

/// Judges symbols and relocations (rules 13 to 16).
fn judge(alloc: Global, tables: Tables, program: bool) -> Result<Judged, ReadFault>
    requires accepted { head_verdict tables.bytes.now ≡ Ok tables.head.now }
    requires low { AreLow tables.head.now.headers }
    requires short { length tables.packed.now ≤ 8_388_608 }
    requires few { length tables.relocs.now < 2 ^ 32 }
    ensures { MatchResult result
        (λ judged. (first_broken 13 (rules_on tables.entry.bytes.now tables.entry.head.now program tables.entry.tags.now
        tables.entry.symbols.now tables.entry.relocs.now tables.entry.slots.now tables.entry.packed.now) ≡ None)
        × ArePlaces judged (relr_places tables.entry.packed.now))
        (λ fault. FaultIs (first_broken 13 (rules_on tables.entry.bytes.now tables.entry.head.now program tables.entry.tags.now
        tables.entry.symbols.now tables.entry.relocs.now tables.entry.slots.now tables.entry.packed.now)) fault) }
{
    let headers = tables.head.headers.as_slice();
    if let Some(symbol) = bad_symbol(headers, tables.symbols) {
        return Err(broken(13, symbol as u64));
    }
    let judged = judge_relocs(alloc, headers, tables.symbols, tables.relocs, tables.packed)?;
    let both = Both {
        others: tables.relocs,
        slots: tables.slots,
    };
    if let Some(feature) = refused_feature(
        tables.head,
        program,
        tables.tags,
        tables.symbols,
        both,
    ) {
        return Err(broken(15, feature.number()));
    }
    let slots = Slots {
        bytes: tables.bytes,
        head: tables.head,
        symbols: tables.symbols,
        relocs: tables.slots,
        table: last_of(tables.tags, DT_PLTGOT),
    };
    if let Some(index) = bad_slot(alloc, slots, &judged.named)? {
        return Err(broken(16, index as u64));
    }
    Ok(judged)
}

/// Asks that the names of symbols have no more bytes together than names may have.
///
/// # Errors
///
/// Want of memory, where they have more.
fn bound_names(symbols: &[Symbol]) -> Result<(), AllocError> {
    let mut name_bytes = 0;
    for symbol in symbols {
        name_bytes = with_name(name_bytes, &symbol.name)?;
    }
    Ok(())
}

/// The tables of a file that break none of the rules 10 to 16, before it is asked whether they have too many
/// bytes of names or packed places: contracts see the parts that they say.
#[derive(Drop)]
pub struct JudgedParts<'a> {
    bytes: &'a [u8],
    head: &'a Head,
    tags: Tags,
    counted: Counted,
    strings: SharedBytes,
    symbols: Symbols,
    judged: Judged,
}

impl<'a> Model for JudgedParts<'a> {
    ghost use Rattle.ld_base.specs.declared.parts.DynParts.{DynParts};
    ghost use Rattle.elf_dynamic.specs.Counted.{AreJudged};
    ghost use Rattle.elf_dynamic.specs.Tables.{parts_in};

    ghost Value = { DynParts };

    ghost view = { λ p. parts_in p.bytes.now p.head.now.headers p.tags };

    ghost invariant = { λ p. AreJudged p.bytes.now p.head.now p.tags p.counted p.strings p.symbols p.judged };
}

impl<'a> JudgedParts<'a> {
    /// The entries of the dynamic table.
    #[tactic(auto, unfolding(crate::specs::Tables::parts_in))]
    pub fn tags(&self) -> &[Tag]
        ensures { result.now ≡ self.now.tags }
    {
        self.tags.as_slice()
    }

    /// The least symbol that a hash table may lead to.
    #[tactic(auto, unfolding(crate::specs::Tables::parts_in))]
    pub fn first_exported(&self) -> u32
        ensures { result ≡ self.now.first_exported }
    {
        self.counted.first_exported
    }

    /// The symbols, with version 0.
    #[tactic(auto, unfolding(crate::specs::Tables::parts_in))]
    pub fn symbols(&self) -> &Symbols
        ensures { result.now ≡ self.now.symbols }
    {
        &self.symbols
    }

    /// The parts. More than 64 MiB of names, or more places of packed relocations than are kept, are want of
    /// memory.
    ///
    /// # Errors
    ///
    /// Want of memory.
    #[tactic(auto, unfolding(crate::specs::Tables::parts_in))]
    pub fn into_parts(self, alloc: Global) -> Result<DynParts, AllocError>
        ensures { IfOk result (λ parts. parts ≡ self.entry) }
    {
        if self.judged.count > MOST_PLACES as u64 {
            return Err(AllocError);
        }
        bound_names(self.symbols.as_slice())?;
        let JudgedParts {
            bytes: _,
            head: _,
            tags,
            counted,
            strings,
            symbols,
            judged,
        } = self;
        let entries = tags.as_slice();
        Ok(DynParts {
            soname: soname_in(alloc, &strings, entries)?,
            needed: needed_in(alloc, &strings, entries)?,
            symbols,
            first_exported: counted.first_exported,
            relocs: counted.relocs,
            plt_relocs: counted.plt_relocs,
            pltgot: last_of(entries, DT_PLTGOT),
            preinit: span_of(entries, DT_PREINIT_ARRAY, DT_PREINIT_ARRAYSZ),
            init: last_of(entries, DT_INIT),
            init_array: span_of(entries, DT_INIT_ARRAY, DT_INIT_ARRAYSZ),
            fini: last_of(entries, DT_FINI),
            fini_array: span_of(entries, DT_FINI_ARRAY, DT_FINI_ARRAYSZ),
            flags: flags_of(entries),
            relr: judged.places,
            tags,
        })
    }
}

/// Judges what the tables with these entries say, of which none is bad (rules 12 to 16), and gives the symbols.
#[tactic(auto, unfolding(crate::specs::Tables::strings_in), using(crate::proofs::Reading::short_parts))]
fn judge_tables(
    alloc: Global,
    bytes: &[u8],
    head: &Head,
    program: bool,
    tags: &[Tag],
    counted: &Counted,
    strings: &SharedBytes,
) -> Result<(Symbols, Judged), ReadFault>
    requires accepted { head_verdict bytes.now ≡ Ok head.now }
    requires readable { IsTrue (readable head.now.headers (value_of tags.now dt_symtab) (24 * counted.now.count)) }
    requires counted { counted.now ≡ counted_in bytes.now head.now.headers tags.now }
    requires strings { strings.now ≡ strings_in bytes.now head.now.headers tags.now }
    ensures { MatchResult result
        (λ both. (first_broken 12 (rules_from_names bytes.now head.now program tags.now) ≡ None)
        × (both.0 ≡ symbols_of bytes.now head.now.headers tags.now)
        × ArePlaces both.1 (relr_places (relr_bytes bytes.now head.now.headers tags.now)))
        (λ fault. FaultIs (first_broken 12 (rules_from_names bytes.now head.now program tags.now)) fault) }
{
    accepted_head();
    let part = symbol_part(bytes, head, tags, counted.count);
    if let Some(offset) = bad_string(strings.as_slice(), tags, part, counted.count) {
        return Err(broken(12, offset));
    }
    let symbols = read_symbols(alloc, part, strings, counted.count)?;
    let tables = Tables {
        bytes,
        head,
        tags,
        symbols: symbols.as_slice(),
        relocs: counted.relocs.as_slice(),
        slots: counted.plt_relocs.as_slice(),
        packed: bytes_in(bytes, head, span_of(tags, DT_RELR, DT_RELRSZ)),
    };
    let judged = judge(alloc, tables, program)?;
    Ok((symbols, judged))
}

/// Judges the tables with these entries. No bound of memory comes before a rule that is broken.
#[tactic(auto, unfolding(crate::specs::Rules::tables_verdict), using(crate::proofs::Reading::rest_fault, crate::proofs::Reading::table_fault))]
fn judge_all<'a>(
    alloc: Global,
    file: &'a SharedBytes,
    head: &'a Head,
    program: bool,
    tags: Tags,
) -> Result<JudgedParts<'a>, ReadFault>
    requires { head_verdict file.now ≡ Ok head.now }
    ensures { Gives result (tables_verdict file.now head.now program tags) }
{
    let bytes = file.as_slice();
    let counted = read_counted(alloc, bytes, head, tags.as_slice())?;
    let strings = strings_in(file, head, tags.as_slice())?;
    let (symbols, judged) = judge_tables(
        alloc,
        bytes,
        head,
        program,
        tags.as_slice(),
        &counted,
        &strings,
    )?;
    Ok(JudgedParts {
        bytes,
        head,
        tags,
        counted,
        strings,
        symbols,
        judged,
    })
}

/// Judges the dynamic table of a file with this head, and the tables that it names, as those of the
/// program or of another object. What bounds memory comes later, so that a rule of another table may be
/// broken first.
///
/// # Errors
///
/// The first of the rules 10 to 16 that the tables break, with its number, or want of memory.
#[tactic(auto, unfolding(crate::specs::Rules::dynamic_verdict))]
pub fn judge_dynamic<'a>(
    alloc: Global,
    file: &'a SharedBytes,
    head: &'a Head,
    program: bool,
) -> Result<JudgedParts<'a>, ReadFault>
    requires { head_verdict file.now ≡ Ok head.now }
    ensures { Gives result (dynamic_verdict file.now head.now program) }
{
    match dynamic_tags(alloc, file.as_slice(), head)? {
        Some(tags) => judge_all(alloc, file, head, program, tags),
        None => Err(broken(10, 0)),
    }
}

/// The parts that the tables say, or the first rule that they break.
fn read_judged(
    alloc: Global,
    file: &SharedBytes,
    head: &Head,
    program: bool,
) -> Result<DynParts, ReadFault>
    requires { head_verdict file.now ≡ Ok head.now }
    ensures { Gives result (dynamic_verdict file.now head.now program) }
{
    let judged = judge_dynamic(alloc, file, head, program)?;
    Ok(judged.into_parts(alloc)?)
}

/// Reads the dynamic table of a file with this head, and the tables that it names, as those of the
/// program or of another object.
///
/// # Errors
///
/// The first of the rules 10 to 16 that the tables break, with its number, or want of memory: more than
/// 64 MiB of names, or more places of packed relocations than are kept, are that, too.
pub fn read_dynamic(
    alloc: Global,
    file: &SharedBytes,
    head: &Head,
    program: bool,
) -> Result<DynParts, ReadFault>
    requires { head_verdict file.now ≡ Ok head.now }
    ensures answers { Answers (SpellsDynamic file.now head.now program) (BreaksFirst file.now head.now program) result }
    ensures verdict { Gives result (dynamic_verdict file.now head.now program) }
{
    one_verdict();
    read_judged(alloc, file, head, program)
}
