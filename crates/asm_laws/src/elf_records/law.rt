//! The laws.

ghost use Rattle.std.specs.Prelude.{◌≡◌, ◌+◌, ◌^◌, ◌<◌, ◌++◌, ◌∷◌, length, pos, slice_range, List, ℕ};
ghost use Rattle.std.specs.Int.{cast_signed, w64};
ghost use Rattle.ld_base.specs.Field.{field};
ghost use Rattle.ld_base.specs.declared.object.Kind.{Kind};
ghost use Rattle.ld_base.specs.declared.parts.Header.{Header};
ghost use Rattle.elf_head.specs.Header.{header_at};
ghost use Rattle.elf_head.specs.DynTable.Reloc.{reloc_at};
ghost use Rattle.elf_head.specs.DynTable.Symbol.{symbol_name, symbol_named};
ghost use Rattle.elf_head.specs.DynTable.Tag.{tag_at};
ghost use Rattle.asm_write.specs.declared.contents.Fix.{Fix};
ghost use Rattle.asm_write.specs.declared.contents.NeedRecord.{NeedRecord};
ghost use Rattle.asm_write.specs.declared.contents.NeededVersion.{NeededVersion};
ghost use Rattle.asm_write.specs.declared.contents.SymbolEntry.{SymbolEntry};
ghost use Rattle.asm_write.specs.declared.contents.VersionRecord.{VersionRecord};
ghost use Rattle.asm_write.specs.declared.entries.DynamicEntry.{DynamicEntry};
ghost use Rattle.asm_write.specs.declared.field.Field.{Field};
ghost use Rattle.asm_write.specs.declared.starts.Starts.{Starts};
ghost use Rattle.asm_write.specs.Fields.{record_bytes};
ghost use Rattle.asm_write.specs.Records.{dynamic_fields, head_fields, header_fields, need_fields, needed_fields, rela_fields, slot_fields, symbol_fields};
ghost use Rattle.asm_write.specs.Records.{version_fields};
ghost use Rattle.asm_write.specs.Records.{fix_addend, reloc_type, section_index, symbol_value, target_symbol, told_value};
ghost use Rattle.asm_write.specs.Starts.{address_in};
ghost use Rattle.asm_laws.specs.ElfRecords.Numbers.{AllFit, Fits, number, width, widths};
ghost use Rattle.asm_laws.specs.ElfRecords.Reads.{ReadsHead, ReadsNeed, ReadsNeeded, ReadsVersion};
ghost use Rattle.asm_laws.specs.ElfRecords.Standing.{StandAt};

/// Each field of a record has its number as far behind the record's begin as the fields before it take bytes.
pub fn fields_read_back()
    ensures { (bytes : List ℕ) (at : ℕ) (before : List Field) (f : Field) (rest : List Field) → StandAt bytes at (record_bytes (before ++ f ∷ rest)) → Fits f
        → field (width f) bytes (at + widths before) ≡ number f }
{}

/// Bytes that stand in bytes that stand in others stand in those.
pub fn inner_bytes_stand()
    ensures { (bytes part inner : List ℕ) (at place : ℕ) → StandAt bytes at part → StandAt part place inner → StandAt bytes (at + place) inner }
{}

/// Of bytes that stand one behind the other each stands in the whole.
pub fn joined_bytes_stand()
    ensures front { (xs ys : List ℕ) → StandAt (xs ++ ys) 0 xs }
    ensures behind { (xs ys : List ℕ) → StandAt (xs ++ ys) (length xs) ys }
{}

/// Bytes that stand at a place are what is cut out there.
pub fn bytes_are_cut_out()
    ensures { (bytes part : List ℕ) (at : ℕ) → StandAt bytes at part → slice_range bytes at (at + length part) ≡ part }
{}

/// The ELF header at the begin of a file: a reader has nothing against it, and finds the kind, the entry and the number of program headers.
pub fn heads_read_back()
    ensures { (bytes : List ℕ) (kind : Kind) (entry headers : ℕ) → entry < 2 ^ 64 → headers < 2 ^ 16
        → StandAt bytes 0 (record_bytes (head_fields kind entry headers))
        → ReadsHead bytes kind entry headers }
{}

/// A program header, wherever its bytes stand, is the one that the reader finds there.
pub fn headers_read_back()
    ensures { (bytes : List ℕ) (at : ℕ) (h : Header) → AllFit (header_fields h) → StandAt bytes at (record_bytes (header_fields h)) → header_at bytes at ≡ h }
{}

/// An entry of the dynamic table.
pub fn entries_read_back()
    ensures { (bytes : List ℕ) (at : ℕ) (starts : Starts) (e : DynamicEntry) → AllFit (dynamic_fields starts e)
        → StandAt bytes at (record_bytes (dynamic_fields starts e))
        → tag_at bytes at ≡ record { tag = e.tag; value = told_value starts e.told } }
{}

/// A symbol, and the offset of its name.
pub fn symbols_read_back()
    ensures { (bytes : List ℕ) (at : ℕ) (starts : Starts) (s : SymbolEntry) → AllFit (symbol_fields starts s)
        → StandAt bytes at (record_bytes (symbol_fields starts s))
        → (symbol_name bytes at ≡ s.name)
        × ((name : List ℕ) → symbol_named bytes at name
        ≡ record {
          name = name;
          info = s.info;
          other = s.other;
          shndx = section_index s.spot;
          value = symbol_value starts s.spot;
          size = s.size;
          version = 0;
        }) }
{}

/// A relocation of a place that the linker fills.
pub fn relocations_read_back()
    ensures { (bytes : List ℕ) (at : ℕ) (starts : Starts) (fix : Fix) → AllFit (rela_fields starts fix)
        → StandAt bytes at (record_bytes (rela_fields starts fix))
        → reloc_at bytes at ≡ record {
          place = address_in starts fix.spot;
          kind = reloc_type fix.kind fix.target;
          symbol = target_symbol fix.target;
          addend = cast_signed w64 (fix_addend starts fix.kind fix.target fix.addend);
        } }
{}

/// A relocation of a slot.
pub fn slots_read_back()
    ensures { (bytes : List ℕ) (at place symbol : ℕ) → AllFit (slot_fields place symbol) → StandAt bytes at (record_bytes (slot_fields place symbol))
        → reloc_at bytes at ≡ record { place = place; kind = 5; symbol = symbol; addend = pos 0 } }
{}

/// A version that is defined.
pub fn versions_read_back()
    ensures { (bytes : List ℕ) (at : ℕ) (v : VersionRecord) → AllFit (version_fields v) → StandAt bytes at (record_bytes (version_fields v))
        → ReadsVersion bytes at v }
{}

/// A file of which versions are needed.
pub fn needs_read_back()
    ensures { (bytes : List ℕ) (at : ℕ) (n : NeedRecord) → AllFit (need_fields n) → StandAt bytes at (record_bytes (need_fields n)) → ReadsNeed bytes at n }
{}

/// A version that is needed.
pub fn needed_versions_read_back()
    ensures { (bytes : List ℕ) (at : ℕ) (n : NeededVersion) → AllFit (needed_fields n) → StandAt bytes at (record_bytes (needed_fields n))
        → ReadsNeeded bytes at n }
{}
