//! Sources that are worked by hand, and what the test of an instruction's numbers tells.

ghost use Rattle.std.specs.Prelude.{◌≡◌, ◌++◌, ℤ, [], ◌∷◌, length, flat_map, replicate, Some, None, option_map, codes, Decides};
ghost use Rattle.std.specs.Int.{w32, w64, to_le_bytes};
ghost use Rattle.asm_statement.specs.declared.directive.Section.TheVariants as sections;
ghost use Rattle.asm_write.specs.Values.{symbol_bytes, gnu_bytes, rela_bytes, relr_bytes, fixed_bytes};
ghost use Rattle.asm_layout.specs.Object.{plt_bytes, section_bytes};
ghost use Rattle.rv_isa.specs.declared.instr.Instr.{Instr};
ghost use Rattle.rv_isa.specs.Encoding.{HasForm};
ghost use Rattle.ld_base.specs.declared.fault.AsmCause.TheVariants.{OutOfRange, DoubleLabel, UnknownLabel, WrongSection};
ghost use Rattle.asm_write.specs.declared.part.Part.TheVariants as parts;
ghost use Rattle.asm_statement.specs.declared.instruction.Instruction.{Instruction};
ghost use Rattle.asm_layout.specs.Expansions.{expansion};
ghost use Rattle.asm_layout.specs.Places.{words_in};
ghost use Rattle.asm_layout.specs.Examples.{program, library, library_contents, library_starts, twice, too_great, nowhere, misplaced};
ghost use Rattle.asm_layout.specs.Uses.{slots, imports};
ghost use Rattle.asm_layout.specs.Parts.{start_of};
ghost use Rattle.asm_write.specs.Relr.{relr_words};
ghost use Rattle.asm_layout.specs.Words.{words_at};
ghost use Rattle.asm_layout.specs.Faults.{fault_at, has_form};

/// A program that calls another object's function: one slot, one undefined symbol, and where its
/// parts start; the call of the slot and that of its own label as the machine reads them.
pub fn worked_program()
    ensures slots { slots program ≡ codes "f" ∷ [] }
    ensures imports { imports program ≡ codes "f" ∷ [] }
    ensures symbols { start_of program parts.Symbols ≡ 432 }
    ensures rela { start_of program parts.Rela ≡ 496 }
    ensures jmprel { start_of program parts.Jmprel ≡ 544 }
    ensures plt { start_of program parts.Plt ≡ 0x1000 }
    ensures text { start_of program parts.Text ≡ 0x1030 }
    ensures dynamic { start_of program parts.Dynamic ≡ 0x2000 }
    ensures got_plt { start_of program parts.GotPlt ≡ 0x3000 }
    ensures data_part { start_of program parts.Data ≡ 0x3018 }
    ensures slot_call { words_at program 2 ≡ 0x00000097 ∷ 0xff0080e7 ∷ [] }
    ensures own_call { words_at program 3 ≡ 0x00000097 ∷ 0x00c080e7 ∷ [] }
    ensures number { words_at program 5 ≡ 0x00500513 ∷ [] }
    ensures ret { words_at program 6 ≡ 0x00008067 ∷ [] }
{}

/// A library with a constructor and a thread-local word: what it exports, where its parts start, and
/// the words that take the offset from the global offset table.
pub fn worked_library()
    ensures imports { imports library ≡ [] }
    ensures rela { start_of library parts.Rela ≡ 488 }
    ensures relr { start_of library parts.Relr ≡ 512 }
    ensures rodata { start_of library parts.Rodata ≡ 520 }
    ensures text { start_of library parts.Text ≡ 0x1000 }
    ensures dynamic { start_of library parts.Dynamic ≡ 0x2000 }
    ensures got { start_of library parts.Got ≡ 0x20f0 }
    ensures init { start_of library parts.InitArray ≡ 0x20f8 }
    ensures tdata { start_of library parts.Tdata ≡ 0x2100 }
    ensures offset { words_at library 7 ≡ 0x00001517 ∷ 0x0f053503 ∷ [] }
    ensures packed { relr_words (0x1000 ∷ 0x1008 ∷ 0x1018 ∷ 0x5000 ∷ []) ≡ 0x1000 ∷ 11 ∷ 0x5000 ∷ [] }
{}

/// The bytes of parts of the two objects, by hand: the code of the slot, the symbol, its hash table, the
/// relocation of the thread-local word, the packed place with its word, and the sections.
pub fn worked_bytes()
    ensures plt { plt_bytes 0x1000 0x3000 1 ≡ flat_map (to_le_bytes w32) (
        0x00002397 ∷ 0x41c30333 ∷ 0x0003be03 ∷ 0xfd430313 ∷ 0x00038293 ∷ 0x00135313 ∷ 0x0082b283 ∷ 0x000e0067
        ∷ 0x00002e17 ∷ 0xff0e3e03 ∷ 0x000e0367 ∷ 0x00000013 ∷ []) }
    ensures symbols { symbol_bytes library_starts library_contents.symbols ≡ replicate 24 0
        ++ 3 ∷ 0 ∷ 0 ∷ 0 ∷ 0x12 ∷ 0 ∷ 1 ∷ 0 ∷ 0 ∷ 0x10 ∷ 0 ∷ 0 ∷ 0 ∷ 0 ∷ 0 ∷ 0 ∷ 12 ∷ 0 ∷ 0 ∷ 0 ∷ 0 ∷ 0 ∷ 0 ∷ 0 ∷ [] }
    ensures strings { library_contents.strings ≡ 0 ∷ codes "l" ++ 0 ∷ codes "f" ++ 0 ∷ [] }
    ensures gnu { option_map gnu_bytes library_contents.gnu ≡ Some (flat_map (to_le_bytes w32) (
        1 ∷ 1 ∷ 1 ∷ 6 ∷ 0x01000800 ∷ 0 ∷ 1 ∷ 0x2b60b ∷ [])) }
    ensures rela { rela_bytes library_starts library_contents.fixes ≡ flat_map (to_le_bytes w64) (0x20f0 ∷ 11 ∷ 0 ∷ []) }
    ensures relr { relr_bytes library_starts library_contents.fixes ≡ to_le_bytes w64 0x20f8 }
    ensures init { fixed_bytes library_starts library_contents.fixes parts.InitArray ≡ to_le_bytes w64 0x1000 }
    ensures tdata { section_bytes library library_starts sections.Tdata ≡ 7 ∷ replicate 7 0 }
    ensures text { section_bytes library library_starts sections.Text
        ≡ flat_map (to_le_bytes w32) (0x00001517 ∷ 0x0f053503 ∷ 0x00008067 ∷ []) }
{}

/// The first fault of four sources, each of one kind.
pub fn worked_faults()
    ensures twice { fault_at twice 1 ≡ Some DoubleLabel }
    ensures first { fault_at twice 0 ≡ None }
    ensures great { fault_at too_great 0 ≡ Some OutOfRange }
    ensures nowhere { fault_at nowhere 0 ≡ Some UnknownLabel }
    ensures misplaced { fault_at misplaced 1 ≡ Some WrongSection }
{}

/// An instruction passes the test exactly where its numbers are ones that its form can hold, as the
/// table of instructions has it.
pub fn forms_are_those_of_the_table()
    ensures { (instr : Instr) → Decides (has_form instr) (HasForm instr) }
{}

/// An instruction stands for as many words as its line has room for, whatever its number or its distance.
pub fn words_have_their_room()
    ensures { (instruction : Instruction) (value : ℤ) → length ((expansion instruction).instrs value) ≡ words_in instruction }
{}
