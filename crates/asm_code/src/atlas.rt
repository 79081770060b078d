//! Where names are.

ghost use Rattle.std.specs.Prelude.{◌≡◌, ◌+◌, ◌*◌, ◌^◌, ◌<◌, List, length, IfSome, Some, ℤ, true};
ghost use Rattle.asm_statement.specs.declared.line.Line.{Line};
ghost use Rattle.asm_layout.specs.Places.{place_at};
ghost use Rattle.asm_layout.specs.Words.{address, address_at, got_plt_address, label_address, slot_address, call_address, got_address, operand_value, distance};
ghost use Rattle.asm_layout.specs.Faults.{number_fits};
ghost use Rattle.asm_uses.specs.Operands.{operand_as};
ghost use Rattle.asm_code.specs.Atlas.{IsAtlasOf};
ghost use Rattle.asm_code.specs.Encoded.{IsModest, MayBe};

use asm_layout::{GotKind, Place};
use asm_places::{NeededFiles, Places, section_number, value_of};
use asm_uses::{Operand, Uses, is_got_plt};

/// Where the sections and the tables that code goes by start.
#[derive(Clone, Copy)]
pub struct Bases {
    /// The start of each section, in the order of the sections' numbers.
    pub sections: [u64; 7],
    /// The start of the procedure linkage table.
    pub plt: u64,
    /// The start of the global offset table.
    pub got: u64,
    /// The start of the slots' table.
    pub got_plt: u64,
}

/// What tells where names are: what the lines say of them, where the lines stand, where sections start.
#[derive(Clone, Copy)]
pub(crate) struct Atlas<'a> {
    pub uses: &'a Uses,
    pub needed: &'a NeededFiles,
    pub places: &'a Places,
    pub bases: &'a Bases,
}

/// The address at which a table starts.
fn beginning(base: u64) -> u128
    ensures value { result ≡ base }
    ensures bound { result < 2 ^ 65 }
{
    u128::from(base)
}

/// The address of a slot's entry in the procedure linkage table.
fn slot_entry(base: u64, slot: usize) -> u128
    ensures value { result ≡ base + 32 + 16 * slot }
    ensures bound { result < 2 ^ 70 }
{
    u128::from(base) + 32 + 16 * slot as u128
}

/// The address of a word of the global offset table.
fn word_address(base: u64, word: usize) -> u128
    ensures value { result ≡ base + 8 * word }
    ensures bound { result < 2 ^ 70 }
{
    u128::from(base) + 8 * word as u128
}

impl<'a> Atlas<'a> {
    /// The address of a place.
    pub fn address(self, place: Place) -> u128
        ensures value { (lines : List Line) → IsAtlasOf lines self.entry → result ≡ address lines place }
        ensures bound { result < 2 ^ 65 }
    {
        let base = self.bases.sections[section_number(place.section)];
        u128::from(base) + u128::from(place.offset)
    }

    /// The place of a line, counted from 0.
    pub fn place(self, line: usize) -> Option<Place>
        ensures { (lines : List Line) → IsAtlasOf lines self.entry → line < length lines → result ≡ Some (place_at lines line) }
    {
        self.places.lines.as_slice().get(line).copied()
    }

    /// The address of a line, counted from 0.
    pub fn line_address(self, line: usize) -> Option<u128>
        ensures value { (lines : List Line) → IsAtlasOf lines self.entry → line < length lines → result ≡ Some (address_at lines line) }
        ensures bound { IfSome result (λ address. address < 2 ^ 65) }
    {
        match self.place(line) {
            Some(place) => Some(self.address(place)),
            None => None,
        }
    }

    /// The address of `_GOTPLT_`, where that is the name.
    fn got_plt(self, name: &[u8]) -> Option<u128>
        ensures value { (lines : List Line) → IsAtlasOf lines self.entry → result ≡ got_plt_address lines name.now }
        ensures bound { IfSome result (λ address. address < 2 ^ 65) }
    {
        if is_got_plt(name) && self.uses.slots.len() > 0 {
            Some(beginning(self.bases.got_plt))
        } else {
            None
        }
    }

    /// The address of a label.
    fn label(self, name: &[u8]) -> Option<u128>
        ensures value { (lines : List Line) → IsAtlasOf lines self.entry → result ≡ label_address lines name.now }
        ensures bound { IfSome result (λ address. address < 2 ^ 65) }
    {
        match self.uses.labels.line(name) {
            Some(line) => self.line_address(line),
            None => self.got_plt(name),
        }
    }

    /// The address of a name's entry in the procedure linkage table.
    fn slot(self, name: &[u8]) -> Option<u128>
        ensures value { (lines : List Line) → IsAtlasOf lines self.entry → result ≡ slot_address lines name.now }
        ensures bound { IfSome result (λ address. address < 2 ^ 70) }
    {
        match self.uses.slots.number(name) {
            Some(slot) => Some(slot_entry(self.bases.plt, slot)),
            None => None,
        }
    }

    /// The address of a name's code.
    fn code(self, name: &[u8]) -> Option<u128>
        ensures value { (lines : List Line) → IsAtlasOf lines self.entry → result ≡ call_address lines name.now }
        ensures bound { IfSome result (λ address. address < 2 ^ 70) }
    {
        if self.uses.is_preemptible(name) {
            self.slot(name)
        } else {
            self.label(name)
        }
    }

    /// The address of what the global offset table has of a name.
    fn entry(self, kind: GotKind, name: &[u8]) -> Option<u128>
        ensures value { (lines : List Line) → IsAtlasOf lines self.entry
            → result ≡ got_address lines (record { kind = kind; name = name.now }) }
        ensures bound { IfSome result (λ address. address < 2 ^ 70) }
    {
        match self.uses.got.word(kind, name) {
            Some(word) => Some(word_address(self.bases.got, word)),
            None => None,
        }
    }

    /// How far it is from one address to another, where there is another.
    fn distance(here: u128, there: Option<u128>) -> Option<i128>
        requires here { here < 2 ^ 70 }
        requires there { IfSome there (λ address. address < 2 ^ 70) }
        ensures value { result ≡ distance here there }
        ensures modest { IfSome result IsModest }
    {
        match there {
            Some(there) => Some(there as i128 - here as i128),
            None => None,
        }
    }

    /// The number of an instruction at an address, or its distance from there.
    #[tactic(auto, unfolding(asm_layout::specs::Words::operand_value, asm_layout::specs::Words::target))]
    pub fn value(self, here: u128, operand: Operand<'_>) -> Option<i128>
        requires { here < 2 ^ 70 }
        ensures value { (lines : List Line) → IsAtlasOf lines self.entry → result ≡ operand_value lines here (operand_as operand.entry) }
        ensures modest { IfSome result IsModest }
        ensures range { number_fits (operand_as operand.entry) ≡ true → (v : ℤ) → result ≡ Some v → MayBe (operand_as operand.entry) v }
    {
        match operand {
            Operand::Registers => Some(0),
            Operand::Immediate(number) => value_of(number),
            Operand::Upper(number) => value_of(number),
            Operand::Word(number) => value_of(number),
            Operand::Label(name) => Atlas::distance(here, self.label(name)),
            Operand::Code(name) => Atlas::distance(here, self.code(name)),
            Operand::Entry(kind, name) => Atlas::distance(here, self.entry(kind, name)),
        }
    }
}
