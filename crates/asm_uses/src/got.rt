//! The global offset table.

ghost use Rattle.std.specs.Prelude.{◌≡◌, [], List, OnOk, option_map};
ghost use Rattle.asm_statement.specs.declared.line.Line.{Line};
ghost use Rattle.asm_layout.specs.declared.uses.GotUse.{GotUse as Use};
ghost use Rattle.asm_layout.specs.Uses.{got_use, got_uses, same_use};
ghost use Rattle.asm_layout.specs.Tables.{got_words};
ghost use Rattle.asm_uses.specs.Numbers.{number_of};
ghost use Rattle.asm_layout.specs.Once.{added, added_if};
ghost use Rattle.asm_uses.specs.Got.{numbers_in, IsGotOf, Notes};

use crate::first_numbers::FirstNumbers;
use crate::operand::Operand;
use asm_layout::{GotKind, GotUse};
use asm_statement::{Line, Statements};
use ld_base::{Name, Sequence};
use std::alloc::{AllocError, Global};

/// What the global offset table has of names, in the order of the first uses.
#[derive(Drop)]
pub struct Got {
    /// What stands there.
    pub uses: Sequence<GotUse>,
    /// How many words it has.
    pub words: usize,
    /// How many words stand before the address of a name.
    pub addresses: FirstNumbers,
    /// How many words stand before the module and the offset of a name.
    pub pairs: FirstNumbers,
    /// How many words stand before a name's offset from the thread pointer.
    pub offsets: FirstNumbers,
}

/// How many words a kind takes.
fn words_of(kind: GotKind) -> usize
    ensures { result ≡ got_words kind }
{
    match kind {
        GotKind::Address | GotKind::Offset => 1,
        GotKind::Pair => 2,
    }
}

/// What an instruction takes from the table.
fn use_of(line: &Line) -> Option<(GotKind, &[u8])>
    ensures { option_map (λ it. record { kind = it.0; name = it.1.now }) result ≡ got_use line.now.statement }
{
    match Operand::of_line(line) {
        Operand::Entry(kind, name) => Some((kind, name)),
        Operand::Registers
        | Operand::Immediate(_)
        | Operand::Upper(_)
        | Operand::Word(_)
        | Operand::Label(_)
        | Operand::Code(_) => None,
    }
}

impl Got {
    /// A table without words.
    pub(crate) fn new(alloc: Global) -> Self
        ensures { IsGotOf [] result }
    {
        Got {
            uses: Sequence::new(alloc),
            words: 0,
            addresses: FirstNumbers::new(alloc),
            pairs: FirstNumbers::new(alloc),
            offsets: FirstNumbers::new(alloc),
        }
    }

    /// How many words stand before what the table has of a name.
    pub fn word(&self, kind: GotKind, name: &[u8]) -> Option<usize>
        ensures { result ≡ number_of (numbers_in self.now kind) name.now }
    {
        match kind {
            GotKind::Address => self.addresses.get(name),
            GotKind::Pair => self.pairs.get(name),
            GotKind::Offset => self.offsets.get(name),
        }
    }

    /// Notes the word of a name.
    fn note(&mut self, alloc: Global, kind: GotKind, name: &[u8]) -> Result<(), AllocError>
        ensures { OnOk result (Notes kind name.now self.old self.new) }
    {
        match kind {
            GotKind::Address => self.addresses.note(alloc, name, self.words),
            GotKind::Pair => self.pairs.note(alloc, name, self.words),
            GotKind::Offset => self.offsets.note(alloc, name, self.words),
        }
    }

    /// Adds what the table has of a name, unless it has it already.
    fn add(&mut self, alloc: Global, kind: GotKind, name: &[u8]) -> Result<(), AllocError>
        ensures { OnOk result ((uses : List Use) → IsGotOf uses self.old
            → IsGotOf (added same_use uses (record { kind = kind; name = name.now })) self.new) }
    {
        if self.word(kind, name).is_some() {
            return Ok(());
        }
        let Some(words) = self.words.checked_add(words_of(kind)) else {
            return Err(AllocError);
        };
        self.note(alloc, kind, name)?;
        let name = Name::new(alloc, name)?;
        self.uses.push(GotUse { kind, name })?;
        self.words = words;
        Ok(())
    }

    /// The same of what a line takes, where it takes something.
    fn add_line(&mut self, alloc: Global, line: &Line) -> Result<(), AllocError>
        ensures { OnOk result ((uses : List Use) → IsGotOf uses self.old
            → IsGotOf (added_if same_use uses (got_use line.now.statement)) self.new) }
    {
        match use_of(line) {
            Some((kind, name)) => self.add(alloc, kind, name),
            None => Ok(()),
        }
    }

    /// Fills in that of the lines of a source.
    ///
    /// # Errors
    ///
    /// Want of memory.
    pub(crate) fn fill(&mut self, alloc: Global, statements: &Statements) -> Result<(), AllocError>
        requires { IsGotOf [] self.old }
        ensures { OnOk result (IsGotOf (got_uses statements.now) self.new) }
    {
        for line in statements.as_slice() {
            self.add_line(alloc, line)?;
        }
        Ok(())
    }
}
