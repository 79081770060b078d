//! The bytes of sections.

ghost use Rattle.std.specs.Prelude.{◌≡◌, ◌++◌, ◌∷◌, [], ◌<◌, ℕ, List, length, IfOk, OnOk, Some, flat_map, replicate, slice_get};
ghost use Rattle.std.specs.Int.{w32, to_le_bytes};
ghost use Rattle.asm_write.specs.declared.starts.Starts.{Starts};
ghost use Rattle.asm_statement.specs.declared.line.Line.{Line};
ghost use Rattle.asm_layout.specs.Object.{data_bytes, directive_bytes, statement_bytes, bytes_in, section_bytes};
ghost use Rattle.asm_layout.specs.Places.{place_at};
ghost use Rattle.asm_layout.specs.Words.{words_at};
ghost use Rattle.asm_code.specs.Encoded.{word_list};
ghost use Rattle.asm_object.specs.AsmBytes.Numbers.{directive_number, statement_number};
ghost use Rattle.asm_object.specs.AsmBytes.Source.{IsSourceOf};

use asm_code::LineWords;
use asm_layout::Place;
use asm_places::{count_of, padding, section_number};
use asm_statement::{DataSize, Directive, Line, Section, Statement, Statements};
use std::alloc::{AllocError, Global};

/// What tells the bytes of lines: where the lines stand, which words they have, and which numbers their
/// data holds.
#[derive(Clone, Copy)]
pub(crate) struct Source<'a> {
    pub places: &'a [Place],
    pub words: &'a [LineWords],
    pub numbers: &'a [u64],
}

/// Appends the lowest bytes of a number.
fn push_data(out: &mut Vec<u8>, size: DataSize, number: u64) -> Result<(), AllocError>
    ensures { OnOk result (out.new.items ≡ out.old.items ++ data_bytes size number) }
{
    let bytes = number.to_le_bytes();
    match size {
        DataSize::Word => out.extend_from_slice(&bytes[..4]),
        DataSize::Half => out.extend_from_slice(&bytes[..2]),
        DataSize::Byte => out.extend_from_slice(&bytes[..1]),
    }
}

/// Appends zeros.
fn push_zeros(out: &mut Vec<u8>, count: u64) -> Result<(), AllocError>
    ensures { OnOk result (out.new.items ≡ out.old.items ++ replicate count 0) }
{
    for _zero in 0..count {
        out.push(0)?;
    }
    Ok(())
}

/// Appends a text and a zero byte.
fn push_text(out: &mut Vec<u8>, text: &[u8]) -> Result<(), AllocError>
    ensures { OnOk result (out.new.items ≡ out.old.items ++ (text.now ++ 0 ∷ [])) }
{
    out.extend_from_slice(text)?;
    out.extend_from_slice(&[0])
}

/// Appends the words of a line.
fn push_words(out: &mut Vec<u8>, words: LineWords) -> Result<(), AllocError>
    ensures { OnOk result (out.new.items ≡ out.old.items ++ flat_map (to_le_bytes w32) (word_list words)) }
{
    match words {
        LineWords::Nothing => Ok(()),
        LineWords::One(word) => out.extend_from_slice(&word.to_le_bytes()),
        LineWords::Two(first, second) => {
            out.extend_from_slice(&first.to_le_bytes())?;
            out.extend_from_slice(&second.to_le_bytes())
        }
    }
}

/// Appends what a directive puts at its place, whose data holds this number.
#[tactic(auto, unfolding(crate::specs::AsmBytes::Numbers::directive_number))]
fn push_directive(
    out: &mut Vec<u8>,
    place: Place,
    number: u64,
    directive: &Directive,
) -> Result<(), AllocError>
    ensures { (lines : List Line) (starts : Starts) → number ≡ directive_number lines starts place directive.now
        → OnOk result (out.new.items ≡ out.old.items ++ directive_bytes lines starts place directive.now) }
{
    match directive {
        Directive::Data(size, _) => push_data(out, *size, number),
        Directive::Dword(_) => out.extend_from_slice(&number.to_le_bytes()),
        Directive::Zero(count) => push_zeros(out, count_of(*count)),
        Directive::Asciz(text) => push_text(out, text.as_slice()),
        Directive::Align(alignment) => push_zeros(out, padding(place.offset, *alignment)),
        Directive::Soname(_)
        | Directive::Needed(_)
        | Directive::Entry(_)
        | Directive::Export(..)
        | Directive::Weak(_)
        | Directive::Version(_)
        | Directive::Entries(..)
        | Directive::Section(_)
        | Directive::Kind(_)
        | Directive::Hash(_)
        | Directive::Flags(_)
        | Directive::Symver(_)
        | Directive::Need(_)
        | Directive::Relr
        | Directive::Copy(..) => Ok(()),
    }
}

/// Appends what a line puts at its place that has these words, and whose data holds this number.
fn push_statement(
    out: &mut Vec<u8>,
    place: Place,
    words: LineWords,
    number: u64,
    line: &Line,
) -> Result<(), AllocError>
    ensures { (lines : List Line) (starts : Starts) (k : ℕ) → place ≡ place_at lines k → word_list words ≡ words_at lines k
        → number ≡ statement_number lines starts place line.now.statement
        → OnOk result (out.new.items ≡ out.old.items ++ statement_bytes lines starts k line.now.statement) }
{
    match &line.statement {
        None => Ok(()),
        Some(Statement::Directive(directive)) => push_directive(out, place, number, directive),
        Some(Statement::Instruction(_)) => push_words(out, words),
    }
}

impl<'a> Source<'a> {
    /// Appends what a line with a number from 0 puts into a section, where it stands at this place.
    fn push_placed(
        self,
        out: &mut Vec<u8>,
        section: Section,
        number: usize,
        place: Place,
        line: &Line,
    ) -> Result<(), AllocError>
        requires words { number < length self.words.now }
        requires numbers { number < length self.numbers.now }
        ensures { (lines : List Line) (starts : Starts) → IsSourceOf lines starts self.entry → slice_get lines number ≡ Some line.now
            → place ≡ place_at lines number
            → OnOk result (out.new.items ≡ out.old.items ++ bytes_in lines starts section number line.now) }
    {
        if section_number(section) == section_number(place.section) {
            push_statement(out, place, self.words[number], self.numbers[number], line)
        } else {
            Ok(())
        }
    }

    /// Appends what a line with a number from 0 puts into a section.
    fn push_line(
        self,
        out: &mut Vec<u8>,
        section: Section,
        number: usize,
        line: &Line,
    ) -> Result<(), AllocError>
        requires places { number < length self.places.now }
        requires words { number < length self.words.now }
        requires numbers { number < length self.numbers.now }
        ensures { (lines : List Line) (starts : Starts) → IsSourceOf lines starts self.entry → slice_get lines number ≡ Some line.now
            → OnOk result (out.new.items ≡ out.old.items ++ bytes_in lines starts section number line.now) }
    {
        self.push_placed(out, section, number, self.places[number], line)
    }

    /// The bytes of a section.
    ///
    /// # Errors
    ///
    /// Want of memory.
    pub fn section(
        self,
        alloc: Global,
        statements: &Statements,
        section: Section,
    ) -> Result<Vec<u8>, AllocError>
        requires places { length statements.now ≡ length self.places.now }
        requires words { length statements.now ≡ length self.words.now }
        requires numbers { length statements.now ≡ length self.numbers.now }
        ensures { (starts : Starts) → IsSourceOf statements.now starts self.entry
            → IfOk result (λ bytes. bytes.items ≡ section_bytes statements.now starts section) }
    {
        let mut out = Vec::new(alloc);
        for (number, line) in statements.as_slice().iter().enumerate() {
            self.push_line(&mut out, section, number, line)?;
        }
        Ok(out)
    }
}
