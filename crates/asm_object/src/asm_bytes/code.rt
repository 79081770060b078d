//! The bytes of all sections.

ghost use Rattle.std.specs.Prelude.{◌≡◌, length, IfOk};
ghost use Rattle.asm_write.specs.Starts.{starts_of};
ghost use Rattle.asm_layout.specs.Contents.{contents_of};
ghost use Rattle.asm_layout.specs.Object.{code_of};
ghost use Rattle.asm_layout.specs.Uses.{slots};
ghost use Rattle.asm_places.specs.Counts.{ArePlacesTo};
ghost use Rattle.asm_code.specs.Code.{AreWordsOf};
ghost use Rattle.asm_object.specs.AsmBytes.Numbers.{AreNumbersOf};

use crate::asm_bytes::plt::plt_bytes;
use crate::asm_bytes::sections::Source;
use asm_code::LineWords;
use asm_layout::Place;
use asm_statement::{Section, Statements};
use asm_write::{Part, SectionBytes, Starts};
use std::alloc::{AllocError, Global};

/// The bytes of the sections of a source, and of its procedure linkage table, by where its lines stand,
/// the words that they have, the numbers that their data holds, and how many slots there are.
///
/// # Errors
///
/// Want of memory.
#[tactic(auto, unfolding(asm_layout::specs::Object::code_of))]
pub fn code_of(
    alloc: Global,
    statements: &Statements,
    places: &[Place],
    words: &[LineWords],
    numbers: &[u64],
    slot_count: usize,
    starts: &Starts,
) -> Result<SectionBytes, AllocError>
    requires places { ArePlacesTo statements.now (length statements.now) places.now }
    requires words { AreWordsOf statements.now words.now }
    requires numbers { AreNumbersOf statements.now starts.now numbers.now }
    requires slots { slot_count ≡ length (slots statements.now) }
    requires starts { starts.now ≡ starts_of (contents_of statements.now) }
    ensures { IfOk result (λ code. code ≡ code_of statements.now starts.now) }
{
    let source = Source {
        places,
        words,
        numbers,
    };
    let rodata = source.section(alloc, statements, Section::Rodata)?;
    let plt = plt_bytes(
        alloc,
        starts.part(Part::Plt),
        starts.part(Part::GotPlt),
        slot_count,
    )?;
    let text = source.section(alloc, statements, Section::Text)?;
    let relro = source.section(alloc, statements, Section::Relro)?;
    let tdata = source.section(alloc, statements, Section::Tdata)?;
    let data = source.section(alloc, statements, Section::Data)?;
    Ok(SectionBytes {
        rodata: rodata.into(),
        plt: plt.into(),
        text: text.into(),
        relro: relro.into(),
        tdata: tdata.into(),
        data: data.into(),
    })
}
