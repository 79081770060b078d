//! How far the labels of lines reach.

ghost use Rattle.std.specs.Prelude.{◌≡◌, ◌<◌, ◌&&◌, Some, IfOk, if◌then◌else◌, length, slice_get};
ghost use Rattle.asm_statement.specs.declared.directive.Section.{Section as Sections};
ghost use Rattle.asm_layout.specs.Places.{is_section};
ghost use Rattle.asm_places.specs.Counts.{ArePlacesOf};
ghost use Rattle.asm_symbols.specs.Reaches.{AreSizesFrom, defines_some, end_of};

use asm_layout::Place;
use asm_places::{Places, section_number};
use asm_statement::{Directive, Line, Section, Statement, Statements};
use std::alloc::{AllocError, Global};

/// Where the next label of each section stands, or else where the section ends.
#[derive(Clone, Copy)]
struct Ends {
    offsets: [u64; 7],
}

/// Whether a line defines a name.
fn defines_some(line: &Line) -> bool
    ensures { result ≡ defines_some line.now }
{
    line.label.is_some()
        || matches!(
            &line.statement,
            Some(Statement::Directive(Directive::Copy(..)))
        )
}

impl Ends {
    /// The end of a section.
    fn of(self, section: Section) -> u64
        ensures { result ≡ end_of self section }
    {
        self.offsets[section_number(section)]
    }

    /// The ends before a line that stands at a place.
    fn before(self, line: &Line, place: Place) -> Self
        ensures { (section : Sections) → end_of result section
            ≡ (if is_section section place.section && defines_some line.now then place.offset else end_of self section) }
    {
        if defines_some(line) {
            let mut offsets = self.offsets;
            offsets[section_number(place.section)] = place.offset;
            Ends { offsets }
        } else {
            self
        }
    }
}

/// The place of a line, counted from 0.
fn place_of(places: &[Place], number: usize) -> Place
    requires { number < length places.now }
    ensures { slice_get places.now number ≡ Some result }
{
    places[number]
}

/// How far it is from each line to the next line of its section that defines a name, or to the section's
/// end.
#[derive(Drop)]
pub struct LabelSizes {
    pub sizes: Vec<u64>,
}

impl LabelSizes {
    /// Those of the lines of a source, from the last one to the first.
    ///
    /// # Errors
    ///
    /// Want of memory.
    pub fn of(alloc: Global, statements: &Statements, places: &Places) -> Result<Self, AllocError>
        requires { ArePlacesOf statements.now places.now }
        ensures { IfOk result (λ all. AreSizesFrom statements.now 0 all.sizes.items) }
    {
        let lines = statements.as_slice();
        let places_of = places.lines.as_slice();
        let mut ends = Ends {
            offsets: places.end.filled,
        };
        let mut sizes = vec![in alloc; 0u64; lines.len()]?;
        for number in (0..lines.len()).rev() {
            let place = place_of(places_of, number);
            sizes[number] = ends.of(place.section).saturating_sub(place.offset);
            ends = ends.before(&lines[number], place);
        }
        Ok(LabelSizes { sizes })
    }
}
