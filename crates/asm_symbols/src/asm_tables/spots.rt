//! Where sections and labels stand in the object.

ghost use Rattle.std.specs.Prelude.{◌≡◌, ◌<◌, List, length, Some};
ghost use Rattle.asm_statement.specs.declared.line.Line.{Line};
ghost use Rattle.asm_layout.specs.Labels.{label};
ghost use Rattle.asm_layout.specs.Places.{place_at};
ghost use Rattle.asm_layout.specs.Spots.{part_of, spot_of, got_plt_spot, label_spot, own_spot};
ghost use Rattle.asm_symbols.specs.AsmTables.Spots.{AreSpotsOf};

use asm_layout::Place;
use asm_places::Places;
use asm_statement::Section;
use asm_uses::{Uses, is_got_plt};
use asm_write::{Part, Spot};

/// The part of a section.
pub fn part_of(section: Section) -> Part
    ensures { result ≡ part_of section }
{
    match section {
        Section::Text => Part::Text,
        Section::Rodata => Part::Rodata,
        Section::Relro => Part::Relro,
        Section::Data => Part::Data,
        Section::Bss => Part::Bss,
        Section::Tdata => Part::Tdata,
        Section::Tbss => Part::Tbss,
    }
}

/// The spot of a place.
pub fn spot_of(place: Place) -> Spot
    ensures { result ≡ spot_of place }
{
    Spot {
        part: part_of(place.section),
        offset: place.offset,
    }
}

/// What tells where labels stand: what the lines say of names, and where the lines stand.
#[derive(Clone, Copy)]
pub struct Spots<'a> {
    pub uses: &'a Uses,
    pub places: &'a Places,
}

impl<'a> Spots<'a> {
    /// The place of a label.
    pub fn place(self, name: &[u8]) -> Option<Place>
        ensures { (lines : List Line) → AreSpotsOf lines self.entry → result ≡ label lines name.now }
    {
        match self.uses.labels.line(name) {
            Some(line) => self.line_place(line),
            None => None,
        }
    }

    /// The place of a line, counted from 0.
    pub fn line_place(self, line: usize) -> Option<Place>
        ensures { (lines : List Line) → AreSpotsOf lines self.entry → line < length lines → result ≡ Some (place_at lines line) }
    {
        self.places.lines.as_slice().get(line).copied()
    }

    /// The start of `.got.plt`, where that is the name and there is a slot.
    fn got_plt(self, name: &[u8]) -> Option<Spot>
        ensures { (lines : List Line) → AreSpotsOf lines self.entry → result ≡ got_plt_spot lines name.now }
    {
        if is_got_plt(name) && self.uses.slots.len() > 0 {
            Some(Spot {
                part: Part::GotPlt,
                offset: 0,
            })
        } else {
            None
        }
    }

    /// The spot of a label, or of the start of `.got.plt`.
    #[tactic(auto, unfolding(asm_layout::specs::Spots::label_spot))]
    pub fn spot(self, name: &[u8]) -> Option<Spot>
        ensures { (lines : List Line) → AreSpotsOf lines self.entry → result ≡ label_spot lines name.now }
    {
        match self.place(name) {
            Some(place) => Some(spot_of(place)),
            None => self.got_plt(name),
        }
    }

    /// The same of a name that is a label; the start of the object for one that is none.
    pub fn own_spot(self, name: &[u8]) -> Spot
        ensures { (lines : List Line) → AreSpotsOf lines self.entry → result ≡ own_spot lines name.now }
    {
        self.spot(name).unwrap_or(Spot {
            part: Part::Head,
            offset: 0,
        })
    }
}
