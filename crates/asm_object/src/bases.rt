//! Where sections and tables start.

ghost use Rattle.std.specs.Prelude.{◌≡◌, List};
ghost use Rattle.asm_write.specs.Starts.{starts_of};
ghost use Rattle.asm_statement.specs.declared.line.Line.{Line};
ghost use Rattle.asm_layout.specs.Contents.{contents_of};
ghost use Rattle.asm_code.specs.Atlas.{AreBasesOf};

use asm_code::Bases;
use asm_write::{Part, Starts};

/// Where the sections and tables that code goes by start.
pub(crate) fn bases_of(starts: &Starts) -> Bases
    ensures { (lines : List Line) → starts.now ≡ starts_of (contents_of lines) → AreBasesOf lines result }
{
    Bases {
        sections: [
            starts.part(Part::Text),
            starts.part(Part::Rodata),
            starts.part(Part::Relro),
            starts.part(Part::Data),
            starts.part(Part::Bss),
            starts.part(Part::Tdata),
            starts.part(Part::Tbss),
        ],
        plt: starts.part(Part::Plt),
        got: starts.part(Part::Got),
        got_plt: starts.part(Part::GotPlt),
    }
}
