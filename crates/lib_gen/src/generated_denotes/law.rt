//! The law.

ghost use Rattle.std.specs.Prelude.{ℕ};
ghost use Rattle.std.specs.List.{All};
ghost use Rattle.lib_gen.specs.GeneratedSources.Sources.{sources};
ghost use Rattle.lib_gen.specs.GeneratedDenotes.Accepted.{HasObject, IsUnrefused};

use crate::generated_lines::sources_say;
use asm_laws::{alignments_divide_pages, sources_are_short, strings_are_said};
use asm_layout::one_answer;

/// Each source that a number makes denotes an object, and so none is refused, at whatever line and for
/// whatever cause.
pub fn sources_denote()
    ensures denote { (number : ℕ) → All (λ file. HasObject file.bytes) (sources number) }
    ensures unrefused { (number : ℕ) → All (λ file. IsUnrefused file.bytes) (sources number) }
{
    sources_say();
    sources_are_short();
    alignments_divide_pages();
    strings_are_said();
    one_answer();
}
