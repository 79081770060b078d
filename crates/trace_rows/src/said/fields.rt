//! Parts of lines that are the same.

ghost use Rattle.std.specs.Prelude.{◌≡◌, ◌↔◌, IsTrue};

use super::faults::same_fault;
use history_event::{CloseAnswer, SymAnswer};
use ld_base::Serials;

/// Whether two lists of serials are the same.
pub(super) fn same_serials(one: &Serials, other: &Serials) -> bool
    ensures { IsTrue result ↔ (one.now ≡ other.now) }
{
    one.as_slice() == other.as_slice()
}

/// Whether the same came of two look-ups.
pub(crate) fn same_found(one: &SymAnswer, other: &SymAnswer) -> bool
    ensures { IsTrue result ↔ (one.now ≡ other.now) }
{
    match one {
        SymAnswer::Found(object, symbol, address) => {
            matches!(other, SymAnswer::Found(o, s, a) if object == o && symbol == s && address == a)
        }
        SymAnswer::Refused(fault) => {
            matches!(other, SymAnswer::Refused(said) if same_fault(fault, said))
        }
    }
}

/// Whether the same came of two closings.
pub(crate) fn same_closing(one: &CloseAnswer, other: &CloseAnswer) -> bool
    ensures { IsTrue result ↔ (one.now ≡ other.now) }
{
    match one {
        CloseAnswer::Done(dying) => {
            matches!(other, CloseAnswer::Done(said) if same_serials(dying, said))
        }
        CloseAnswer::Refused(fault) => {
            matches!(other, CloseAnswer::Refused(said) if same_fault(fault, said))
        }
    }
}
