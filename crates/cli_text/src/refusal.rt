//! What `bind` refuses of an object.

ghost use Rattle.std.specs.Prelude.{◌≡◌, ◌<◌, length, true, Some, IfOk};
ghost use Rattle.scope_rule.specs.Relocation.{names_symbols};
ghost use Rattle.cli_text.specs.Refusal.{missing_symbol, refusal_at, first_missing, refusal_of};
ghost use Rattle.cli_text.specs.Named.{AreNamed};

use crate::lines::version_of;
use ld_base::{Choice, DlFault, Loaded, Name, Reloc, Symbol};
use scope_rule::want_of;
use std::alloc::{AllocError, Global};
use sym_lookup::References;

/// The refusal of a reference to a symbol that has no definition.
fn missing_symbol(alloc: Global, owner: &Loaded, symbol: &Symbol) -> Result<DlFault, AllocError>
    ensures { IfOk result (λ fault. fault ≡ missing_symbol owner.now symbol.now) }
{
    let object = Name::new(alloc, owner.path.as_bytes())?;
    let name = Name::new(alloc, symbol.name.as_bytes())?;
    let want = want_of(alloc, &owner.object, symbol)?;
    let version = match version_of(&want) {
        Some(version) => Some(Name::new(alloc, version.as_bytes())?),
        None => None,
    };
    Ok(DlFault::MissingSymbol(Some(object), name, version))
}

/// What a relocation is refused for, if it is.
#[tactic(auto, unfolding(crate::specs::Refusal::refusal_at))]
fn refusal_at(
    alloc: Global,
    references: &mut References,
    owner: &Loaded,
    reloc: &Reloc,
) -> Result<Option<DlFault>, AllocError>
    requires symbol { reloc.now.symbol < length owner.now.object.symbols }
    requires owner { references.old.owner ≡ owner.now }
    ensures fault { IfOk result (λ fault. fault ≡ refusal_at references.old.seen owner.now reloc.now) }
    ensures same { references.new ≡ references.old }
{
    match references.choice(reloc) {
        Choice::Missing => {
            let symbol = &owner.object.symbols.as_slice()[reloc.symbol as usize];
            Ok(Some(missing_symbol(alloc, owner, symbol)?))
        }
        Choice::Def(_, _) | Choice::WeakZero => Ok(None),
    }
}

/// The first refusal of relocations in order, if one is refused.
fn first_missing(
    alloc: Global,
    references: &mut References,
    owner: &Loaded,
    relocs: &[Reloc],
) -> Result<Option<DlFault>, AllocError>
    requires named { AreNamed (length owner.now.object.symbols) relocs.now }
    requires owner { references.old.owner ≡ owner.now }
    ensures fault { IfOk result (λ fault. fault ≡ first_missing references.old.seen owner.now relocs.now) }
    ensures same { references.new ≡ references.old }
{
    for reloc in relocs {
        if let Some(fault) = refusal_at(alloc, references, owner, reloc)? {
            return Ok(Some(fault));
        }
    }
    Ok(None)
}

/// The first refusal of an object, whose references these are: of its relocations that aren't slots,
/// and then, where every slot is wanted, of its slots.
pub(crate) fn refusal_of(
    alloc: Global,
    references: &mut References,
    now: bool,
    owner: &Loaded,
) -> Result<Option<DlFault>, AllocError>
    requires names { names_symbols owner.now.object ≡ true }
    requires owner { references.old.owner ≡ owner.now }
    ensures fault { IfOk result (λ fault. fault ≡ refusal_of references.old.seen now owner.now) }
    ensures same { references.new ≡ references.old }
{
    let relocs = owner.object.relocs.as_slice();
    match first_missing(alloc, references, owner, relocs)? {
        Some(fault) => Ok(Some(fault)),
        None if now => first_missing(alloc, references, owner, owner.object.plt_relocs.as_slice()),
        None => Ok(None),
    }
}
