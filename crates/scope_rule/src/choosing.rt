//! Which definition a reference is bound to.

ghost use Rattle.std.specs.Prelude.{◌≡◌, ◌<◌, ◌==◌, filter, length, IsSome, IfSome, IfOk};
ghost use Rattle.scope_rule.specs.Loading.{object_of};
ghost use Rattle.scope_rule.specs.Seen.{seen, seen_in};
ghost use Rattle.scope_rule.specs.Choose.{pick_at, first_with, want_of, is_own, choice_of, searched, choose_for, choose_of};
ghost use Rattle.scope_rule.specs.Relocation.{choice_at};

use crate::linker_object::linker_symbol;
use crate::namespace::Namespace;
use crate::relocation::{has_no_symbol, is_copy};
use crate::scoping::scope;
use crate::view::View;
use ld_base::{Choice, Loaded, Name, Object, Reloc, Serial, Serials, Symbol, Want, pick};
use std::alloc::{AllocError, Global};

/// What an object of the namespace, or the linker's own, has for a name and a version.
#[tactic(auto, unfolding(crate::specs::Choose::pick_at))]
fn pick_at(view: &View, name: &[u8], want: &Want, serial: Serial) -> Option<u32>
    ensures { result ≡ pick_at (seen view.now) name.now want.now serial }
{
    if serial == Serial::LINKER {
        return linker_symbol(name);
    }
    match view.object(serial) {
        Some(loaded) => pick(&loaded.object, name, want),
        None => None,
    }
}

/// The first object of the list that has a definition, with its symbol.
pub(crate) fn first_with(
    view: &View,
    name: &[u8],
    want: &Want,
    scope: &[Serial],
) -> Option<(Serial, u32)>
    ensures { result ≡ first_with (pick_at (seen view.now) name.now want.now) scope.now }
{
    for serial in scope {
        if let Some(index) = pick_at(view, name, want, *serial) {
            return Some((*serial, index));
        }
    }
    None
}

/// The version that a relocation against a symbol asks for: that of the symbol's index, if the index
/// names one (Drepper, "ELF Symbol Versioning").
///
/// # Errors
///
/// Want of memory.
pub fn want_of(alloc: Global, object: &Object, symbol: &Symbol) -> Result<Want, AllocError>
    ensures { IfOk result (λ w. w ≡ want_of object.now symbol.now) }
{
    if symbol.version_index() < 2 {
        return Ok(Want::Plain);
    }
    match object.version_name(symbol.version_index()) {
        Some(name) => Ok(Want::Version(Name::new(alloc, name.as_bytes())?)),
        None => Ok(Want::Plain),
    }
}

/// Whether no other object may define the symbol.
pub fn is_own(symbol: &Symbol) -> bool
    ensures { result ≡ is_own symbol.now }
{
    symbol.is_local() || (symbol.is_defined() && symbol.other % 4 != 0)
}

/// What a search gives for a symbol.
pub fn choice_of(symbol: &Symbol, found: Option<(Serial, u32)>) -> Choice
    ensures { result ≡ choice_of symbol.now found }
{
    match found {
        Some((serial, index)) => Choice::Def(serial, index),
        None if symbol.is_weak() => Choice::WeakZero,
        None => Choice::Missing,
    }
}

/// Where a reference is searched: a COPY's isn't searched in the object that has it.
fn searched(alloc: Global, view: &View, owner: &Loaded, copy: bool) -> Result<Serials, AllocError>
    ensures { IfOk result (λ s. s ≡ searched (seen view.now) owner.now copy) }
{
    let scope = scope(alloc, view, owner)?;
    if !copy {
        return Ok(scope);
    }
    let others: Vec<Serial> = scope
        .as_slice()
        .iter()
        .copied()
        .filter(|serial| *serial != owner.serial)
        .collect(alloc)?;
    Ok(Serials::from(others))
}

/// The same as [`choose`], of an object and its symbol at an index.
#[tactic(auto, unfolding(crate::specs::Choose::choose_for))]
fn choose_for(
    alloc: Global,
    view: &View,
    owner: &Loaded,
    index: u32,
    symbol: &Symbol,
    copy: bool,
) -> Result<Choice, AllocError>
    ensures { IfOk result (λ c. c ≡ choose_for (seen view.now) owner.now index symbol.now copy) }
{
    if !copy && is_own(symbol) {
        return Ok(Choice::Def(owner.serial, index));
    }
    let want = want_of(alloc, &owner.object, symbol)?;
    let scope = searched(alloc, view, owner, copy)?;
    let found = first_with(view, symbol.name.as_bytes(), &want, scope.as_slice());
    Ok(choice_of(symbol, found))
}

/// The definition that a relocation of `owner` against its symbol of this index is bound to
/// (gABI, "Symbol Table" and "Shared Object Dependencies"; psABI, COPY). `copy` says that the
/// relocation is a COPY: its own object is then left out of the search.
///
/// # Errors
///
/// Want of memory.
pub fn choose(
    alloc: Global,
    ns: &Namespace,
    owner: Serial,
    symbol: u32,
    copy: bool,
) -> Result<Choice, AllocError>
    requires owner_is_there { IsSome (object_of (seen_in ns.now) owner) }
    requires symbol_is_there { IfSome (object_of (seen_in ns.now) owner) (λ o. symbol < length o.object.symbols) }
    ensures { IfOk result (λ c. c ≡ choose_of (seen_in ns.now) owner symbol copy) }
{
    choose_in(alloc, &ns.view(), owner, symbol, copy)
}

/// The same as [`choose`], of what is seen of a namespace.
///
/// # Errors
///
/// Want of memory.
pub fn choose_in(
    alloc: Global,
    view: &View,
    owner: Serial,
    symbol: u32,
    copy: bool,
) -> Result<Choice, AllocError>
    requires owner_is_there { IsSome (object_of (seen view.now) owner) }
    requires symbol_is_there { IfSome (object_of (seen view.now) owner) (λ o. symbol < length o.object.symbols) }
    ensures { IfOk result (λ c. c ≡ choose_of (seen view.now) owner symbol copy) }
{
    let loaded = view.object(owner).unwrap();
    let entry = &loaded.object.symbols.as_slice()[symbol as usize];
    choose_for(alloc, view, loaded, symbol, entry, copy)
}

/// The choice of a relocation of `owner` when the object is loaded (psABI, "Relocations"). One of no
/// symbol (NONE, RELATIVE) makes no search, and the null symbol is the object's own.
///
/// # Errors
///
/// Want of memory.
#[tactic(auto, unfolding(crate::specs::Relocation::choice_at))]
pub fn choose_reloc(
    alloc: Global,
    view: &View,
    owner: &Loaded,
    reloc: &Reloc,
) -> Result<Choice, AllocError>
    requires symbol_is_there { reloc.now.symbol < length owner.now.object.symbols }
    ensures { IfOk result (λ c. c ≡ choice_at (seen view.now) owner.now reloc.now) }
{
    if has_no_symbol(reloc) {
        return Ok(Choice::WeakZero);
    }
    if reloc.symbol == 0 {
        return Ok(Choice::Def(owner.serial, 0));
    }
    let symbol = &owner.object.symbols.as_slice()[reloc.symbol as usize];
    choose_for(alloc, view, owner, reloc.symbol, symbol, is_copy(reloc))
}
