//! Refusals of relocations.

ghost use Rattle.std.specs.Prelude.{◌≡◌, ◌<◌, ◌^◌, ◌==◌, if◌then◌else◌, length, Some, map, IfOk};
ghost use Rattle.std.specs.Option.{option_copied};
ghost use Rattle.history_state.specs.Bound.{place_of};
ghost use Rattle.history_state.specs.Relocating.{is_missing, missing_symbol, not_code, reloc_fault_by, slot_fault_by, version_of};
ghost use Rattle.history_state.specs.State.{State};
ghost use Rattle.relocator.specs.Bindings.{chosen};
ghost use Rattle.relocator.specs.Storage.{lacks_offset, offset_of};
ghost use Rattle.relocator.specs.declared.binding.Binding.{Binding};
ghost use Rattle.scope_rule.specs.Seen.{seen};
ghost use Rattle.seg_image.specs.Accepted.{Accepted};
ghost use Rattle.link_finds.specs.SeenChoices.Seeing.{StandsIn};
ghost use Rattle.link_open_plan.specs.ObjectChoices.Sight.{CanSee, Shows};

use crate::object_choices::sight::Sight;
use ld_base::{Choice, DlFault, Loaded, Name, Reloc, Serial, Want};
use link_finds::leads_to_code;
use link_spaces::moved_word;
use relocator::TlsPlaces;
use scope_rule::want_of;
use std::alloc::{AllocError, Global};

/// Where the definition lies in each static block.
const R_RISCV_TLS_TPREL64: u32 = 11;

/// The version that is wanted, where it has a name.
fn version_of(want: &Want) -> Option<&Name>
    ensures { option_copied result ≡ version_of want.now }
{
    match want {
        Want::Version(version) | Want::Dlvsym(version) => Some(version),
        Want::Plain | Want::Dlsym => None,
    }
}

/// Whether nothing was found.
fn is_missing(choice: &Choice) -> bool
    ensures { result ≡ is_missing choice.now }
{
    matches!(choice, Choice::Missing)
}

/// The refusal of a relocation whose symbol has no definition.
fn missing_symbol(alloc: Global, owner: &Loaded, reloc: &Reloc) -> Result<DlFault, AllocError>
    requires symbol { reloc.now.symbol < length owner.now.object.symbols }
    ensures { IfOk result (λ fault. fault ≡ missing_symbol owner.now reloc.now) }
{
    let symbol = &owner.object.symbols.as_slice()[reloc.symbol as usize];
    let object = Name::new(alloc, owner.path.as_bytes())?;
    let name = Name::new(alloc, symbol.name.as_bytes())?;
    let want = want_of(alloc, &owner.object, symbol)?;
    let version = match version_of(&want) {
        Some(version) => Some(Name::new(alloc, version.as_bytes())?),
        None => None,
    };
    Ok(DlFault::MissingSymbol(Some(object), name, version))
}

/// The refusal of a slot that would not lead to code.
fn not_code(alloc: Global, owner: &Loaded, slot: &Reloc) -> Result<DlFault, AllocError>
    requires symbol { slot.now.symbol < length owner.now.object.symbols }
    ensures { IfOk result (λ fault. fault ≡ not_code owner.now slot.now) }
{
    let symbol = &owner.object.symbols.as_slice()[slot.symbol as usize];
    let object = Name::new(alloc, owner.path.as_bytes())?;
    let name = Name::new(alloc, symbol.name.as_bytes())?;
    Ok(DlFault::NotCode(object, name))
}

/// The object that a relocation of thread-local storage means: by the null symbol its own.
fn meant(serial: Serial, reloc: &Reloc, choice: &Choice) -> Option<Serial>
    ensures { result ≡ (if reloc.now.symbol == 0 then Some serial else chosen choice.now) }
{
    if reloc.symbol == 0 {
        return Some(serial);
    }
    match *choice {
        Choice::Def(serial, _) => Some(serial),
        Choice::WeakZero | Choice::Missing => None,
    }
}

/// The offset of an object's module in each static block.
fn offset_of(places: &TlsPlaces, serial: Serial) -> Option<u64>
    ensures { result ≡ offset_of places.now (Some serial) }
{
    for place in places.as_slice() {
        if place.serial == serial {
            return place.offset;
        }
    }
    None
}

/// Whether a relocation is a TLS_TPREL64 of an object without an offset in each static block.
fn lacks_offset(places: &TlsPlaces, serial: Serial, reloc: &Reloc, choice: &Choice) -> bool
    ensures { (b : Binding) → b.object ≡ chosen choice.now → result ≡ lacks_offset serial places.now (reloc.now, b) }
{
    if reloc.kind != R_RISCV_TLS_TPREL64 {
        return false;
    }
    match meant(serial, reloc, choice) {
        Some(object) => offset_of(places, object).is_none(),
        None => false,
    }
}

/// What a relocation of DT_RELA is refused for, if it is.
pub(crate) fn reloc_fault(
    alloc: Global,
    places: &TlsPlaces,
    owner: &Loaded,
    reloc: &Reloc,
    choice: &Choice,
) -> Result<Option<DlFault>, AllocError>
    requires symbol { reloc.now.symbol < length owner.now.object.symbols }
    ensures { IfOk result (λ fault. (s : State) → map place_of s.modules ≡ places.now → fault ≡ reloc_fault_by s owner.now reloc.now choice.now) }
{
    if is_missing(choice) {
        return Ok(Some(missing_symbol(alloc, owner, reloc)?));
    }
    if lacks_offset(places, owner.serial, reloc, choice) {
        let object = Name::new(alloc, owner.path.as_bytes())?;
        return Ok(Some(DlFault::NeedsStaticTls(object)));
    }
    Ok(None)
}

/// What a slot that is bound at load is refused for, if it is.
pub(crate) fn slot_fault(
    alloc: Global,
    sight: &Sight,
    owner: &Loaded,
    slot: &Reloc,
    choice: &Choice,
) -> Result<Option<DlFault>, AllocError>
    requires sight { CanSee sight.now }
    requires accepted { Accepted owner.now.object }
    requires symbol { slot.now.symbol < length owner.now.object.symbols }
    requires low { slot.now.place < 2 ^ 63 }
    requires stands { StandsIn (seen sight.now.view) choice.now }
    ensures { IfOk result (λ fault. (s : State) → Shows s (seen sight.now.view) sight.now.places.now
        → fault ≡ slot_fault_by s owner.now slot.now choice.now) }
{
    if is_missing(choice) {
        return Ok(Some(missing_symbol(alloc, owner, slot)?));
    }
    let lazy = moved_word(&owner.object, owner.base, slot.place);
    if !leads_to_code(&sight.view, sight.lists, lazy, choice) {
        return Ok(Some(not_code(alloc, owner, slot)?));
    }
    Ok(None)
}
