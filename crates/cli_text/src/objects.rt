//! What the references of a namespace come to, whose objects are all there.

ghost use Rattle.std.specs.Prelude.{◌≡◌, ◌++◌, true, None, Some, IfOk};
ghost use Rattle.std.specs.List.{slice_get, AllByRecursion};
ghost use Rattle.std.specs.String.{string_bytes};
ghost use Rattle.scope_rule.specs.Relocation.{names_symbols};
ghost use Rattle.scope_rule.specs.Seen.{seen_in};
ghost use Rattle.scope_lists.specs.Lists.{AreListed, AreListsOf, IsListedAt};
ghost use Rattle.sym_lookup.specs.Looking.{HaveTables};
ghost use Rattle.cli_text.specs.Binding.{IsBinding};
ghost use Rattle.cli_text.specs.Lines.{bound_text, slot_lines, slots_text};
ghost use Rattle.cli_text.specs.Refusal.{first_refusal, refusal_of};

use crate::lines::{write_each_slot, write_objects};
use crate::references::references_at;
use crate::refusal::refusal_of;
use ld_base::{DlFault, Loaded};
use scope_rule::Namespace;
use std::alloc::{AllocError, Global};
use sym_lookup::{References, SearchLists};

/// What the references of a namespace come to.
#[derive(Drop)]
pub enum Binding {
    /// The text that `bind` writes of the objects and their slots.
    Bound(String),
    /// The refusal of the first that has no definition and has to have one.
    Refused(DlFault),
}

/// Refuses an object for its first reference without a definition, or writes its slots. So each of its
/// symbols is looked up once for both.
fn refuse_or_write(
    alloc: Global,
    text: &mut String,
    references: &mut References,
    now: bool,
    owner: &Loaded,
) -> Result<Option<DlFault>, AllocError>
    requires names { names_symbols owner.now.object ≡ true }
    requires owner { references.old.owner ≡ owner.now }
    ensures fault { IfOk result (λ fault. fault ≡ refusal_of references.old.seen now owner.now) }
    ensures text { IfOk result (λ fault. fault ≡ None → string_bytes text.new ≡ string_bytes text.old ++ slot_lines references.old.seen owner.now) }
{
    if let Some(fault) = refusal_of(alloc, references, now, owner)? {
        return Ok(Some(fault));
    }
    write_each_slot(text, references, owner)?;
    Ok(None)
}

/// The same of the object at a place in load order.
fn refuse_or_write_at(
    alloc: Global,
    text: &mut String,
    ns: &Namespace,
    lists: &SearchLists,
    now: bool,
    place: usize,
    owner: &Loaded,
) -> Result<Option<DlFault>, AllocError>
    requires names { names_symbols owner.now.object ≡ true }
    requires lists { AreListsOf (seen_in ns.now) lists.now }
    requires listed { IsListedAt lists.now place }
    requires tables { HaveTables (seen_in ns.now) }
    requires there { slice_get ns.now.objects place ≡ Some owner.now }
    ensures fault { IfOk result (λ fault. fault ≡ refusal_of (seen_in ns.now) now owner.now) }
    ensures text { IfOk result (λ fault. fault ≡ None → string_bytes text.new ≡ string_bytes text.old ++ slot_lines (seen_in ns.now) owner.now) }
{
    let mut references = references_at(alloc, ns, lists, place, owner)?;
    refuse_or_write(alloc, text, &mut references, now, owner)
}

/// The same of each object, up to the first that is refused.
fn refuse_or_write_all(
    alloc: Global,
    text: &mut String,
    ns: &Namespace,
    lists: &SearchLists,
    now: bool,
) -> Result<Option<DlFault>, AllocError>
    requires names { AllByRecursion (λ o. names_symbols o.object ≡ true) ns.now.objects }
    requires lists { AreListsOf (seen_in ns.now) lists.now }
    requires listed { AreListed (seen_in ns.now) 0 lists.now }
    requires tables { HaveTables (seen_in ns.now) }
    ensures fault { IfOk result (λ fault. fault ≡ first_refusal ns.now now ns.now.objects) }
    ensures text { IfOk result (λ fault. fault ≡ None → string_bytes text.new ≡ string_bytes text.old ++ slots_text ns.now) }
{
    for (place, object) in ns.objects.as_slice().iter().enumerate() {
        if let Some(fault) = refuse_or_write_at(alloc, text, ns, lists, now, place, object)? {
            return Ok(Some(fault));
        }
    }
    Ok(None)
}

/// What the references of a namespace come to: those of each object that aren't slots, and its slots,
/// which all have to have a definition where every slot is wanted `now`. The search lists are the
/// namespace's and have each object's scope, and its objects have their own tables.
///
/// # Errors
///
/// Want of memory.
#[tactic(auto, unfolding(crate::specs::Lines::bound_text))]
pub fn bind_objects(
    alloc: Global,
    ns: &Namespace,
    lists: &SearchLists,
    now: bool,
) -> Result<Binding, AllocError>
    requires names { AllByRecursion (λ o. names_symbols o.object ≡ true) ns.now.objects }
    requires lists { AreListsOf (seen_in ns.now) lists.now }
    requires listed { AreListed (seen_in ns.now) 0 lists.now }
    requires tables { HaveTables (seen_in ns.now) }
    ensures { IfOk result (IsBinding ns.now now) }
{
    let mut text = String::new(alloc);
    write_objects(&mut text, ns.objects.as_slice())?;
    match refuse_or_write_all(alloc, &mut text, ns, lists, now)? {
        Some(fault) => Ok(Binding::Refused(fault)),
        None => {
            writeln!(text, "end 0 bound")?;
            Ok(Binding::Bound(text))
        }
    }
}
