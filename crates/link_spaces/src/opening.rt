//! What an opening brings.

ghost use Rattle.std.specs.Prelude.{◌≡◌, ◌<◌, ◌++◌, find, length, slice_set, IfNone, IfSome, OnErr, OnOk, None, Some};
ghost use Rattle.std.specs.List.{slice_get};
ghost use Rattle.history_state.specs.Objects.{has_id};
ghost use Rattle.history_state.specs.State.{empty_namespace};
ghost use Rattle.history_state.specs.Step.{with_namespace};
ghost use Rattle.link_spaces.specs.Numbered.{AreNumberedApart};
ghost use Rattle.scope_rule.specs.Opening.{opened};
ghost use Rattle.scope_rule.specs.declared.namespace.Namespace.{Namespace as Space};

use ld_base::{Added, NsId, Serial, Serials};
use scope_rule::{Namespace, Opens, opened_lists};
use std::alloc::{AllocError, Global};
use std::mem;

/// Opens a root in the namespace with a number: its new objects stand there at the end. Where there is no
/// such namespace, a new one follows the others.
///
/// # Errors
///
/// Want of memory. The namespaces are as before then.
pub fn open_in(
    alloc: Global,
    namespaces: &mut Vec<Namespace>,
    id: NsId,
    added: Added,
    root: Serial,
    is_global: bool,
) -> Result<(), AllocError>
    requires apart { AreNumberedApart namespaces.old.items }
    ensures ok { OnOk result (namespaces.new.items ≡ with_namespace id (λ ns. opened ns added root is_global) namespaces.old.items) }
    ensures err { OnErr result (namespaces.new.items ≡ namespaces.old.items) }
{
    match place_of(namespaces.as_slice(), id) {
        Some(place) => open_at(
            alloc,
            namespaces.as_mut_slice(),
            place,
            added,
            root,
            is_global,
        ),
        None => {
            let namespace = empty_namespace(alloc, id).opened(alloc, added, root, is_global)?;
            namespaces.push(namespace)?;
            Ok(())
        }
    }
}

/// The place of the first namespace with a number.
fn place_of(namespaces: &[Namespace], id: NsId) -> Option<usize>
    ensures within { IfSome result (λ place. place < length namespaces.now) }
    ensures there { IfSome result (λ place. slice_get namespaces.now place ≡ find (has_id id) namespaces.now) }
    ensures none { IfNone result (find (has_id id) namespaces.now ≡ None) }
{
    for (place, namespace) in namespaces.iter().enumerate() {
        if namespace.id == id {
            return Some(place);
        }
    }
    None
}

/// A namespace without objects.
pub fn empty_namespace(alloc: Global, id: NsId) -> Namespace
    ensures { result ≡ empty_namespace id }
{
    Namespace {
        id,
        objects: Added::new(alloc),
        global: Serials::new(alloc),
        opens: Opens::new(alloc),
    }
}

/// Opens a root in the namespace at a place.
fn open_at(
    alloc: Global,
    namespaces: &mut [Namespace],
    place: usize,
    added: Added,
    root: Serial,
    is_global: bool,
) -> Result<(), AllocError>
    requires { place < length namespaces.old }
    ensures ok { OnOk result ((ns : Space) → slice_get namespaces.old place ≡ Some ns
        → namespaces.new ≡ slice_set namespaces.old place (opened ns added root is_global)) }
    ensures err { OnErr result (namespaces.new ≡ namespaces.old) }
{
    let namespace = &mut namespaces[place];
    open_one(alloc, namespace, added, root, is_global)
}

/// Opens a root in a namespace.
fn open_one(
    alloc: Global,
    namespace: &mut Namespace,
    added: Added,
    root: Serial,
    is_global: bool,
) -> Result<(), AllocError>
    ensures ok { OnOk result (namespace.new ≡ opened namespace.old added root is_global) }
    ensures err { OnErr result (namespace.new ≡ namespace.old) }
{
    let lists = opened_lists(
        alloc,
        &namespace.view_with(added.as_slice()),
        root,
        is_global,
    )?;
    append(alloc, &mut namespace.objects, added)?;
    namespace.global = lists.global;
    namespace.opens = lists.opens;
    Ok(())
}

/// Puts objects behind others.
fn append(alloc: Global, objects: &mut Added, added: Added) -> Result<(), AllocError>
    ensures ok { OnOk result (objects.new ≡ objects.old ++ added) }
    ensures err { OnErr result (objects.new ≡ objects.old) }
{
    let mut all = mem::replace(objects, Added::new(alloc)).into_vec();
    let mut added = added.into_vec();
    let appended = all.append(&mut added);
    *objects = Added::from(all);
    appended
}
