//! Objects that die.

ghost use Rattle.std.specs.Prelude.{◌≡◌, filter, map, not};
ghost use Rattle.history_state.specs.Objects.{has};
ghost use Rattle.history_state.specs.Step.{dying_in, dying_object};

use history_graph::SerialSet;
use ld_base::{Added, HartId, Loaded, Serial, Serials, State};
use scope_rule::Namespace;
use std::alloc::Global;
use std::mem;

/// The objects of a set die by a hart, and are global no longer.
pub fn make_dying(alloc: Global, namespaces: &mut [Namespace], hart: HartId, set: &[Serial])
    ensures { namespaces.new ≡ map (dying_in hart set.now) namespaces.old }
{
    make_dying_in_all(alloc, namespaces, hart, &SerialSet::new(set));
}

/// The same of a set that is searched.
fn make_dying_in_all(alloc: Global, namespaces: &mut [Namespace], hart: HartId, set: &SerialSet)
    ensures { namespaces.new ≡ map (dying_in hart set.now) namespaces.old }
{
    for namespace in namespaces.iter_mut() {
        make_dying_in(alloc, namespace, hart, set);
    }
}

/// The same in one namespace.
fn make_dying_in(alloc: Global, namespace: &mut Namespace, hart: HartId, set: &SerialSet)
    ensures { namespace.new ≡ dying_in hart set.now namespace.old }
{
    let mut objects = mem::replace(&mut namespace.objects, Added::new(alloc)).into_vec();
    make_all_dying(objects.as_mut_slice(), hart, set);
    namespace.objects = Added::from(objects);
    let global = mem::replace(&mut namespace.global, Serials::new(alloc));
    namespace.global = others(global, set);
}

/// The serials that aren't of a set.
fn others(serials: Serials, set: &SerialSet) -> Serials
    ensures { result ≡ filter (λ d. not (has set.now d)) serials }
{
    let mut serials = serials.into_vec();
    serials.retain(|serial| !set.has(*serial));
    Serials::from(serials)
}

/// Those of the objects die that are of the set.
fn make_all_dying(objects: &mut [Loaded], hart: HartId, set: &SerialSet)
    ensures { objects.new ≡ map (dying_object hart set.now) objects.old }
{
    for object in objects.iter_mut() {
        make_object_dying(object, hart, set);
    }
}

/// An object dies, where it is of the set.
fn make_object_dying(object: &mut Loaded, hart: HartId, set: &SerialSet)
    ensures { object.new ≡ dying_object hart set.now object.old }
{
    if set.has(object.serial) {
        object.state = State::Dying(hart);
    }
}
