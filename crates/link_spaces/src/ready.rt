//! Objects that become ready.

ghost use Rattle.std.specs.Prelude.{◌≡◌, map};
ghost use Rattle.history_state.specs.Step.{ready_in, ready_object};

use ld_base::{Added, Loaded, Serial, State};
use scope_rule::Namespace;
use std::alloc::Global;
use std::mem;

/// Makes the object of a serial ready, where it is being initialised.
pub fn make_ready(alloc: Global, namespaces: &mut [Namespace], serial: Serial)
    ensures { namespaces.new ≡ map (ready_in serial) namespaces.old }
{
    for namespace in namespaces.iter_mut() {
        make_ready_in(alloc, namespace, serial);
    }
}

/// Makes it ready in one namespace.
fn make_ready_in(alloc: Global, namespace: &mut Namespace, serial: Serial)
    ensures { namespace.new ≡ ready_in serial namespace.old }
{
    let mut objects = mem::replace(&mut namespace.objects, Added::new(alloc)).into_vec();
    make_ready_among(objects.as_mut_slice(), serial);
    namespace.objects = Added::from(objects);
}

/// Makes it ready among objects.
fn make_ready_among(objects: &mut [Loaded], serial: Serial)
    ensures { objects.new ≡ map (ready_object serial) objects.old }
{
    for object in objects.iter_mut() {
        make_object_ready(object, serial);
    }
}

/// Makes an object ready, where it is that of the serial and is being initialised.
fn make_object_ready(object: &mut Loaded, serial: Serial)
    ensures { object.new ≡ ready_object serial object.old }
{
    if object.serial != serial {
        return;
    }
    if let State::Initialising(_) = object.state {
        object.state = State::Ready;
    }
}
