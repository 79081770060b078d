//! Objects by their serials.

ghost use Rattle.std.specs.Prelude.{◌≡◌, find};
ghost use Rattle.std.specs.List.{flat_map};
ghost use Rattle.std.specs.Option.{option_copied};
ghost use Rattle.history_state.specs.Objects.{has_id, has_object};
ghost use Rattle.scope_rule.specs.Loading.{with_serial};

use ld_base::{Loaded, NsId, Serial};
use scope_rule::Namespace;

/// The first mapped object with a serial.
pub fn object_in(namespaces: &[Namespace], serial: Serial) -> Option<&Loaded>
    ensures { option_copied result ≡ with_serial (flat_map (λ ns. ns.objects) namespaces.now) serial }
{
    for namespace in namespaces {
        if let Some(object) = object_among(namespace.objects.as_slice(), serial) {
            return Some(object);
        }
    }
    None
}

/// The namespace of an object.
pub fn home_in(namespaces: &[Namespace], serial: Serial) -> Option<&Namespace>
    ensures { option_copied result ≡ find (has_object serial) namespaces.now }
{
    for namespace in namespaces {
        if has_object(namespace, serial) {
            return Some(namespace);
        }
    }
    None
}

/// The namespace with a number.
pub fn namespace_in(namespaces: &[Namespace], id: NsId) -> Option<&Namespace>
    ensures { option_copied result ≡ find (has_id id) namespaces.now }
{
    for namespace in namespaces {
        if namespace.id == id {
            return Some(namespace);
        }
    }
    None
}

/// The first of some objects with a serial.
fn object_among(objects: &[Loaded], serial: Serial) -> Option<&Loaded>
    ensures { option_copied result ≡ with_serial objects.now serial }
{
    for object in objects {
        if object.serial == serial {
            return Some(object);
        }
    }
    None
}

/// Whether an object of a namespace has a serial.
pub fn has_object(namespace: &Namespace, serial: Serial) -> bool
    ensures { result ≡ has_object serial namespace.now }
{
    let objects = namespace.objects.as_slice();
    objects.iter().any(|object| object.serial == serial)
}
