//! Objects and the addresses in their pages.

ghost use Rattle.std.specs.Prelude.{◌≡◌, IfNone, IfSome, Contains};
ghost use Rattle.ld_base.specs.declared.linking.Loaded.{Loaded as LoadedObject};
ghost use Rattle.history_state.specs.Memory.{holds};
ghost use Rattle.seg_image.specs.Accepted.{Accepted};
ghost use Rattle.link_spaces.specs.ObjectHolders.Holders.{AllAccepted, HasNone, HoldsNone, IsAmong, IsFound};

use ld_base::{Loaded, NsId, Serial};
use scope_rule::Namespace;
use seg_image::{low_of, pages_of};

/// The bytes of a page.
const PAGE_SIZE: u64 = 4096;

/// The object whose pages hold an address, with the number of its namespace.
pub fn holder_in(namespaces: &[Namespace], address: u64) -> Option<(NsId, Serial)>
    requires { AllAccepted namespaces.now }
    ensures found { IfSome result (λ p. IsFound namespaces.now address p.0 p.1) }
    ensures none { IfNone result (HasNone namespaces.now address) }
{
    for namespace in namespaces {
        if let Some(serial) = holder_among(namespace.objects.as_slice(), address) {
            return Some((namespace.id, serial));
        }
    }
    None
}

/// The one of some objects whose pages hold an address.
fn holder_among(objects: &[Loaded], address: u64) -> Option<Serial>
    requires { (o : LoadedObject) → Contains objects.now o → Accepted o.object }
    ensures found { IfSome result (IsAmong objects.now address) }
    ensures none { IfNone result (HoldsNone objects.now address) }
{
    for object in objects {
        if holds(object, address) {
            return Some(object.serial);
        }
    }
    None
}

/// Whether an address lies in the pages of an object.
fn holds(object: &Loaded, address: u64) -> bool
    requires { Accepted object.now.object }
    ensures { result ≡ holds object.now address }
{
    let own = address.wrapping_sub(object.base);
    let low = low_of(&object.object);
    own >= low && (own - low) / PAGE_SIZE < pages_of(&object.object)
}
