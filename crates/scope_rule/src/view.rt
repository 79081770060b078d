//! What a search sees of a namespace.

ghost use Rattle.std.specs.Prelude.{◌≡◌, []};
ghost use Rattle.std.specs.Option.{option_copied};
ghost use Rattle.scope_rule.specs.Loading.{is_dying, with_serial};

use crate::namespace::{Namespace, OpenRec};
use ld_base::{Loaded, Serial, State};

/// What a search sees of a namespace: as it stands, or as an opening will leave it. So every choice
/// of an opening is known before anything changes.
#[derive(Clone, Copy)]
pub struct View<'a> {
    /// The objects that are there, in load order.
    pub objects: &'a [Loaded],
    /// New objects, which follow them.
    pub added: &'a [Loaded],
    /// The objects whose definitions every object may be bound to, in order.
    pub global: &'a [Serial],
    /// The openings, in the order of their first.
    pub opens: &'a [OpenRec],
}

impl Namespace {
    ghost use Rattle.std.specs.Prelude.{◌≡◌};
    ghost use Rattle.scope_rule.specs.Seen.{seen, seen_in, with_added};

    /// The namespace as it stands.
    pub fn view(&self) -> View
        ensures { seen result ≡ seen_in self.now }
    {
        self.view_with(&[])
    }

    /// The namespace with new objects behind its own.
    pub fn view_with<'a>(&'a self, added: &'a [Loaded]) -> View<'a>
        ensures { seen result ≡ with_added (seen_in self.now) added.now }
    {
        View {
            objects: self.objects.as_slice(),
            added,
            global: self.global.as_slice(),
            opens: self.opens.as_slice(),
        }
    }
}

impl<'a> View<'a> {
    ghost use Rattle.std.specs.Prelude.{◌≡◌};
    ghost use Rattle.std.specs.Option.{option_copied};
    ghost use Rattle.scope_rule.specs.Loading.{object_of};
    ghost use Rattle.scope_rule.specs.Seen.{seen};

    /// The object with a serial, if it is there.
    #[tactic(auto, using(crate::proofs::Lists::find_either))]
    pub fn object(&self, serial: Serial) -> Option<&'a Loaded>
        ensures { option_copied result ≡ object_of (seen self.now) serial }
    {
        match with_serial(self.objects, serial) {
            Some(object) => Some(object),
            None => with_serial(self.added, serial),
        }
    }
}

/// The first object with a serial.
fn with_serial(objects: &[Loaded], serial: Serial) -> Option<&Loaded>
    ensures { option_copied result ≡ with_serial objects.now serial }
{
    for object in objects {
        if object.serial == serial {
            return Some(object);
        }
    }
    None
}

/// Whether its destructors run.
pub fn is_dying(object: &Loaded) -> bool
    ensures { result ≡ is_dying object.now }
{
    matches!(object.state, State::Dying(_))
}
