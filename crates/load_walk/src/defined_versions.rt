//! The versions that the objects of a namespace define.

ghost use Rattle.std.specs.Prelude.{◌≡◌, ℕ, List, IfOk};
ghost use Rattle.load_walk.specs.Lookup.{has, defined_at};

use crate::lookup::Defined;
use ld_base::Serial;
use scope_rule::IndexedView;
use std::alloc::{AllocError, Global};
use std::collections::HashMap;
use std::marker::Model;

/// Which versions the objects of a namespace define. Those of an object are gathered once, where one is looked up:
/// a scan of them for each need takes the product of two counts that a file chooses. Contracts see the objects.
#[derive(Drop)]
pub(crate) struct DefinedVersions<'a, 'b> {
    indexed: &'a IndexedView<'b>,
    known: HashMap<Serial, Defined>,
}

impl<'a, 'b> Model for DefinedVersions<'a, 'b> {
    ghost use Rattle.std.specs.Prelude.{List, nat_eq};
    ghost use Rattle.std.specs.HashMap.{get};
    ghost use Rattle.ld_base.specs.declared.linking.Loaded.{Loaded};
    ghost use Rattle.load_walk.specs.Lookup.{Knows};

    ghost Value = { List Loaded };

    ghost view = { λ d. d.indexed.now.objects };

    ghost invariant = { λ d. Knows d.indexed.now.objects (λ serial. get nat_eq d.known serial) };
}

/// The versions that the object with a serial defines. Where there is no such object, none is
/// lacking.
fn defined_at(alloc: Global, indexed: &IndexedView, serial: Serial) -> Result<Defined, AllocError>
    ensures { IfOk result (λ defined. (version : List ℕ) → has defined version ≡ defined_at indexed.now.objects serial version) }
{
    match indexed.object(serial) {
        Some(definer) => Defined::of(alloc, &definer.object),
        None => Ok(Defined::every(alloc)),
    }
}

impl<'a, 'b> DefinedVersions<'a, 'b> {
    ghost use Rattle.std.specs.Prelude.{◌≡◌, IfOk};
    ghost use Rattle.load_walk.specs.Lookup.{defined_at};

    /// Those of what is seen of a namespace.
    pub fn of(alloc: Global, indexed: &'a IndexedView<'b>) -> Self
        ensures { result ≡ indexed.now.objects }
    {
        DefinedVersions {
            indexed,
            known: HashMap::new(alloc),
        }
    }

    /// Whether the object with a serial defines a version.
    pub fn defines(
        &mut self,
        alloc: Global,
        serial: Serial,
        version: &[u8],
    ) -> Result<bool, AllocError>
        ensures answer { IfOk result (λ answer. answer ≡ defined_at self.old serial version.now) }
        ensures same { self.new ≡ self.old }
    {
        if let Some(defined) = self.known.get(&serial) {
            return Ok(defined.has(version));
        }
        let defined = defined_at(alloc, self.indexed, serial)?;
        let answer = defined.has(version);
        self.known.insert(serial, defined)?;
        Ok(answer)
    }
}
