//! The objects that were loaded, each once.

ghost use Rattle.std.specs.Prelude.{◌≡◌, IfOk};

use crate::record_copies::Copied;
use crate::record_shares::same::{Same, are_same};
use crate::record_shares::shape::Shape;
use crate::record_shares::sharing::Sharing;
use indexmap::IndexMap;
use ld_base::{Added, HashTable, Loaded, Object};
use std::alloc::{AllocError, Global};

/// What a file said when it was first loaded.
#[derive(Drop)]
struct Known {
    object: Object,
    table: HashTable,
}

/// The objects that were loaded, each once, by their shape. Nothing but memory rests on them.
#[derive(Drop)]
pub struct KnownObjects {
    by_shape: IndexMap<Shape, Vec<Known>>,
}

impl KnownObjects {
    /// No objects.
    pub fn new(alloc: Global) -> Self {
        KnownObjects {
            by_shape: IndexMap::new(alloc),
        }
    }

    /// The same objects. Each shares the memory of the first whose file said the same, or is known from now on.
    ///
    /// # Errors
    ///
    /// Want of memory.
    pub fn share(&mut self, alloc: Global, added: Added) -> Result<Added, AllocError>
        ensures { IfOk result (λ shared. shared ≡ added) }
    {
        let mut shared = Vec::with_capacity(alloc, added.len())?;
        for loaded in added.into_vec() {
            shared.push(self.shared(alloc, loaded)?)?;
        }
        Ok(Added::from(shared))
    }

    /// The same object, with memory of the one whose file said the same.
    fn shared(&mut self, alloc: Global, loaded: Loaded) -> Result<Loaded, AllocError>
        ensures { IfOk result (λ shared. shared ≡ loaded) }
    {
        let shape = Shape::of(&loaded.object);
        if let Some(known) = self.find(&shape, &loaded.object) {
            return Ok(Loaded {
                object: loaded.object.sharing(&known.object),
                table: loaded.table.sharing(&known.table),
                ..loaded
            });
        }
        self.note(alloc, shape, &loaded)?;
        Ok(loaded)
    }

    /// What is known of this shape with the same segments: all its lists stand in them. Most objects of one shape
    /// differ in their names, which are compared first.
    fn find(&self, shape: &Shape, object: &Object) -> Option<&Known> {
        let Object {
            soname,
            needed,
            segments,
            ..
        } = object;
        self.by_shape.get(shape)?.iter().find(|known| {
            known.object.soname.is_same(soname)
                && are_same(known.object.needed.as_slice(), needed.as_slice())
                && are_same(known.object.segments.as_slice(), segments.as_slice())
        })
    }

    /// Notes an object of this shape.
    fn note(&mut self, alloc: Global, shape: Shape, loaded: &Loaded) -> Result<(), AllocError> {
        let known = Known {
            object: loaded.object.copy(alloc)?,
            table: loaded.table.copy(alloc)?,
        };
        match self.by_shape.get_mut(&shape) {
            Some(others) => others.push(known)?,
            None => {
                let mut others = Vec::with_capacity(alloc, 1)?;
                others.push(known)?;
                self.by_shape.insert(shape, others)?;
            }
        }
        Ok(())
    }
}
