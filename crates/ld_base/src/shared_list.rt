//! A list that no longer changes: contracts see it as that list.

ghost use Rattle.std.specs.Prelude.{◌≡◌, ◌==◌, length, IfOk};

use crate::Sequence;
use std::alloc::{AllocError, Global};
use std::marker::Model;
use std::sync::Arc;

/// A list that no longer changes. Several owners, in any threads, may have it in one memory, which is
/// freed with the last of them.
#[derive(Drop)]
pub struct SharedList<T> {
    items: Arc<Vec<T>>,
}

impl<T> Model for SharedList<T> {
    ghost use Rattle.std.specs.Prelude.{List};
    ghost use Rattle.std.specs.Arc.{arc_value};

    ghost Value = { List T };

    ghost view = { λ s. (arc_value s.items).items };
}

impl<T> SharedList<T> {
    /// The list of these elements.
    ///
    /// # Errors
    ///
    /// Want of memory.
    pub fn new(alloc: Global, items: Vec<T>) -> Result<Self, AllocError>
    where
        T: Drop,
        ensures { IfOk result (λ list. list ≡ items.items) }
    {
        let items = Arc::new(alloc, items)?;
        Ok(SharedList { items })
    }

    /// How many elements there are.
    pub fn len(&self) -> usize
        ensures { result ≡ length self.now }
    {
        self.items.len()
    }

    /// Whether there is no element.
    pub fn is_empty(&self) -> bool
        ensures { result ≡ (length self.now == 0) }
    {
        self.items.is_empty()
    }

    /// The elements as a slice.
    pub fn as_slice(&self) -> &[T]
        ensures { result.now ≡ self.now }
    {
        self.items.as_slice()
    }

    /// The same list for one owner more, in the same memory.
    ///
    /// # Errors
    ///
    /// Want of memory; so many owners that they can't be counted are that too.
    pub fn share(&self) -> Result<Self, AllocError>
        ensures { IfOk result (λ list. list ≡ self.now) }
    {
        let items = Arc::try_clone(&self.items)?;
        Ok(SharedList { items })
    }
}

impl<T> Sequence<T> {
    /// The list as it stands, to have several owners.
    ///
    /// # Errors
    ///
    /// Want of memory.
    pub fn into_shared(self, alloc: Global) -> Result<SharedList<T>, AllocError>
    where
        T: Drop,
        ensures { IfOk result (λ list. list ≡ self) }
    {
        SharedList::new(alloc, self.into_vec())
    }
}
