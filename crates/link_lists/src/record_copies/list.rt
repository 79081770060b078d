//! Copies of names and of lists.

use crate::record_copies::Copied;
use ld_base::{Name, Sequence};
use std::alloc::{AllocError, Global};

impl Copied for Name {
    fn copy(&self, alloc: Global) -> Result<Self, AllocError> {
        Name::new(alloc, self.as_bytes())
    }
}

impl<T: Copied> Copied for Option<T> {
    fn copy(&self, alloc: Global) -> Result<Self, AllocError> {
        match self {
            Some(it) => Ok(Some(it.copy(alloc)?)),
            None => Ok(None),
        }
    }
}

impl<T: Copied> Copied for Sequence<T> {
    fn copy(&self, alloc: Global) -> Result<Self, AllocError> {
        let mut copies = Vec::with_capacity(alloc, self.len())?;
        for item in self.as_slice() {
            copies.push(item.copy(alloc)?)?;
        }
        Ok(Sequence::from(copies))
    }
}
