//! Copies of loaded objects.

use crate::record_copies::Copied;
use ld_base::{Loaded, Sequence};
use std::alloc::{AllocError, Global};

impl Copied for Loaded {
    fn copy(&self, alloc: Global) -> Result<Self, AllocError> {
        let path = self.path.copy(alloc)?;
        let found = Sequence::from_slice(alloc, self.found.as_slice())?;
        let table = self.table.copy(alloc)?;
        Ok(Loaded {
            path,
            object: self.object.copy(alloc)?,
            table,
            found,
            ..*self
        })
    }
}
