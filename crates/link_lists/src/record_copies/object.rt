//! Copies of objects. What takes much memory, their lists, is shared.

use crate::record_copies::Copied;
use ld_base::Object;
use std::alloc::{AllocError, Global};

impl Copied for Object {
    fn copy(&self, alloc: Global) -> Result<Self, AllocError> {
        Ok(Object {
            soname: self.soname.copy(alloc)?,
            needed: self.needed.share()?,
            segments: self.segments.share()?,
            symbols: self.symbols.share()?,
            verdefs: self.verdefs.share()?,
            verneeds: self.verneeds.share()?,
            relocs: self.relocs.share()?,
            plt_relocs: self.plt_relocs.share()?,
            relr: self.relr.share()?,
            ..*self
        })
    }
}
