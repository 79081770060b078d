//! Copies of hash tables, whose words are shared.

use crate::record_copies::Copied;
use ld_base::{GnuPart, HashTable, SysvPart};
use std::alloc::{AllocError, Global};

impl Copied for GnuPart {
    fn copy(&self, _alloc: Global) -> Result<Self, AllocError> {
        Ok(GnuPart {
            bloom: self.bloom.share()?,
            buckets: self.buckets.share()?,
            chain: self.chain.share()?,
            ..*self
        })
    }
}

impl Copied for SysvPart {
    fn copy(&self, _alloc: Global) -> Result<Self, AllocError> {
        Ok(SysvPart {
            buckets: self.buckets.share()?,
            chain: self.chain.share()?,
        })
    }
}

impl Copied for HashTable {
    fn copy(&self, alloc: Global) -> Result<Self, AllocError> {
        let gnu = self.gnu.copy(alloc)?;
        Ok(HashTable {
            gnu,
            sysv: self.sysv.copy(alloc)?,
        })
    }
}
