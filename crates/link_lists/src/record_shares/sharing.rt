//! Records that share memory.

ghost use Rattle.std.specs.Prelude.{◌≡◌};

use crate::record_shares::same::{Same, are_same};
use ld_base::{GnuPart, HashTable, Object, SharedList, SharedSymbols, SysvPart};

/// A record whose lists may stand in another record's memory.
pub(crate) trait Sharing: Drop {
    /// The same value, with the other's memory where the other's lists are the same.
    fn sharing(self, other: &Self) -> Self
        ensures { result ≡ self };
}

impl<T: Same + Drop> Sharing for SharedList<T> {
    fn sharing(self, other: &Self) -> Self {
        if !are_same(self.as_slice(), other.as_slice()) {
            return self;
        }
        match other.share() {
            Ok(list) => list,
            Err(_) => self,
        }
    }
}

impl Sharing for SharedSymbols {
    fn sharing(self, other: &Self) -> Self {
        if !are_same(self.as_slice(), other.as_slice()) {
            return self;
        }
        match other.share() {
            Ok(symbols) => symbols,
            Err(_) => self,
        }
    }
}

impl<T: Sharing> Sharing for Option<T> {
    fn sharing(self, other: &Self) -> Self {
        match (self, other) {
            (Some(own), Some(other)) => Some(own.sharing(other)),
            (own, _) => own,
        }
    }
}

impl Sharing for GnuPart {
    fn sharing(self, other: &Self) -> Self {
        GnuPart {
            bloom: self.bloom.sharing(&other.bloom),
            buckets: self.buckets.sharing(&other.buckets),
            chain: self.chain.sharing(&other.chain),
            ..self
        }
    }
}

impl Sharing for SysvPart {
    fn sharing(self, other: &Self) -> Self {
        SysvPart {
            buckets: self.buckets.sharing(&other.buckets),
            chain: self.chain.sharing(&other.chain),
        }
    }
}

impl Sharing for HashTable {
    fn sharing(self, other: &Self) -> Self {
        HashTable {
            gnu: self.gnu.sharing(&other.gnu),
            sysv: self.sysv.sharing(&other.sysv),
        }
    }
}

impl Sharing for Object {
    fn sharing(self, other: &Self) -> Self {
        Object {
            needed: self.needed.sharing(&other.needed),
            segments: self.segments.sharing(&other.segments),
            symbols: self.symbols.sharing(&other.symbols),
            verdefs: self.verdefs.sharing(&other.verdefs),
            verneeds: self.verneeds.sharing(&other.verneeds),
            relocs: self.relocs.sharing(&other.relocs),
            plt_relocs: self.plt_relocs.sharing(&other.plt_relocs),
            relr: self.relr.sharing(&other.relr),
            ..self
        }
    }
}
