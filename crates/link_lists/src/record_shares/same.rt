//! Records that are compared.

ghost use Rattle.std.specs.Prelude.{◌≡◌, IsTrue};

use ld_base::{Name, Reloc, Segment, Symbol, Verdef, Verneed};

/// A record that can be compared with another.
pub(crate) trait Same {
    /// Whether they are the same value, as far as can be told: true is certain, false needn't be.
    fn is_same(&self, other: &Self) -> bool
        ensures { IsTrue result → self.now ≡ other.now };
}

impl Same for u32 {
    fn is_same(&self, other: &Self) -> bool {
        *self == *other
    }
}

impl Same for u64 {
    fn is_same(&self, other: &Self) -> bool {
        *self == *other
    }
}

impl Same for Reloc {
    fn is_same(&self, other: &Self) -> bool {
        self == other
    }
}

impl Same for Name {
    fn is_same(&self, other: &Self) -> bool {
        self.as_bytes() == other.as_bytes()
    }
}

impl Same for Option<Name> {
    fn is_same(&self, other: &Self) -> bool {
        match (self, other) {
            (Some(one), Some(two)) => one.is_same(two),
            (None, None) => true,
            _ => false,
        }
    }
}

impl Same for Segment {
    fn is_same(&self, other: &Self) -> bool {
        self.vaddr == other.vaddr
            && self.memsz == other.memsz
            && self.flags == other.flags
            && self.align == other.align
            && self.bytes.as_slice() == other.bytes.as_slice()
    }
}

impl Same for Symbol {
    fn is_same(&self, other: &Self) -> bool {
        self.info == other.info
            && self.other == other.other
            && self.shndx == other.shndx
            && self.value == other.value
            && self.size == other.size
            && self.version == other.version
            && self.name.is_same(&other.name)
    }
}

impl Same for Verdef {
    fn is_same(&self, other: &Self) -> bool {
        self.index == other.index && self.flags == other.flags && self.name.is_same(&other.name)
    }
}

impl Same for Verneed {
    fn is_same(&self, other: &Self) -> bool {
        self.index == other.index
            && self.flags == other.flags
            && self.file.is_same(&other.file)
            && self.name.is_same(&other.name)
    }
}

/// Whether two lists are the same, element by element.
pub(crate) fn are_same<T: Same>(items: &[T], others: &[T]) -> bool
    ensures { IsTrue result → items.now ≡ others.now }
{
    if items.len() != others.len() {
        return false;
    }
    for index in 0..items.len() {
        if !items[index].is_same(&others[index]) {
            return false;
        }
    }
    true
}
