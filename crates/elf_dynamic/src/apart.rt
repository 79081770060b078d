//! Ranges of addresses that lie apart.

ghost use Rattle.std.specs.Prelude.{◌≡◌, ◌↔◌, ◌+◌, ◌<◌, ◌≤◌, ◌^◌, [], true, false, List, IfOk, IsTrue};
ghost use Rattle.std.specs.List.{list_any};
ghost use Rattle.ld_base.specs.declared.object.Span.{Span};
ghost use Rattle.elf_dynamic.specs.Ends.{IsMet, LieApart};
ghost use Rattle.elf_dynamic.specs.Judged.{AreApart, IsPutTo};
ghost use Rattle.elf_dynamic.specs.Memory.{overlaps};

use crate::marks::Marks;
use ld_base::Span;
use std::alloc::{AllocError, Global};
use std::collections::BTreeMap;

/// Whether one of these ranges, which lie apart, has a byte from a start up to an end: the one that
/// begins last before the end does, if any does.
fn is_met(ends: &BTreeMap<u64, u64>, start: u64, end: u64) -> bool
    requires { LieApart ends.now }
    ensures { IsTrue result ↔ IsMet ends.now start end }
{
    match ends.range(..end).next_back() {
        Some((_, past)) => *past > start,
        None => false,
    }
}

/// Ranges that lie apart, by where those with bytes begin and end, and the doublewords of which they
/// have bytes.
#[derive(Drop)]
pub(crate) struct Apart {
    ends: BTreeMap<u64, u64>,
    pub(crate) named: Marks,
}

impl Apart {
    /// No range.
    pub(crate) fn new(alloc: Global) -> Self
        ensures { AreApart [] result }
    {
        Apart {
            ends: BTreeMap::new(alloc),
            named: Marks::new(alloc),
        }
    }

    /// Puts a range to the others, unless it has a byte in common with one of them.
    pub(crate) fn put(&mut self, range: Span) -> Result<bool, AllocError>
        requires low { 0 < range.size → range.start + range.size ≤ 2 ^ 32 }
        requires apart { LieApart self.old.ends }
        ensures put { IfOk result (λ put. (ranges : List Span) → AreApart ranges self.old → put ≡ true → IsPutTo ranges range self.new) }
        ensures met { IfOk result (λ put. (ranges : List Span) → AreApart ranges self.old → put ≡ false → list_any (overlaps range) ranges ≡ true) }
    {
        if range.size == 0 {
            return Ok(true);
        }
        let end = range.start + range.size;
        if is_met(&self.ends, range.start, end) {
            return Ok(false);
        }
        self.ends.insert(range.start, end)?;
        self.named.mark(range)?;
        Ok(true)
    }
}
