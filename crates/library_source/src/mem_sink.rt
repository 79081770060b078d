//! A sink in memory.

ghost use Rattle.std.specs.Prelude.{◌≡◌, []};

use crate::{Sink, WriteError};
use ld_base::{Bytes, Calls};
use std::alloc::Global;
use std::marker::Model;

/// Bytes in memory, of which some writes fail. A write takes the whole piece.
#[derive(Drop)]
pub struct MemSink {
    bytes: Vec<u8>,
    fail: Calls,
    calls: u64,
    faults: u64,
}

impl Model for MemSink {
    ghost use Rattle.library_source.specs.Memory.{SinkState};

    ghost Value = { SinkState };

    ghost view = { λ s. record {
      bytes = s.bytes.items;
      fail = s.fail;
      calls = s.calls;
      faults = s.faults;
    } };
}

impl MemSink {
    /// An empty sink, whose writes of these numbers fail. The first write has number 1.
    pub fn new(alloc: Global, fail: Calls) -> Self
        ensures { result ≡ record { bytes = []; fail = fail; calls = 0; faults = 0 } }
    {
        MemSink {
            bytes: Vec::new(alloc),
            fail,
            calls: 0,
            faults: 0,
        }
    }

    /// The bytes that it took.
    pub fn bytes(&self) -> &[u8]
        ensures { result.now ≡ self.now.bytes }
    {
        self.bytes.as_slice()
    }
}

impl Sink for MemSink {
    ghost use Rattle.std.specs.Prelude.{Some};
    ghost use Rattle.library_source.specs.Memory.{WritesInMemory};

    ghost taken = { λ s. Some s.bytes };

    ghost faults = { λ s. s.faults };

    ghost writes = { WritesInMemory };

    fn write(&mut self, piece: &[u8]) -> Result<usize, WriteError> {
        self.calls = self.calls.saturating_add(1);
        if self.fail.as_slice().contains(&self.calls) {
            self.faults = self.faults.saturating_add(1);
            return Err(WriteError::Failed);
        }
        self.bytes.extend_from_slice(piece)?;
        Ok(piece.len())
    }
}
