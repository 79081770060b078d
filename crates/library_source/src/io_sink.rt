//! A sink over a writer of std.

ghost use Rattle.std.specs.Prelude.{◌≡◌, ◌≤◌, length, IfOk};
ghost use Rattle.std.specs.Io.KnownBytes.{WriteAppends};

use crate::{Sink, WriteError};
use std::io::{self, ErrorKind, Write};
use std::marker::Model;

/// A writer, with how often it failed.
#[derive(Drop)]
pub struct IoSink<W> {
    writer: W,
    faults: u64,
}

impl<W> Model for IoSink<W> {
    ghost use Rattle.library_source.specs.Writing.{WriterState};

    ghost Value = { WriterState W };

    ghost view = { λ s. record { writer = s.writer; faults = s.faults } };
}

impl<W: Write + Drop> IoSink<W> {
    /// A sink that passes bytes to this writer.
    pub fn new(writer: W) -> Self
        ensures { result ≡ record { writer = writer; faults = 0 } }
    {
        IoSink { writer, faults: 0 }
    }
}

impl<W: Write + Drop> Sink for IoSink<W> {
    ghost use Rattle.std.specs.Prelude.{None};
    ghost use Rattle.library_source.specs.Writing.{WritesThrough};

    ghost taken = { λ _. None };

    ghost faults = { λ s. s.faults };

    ghost writes = { λ old piece answer new.
        WritesThrough (W.contents old.writer) old.faults piece answer (W.contents new.writer) new.faults };

    fn write(&mut self, piece: &[u8]) -> Result<usize, WriteError> {
        match write_once(&mut self.writer, piece) {
            Ok(0) if !piece.is_empty() => {
                self.faults = self.faults.saturating_add(1);
                Ok(0)
            }
            Ok(taken) => Ok(taken),
            Err(error) if error.kind() == ErrorKind::OutOfMemory => Err(WriteError::Memory),
            Err(_) => {
                self.faults = self.faults.saturating_add(1);
                Err(WriteError::Failed)
            }
        }
    }
}

/// One write of a writer, which is made again where a signal has interrupted it.
fn write_once<W: Write>(writer: &mut W, piece: &[u8]) -> io::Result<usize>
    ensures bound { IfOk result (λ n. n ≤ length piece.now) }
    ensures bytes { WriteAppends (W.contents writer.old) (W.contents writer.new) result piece.now }
{
    for _ in 0..u64::MAX {
        match writer.write(piece) {
            Err(error) if error.kind() == ErrorKind::Interrupted => {}
            answer => return answer,
        }
    }
    Err(ErrorKind::Interrupted.into())
}
