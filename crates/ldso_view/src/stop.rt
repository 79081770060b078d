//! Why the program ends without a whole text.

ghost use Rattle.std.specs.Prelude.{◌≡◌};
ghost use Rattle.std.specs.IoError.{error_kind};
ghost use Rattle.ldso_view.specs.Stop.{status_of, stop_of_read, stop_of_usage, stop_of_view, stop_of_words, stop_of_write};
ghost use Rattle.ldso_view.specs.declared.stop.Stop.TheVariants.{Memory};

use clap::error::ErrorKind;
use library_source::WriteError;
use std::alloc::AllocError;
use std::io;
use trace_view::ViewFault;

/// Why it stops.
#[derive(Clone, Copy)]
pub enum Stop {
    /// The words say nothing that it does.
    Usage,
    /// The words ask for help, which was printed.
    Help,
    /// The line of this number is no event's.
    NoEvent(usize),
    ReadFault,
    WriteFault,
    Memory,
}

impl Stop {
    /// The exit status: that of `ldso` for the like.
    pub fn status(self) -> u8
        ensures { result ≡ status_of self }
    {
        match self {
            Stop::Help => 0,
            Stop::NoEvent(_) => 117,
            Stop::Usage => 120,
            Stop::ReadFault => 121,
            Stop::WriteFault => 122,
            Stop::Memory => 123,
        }
    }
}

impl From<AllocError> for Stop {
    ghost from_gives = { λ _ stop. stop ≡ Memory };

    fn from(_error: AllocError) -> Self {
        Stop::Memory
    }
}

impl From<io::Error> for Stop {
    ghost from_gives = { λ error stop. stop ≡ stop_of_read (error_kind error) };

    fn from(error: io::Error) -> Self {
        match error.kind() {
            io::ErrorKind::OutOfMemory => Stop::Memory,
            _ => Stop::ReadFault,
        }
    }
}

impl From<WriteError> for Stop {
    ghost from_gives = { λ error stop. stop ≡ stop_of_write error };

    fn from(error: WriteError) -> Self {
        match error {
            WriteError::Memory => Stop::Memory,
            WriteError::Failed => Stop::WriteFault,
        }
    }
}

impl From<ViewFault> for Stop {
    ghost from_gives = { λ fault stop. stop ≡ stop_of_view fault };

    fn from(fault: ViewFault) -> Self {
        match fault {
            ViewFault::NoEvent(line) => Stop::NoEvent(line),
            ViewFault::Memory => Stop::Memory,
        }
    }
}

/// Why the program has no words of its own: they aren't text, or there is no memory for them.
pub fn words_stop(error: &io::Error) -> Stop
    ensures { result ≡ stop_of_words (error_kind error.now) }
{
    match error.kind() {
        io::ErrorKind::OutOfMemory => Stop::Memory,
        _ => Stop::Usage,
    }
}

/// What words that weren't taken mean.
pub fn usage_stop(kind: ErrorKind) -> Stop
    ensures { result ≡ stop_of_usage kind }
{
    match kind {
        ErrorKind::OutOfMemory => Stop::Memory,
        ErrorKind::DisplayHelp => Stop::Help,
        _ => Stop::Usage,
    }
}
