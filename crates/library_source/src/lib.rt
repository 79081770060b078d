//! Where the linker's files come from and where its text goes.
//!
//! A [`Library`] reads the file at a path, and a [`Sink`] takes bytes piece by piece. Both count how
//! often they failed, so that a contract above can tell a failure of the outside from one that the
//! program invented: an answer says Failed only where the count has risen. [`MemLibrary`] and
//! [`MemSink`] hold their bytes in memory, tell them all to contracts, and fail at the calls that
//! they are told to fail at. [`FolderLibrary`] and [`IoSink`] stand at the edge to the system, and
//! tell contracts nothing of what a file holds or a terminal shows.
//!
//! [`put_all`] writes all of a text to any sink.
#![tactic(auto)]

mod folder_library;
mod io_sink;
mod library;
mod mem_library;
mod mem_sink;
mod sink;

pub use folder_library::{FolderLibrary, READ_LIMIT};
pub use io_sink::IoSink;
pub use library::{Library, ReadError};
pub use mem_library::MemLibrary;
pub use mem_sink::MemSink;
pub use sink::{Sink, WriteError, put_all};
