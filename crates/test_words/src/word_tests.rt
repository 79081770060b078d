//! Harts over guest memory in atomic words: calls of two harts in turns, and two harts on threads.

ghost use Rattle.std.specs.Prelude.{◌≡◌};

mod calls;
mod threads;
mod words;

use self::calls::TableCalls;
use self::words::new_table;
use std::alloc::{AllocError, Global};
use std::marker::Brand;
use test_file::said_of;
pub use threads::added;
use word_memory::{Fresh, Memory, Naming};

/// What is said of a file of calls, over a memory of its own.
pub fn said(rt: &HostRuntime, alloc: Global, path: &String) -> Result<String, AllocError> {
    let fresh = Memory::new(alloc)?;
    said_over::<Brand>(rt, fresh, alloc, path)
}

// A caller can pick the name of the memory, since no parameter is a `&str`.
fn said_over<J: Naming>(
    rt: &HostRuntime,
    fresh: Fresh,
    alloc: Global,
    path: &String,
) -> Result<String, AllocError>
    requires { fresh ≡ J.table }
{
    let table = new_table::<J>(fresh, alloc)?;
    said_of(rt, alloc, path.as_str(), TableCalls::new(alloc, table))
}
