//! Functions of names.

use scope_rule::linker_symbol;
use std::alloc::Global;
use sym_hash::{gnu_hash, sysv_hash};
use test_file::{Fault, show, show_some};

pub fn sysv(alloc: Global, name: &str) -> Result<String, Fault> {
    show(alloc, sysv_hash(name.as_bytes()))
}

pub fn gnu(alloc: Global, name: &str) -> Result<String, Fault> {
    show(alloc, gnu_hash(name.as_bytes()))
}

pub fn linker(alloc: Global, name: &str) -> Result<String, Fault> {
    show_some(alloc, linker_symbol(name.as_bytes()))
}
