//! An object that a load brings.

use ld_base::{HashTable, Name, Object};

/// An object that a load read, and where: it has no serial yet.
#[derive(Drop)]
pub struct Arrival {
    pub path: Name,
    pub object: Object,
    pub table: HashTable,
}
