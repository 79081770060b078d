//! What tells most objects apart at a glance.

use ld_base::Object;

/// Numbers of an object that few others have.
#[derive(PartialEq, Eq, Hash, Drop)]
pub(crate) struct Shape {
    entry: u64,
    dynamic: u64,
    symbols: u32,
    relocs: usize,
    slots: usize,
}

impl Shape {
    /// The shape of an object.
    pub(crate) fn of(object: &Object) -> Self {
        Shape {
            entry: object.entry,
            dynamic: object.dynamic,
            symbols: object.symbols.len(),
            relocs: object.relocs.len(),
            slots: object.plt_relocs.len(),
        }
    }
}
