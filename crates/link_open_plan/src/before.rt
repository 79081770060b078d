//! What planning an opening reads of the linker's state.

use address_space::Regions;
use ld_base::Serial;
use scope_rule::Namespace;
use tls_blocks::TlsModules;

/// What is lent of the linker's state as it is before an opening, or before the first event.
#[derive(Clone, Copy)]
pub struct Before<'a> {
    /// The namespace that the opening is made in; an empty one where it is new.
    pub namespace: &'a Namespace,
    /// The serial of the next new object.
    pub next: Serial,
    /// The pages that are free.
    pub regions: &'a Regions,
    /// The modules of thread-local storage.
    pub modules: &'a TlsModules,
    /// Whether slots are bound at load in the whole run.
    pub binds_now: bool,
}
