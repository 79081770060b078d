//! What events change of namespaces, in place.
//!
//! [`make_ready`] says of an object that its constructors have run. [`lower`] takes one opening less of
//! a handle, and [`make_dying`] lets the objects of a closing die: they are global no longer. These take
//! no memory. [`open_in`] puts what an opening brings into its namespace, or leaves all as it was.
//!
//! Beside namespaces stand the other lists that events change in place: reserved ranges, closings that wait,
//! objects by serial (`object_holders`) and by address (`mapped_objects`), and the words of slots (`slot_words`).
//! [`module_places`] lists where modules have their thread-local storage.
#![tactic(auto)]

mod dying;
mod law;
mod lowering;
mod mapped_objects;
mod modules;
mod object_holders;
mod opening;
mod pending_closings;
mod ready;
mod reserved_pages;
mod slot_words;

pub use dying::make_dying;
pub use law::namespaces_are_numbered_apart;
pub use lowering::lower;
pub use mapped_objects::{
    address_of, definition_in, has_object, home_in, is_code_in, leads_to_code, namespace_in,
    object_in,
};
pub use modules::module_places;
pub use object_holders::holder_in;
pub use opening::{empty_namespace, open_in};
pub use pending_closings::{Pending, PendingClosings};
pub use ready::make_ready;
pub use reserved_pages::ReservedPages;
pub use slot_words::{is_code, moved_word};
