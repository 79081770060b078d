//! What choices come to whose objects are seen of a namespace: by its search lists, in one look-up each.
//!
//! [`address_of`] is the address of such a choice, and [`leads_to_code`] says whether a slot may be bound to it.
mod coming;

pub use coming::{address_of, leads_to_code};
