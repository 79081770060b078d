//! What is still to come of grants and of objects.
//!
//! [`OpenGrants`] has the grants that aren't settled yet. [`Unfinished`] has the objects whose
//! constructors have run and whose destructors haven't, with room for those that are loaded, so that
//! the end of an object's constructors takes no memory.
mod grants;
mod unfinished;

pub use grants::OpenGrants;
pub use unfinished::Unfinished;
