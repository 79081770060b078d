//! The linker's namespaces, with the search lists that are kept of them.
//!
//! [`ListedNamespaces`] makes the lists of a namespace once it is asked what a slot of it chooses, with the scope of
//! the slot's object alone, and keeps them until what is searched may be another: an opening, a closing or an
//! unmapping lets go of them, which takes no memory. They stay where an object becomes ready, where a root that is open is opened again, and where a closing
//! takes no more than one opening of several.
#![tactic(auto)]

mod kept;
mod listed;
mod staying;

pub use listed::ListedNamespaces;
