//! Namespaces: which definition a reference is bound to, what a load brings, and what an opening
//! makes of a namespace.
//!
//! [`choose`] gives, for a relocation of an object against one of its symbols, the one choice that
//! the rules of scope and version name: the object's own definition where no other may take its
//! place, else the first object of the object's scope that has a definition, else nothing. It is
//! the plain form of the rule: it builds the scope and scans symbol tables. [`search_breadth`] and
//! [`search_global`] are dlsym's searches in the same plain form. (The linker itself searches by hash tables and
//! by lists that it keeps, in `sym_lookup` and `scope_lists`, with these results.) Each works over a [`View`],
//! which shows a namespace as it stands or as an opening will leave it, so that all choices of an opening are
//! known before anything changes. [`opened_lists`] and `Namespace::opened` say what an opening makes of it.
//!
//! In an [`IndexedView`] objects are found by their serials without going over all, for whoever asks for many:
//! by halves, since serials ascend in load order. [`Places`] is its index alone.
//!
//! What a load brings is a definition here (`specs/Load.antt`), for any namespace, for a program, for
//! dlopen and for RTLD_NOLOAD, over what reading each path gives. The functions from [`one_outcome`]
//! to [`never_waits`] are its laws. `load_walk` has the code.
#![tactic(auto)]

mod arrival;
mod breadth_first;
mod choosing;
mod indexed_view;
mod law;
mod linker_object;
mod namespace;
mod opening;
mod places;
mod relocation;
mod scoping;
mod searching;
mod view;

pub use arrival::Arrival;
pub use breadth_first::{breadth, breadth_in, extend};
pub use choosing::{choice_of, choose, choose_in, choose_reloc, is_own, want_of};
pub use indexed_view::IndexedView;
pub use law::{
    finds_loaded, found_stands, loads_breadth_first, missing_library, names_find, never_waits,
    one_outcome, reads_candidates, reads_nothing, root_is_new, serials_follow, waits_for_one,
};
pub use linker_object::linker_symbol;
pub use namespace::{Namespace, OpenRec, Opens};
pub use opening::{OpenedLists, extend_list, opened_lists};
pub use places::{Places, object_at};
pub use relocation::{has_no_symbol, is_copy};
pub use scoping::scope;
pub use searching::{search_breadth, search_global};
pub use view::{View, is_dying};
