//! Which definition a reference is bound to, in a hurry.
//!
//! [`lookup`] gives what `scope_rule::choose` gives, and [`lookup_reloc`] what `scope_rule::choose_reloc`
//! gives. [`References`] gives that for all relocations of one object: each symbol is looked up once.
//! Where the references of an object are searched is known from search lists (`scope_lists`), which know
//! where the names of each object's versions stand, too, and each object is searched by its hash table
//! (`sym_find`), or in the order of its names where the lists have that. Where the lists know which objects of the
//! global list have definitions under a hash, the others aren't asked. The hashes of a reference's name are
//! computed once. None of these look-ups takes memory, but for making [`References`].
//!
//! [`lookup_breadth`] and [`lookup_global`] give what `scope_rule::search_breadth` and `search_global` give: a name
//! is looked up where dlsym does. Each object is asked by its hash table. The places of all are noted
//! first, which takes memory.
//!
//! `sym_find` follows the one chain of a hash table to which a name's hash leads ([`Find`]).
#![tactic(auto)]

mod law;
mod looking;
mod names;
mod references;
mod searched;
mod searching;
mod sym_find;

pub use law::tables_are_there;
pub use looking::{lookup, lookup_in, lookup_reloc};
pub use names::{lookup_breadth, lookup_global};
pub use references::References;
pub use scope_lists::SearchLists;
pub use sym_find::{Asked, Find, Sought};
