//! Finding symbols by the hash tables of their object (gABI, "Hash Table"; the GNU hash table).
//!
//! [`Find::find`] gives the definition that a reference takes, as [`ld_base::pick`] does, without going
//! over all symbols: it walks the one chain that the hash of the name leads to. Where the table is the
//! object's, the answers are the same. Any other table leads where it leads: the answer is then always a
//! symbol that the table leads to under the name, and nothing where it leads to none. `offers` gives the same of
//! the order of an object's names, where search lists have it.
mod best;
mod finding;
mod gnu;
mod offers;
mod reference;
mod sysv;

pub use finding::Find;
pub(crate) use finding::rules_out;
pub(crate) use offers::pick_ordered;
pub use reference::{Asked, Sought};
