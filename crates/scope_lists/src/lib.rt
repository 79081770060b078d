//! Where the references of objects of a namespace are searched.
//!
//! [`SearchLists`] are made of a namespace as it stands, at the first question behind a change, or as an
//! opening will leave it. What an object's names found is gathered once, each object once, and where objects
//! stand is known by their serials: that takes a step a name. Scopes are made for those objects alone that
//! ask for them, and are kept as parts ([`ScopeParts`]): the global list stands once for all of them, and where
//! it has all that names found and all that is open, as once a program is loaded, no object has a list of its
//! own. Else each takes a step an entry of its own, and a look-up an opening.
//! By [`lists_stay`] an object that becomes ready leaves the lists as they are.
//!
//! `version_places` knows where the names of an object's versions stand, by their index. Of objects in whose hash
//! tables walks are long (a file may put all its names into one bucket) the definitions are put in the order of
//! their names and versions ([`NameOrder`]), if there are so many searches that it pays: those of the objects whose
//! scopes are made at once, or so many that were made one by one. Where the scopes of objects with many references together
//! are made at once over a long global list, it is noted which objects of that list have definitions under a hash
//! ([`Definers`]): a search passes the others by.
#![tactic(auto)]

mod breadth_first;
mod brought;
mod covering;
mod definers;
mod kept;
mod law;
mod links;
mod lists;
mod long_walks;
mod name_order;
mod name_orders;
mod owners;
mod scoping;
mod searched;
mod version_places;

pub use definers::Definers;
pub use law::lists_stay;
pub use lists::SearchLists;
pub use name_order::NameOrder;
pub use searched::{ScopeParts, Searched};
pub use version_places::{VersionNames, VersionPlace, version_name};
