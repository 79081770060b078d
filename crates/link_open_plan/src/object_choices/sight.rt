//! What choosing looks at.

use relocator::TlsPlaces;
use scope_lists::SearchLists;
use scope_rule::View;

/// A namespace as an opening leaves it, its search lists, and where the modules of thread-local storage are.
#[derive(Clone, Copy)]
pub(crate) struct Sight<'a> {
    pub(crate) view: View<'a>,
    pub(crate) lists: &'a SearchLists,
    pub(crate) places: &'a TlsPlaces,
}
