//! Where new objects stand: their modules of thread-local storage, their pages and their bases.
//!
//! [`place`] gives new objects what their opening gives them, by what is there: the least free numbers of
//! modules, and then the pages with the lowest addresses that have room, one object after another. At
//! startup each hart's stack and each hart's static area come behind the objects. It works on copies, so
//! that an opening which is refused leaves all as it was.
mod modules;
mod placing;
mod ranges;
mod wanted;

pub use placing::{PlaceFault, Places, place};
