//! The names of an object's versions, by their indexes.
//!
//! [`VersionNames`] are made once an object, in one step for each version that it defines or needs. The name
//! of an index is then found in one step, where `Object::version_name` goes over the versions. They tell
//! where the names stand and hold none, so that they are asked together with the object.
mod names;
mod noting;

pub use names::{VersionNames, VersionPlace, version_name};
