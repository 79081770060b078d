//! Images of pages for data: stacks, static areas and blocks of thread-local storage.
//!
//! What is promised: each word of [`area_image`] is that of the bytes that were given, zeros before and
//! behind them, and its role is that of words which are read and written.
mod area;

pub use area::area_image;
