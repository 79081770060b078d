//! Pages of guest memory, which stay given away from line to line.

use address_space::{NoRoom, Regions};
use std::alloc::Global;
use test_file::{Fault, Words, show};

/// From here on all pages are free.
pub fn all_free(alloc: Global, regions: &mut Regions) -> Result<String, Fault> {
    *regions = Regions::new();
    show_given(alloc, Ok(()))
}

/// From here on a copy of the regions gives pages away.
pub fn copied(alloc: Global, regions: &mut Regions) -> Result<String, Fault> {
    *regions = regions.copy();
    show_given(alloc, Ok(()))
}

/// Where so many pages are given away, at a multiple of an alignment.
pub fn reserve(alloc: Global, regions: &mut Regions, words: &mut Words) -> Result<String, Fault> {
    let (pages, align) = (words.number()?, words.number()?);
    if pages == 0 || align == 0 {
        return Err(Fault::Unclear);
    }
    match regions.reserve(pages, align) {
        Ok(address) => Ok(format!(in alloc; "{address:#x}")?),
        Err(no_room) => show(alloc, no_room),
    }
}

/// Whether the pages from an address on are given away, so many of them.
pub fn reserve_at(
    alloc: Global,
    regions: &mut Regions,
    words: &mut Words,
) -> Result<String, Fault> {
    let (address, pages) = (words.number()?, words.number()?);
    show_given(alloc, regions.reserve_at(address, pages))
}

/// Gives pages away from an address on, and takes them back.
pub fn borrow(alloc: Global, regions: &mut Regions, words: &mut Words) -> Result<String, Fault> {
    let (address, pages) = (words.number()?, words.number()?);
    match regions.reserve_at(address, pages) {
        Ok(()) => {
            regions.release(address, pages);
            show_given(alloc, Ok(()))
        }
        Err(no_room) => show_given(alloc, Err(no_room)),
    }
}

fn show_given(alloc: Global, given: Result<(), NoRoom>) -> Result<String, Fault> {
    match given {
        Ok(()) => Ok(String::from_str(alloc, "done")?),
        Err(no_room) => show(alloc, no_room),
    }
}
