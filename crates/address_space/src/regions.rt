//! The free pages.

ghost use Rattle.std.specs.Prelude.{◌≡◌, ◌↔◌, ℕ, ◌+◌, ◌<◌, ◌≤◌, length, IsTrue, IfSome, IfNone, IfOk, IfErr, OnOk, OnErr};
ghost use Rattle.address_space.specs.Pages.{AllFree, AllInUse, Fits, IsFirstFit, IsGuestRange, guest_pages, page_at, together_with, without};
ghost use Rattle.address_space.specs.Marks.{AllMarked, FitsAt, MarksAs, marked_pages};

use std::marker::Model;
use thiserror::Error;

/// How many bytes a page has.
const PAGE_SIZE: u64 = 4096;

/// The address of the first page.
const FIRST_PAGE: u64 = 0x10000;

/// How many pages may be given away.
const PAGES: usize = 2047;

/// So many pages have no room.
#[derive(Clone, Copy, Debug, PartialEq, Eq, Error)]
#[error("no room for {0} pages")]
pub struct NoRoom(pub u64);

/// The pages of guest memory that are free.
#[derive(Drop)]
pub struct Regions {
    /// For each page that may be given away, whether it is free.
    free: [bool; PAGES],
}

impl Model for Regions {
    ghost use Rattle.std.specs.Prelude.{List, ℕ};
    ghost use Rattle.address_space.specs.Marks.{marked_pages};

    ghost Value = { List ℕ };

    ghost view = { λ r. marked_pages r.free };
}

impl Regions {
    /// All pages that may be given away.
    pub fn new() -> Self
        ensures { result ≡ guest_pages }
    {
        Regions {
            free: [true; PAGES],
        }
    }

    /// Gives away so many pages at the least address that is a multiple of `align` and has room for
    /// them.
    ///
    /// # Errors
    ///
    /// That there is no room, with the pages that were asked for. Nothing is reserved then.
    pub fn reserve(&mut self, pages: u64, align: u64) -> Result<u64, NoRoom>
        requires some { 0 < pages }
        requires align { 0 < align }
        ensures fit { IfOk result (IsFirstFit self.old pages align) }
        ensures taken { IfOk result (λ address. self.new ≡ without self.old address pages) }
        ensures in_use { IfOk result (λ address. AllInUse self.new address pages) }
        ensures inside { IfOk result (λ address. IsGuestRange address pages) }
        ensures full { OnErr result ((address : ℕ) → ¬ (Fits self.old pages align address)) }
        ensures asked { IfErr result (λ e. e.0 ≡ pages) }
        ensures err { OnErr result (self.new ≡ self.old) }
    {
        let Some(start) = first_fit(&self.free, pages as usize, align) else {
            return Err(NoRoom(pages));
        };
        mark(&mut self.free, start, pages as usize, false);
        Ok(page_address(start))
    }

    /// Gives away so many pages from an address on, which have to be free.
    ///
    /// # Errors
    ///
    /// That there is no room, with the pages that were asked for. Nothing is reserved then.
    pub fn reserve_at(&mut self, address: u64, pages: u64) -> Result<(), NoRoom>
        ensures free { OnOk result (AllFree self.old address pages) }
        ensures taken { OnOk result (self.new ≡ without self.old address pages) }
        ensures in_use { OnOk result (AllInUse self.new address pages) }
        ensures inside { OnOk result (0 < pages → IsGuestRange address pages) }
        ensures full { OnErr result (¬ (AllFree self.old address pages)) }
        ensures asked { IfErr result (λ e. e.0 ≡ pages) }
        ensures err { OnErr result (self.new ≡ self.old) }
    {
        let Some(start) = free_place(&self.free, address, pages) else {
            return Err(NoRoom(pages));
        };
        mark(&mut self.free, start, pages as usize, false);
        Ok(())
    }

    /// Takes so many pages from an address on back.
    pub fn release(&mut self, address: u64, pages: u64)
        requires { AllInUse self.old address pages }
        ensures { self.new ≡ together_with self.old address pages }
    {
        let start = place_of(address, pages).unwrap();
        mark(&mut self.free, start, pages as usize, true);
    }

    /// Regions with the same free pages.
    pub fn copy(&self) -> Self
        ensures { result ≡ self.now }
    {
        Regions { free: self.free }
    }
}

/// The place of the page at an address, where it and those behind it, so many in all, may be given
/// away. No pages have their place anywhere.
fn place_of(address: u64, pages: u64) -> Option<usize>
    ensures place { IfSome result (λ start. 0 < pages → address ≡ page_at start) }
    ensures within { IfSome result (λ start. start + pages ≤ PAGES) }
    ensures none { IfNone result (¬ (AllFree guest_pages address pages)) }
{
    if pages == 0 {
        return Some(0);
    }
    if address < FIRST_PAGE || address % PAGE_SIZE != 0 {
        return None;
    }
    let start = (address - FIRST_PAGE) / PAGE_SIZE;
    if start < PAGES as u64 && pages <= PAGES as u64 - start {
        Some(start as usize)
    } else {
        None
    }
}

/// The place of the page at an address, where it and those behind it, so many in all, are marked.
fn free_place(marks: &[bool], address: u64, pages: u64) -> Option<usize>
    requires { length marks.now ≡ PAGES }
    ensures place { IfSome result (λ start. 0 < pages → address ≡ page_at start) }
    ensures within { IfSome result (λ start. start + pages ≤ PAGES) }
    ensures marked { IfSome result (λ start. AllMarked marks.now start pages) }
    ensures none { IfNone result (¬ (AllFree (marked_pages marks.now) address pages)) }
{
    let Some(start) = place_of(address, pages) else {
        return None;
    };
    if all_marked(marks, start, pages as usize) {
        Some(start)
    } else {
        None
    }
}

/// Whether so many marks from a place on are set.
fn all_marked(marks: &[bool], start: usize, pages: usize) -> bool
    requires { start + pages ≤ length marks.now }
    ensures { IsTrue result ↔ AllMarked marks.now start pages }
{
    marks[start..start + pages].iter().all(|mark| *mark)
}

/// The least place from which on so many marks are set, whose page is at a multiple of `align`.
fn first_fit(marks: &[bool], pages: usize, align: u64) -> Option<usize>
    requires some { 0 < pages }
    requires align { 0 < align }
    requires marks { length marks.now ≤ PAGES }
    ensures within { IfSome result (λ start. start + pages ≤ length marks.now) }
    ensures fits { IfSome result (FitsAt marks.now pages align) }
    ensures least { IfSome result (λ start.
        (other : ℕ) → FitsAt marks.now pages align other → start ≤ other) }
    ensures none { IfNone result ((other : ℕ) → ¬ (FitsAt marks.now pages align other)) }
{
    // How many marks are set before a place, from an aligned page on.
    let mut run = 0;
    for (place, mark) in marks.iter().enumerate() {
        if !*mark {
            run = 0;
            continue;
        }
        if run == 0 && page_address(place) % align != 0 {
            continue;
        }
        run += 1;
        if run == pages {
            return Some(place + 1 - pages);
        }
    }
    None
}

/// The address of the page at this place.
fn page_address(place: usize) -> u64
    requires { place < PAGES }
    ensures { result ≡ page_at place }
{
    FIRST_PAGE + PAGE_SIZE * place as u64
}

/// Gives so many marks from a place on this value.
fn mark(marks: &mut [bool], start: usize, pages: usize, value: bool)
    requires { start + pages ≤ length marks.old }
    ensures { MarksAs marks.old start pages value marks.new }
{
    marks[start..start + pages].fill(value);
}
