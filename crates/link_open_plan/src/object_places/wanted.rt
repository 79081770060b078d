//! Pages that are wanted.

ghost use Rattle.std.specs.Prelude.{◌≡◌, ◌+◌, ◌<◌, ◌++◌, map, true, Contains, IfErr, IfOk, OnErr, OnOk};
ghost use Rattle.std.specs.List.{range_with_len};
ghost use Rattle.ld_base.specs.declared.linking.Loaded.{Loaded as loaded};
ghost use Rattle.address_space.specs.Pages.{without};
ghost use Rattle.history_state.specs.Areas.{HasNoRoom, IsGiven, StandsAt, anywhere, has_storage, object_area, only, other_areas, stack_area, storage_align};
ghost use Rattle.history_state.specs.Storage.{pages_for};
ghost use Rattle.seg_image.specs.Accepted.{Accepted};
ghost use Rattle.link_open_plan.specs.ObjectPlaces.Placing.{align_asked, area_of_hart, areas_by, statics_of};
ghost use Rattle.link_open_plan.specs.ObjectPlaces.Spots.{IsSound, where_of};

use address_space::{NoRoom, Regions};
use history_event::{Purpose, Range};
use ld_base::{HartId, Kind, Loaded};
use seg_image::{align_of, low_of, pages_hold_segments, pages_of};
use std::alloc::{AllocError, Global};
use std::marker::Model;
use tls_blocks::TlsModules;

/// The bytes of a page.
const PAGE_SIZE: u64 = 4096;
/// The pages of a stack.
const STACK_PAGES: u64 = 16;

/// Where pages may stand.
#[derive(Clone, Copy, PartialEq, Eq)]
pub(crate) enum Spot {
    /// At any multiple of this alignment.
    Anywhere(u64),
    /// At this address.
    Only(u64),
}

/// Pages that are wanted: contracts see them as the history's area.
#[derive(Drop)]
pub(crate) struct Wanted {
    pages: u64,
    spot: Spot,
    purpose: Purpose,
}

impl Model for Wanted {
    ghost use Rattle.std.specs.Prelude.{◌<◌};
    ghost use Rattle.history_state.specs.Areas.{Area};
    ghost use Rattle.link_open_plan.specs.ObjectPlaces.Spots.{IsSound, where_of};

    ghost Value = { Area };

    ghost view = { λ w. record { pages = w.pages; place = where_of w.spot; purpose = w.purpose } };

    ghost invariant = { λ w. IsSound w.pages w.spot };
}

impl Wanted {
    /// Pages at any multiple of an alignment.
    fn anywhere(pages: u64, align: u64, purpose: Purpose) -> Self
        requires pages { 0 < pages }
        requires align { 0 < align }
        ensures { result ≡ record { pages = pages; place = anywhere align; purpose = purpose } }
    {
        Wanted {
            pages,
            spot: Spot::Anywhere(align),
            purpose,
        }
    }

    /// Pages at an address.
    fn only(pages: u64, address: u64, purpose: Purpose) -> Self
        ensures { result ≡ record { pages = pages; place = only address; purpose = purpose } }
    {
        Wanted {
            pages,
            spot: Spot::Only(address),
            purpose,
        }
    }

    /// Those of an object.
    fn object(object: &Loaded) -> Self
        requires { Accepted object.now.object }
        ensures { result ≡ object_area object.now }
    {
        pages_hold_segments();
        let pages = pages_of(&object.object);
        let purpose = Purpose::Object(object.serial);
        match object.object.kind {
            Kind::Exec => Wanted::only(pages, low_of(&object.object), purpose),
            Kind::Dyn => Wanted::anywhere(pages, align_of(&object.object), purpose),
        }
    }

    /// Reserves the pages.
    ///
    /// # Errors
    ///
    /// That there is no room for them. Nothing is reserved then.
    pub(crate) fn reserve(&self, regions: &mut Regions) -> Result<Range, NoRoom>
        ensures given { IfOk result (IsGiven regions.old self.now) }
        ensures left { IfOk result (λ r. regions.new ≡ without regions.old r.address r.pages) }
        ensures none { OnErr result (HasNoRoom regions.old self.now.pages self.now.place) }
        ensures pages { IfErr result (λ e. e.0 ≡ self.now.pages) }
        ensures err { OnErr result (regions.new ≡ regions.old) }
    {
        let address = reserve_at_spot(regions, self.pages, self.spot)?;
        Ok(Range {
            address,
            pages: self.pages,
            purpose: self.purpose,
        })
    }
}

/// Reserves pages where they may stand, and tells their address.
fn reserve_at_spot(regions: &mut Regions, pages: u64, spot: Spot) -> Result<u64, NoRoom>
    requires { IsSound pages spot }
    ensures stands { IfOk result (StandsAt regions.old pages (where_of spot)) }
    ensures left { IfOk result (λ address. regions.new ≡ without regions.old address pages) }
    ensures none { OnErr result (HasNoRoom regions.old pages (where_of spot)) }
    ensures pages { IfErr result (λ e. e.0 ≡ pages) }
    ensures err { OnErr result (regions.new ≡ regions.old) }
{
    match spot {
        Spot::Anywhere(align) => regions.reserve(pages, align),
        Spot::Only(address) => {
            regions.reserve_at(address, pages)?;
            Ok(address)
        }
    }
}

/// What is wanted for new objects, and at startup, for so many harts, beside them.
///
/// # Errors
///
/// Want of memory.
pub(crate) fn wanted_for(
    alloc: Global,
    modules: &TlsModules,
    harts: Option<u32>,
    added: &[Loaded],
) -> Result<Vec<Wanted>, AllocError>
    requires { (o : loaded) → Contains added.now o → Accepted o.object }
    ensures { IfOk result (λ all. all.items ≡ areas_by harts (statics_of modules.now) added.now) }
{
    let mut wanted = Vec::with_capacity(alloc, added.len())?;
    push_objects(&mut wanted, added)?;
    match harts {
        Some(harts) => {
            push_others(&mut wanted, modules, harts, added)?;
            Ok(wanted)
        }
        None => Ok(wanted),
    }
}

/// Puts what is wanted at startup beside the objects at the end.
fn push_others(
    wanted: &mut Vec<Wanted>,
    modules: &TlsModules,
    harts: u32,
    added: &[Loaded],
) -> Result<(), AllocError>
    ensures { OnOk result (wanted.new.items ≡ wanted.old.items ++ other_areas true (statics_of modules.now) harts added.now) }
{
    push_stacks(wanted, harts)?;
    if !has_storage(added) {
        return Ok(());
    }
    let pages = static_pages(modules)?;
    push_static_areas(wanted, harts, pages, storage_align(added))
}

/// Puts what the objects want at the end.
fn push_objects(wanted: &mut Vec<Wanted>, added: &[Loaded]) -> Result<(), AllocError>
    requires { (o : loaded) → Contains added.now o → Accepted o.object }
    ensures { OnOk result (wanted.new.items ≡ wanted.old.items ++ map object_area added.now) }
{
    for object in added {
        wanted.push(Wanted::object(object))?;
    }
    Ok(())
}

/// Puts a stack of each hart at the end.
fn push_stacks(wanted: &mut Vec<Wanted>, harts: u32) -> Result<(), AllocError>
    ensures { OnOk result (wanted.new.items ≡ wanted.old.items ++ map stack_area (range_with_len 0 harts)) }
{
    for hart in 0..harts {
        let purpose = Purpose::Stack(HartId::new(hart));
        wanted.push(Wanted::anywhere(STACK_PAGES, PAGE_SIZE, purpose))?;
    }
    Ok(())
}

/// Puts a static area of each hart at the end.
fn push_static_areas(
    wanted: &mut Vec<Wanted>,
    harts: u32,
    pages: u64,
    align: u64,
) -> Result<(), AllocError>
    requires pages { 0 < pages }
    requires align { 0 < align }
    ensures { OnOk result (wanted.new.items ≡ wanted.old.items ++ map (area_of_hart pages align) (range_with_len 0 harts)) }
{
    for hart in 0..harts {
        let purpose = Purpose::StaticTls(HartId::new(hart));
        wanted.push(Wanted::anywhere(pages, align, purpose))?;
    }
    Ok(())
}

/// Whether one of the objects has thread-local storage.
fn has_storage(added: &[Loaded]) -> bool
    ensures { result ≡ has_storage added.now }
{
    added.iter().any(|object| object.object.tls.is_some())
}

/// The greatest alignment that their storage asks for, and at least a page.
fn storage_align(added: &[Loaded]) -> u64
    ensures value { result ≡ storage_align added.now }
    ensures some { 0 < result }
{
    let mut align = PAGE_SIZE;
    for object in added {
        align = align.max(align_asked(object));
    }
    align
}

/// The alignment that an object's storage asks for.
fn align_asked(object: &Loaded) -> u64
    ensures { result ≡ align_asked object.now }
{
    match object.object.tls {
        Some(segment) => segment.align,
        None => 0,
    }
}

/// The pages of a static area.
///
/// # Errors
///
/// Want of memory, where it would be longer than an address can tell.
fn static_pages(modules: &TlsModules) -> Result<u64, AllocError>
    ensures pages { IfOk result (λ pages. pages ≡ pages_for (modules.now.tp + modules.now.size)) }
    ensures some { IfOk result (λ pages. 0 < pages) }
{
    let Some(bytes) = modules.tp().checked_add(modules.static_size()) else {
        return Err(AllocError);
    };
    let Some(bytes) = bytes.checked_add(PAGE_SIZE - 1) else {
        return Err(AllocError);
    };
    Ok((bytes / PAGE_SIZE).max(1))
}
