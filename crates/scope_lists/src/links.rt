//! What the objects of a namespace lead to.

ghost use Rattle.std.specs.Prelude.{◌≡◌, ◌++◌, [], flat_map, map, IfOk, OnOk, slice_get, unwrap_or};
ghost use Rattle.scope_rule.specs.Breadth.{extend};
ghost use Rattle.scope_rule.specs.Seen.{seen};
ghost use Rattle.scope_lists.specs.Links.{found_once};

use indexmap::IndexSet;
use ld_base::{Loaded, Serial, Serials};
use scope_rule::{Places, View, extend, extend_list};
use std::alloc::{AllocError, Global};

/// Where the objects of a namespace stand, and what the names of each found, each once: a name that
/// comes again is followed once only, however many objects lead to its own.
#[derive(Drop)]
pub(crate) struct Links {
    pub(crate) places: Places,
    /// By the place of an object.
    found: Vec<Serials>,
    /// What the names of any of them found.
    pub(crate) all: Serials,
}

/// These serials, each once, the linker's own left out.
fn each_once(alloc: Global, serials: &[Serial]) -> Result<Serials, AllocError>
    ensures { IfOk result (λ once. once ≡ extend [] serials.now) }
{
    let mut once = Serials::new(alloc);
    extend_list(alloc, &mut once, serials)?;
    Ok(once)
}

/// Puts what the names of these objects found at the end.
fn append_found(
    alloc: Global,
    objects: &[Loaded],
    found: &mut Vec<Serials>,
) -> Result<(), AllocError>
    ensures { OnOk result (found.new.items ≡ found.old.items ++ map found_once objects.now) }
{
    for object in objects {
        found.push(each_once(alloc, object.found.as_slice())?)?;
    }
    Ok(())
}

/// What the names of the objects of a namespace found, by their places.
fn found_by_each(alloc: Global, view: &View) -> Result<Vec<Serials>, AllocError>
    ensures { IfOk result (λ found. found.items ≡ map found_once (seen view.now).objects) }
{
    let mut found = Vec::new(alloc);
    append_found(alloc, view.objects, &mut found)?;
    append_found(alloc, view.added, &mut found)?;
    Ok(found)
}

/// What is found in any of these lists, each once.
fn found_by_any(alloc: Global, found: &[Serials]) -> Result<Serials, AllocError>
    ensures { IfOk result (λ all. all ≡ extend [] (flat_map (λ serials. serials) found.now)) }
{
    let mut all = IndexSet::new(alloc);
    for serials in found {
        extend(&mut all, serials.as_slice())?;
    }
    Serials::from_slice(alloc, all.as_slice())
}

/// What the object at a place led to.
fn found_at(found: &[Serials], place: usize) -> &[Serial]
    ensures { result.now ≡ unwrap_or (slice_get found.now place) [] }
{
    match found.get(place) {
        Some(serials) => serials.as_slice(),
        None => &[],
    }
}

impl Links {
    ghost use Rattle.std.specs.Prelude.{◌≡◌, [], IfOk};
    ghost use Rattle.scope_rule.specs.Breadth.{extend};
    ghost use Rattle.scope_rule.specs.Loading.{found_of};
    ghost use Rattle.scope_rule.specs.Seen.{Seen, seen};
    ghost use Rattle.scope_lists.specs.Links.{AreLinks};

    /// Those of what is seen of a namespace.
    pub(crate) fn of(alloc: Global, view: &View) -> Result<Self, AllocError>
        ensures { IfOk result (AreLinks (seen view.now)) }
    {
        let places = Places::of(alloc, view)?;
        let found = found_by_each(alloc, view)?;
        let all = found_by_any(alloc, found.as_slice())?;
        Ok(Links { places, found, all })
    }

    /// What the names of the object with a serial found, each once.
    pub(crate) fn found_of(&self, serial: Serial) -> &[Serial]
        ensures { (s : Seen) → AreLinks s self.now → result.now ≡ extend [] (found_of s serial) }
    {
        if serial == Serial::LINKER {
            return &[];
        }
        match self.places.get(serial) {
            Some(place) => found_at(self.found.as_slice(), place),
            None => &[],
        }
    }
}
