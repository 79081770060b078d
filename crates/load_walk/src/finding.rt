//! Finding the object that a name stands for, without reading anything.

ghost use Rattle.std.specs.Prelude.{◌≡◌, ◌<◌, ◌+◌, ◌++◌, ◌∷◌, [], ℕ, List, length, IfOk, OnOk};
ghost use Rattle.std.specs.Option.{option_copied};
ghost use Rattle.scope_rule.specs.Finding.{Reading, is_named, with_soname, with_path, is_path, in_folders, candidates};
ghost use Rattle.scope_rule.specs.Load.{use_of, find_path, find_paths, find_opened, find_needed, find_root, finds};
ghost use Rattle.load_walk.specs.Walking.{Means, Searches, Uses};

use crate::ask::{LoadAsk, LoadFault};
use crate::objects_there::ObjectsThere;
use crate::walker::Walker;
use ld_base::{DlFault, HartId, Loaded, Name, Names, Object, Serial, Shown, State};
use std::alloc::{AllocError, Global};

/// The name of the linker's own object.
const LINKER_NAME: &[u8] = b"ldso.so.1";

/// What the search of a name comes to.
#[derive(Drop)]
pub(crate) enum Finding {
    /// The serial of the object that the name finds.
    Found(Serial),
    /// The path that has to be read before more is known.
    Read(Name),
    Nowhere,
}

/// The serial of an object that a hart found, if it may use it.
pub(crate) fn use_of(alloc: Global, hart: HartId, object: &Loaded) -> Result<Serial, LoadFault>
    ensures { Uses result (use_of hart object.now) }
{
    match object.state {
        State::Initialising(other) if other != hart => {
            Err(LoadFault::Wait(Shown::Initialising(object.serial)))
        }
        State::Dying(other) if other != hart => {
            Err(LoadFault::Wait(Shown::Closing(object.serial)))
        }
        State::Dying(_) => {
            let path = Name::new(alloc, object.path.as_bytes())?;
            Err(LoadFault::Refused(DlFault::ClosingHere(path)))
        }
        _ => Ok(object.serial),
    }
}

/// Whether an object gives itself this name.
fn is_named(object: &Object, name: &[u8]) -> bool
    ensures { result ≡ is_named name.now object.now }
{
    match &object.soname {
        Some(soname) => soname.is(name),
        None => false,
    }
}

/// The first object that is there with this name of its own.
pub(crate) fn with_soname<'a>(objects: &'a [Loaded], name: &[u8]) -> Option<&'a Loaded>
    ensures { option_copied result ≡ with_soname objects.now name.now }
{
    objects.iter().find(|loaded| is_named(&loaded.object, name))
}

/// The first object that is there with this path.
pub(crate) fn with_path<'a>(objects: &'a [Loaded], path: &[u8]) -> Option<&'a Loaded>
    ensures { option_copied result ≡ with_path objects.now path.now }
{
    objects.iter().find(|loaded| loaded.path.is(path))
}

/// Whether a name is a path.
pub(crate) fn is_path(name: &[u8]) -> bool
    ensures { result ≡ is_path name.now }
{
    name.contains(&b'/')
}

/// The path of a name in a folder.
fn path_in(alloc: Global, folder: &[u8], name: &[u8]) -> Result<Name, AllocError>
    ensures { IfOk result (λ path. path ≡ (folder.now ++ 47 ∷ []) ++ name.now) }
{
    let mut path = Vec::from_slice(alloc, folder)?;
    path.push(b'/')?;
    path.extend_from_slice(name)?;
    Name::from_vec(path)
}

/// Puts the paths of a name in folders, in order, into an empty list.
fn fill_paths(
    alloc: Global,
    folders: &[Name],
    name: &[u8],
    paths: &mut Names,
) -> Result<(), AllocError>
    requires { paths.old ≡ [] }
    ensures { OnOk result (paths.new ≡ in_folders folders.now name.now) }
{
    for folder in folders {
        paths.push(path_in(alloc, folder.as_bytes(), name)?)?;
    }
    Ok(())
}

/// The paths of a name in folders, in order.
fn in_folders(alloc: Global, folders: &[Name], name: &[u8]) -> Result<Names, AllocError>
    ensures { IfOk result (λ paths. paths ≡ in_folders folders.now name.now) }
{
    let mut paths = Names::new(alloc);
    fill_paths(alloc, folders, name, &mut paths)?;
    Ok(paths)
}

/// One path alone.
pub(crate) fn one_path(alloc: Global, path: &[u8]) -> Result<Names, AllocError>
    ensures { IfOk result (λ paths. paths ≡ path.now ∷ []) }
{
    let mut paths = Names::new(alloc);
    paths.push(Name::new(alloc, path)?)?;
    Ok(paths)
}

/// The paths that a name may have, in order.
pub(crate) fn candidates(alloc: Global, folders: &[Name], name: &[u8]) -> Result<Names, AllocError>
    ensures { IfOk result (λ paths. paths ≡ candidates folders.now name.now) }
{
    if is_path(name) {
        return one_path(alloc, name);
    }
    in_folders(alloc, folders, name)
}

impl Walker {
    ghost use Rattle.std.specs.Prelude.{◌≡◌, ◌<◌, ◌+◌, ℕ, List, length};
    ghost use Rattle.scope_rule.specs.Finding.{Reading, candidates};
    ghost use Rattle.scope_rule.specs.Load.{find_path, find_paths, find_opened, find_needed, find_root, finds, present};
    ghost use Rattle.load_walk.specs.Walking.{Means, Searches};

    /// The new object at a place.
    fn new_at(&self, ask: &LoadAsk, place: usize) -> Result<Finding, LoadFault>
        ensures { (reading : List ℕ → Reading) → Means self.now reading result (present (ask.now.next + place)) }
    {
        match ask.next.number().checked_add(place as u64) {
            Some(number) => Ok(Finding::Found(Serial::new(number))),
            None => Err(LoadFault::Memory),
        }
    }

    /// What a path finds.
    #[tactic(auto, using(crate::proofs::Missing::missed_path, crate::proofs::Missing::missed_reads), unfolding(scope_rule::specs::Load::find_path))]
    fn find_path(
        &self,
        alloc: Global,
        there: &ObjectsThere,
        ask: &LoadAsk,
        path: &[u8],
    ) -> Result<Finding, LoadFault>
        ensures { Searches ask.now there.now self.now result (λ load. find_path load self.now.arrivals path.now) }
    {
        if let Some(object) = there.with_path(path) {
            return Ok(Finding::Found(use_of(alloc, ask.hart, object)?));
        }
        if let Some(place) = self.arrivals.at_path(path) {
            return self.new_at(ask, place);
        }
        if self.missed.has(path) {
            return Ok(Finding::Nowhere);
        }
        Ok(Finding::Read(Name::new(alloc, path)?))
    }

    /// What the first of the paths finds that finds anything.
    fn find_paths(
        &self,
        alloc: Global,
        there: &ObjectsThere,
        ask: &LoadAsk,
        paths: &[Name],
    ) -> Result<Finding, LoadFault>
        ensures { Searches ask.now there.now self.now result (λ load. find_paths load self.now.arrivals paths.now) }
    {
        for path in paths {
            match self.find_path(alloc, there, ask, path.as_bytes())? {
                Finding::Nowhere => {}
                found => return Ok(found),
            }
        }
        Ok(Finding::Nowhere)
    }

    /// What the paths find that a name may have.
    fn find_candidates(
        &self,
        alloc: Global,
        there: &ObjectsThere,
        ask: &LoadAsk,
        name: &[u8],
    ) -> Result<Finding, LoadFault>
        ensures { Searches ask.now there.now self.now result (λ load. find_paths load self.now.arrivals (candidates load.folders name.now)) }
    {
        let paths = candidates(alloc, ask.folders.as_slice(), name)?;
        self.find_paths(alloc, there, ask, paths.as_slice())
    }

    /// What a name finds, as dlopen takes it.
    #[tactic(auto, unfolding(scope_rule::specs::Load::find_opened))]
    fn find_opened(
        &self,
        alloc: Global,
        there: &ObjectsThere,
        ask: &LoadAsk,
        name: &[u8],
    ) -> Result<Finding, LoadFault>
        ensures { Searches ask.now there.now self.now result (λ load. find_opened load self.now.arrivals name.now) }
    {
        if is_path(name) {
            return self.find_candidates(alloc, there, ask, name);
        }
        if let Some(object) = there.with_soname(name) {
            return Ok(Finding::Found(use_of(alloc, ask.hart, object)?));
        }
        if let Some(place) = self.arrivals.at_soname(name) {
            return self.new_at(ask, place);
        }
        self.find_candidates(alloc, there, ask, name)
    }

    /// What a name finds, as an object needs it.
    fn find_needed(
        &self,
        alloc: Global,
        there: &ObjectsThere,
        ask: &LoadAsk,
        name: &[u8],
    ) -> Result<Finding, LoadFault>
        ensures { Searches ask.now there.now self.now result (λ load. find_needed load self.now.arrivals name.now) }
    {
        if name == LINKER_NAME {
            return Ok(Finding::Found(Serial::LINKER));
        }
        self.find_opened(alloc, there, ask, name)
    }

    /// What the load's own name finds.
    fn find_root(
        &self,
        alloc: Global,
        there: &ObjectsThere,
        ask: &LoadAsk,
        name: &[u8],
    ) -> Result<Finding, LoadFault>
        ensures { Searches ask.now there.now self.now result (λ load. find_root load self.now.arrivals name.now) }
    {
        if ask.program {
            return self.find_path(alloc, there, ask, name);
        }
        self.find_opened(alloc, there, ask, name)
    }

    /// What the next name finds.
    #[tactic(auto, unfolding(scope_rule::specs::Load::finds))]
    pub(crate) fn find(
        &self,
        alloc: Global,
        there: &ObjectsThere,
        ask: &LoadAsk,
        name: &[u8],
    ) -> Result<Finding, LoadFault>
        ensures { Searches ask.now there.now self.now result (λ load. finds load (length self.now.found) self.now.arrivals name.now) }
    {
        if self.found.is_empty() {
            return self.find_root(alloc, there, ask, name);
        }
        self.find_needed(alloc, there, ask, name)
    }
}
