//! The object that is there for a name: nothing is read.

ghost use Rattle.std.specs.Prelude.{◌≡◌, ◌||◌, ℕ, List, [], Some, None, Ok, IfOk, if◌then◌else◌};
ghost use Rattle.std.specs.Option.{option_copied};
ghost use Rattle.std.specs.Result.{IsErrOf};
ghost use Rattle.ld_base.specs.declared.fault.DlFault.{DlFault};
ghost use Rattle.ld_base.specs.declared.fault.DlFault.TheVariants.{MissingLibrary};
ghost use Rattle.ld_base.specs.declared.fault.Shown.{Shown};
ghost use Rattle.scope_rule.specs.Finding.{is_path, with_soname};
ghost use Rattle.scope_rule.specs.Load.{Brings, Stops, paths_of, refuses, waits};
ghost use Rattle.scope_rule.specs.Loads.{alone, at_first, named_there};
ghost use Rattle.load_walk.specs.Files.{load_unread};

use crate::ask::{LoadAsk, LoadFault};
use crate::finding::{candidates, is_path, one_path, use_of, with_path, with_soname};
use ld_base::{Loaded, Name, Names, Serial};
use scope_rule::{Namespace, finds_loaded};
use std::alloc::{AllocError, Global};

/// The object that gives itself the name that is asked for, unless that is a path.
fn with_own_name<'a>(objects: &'a [Loaded], ask: &LoadAsk) -> Option<&'a Loaded>
    ensures { option_copied result ≡ (if ask.now.program || is_path ask.now.name then None else with_soname objects.now ask.now.name) }
{
    let name = ask.name.as_bytes();
    if ask.program || is_path(name) {
        None
    } else {
        with_soname(objects, name)
    }
}

/// The paths that the name that is asked for may have, in order.
fn root_paths(alloc: Global, ask: &LoadAsk) -> Result<Names, AllocError>
    ensures { IfOk result (λ paths. paths ≡ paths_of (load_unread ask.now []) 0 ask.now.name) }
{
    let name = ask.name.as_bytes();
    if ask.program {
        one_path(alloc, name)
    } else {
        candidates(alloc, ask.folders.as_slice(), name)
    }
}

/// The object that is there at the first of the paths that has one.
fn at_first<'a>(objects: &'a [Loaded], paths: &[Name]) -> Option<&'a Loaded>
    ensures { option_copied result ≡ at_first objects.now paths.now }
{
    for path in paths {
        if let Some(object) = with_path(objects, path.as_bytes()) {
            return Some(object);
        }
    }
    None
}

/// The object that is there for the name that is asked for.
fn named_there<'a>(
    alloc: Global,
    objects: &'a [Loaded],
    ask: &LoadAsk,
) -> Result<Option<&'a Loaded>, AllocError>
    ensures { IfOk result (λ object. option_copied object ≡ named_there (load_unread ask.now objects.now)) }
{
    if let Some(object) = with_own_name(objects, ask) {
        return Ok(Some(object));
    }
    let paths = root_paths(alloc, ask)?;
    Ok(at_first(objects, paths.as_slice()))
}

/// The root of a load that reads nothing, as under RTLD_NOLOAD (dlopen(3)): the object that is there
/// for the name, if one is.
///
/// # Errors
///
/// That this hart closes the object; that the load has to wait for another hart, which starts or
/// closes it; or want of memory.
pub fn find_loaded(
    alloc: Global,
    ns: &Namespace,
    ask: &LoadAsk,
) -> Result<Option<Serial>, LoadFault>
    ensures found { (root : ℕ) → result ≡ Ok (Some root) → Brings (load_unread ask.now ns.now.objects) (alone root) }
    ensures absent { result ≡ Ok None →
        (named_there (load_unread ask.now ns.now.objects) ≡ None) × Stops (load_unread ask.now ns.now.objects) (refuses (MissingLibrary ask.now.name)) }
    ensures refused { (fault : DlFault) → IsErrOf result (LoadFault.Refused fault) → Stops (load_unread ask.now ns.now.objects) (refuses fault) }
    ensures never_missing { (name : List ℕ) → IsErrOf result (LoadFault.Refused (MissingLibrary name)) → ⊥ }
    ensures waits { (shown : Shown) → IsErrOf result (LoadFault.Wait shown) → Stops (load_unread ask.now ns.now.objects) (waits shown) }
{
    finds_loaded();
    match named_there(alloc, ns.objects.as_slice(), ask)? {
        Some(object) => Ok(Some(use_of(alloc, ask.hart, object)?)),
        None => Ok(None),
    }
}
