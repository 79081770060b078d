//! The roots.

ghost use Rattle.std.specs.Prelude.{◌≡◌, ◌++◌, filter, map, IfOk, OnOk};
ghost use Rattle.std.specs.List.{flat_map};
ghost use Rattle.history_state.specs.Links.{stays, staying_roots};
ghost use Rattle.close_mark.specs.ClosingGraph.Graphs.{all_roots, is_left, left_roots, staying, touched};

use history_event::Granting;
use ld_base::{Choice, Loaded, Serial, State};
use scope_rule::{Namespace, OpenRec};
use std::alloc::{AllocError, Global};

/// The roots once one opening less of a handle counts: what startup loaded and what stays (RTLD_NODELETE),
/// the roots of openings, objects that stay for their own sake, and what open grants name.
///
/// # Errors
///
/// Want of memory.
pub fn roots_of(
    alloc: Global,
    namespaces: &[Namespace],
    handle: Serial,
    fixed: &[Serial],
    granted: &[Granting],
) -> Result<Vec<Serial>, AllocError>
    ensures { IfOk result (λ all. all.items ≡ all_roots namespaces.now handle fixed.now granted.now) }
{
    let mut roots = Vec::from_slice(alloc, fixed)?;
    push_all_roots(alloc, &mut roots, namespaces, handle)?;
    push_all_granted(&mut roots, granted)?;
    Ok(roots)
}

/// Puts the roots of namespaces at the end.
fn push_all_roots(
    alloc: Global,
    roots: &mut Vec<Serial>,
    namespaces: &[Namespace],
    handle: Serial,
) -> Result<(), AllocError>
    ensures { OnOk result (roots.new.items ≡ roots.old.items ++ flat_map (λ ns. left_roots handle ns.opens ++ staying ns.objects) namespaces.now) }
{
    for namespace in namespaces {
        push_roots(alloc, roots, namespace, handle)?;
    }
    Ok(())
}

/// Puts the roots of a namespace at the end: of openings that are left, and objects that stay.
fn push_roots(
    alloc: Global,
    roots: &mut Vec<Serial>,
    namespace: &Namespace,
    handle: Serial,
) -> Result<(), AllocError>
    ensures { OnOk result (roots.new.items ≡ roots.old.items ++ left_roots handle namespace.now.opens ++ staying namespace.now.objects) }
{
    let left = left_roots(alloc, namespace.opens.as_slice(), handle)?;
    roots.extend_from_slice(left.as_slice())?;
    push_staying(roots, namespace.objects.as_slice())
}

/// The roots of the openings that are left. The linker's own object leads to nothing.
fn left_roots(alloc: Global, opens: &[OpenRec], handle: Serial) -> Result<Vec<Serial>, AllocError>
    ensures { IfOk result (λ roots. roots.items ≡ left_roots handle opens.now) }
{
    opens
        .iter()
        .filter(|opening| is_left(opening, handle))
        .map(|opening| opening.root)
        .collect(alloc)
}

/// Whether an opening counts once one less of the handle does.
fn is_left(opening: &OpenRec, handle: Serial) -> bool
    ensures { result ≡ is_left handle opening.now }
{
    let fewer = if opening.root == handle { 1 } else { 0 };
    opening.count > fewer && opening.root.number() != 0
}

/// Puts the objects that stay for their own sake at the end.
fn push_staying(roots: &mut Vec<Serial>, objects: &[Loaded]) -> Result<(), AllocError>
    ensures { OnOk result (roots.new.items ≡ roots.old.items ++ staying objects.now) }
{
    for object in objects {
        push_if_it_stays(roots, object)?;
    }
    Ok(())
}

/// Puts an object at the end, if it stays for its own sake.
fn push_if_it_stays(roots: &mut Vec<Serial>, object: &Loaded) -> Result<(), AllocError>
    ensures { OnOk result (roots.new.items ≡ roots.old.items ++ staying_roots object.now) }
{
    if stays(object) {
        roots.push(object.serial)?;
    }
    Ok(())
}

/// Whether an object stays for its own sake: DF_1_NODELETE, or its constructors or destructors run.
fn stays(object: &Loaded) -> bool
    ensures { result ≡ stays object.now }
{
    object.object.flags.nodelete
        || match object.state {
            State::Initialising(_) | State::Dying(_) => true,
            State::Ready => false,
        }
}

/// Puts what open grants name at the end.
fn push_all_granted(roots: &mut Vec<Serial>, granted: &[Granting]) -> Result<(), AllocError>
    ensures { OnOk result (roots.new.items ≡ roots.old.items ++ flat_map (λ g. touched g.owner g.choice) granted.now) }
{
    for grant in granted {
        push_granted(roots, grant.owner, grant.choice)?;
    }
    Ok(())
}

/// Puts what an open grant names at the end: the slot's object, and the one whose definition was chosen.
fn push_granted(roots: &mut Vec<Serial>, owner: Serial, choice: Choice) -> Result<(), AllocError>
    ensures { OnOk result (roots.new.items ≡ roots.old.items ++ touched owner choice) }
{
    roots.push(owner)?;
    match choice {
        Choice::Def(target, _) => Ok(roots.push(target)?),
        Choice::WeakZero | Choice::Missing => Ok(()),
    }
}
