//! What a load brings.

ghost use Rattle.std.specs.Prelude.{◌≡◌, ◌≤◌, ℕ, List, None, IfOk, IfErr};
ghost use Rattle.std.specs.Result.{IsErrOf};
ghost use Rattle.ld_base.specs.declared.fault.DlFault.{DlFault};
ghost use Rattle.ld_base.specs.declared.fault.DlFault.TheVariants.{ReadFault};
ghost use Rattle.ld_base.specs.declared.fault.Shown.{Shown};
ghost use Rattle.library_source.specs.Count.{Rises};
ghost use Rattle.library_source.specs.Files.{Over};
ghost use Rattle.load_walk.specs.Plan.{IsPlan, IsRefused, HasToWait};
ghost use Rattle.scope_rule.specs.Breadth.{breadth};
ghost use Rattle.scope_rule.specs.Needed.{version_fault};
ghost use Rattle.scope_rule.specs.Seen.{seen_in, with_added};
ghost use Rattle.load_walk.specs.Records.{Completes, Gathers, Incomplete};

use crate::ask::{LoadAsk, LoadFault, LoadPlan};
use crate::driver::drive;
use crate::format::Format;
use crate::records::records;
use crate::versions::missing_version;
use crate::walker::Walker;
use ld_base::{Added, Loaded, Serial, Serials};
use library_source::Library;
use scope_rule::{IndexedView, Namespace, breadth_in};
use std::alloc::{AllocError, Global};

/// The root, and the records of the new objects.
fn gather(alloc: Global, ask: &LoadAsk, walker: Walker) -> Result<(Serial, Added), AllocError>
    ensures { IfOk result (λ both. Gathers ask.now walker both.0 both.1) }
{
    let root = walker.root()?;
    let Walker {
        names: _,
        found,
        arrivals,
        missed: _,
    } = walker;
    let added = records(alloc, ask, found.as_slice(), arrivals)?;
    Ok((root, added))
}

/// What the root leads to, if every version that the new objects need is there.
#[tactic(auto, using(crate::proofs::Planning::seen_versions, crate::proofs::Planning::seen_breadth))]
fn checked_breadth(
    alloc: Global,
    ns: &Namespace,
    root: Serial,
    added: &[Loaded],
) -> Result<Serials, LoadFault>
    ensures breadth { IfOk result (λ order. order ≡ breadth (with_added (seen_in ns.now) added.now) root) }
    ensures versions { IfOk result (λ order. version_fault ns.now.objects added.now ≡ None) }
    ensures fault { IfErr result (λ fault. Incomplete ns.now added.now fault) }
{
    let indexed = IndexedView::of(alloc, &ns.view_with(added))?;
    if let Some(fault) = missing_version(alloc, &indexed, added)? {
        return Err(LoadFault::Refused(fault));
    }
    let order = breadth_in(alloc, &indexed, root)?;
    Ok(Serials::from_slice(alloc, order.as_slice())?)
}

/// The plan with this root and these new objects, if every version that they need is there.
fn complete(
    alloc: Global,
    ns: &Namespace,
    root: Serial,
    added: Added,
) -> Result<LoadPlan, LoadFault>
    ensures plan { IfOk result (λ plan. Completes ns.now root added plan) }
    ensures fault { IfErr result (λ fault. Incomplete ns.now added fault) }
{
    let breadth = checked_breadth(alloc, ns, root, added.as_slice())?;
    Ok(LoadPlan {
        root,
        added,
        breadth,
    })
}

/// Loads an object of a format with all that it needs (gABI, "Shared Object Dependencies";
/// dlopen(3)): finds and reads the objects that aren't there, in load order, and places none of
/// them.
///
/// # Errors
///
/// The first refusal that the load meets; then that of the first version that a new object needs
/// and that isn't there; that the load has to wait for another hart; or want of memory.
pub fn plan_with<F: Format, L: Library>(
    alloc: Global,
    ns: &Namespace,
    ask: &LoadAsk,
    format: &F,
    library: &mut L,
) -> Result<LoadPlan, LoadFault>
    // Over the library's files where it tells them, and over some files where it doesn't. Each path that a
    // missing name may have was missed.
    ensures plan { IfOk result (λ plan. Over (L.files library.old) (IsPlan (F.verdict format.now) ask.now ns.now plan)) }
    ensures refused { (fault : DlFault) → IsErrOf result (LoadFault.Refused fault) →
        Over (L.files library.old) (IsRefused (F.verdict format.now) ask.now ns.now.objects (L.misses library.old) (L.misses library.new) fault) }
    ensures waits { (shown : Shown) → IsErrOf result (LoadFault.Wait shown) →
        Over (L.files library.old) (HasToWait (F.verdict format.now) ask.now ns.now.objects shown) }

    // No fault of the library is invented.
    ensures read_fault { (path : List ℕ) → IsErrOf result (LoadFault.Refused (ReadFault path)) →
        Rises (L.faults library.old) (L.faults library.new) }

    // What the library is left as.
    ensures files { L.files library.new ≡ L.files library.old }
    ensures faults { L.faults library.old ≤ L.faults library.new }
    ensures misses { L.misses library.old ≤ L.misses library.new }
{
    let mut walker = Walker::new(alloc, ask)?;
    drive(alloc, ns, ask, format, library, &mut walker)?;
    let (root, added) = gather(alloc, ask, walker)?;
    complete(alloc, ns, root, added)
}
