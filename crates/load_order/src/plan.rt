//! What a load brings.

ghost use Rattle.std.specs.Prelude.{◌≡◌, ◌≤◌, ℕ, List, IfOk};
ghost use Rattle.std.specs.Result.{IsErrOf};
ghost use Rattle.ld_base.specs.declared.fault.DlFault.{DlFault};
ghost use Rattle.ld_base.specs.declared.fault.DlFault.TheVariants.{ReadFault};
ghost use Rattle.ld_base.specs.declared.fault.Shown.{Shown};
ghost use Rattle.elf_object.specs.Verdict.{object_verdict};
ghost use Rattle.library_source.specs.Count.{Rises};
ghost use Rattle.library_source.specs.Files.{Over};
ghost use Rattle.load_walk.specs.Plan.{IsPlan, IsRefused, HasToWait};

use crate::Elf;
use library_source::Library;
use load_walk::{LoadAsk, LoadFault, LoadPlan, plan_with};
use scope_rule::Namespace;
use std::alloc::Global;

/// Loads an object with all that it needs (gABI, "Shared Object Dependencies"; dlopen(3)): finds
/// and reads the objects that aren't there, in load order, and places none of them.
///
/// # Errors
///
/// The first refusal that the load meets; then that of the first version that a new object needs
/// and that isn't there; that the load has to wait for another hart; or want of memory.
pub fn plan_load<L: Library>(
    alloc: Global,
    ns: &Namespace,
    ask: &LoadAsk,
    library: &mut L,
) -> Result<LoadPlan, LoadFault>
    // Over the library's files where it tells them, and over some files where it doesn't. Each path that a
    // missing name may have was missed.
    ensures plan { IfOk result (λ plan. Over (L.files library.old) (IsPlan object_verdict ask.now ns.now plan)) }
    ensures refused { (fault : DlFault) → IsErrOf result (LoadFault.Refused fault) →
        Over (L.files library.old) (IsRefused object_verdict ask.now ns.now.objects (L.misses library.old) (L.misses library.new) fault) }
    ensures waits { (shown : Shown) → IsErrOf result (LoadFault.Wait shown) →
        Over (L.files library.old) (HasToWait object_verdict ask.now ns.now.objects shown) }

    // No fault of the library is invented.
    ensures read_fault { (path : List ℕ) → IsErrOf result (LoadFault.Refused (ReadFault path)) →
        Rises (L.faults library.old) (L.faults library.new) }

    // What the library is left as.
    ensures files { L.files library.new ≡ L.files library.old }
    ensures faults { L.faults library.old ≤ L.faults library.new }
    ensures misses { L.misses library.old ≤ L.misses library.new }
{
    plan_with(alloc, ns, ask, &Elf, library)
}
