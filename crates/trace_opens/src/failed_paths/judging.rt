//! What a plan over an empty file says.

ghost use Rattle.std.specs.Prelude.{◌≡◌, ℕ, List, false, IfErr, IfOk, IsTrue, Some, Err};
ghost use Rattle.ld_base.specs.declared.fault.DlFault.TheVariants.{NotAccepted as IsNotAccepted, ReadFault as IsReadFault};
ghost use Rattle.link_open_plan.specs.Planned.{fault_in, refusal_in};
ghost use Rattle.link_open_plan.specs.declared.planning.Unopened.TheVariants.{Refused};
ghost use Rattle.trace_opens.specs.FailedPaths.Emptied.{first_rule};
ghost use Rattle.trace_opens.specs.FailedPaths.Row.{IsSure, IsSureOf};
ghost use Rattle.trace_opens.specs.declared.failed_paths.judging.Doubt.TheVariants.{Memory, ReadFault};

use ld_base::{DlFault, Name};
use link_lists::Copied;
use link_open_plan::Unopened;
use std::alloc::{AllocError, Global};

/// Why it can't be said what an opening gives.
#[derive(Debug, Drop)]
pub enum Doubt {
    /// The library failed to read the file at the path.
    ReadFault(Name),
    Memory,
}

impl From<AllocError> for Doubt {
    ghost from_gives = { λ _ doubt. doubt ≡ Memory };

    fn from(_error: AllocError) -> Self {
        Doubt::Memory
    }
}

/// Whether the plan is the refusal of an empty file at the path.
pub(crate) fn judge<X>(
    alloc: Global,
    path: &Name,
    planned: &Result<X, Unopened>,
) -> Result<bool, Doubt>
    ensures yes { IfOk result (λ may. IsTrue may → planned.now ≡ Err (Refused (IsNotAccepted path.now first_rule))) }
    ensures no { IfOk result (λ may. may ≡ false → IsSureOf path.now planned.now) }
    ensures failed { IfErr result (λ doubt. (failed : List ℕ) → doubt ≡ ReadFault failed → refusal_in planned.now ≡ Some (IsReadFault failed)) }
{
    match planned {
        Ok(_) => Ok(false),
        Err(why) => judge_why(alloc, path, why),
    }
}

fn judge_why(alloc: Global, path: &Name, why: &Unopened) -> Result<bool, Doubt>
    ensures yes { IfOk result (λ may. IsTrue may → why.now ≡ Refused (IsNotAccepted path.now first_rule)) }
    ensures no { IfOk result (λ may. may ≡ false → IsSure path.now why.now) }
    ensures failed { IfErr result (λ doubt. (failed : List ℕ) → doubt ≡ ReadFault failed → fault_in why.now ≡ Some (IsReadFault failed)) }
{
    match why {
        Unopened::Wait(_) => Ok(false),
        Unopened::Memory => Err(Doubt::Memory),
        Unopened::Refused(DlFault::ReadFault(failed)) => Err(Doubt::ReadFault(failed.copy(alloc)?)),
        Unopened::Refused(DlFault::NotAccepted(found, broken)) => {
            Ok(path.is(found.as_bytes()) && broken.rule == 1 && broken.number == 0)
        }
        Unopened::Refused(_) => Ok(false),
    }
}
