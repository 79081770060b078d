//! The grant that holds objects in memory.

ghost use Rattle.std.specs.Prelude.{◌≡◌, find};
ghost use Rattle.std.specs.List.{list_any};
ghost use Rattle.std.specs.Option.{option_map};
ghost use Rattle.history_state.specs.Grants.{target_of};
ghost use Rattle.history_state.specs.Objects.{has};
ghost use Rattle.close_mark.specs.UnmapSteps.Touched.{is_touching};

use history_event::Granting;
use history_graph::SerialSet;
use ld_base::{Choice, GrantNo, Serial};

/// The number of the first of some grants whose owner or target is of a set.
pub fn holding(grants: &[Granting], set: &[Serial]) -> Option<GrantNo>
    ensures { result ≡ option_map (λ g. g.number) (find (is_touching set.now) grants.now) }
{
    first_touching(grants, &SerialSet::new(set))
}

/// The same of a set that is searched.
fn first_touching(grants: &[Granting], set: &SerialSet) -> Option<GrantNo>
    ensures { result ≡ option_map (λ g. g.number) (find (is_touching set.now) grants.now) }
{
    for grant in grants {
        if is_touching(grant, set) {
            return Some(grant.number);
        }
    }
    None
}

/// Whether a grant's owner or target is of a set.
fn is_touching(grant: &Granting, set: &SerialSet) -> bool
    ensures { result ≡ is_touching set.now grant.now }
{
    set.has(grant.owner) || leads_into(grant.choice, set)
}

/// Whether what was chosen is of an object of a set.
fn leads_into(choice: Choice, set: &SerialSet) -> bool
    ensures { result ≡ list_any (has set.now) (target_of choice) }
{
    match choice {
        Choice::Def(target, _) => set.has(target),
        Choice::WeakZero | Choice::Missing => false,
    }
}
