//! Which grant of a hart is still to be settled.

ghost use Rattle.std.specs.Prelude.{◌≡◌, find, IfNone, IfSome};
ghost use Rattle.std.specs.Option.{option_map};
ghost use Rattle.history_state.specs.After.{after};
ghost use Rattle.history_state.specs.Slots.{HasNoGrant};
ghost use Rattle.link_state.specs.Granting.{HasOpenGrant, is_by};

use crate::LinkState;
use history_event::Granting;
use ld_base::{GrantNo, HartId};

impl LinkState {
    /// The grant of a hart that isn't settled yet: a hart has one at most.
    pub fn open_grant(&self, hart: HartId) -> Option<GrantNo>
        ensures pending { IfSome result (λ number. HasOpenGrant (after self.now.events) hart number) }
        ensures none { IfNone result (HasNoGrant (after self.now.events) hart) }
    {
        number_of(self.settling.as_slice(), hart)
    }
}

/// The number of the first of some grants that a hart has.
fn number_of(grants: &[Granting], hart: HartId) -> Option<GrantNo>
    ensures { result ≡ option_map (λ g. g.number) (find (is_by hart) grants.now) }
{
    for grant in grants {
        if grant.hart == hart {
            return Some(grant.number);
        }
    }
    None
}
