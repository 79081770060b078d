//! Grants that are settled.

ghost use Rattle.std.specs.Prelude.{◌≡◌, ◌+◌, ◌≤◌, ◌++◌};
ghost use Rattle.link_holds.specs.Settling.{edges_spent, settled_edges, won_edges};

use history_event::Granting;
use ld_base::{Choice, Serial};
use link_lists::HeldEdges;

/// What a grant that is settled leads its slot's object to is held from now on, if the slot got its value;
/// else the room for the edge is given back.
pub fn hold(edges: &mut HeldEdges, grant: Option<Granting>, won: bool)
    requires { edges_spent grant ≤ edges.old.room }
    ensures edges { edges.new.edges ≡ edges.old.edges ++ settled_edges grant won }
    ensures room { edges.new.room + edges_spent grant ≡ edges.old.room }
{
    if let Some(grant) = grant {
        hold_target(edges, grant.owner, grant.choice, won);
    }
}

/// The same for a slot's object and its choice.
fn hold_target(edges: &mut HeldEdges, owner: Serial, choice: Choice, won: bool)
    requires { 1 ≤ edges.old.room }
    ensures edges { edges.new.edges ≡ edges.old.edges ++ won_edges owner choice won }
    ensures room { edges.new.room + 1 ≡ edges.old.room }
{
    match choice {
        Choice::Def(target, _) => {
            if won {
                edges.push(owner, target);
            } else {
                edges.give_back();
            }
        }
        Choice::WeakZero | Choice::Missing => edges.give_back(),
    }
}
