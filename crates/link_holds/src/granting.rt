//! Grants of slots.

ghost use Rattle.std.specs.Prelude.{◌≡◌, ◌+◌, ◌<◌, ◌≤◌, ◌^◌, [], ◌∷◌, ◌++◌, OnOk};
ghost use Rattle.history_event.specs.declared.state.Standing.TheVariants as standings;
ghost use Rattle.history_state.specs.Relocating.{is_missing};

use history_event::Granted;
use history_journal::LawfulJournal;
use ld_base::{Choice, GrantNo, HartId, Serial};
use link_finds::SlotChoice;
use link_lists::{HeldEdges, OpenGrants};
use std::alloc::AllocError;

/// Room for a grant and for its event, for the event that settles it, and for the edge that it may become.
///
/// # Errors
///
/// Want of memory.
pub fn room_for_grant(
    settling: &mut OpenGrants,
    edges: &mut HeldEdges,
    journal: &mut LawfulJournal,
) -> Result<(), AllocError>
    ensures grants { settling.new.grants ≡ settling.old.grants }
    ensures count { settling.new.count ≡ settling.old.count }
    ensures spare { OnOk result (0 < settling.new.spare) }
    ensures edges { edges.new.edges ≡ edges.old.edges }
    ensures edge_room { edges.old.room ≤ edges.new.room }
    ensures more { OnOk result (edges.new.room ≡ edges.old.room + 1) }
    ensures harts { journal.new.harts ≡ journal.old.harts }
    ensures events { journal.new.events ≡ journal.old.events }
    ensures room { OnOk result (1 < journal.new.spare) }
{
    settling.make_room()?;
    journal.make_room(2)?;
    edges.make_room(1)
}

/// One grant more of a slot.
pub fn open_grant(settling: &mut OpenGrants, hart: HartId, owner: Serial, chosen: &SlotChoice)
    requires room { 0 < settling.old.spare }
    requires few { settling.old.count < 2 ^ 62 }
    ensures grants { settling.new.grants ≡ settling.old.grants ++ record {
      number = settling.old.count + 1;
      hart = hart;
      owner = owner;
      slot = chosen.now.slot;
      choice = chosen.now.choice;
      value = chosen.now.value;
      standing = standings.Open;
    } ∷ [] }
    ensures count { settling.new.count ≡ settling.old.count + 1 }
{
    settling.push(hart, owner, chosen.slot, chosen.choice, chosen.value);
}

/// A grant as its hart gets it.
pub fn granted(event: u64, grant: GrantNo, owner: Serial, chosen: &SlotChoice) -> Granted
    ensures { result ≡ record {
      event = event;
      grant = grant;
      owner = owner;
      slot = chosen.now.address;
      lazy = chosen.now.lazy;
      choice = chosen.now.choice;
      value = chosen.now.value;
    } }
{
    Granted {
        event,
        grant,
        owner,
        slot: chosen.address,
        lazy: chosen.lazy,
        choice: chosen.choice,
        value: chosen.value,
    }
}

/// Whether nothing was chosen.
pub fn is_missing(choice: &Choice) -> bool
    ensures { result ≡ is_missing choice.now }
{
    match choice {
        Choice::Missing => true,
        Choice::Def(_, _) | Choice::WeakZero => false,
    }
}
