//! Openings.

ghost use Rattle.std.specs.Prelude.{◌≡◌, ◌+◌, ◌*◌, ◌<◌, ◌≤◌, ◌^◌, OnOk};

use history_journal::LawfulJournal;
use link_images::ImageParts;
use link_lists::{HeldEdges, LoadRecord, Unfinished};
use link_spaces::ReservedPages;
use std::alloc::AllocError;

/// How many things an opening brings.
#[derive(Clone, Copy)]
pub struct OpeningCounts {
    pub objects: usize,
    pub ranges: usize,
    pub edges: usize,
    pub parts: usize,
}

/// Room for what an opening brings to the lists.
///
/// # Errors
///
/// Want of memory.
pub fn room_for_opening(
    unfinished: &mut Unfinished,
    reserved: &mut ReservedPages,
    parts: &mut ImageParts,
    edges: &mut HeldEdges,
    loads: &mut LoadRecord,
    journal: &mut LawfulJournal,
    counts: &OpeningCounts,
) -> Result<(), AllocError>
    requires few { counts.now.objects < 2 ^ 62 }
    ensures serials { unfinished.new.serials ≡ unfinished.old.serials }
    ensures unfinished_room { unfinished.old.room ≤ unfinished.new.room }
    ensures more_unfinished { OnOk result (unfinished.old.room + counts.now.objects ≤ unfinished.new.room) }
    ensures ranges { reserved.new.ranges ≡ reserved.old.ranges }
    ensures more_ranges { OnOk result (counts.now.ranges ≤ reserved.new.spare) }
    ensures parts { parts.new.parts ≡ parts.old.parts }
    ensures more_parts { OnOk result (counts.now.parts ≤ parts.new.room) }
    ensures edges { edges.new.edges ≡ edges.old.edges }
    ensures edge_room { edges.old.room ≤ edges.new.room }
    ensures more_edges { OnOk result (edges.old.room + counts.now.edges ≤ edges.new.room) }
    ensures binds { loads.new.binds ≡ loads.old.binds }
    ensures next { loads.new.next ≡ loads.old.next }
    ensures startup { loads.new.startup ≡ loads.old.startup }
    ensures pinned { loads.new.pinned ≡ loads.old.pinned }
    ensures more_startup { OnOk result (counts.now.objects ≤ loads.new.startup_room) }
    ensures more_pinned { OnOk result (0 < loads.new.pinned_room) }
    ensures harts { journal.new.harts ≡ journal.old.harts }
    ensures events { journal.new.events ≡ journal.old.events }
    ensures more_events { OnOk result (2 * counts.now.objects < journal.new.spare) }
{
    unfinished.make_room(counts.objects)?;
    reserved.make_room(counts.ranges)?;
    parts.make_room(counts.parts)?;
    edges.make_room(counts.edges)?;
    loads.make_room(counts.objects)?;
    journal.make_room(2 * counts.objects + 1)
}
