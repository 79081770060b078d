//! The history of a run: which event may come next, what the linker's state is after it, and what
//! holds in each state of a legal history.
//!
//! Everything that this project promises of a run is said of its journal, the list of its events.
//! `specs/` says what a state is, what each event makes of it (`step`, an equation an event), which
//! event may come in it (`Allowed`, a record an event) and so which journals are legal (`Legal`). It
//! says besides what guest memory is in a state: the role of each address and the word that was put
//! there first.
//!
//! There is no code but laws: functions without a body, whose contract is the law.
#![tactic(auto)]

mod journals;
mod law;

pub use journals::{
    first_match_is_chosen, harts_race, late_blocks_are_apart, libraries_hold_each_other,
    namespaces_are_apart,
};
pub use law::{
    areas_are_data, blocks_are_apart, blocks_are_placed, closed_are_spare, each_dies_once,
    edges_follow, events_are_owed, fewer_are_finalised, finalised_once, finals_follow,
    free_pages_follow, grants_are_held, grants_are_tidy, grants_choose, holders_are_images,
    images_are_bound, images_are_found, images_are_installed, images_are_mapped, images_are_placed,
    images_are_tied, initialised_once, legal_step_by_step, loads_enter_code, lost_saw_the_value,
    members_decide, memory_changes, modules_are_few, modules_are_tidy, no_slot_dangles,
    none_is_lazy, nothing_comes_before_startup, nothing_left_out, objects_are_apart,
    objects_are_read, offsets_are_there, openings_stand, program_exits, program_stays,
    ranges_apart, ranges_are_owned, released_are_free, serials_are_in_order, slots_begin,
    slots_enter_code, slots_lead_to_rx, startup_is_past, startup_stays, static_areas_have_room,
    statics_are_apart, symbols_are_stored, uninitialised_stay,
};
