//! What a call of the linker gives: which events it appends, and what it answers, for each service
//! that a hart may call, in each state.
//!
//! `history_state` says which event may come next. This crate says which one comes of a call: of a slot
//! that is called for the first time, of dlopen, dlmopen, dlsym, dlvsym, dlclose and its unmapping,
//! dlerror, `__tls_get_addr` and a write, and when such a call ends its hart or has to be tried again.
//! It is one relation, `Gives` (`specs/Gives.antt`), which the contracts of the calls cite, and so do
//! the worlds that run harts on them.
//!
//! What comes of the return of a function that the linker called, a constructor's or a destructor's, is
//! for the worlds, which know what a hart was about; so are the parts of a call before it is made, as
//! the copying of names.
//!
//! There is no code but laws: functions without a body, whose contract is the law.
//!
//! `link_served` has the types that calls answer with, `untold_files` what is known of files that a library
//! doesn't tell, `call_laws` what is said of a call beside what it gives, `load_choices` what a load may still choose.
#![tactic(auto)]

mod call_laws;
mod law;
mod link_served;
mod load_choices;
mod untold_files;
mod worked_calls;

pub use call_laws::{
    closings_keep, counts_show, executable_by_holder, new_objects_stand_behind,
    nothing_leads_nowhere, only_failed_reads_stop, own_order_is_the_order, reads_only_if_it_has_to,
    refusals_are_told_apart, refused_by_asking,
};
pub use law::{
    callers_are_there, calls_are_answered, calls_are_legal, constructors_follow,
    destructors_follow, events_are_own, functions_run_in_order, names_found_in_order, one_answer,
    one_list_of_functions, one_startup, openings_see_the_state_after, preload_is_the_programs,
    refusals_are_told, refusals_come_in_order, refused_calls_leave, run_journals_grow,
    served_calls_are_legal, the_program_is_last,
};
pub use link_served::{Installs, Served, Setup, SlotWord, SlotWords, StartFault, Started};
pub use untold_files::files_only_narrow;
pub use worked_calls::{
    closes_a_held_library, closes_both_libraries, ends_without_a_slot, finds_thread_local_storage,
    grants_what_comes_first, judges_what_is_asked, runs_functions_in_order, waits_for_another_hart,
};
