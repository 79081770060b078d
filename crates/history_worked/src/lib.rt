//! Worked histories, each with neighbours that aren't legal: what the rules say, case by case.
//!
//! `choosing` has what slots choose and look-ups find; `opening` what openings and closings come to; `settling`
//! how a slot's grants are settled, how often a fault is told, and how a run ends, in the histories that
//! `history_state` has; `storing` where static blocks stand, and what a COPY takes. Expected events come from the
//! rules, by hand.
//!
//! There is no code but laws: functions without a body, whose contract is the law.
#![tactic(auto)]

mod choosing;
mod opening;
mod settling;
mod storing;

pub use choosing::{
    deep_comes_first, hidden_versions_are_asked_for, symbolic_comes_first, visibility_is_kept,
    weak_references_are_zero,
};
pub use opening::{
    nodelete_stays, numbers_come_again, the_first_candidate_is_read, versions_come_before_room,
    what_closes_is_refused,
};
pub use settling::{
    ends_come_once, faults_are_told_once, finals_come_in_order, slots_are_bound_once,
};
pub use storing::{copies_take_anothers, static_blocks_follow};
