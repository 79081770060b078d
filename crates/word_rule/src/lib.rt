//! The rule of guest memory that harts share.
//!
//! Guest memory, and what the linker and the harts hand one another, are words that change in single
//! atomic steps which no lock covers. Whoever steps has a view: what it knows. There is one keeper,
//! which the linker's state belongs to, and up to 16 harts. This crate says which steps there are
//! ([`HartKind`] and [`KeeperKind`], two closed enums), what each asks of the view, what it does to its
//! word and what the view is after; and it states the rule, a fact about all words and all views that
//! holds between any two steps, whoever steps.
//!
//! The rule (`specs/Rule.antt`) has parts that speak of different things: who the seats are
//! (`Seats`), words and locks (`Words`), calls and rows (`Calls`), slots and grants (`Slots`), the
//! generation of the TLS modules (`Generations`), and what harts run (`Fetches`). Each is a record of facts about words and a few
//! fields of the views, so that a kind of step owes one lemma to each part.
//!
//! Nothing here runs. No value of a view is ever made: views exist in proofs alone.
#![tactic(auto)]

mod entry;
mod kind;
mod law;
mod rule;
mod view;

pub use entry::{Entry, Exchange, Grant, RowWord};
pub use kind::{Ask, HartKind, KeeperKind, Kind, LoadAsk, StoreAsk};
pub use law::{
    exchanges_stay, hart_steps_keep, joined_seats_keep, keeper_steps_keep, lanes_stay,
    last_blocks_are_answers, made_seats_keep, marks_stay_once, owners_change, rows_have_owners,
    rule_begins, rule_comes_to, worked_steps,
};
pub use rule::{Aimed, Does, GuestRule, MakesHart, MakesNote, TakesIn};
pub use view::{
    Access, Fate, HartView, KeeperView, Kept, Lane, Loss, Offer, OpenRow, Retired, Row, Settled,
    Sight, Slip, Told, TrailItem, View,
};
