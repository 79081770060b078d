//! What the keeper's view of shared words says of guest memory.
//!
//! `word_rule` says of words that harts share what the keeper knows of them, and `history_memory` what
//! guest memory is by a state of the linker. `specs/` says when the keeper's view is that of a state
//! ([`IsOfState`](../specs/Shared.antt)), and the law that memory then is as it should be, between any
//! two steps.
#![tactic(auto)]

mod law;

pub use law::shared_words_hold;
