//! The four functions that step on the table.
//!
//! Nothing else does, and nothing outside this module's parent could, so that each step is one of the
//! kinds of `word_rule`: a step of the table names its word and its operands, and each of these asks
//! that its operation is the kind's.

ghost use Rattle.std.specs.Prelude.{◌≡◌, ◌<◌, []};
ghost use Rattle.word_rule.specs.Layout.{table_words};
ghost use Rattle.word_rule.specs.Operations.{load, store, exchange, add};
ghost use Rattle.word_rule.specs.Table.{Learns, Ready, after_step, op_of, word_of};

use crate::{Memory, Naming};
use atomic_table::Seat;
use word_rule::{Aimed, Does, View};

/// Loads a word. The last argument is for the proof: it says what the step is for.
pub(crate) fn load_as<J: Naming, A: Aimed, K>(
    memory: &Memory<J>,
    seat: &mut Seat<(), View>,
    word: usize,
    _aim: &K,
) -> u64
    requires table { (seat.old.table_id ≡ J.table) × (word < table_words) }
    requires aimed { (word ≡ word_of A.kind) × (op_of A.kind ≡ load) }
    requires ready { (seat.old.me.1 ≡ []) × Ready A.kind seat.old.me.0 }
    ensures table { seat.new.table_id ≡ J.table }
    ensures view { seat.new.me ≡ (after_step A.kind seat.old.me.0 result, []) }
    ensures learns { Learns A.kind seat.old.me.0 result }
{
    memory.table.shared.load::<Does<A>>(seat, word)
}

/// Stores a number in a word.
pub(crate) fn store_as<J: Naming, A: Aimed, K>(
    memory: &Memory<J>,
    seat: &mut Seat<(), View>,
    word: usize,
    new: u64,
    _aim: &K,
)
    requires table { (seat.old.table_id ≡ J.table) × (word < table_words) }
    requires aimed { (word ≡ word_of A.kind) × (op_of A.kind ≡ store new) }
    requires ready { (seat.old.me.1 ≡ []) × Ready A.kind seat.old.me.0 }
    ensures table { seat.new.table_id ≡ J.table }
    ensures view { seat.new.me ≡ (after_step A.kind seat.old.me.0 new, []) }
    ensures learns { Learns A.kind seat.old.me.0 new }
{
    memory.table.shared.store::<Does<A>>(seat, word, new)
}

/// Stores `new` where the word is `old`, and answers the number found.
pub(crate) fn exchange_as<J: Naming, A: Aimed, K>(
    memory: &Memory<J>,
    seat: &mut Seat<(), View>,
    word: usize,
    old: u64,
    new: u64,
    _aim: &K,
) -> u64
    requires table { (seat.old.table_id ≡ J.table) × (word < table_words) }
    requires aimed { (word ≡ word_of A.kind) × (op_of A.kind ≡ exchange old new) }
    requires ready { (seat.old.me.1 ≡ []) × Ready A.kind seat.old.me.0 }
    ensures table { seat.new.table_id ≡ J.table }
    ensures view { seat.new.me ≡ (after_step A.kind seat.old.me.0 result, []) }
    ensures learns { Learns A.kind seat.old.me.0 result }
{
    memory
        .table
        .shared
        .compare_exchange::<Does<A>>(seat, word, old, new)
}

/// Adds to a word, modulo 2^64, and answers the number found.
pub(crate) fn add_as<J: Naming, A: Aimed, K>(
    memory: &Memory<J>,
    seat: &mut Seat<(), View>,
    word: usize,
    more: u64,
    _aim: &K,
) -> u64
    requires table { (seat.old.table_id ≡ J.table) × (word < table_words) }
    requires aimed { (word ≡ word_of A.kind) × (op_of A.kind ≡ add more) }
    requires ready { (seat.old.me.1 ≡ []) × Ready A.kind seat.old.me.0 }
    ensures table { seat.new.table_id ≡ J.table }
    ensures view { seat.new.me ≡ (after_step A.kind seat.old.me.0 result, []) }
    ensures learns { Learns A.kind seat.old.me.0 result }
{
    memory.table.shared.fetch_add::<Does<A>>(seat, word, more)
}
