//! The rule, as a table of atomic words takes it.

use crate::{Kind, View};
use atomic_table::{Join, Play, Split, TableRule};
use std::marker::{Brand, PhantomData};

/// The rule of a table without slots, whose words are those of guest memory.
pub struct GuestRule;

impl TableRule<(), View, ()> for GuestRule {
    ghost use Rattle.word_rule.specs.declared.view.View.TheVariants.{Keeper};
    ghost use Rattle.word_rule.specs.Rule.{IsGuest};
    ghost use Rattle.word_rule.specs.Start.{first_keeper};

    ghost holds = { λ _ s. IsGuest s.words s.views };

    ghost first = { λ _. Keeper first_keeper };
}

/// What a step is for. Whoever steps picks it.
pub trait Aimed {
    ghost use Rattle.word_rule.specs.declared.kind.Kind.{Kind};

    ghost kind: { Kind };
}

/// Whoever steps picks another kind at the call.
impl Aimed for Brand {
    ghost use Rattle.word_rule.specs.declared.kind.HartKind.TheVariants.{Listen};
    ghost use Rattle.word_rule.specs.declared.kind.Kind.TheVariants.{Hart};

    ghost kind = { Hart Listen };
}

/// What a step of a kind tells: that the seat was ready for the kind and that this was its step, the
/// view after it, and what the rule knows of the number found.
///
/// A step names its word and its operands but not its operation: a crate that steps on this table
/// does so by four functions alone (a load, a store, a compare-exchange and an add), each of which asks
/// that its operation is the kind's. Then each step on the table is one of the kinds.
pub struct Does<A> {
    of: PhantomData<A>,
}

impl<A: Aimed> Play<(), View> for Does<A> {
    ghost use Rattle.word_rule.specs.Table.{Tells};

    ghost then = { Tells A.kind };
}

/// A hart's seat is made from the keeper's.
pub struct MakesHart;

impl Split<View> for MakesHart {
    ghost use Rattle.word_rule.specs.Joining.{new_hart, with_hart};

    ghost left = { with_hart };

    ghost right = { new_hart };
}

/// A note is made, and the seat stays as it is.
pub struct MakesNote;

impl Split<View> for MakesNote {
    ghost use Rattle.word_rule.specs.Joining.{note_of};

    ghost left = { λ v. v };

    ghost right = { note_of };
}

/// A seat takes in a hart's seat or a note.
pub struct TakesIn;

impl Join<View> for TakesIn {
    ghost use Rattle.word_rule.specs.declared.view.View.TheVariants.{Spent};
    ghost use Rattle.word_rule.specs.Joining.{takes_in};

    ghost both = { takes_in };

    ghost spent = { Spent };
}
