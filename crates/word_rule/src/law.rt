//! What holds of the rule.

ghost use Rattle.std.specs.Prelude.{◌≡◌, ℕ, List, [], ◌∷◌, ◌++◌};
ghost use Rattle.word_rule.specs.declared.entry.Entry.{Entry};
ghost use Rattle.word_rule.specs.declared.kind.HartKind.{HartKind};
ghost use Rattle.word_rule.specs.declared.kind.KeeperKind.{KeeperKind};
ghost use Rattle.word_rule.specs.declared.view.HartView.{HartView};
ghost use Rattle.word_rule.specs.declared.view.KeeperView.{KeeperView};
ghost use Rattle.word_rule.specs.declared.view.TrailItem.{TrailItem};
ghost use Rattle.word_rule.specs.declared.view.TrailItem.TheVariants.{Took};
ghost use Rattle.word_rule.specs.declared.view.View.{View};
ghost use Rattle.word_rule.specs.declared.view.View.TheVariants.{Keeper};
ghost use Rattle.word_rule.specs.Clauses.{Clauses};
ghost use Rattle.word_rule.specs.Generations.{IsUnknown, IsUnmarked, LastIsAnswer, MarksOnce, NoneIsAnswer, NoneIsOfLater};
ghost use Rattle.word_rule.specs.HartSteps.{HartLearns, HartLeaves, HartReady, hart_after};
ghost use Rattle.word_rule.specs.KeeperSteps.{KeeperLeaves, KeeperReady, keeper_after};
ghost use Rattle.word_rule.specs.Rule.{HartKeeps, IsGuest, KeeperKeeps};
ghost use Rattle.word_rule.specs.Joining.{HasNote, HasRoom, JoinKeeps, MayTake, SplitKeeps, new_hart, note_of, takes_in, with_hart};
ghost use Rattle.word_rule.specs.Start.{first_keeper, first_words, IsFirst};
ghost use Rattle.word_rule.specs.Owners.{LockedStay, OnlyFreshAreStored, OnlyOwnersChange, OnlyRowsOwnersChange, OnlyTallyCounts, TrailsGrow, UnlocksRaise, WordsStay};
ghost use Rattle.word_rule.specs.Views.{IsLane, IsLong, entries_of, first_lane};
ghost use Rattle.word_rule.specs.Worked.{AnotherHasLocked, ConditionalFails, ConditionalIsRefused, LockIsShown, LookKeeps, OneLocks, OneWins};
ghost use Rattle.word_rule.specs.Worked.{RoleComesAndGoes, RolesGoInOrder, RowGoesRound, StoreIsOwed};

/// The rule holds at the start, when the keeper knows of no role and of nothing that was handed over.
pub fn rule_begins()
    ensures begins { IsGuest first_words (Keeper first_keeper ∷ []) }
    ensures first { IsFirst first_keeper }
{}

/// Whatever the words and the other views are, a step of a hart whose view is ready for it keeps the
/// rule, and what its kind tells is true.
pub fn hart_steps_keep()
    ensures { (kind : HartKind) (seat : ℕ) (h : HartView) → HartReady kind h → HartKeeps kind seat h }
{}

/// The same of a step of the keeper; and it leaves the lengths of what the keeper knows.
pub fn keeper_steps_keep()
    ensures keeps { (kind : KeeperKind) (seat : ℕ) (k : KeeperView) → KeeperReady kind k → KeeperKeeps kind seat k }
    ensures long { (kind : KeeperKind) (k : KeeperView) (n : ℕ) → KeeperReady kind k → IsLong k → IsLong (keeper_after kind k n) }
{}

/// A step that clears the lock of a control word raises its version by one. A doubleword is changed by
/// the seat that has locked it alone, but that it is locked, and that a slot is exchanged; and a lock
/// leaves one that is locked already. The keeper changes no value of a doubleword that has a role.
pub fn owners_change()
    ensures raise { UnlocksRaise }
    ensures owners { OnlyOwnersChange }
    ensures fresh { OnlyFreshAreStored }
    ensures locked { LockedStay }
{}

/// A word of a row is changed by its hart, at rest before a call or with a mark in one; and by the
/// keeper, while it awaits an answer and no grant of the hart is undecided. In a call a hart doesn't
/// look at the count.
pub fn rows_have_owners()
    ensures rows { OnlyRowsOwnersChange }
    ensures count { OnlyTallyCounts }
{}

/// An exchange stays in its trail: a step leaves each trail as it was, or with one item behind it. And a
/// doubleword that has a role stays the one that the keeper knows while it has it, with its image's word,
/// its lazy word and the count at its start. So what [`rule_comes_to`] says of an exchange holds on while its slot is there.
pub fn exchanges_stay()
    ensures trails { TrailsGrow }
    ensures words { WordsStay }
{}

/// The last block of a module among entries is that of the last TLS answer there, and none exactly where
/// there is no such answer. Where there is none at a generation that no entry is later than, there is none
/// at a later one: a hart that found none has none of the generation of the linker's answer, either.
pub fn last_blocks_are_answers()
    ensures answer { LastIsAnswer }
    ensures none { NoneIsAnswer }
    ensures later { NoneIsOfLater }
{}

/// The answers of mark 2 in a trail stay the first ones of their generations and modules where the trail
/// gets one more item, which has no such answer, or is an entry of whose generation and module the trail
/// has no answer.
pub fn marks_stay_once()
    ensures unmarked { (trail : List TrailItem) (item : TrailItem) → MarksOnce [] trail → IsUnmarked item → MarksOnce [] (trail ++ item ∷ []) }
    ensures first { (trail : List TrailItem) (e : Entry) → MarksOnce [] trail → IsUnknown (entries_of trail) e → MarksOnce [] (trail ++ Took e ∷ []) }
{}

/// What a hart's own view says of its calls holds after each of its steps.
pub fn lanes_stay()
    ensures first { IsLane first_lane }
    ensures stays { (kind : HartKind) (h : HartView) (n : ℕ) → HartReady kind h → HartLearns kind h n → IsLane h.lane → IsLane (hart_after kind h n).lane }
    ensures harts { (kind : HartKind) (h : HartView) (n : ℕ) → HartLeaves kind → (hart_after kind h n).access ≡ h.access }
    ensures keeper { (kind : KeeperKind) (k : KeeperView) (n : ℕ) → KeeperLeaves kind → (keeper_after kind k n).access ≡ k.access }
{}

/// A hart's seat may be made from the keeper's while there are fewer than 16, and a note from either
/// sort of seat.
pub fn made_seats_keep()
    ensures hart { (seat : ℕ) (v : View) → HasRoom v → SplitKeeps seat v (with_hart v) (new_hart v) }
    ensures note { (seat : ℕ) (v : View) → HasNote v → SplitKeeps seat v v (note_of v) }
{}

/// A hart's seat may be joined into the keeper's, a hart's note too, and a keeper's note into a hart's
/// seat.
pub fn joined_seats_keep()
    ensures { (seat : ℕ) (v : View) (other : ℕ) (w : View) → MayTake v w → JoinKeeps seat v other w (takes_in v w) }
{}

/// Worked steps of two harts on one doubleword and on one slot, of the keeper, and on a row.
pub fn worked_steps()
    ensures one_locks { OneLocks }
    ensures another_has_locked { AnotherHasLocked }
    ensures conditional_fails { ConditionalFails }
    ensures conditional_is_refused { ConditionalIsRefused }
    ensures store_is_owed { StoreIsOwed }
    ensures one_wins { OneWins }
    ensures roles { RoleComesAndGoes }
    ensures retired { RolesGoInOrder }
    ensures looks { LookKeeps }
    ensures shown { LockIsShown }
    ensures rows { RowGoesRound }
{}

/// What the rule comes to: whose views there are, who has locked what, what RO and RX words hold and what
/// fetches found, that a slot has the word that its one winner left, what the count, rows and entries say,
/// and the generation.
pub fn rule_comes_to()
    ensures { (words : List ℕ) (views : List View) (g : IsGuest words views) → Clauses words views g.kept g.hart }
{}
