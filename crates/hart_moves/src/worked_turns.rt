//! Worked turns: what a hart does, and what it doesn't.

ghost use Rattle.std.specs.Prelude.{List};
ghost use Rattle.history_event.specs.declared.event.Event.{Event};
ghost use Rattle.history_state.specs.Setting.{Setting};
ghost use Rattle.hart_moves.specs.Worked.{CopiesInside, CopiesName, EndsAtRole, EntersSecond, Exchanges, Exits, FindsNoName};
ghost use Rattle.hart_moves.specs.Worked.{FollowsItself, FollowsWinner, GoesOn, GoesOnWithoutFuel, GrantsGlobal, GrantsTheFirst, HasNoFunction};
ghost use Rattle.hart_moves.specs.Worked.{RunsWithoutFuel, ServesAtOnce, Starts, StartsEarly, TextWords, Traps};
ghost use Rattle.hart_moves.specs.WorkedCalls.{CompletesBehind, CopiesNoVersion, CopiesSome, EndsAtPair, EndsForMemory, EntersPreinit};
ghost use Rattle.hart_moves.specs.WorkedCalls.{LeavesItsOwn, PassesClosed, ReadsNothing, SettlesAtEnd, SkipsItsOwn, StoresFirst, StoresLast};
ghost use Rattle.hart_moves.specs.WorkedCalls.{WaitsForGrant, WritesSome};
ghost use Rattle.hart_moves.specs.WorkedWaits.{AsksAgain, AsksNothing, BeginsToWait, WaitsOn};
ghost use Rattle.history_state.specs.State.{State};

/// Of two harts at one slot the one that is granted it last may win: its exchange finds the lazy word,
/// and it goes on at its function. The other finds that address, and goes on there too and not at its
/// own choice. Used-up fuel doesn't come between a grant and its exchange.
pub fn two_harts_share_a_slot()
    ensures grants { GrantsGlobal }
    ensures not_the_first { GrantsTheFirst }
    ensures exchanges { (w : Setting) (past : List Event) → Exchanges w past }
    ensures goes_on { (w : Setting) (past : List Event) → GoesOn w past }
    ensures follows { (w : Setting) (past : List Event) → FollowsWinner w past }
    ensures not_itself { (w : Setting) (past : List Event) → FollowsItself w past → ⊥ }
    ensures no_fuel { (w : Setting) (past : List Event) → GoesOnWithoutFuel w past }
    ensures out_of_fuel { (w : Setting) (past : List Event) → RunsWithoutFuel w past }
{}

/// A name is copied a doubleword a turn, and the service comes in a turn after that. One that can't be
/// read ends its hart.
pub fn names_are_copied()
    ensures whole { (w : Setting) (past : List Event) → CopiesName w past }
    ensures inside { (w : Setting) (past : List Event) → CopiesInside w past }
    ensures not_at_once { (w : Setting) (past : List Event) → ServesAtOnce w past }
    ensures unread { FindsNoName }
{}

/// The linker enters functions one after another, and a hart starts behind the last constructor and not
/// before. A hart that runs none for the linker ends where they return to.
pub fn functions_are_entered()
    ensures starts { Starts }
    ensures not_early { StartsEarly }
    ensures second { EntersSecond }
    ensures no_function { HasNoFunction }
{}

/// Ecalls, ends and texts, worked out by hand.
pub fn ends_are_told()
    ensures exits { Exits }
    ensures traps { Traps }
    ensures role { EndsAtRole }
    ensures text { TextWords }
{}

/// What can't be read answers a write at once, and of a long one 256 bytes are copied and written. A
/// name that is too long has no version. A module's number stands at a doubleword. A text is stored a
/// doubleword a turn, and its call returns with the last.
pub fn memory_is_passed()
    ensures unread { (w : Setting) (past : List Event) → ReadsNothing w past }
    ensures copied { (w : Setting) (past : List Event) → CopiesSome w past }
    ensures written { (w : Setting) (past : List Event) → WritesSome w past }
    ensures no_version { (w : Setting) (past : List Event) → CopiesNoVersion w past }
    ensures pair { EndsAtPair }
    ensures stores { (w : Setting) (past : List Event) → StoresFirst w past }
    ensures stores_last { (w : Setting) (past : List Event) → StoresLast w past }
{}

/// Functions that come before all others are entered before those of an object that has none. An
/// unmapping waits for an open grant. A final destructor may close its own object, and no memory to list
/// what is left ends the hart.
pub fn functions_return()
    ensures preinit { EntersPreinit }
    ensures completes { (s : State) → CompletesBehind s }
    ensures waits { (w : Setting) (past : List Event) → WaitsForGrant w past }
    ensures closed { (w : Setting) (past : List Event) → PassesClosed w past }
    ensures no_memory { (w : Setting) (past : List Event) → EndsForMemory w past }
{}

/// Of two harts one runs an object's constructors, and the other's opening waits for that. Its turns give the
/// same answer until they have run, and nothing is asked. Then the call is made as if it hadn't waited.
pub fn harts_wait()
    ensures begins { (w : Setting) (past : List Event) → BeginsToWait w past }
    ensures waits { WaitsOn }
    ensures nothing { AsksNothing }
    ensures again { AsksAgain }
{}

/// A hart that ends for its fuel has its grant settled in that turn, and none leaves an event of its own
/// out, between its turns or behind its end.
pub fn nothing_is_left_out()
    ensures settles { SettlesAtEnd }
    ensures not_skipped { (w : Setting) → SkipsItsOwn w }
    ensures not_left { (w : Setting) → LeavesItsOwn w }
{}
