//! Worked calls: what they give, and what they don't.

ghost use Rattle.history_calls.specs.Worked.{ClosesAgain, DiesBoth, EndsUnloaded, EndsWithoutSlot, TellsBadHandle, UnmapsBoth};
ghost use Rattle.history_calls.specs.Worked.{AnotherOpens, AnotherWaits, ClosesOne, DiesAlone, FindsGlobal, FindsInBlock, FindsNoHandle};
ghost use Rattle.history_calls.specs.Worked.{FindsOnClosed, FindsWithoutBlock};
ghost use Rattle.history_calls.specs.Worked.{GrantsGlobal, GrantsTheFirst, IsAbsent, IsBadModule, IsMissing, ItselfOpens, LocatesInBlock};
ghost use Rattle.history_calls.specs.Worked.{LocatesInOther, OpensByFlags};
ghost use Rattle.history_calls.specs.Worked.{PassesTwo, RunsInOrder};
ghost use Rattle.history_calls.specs.Worked.{RefusesFlags, RefusesName, RefusesShorter};

/// Of two libraries that hold each other the first is closed: nothing dies with it, and its function
/// is found among the global ones still, but not on its handle.
pub fn closes_a_held_library()
    ensures closes { ClosesOne }
    ensures dies_alone { DiesAlone → ⊥ }
    ensures found { FindsGlobal }
    ensures no_handle { FindsNoHandle }
    ensures on_closed { FindsOnClosed }
{}

/// Then the second is closed: both die, and once their destructors have run they are unmapped in one
/// service. The handle is bad then, which the hart is told.
pub fn closes_both_libraries()
    ensures dies { DiesBoth }
    ensures unmaps { UnmapsBoth }
    ensures again { ClosesAgain }
    ensures told { TellsBadHandle }
{}

/// A hart that calls through a slot of no object, or through no slot, runs no further.
pub fn ends_without_a_slot()
    ensures unloaded { EndsUnloaded }
    ensures no_slot { EndsWithoutSlot }
{}

/// What an opening asks for is judged before anything is looked for: both or neither of RTLD_LAZY and
/// RTLD_NOW are bad flags, a name of 256 bytes is too long and one of 255 isn't. A library that isn't
/// there is absent with RTLD_NOLOAD, and not missing.
pub fn judges_what_is_asked()
    ensures both { RefusesFlags 3 }
    ensures neither { RefusesFlags 0 }
    ensures deep_alone { RefusesFlags 8 }
    ensures not_opened { OpensByFlags 3 }
    ensures absent { IsAbsent }
    ensures not_missing { IsMissing }
    ensures long { RefusesName }
    ensures not_long { RefusesShorter }
{
    scope_rule::one_outcome();
}

/// While a library's constructors run, another hart that opens it has to wait, and the hart that runs
/// them gets its handle.
pub fn waits_for_another_hart()
    ensures waits { AnotherWaits }
    ensures itself { ItselfOpens }
    ensures not_another { AnotherOpens }
{
    scope_rule::one_outcome();
}

/// A slot is granted what comes first in its scope now, and not what another hart was granted before.
pub fn grants_what_comes_first()
    ensures global { GrantsGlobal }
    ensures not_the_first { GrantsTheFirst → ⊥ }
{}

/// A hart's first look-up of a variable of thread-local storage gives it its block, by an event before
/// that of the look-up; after it the variable is there, and a module that isn't there ends the hart.
pub fn finds_thread_local_storage()
    ensures first { FindsInBlock }
    ensures not_without { FindsWithoutBlock }
    ensures located { LocatesInBlock }
    ensures bad_module { IsBadModule }
    ensures not_in_other { LocatesInOther }
{}

/// An object's constructors are DT_INIT and then its array's entries as they were relocated, its
/// destructors the array backwards and then DT_FINI. Objects without functions pass until one has some.
pub fn runs_functions_in_order()
    ensures runs { RunsInOrder }
    ensures passes { PassesTwo }
{}
