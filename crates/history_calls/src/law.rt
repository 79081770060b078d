//! What holds of every call.

ghost use Rattle.history_calls.specs.Complete.{Complete, DlsymFits, DlvsymFits, OpensUnlessRefused};
ghost use Rattle.history_calls.specs.Laws.{AgainAppendsNothing, AskFirst, CallersAreThere, EndsKeep, GivesLawful, GivesLegal, OneAnswer, OneOpening};
ghost use Rattle.history_calls.specs.Laws.{FinishesStay, NextFinishes, NextStarts, OneFinalisation, OneInitialisation, OneStart, OpeningBegins};
ghost use Rattle.history_calls.specs.Laws.{BringsWithPreload, FailsOneWay, StartsOneWay, StartsOrFails, StopsWithPreload};
ghost use Rattle.history_calls.specs.Laws.{PassedComeFirst, PassedOpens, RunsAFunction, StartsStay};
ghost use Rattle.history_calls.specs.Laws.{RefusalIsKept, RefusalIsTold, TextIsOfKept, RefusedKeeps, RefusedLeavesMemory, ServesLegal, StagesInOrder};
ghost use Rattle.history_calls.specs.Laws.{SymbolsInOrder};
ghost use Rattle.history_calls.specs.OpeningLaws.{FoundByName, OpeningsSeeTheStateAfter, ProgramIsLast};
ghost use Rattle.history_calls.specs.RunJournal.{RunJournalsGrow, RunJournalsStart};
ghost use Rattle.history_calls.specs.Laws.{CallersAreHolders, EventsAreOwn, FailsLegal, FewEvents, HartsHaveEntries, OthersAreBase, ServedLegal, StartsLegal};

/// A history that is legal before a call is legal with what the call gives, and with the end of the
/// hart that it brings.
pub fn calls_are_legal()
    ensures gives { GivesLegal }
    ensures lawful { GivesLawful }
    ensures serves { ServesLegal }
{}

/// So it is with what a call's caller gets; and startup's journal is legal, whether the run starts or not,
/// and where it does each hart has a place to start.
pub fn served_calls_are_legal()
    ensures served { ServedLegal }
    ensures starts { StartsLegal }
    ensures fails { FailsLegal }
    ensures entries { HartsHaveEntries }
{}

/// Startup's events are the journal of a run, and it stays one with events of harts that run: so a count of
/// ends by exit is one of each hart, at each moment.
pub fn run_journals_grow()
    ensures start { RunJournalsStart }
    ensures grow { RunJournalsGrow }
{}

/// A call that is refused, that has to be tried again, or that ends its hart leaves everything as it
/// was, but for the refusal that is kept.
pub fn refused_calls_leave()
    ensures refused { RefusedKeeps }
    ensures memory { RefusedLeavesMemory }
    ensures again { AgainAppendsNothing }
    ensures over { EndsKeep }
{}

/// A refusal is kept for its hart until dlerror tells it, once.
pub fn refusals_are_told()
    ensures kept { RefusalIsKept }
    ensures told { RefusalIsTold }
    ensures text { TextIsOfKept }
{}

/// Want of memory and failed reads apart, the history settles what a call gives, its events and its
/// answer; of an opening it does so with the files.
pub fn one_answer()
    ensures calls { OneAnswer }
    ensures openings { OneOpening }
{
    scope_rule::serials_follow();
    scope_rule::found_stands();
    scope_rule::names_find();
    scope_rule::one_outcome();
}

/// Failed reads apart, the files settle whether a run starts, and how: its journal, the functions to run
/// first, and where each hart starts; or the refusal, and the events up to it.
pub fn one_startup()
    ensures one { StartsOrFails }
    ensures starts { StartsOneWay }
    ensures fails { FailsOneWay }
{
    scope_rule::one_outcome();
}

/// Preload names are the program's: the load of any other object comes to the same whatever they are.
pub fn preload_is_the_programs()
    ensures brings { BringsWithPreload }
    ensures stops { StopsWithPreload }
{}

/// Of refusals that could stand together the first alone is given; and an opening of which none stands
/// opens.
pub fn refusals_come_in_order()
    ensures asked { AskFirst }
    ensures stages { StagesInOrder }
    ensures symbols { SymbolsInOrder }
    ensures passed { PassedOpens }
{
    scope_rule::one_outcome();
}

/// Each call that a hart may make has an answer, other than want of memory; an opening has one once its
/// load comes to an end. And one opens whose names are found and whose versions are there, unless there is
/// no room or a relocation is refused. What dlsym and dlvsym ask for is such a call, whatever the names.
pub fn calls_are_answered()
    ensures all { Complete }
    ensures opens { OpensUnlessRefused }
    ensures dlsym { DlsymFits }
    ensures dlvsym { DlvsymFits }
{
    scope_rule::serials_follow();
    scope_rule::found_stands();
    scope_rule::reads_candidates();
    tls_blocks::modules_stay_numbered();
}

/// The functions that startup has run end with the program's, which leads to each object that is loaded with it.
pub fn the_program_is_last()
    ensures { ProgramIsLast }
{
    scope_rule::loads_breadth_first();
    scope_rule::root_is_new();
}

/// The namespace that the relocations of an opening see is the one of the state after it.
pub fn openings_see_the_state_after()
    ensures { OpeningsSeeTheStateAfter }
{}

/// What stands in a new object's `found` at the place of one of its names is what that name found.
pub fn names_found_in_order()
    ensures { FoundByName }
{
    scope_rule::names_find();
}

/// The namespace of each caller is there. It is that of the object whose pages hold the return address, and
/// the base where none does.
pub fn callers_are_there()
    ensures there { CallersAreThere }
    ensures holders { CallersAreHolders }
    ensures base { OthersAreBase }
{
    scope_rule::serials_follow();
    scope_rule::found_stands();
    scope_rule::reads_candidates();
    seg_image::pages_hold_segments();
}

/// A call appends events of its own hart, and one at most; but a look-up may give its hart a block before.
pub fn events_are_own()
    ensures own { EventsAreOwn }
    ensures few { FewEvents }
{}

/// The state settles which functions an opening brings, startup's too, and a closing, and their order.
pub fn one_list_of_functions()
    ensures opening { OneInitialisation }
    ensures startup { OneStart }
    ensures closing { OneFinalisation }
{}

/// The objects of a closing that are left to be finalised are so one after another: the next may be, and
/// no other event changes which are left.
pub fn destructors_follow()
    ensures next { NextFinishes }
    ensures stay { FinishesStay }
{
    scope_rule::serials_follow();
    scope_rule::found_stands();
}

/// The new objects of an opening that are left to be initialised are so one after another: those of its
/// constructors at first, the next may be, and no event but one of the opening's own objects changes which
/// are left.
pub fn constructors_follow()
    ensures begins { OpeningBegins }
    ensures next { NextStarts }
    ensures stay { StartsStay }
{
    scope_rule::serials_follow();
    scope_rule::found_stands();
}

/// Objects without functions pass until one has some.
pub fn functions_run_in_order()
    ensures passed { PassedComeFirst }
    ensures runs { RunsAFunction }
{}
