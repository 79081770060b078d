//! What the calls of a linker stand on.

ghost use Rattle.history_calls.specs.CallLaws.Laws.{ClosingKeepsImages, ClosingKeepsOrder, ElsewhereByLinker, HeldByCode, LeadsNowhere, NewEdgesSuffice};
ghost use Rattle.history_calls.specs.CallLaws.Laws.{NewStandBehind, NumberedByPlace};
ghost use Rattle.history_calls.specs.CallLaws.Laws.{RefusedByAsking, StartsUnlessReadsFail, OpensUnlessFaultsShow};

/// What an opening is refused for before anything is looked for the history refuses it for.
pub fn refused_by_asking()
    ensures { RefusedByAsking }
{}

/// With RTLD_NOLOAD a name that no object has which is there leads nowhere.
pub fn nothing_leads_nowhere()
    ensures { LeadsNowhere }
{}

/// Where the library's counts show that no read failed, an opening that finds all that it needs opens,
/// and a run whose program opens and whose harts are found starts.
pub fn only_failed_reads_stop()
    ensures opens { OpensUnlessFaultsShow }
    ensures starts { StartsUnlessReadsFail }
{
    crate::one_answer();
    crate::one_startup();
}

/// New objects stand behind those that were there: in the state with them a serial leads to an object that
/// was there, or else to a new one, whose place its serial tells.
pub fn new_objects_stand_behind()
    ensures place { NumberedByPlace }
    ensures found { NewStandBehind }
{
    scope_rule::serials_follow();
    scope_rule::found_stands();
}

/// The order of new objects' constructors is settled by what they themselves found.
pub fn own_order_is_the_order()
    ensures { NewEdgesSuffice }
{
    scope_rule::serials_follow();
    scope_rule::found_stands();
}

/// A closing leaves images as they are, and which objects are to be finalised, in their order.
pub fn closings_keep()
    ensures images { ClosingKeepsImages }
    ensures order { ClosingKeepsOrder }
{}

/// Whether an address is executable its holder says; where no object holds it, it is so in the linker's
/// own page alone.
pub fn executable_by_holder()
    ensures held { HeldByCode }
    ensures elsewhere { ElsewhereByLinker }
{
    scope_rule::serials_follow();
    scope_rule::found_stands();
    scope_rule::reads_candidates();
    seg_image::pages_hold_segments();
}
