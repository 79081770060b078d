//! What holds where the keeper's view is that of a state.

ghost use Rattle.kept_words.specs.Fetched.{EachIsCode};
ghost use Rattle.kept_words.specs.Handed.{AnsweredStays, CountedStays, HandedStays, IssuedStays, PostedHandedStays, TailHasNone};
ghost use Rattle.kept_words.specs.Keeping.{AlikeKept, AnsweredKept, AskedKept, AwaitedIsAlike, PendingStay, QuietKept, RemadeKept};
ghost use Rattle.kept_words.specs.Over.{FatesAreExchanges, OverIsWhole, TrailsAreTrue};
ghost use Rattle.kept_words.specs.Posted.{PostedStays};
ghost use Rattle.kept_words.specs.Posting.{NewMayPost, PostedKept};
ghost use Rattle.kept_words.specs.Remade.{RemadeStays};
ghost use Rattle.kept_words.specs.Settling.{LostMayLose, WonMayBind};
ghost use Rattle.kept_words.specs.Staying.{EventsStay, SettledStays, StatesStay};

/// A grant whose row says won may be bound; and one whose row says lost may be lost, with the word that is
/// found in its slot.
pub fn fates_settle()
    ensures won { WonMayBind }
    ensures lost { LostMayLose }
{
    scope_rule::serials_follow();
    scope_rule::found_stands();
    scope_rule::reads_candidates();
    history_state::slots_begin();
    history_state::none_is_lazy();
    history_state::images_are_mapped();
}

/// The view stays that of the state, where neither memory nor grants change; events that bring and take
/// nothing change neither; and where a grant is settled or posted it stays with the row that is.
pub fn states_stay()
    ensures stay { StatesStay }
    ensures events { EventsStay }
    ensures settled { SettledStays }
    ensures posted { PostedStays }
{}

/// The view is that of the state after an opening, a new block or an unmapping, once memory is remade by it.
pub fn remade_stays()
    ensures { RemadeStays }
{
    scope_rule::serials_follow();
    scope_rule::found_stands();
    scope_rule::reads_candidates();
    seg_image::pages_hold_segments();
    history_state::memory_changes();
    history_state::slots_begin();
}

/// Each hart's events stay what it was handed: an event of no hart is counted; a hart's is counted and it
/// gets the entry, or the grant; or it gets an answer without an event. What an entry says stays true while
/// the journal grows. A hart that knows of all that it was handed has no event behind what it has heard.
pub fn entries_are_events()
    ensures counted { CountedStays }
    ensures handed { HandedStays }
    ensures posted { PostedHandedStays }
    ensures answered { AnsweredStays }
    ensures issued { IssuedStays }
    ensures tail { TailHasNone }
{}

/// What the keeper keeps stays so: it says nothing of calls under way; and where a hart's event that leaves
/// memory is counted and the hart gets its entry, or it gets an answer without an event.
pub fn records_stay()
    ensures alike { AlikeKept }
    ensures awaited { AwaitedIsAlike }
    ensures quiet { QuietKept }
    ensures answered { AnsweredKept }
{}

/// It stays so where a grant is asked for, and settled where it is known what came of it: its event is
/// counted.
pub fn asks_settle()
    ensures { AskedKept }
{
    fates_settle();
}

/// A grant whose event may come may be posted once it is counted, and the record stays so.
pub fn grants_are_posted()
    ensures may { NewMayPost }
    ensures kept { PostedKept }
{
    scope_rule::serials_follow();
    scope_rule::found_stands();
    scope_rule::reads_candidates();
    history_state::slots_begin();
    history_state::images_are_mapped();
    history_state::none_is_lazy();
    history_state::slots_lead_to_rx();
    history_memory::slots_stand();
    history_memory::code_is_whole();
}

/// The record stays so where a hart's event remade memory: it is counted, and the hart gets its entry. The
/// slot of a grant whose fate isn't known isn't among what comes and goes. Of a slot that goes each lost
/// grant saw the one value.
pub fn remade_is_kept()
    ensures pending { PendingStay }
    ensures kept { RemadeKept }
{
    scope_rule::serials_follow();
    scope_rule::found_stands();
    scope_rule::reads_candidates();
    seg_image::pages_hold_segments();
    history_state::memory_changes();
    history_state::slots_begin();
    history_state::images_are_mapped();
    history_state::none_is_lazy();
    remade_stays();
}

/// What harts fetched, said of each fetch by itself.
pub fn fetches_are_code()
    ensures { EachIsCode }
{}

/// Once what became of each grant is known, and which one won where another was lost, the journal is a whole history;
/// and a hart's trail that was joined once it had taken all says what the journal says.
pub fn run_is_over()
    ensures whole { OverIsWhole }
    ensures trails { TrailsAreTrue }
    ensures fates { FatesAreExchanges }
{
    scope_rule::serials_follow();
    scope_rule::found_stands();
    scope_rule::reads_candidates();
    history_state::slots_begin();
    history_state::images_are_mapped();
    history_state::none_is_lazy();
    history_memory::slots_stand();
}
