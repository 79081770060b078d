//! What holds in each state of a lawful history.

ghost use Rattle.std.specs.Prelude.{not, ◌≡◌, ◌≢◌, ◌≤◌, ◌+◌, ℕ, List, ◌∷◌, ◌++◌, [], take, map, flat_map, length, Contains, IsTrue, false};
ghost use Rattle.std.specs.List.{filter, range_with_len};
ghost use Rattle.ld_base.specs.declared.linking.Choice.{Choice};
ghost use Rattle.ld_base.specs.declared.linking.Choice.TheVariants.{Missing, WeakZero};
ghost use Rattle.ld_base.specs.declared.linking.Loaded.{Loaded};
ghost use Rattle.history_event.specs.declared.event.Event.{Event};
ghost use Rattle.history_event.specs.declared.event.CloseAnswer.TheVariants.{Done as Closed};
ghost use Rattle.history_event.specs.declared.event.Event.TheVariants.{Close, Fini, Grant, Init, Open, Unresolved};
ghost use Rattle.history_event.specs.declared.event.OpenAnswer.TheVariants.{Done};
ghost use Rattle.history_event.specs.declared.event.OpenAsk.{OpenAsk};
ghost use Rattle.history_event.specs.declared.event.Range.{Range};
ghost use Rattle.history_graph.specs.declared.graph.Edge.{Edge};
ghost use Rattle.history_graph.specs.Reached.{Reached, Unneeded};
ghost use Rattle.history_state.specs.Accepted.{AcceptsOnly};
ghost use Rattle.history_state.specs.After.{after};
ghost use Rattle.address_space.specs.Pages.{without};
ghost use Rattle.history_state.specs.Areas.{Area, AreGiven, free_pages, released};
ghost use Rattle.history_state.specs.Allowed.{Allowed, IsFirst};
ghost use Rattle.history_state.specs.Changes.{ChangesMemory};
ghost use Rattle.history_state.specs.Laws.{AreApart, AreasAreData, BlocksAreApart, BlocksArePlaced, ClosesSpare, EachDiesOnce, FinalisedOnce, FindsImage};
ghost use Rattle.history_state.specs.Laws.{GrantsAreHeld, GrantsAreTidy, HasAll, HoldersAreImages, ImagesAreBound, ImagesAreInstalled, ImagesAreMapped};
ghost use Rattle.history_state.specs.Laws.{ImagesArePlaced, ImagesAreTied, InitialisedOnce, IsInitialising, LoadsEnterCode, LostSawTheValue, ModulesAreFew};
ghost use Rattle.history_state.specs.Laws.{ModulesAreTidy};
ghost use Rattle.history_state.specs.Laws.{NoneIsLazy, NothingDangles, NothingLeftOut, OffsetsAreThere, OpeningsStand, RangesAreApart, RangesAreOwned};
ghost use Rattle.history_state.specs.Laws.{ScopesAreWhole};
ghost use Rattle.history_state.specs.Laws.{SerialsAreInOrder, SlotsBegin, SlotsEnterCode, SlotsLeadToRx, StartupStays, StaticAreasHaveRoom, StaticsAreApart};
ghost use Rattle.history_state.specs.Laws.{TakesLeast, UninitialisedStay};
ghost use Rattle.history_state.specs.Exits.{exits, initialised_by_another, setting, unmapped_unclosed};
ghost use Rattle.history_state.specs.Legal.{Lawful, Legal, Whole};
ghost use Rattle.history_state.specs.Lookup.{SymbolsAreStored};
ghost use Rattle.history_state.specs.Held.{EdgesFollow};
ghost use Rattle.history_state.specs.Links.{edges, finis_of, found_edges, held_edges};
ghost use Rattle.history_state.specs.Objects.{IsMapped, has, is_startup, mapped, serial_of};
ghost use Rattle.history_state.specs.State.{State};
ghost use Rattle.history_state.specs.Opening.{HasProgram};
ghost use Rattle.history_state.specs.Owed.{IsOwed, brings, owed};
ghost use Rattle.history_state.specs.Read.{BeginsUntouched, ObjectsAreRead, WasRead};
ghost use Rattle.history_state.specs.Setting.{Machine, Setting, have_exited};
ghost use Rattle.history_state.specs.Step.{goes_with, lower, step};

/// A history grows event by event: the state after one more event is a step on, a legal history is
/// legal with one more event that is allowed, and each of its beginnings is.
pub fn legal_step_by_step()
    ensures state { (events : List Event) (e : Event) → after (events ++ e ∷ []) ≡ step (after events) e }
    ensures lawful { (w : Setting) (events : List Event) → Legal w events → Lawful w.machine events }
    ensures push { (w : Setting) (events : List Event) (e : Event) → Legal w events → Allowed w events e → Legal w (events ++ e ∷ []) }
    ensures front { (w : Setting) (events : List Event) (k : ℕ) → Legal w events → Legal w (take k events) }
    ensures lawful_push { (m : Machine) (w : Setting) (events : List Event) (e : Event) → w.machine ≡ m → Lawful m events → Allowed w events e
        → Lawful m (events ++ e ∷ []) }
    ensures lawful_front { (m : Machine) (events : List Event) (k : ℕ) → Lawful m events → Lawful m (take k events) }
{}

/// No slot dangles: whatever a mapped object found, chose when it was loaded, or has a grant of is
/// mapped.
pub fn no_slot_dangles()
    ensures { (m : Machine) (events : List Event) → Lawful m events → NothingDangles (after events) }
{
    scope_rule::serials_follow();
    scope_rule::found_stands();
}

/// Owner and target of each open grant are mapped.
pub fn grants_are_held()
    ensures { (m : Machine) (events : List Event) → Lawful m events → GrantsAreHeld (after events) }
{
    scope_rule::serials_follow();
    scope_rule::found_stands();
}

/// What startup loaded stays mapped, in the base namespace, and is never dying.
pub fn startup_stays()
    ensures { (m : Machine) (events : List Event) → Lawful m events → StartupStays (after events) }
{
    scope_rule::serials_follow();
    scope_rule::found_stands();
}

/// The objects of a closing that isn't unmapped yet are mapped and dying by its hart, each is of no
/// other closing, and no other object is dying.
pub fn each_dies_once()
    ensures { (m : Machine) (events : List Event) → Lawful m events → EachDiesOnce (after events) }
{
    scope_rule::serials_follow();
    scope_rule::found_stands();
}

/// Mapped objects of one serial are one object, of one namespace, and namespaces of one number are
/// one.
pub fn objects_are_apart()
    ensures { (m : Machine) (events : List Event) → Lawful m events → AreApart (after events) }
{
    scope_rule::serials_follow();
    scope_rule::found_stands();
}

/// Serials are in order: new objects take the next ones, in load order.
pub fn serials_are_in_order()
    ensures order { (m : Machine) (events : List Event) → Lawful m events → SerialsAreInOrder (after events) }
    ensures new { (m : Machine) (w : Setting) (past : List Event) (hart id root : ℕ) (ask : OpenAsk) (added : List Loaded) (ranges : List Range) →
        w.machine ≡ m → Lawful m past → Allowed w past (Open hart ask (Done id root added ranges))
        → map serial_of added ≡ range_with_len (after past).next (length added) }
{
    scope_rule::serials_follow();
    scope_rule::found_stands();
}

/// A mapped object is being initialised, by the hart that loaded it, exactly until its constructors
/// have run, and they run once.
pub fn initialised_once()
    ensures { (m : Machine) (events : List Event) → Lawful m events → InitialisedOnce (after events) }
{
    scope_rule::serials_follow();
    scope_rule::found_stands();
}

/// What was loaded and isn't initialised yet is mapped, and is being initialised by the hart that
/// loaded it; so is an object that may be initialised next.
pub fn uninitialised_stay()
    ensures stay { (m : Machine) (events : List Event) → Lawful m events → UninitialisedStay (after events) }
    ensures next { (m : Machine) (w : Setting) (past : List Event) (hart object : ℕ) → Lawful m past → Allowed w past (Init hart object)
        → IsInitialising (after past) object hart }
{
    scope_rule::serials_follow();
    scope_rule::found_stands();
}

/// An object's destructors run once, after its constructors have run.
pub fn finalised_once()
    ensures { (m : Machine) (events : List Event) → Lawful m events → FinalisedOnce (after events) }
{}

/// Each opening counts, and what is opened or global is mapped and isn't dying.
pub fn openings_stand()
    ensures { (m : Machine) (events : List Event) → Lawful m events → OpeningsStand (after events) }
{
    scope_rule::serials_follow();
    scope_rule::found_stands();
}

/// In a whole history each lost grant of a mapped object's slot saw the slot's one value.
pub fn lost_saw_the_value()
    ensures { (w : Setting) (events : List Event) → Legal w events → Whole w events → LostSawTheValue (after events) }
{
    scope_rule::serials_follow();
    scope_rule::found_stands();
}

/// Whoever sees a dying object dies with it: leaving dying objects out of a scope leaves none out.
/// So each scope has all its parts.
pub fn nothing_left_out()
    ensures none { (m : Machine) (events : List Event) → Lawful m events → NothingLeftOut (after events) }
    ensures parts { (m : Machine) (events : List Event) → Lawful m events → ScopesAreWhole (after events) }
{
    scope_rule::serials_follow();
    scope_rule::found_stands();
}

/// What a grant of a mapped object put into its slot, or may still put there, is 0, an address in
/// the linker's own page, or code of an object that is mapped now.
pub fn slots_enter_code()
    ensures { (m : Machine) (events : List Event) → Lawful m events → SlotsEnterCode (after events) }
{
    scope_rule::serials_follow();
    scope_rule::found_stands();
}

/// A grant chooses something: a definition, or nothing by a weak symbol and then the value 0. What is
/// unresolved has no weak symbol.
pub fn grants_choose()
    ensures some { (w : Setting) (past : List Event) (number hart owner slot : ℕ) (choice : Choice) (value : ℕ) →
        Allowed w past (Grant number hart owner slot choice value) → choice ≢ Missing }
    ensures weak { (w : Setting) (past : List Event) (number hart owner slot : ℕ) (choice : Choice) (value : ℕ) →
        Allowed w past (Grant number hart owner slot choice value) → choice ≡ WeakZero → value ≡ 0 }
    ensures unresolved { (w : Setting) (past : List Event) (hart owner slot : ℕ) (choice : Choice) →
        Allowed w past (Unresolved hart owner slot choice) → choice ≢ WeakZero }
{}

/// What a slot got when its object was loaded is 0, an address in the linker's own page, or code of an
/// object that is mapped now, which the slot chose then.
pub fn loads_enter_code()
    ensures { (m : Machine) (events : List Event) → Lawful m events → LoadsEnterCode (after events) }
{
    scope_rule::serials_follow();
    scope_rule::found_stands();
}

/// No value of a slot, neither a grant's nor that of its object's loading, is the word that the slot
/// holds until it is bound.
pub fn none_is_lazy()
    ensures { (m : Machine) (events : List Event) → AcceptsOnly m → Lawful m events → NoneIsLazy (after events) }
{
    scope_rule::serials_follow();
    scope_rule::found_stands();
    scope_rule::reads_candidates();
    seg_image::pages_hold_segments();
}

/// No page is of two reserved ranges, and each reserved page is one of guest memory that may be
/// given away.
pub fn ranges_apart()
    ensures { (m : Machine) (events : List Event) → Lawful m events → RangesAreApart (after events) }
{}

/// Pages that are reserved for an object or for a block are of one that is there: unmapping leaves none.
pub fn ranges_are_owned()
    ensures { (m : Machine) (events : List Event) → Lawful m events → RangesAreOwned (after events) }
{}

/// Grants have the numbers from 1 on, in order; a hart has at most one that is open; and of a slot at
/// most one is bound, none where the slot was bound when its object was loaded.
pub fn grants_are_tidy()
    ensures { (m : Machine) (events : List Event) → Lawful m events → GrantsAreTidy (after events) }
{
    scope_rule::serials_follow();
    scope_rule::found_stands();
}

/// Modules are in the order of their numbers, which begin at 1; each is that of one mapped object, and
/// each mapped object with thread-local storage has its one, at a static offset where startup loaded
/// the object. New modules take their numbers in load order, each the least that is free then.
pub fn modules_are_tidy()
    ensures tidy { (m : Machine) (events : List Event) → Lawful m events → ModulesAreTidy (after events) }
    ensures least { (w : Setting) (past : List Event) (hart id root : ℕ) (ask : OpenAsk) (added : List Loaded) (ranges : List Range) →
        Allowed w past (Open hart ask (Done id root added ranges)) → TakesLeast (after past) added }
{
    scope_rule::serials_follow();
    scope_rule::found_stands();
    tls_blocks::modules_stay_numbered();
}

/// Each object brings one module at most, so modules are added and removed at most twice as often as
/// objects were loaded; and the static blocks fit into guest memory.
pub fn modules_are_few()
    ensures { (m : Machine) (events : List Event) → Lawful m events → ModulesAreFew m (after events) }
{
    scope_rule::serials_follow();
    scope_rule::found_stands();
}

/// Once startup has loaded something, no later opening is startup's.
pub fn startup_is_past()
    ensures { (events more : List Event) → is_startup (after events) ≡ false → is_startup (after (events ++ more)) ≡ false }
{}

/// Those of a set that are finalised are some of those of a larger set, in the same order.
pub fn fewer_are_finalised()
    ensures { (s : State) (all set : List ℕ) → HasAll all set → finis_of s set ≡ filter (has set) (finis_of s all) }
{}

/// Once startup has loaded the program, it is there, and isn't dying.
pub fn program_stays()
    ensures { (m : Machine) (events : List Event) → Lawful m events → is_startup (after events) ≡ false → HasProgram (after events) }
{
    scope_rule::serials_follow();
    scope_rule::found_stands();
}

/// Where a relocation of an image asks for its object's offset in each hart's static block, there is one.
pub fn offsets_are_there()
    ensures { (m : Machine) (events : List Event) → Lawful m events → OffsetsAreThere (after events) }
{}

/// Each mapped object was read: the machine's verdict on some bytes is the object with its hash
/// table. The program alone was read as one. And each new object of an opening was read so.
pub fn objects_are_read()
    ensures mapped { (m : Machine) (events : List Event) → Lawful m events → ObjectsAreRead m (after events) }
    ensures new { (m : Machine) (w : Setting) (past : List Event) (hart id root : ℕ) (ask : OpenAsk) (added : List Loaded) (ranges : List Range)
        → w.machine ≡ m → Lawful m past →
        Allowed w past (Open hart ask (Done id root added ranges)) → (o : Loaded) → Contains added o → WasRead m o }
{
    scope_rule::serials_follow();
    scope_rule::found_stands();
    scope_rule::reads_candidates();
}

/// Before startup's opening nothing is mapped, reserved or granted: the state is that before the
/// first event, but for refusals that are kept and harts that have ended.
pub fn nothing_comes_before_startup()
    ensures { (m : Machine) (events : List Event) → Lawful m events → BeginsUntouched (after events) }
{
    scope_rule::serials_follow();
    scope_rule::found_stands();
}

/// Room for events: each of those that come without being asked for takes one from the number that is
/// owed, and no event raises it by more than it brings.
pub fn events_are_owed()
    ensures spends { (m : Machine) (w : Setting) (harts : ℕ) (past : List Event) (e : Event) → w.machine ≡ m → Lawful m past → Allowed w past e →
        IsOwed harts (after past) e → owed harts (after (past ++ e ∷ [])) + 1 ≤ owed harts (after past) }
    ensures rises { (harts : ℕ) (past : List Event) (e : Event) → owed harts (after (past ++ e ∷ [])) ≤ owed harts (after past) + brings e }
{
    scope_rule::serials_follow();
    scope_rule::found_stands();
}

/// A variable of thread-local storage that a look-up finds is defined by an object that has a module.
pub fn symbols_are_stored()
    ensures { (m : Machine) (events : List Event) → AcceptsOnly m → Lawful m events → SymbolsAreStored (after events) }
{
    scope_rule::serials_follow();
    scope_rule::found_stands();
    scope_rule::reads_candidates();
    tls_blocks::modules_stay_numbered();
}

/// Each mapped object has its image, of its record and its base, and each image is of a mapped
/// object.
pub fn images_are_mapped()
    ensures { (m : Machine) (events : List Event) → Lawful m events → ImagesAreMapped (after events) }
{}

/// The image of a mapped object is found by its serial number.
pub fn images_are_found()
    ensures { (m : Machine) (events : List Event) → Lawful m events → (o : Loaded) → Contains (mapped (after events)) o → FindsImage (after events) o }
{
    scope_rule::serials_follow();
    scope_rule::found_stands();
}

/// The pages of each image are reserved for its object, at the address that its base gives them.
pub fn images_are_placed()
    ensures { (m : Machine) (events : List Event) → Lawful m events → ImagesArePlaced (after events) }
{}

/// A mapped object whose pages hold an address is the one whose image is there, and the only one.
pub fn holders_are_images()
    ensures { (m : Machine) (events : List Event) → AcceptsOnly m → Lawful m events → HoldersAreImages (after events) }
{
    scope_rule::serials_follow();
    scope_rule::found_stands();
    scope_rule::reads_candidates();
    seg_image::pages_hold_segments();
}

/// What was the next to be finalised of all mapped objects, at a moment after every hart had ended by exit,
/// hart 0 may finalise at the end, while it is mapped and wasn't finalised.
pub fn finals_follow()
    ensures { (w : Setting) (before since : List Event) (o : ℕ) → IsTrue (have_exited w (after before))
        → IsFirst (finis_of (after before) (map serial_of (mapped (after before)))) o →
        IsMapped (after (before ++ since)) o → has (after (before ++ since)).finis o ≡ false → Allowed w (before ++ since) (Fini 0 o) }
{}

/// Static blocks lie behind tp one after another: each is apart from the others, and ends where the state
/// says that all end.
pub fn statics_are_apart()
    ensures { (m : Machine) (events : List Event) → Lawful m events → StaticsAreApart (after events) }
{
    scope_rule::serials_follow();
    scope_rule::found_stands();
}

/// Each hart has a static area once an object has a static block, and its block of the object stands in it
/// whole.
pub fn static_areas_have_room()
    ensures { (m : Machine) (events : List Event) → Lawful m events → StaticAreasHaveRoom m (after events) }
{
    scope_rule::serials_follow();
    scope_rule::found_stands();
}

/// Each block of thread-local storage that a hart got at its first use of a module has pages of its own,
/// in which it stands whole.
pub fn blocks_are_placed()
    ensures { (m : Machine) (events : List Event) → Lawful m events → BlocksArePlaced (after events) }
{}

/// Blocks of thread-local storage are apart: no address is in two of one hart, and none in blocks of two.
pub fn blocks_are_apart()
    ensures { (m : Machine) (events : List Event) → Lawful m events → BlocksAreApart m (after events) }
{
    scope_rule::serials_follow();
    scope_rule::found_stands();
    tls_blocks::modules_stay_numbered();
}

/// The pages that are left free, when some are given for what is wanted, are those that neither the ranges
/// before nor the new ones have.
pub fn free_pages_follow()
    ensures one { (ranges : List Range) (r : Range) → without (free_pages ranges) r.address r.pages ≡ free_pages (ranges ++ r ∷ []) }
    ensures all { (ranges new : List Range) (wanted : List Area) (left : List ℕ) → AreGiven (free_pages ranges) wanted new left
        → left ≡ free_pages (ranges ++ new) }
{}

/// Where the pages of the ranges that go with an unmapping are given back, one range after another, the
/// pages that are free are those that no other range has.
pub fn released_are_free()
    ensures { (m : Machine) (events : List Event) → Lawful m events → (set : List ℕ) →
        released (free_pages (after events).ranges) (filter (goes_with set) (after events).ranges)
        ≡ free_pages (filter (λ r. not (goes_with set r)) (after events).ranges) }
{}

/// The pages of stacks, static areas and blocks are of no object, and not the linker's: memory has them for
/// data, with the words that were put there first.
pub fn areas_are_data()
    ensures { (m : Machine) (events : List Event) → AcceptsOnly m → Lawful m events → AreasAreData (after events) }
{
    scope_rule::serials_follow();
    scope_rule::found_stands();
    scope_rule::reads_candidates();
    seg_image::pages_hold_segments();
}

/// Each word of an object's relocated image is the word of memory at its address, with its role.
pub fn images_are_installed()
    ensures { (m : Machine) (events : List Event) → AcceptsOnly m → Lawful m events → ImagesAreInstalled (after events) }
{
    scope_rule::serials_follow();
    scope_rule::found_stands();
    scope_rule::reads_candidates();
    seg_image::pages_hold_segments();
}

/// Where slots lead is code that memory holds: each value of a mapped object's slot is 0 or lies in an
/// RX word, and the word that a slot holds until it is bound lies in one.
pub fn slots_lead_to_rx()
    ensures { (m : Machine) (events : List Event) → AcceptsOnly m → Lawful m events → SlotsLeadToRx (after events) }
{
    scope_rule::serials_follow();
    scope_rule::found_stands();
    scope_rule::reads_candidates();
    seg_image::pages_hold_segments();
}

/// The bindings of each image are what its object chose when it was loaded.
pub fn images_are_tied()
    ensures { (m : Machine) (events : List Event) → AcceptsOnly m → Lawful m events → ImagesAreTied (after events) }
{
    scope_rule::serials_follow();
    scope_rule::found_stands();
    scope_rule::reads_candidates();
}

/// The bindings of each image are those that relocating its object asks for: one a relocation, whose
/// choice isn't missing, with the bytes that a copy takes.
pub fn images_are_bound()
    ensures { (m : Machine) (events : List Event) → AcceptsOnly m → Lawful m events → ImagesAreBound (after events) }
{
    scope_rule::reads_candidates();
}

/// Each slot begins with the value that it got when its object was loaded, or else with the word that
/// leads to its entry of the procedure linkage table; and its role is that of a slot.
pub fn slots_begin()
    ensures { (m : Machine) (events : List Event) → AcceptsOnly m → Lawful m events → SlotsBegin (after events) }
{
    scope_rule::serials_follow();
    scope_rule::found_stands();
    scope_rule::reads_candidates();
    seg_image::pages_hold_segments();
    relocator::slots_hold();
}

/// An event changes memory in the ranges that it reserves or takes away alone. What it reserves had no
/// role before, and what it takes away has none after.
pub fn memory_changes()
    ensures { (m : Machine) (w : Setting) (past : List Event) (e : Event) → w.machine ≡ m → AcceptsOnly m → Lawful m past → Allowed w past e
        → ChangesMemory (after past) e }
{
    scope_rule::serials_follow();
    scope_rule::found_stands();
    scope_rule::reads_candidates();
    seg_image::pages_hold_segments();
}

/// What a closing takes nothing holds: neither startup nor an opening that is left, neither a mark nor
/// its own constructors or destructors, nor an open grant; and whatever leads to it goes with it.
pub fn closed_are_spare()
    ensures { (m : Machine) (w : Setting) (past : List Event) (hart handle : ℕ) (set : List ℕ) → w.machine ≡ m → Lawful m past →
        Allowed w past (Close hart handle (Closed set)) → ClosesSpare (lower handle (after past)) set }
{
    scope_rule::serials_follow();
    scope_rule::found_stands();
}

/// The edges of a state are those to what names found, and those that relocations and bound slots are. Of
/// these an event takes away or brings only some: an unmapping those from its objects; an opening what its
/// new objects' relocations choose, and a settling what its slot leads to.
pub fn edges_follow()
    ensures are { (s : State) → edges s ≡ flat_map found_edges (mapped s) ++ held_edges s }
    ensures follow { (m : Machine) (w : Setting) (past : List Event) (e : Event) → Lawful m past → Allowed w past e → EdgesFollow (after past) e }
{
    scope_rule::serials_follow();
    scope_rule::found_stands();
}

/// What is reached, and so what nothing needs, depends on the members of edges and roots alone: neither
/// on their order nor on how often one stands there.
pub fn members_decide()
    ensures reached { (edges more : List Edge) (roots others : List ℕ) → HasAll more edges → HasAll others roots → (d : ℕ) → Reached edges roots d
        → Reached more others d }
    ensures unneeded { (edges more : List Edge) (roots others nodes set : List ℕ) → HasAll more edges → HasAll edges more → HasAll others roots
        → HasAll roots others →
        Unneeded edges roots nodes set → Unneeded more others nodes set }
{}

/// The worked history of a program that starts, exits and is finalised is legal and whole. With one
/// event of another hart's, or an unmapping in place of the destructors, it isn't legal.
pub fn program_exits()
    ensures legal { Legal setting exits }
    ensures whole { Whole setting exits }
    ensures by_another { Legal setting initialised_by_another → ⊥ }
    ensures unclosed { Legal setting unmapped_unclosed → ⊥ }
{}
