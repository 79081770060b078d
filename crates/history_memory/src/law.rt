//! What keeps memory as the journal says.

ghost use Rattle.std.specs.Prelude.{◌≡◌, ◌≢◌, ℕ, ◌^◌, ◌<◌, List, [], ◌∷◌, ◌++◌, Some, Contains};
ghost use Rattle.std.specs.List.{slice_get};
ghost use Rattle.ld_base.specs.declared.linking.Role.TheVariants.{Rx, Slot};
ghost use Rattle.ld_base.specs.declared.object.Reloc.{Reloc};
ghost use Rattle.history_event.specs.declared.event.Event.{Event};
ghost use Rattle.history_event.specs.declared.state.Granting.{Granting};
ghost use Rattle.history_event.specs.declared.state.Standing.TheVariants.{Open as GrantOpen};
ghost use Rattle.history_state.specs.Accepted.{AcceptsOnly};
ghost use Rattle.history_state.specs.After.{after};
ghost use Rattle.history_state.specs.Allowed.{Allowed};
ghost use Rattle.history_state.specs.Changes.{reserved, taken};
ghost use Rattle.history_state.specs.Laws.{slot_address};
ghost use Rattle.history_state.specs.Legal.{Lawful};
ghost use Rattle.history_state.specs.Memory.{role_at};
ghost use Rattle.history_state.specs.Setting.{Machine, Setting};
ghost use Rattle.history_state.specs.Slots.{MayBind, MayLose};
ghost use Rattle.history_state.specs.State.{Linked, State};
ghost use Rattle.history_memory.specs.Enters.{LeadsToCode, SlotStays, SlotTrue};
ghost use Rattle.history_memory.specs.Holds.{Holds, IsSlotAt, lazy_at};
ghost use Rattle.history_memory.specs.Memory.{IsDoubleword, IsSame, Memory, doubleword_of};
ghost use Rattle.history_memory.specs.Remade.{Begins, HasSlot, MayExchange, Remade, SettlesRightly, Stores, Wins, won_after};

/// Before the first event memory is as it should be where the linker's own page alone has a role.
pub fn memory_begins()
    ensures { (memory : Memory) → Begins memory → Holds (after []) [] memory }
{}

/// A store to a word that harts may write keeps memory as it should be, and so does an access that
/// changes nothing.
pub fn stores_keep()
    ensures store { (s : State) (won : List ℕ) (old new : Memory) (a : ℕ) → Holds s won old → Stores old new a → Holds s won new }
    ensures same { (s : State) (won : List ℕ) (old new : Memory) → Holds s won old → IsSame old new → Holds s won new }
{}

/// Each event keeps memory as it should be, where memory is remade by it: an opening and a block put
/// their words, an unmapping takes its words away. Of the grants that have won and aren't settled a
/// bound one goes. By an event that neither reserves nor takes away memory is remade where it stays.
pub fn events_keep()
    ensures quiet { (s : State) (e : Event) (old new : Memory) → reserved s e ≡ [] → taken s e ≡ [] → IsSame old new → Remade s e old new }
    ensures kept { (m : Machine) (w : Setting) (past : List Event) (e : Event) (won : List ℕ) (old new : Memory) → w.machine ≡ m → AcceptsOnly m →
        Lawful m past → Allowed w past e → SettlesRightly won e → Holds (after past) won old → Remade (after past) e old new →
        Holds (after (past ++ e ∷ [])) (won_after e won) new }
{
    scope_rule::serials_follow();
    scope_rule::found_stands();
    scope_rule::reads_candidates();
    seg_image::pages_hold_segments();
    history_state::memory_changes();
    history_state::slots_begin();
}

/// An exchange of an open grant that finds the lazy word leaves the grant's value, and memory is as it
/// should be, with one more grant that has won.
pub fn exchanges_keep()
    ensures { (m : Machine) (events : List Event) (won : List ℕ) (a : ℕ) (g : Granting) (old new : Memory) → AcceptsOnly m → Lawful m events →
        MayExchange (after events) a g → Holds (after events) won old → Wins (after events) a g old new → Holds (after events) (g.number ∷ won) new }
{
    scope_rule::serials_follow();
    scope_rule::found_stands();
    scope_rule::reads_candidates();
    history_state::slots_begin();
    history_state::none_is_lazy();
    history_state::images_are_mapped();
}

/// Each slot of a mapped object stands in a doubleword of guest memory, and each open grant is of such a
/// slot.
pub fn slots_stand()
    ensures there { (m : Machine) (events : List Event) (i : Linked) (slot : ℕ) (r : Reloc) → AcceptsOnly m → Lawful m events →
        Contains (after events).images i →
        slice_get i.object.plt_relocs slot ≡ Some r → IsSlotAt (after events) (slot_address i r) i.serial slot }
    ensures whole { (m : Machine) (events : List Event) (i : Linked) (slot : ℕ) (r : Reloc) → AcceptsOnly m → Lawful m events →
        Contains (after events).images i →
        slice_get i.object.plt_relocs slot ≡ Some r → IsDoubleword (slot_address i r) }
    ensures granted { (m : Machine) (events : List Event) (g : Granting) → AcceptsOnly m → Lawful m events → Contains (after events).grants g →
        g.standing ≡ GrantOpen → HasSlot (after events) g }
{
    scope_rule::serials_follow();
    scope_rule::found_stands();
    scope_rule::reads_candidates();
    seg_image::pages_hold_segments();
    history_state::images_are_mapped();
    history_state::grants_are_held();
}

/// What a slot holds says how a grant that is done may be settled: as bound where it won, and as lost
/// where it didn't and the slot isn't lazy, with the word that the slot holds.
pub fn grants_settle()
    ensures bound { (m : Machine) (events : List Event) (won : List ℕ) (g : Granting) (memory : Memory) → AcceptsOnly m → Lawful m events →
        Contains (after events).grants g → g.standing ≡ GrantOpen →
        Holds (after events) won memory → Contains won g.number → MayBind (after events) g.number }
    ensures lost { (m : Machine) (events : List Event) (won : List ℕ) (a : ℕ) (g : Granting) (memory : Memory) → AcceptsOnly m → Lawful m events →
        MayExchange (after events) a g →
        Holds (after events) won memory → ¬ (Contains won g.number) → memory.value a ≢ lazy_at (after events) a →
        MayLose (after events) g.number (memory.value a) }
{
    scope_rule::serials_follow();
    scope_rule::found_stands();
    scope_rule::reads_candidates();
    seg_image::pages_hold_segments();
    history_state::slots_begin();
    history_state::none_is_lazy();
    history_state::images_are_mapped();
    history_state::grants_are_held();
}

/// Each slot of a mapped object holds 0 or an address in an RX word.
pub fn slots_enter()
    ensures { (m : Machine) (events : List Event) (won : List ℕ) (memory : Memory) (a owner slot : ℕ) → AcceptsOnly m → Lawful m events →
        Holds (after events) won memory → IsDoubleword a → IsSlotAt (after events) a owner slot →
        LeadsToCode memory (memory.value a) }
{
    scope_rule::serials_follow();
    scope_rule::found_stands();
    scope_rule::reads_candidates();
    seg_image::pages_hold_segments();
    history_state::slots_begin();
    history_state::slots_lead_to_rx();
    history_state::images_are_mapped();
}

/// An address that may be executed lies in a doubleword of guest memory that may be executed: roles are of
/// doublewords, and so this is said of each byte.
pub fn code_is_whole()
    ensures { (m : Machine) (events : List Event) (a : ℕ) → AcceptsOnly m → Lawful m events → a < 2 ^ 64 → role_at (after events) a ≡ Rx →
        IsDoubleword (doubleword_of a) × (role_at (after events) (doubleword_of a) ≡ Rx) }
{
    scope_rule::serials_follow();
    scope_rule::found_stands();
    scope_rule::reads_candidates();
    seg_image::pages_hold_segments();
}

/// Where memory is as it should be, each slot of each mapped object holds its first word or the value of
/// the one grant that took it, and that is 0 or an address in an RX word.
pub fn slots_are_true()
    ensures { (m : Machine) (events : List Event) (won : List ℕ) (memory : Memory) → AcceptsOnly m → Lawful m events →
        Holds (after events) won memory → SlotTrue (after events) won memory }
{
    scope_rule::serials_follow();
    scope_rule::found_stands();
    scope_rule::reads_candidates();
    seg_image::pages_hold_segments();
    history_state::slots_begin();
    history_state::slots_lead_to_rx();
    history_state::images_are_mapped();
}

/// A slot reads the same through every event, as long as its object is mapped, and through every store;
/// and one that isn't lazy through every exchange.
pub fn slots_stay()
    ensures event { (m : Machine) (w : Setting) (past : List Event) (e : Event) (old new : Memory) (a : ℕ) → w.machine ≡ m → AcceptsOnly m →
        Lawful m past → Allowed w past e → Remade (after past) e old new → IsDoubleword a → role_at (after past) a ≡ Slot →
        role_at (after (past ++ e ∷ [])) a ≡ Slot →
        SlotStays (after past) (after (past ++ e ∷ [])) old new a }
    ensures store { (old new : Memory) (a b : ℕ) → Stores old new b → IsDoubleword a → old.role a ≡ Slot → new.value a ≡ old.value a }
    ensures exchange { (s : State) (g : Granting) (old new : Memory) (a b : ℕ) → Wins s b g old new → IsDoubleword a → old.value a ≢ lazy_at s a →
        new.value a ≡ old.value a }
{
    scope_rule::serials_follow();
    scope_rule::found_stands();
    scope_rule::reads_candidates();
    seg_image::pages_hold_segments();
    history_state::memory_changes();
}
