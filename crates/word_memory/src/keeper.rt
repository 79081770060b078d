//! The keeper's seat between its calls, and what it does with doublewords, events and harts.

ghost use Rattle.std.specs.Prelude.{◌≡◌, ◌≢◌, ◌<◌, ◌+◌, ◌↔◌, ℕ, IfErr, IfOk, IsOk, IsTrue, Some, length};
ghost use Rattle.ld_base.specs.declared.linking.Role.TheVariants.{None as NoRole, Rw, Slot};
ghost use Rattle.word_rule.specs.declared.view.Offer.{Offer};
ghost use Rattle.word_rule.specs.Joining.{IsSettled};
ghost use Rattle.word_rule.specs.KeeperSteps.{AreDecided, KeeperLearns, KeeperLeaves, KeeperReady, keeper_after, keeper_op, keeper_word, retired};
ghost use Rattle.word_rule.specs.Layout.{IsDoubleword, place_of, table_words};
ghost use Rattle.word_rule.specs.Operations.{load, store};
ghost use Rattle.word_rule.specs.Views.{BeginsWith, IsLong, NoneAbove, first_hart, kept_at, known_of, readings_of, row_of};
ghost use Rattle.word_steps.specs.Knowing.{counted, with_joined};
ghost use Rattle.word_steps.specs.Showing.{IsShown};
ghost use Rattle.word_steps.specs.Views.{IsResting};
ghost use Rattle.word_access.specs.WordKeeping.Keeping.{set_as, was_shown};
ghost use Rattle.word_memory.specs.Roles.{MayRetire, MaySet};

use crate::HartSeat;
use history_event::Event;
use ld_base::{Role, Shown};
use std::marker::Model;
use word_rule::KeeperKind;
use word_steps::{Desk, GENERATION, Memory, Naming, Trails, control_word, place_at, role_of};

/// The keeper's seat at a memory. Contracts see it as its view: what the keeper knows.
#[derive(Drop)]
pub struct KeeperSeat<J: Naming> {
    desk: Desk<J>,
}

impl<J: Naming> Model for KeeperSeat<J> {
    ghost use Rattle.word_rule.specs.declared.view.KeeperView.{KeeperView};
    ghost use Rattle.word_steps.specs.Views.{IsResting};

    ghost Value = { KeeperView };

    ghost view = { λ s. s.desk };

    ghost invariant = { λ s. IsResting s.desk };
}

/// Gives a doubleword that has no role a value and a role; where the role is Slot, the slot has this lazy
/// word.
///
/// # Errors
///
/// None comes, since no other seat locks a doubleword without a role.
pub fn set_word<J: Naming>(
    memory: &Memory<J>,
    keeper: &mut KeeperSeat<J>,
    address: u64,
    value: u64,
    role: Role,
    lazy: u64,
) -> Result<(), Shown>
    requires { MaySet keeper.old address value role }
    ensures set { keeper.new ≡ set_as (place_of address) value role lazy keeper.old }
    ensures ok { IsOk result }
    ensures long { IsLong keeper.old }
{
    word_access::set(
        memory,
        &mut keeper.desk,
        place_at(address),
        value,
        role,
        lazy,
    );
    Ok(())
}

/// Takes a doubleword's role away.
///
/// # Errors
///
/// What a step of this call found that shows another seat's lock: the doubleword's role was RW then.
/// Nothing is changed, but that the keeper's view has it behind what was shown before.
pub fn retire<J: Naming>(
    memory: &Memory<J>,
    keeper: &mut KeeperSeat<J>,
    address: u64,
) -> Result<(), Shown>
    requires { MayRetire keeper.old address }
    ensures ok { IfOk result (λ _. keeper.new ≡ retired (place_of address) keeper.old) }
    ensures seen { IfErr result (λ shown. keeper.new ≡ was_shown (place_of address) shown keeper.old) }
    ensures shown { IfErr result IsShown }
    ensures writable { IfErr result (λ shown. (kept_at keeper.old (place_of address)).role ≡ Rw) }
{
    word_access::retire(memory, &mut keeper.desk, place_at(address))
}

/// Counts an event.
pub fn count_up<J: Naming>(memory: &Memory<J>, keeper: &mut KeeperSeat<J>, event: &Event)
    requires { length keeper.old.events < 18446744073709551615 }
    ensures { keeper.new ≡ counted event.now keeper.old }
{
    keeper.desk.count(memory, event);
}

/// Joins a hart's seat into the keeper's, which keeps the hart's last view.
pub fn join_hart<J: Naming>(memory: &Memory<J>, keeper: &mut KeeperSeat<J>, seat: HartSeat<J>)
    ensures { keeper.new ≡ with_joined seat keeper.old }
{
    keeper.desk.join(memory, seat.into_hand());
}

/// Tells a hart of the keeper's events, and ties what it knows of its entries to what was issued to it, and
/// the lazy word that it has read of its row to the one that the keeper put there.
/// The hart isn't calling, or has read its row in full. It has read no generation above the keeper's.
pub fn tell<J: Naming>(memory: &Memory<J>, keeper: &mut KeeperSeat<J>, seat: &mut HartSeat<J>)
    requires { IsSettled seat.old.lane }
    ensures heard { seat.new ≡ record seat.old { heard = keeper.old.events } }
    ensures begun { BeginsWith keeper.old.events seat.old.heard }
    ensures keeper { keeper.new ≡ keeper.old }
    ensures issued { known_of seat.old.lane ≡ (row_of keeper.old seat.old.number).issued }
    ensures lazy { (o : Offer) (x : ℕ) → seat.old.lane.offer ≡ Some o → o.lazy ≡ Some x → x ≡ (row_of keeper.old seat.old.number).lazy }
    ensures readings { NoneAbove keeper.old.generation (readings_of seat.old.trail) }
{
    word_access::tell(memory, &mut keeper.desk, &mut seat.hand);
}

/// Sets the generation of the TLS modules.
pub fn set_generation<J: Naming>(memory: &Memory<J>, keeper: &mut KeeperSeat<J>, generation: u64)
    requires { keeper.old.generation < generation }
    ensures { keeper.new ≡ record keeper.old { generation = generation } }
{
    keeper.desk.store_word(
        memory,
        GENERATION,
        generation,
        KeeperKind::Generation(generation),
    );
}

/// The generation of the TLS modules that was set last. And what came of each slot's grants, as far as the
/// keeper knows their fates, is decided.
#[tactic(auto, using(word_rule::specs::Lemmas::Heeding::heeds))]
pub fn latest_generation<J: Naming>(memory: &Memory<J>, keeper: &mut KeeperSeat<J>) -> u64
    ensures keeper { keeper.new ≡ keeper.old }
    ensures latest { result ≡ keeper.old.generation }
    ensures decided { AreDecided keeper.old }
{
    keeper.load_word(memory, GENERATION, KeeperKind::RecallGeneration)
}

/// Whether a doubleword is a slot.
#[tactic(auto, using(word_rule::specs::Lemmas::Unlocking::role_is, word_rule::specs::Lemmas::Heeding::heeds))]
pub fn is_slot<J: Naming>(memory: &Memory<J>, keeper: &mut KeeperSeat<J>, address: u64) -> bool
    requires { IsDoubleword address }
    ensures keeper { keeper.new ≡ keeper.old }
    ensures slot { IsTrue result ↔ (kept_at keeper.old (place_of address)).role ≡ Slot }
{
    let at = place_at(address);
    let kind = KeeperKind::RecallRole(at as u64);
    let control = keeper.load_word(memory, control_word(at), kind);
    matches!(role_of(control), Role::Slot)
}

/// Whether a doubleword has a role.
#[tactic(auto, using(word_rule::specs::Lemmas::Unlocking::role_is, word_rule::specs::Lemmas::Heeding::heeds))]
pub fn has_role<J: Naming>(memory: &Memory<J>, keeper: &mut KeeperSeat<J>, address: u64) -> bool
    requires { IsDoubleword address }
    ensures keeper { keeper.new ≡ keeper.old }
    ensures role { IsTrue result ↔ (kept_at keeper.old (place_of address)).role ≢ NoRole }
{
    let at = place_at(address);
    let kind = KeeperKind::RecallRole(at as u64);
    let control = keeper.load_word(memory, control_word(at), kind);
    !matches!(role_of(control), Role::None)
}

impl<J: Naming> KeeperSeat<J> {
    /// What it knows once nobody steps on the memory any more, without the memory's name.
    pub fn into_trails(self) -> Trails
        ensures { result ≡ self }
    {
        let KeeperSeat { desk } = self;
        desk.into_trails()
    }

    /// The first seat of a memory.
    pub fn new(desk: Desk<J>) -> Self
        requires { IsResting desk }
        ensures { result ≡ desk }
    {
        KeeperSeat { desk }
    }

    /// The seat of the next hart, which has this number.
    pub fn make_hart(&mut self, memory: &Memory<J>, number: u64) -> HartSeat<J>
        requires { (number ≡ self.old.harts) × (number < 16) }
        ensures keeper { self.new ≡ record self.old { harts = self.old.harts + 1 } }
        ensures hart { result ≡ first_hart number }
    {
        HartSeat::new(self.desk.split_hart(memory), number)
    }

    /// Loads a word, for a step that locks nothing.
    pub fn load_word(&mut self, memory: &Memory<J>, word: usize, kind: KeeperKind) -> u64
        requires word { (word ≡ keeper_word kind) × (word < table_words) }
        requires kind { keeper_op kind ≡ load }
        requires leaves { KeeperLeaves kind }
        requires ready { KeeperReady kind self.old }
        ensures view { self.new ≡ keeper_after kind self.old result }
        ensures learns { KeeperLearns kind self.old result }
        ensures resting { IsResting self.old × IsLong self.old }
    {
        self.desk.load_word(memory, word, kind)
    }

    /// Stores a number in a word, for a step that locks nothing.
    pub fn store_word(&mut self, memory: &Memory<J>, word: usize, new: u64, kind: KeeperKind)
        requires word { (word ≡ keeper_word kind) × (word < table_words) }
        requires kind { keeper_op kind ≡ store new }
        requires leaves { KeeperLeaves kind }
        requires ready { KeeperReady kind self.old }
        ensures view { self.new ≡ keeper_after kind self.old new }
        ensures resting { IsResting self.old × IsLong self.old }
    {
        self.desk.store_word(memory, word, new, kind);
    }
}
