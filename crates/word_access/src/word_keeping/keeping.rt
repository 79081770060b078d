//! How the keeper changes a doubleword: it locks it, stores, and unlocks it with a role.

ghost use Rattle.std.specs.Prelude.{◌≡◌, ◌≢◌, ◌%◌, ◌<◌, IfErr, IfOk};
ghost use Rattle.ld_base.specs.declared.linking.Role.TheVariants.{None as NoRole, Rw, Slot as SlotRole};
ghost use Rattle.word_rule.specs.Allowed.{LeadsTo, NothingEnters};
ghost use Rattle.word_rule.specs.KeeperSteps.{Unposted, retired};
ghost use Rattle.word_rule.specs.Layout.{doublewords, lock_bit, role_code};
ghost use Rattle.word_rule.specs.Views.{IsLong, kept_at, row_of};
ghost use Rattle.word_steps.specs.Showing.{IsShown};
ghost use Rattle.word_steps.specs.Views.{IsResting};
ghost use Rattle.word_access.specs.WordKeeping.Keeping.{control_found, has_locked, retiring, set_as, was_shown};

use ld_base::{Role, Shown};
use word_rule::KeeperKind;
use word_steps::{
    Desk, LOCK, Memory, Naming, code_of, control_word, is_locked, role_of, value_word,
};

// Loads the control word of a doubleword that nobody has locked.
#[tactic(auto, using(crate::proofs::WordKeeping::Held::looks_free, crate::proofs::WordKeeping::Held::looks_locked, crate::proofs::WordKeeping::Held::looks_rw))]
fn look<J: Naming>(memory: &Memory<J>, desk: &mut Desk<J>, at: usize) -> Result<u64, Shown>
    requires at { at < doublewords }
    requires resting { IsResting desk.old }
    ensures found { IfOk result (λ control. desk.new ≡ control_found at control desk.old) }
    ensures free { IfOk result (λ control. lock_bit control ≡ 0) }
    ensures role { IfOk result (λ control. control % 8 ≡ role_code (kept_at desk.old at).role) }
    ensures seen { IfErr result (λ shown. desk.new ≡ was_shown at shown desk.old) }
    ensures shown { IfErr result IsShown }
    ensures writable { IfErr result (λ shown. (kept_at desk.old at).role ≡ Rw) }
    ensures long { IsLong desk.old }
{
    let control = desk.load_word(memory, control_word(at), KeeperKind::Look(at as u64));
    if is_locked(control) {
        return Err(Shown::Locked(control, control));
    }
    Ok(control)
}

// Locks a doubleword, and answers its role.
#[tactic(auto, using(crate::proofs::WordKeeping::Held::locking))]
fn lock<J: Naming>(memory: &Memory<J>, desk: &mut Desk<J>, at: usize) -> Result<Role, Shown>
    requires at { at < doublewords }
    requires resting { IsResting desk.old }
    requires slot { (kept_at desk.old at).role ≡ SlotRole → Unposted desk.old at }
    ensures locked { IfOk result (λ role. desk.new ≡ has_locked at desk.old) }
    ensures role { IfOk result (λ role. role ≡ (kept_at desk.old at).role) }
    ensures seen { IfErr result (λ shown. desk.new ≡ was_shown at shown desk.old) }
    ensures shown { IfErr result IsShown }
    ensures writable { IfErr result (λ shown. (kept_at desk.old at).role ≡ Rw) }
    ensures long { IsLong desk.old }
{
    let control = look(memory, desk, at)?;
    let kind = KeeperKind::Lock(at as u64, control);
    let found = desk.exchange_word(memory, control_word(at), control, control + LOCK, kind);
    if found != control {
        return Err(Shown::Locked(control, found));
    }
    Ok(role_of(control))
}

/// Gives a doubleword that has no role a value and a role, and a slot its lazy word. No other seat locks a
/// doubleword without a role.
#[tactic(auto, using(crate::proofs::WordKeeping::Held::set_ready, crate::proofs::WordKeeping::Held::sets))]
pub fn set<J: Naming>(
    memory: &Memory<J>,
    desk: &mut Desk<J>,
    at: usize,
    value: u64,
    role: Role,
    lazy: u64,
)
    requires at { at < doublewords }
    requires resting { IsResting desk.old }
    requires fresh { (kept_at desk.old at).role ≡ NoRole }
    requires some_role { role ≢ NoRole }
    requires leads { role ≡ SlotRole → LeadsTo (kept_at desk.old) value }
    ensures set { desk.new ≡ set_as at value role lazy desk.old }
    ensures long { IsLong desk.old }
{
    let Ok(_) = lock(memory, desk, at) else {
        unreachable!()
    };
    desk.store_word(
        memory,
        value_word(at),
        value,
        KeeperKind::Store(at as u64, value),
    );
    let kind = KeeperKind::Unlock(at as u64, role, lazy);
    desk.add_word(memory, control_word(at), LOCK + code_of(role), kind);
}

/// Takes a doubleword's role away. No grant is open of a slot, and nothing enters another doubleword.
///
/// # Errors
///
/// What shows that another seat has locked it: its role is RW then. Nothing is changed, but that the
/// keeper's view has it behind what was shown before.
#[tactic(auto, using(crate::proofs::WordKeeping::Held::retirement))]
pub fn retire<J: Naming>(memory: &Memory<J>, desk: &mut Desk<J>, at: usize) -> Result<(), Shown>
    requires at { at < doublewords }
    requires resting { IsResting desk.old }
    requires some_role { (kept_at desk.old at).role ≢ NoRole }
    requires slot { (kept_at desk.old at).role ≡ SlotRole → Unposted desk.old at }
    requires other { (kept_at desk.old at).role ≢ SlotRole → NothingEnters (kept_at desk.old) (row_of desk.old) at }
    ensures ok { IfOk result (λ _. desk.new ≡ retired at desk.old) }
    ensures seen { IfErr result (λ shown. desk.new ≡ was_shown at shown desk.old) }
    ensures shown { IfErr result IsShown }
    ensures writable { IfErr result (λ shown. (kept_at desk.old at).role ≡ Rw) }
{
    let old = lock(memory, desk, at)?;
    let more = LOCK - code_of(old);
    desk.add_word(memory, control_word(at), more, retiring(at as u64, old));
    Ok(())
}

// The kind of step that takes a role away.
fn retiring(at: u64, old: Role) -> KeeperKind
    ensures { result ≡ retiring at old }
{
    match old {
        Role::Slot => KeeperKind::RetireSlot(at),
        Role::None | Role::Ro | Role::Rx | Role::Rw => KeeperKind::Retire(at, old),
    }
}
