//! Whether memory may be asked, and what a control word permits.

ghost use Rattle.std.specs.Prelude.{◌≡◌, IfOk, IfErr};
ghost use Rattle.rv_hart.specs.Buses.{IsSize, may_fetch, may_read, may_write};
ghost use Rattle.word_rule.specs.Layout.{place_of};
ghost use Rattle.word_rule.specs.HartSteps.{IsAsked, is_fresh, permits};
ghost use Rattle.word_access.specs.Accesses.{IsUnasked};

use ld_base::Role;
use rv_hart::BusFault;
use word_rule::{Ask, LoadAsk, StoreAsk};
use word_steps::{DOUBLEWORDS, FIRST_ADDRESS, version_of};

/// The doubleword of the bytes at an address.
///
/// # Errors
///
/// Misaligned where the address is no multiple of the size; the role None where it isn't one of guest
/// memory.
#[tactic(auto, unfolding(word_rule::specs::Layout::doublewords, word_rule::specs::Layout::place_of))]
pub(crate) fn place(address: u64, size: u8) -> Result<usize, BusFault>
    requires { IsSize size }
    ensures at { IfOk result (λ at. at ≡ place_of address) }
    ensures asked { IfOk result (λ at. IsAsked address size) }
    ensures err { IfErr result (IsUnasked address size) }
{
    if address % u64::from(size) != 0 {
        return Err(BusFault::Misaligned);
    }
    if address < FIRST_ADDRESS {
        return Err(BusFault::Role(Role::None));
    }
    let at = (address - FIRST_ADDRESS) / 8;
    if at >= DOUBLEWORDS {
        return Err(BusFault::Role(Role::None));
    }
    Ok(at as usize)
}

fn is_fetched(role: Role) -> bool
    ensures { result ≡ may_fetch role }
{
    role == Role::Rx
}

fn is_read(role: Role) -> bool
    ensures { result ≡ may_read role }
{
    role != Role::None
}

fn is_written(role: Role) -> bool
    ensures { result ≡ may_write role }
{
    role == Role::Rw
}

/// Whether a role permits what is asked.
pub(crate) fn is_permitted(ask: Ask, role: Role) -> bool
    ensures { result ≡ permits ask role }
{
    match ask {
        Ask::Load(LoadAsk::Fetch(_)) => is_fetched(role),
        Ask::Load(LoadAsk::Read(_, _)) => is_read(role),
        Ask::Load(LoadAsk::Reserve(_, _)) => is_read(role),
        Ask::Store(_) => is_written(role),
    }
}

/// Whether a store isn't a conditional one that comes too late.
pub(crate) fn is_timely(ask: StoreAsk, control: u64) -> bool
    ensures { result ≡ is_fresh ask control }
{
    match ask {
        StoreAsk::Conditional(_, _, _, version) => version_of(control) == version,
        StoreAsk::Write(_, _, _) => true,
        StoreAsk::Amo(_, _, _, _) => true,
    }
}
