//! What the harts of a run say of it.

ghost use Rattle.std.specs.Prelude.{◌≡◌, ◌<◌, ◌^◌, List, length, IfSome};
ghost use Rattle.std.specs.List.{list_all};
ghost use Rattle.world_answers.specs.GuestsPart.GuestWorlds.Worlds.{world_of};
ghost use Rattle.link_state.specs.Table.{LinkTable};
ghost use Rattle.plain_world.specs.Stretches.{RunsAlone, RunsFirst};
ghost use Rattle.rv_hart.specs.declared.doubleword.Doubleword.{Doubleword};
ghost use Rattle.world_answers.specs.ReturnsPart.Settling.{harts_in};
ghost use Rattle.world_turns.specs.WorldEnds.Ends.{has_exited};
ghost use Rattle.world_turns.specs.Run.{has_ended, is_starting};

use hart_seat::LinkedHart;
use history_event::HartEnd;
use ld_base::HartId;

/// Whether the first hart runs constructors of startup still.
pub(crate) fn is_starting(harts: &[LinkedHart]) -> bool
    ensures { (state : LinkTable) (words : List Doubleword) → result ≡ is_starting (world_of state words harts.now) }
{
    match harts {
        [first, ..] => first.end().is_none() && first.is_starting(),
        [] => false,
    }
}

/// Whether each hart has ended.
pub(crate) fn have_ended(harts: &[LinkedHart]) -> bool
    ensures { result ≡ list_all (λ h. has_ended h.hart) harts.now }
{
    harts.iter().all(|hart| has_ended(hart))
}

/// The hart that runs on, where each other one has ended.
pub(crate) fn last_running(harts: &[LinkedHart]) -> Option<HartId>
    requires { length harts.now < 2 ^ 32 }
    ensures { IfSome result (RunsAlone (harts_in harts.now)) }
{
    for (index, hart) in harts.iter().enumerate() {
        if !has_ended(hart) {
            return last_from(harts, index);
        }
    }
    None
}

/// The first hart that runs on, at this index, where each one behind it has ended.
fn last_from(harts: &[LinkedHart], index: usize) -> Option<HartId>
    requires count { length harts.now < 2 ^ 32 }
    requires within { index < length harts.now }
    requires first { RunsFirst (harts_in harts.now) index }
    ensures { IfSome result (RunsAlone (harts_in harts.now)) }
{
    if have_ended(&harts[index + 1..]) {
        Some(HartId::new(index as u32))
    } else {
        None
    }
}

/// Whether each hart has ended by exit.
pub(crate) fn have_exited(harts: &[LinkedHart]) -> bool
    ensures { result ≡ list_all (λ h. has_exited h.hart) harts.now }
{
    harts.iter().all(|hart| has_exited(hart))
}

/// Whether a hart has ended.
fn has_ended(hart: &LinkedHart) -> bool
    ensures { result ≡ has_ended hart.now.hart }
{
    hart.end().is_some()
}

/// Whether a hart has ended by exit.
fn has_exited(hart: &LinkedHart) -> bool
    ensures { result ≡ has_exited hart.now.hart }
{
    matches!(hart.end(), Some(HartEnd::Exit(_)))
}
