//! The call that is due.

ghost use Rattle.std.specs.Prelude.{◌≡◌, ◌<◌, ◌≤◌, false, IfNone, IfSome, IsTrue};
ghost use Rattle.hart_moves.specs.Due.{due};
ghost use Rattle.hart_seat.specs.HartParts.Views.{due_in};
ghost use Rattle.history_state.specs.After.{after};
ghost use Rattle.history_state.specs.Objects.{is_startup};
ghost use Rattle.world_answers.specs.Answers.{AnswersDue, HasFinishedFirst, IsFreeFirst, MayEndIn, WritesSome, is_service};
ghost use Rattle.world_answers.specs.Openings.{TurnAnswersUnlessReadsFail, TurnReadsNothing, TurnRefusalIsCounted};

use crate::closing::{close, unmap};
use crate::ending::stop;
use crate::granting::resolve;
use crate::locating::locate;
use crate::looking::{dlsym, dlvsym};
use crate::opening::{dlmopen, dlopen};
use crate::telling::tell;
use crate::waiting::is_still;
use crate::writing::write;
use hart_seat::{Call, Due, LinkedHart};
use ld_base::{HartId, Names};
use library_source::Library;
use link_state::LinkState;
use std::alloc::Global;
use world_memory::Answered;

/// Answers the call that a hart's next turn is, if it is one: its events, and the end of the hart that it
/// brings, are in the journal then.
///
/// The program is loaded, and what the call asks for holds: a hart that makes one may end, it has no open
/// grant where it is to get one, destructors have run before their objects are unmapped, and a write is of
/// as many bytes as may be written at once. The library's counts show that a read failed, and that paths
/// were missed.
pub fn answer<L: Library>(
    alloc: Global,
    state: &mut LinkState,
    id: HartId,
    hart: &LinkedHart,
    folders: &Names,
    library: &mut L,
) -> Option<Answered>
    requires hart { id < state.old.harts }
    requires started { is_startup (after state.old.events) ≡ false }
    requires may_end { IsTrue (is_service (due (after state.old.events) hart.now.hart)) → MayEndIn state.old id }
    requires free { IsFreeFirst (after state.old.events) id (due (after state.old.events) hart.now.hart) }
    requires finished { HasFinishedFirst (after state.old.events) id (due (after state.old.events) hart.now.hart) }
    requires writes { WritesSome (due (after state.old.events) hart.now.hart) }
    ensures answered { IfSome result (λ came.
        AnswersDue state.old folders.now (L.files library.old) id (due (after state.old.events) hart.now.hart) came state.new) }
    ensures other { IfNone result (is_service (due (after state.old.events) hart.now.hart) ≡ false) }
    ensures unchanged { IfNone result ((state.new ≡ state.old) × (library.new ≡ library.old)) }
    ensures whole { IfSome result (λ came. TurnAnswersUnlessReadsFail state.old folders.now (L.files library.old)
        (L.faults library.old) (L.faults library.new) id (due (after state.old.events) hart.now.hart) came) }
    ensures counts { TurnRefusalIsCounted folders.now state.old.events state.new.events id (due (after state.old.events) hart.now.hart)
        (L.faults library.old) (L.faults library.new) (L.misses library.old) (L.misses library.new) }
    ensures unread { TurnReadsNothing (after state.old.events) (due (after state.old.events) hart.now.hart) → library.new ≡ library.old }
    ensures files { L.files library.new ≡ L.files library.old }
    ensures faults { L.faults library.old ≤ L.faults library.new }
    ensures misses { L.misses library.old ≤ L.misses library.new }
    ensures harts { state.new.harts ≡ state.old.harts }
{
    match asked_of(state, hart) {
        Some(Call::Resolve { owner, eights }) => Some(resolve(state, id, owner, eights)),
        Some(
            Call::Dlopen {
                caller,
                name,
                flags,
            },
        ) => Some(dlopen(alloc, state, id, caller, name, flags, folders, library)),
        Some(
            Call::Dlmopen {
                namespace,
                name,
                flags,
            },
        ) => Some(dlmopen(alloc, state, id, namespace, name, flags, folders, library)),
        Some(
            Call::Dlsym {
                caller,
                handle,
                name,
            },
        ) => Some(dlsym(alloc, state, id, caller, handle, name)),
        Some(
            Call::Dlvsym {
                caller,
                handle,
                name,
                version,
            },
        ) => Some(dlvsym(alloc, state, id, caller, handle, name, version)),
        Some(Call::Dlclose(handle)) => Some(close(alloc, state, id, handle)),
        Some(Call::Unmap(dying)) => Some(unmap(state, id, dying)),
        Some(Call::Dlerror) => Some(tell(alloc, state, id)),
        Some(Call::Locate { number, offset }) => Some(locate(state, id, number, offset)),
        Some(Call::Write(bytes)) => Some(write(state, id, bytes)),
        Some(Call::Stop(reason)) => Some(stop(state, id, reason)),
        None => None,
    }
}

/// What a hart asks for, if its next turn is a call. One that waits for what is so still asks for nothing.
fn asked_of<'a>(state: &LinkState, hart: &'a LinkedHart) -> Option<Call<'a>>
    ensures asked { IfSome result (λ asked. due_in (after state.now.events) hart.now.hart (Due.Serve asked) ≡ due (after state.now.events) hart.now.hart) }
    ensures none { IfNone result (is_service (due (after state.now.events) hart.now.hart) ≡ false) }
{
    match hart.due() {
        Due::Serve(asked) => Some(asked),
        Due::Wait(shown, asked) => {
            if is_still(state, &shown) {
                None
            } else {
                Some(asked)
            }
        }
        _ => None,
    }
}
