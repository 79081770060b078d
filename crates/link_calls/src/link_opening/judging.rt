//! What is asked of an opening.

ghost use Rattle.std.specs.Prelude.{◌≡◌, ◌<◌, false, IfErr, IfOk, IfNone, IfSome, IsTrue, Some, ℕ};
ghost use Rattle.history_state.specs.After.{after};
ghost use Rattle.history_state.specs.Asking.{IsAsked, IsFreeNumber, IsNamespace, asks_too_long};
ghost use Rattle.history_state.specs.Objects.{has_namespace, is_startup};
ghost use Rattle.history_calls.specs.Laws.{RefusesAsk};
ghost use Rattle.link_calls.specs.LinkOpening.Asked.{RefusesNamespace};

use crate::link_opening::law::namespaces_are_few;
use crate::names::LONG_NAME;
use history_event::OpenAsk;
use ld_base::{DlFault, NsId};
use link_lists::are_flags;
use link_state::LinkState;

/// How many namespaces there may be.
const NAMESPACES: u32 = 16;

/// In which namespace an opening is made: one that is there, or for a new one the least number that is free.
/// Startup is over. It takes no memory.
///
/// # Errors
///
/// That the name is too long, that the flags aren't those of an opening, that there is no such namespace, or that
/// there are as many as there may be: the first of these that holds.
pub fn judge(state: &LinkState, ask: &OpenAsk) -> Result<NsId, DlFault>
    requires started { is_startup (after state.now.events) ≡ false }
    ensures asked { IfOk result (λ id. IsAsked (after state.now.events) ask.now id) }
    ensures refused { IfErr result (RefusesAsk (after state.now.events) ask.now) }
{
    if is_too_long(state, ask) {
        return Err(DlFault::NameTooLong);
    }
    if !are_flags(ask.flags) {
        return Err(DlFault::BadFlags(ask.flags));
    }
    namespace_of(state, ask)
}

/// Whether the name is too long.
fn is_too_long(state: &LinkState, ask: &OpenAsk) -> bool
    requires started { is_startup (after state.now.events) ≡ false }
    ensures { result ≡ asks_too_long (after state.now.events) ask.now.name }
{
    match &ask.name {
        Some(name) => name.as_bytes().len() >= LONG_NAME,
        None => false,
    }
}

/// The namespace, whose number is one that is there or that is free. The null name is the program's.
fn namespace_of(state: &LinkState, ask: &OpenAsk) -> Result<NsId, DlFault>
    ensures asked { IfOk result (λ id. IsNamespace (after state.now.events) ask.now.ns ask.now.name id) }
    ensures refused { IfErr result (RefusesNamespace (after state.now.events) ask.now.ns ask.now.name) }
{
    match (ask.ns, &ask.name) {
        (Some(number), Some(_)) => match numbered(state, number) {
            Some(id) => Ok(id),
            None => Err(DlFault::BadNamespace(number)),
        },
        (Some(0), None) => Ok(NsId::BASE),
        (Some(number), None) => Err(DlFault::BadNamespace(number)),
        (None, Some(_)) => match free_number(state) {
            Some(id) => Ok(id),
            None => Err(DlFault::NamespacesFull),
        },
        (None, None) => Err(DlFault::BadNamespace(u64::MAX)),
    }
}

/// The namespace with a number, if it is there.
fn numbered(state: &LinkState, number: u64) -> Option<NsId>
    ensures there { IfSome result (λ id. id ≡ number) }
    ensures found { IfSome result (λ id. IsTrue (has_namespace (after state.now.events) number)) }
    ensures none { IfNone result (has_namespace (after state.now.events) number ≡ false) }
{
    namespaces_are_few();
    let _ = state.journal();
    let Ok(id) = u32::try_from(number) else {
        return None;
    };
    if is_there(state, id) {
        Some(NsId::new(id))
    } else {
        None
    }
}

/// Whether a namespace is there.
fn is_there(state: &LinkState, id: u32) -> bool
    ensures { result ≡ has_namespace (after state.now.events) id }
{
    match state.namespace(NsId::new(id)) {
        Some(_) => true,
        None => false,
    }
}

/// The least number that no namespace has.
fn free_number(state: &LinkState) -> Option<NsId>
    ensures free { IfSome result (IsFreeNumber (after state.now.events)) }
    ensures none { IfNone result ((id : ℕ) → id < 16 → IsTrue (has_namespace (after state.now.events) id)) }
{
    for id in 0..NAMESPACES {
        if !is_there(state, id) {
            return Some(NsId::new(id));
        }
    }
    None
}
