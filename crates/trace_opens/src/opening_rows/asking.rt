//! What an opening asks for.

ghost use Rattle.std.specs.Prelude.{◌≡◌, ◌<◌, ℕ, false, true, IfErr, IfNone, IfOk, IfSome, IsTrue};
ghost use Rattle.std.specs.List.{list_any};
ghost use Rattle.history_state.specs.Asking.{IsFreeNumber, IsNamespace, asks_too_long};
ghost use Rattle.history_calls.specs.Laws.{RefusesAsk};
ghost use Rattle.history_state.specs.Flags.{are_flags};
ghost use Rattle.history_state.specs.Objects.{has_id, has_namespace, is_startup};
ghost use Rattle.history_state.specs.State.{State};
ghost use Rattle.trace_opens.specs.OpeningRows.Asked.{ComesOfAsking, IsKnown, IsOverlong};

use history_event::OpenAsk;
use ld_base::{DlFault, NsId};
use link_lists::are_flags;
use scope_rule::Namespace;

/// How many bytes of a name are known where it is too long.
const LONG_NAME: usize = 256;
/// How many namespaces there may be.
const NAMESPACES: u32 = 16;

/// What comes of what an opening asks, before anything is looked for.
#[derive(Drop)]
pub(crate) enum Asked {
    /// It is made in this namespace, which is there or is new.
    In(NsId),
    Refused(DlFault),
    /// No event has a name of so many bytes.
    Overlong,
}

/// Where an opening is made that asks so, once startup is over, or what it is refused for.
pub(crate) fn judge(namespaces: &[Namespace], ask: &OpenAsk) -> Asked
    ensures { (s : State) → is_startup s ≡ false → s.namespaces ≡ namespaces.now → ComesOfAsking s ask.now result }
{
    if is_overlong(ask) {
        return Asked::Overlong;
    }
    if is_too_long(ask) {
        return Asked::Refused(DlFault::NameTooLong);
    }
    if !are_flags(ask.flags) {
        return Asked::Refused(DlFault::BadFlags(ask.flags));
    }
    match namespace_of(namespaces, ask) {
        Ok(id) => Asked::In(id),
        Err(fault) => Asked::Refused(fault),
    }
}

/// Whether more of the name is known than shows that it is too long.
fn is_overlong(ask: &OpenAsk) -> bool
    ensures yes { IsTrue result → IsOverlong ask.now.name }
    ensures no { result ≡ false → IsKnown ask.now.name }
{
    match &ask.name {
        Some(name) => name.as_bytes().len() > LONG_NAME,
        None => false,
    }
}

/// Whether the name is too long.
fn is_too_long(ask: &OpenAsk) -> bool
    ensures { (s : State) → is_startup s ≡ false → result ≡ asks_too_long s ask.now.name }
{
    match &ask.name {
        Some(name) => name.as_bytes().len() >= LONG_NAME,
        None => false,
    }
}

/// The namespace, whose number is one that is there or that is free. The null name is the program's.
fn namespace_of(namespaces: &[Namespace], ask: &OpenAsk) -> Result<NsId, DlFault>
    ensures asked { (s : State) → s.namespaces ≡ namespaces.now → IfOk result (λ id. IsNamespace s ask.now.ns ask.now.name id) }
    ensures refused { (s : State) → s.namespaces ≡ namespaces.now → asks_too_long s ask.now.name ≡ false → IsTrue (are_flags ask.now.flags)
        → IfErr result (RefusesAsk s ask.now) }
{
    match (ask.ns, &ask.name) {
        (Some(number), Some(_)) => match numbered(namespaces, number) {
            Some(id) => Ok(id),
            None => Err(DlFault::BadNamespace(number)),
        },
        (Some(0), None) => Ok(NsId::BASE),
        (Some(number), None) => Err(DlFault::BadNamespace(number)),
        (None, Some(_)) => match free_number(namespaces) {
            Some(id) => Ok(id),
            None => Err(DlFault::NamespacesFull),
        },
        (None, None) => Err(DlFault::BadNamespace(u64::MAX)),
    }
}

/// The namespace with a number, if it is there.
fn numbered(namespaces: &[Namespace], number: u64) -> Option<NsId>
    ensures there { IfSome result (λ id. id ≡ number) }
    ensures found { IfSome result (λ id. list_any (has_id number) namespaces.now ≡ true) }
    ensures none { IfNone result (list_any (has_id number) namespaces.now ≡ false) }
{
    for namespace in namespaces {
        if u64::from(namespace.id.number()) == number {
            return Some(namespace.id);
        }
    }
    None
}

/// Whether a namespace is there.
fn is_there(namespaces: &[Namespace], id: NsId) -> bool
    ensures { result ≡ list_any (has_id id) namespaces.now }
{
    namespaces.iter().any(|namespace| namespace.id == id)
}

/// The least number that no namespace has.
fn free_number(namespaces: &[Namespace]) -> Option<NsId>
    ensures free { (s : State) → s.namespaces ≡ namespaces.now → IfSome result (IsFreeNumber s) }
    ensures none { (s : State) → s.namespaces ≡ namespaces.now → IfNone result ((id : ℕ) → id < 16 → IsTrue (has_namespace s id)) }
{
    for id in 0..NAMESPACES {
        if !is_there(namespaces, NsId::new(id)) {
            return Some(NsId::new(id));
        }
    }
    None
}
