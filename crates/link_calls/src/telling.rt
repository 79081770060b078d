//! The text of a refusal.

ghost use Rattle.std.specs.Prelude.{◌≡◌, IfOk, OnErr};
ghost use Rattle.std.specs.Option.{option_map};
ghost use Rattle.link_calls.specs.Coming.{TellsIn};
ghost use Rattle.history_state.specs.After.{after};
ghost use Rattle.history_state.specs.Allowed.{kept_for};
ghost use Rattle.history_calls.specs.Served.{answer_text};

use ld_base::{DlFault, HartId, Name};
use link_state::LinkState;
use std::alloc::{AllocError, Global};

/// Of a longer text the hart gets so many bytes.
const LONGEST_TEXT: usize = 511;

/// Tells the hart the refusal that is kept for it, if one is, and keeps it no longer (dlerror(3)).
///
/// # Errors
///
/// Want of memory. Nothing has changed then.
pub fn dlerror(
    alloc: Global,
    state: &mut LinkState,
    hart: HartId,
) -> Result<Option<Name>, AllocError>
    ensures told { IfOk result (λ text. TellsIn state.old hart text state.new) }
    ensures harts { state.new.harts ≡ state.old.harts }
    ensures made { state.new.made ≡ state.old.made }
    ensures err { OnErr result (state.new ≡ state.old) }
{
    let text = kept_text(alloc, state, hart)?;
    state.told(hart)?;
    Ok(text)
}

/// The text of the refusal that is kept for a hart.
///
/// # Errors
///
/// Want of memory.
fn kept_text(alloc: Global, state: &LinkState, hart: HartId) -> Result<Option<Name>, AllocError>
    ensures { IfOk result (λ text. text ≡ option_map answer_text (kept_for (after state.now.events) hart)) }
{
    match state.kept(hart) {
        Some(fault) => Ok(Some(text_of(alloc, fault)?)),
        None => Ok(None),
    }
}

/// The text of a refusal, as its hart gets it.
///
/// # Errors
///
/// Want of memory.
fn text_of(alloc: Global, fault: &DlFault) -> Result<Name, AllocError>
    ensures { IfOk result (λ text. text ≡ answer_text fault.now) }
{
    let text = format!(in alloc; "{fault}")?;
    let bytes = text.as_bytes();
    let count = LONGEST_TEXT.min(bytes.len());
    Name::new(alloc, &bytes[..count])
}
