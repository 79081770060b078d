//! Names.

ghost use Rattle.std.specs.Prelude.{◌≡◌, IfOk};
ghost use Rattle.std.specs.List.{list_all};
ghost use Rattle.asm_statement.specs.AsmWords.Names.{is_name_byte, may_begin, is_name, name};

use ld_base::Name;
use std::alloc::{AllocError, Global};

#[tactic(auto, unfolding(crate::specs::AsmWords::Names::is_name_byte))]
fn is_name_byte(byte: u8) -> bool
    ensures { result ≡ is_name_byte byte }
{
    byte.is_ascii_alphanumeric() || byte == b'_' || byte == b'.'
}

#[tactic(auto, unfolding(crate::specs::AsmWords::Names::may_begin))]
fn may_begin(byte: u8) -> bool
    ensures { result ≡ may_begin byte }
{
    !byte.is_ascii_digit()
}

fn are_name_bytes(text: &[u8]) -> bool
    ensures { result ≡ list_all is_name_byte text.now }
{
    text.iter().all(|byte| is_name_byte(*byte))
}

/// Whether this is a name.
#[tactic(auto, unfolding(crate::specs::AsmWords::Names::is_name))]
pub fn is_name(text: &[u8]) -> bool
    ensures { result ≡ is_name text.now }
{
    match text {
        [] => false,
        [first, ..] => may_begin(*first) && are_name_bytes(text),
    }
}

/// The name that is written so.
///
/// # Errors
///
/// Want of memory.
pub fn name_of(alloc: Global, text: &[u8]) -> Result<Option<Name>, AllocError>
    ensures { IfOk result (λ n. n ≡ name text.now) }
{
    if is_name(text) {
        Ok(Some(Name::new(alloc, text)?))
    } else {
        Ok(None)
    }
}
