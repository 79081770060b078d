//! What a command answers, before anything is written.

ghost use Rattle.std.specs.Prelude.{◌≡◌, IfOk};
ghost use Rattle.std.specs.String.{string_bytes};
ghost use Rattle.ldso_cli.specs.Command.{IsUsage};
ghost use Rattle.ldso_cli.specs.End.{bare};
ghost use Rattle.ldso_cli.specs.Status.{asm_refused_text, asm_word, refused_text};
ghost use Rattle.ldso_cli.specs.declared.outcome.Cause.TheVariants.{AsmRefused, Done, Refused};

use crate::outcome::{Cause, End, refused_line};
use ld_base::{AsmCause, Bytes, DlFault};
use std::alloc::{AllocError, Global};

/// How a command ended, and the bytes that it prints then.
#[derive(Drop)]
pub(crate) struct Answer {
    pub end: End,
    pub text: Bytes,
}

/// The answer of a command that did what it was asked, and ran no program.
pub(crate) fn done(text: String) -> Answer
    ensures end { result.end ≡ bare Done }
    ensures text { result.text ≡ string_bytes text }
{
    Answer {
        end: End::bare(Cause::Done),
        text: Bytes::from(text.into_bytes()),
    }
}

/// The answer of a source that was assembled: the bytes of its object, alone.
pub(crate) fn assembled(bytes: Vec<u8>) -> Answer
    ensures end { result.end ≡ bare Done }
    ensures text { result.text ≡ bytes.items }
{
    Answer {
        end: End::bare(Cause::Done),
        text: Bytes::from(bytes),
    }
}

/// The answer of a refusal, of a command that ran no program.
pub(crate) fn refused(alloc: Global, fault: DlFault) -> Result<Answer, AllocError>
    ensures end { IfOk result (λ answer. answer.end ≡ bare (Refused fault)) }
    ensures text { IfOk result (λ answer. answer.text ≡ refused_text fault) }
{
    let text = refused_line(alloc, &fault)?;
    Ok(Answer {
        end: End::bare(Cause::Refused(fault)),
        text: Bytes::from(text.into_bytes()),
    })
}

/// The word of a cause for which a source is refused.
fn asm_word(cause: AsmCause) -> &'static str
    ensures { result.now ≡ asm_word cause }
{
    match cause {
        AsmCause::BadStatement => "bad-statement",
        AsmCause::UnknownWord => "unknown-word",
        AsmCause::BadOperand => "bad-operand",
        AsmCause::OutOfRange => "out-of-range",
        AsmCause::DoubleLabel => "double-label",
        AsmCause::UnknownLabel => "unknown-label",
        AsmCause::WrongSection => "wrong-section",
        AsmCause::TooBig => "too-big",
    }
}

/// The answer of a source that is refused.
#[tactic(auto, unfolding(crate::specs::Status::asm_refused_text))]
pub(crate) fn asm_refused(alloc: Global, line: u64, cause: AsmCause) -> Result<Answer, AllocError>
    ensures end { IfOk result (λ answer. answer.end ≡ bare (AsmRefused line cause)) }
    ensures text { IfOk result (λ answer. answer.text ≡ asm_refused_text line cause) }
{
    let word = asm_word(cause);
    let text = format!(in alloc; "end 119 asm {line} {word}\n")?;
    Ok(Answer {
        end: End::bare(Cause::AsmRefused(line, cause)),
        text: Bytes::from(text.into_bytes()),
    })
}

/// The answer of words that are no command.
pub(crate) fn usage(alloc: Global) -> Result<Answer, AllocError>
    ensures { IfOk result (λ answer. IsUsage answer.end answer.text) }
{
    let text = String::from_str(alloc, "end 120 usage\n")?;
    Ok(Answer {
        end: End::bare(Cause::Usage),
        text: Bytes::from(text.into_bytes()),
    })
}
