//! Events whose lines have numbers alone.

ghost use Rattle.std.specs.Prelude.{◌≡◌};
ghost use Rattle.trace_read.specs.Steps.{step_word, granted, refused, grant_step, lost_step, unresolved_step, tls_step, hart_and_object, ended_step};
ghost use Rattle.trace_read.specs.Steps.{step_behind};

use crate::ends::end;
use crate::numbers::{decimal, decimal_field, decimal32_field, definition, hexadecimal};
use crate::pieces::{behind, cut, named};
use history_event::EventLine;
use ld_base::{Choice, GrantNo, HartId, Serial};

/// The first word of such an event.
#[derive(Clone, Copy)]
pub(crate) enum StepWord {
    Grant,
    Bound,
    Lost,
    Unresolved,
    Tls,
    Init,
    Fini,
    Ended,
}

const STEP_WORDS: [(&[u8], StepWord); 8] = [
    (b"grant", StepWord::Grant),
    (b"bound", StepWord::Bound),
    (b"lost", StepWord::Lost),
    (b"unresolved", StepWord::Unresolved),
    (b"tls", StepWord::Tls),
    (b"init", StepWord::Init),
    (b"fini", StepWord::Fini),
    (b"ended", StepWord::Ended),
];

#[tactic(auto, unfolding(crate::specs::Steps::step_word))]
pub(crate) fn step_word(text: &[u8]) -> Option<StepWord>
    ensures { result ≡ step_word text.now }
{
    named(&STEP_WORDS, text)
}

/// What a slot is to get: its definition and its value, or a weak symbol's 0.
#[tactic(auto, unfolding(crate::specs::Steps::granted))]
fn granted(text: &[u8]) -> Option<(Choice, u64)>
    ensures { result ≡ granted text.now }
{
    if text == b"weak 0x0".as_slice() {
        return Some((Choice::WeakZero, 0));
    }
    let (object, value) = cut(text, b' ')?;
    let (object, index) = definition(object)?;
    let value = hexadecimal(value)?;
    Some((Choice::Def(Serial::new(object), index), value))
}

/// Why a slot gets nothing.
#[tactic(auto, unfolding(crate::specs::Steps::refused))]
fn refused(text: &[u8]) -> Option<Choice>
    ensures { result ≡ refused text.now }
{
    if text == b"missing".as_slice() {
        return Some(Choice::Missing);
    }
    let (object, index) = definition(behind(text, b"not-code ")?)?;
    Some(Choice::Def(Serial::new(object), index))
}

fn grant(text: &[u8]) -> Option<EventLine>
    ensures { result ≡ grant_step text.now }
{
    let (grant, rest) = decimal_field(text, b"g=")?;
    let (hart, rest) = decimal32_field(rest, b"h=")?;
    let (owner, rest) = decimal_field(rest, b"o=")?;
    let (slot, rest) = decimal32_field(rest, b"slot=")?;
    let (choice, value) = granted(behind(rest, b"-> ")?)?;
    Some(EventLine::Grant {
        grant: GrantNo::new(grant),
        hart: HartId::new(hart),
        owner: Serial::new(owner),
        slot,
        choice,
        value,
    })
}

fn lost(text: &[u8]) -> Option<EventLine>
    ensures { result ≡ lost_step text.now }
{
    let (grant, rest) = decimal_field(text, b"g=")?;
    let saw = hexadecimal(behind(rest, b"saw=")?)?;
    Some(EventLine::Lost {
        grant: GrantNo::new(grant),
        saw,
    })
}

fn unresolved(text: &[u8]) -> Option<EventLine>
    ensures { result ≡ unresolved_step text.now }
{
    let (hart, rest) = decimal32_field(text, b"h=")?;
    let (owner, rest) = decimal_field(rest, b"o=")?;
    let (slot, rest) = decimal32_field(rest, b"slot=")?;
    let choice = refused(rest)?;
    Some(EventLine::Unresolved {
        hart: HartId::new(hart),
        owner: Serial::new(owner),
        slot,
        choice,
    })
}

fn tls(text: &[u8]) -> Option<EventLine>
    ensures { result ≡ tls_step text.now }
{
    let (hart, rest) = decimal32_field(text, b"h=")?;
    let (owner, rest) = decimal_field(rest, b"o=")?;
    let address = hexadecimal(rest)?;
    Some(EventLine::Tls {
        hart: HartId::new(hart),
        owner: Serial::new(owner),
        address,
    })
}

fn hart_and_object(text: &[u8]) -> Option<(HartId, Serial)>
    ensures { result ≡ hart_and_object text.now }
{
    let (hart, rest) = decimal32_field(text, b"h=")?;
    let object = decimal(behind(rest, b"o=")?)?;
    Some((HartId::new(hart), Serial::new(object)))
}

fn ended(text: &[u8]) -> Option<EventLine>
    ensures { result ≡ ended_step text.now }
{
    let (hart, rest) = decimal32_field(text, b"h=")?;
    let end = end(rest)?;
    Some(EventLine::Ended {
        hart: HartId::new(hart),
        end,
    })
}

/// An event behind its first word.
pub(crate) fn step_behind(word: StepWord, text: &[u8]) -> Option<EventLine>
    ensures { result ≡ step_behind word text.now }
{
    match word {
        StepWord::Grant => grant(text),
        StepWord::Bound => {
            let grant = GrantNo::new(decimal(behind(text, b"g=")?)?);
            Some(EventLine::Bound { grant })
        }
        StepWord::Lost => lost(text),
        StepWord::Unresolved => unresolved(text),
        StepWord::Tls => tls(text),
        StepWord::Init => {
            let (hart, object) = hart_and_object(text)?;
            Some(EventLine::Init { hart, object })
        }
        StepWord::Fini => {
            let (hart, object) = hart_and_object(text)?;
            Some(EventLine::Fini { hart, object })
        }
        StepWord::Ended => ended(text),
    }
}
