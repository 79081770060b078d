//! Openings as their plans answer them.

ghost use Rattle.std.specs.Prelude.{◌≡◌, ℕ, [], List, None, Some, Err, IfErr, IfOk};
ghost use Rattle.std.specs.Option.{option_copied};
ghost use Rattle.ld_base.specs.declared.fault.DlFault.TheVariants.{ReadFault as IsReadFault};
ghost use Rattle.history_event.specs.declared.event.OpenAnswer.TheVariants.{Done as IsDone};
ghost use Rattle.link_open_plan.specs.Planned.{fault_in};
ghost use Rattle.trace_opens.specs.OpeningRows.Expected.{FailsBy, IsCertain, brought, failed_path, planned, refusal, unplanned};
ghost use Rattle.trace_opens.specs.declared.failed_paths.judging.Doubt.TheVariants.{Memory, ReadFault};

use crate::failed_paths::Doubt;
use history_event::{ChoiceLists, OpenAnswer, OpenAsk, OpenLine, Opening, Ranges};
use ld_base::{Added, DlFault, HartId, Name, NsId, Serial};
use link_lists::Copied;
use link_open_plan::{NewObjects, Planned, Unopened};
use std::alloc::{AllocError, Global};

/// What an opening asks for, once more.
///
/// # Errors
///
/// Want of memory.
pub(crate) fn copied_ask(alloc: Global, ask: &OpenAsk) -> Result<OpenAsk, AllocError>
    ensures { IfOk result (λ copy. copy ≡ ask.now) }
{
    let name = match &ask.name {
        Some(name) => Some(name.copy(alloc)?),
        None => None,
    };
    Ok(OpenAsk {
        ns: ask.ns,
        name,
        flags: ask.flags,
    })
}

/// The path whose failed read a line tells of.
pub(crate) fn failed_path(line: &OpenLine) -> Option<&Name>
    ensures { option_copied result ≡ failed_path line.now }
{
    match line {
        OpenLine::Refused(DlFault::ReadFault(path)) => Some(path),
        _ => None,
    }
}

/// The opening that is refused.
pub(crate) fn refused(alloc: Global, hart: HartId, ask: OpenAsk, fault: DlFault) -> Opening
    ensures { result ≡ refusal hart ask fault }
{
    Opening {
        hart,
        ask,
        answer: OpenAnswer::Refused(fault),
        choices: ChoiceLists::new(alloc),
    }
}

/// The opening of an object that is there.
pub(crate) fn there(alloc: Global, hart: HartId, ask: OpenAsk, ns: NsId, root: Serial) -> Opening
    ensures { result ≡ record { hart = hart; ask = ask; answer = IsDone ns root [] []; choices = [] } }
{
    Opening {
        hart,
        ask,
        answer: OpenAnswer::Done {
            ns,
            root,
            added: Added::new(alloc),
            ranges: Ranges::new(alloc),
        },
        choices: ChoiceLists::new(alloc),
    }
}

/// The opening that brings new objects.
pub(crate) fn brought(hart: HartId, ask: OpenAsk, ns: NsId, news: NewObjects) -> Opening
    ensures { result ≡ brought hart ask ns news }
{
    let NewObjects {
        root,
        added,
        ranges,
        choices,
    } = news;
    Opening {
        hart,
        ask,
        answer: OpenAnswer::Done {
            ns,
            root,
            added,
            ranges,
        },
        choices,
    }
}

/// The opening that is planned.
pub(crate) fn planned(alloc: Global, hart: HartId, ask: OpenAsk, ns: NsId, plan: Planned) -> Opening
    ensures { result ≡ planned hart ask ns plan }
{
    match plan {
        Planned::Absent => Opening {
            hart,
            ask,
            answer: OpenAnswer::Absent,
            choices: ChoiceLists::new(alloc),
        },
        Planned::There(root) => there(alloc, hart, ask, ns, root),
        Planned::New(news) => brought(hart, ask, ns, news),
    }
}

/// The opening that comes of no plan: its refusal; none where it has to wait.
///
/// # Errors
///
/// That the library failed to read a path, or want of memory.
pub(crate) fn unplanned(
    alloc: Global,
    hart: HartId,
    ask: OpenAsk,
    why: Unopened,
) -> Result<Option<Opening>, Doubt>
    ensures found { IfOk result (λ found. found ≡ unplanned hart ask why) }
    ensures certain { IfOk result (λ _. IsCertain why) }
    ensures failed { IfErr result (λ doubt. (failed : List ℕ) → doubt ≡ ReadFault failed → fault_in why ≡ Some (IsReadFault failed)) }
{
    match why {
        Unopened::Refused(DlFault::ReadFault(path)) => Err(Doubt::ReadFault(path)),
        Unopened::Refused(fault) => Ok(Some(refused(alloc, hart, ask, fault))),
        Unopened::Wait(_) => Ok(None),
        Unopened::Memory => Err(Doubt::Memory),
    }
}

/// The opening that is refused so.
///
/// # Errors
///
/// Want of memory.
pub(crate) fn refused_opening(
    alloc: Global,
    hart: HartId,
    ask: &OpenAsk,
    fault: DlFault,
) -> Result<Option<Opening>, Doubt>
    ensures found { IfOk result (λ found. found ≡ Some (refusal hart ask.now fault)) }
    ensures memory { IfErr result (λ doubt. doubt ≡ Memory) }
{
    let ask = copied_ask(alloc, ask)?;
    Ok(Some(refused(alloc, hart, ask, fault)))
}

/// The opening of an object that is there.
///
/// # Errors
///
/// Want of memory.
pub(crate) fn there_opening(
    alloc: Global,
    hart: HartId,
    ask: &OpenAsk,
    ns: NsId,
    root: Serial,
) -> Result<Option<Opening>, Doubt>
    ensures found { IfOk result (λ found. found ≡ Some (record { hart = hart; ask = ask.now; answer = IsDone ns root [] []; choices = [] })) }
    ensures memory { IfErr result (λ doubt. doubt ≡ Memory) }
{
    let ask = copied_ask(alloc, ask)?;
    Ok(Some(there(alloc, hart, ask, ns, root)))
}

/// The opening that a failed read refuses, if one may.
///
/// # Errors
///
/// The doubt whether one may, or want of memory.
pub(crate) fn failed_opening(
    alloc: Global,
    hart: HartId,
    ask: &OpenAsk,
    path: &Name,
    may: Result<bool, Doubt>,
) -> Result<Option<Opening>, Doubt>
    ensures found { IfOk result (FailsBy hart ask.now path.now may) }
    ensures failed { IfErr result (λ doubt. (failed : List ℕ) → doubt ≡ ReadFault failed → may ≡ Err (ReadFault failed)) }
{
    if !may? {
        return Ok(None);
    }
    let ask = copied_ask(alloc, ask)?;
    let fault = DlFault::ReadFault(path.copy(alloc)?);
    Ok(Some(refused(alloc, hart, ask, fault)))
}
