//! The events of the linker's calls.

ghost use Rattle.std.specs.Prelude.{◌≡◌};
ghost use Rattle.history_event.specs.declared.event.CloseAnswer.TheVariants.{Done as Closed};
ghost use Rattle.history_event.specs.declared.event.Event.TheVariants.{Close, Ended, Grant, Open, Sym, Unresolved};
ghost use Rattle.history_event.specs.declared.event.OpenAnswer.TheVariants.{Absent, Done};
ghost use Rattle.history_event.specs.declared.event.SymAnswer.TheVariants.{Found};
ghost use Rattle.link_holds.specs.Events.{refusal, settled};

use history_event::{
    Ask, CloseAnswer, Event, HartEnd, OpenAnswer, OpenAsk, Ranges, SymAnswer, SymAsk,
};
use ld_base::{Added, DlFault, GrantNo, HartId, NsId, Serial, Serials};
use link_finds::SlotChoice;

/// The event of a grant.
pub fn grant_event(grant: GrantNo, hart: HartId, owner: Serial, chosen: &SlotChoice) -> Event
    ensures { result ≡ Grant grant hart owner chosen.now.slot chosen.now.choice chosen.now.value }
{
    Event::Grant {
        grant,
        hart,
        owner,
        slot: chosen.slot,
        choice: chosen.choice,
        value: chosen.value,
    }
}

/// The event of a slot that may not be bound.
pub fn unresolved_event(hart: HartId, owner: Serial, chosen: &SlotChoice) -> Event
    ensures { result ≡ Unresolved hart owner chosen.now.slot chosen.now.choice }
{
    Event::Unresolved {
        hart,
        owner,
        slot: chosen.slot,
        choice: chosen.choice,
    }
}

/// The event of a grant that is settled: its slot got its value, or had the word that was seen.
pub fn settled_event(grant: GrantNo, won: bool, saw: u64) -> Event
    ensures { result ≡ settled grant won saw }
{
    if won {
        Event::Bound { grant }
    } else {
        Event::Lost { grant, saw }
    }
}

/// The event of an opening that isn't absent.
pub fn opened_event(
    hart: HartId,
    ask: OpenAsk,
    ns: NsId,
    root: Serial,
    added: Added,
    ranges: Ranges,
) -> Event
    ensures { result ≡ Open hart ask (Done ns root added ranges) }
{
    Event::Open {
        hart,
        ask,
        answer: OpenAnswer::Done {
            ns,
            root,
            added,
            ranges,
        },
    }
}

/// The event of an opening that is absent.
pub fn absent_event(hart: HartId, ask: OpenAsk) -> Event
    ensures { result ≡ Open hart ask Absent }
{
    Event::Open {
        hart,
        ask,
        answer: OpenAnswer::Absent,
    }
}

/// The event of a closing.
pub fn closing_event(hart: HartId, handle: u64, list: Serials) -> Event
    ensures { result ≡ Close hart handle (Closed list) }
{
    let answer = CloseAnswer::Done(list);
    Event::Close {
        hart,
        handle,
        answer,
    }
}

/// The event of a look-up that found this.
pub fn found_event(hart: HartId, ask: SymAsk, serial: Serial, index: u32, value: u64) -> Event
    ensures { result ≡ Sym hart ask (Found serial index value) }
{
    let answer = SymAnswer::Found(serial, index, value);
    Event::Sym { hart, ask, answer }
}

/// The event of a call that is refused.
pub fn refusal_event(hart: HartId, ask: Ask, fault: DlFault) -> Event
    ensures { result ≡ refusal hart ask fault }
{
    match ask {
        Ask::Open(ask) => {
            let answer = OpenAnswer::Refused(fault);
            Event::Open { hart, ask, answer }
        }
        Ask::Sym(ask) => {
            let answer = SymAnswer::Refused(fault);
            Event::Sym { hart, ask, answer }
        }
        Ask::Close(handle) => {
            let answer = CloseAnswer::Refused(fault);
            Event::Close {
                hart,
                handle,
                answer,
            }
        }
    }
}

/// The event of a hart's end.
pub fn end_event(hart: HartId, end: &HartEnd) -> Event
    ensures { result ≡ Ended hart «end».now }
{
    Event::Ended { hart, end: *end }
}
