//! Events in words.

ghost use Rattle.std.specs.Prelude.{◌≡◌, [], ◌∷◌, ◌++◌, Some, IfOk, OnOk, flat_map, option_map};
ghost use Rattle.std.specs.String.{string_bytes};
ghost use Rattle.trace_view.specs.Words.{asked_name, asked_words, block_words, bound_to_words, chosen_words, value_words, gets_words, its_call_words};
ghost use Rattle.trace_view.specs.Words.{no_code_words, through_words, bound_words, by_hart, calls_words, cannot_words, found_words, last_words};
ghost use Rattle.trace_view.specs.Words.{ran_words, saw_words, close_answer_words, close_words, event_words, lost_words, open_words, place_words};
ghost use Rattle.trace_view.specs.Words.{ended_words, refused_words, slot_event_words, sym_words, unmapped_words, wrote_words};
ghost use Rattle.trace_view.specs.Words.{step_words, sym_answer_words, told_words, version_words, open_answer_words, words_text};

use crate::journal::{Journal, Made, Step};
use crate::members::Member;
use crate::names::{ChoiceName, HandleName, NewNames, ObjectName, ObjectNames, Quoted, SlotName};
use history_event::{CloseAnswer, EventLine, HartEnd, OpenAsk, OpenLine, SymAnswer, SymAsk};
use ld_base::{Choice, DlFault, GrantNo, HartId, Name, Serial};
use std::alloc::{AllocError, Global};
use std::fmt;
use trace_text::EndText;

/// What an opening names; the program where it names nothing.
#[derive(Clone, Copy)]
struct AskedName<'a>(&'a Option<Name>);

impl fmt::Display for AskedName<'_> {
    ghost output = { λ a. Some (asked_name a.0.now) };

    fn fmt<W: fmt::Write>(&self, f: &mut fmt::Formatter<W>) -> fmt::Result {
        match self.0 {
            Some(name) => write!(f, "{name}"),
            None => write!(f, "the program"),
        }
    }
}

/// Where an opening is to load: nothing is said of the base namespace.
#[derive(Clone, Copy)]
struct Place(Option<u64>);

impl fmt::Display for Place {
    ghost output = { λ p. Some (place_words p.0) };

    fn fmt<W: fmt::Write>(&self, f: &mut fmt::Formatter<W>) -> fmt::Result {
        match self.0 {
            None => write!(f, " in a new namespace"),
            Some(0) => Ok(()),
            Some(ns) => write!(f, " in namespace {ns}"),
        }
    }
}

/// A version that a look-up names.
#[derive(Clone, Copy)]
struct Version<'a>(&'a Option<Name>);

impl fmt::Display for Version<'_> {
    ghost output = { λ v. Some (version_words v.0.now) };

    fn fmt<W: fmt::Write>(&self, f: &mut fmt::Formatter<W>) -> fmt::Result {
        match self.0 {
            Some(version) => write!(f, " of version {version}"),
            None => Ok(()),
        }
    }
}

/// Writes an event in words, without a line feed.
#[tactic(auto, unfolding(crate::specs::Words::event_words))]
fn write_event(text: &mut String, members: &[Member], event: &EventLine) -> Result<(), AllocError>
    ensures { OnOk result (string_bytes text.new ≡ string_bytes text.old ++ event_words members.now event.now) }
{
    match event {
        EventLine::Open { hart, ask, answer } => write_open(text, members, *hart, ask, answer),
        EventLine::Close {
            hart,
            handle,
            answer,
        } => write_close(text, members, *hart, *handle, answer),
        EventLine::Unmapped { hart, set } => write_unmapped(text, members, *hart, set.as_slice()),
        EventLine::Grant { .. }
        | EventLine::Bound { .. }
        | EventLine::Lost { .. }
        | EventLine::Unresolved { .. } => write_of_slot(text, members, event),
        EventLine::Sym { hart, ask, answer } => write_sym(text, members, *hart, ask, answer),
        EventLine::Tls {
            hart,
            owner,
            address,
        } => {
            write_hart(text, *hart)?;
            write_block(text, members, *owner, *address)
        }
        EventLine::Init { hart, object } => {
            write_hart(text, *hart)?;
            write_ran(text, members, "constructors", *object)
        }
        EventLine::Fini { hart, object } => {
            write_hart(text, *hart)?;
            write_ran(text, members, "destructors", *object)
        }
        EventLine::Wrote { hart, bytes } => write_wrote(text, *hart, bytes.as_slice()),
        EventLine::Told { hart, fault } => write_told(text, *hart, fault),
        EventLine::Ended { hart, end } => write_ended(text, *hart, *end),
    }
}

/// Writes an event that is of a slot by itself, and nothing of any other.
fn write_of_slot(text: &mut String, members: &[Member], event: &EventLine) -> Result<(), AllocError>
    ensures { OnOk result (string_bytes text.new ≡ string_bytes text.old ++ slot_event_words members.now event.now) }
{
    match event {
        EventLine::Grant {
            hart,
            owner,
            slot,
            choice,
            value,
            ..
        } => {
            write_hart(text, *hart)?;
            write_call(text, members, *owner, *slot, *choice, *value)
        }
        EventLine::Bound { grant } => {
            let grant = grant.number();
            write!(text, "grant {grant} is bound")
        }
        EventLine::Lost { grant, saw } => write_saw(text, *grant, *saw),
        EventLine::Unresolved {
            hart,
            owner,
            slot,
            choice,
        } => write_unresolved(text, members, *hart, *owner, *slot, *choice),
        _ => Ok(()),
    }
}

fn write_unmapped(
    text: &mut String,
    members: &[Member],
    hart: HartId,
    set: &[Serial],
) -> Result<(), AllocError>
    ensures { OnOk result (string_bytes text.new ≡ string_bytes text.old ++ unmapped_words members.now hart set.now) }
{
    let hart = hart.number();
    let set = ObjectNames {
        members,
        serials: set,
    };
    write!(text, "hart {hart} unmapped {set}")
}

fn write_wrote(text: &mut String, hart: HartId, bytes: &[u8]) -> Result<(), AllocError>
    ensures { OnOk result (string_bytes text.new ≡ string_bytes text.old ++ wrote_words hart bytes.now) }
{
    let hart = hart.number();
    let bytes = Quoted(bytes);
    write!(text, "hart {hart} wrote {bytes}")
}

fn write_ended(text: &mut String, hart: HartId, end: HartEnd) -> Result<(), AllocError>
    ensures { OnOk result (string_bytes text.new ≡ string_bytes text.old ++ ended_words hart end) }
{
    let hart = hart.number();
    let end = EndText(end);
    write!(text, "hart {hart} ended: {end}")
}

fn write_hart(text: &mut String, hart: HartId) -> Result<(), AllocError>
    ensures { OnOk result (string_bytes text.new ≡ string_bytes text.old ++ by_hart hart []) }
{
    let hart = hart.number();
    write!(text, "hart {hart} ")
}

fn write_call(
    text: &mut String,
    members: &[Member],
    owner: Serial,
    slot: u32,
    choice: Choice,
    value: u64,
) -> Result<(), AllocError>
    ensures { OnOk result (string_bytes text.new ≡ string_bytes text.old ++ calls_words members.now owner slot choice value) }
{
    write_through(text, members, owner, slot)?;
    write_gets(text, members, choice, value)
}

#[tactic(auto, unfolding(crate::specs::Words::through_words))]
fn write_through(
    text: &mut String,
    members: &[Member],
    owner: Serial,
    slot: u32,
) -> Result<(), AllocError>
    ensures { OnOk result (string_bytes text.new ≡ string_bytes text.old ++ through_words members.now owner slot) }
{
    let slot = SlotName {
        members,
        owner,
        slot,
    };
    let owner = ObjectName {
        members,
        serial: owner,
    };
    write!(text, "calls {slot} from {owner}")
}

fn write_gets(
    text: &mut String,
    members: &[Member],
    choice: Choice,
    value: u64,
) -> Result<(), AllocError>
    ensures { OnOk result (string_bytes text.new ≡ string_bytes text.old ++ gets_words members.now choice value) }
{
    write_chosen(text, members, choice)?;
    write_value(text, value)
}

#[tactic(auto, unfolding(crate::specs::Words::chosen_words))]
fn write_chosen(text: &mut String, members: &[Member], choice: Choice) -> Result<(), AllocError>
    ensures { OnOk result (string_bytes text.new ≡ string_bytes text.old ++ chosen_words members.now choice) }
{
    let choice = ChoiceName { members, choice };
    write!(text, ", and gets {choice}")
}

#[tactic(auto, unfolding(crate::specs::Words::value_words))]
fn write_value(text: &mut String, value: u64) -> Result<(), AllocError>
    ensures { OnOk result (string_bytes text.new ≡ string_bytes text.old ++ value_words value) }
{
    write!(text, ", 0x{value:x}")
}

#[tactic(auto, unfolding(crate::specs::Words::saw_words))]
fn write_saw(text: &mut String, grant: GrantNo, saw: u64) -> Result<(), AllocError>
    ensures { OnOk result (string_bytes text.new ≡ string_bytes text.old ++ saw_words grant saw) }
{
    let grant = grant.number();
    write!(text, "grant {grant} is lost to 0x{saw:x}")
}

#[tactic(auto, unfolding(crate::specs::Words::block_words))]
fn write_block(
    text: &mut String,
    members: &[Member],
    owner: Serial,
    address: u64,
) -> Result<(), AllocError>
    ensures { OnOk result (string_bytes text.new ≡ string_bytes text.old ++ block_words members.now owner address) }
{
    let object = ObjectName {
        members,
        serial: owner,
    };
    write!(text, "got its block of {object} at 0x{address:x}")
}

#[tactic(auto, unfolding(crate::specs::Words::ran_words))]
fn write_ran(
    text: &mut String,
    members: &[Member],
    which: &str,
    object: Serial,
) -> Result<(), AllocError>
    ensures { OnOk result (string_bytes text.new ≡ string_bytes text.old ++ ran_words members.now which.now object) }
{
    let object = ObjectName {
        members,
        serial: object,
    };
    write!(text, "ran the {which} of {object}")
}

fn write_open(
    text: &mut String,
    members: &[Member],
    hart: HartId,
    ask: &OpenAsk,
    answer: &OpenLine,
) -> Result<(), AllocError>
    ensures { OnOk result (string_bytes text.new ≡ string_bytes text.old ++ open_words members.now hart ask.now answer.now) }
{
    let hart = hart.number();
    let name = AskedName(&ask.name);
    let place = Place(ask.ns);
    write!(text, "hart {hart} opened {name}{place}: ")?;
    write_open_answer(text, members, answer)
}

fn write_open_answer(
    text: &mut String,
    members: &[Member],
    answer: &OpenLine,
) -> Result<(), AllocError>
    ensures { OnOk result (string_bytes text.new ≡ string_bytes text.old ++ open_answer_words members.now answer.now) }
{
    match answer {
        OpenLine::Done { root, added, .. } => {
            if added.is_empty() {
                let root = ObjectName {
                    members,
                    serial: *root,
                };
                return write!(text, "{root}, which was loaded");
            }
            let added = NewNames(added.as_slice());
            write!(text, "{added}")
        }
        OpenLine::Absent => write!(text, "it isn't loaded"),
        OpenLine::Refused(fault) => write!(text, "refused, {fault}"),
    }
}

fn write_close(
    text: &mut String,
    members: &[Member],
    hart: HartId,
    handle: u64,
    answer: &CloseAnswer,
) -> Result<(), AllocError>
    ensures { OnOk result (string_bytes text.new ≡ string_bytes text.old ++ close_words members.now hart handle answer.now) }
{
    let hart = hart.number();
    let object = HandleName { members, handle };
    write!(text, "hart {hart} closed {object}: ")?;
    write_close_answer(text, members, answer)
}

fn write_close_answer(
    text: &mut String,
    members: &[Member],
    answer: &CloseAnswer,
) -> Result<(), AllocError>
    ensures { OnOk result (string_bytes text.new ≡ string_bytes text.old ++ close_answer_words members.now answer.now) }
{
    match answer {
        CloseAnswer::Done(dying) => {
            let dying = ObjectNames {
                members,
                serials: dying.as_slice(),
            };
            write!(text, "{dying} will go")
        }
        CloseAnswer::Refused(fault) => write!(text, "refused, {fault}"),
    }
}

#[tactic(auto, unfolding(crate::specs::Words::cannot_words))]
fn write_cannot(
    text: &mut String,
    members: &[Member],
    owner: Serial,
    slot: u32,
    choice: Choice,
) -> Result<(), AllocError>
    ensures { OnOk result (string_bytes text.new ≡ string_bytes text.old ++ cannot_words members.now owner slot choice) }
{
    let slot = SlotName {
        members,
        owner,
        slot,
    };
    let owner = ObjectName {
        members,
        serial: owner,
    };
    let name = ChoiceName { members, choice };
    write!(text, "can't call {slot} from {owner}: {name}")
}

fn write_unresolved(
    text: &mut String,
    members: &[Member],
    hart: HartId,
    owner: Serial,
    slot: u32,
    choice: Choice,
) -> Result<(), AllocError>
    ensures { OnOk result (string_bytes text.new ≡ string_bytes text.old ++ refused_words members.now hart owner slot choice) }
{
    write_hart(text, hart)?;
    write_cannot(text, members, owner, slot, choice)?;
    write_no_code(text, &choice)
}

fn write_no_code(text: &mut String, choice: &Choice) -> Result<(), AllocError>
    ensures { OnOk result (string_bytes text.new ≡ string_bytes text.old ++ no_code_words choice.now) }
{
    match choice {
        Choice::Def(_, _) => write!(text, " is no code"),
        Choice::WeakZero | Choice::Missing => Ok(()),
    }
}

#[tactic(auto, unfolding(crate::specs::Words::asked_words))]
fn write_asked(text: &mut String, members: &[Member], ask: &SymAsk) -> Result<(), AllocError>
    ensures { OnOk result (string_bytes text.new ≡ string_bytes text.old ++ asked_words members.now ask.now) }
{
    let name = &ask.name;
    let version = Version(&ask.version);
    let object = HandleName {
        members,
        handle: ask.handle,
    };
    write!(text, "looked up {name}{version} in {object}: ")
}

fn write_sym(
    text: &mut String,
    members: &[Member],
    hart: HartId,
    ask: &SymAsk,
    answer: &SymAnswer,
) -> Result<(), AllocError>
    ensures { OnOk result (string_bytes text.new ≡ string_bytes text.old ++ sym_words members.now hart ask.now answer.now) }
{
    write_hart(text, hart)?;
    write_asked(text, members, ask)?;
    write_sym_answer(text, members, answer)
}

fn write_sym_answer(
    text: &mut String,
    members: &[Member],
    answer: &SymAnswer,
) -> Result<(), AllocError>
    ensures { OnOk result (string_bytes text.new ≡ string_bytes text.old ++ sym_answer_words members.now answer.now) }
{
    match answer {
        SymAnswer::Found(serial, index, address) => {
            let choice = ChoiceName {
                members,
                choice: Choice::Def(*serial, *index),
            };
            write!(text, "{choice}, 0x{address:x}")
        }
        SymAnswer::Refused(fault) => write!(text, "refused, {fault}"),
    }
}

fn write_told(text: &mut String, hart: HartId, fault: &Option<DlFault>) -> Result<(), AllocError>
    ensures { OnOk result (string_bytes text.new ≡ string_bytes text.old ++ told_words hart fault.now) }
{
    let hart = hart.number();
    match fault {
        Some(fault) => write!(text, "hart {hart} was told {fault}"),
        None => write!(text, "hart {hart} was told of no refusal"),
    }
}

/// Writes that a grant's hart bound its slot.
fn write_bound(text: &mut String, members: &[Member], made: Made) -> Result<(), AllocError>
    ensures { OnOk result (string_bytes text.new ≡ string_bytes text.old ++ bound_words members.now made) }
{
    let hart = made.hart.number();
    let slot = SlotName {
        members,
        owner: made.owner,
        slot: made.slot,
    };
    let choice = ChoiceName {
        members,
        choice: made.choice,
    };
    write!(text, "hart {hart} bound its call of {slot} to {choice}")
}

/// Writes that a grant's hart found its slot bound.
fn write_lost(text: &mut String, members: &[Member], made: Made, saw: u64) -> Result<(), AllocError>
    ensures { OnOk result (string_bytes text.new ≡ string_bytes text.old ++ lost_words members.now made saw) }
{
    write_hart(text, made.hart)?;
    write_found(text, members, made.owner, made.slot, saw)
}

fn write_found(
    text: &mut String,
    members: &[Member],
    owner: Serial,
    slot: u32,
    saw: u64,
) -> Result<(), AllocError>
    ensures { OnOk result (string_bytes text.new ≡ string_bytes text.old ++ found_words members.now owner slot saw) }
{
    write_its_call(text, members, owner, slot)?;
    write_bound_to(text, saw)
}

#[tactic(auto, unfolding(crate::specs::Words::its_call_words))]
fn write_its_call(
    text: &mut String,
    members: &[Member],
    owner: Serial,
    slot: u32,
) -> Result<(), AllocError>
    ensures { OnOk result (string_bytes text.new ≡ string_bytes text.old ++ its_call_words members.now owner slot) }
{
    let slot = SlotName {
        members,
        owner,
        slot,
    };
    write!(text, "found its call of {slot}")
}

#[tactic(auto, unfolding(crate::specs::Words::bound_to_words))]
fn write_bound_to(text: &mut String, saw: u64) -> Result<(), AllocError>
    ensures { OnOk result (string_bytes text.new ≡ string_bytes text.old ++ bound_to_words saw) }
{
    write!(text, " bound to 0x{saw:x}")
}

/// Writes a step in words, without a line feed.
///
/// # Errors
///
/// Want of memory. A part of the words may have been written then.
#[tactic(auto, unfolding(crate::specs::Words::step_words))]
pub(crate) fn write_words(
    text: &mut String,
    members: &[Member],
    step: &Step,
) -> Result<(), AllocError>
    ensures { OnOk result (string_bytes text.new ≡ string_bytes text.old ++ step_words members.now step.now) }
{
    match (&step.event, step.grant) {
        (EventLine::Bound { .. }, Some(made)) => write_bound(text, members, made),
        (EventLine::Lost { saw, .. }, Some(made)) => write_lost(text, members, made, *saw),
        (event, _) => write_event(text, members, event),
    }
}

/// Writes each step in words, a line a step.
fn write_steps(text: &mut String, members: &[Member], steps: &[Step]) -> Result<(), AllocError>
    ensures { OnOk result (string_bytes text.new ≡ string_bytes text.old ++ flat_map (λ step. step_words members.now step ++ 10 ∷ []) steps.now) }
{
    for step in steps {
        write_words(text, members, step)?;
        writeln!(text)?;
    }
    Ok(())
}

fn write_last(text: &mut String, last: &Option<String>) -> Result<(), AllocError>
    ensures { OnOk result (string_bytes text.new ≡ string_bytes text.old ++ last_words (option_map string_bytes last.now)) }
{
    match last {
        Some(last) => writeln!(text, "the run ended: {last}"),
        None => Ok(()),
    }
}

/// A journal in words: a line an event, and one of the run's end where it is said.
///
/// # Errors
///
/// Want of memory.
pub(crate) fn words_text(
    alloc: Global,
    members: &[Member],
    journal: &Journal,
) -> Result<String, AllocError>
    ensures { IfOk result (λ text. string_bytes text ≡ words_text members.now journal.now.steps (option_map string_bytes journal.now.last)) }
{
    let mut text = String::new(alloc);
    write_steps(&mut text, members, journal.steps.as_slice())?;
    write_last(&mut text, &journal.last)?;
    Ok(text)
}
