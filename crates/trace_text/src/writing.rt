//! Events, as they are written.

ghost use Rattle.std.specs.Prelude.{◌≡◌, ◌++◌, IfOk, OnOk, Some};
ghost use Rattle.std.specs.String.{string_bytes};
ghost use Rattle.ld_base.specs.Text.{name_or_none};
ghost use Rattle.trace_text.specs.Lines.{IsSayable, asked_text, block_text, close_answer_text, close_text, ended_text, granted_text, line_text};
ghost use Rattle.trace_text.specs.Lines.{open_answer_text, open_text, ran_text, slot_event_text, sym_answer_text, sym_text, told_text, unmapped_text};
ghost use Rattle.trace_text.specs.Lines.{unresolved_event_text, unresolved_text, words_text, wrote_text};

use crate::ends::EndText;
use crate::lists::{write_added, write_bytes, write_serials};
use history_event::{CloseAnswer, Event, HartEnd, OpenAnswer, OpenAsk, SymAnswer, SymAsk};
use ld_base::{Choice, DlFault, HartId, Name, Serial};
use std::alloc::{AllocError, Global};
use std::fmt;

/// A name, or `-` where there is none.
#[derive(Clone, Copy)]
struct OrNone<'a>(&'a Option<Name>);

impl fmt::Display for OrNone<'_> {
    ghost output = { λ o. Some (name_or_none o.0.now) };

    fn fmt<W: fmt::Write>(&self, f: &mut fmt::Formatter<W>) -> fmt::Result {
        match self.0 {
            Some(name) => write!(f, "{name}"),
            None => write!(f, "-"),
        }
    }
}

/// A namespace that is asked for.
#[derive(Clone, Copy)]
struct Asked(Option<u64>);

impl fmt::Display for Asked {
    ghost output = { λ a. Some (asked_text a.0) };

    fn fmt<W: fmt::Write>(&self, f: &mut fmt::Formatter<W>) -> fmt::Result {
        match self.0 {
            Some(ns) => write!(f, "{ns}"),
            None => write!(f, "new"),
        }
    }
}

/// What a slot is to get.
#[derive(Clone, Copy)]
struct Granted(Choice, u64);

impl fmt::Display for Granted {
    ghost output = { λ g. Some (granted_text g.0 g.1) };

    fn fmt<W: fmt::Write>(&self, f: &mut fmt::Formatter<W>) -> fmt::Result {
        let value = self.1;
        match self.0 {
            Choice::Def(serial, index) => {
                let serial = serial.number();
                write!(f, "{serial}.{index} 0x{value:x}")
            }
            Choice::WeakZero => write!(f, "weak 0x{value:x}"),
            Choice::Missing => write!(f, "missing"),
        }
    }
}

/// Why a slot gets nothing.
#[derive(Clone, Copy)]
struct Refused(Choice);

impl fmt::Display for Refused {
    ghost output = { λ r. Some (unresolved_text r.0) };

    fn fmt<W: fmt::Write>(&self, f: &mut fmt::Formatter<W>) -> fmt::Result {
        match self.0 {
            Choice::Def(serial, index) => {
                let serial = serial.number();
                write!(f, "not-code {serial}.{index}")
            }
            Choice::WeakZero => write!(f, "weak"),
            Choice::Missing => write!(f, "missing"),
        }
    }
}

/// The line of an event, with its line feed.
///
/// # Errors
///
/// Want of memory.
pub fn event_text(alloc: Global, event: &Event) -> Result<Vec<u8>, AllocError>
    requires { IsSayable event.now }
    ensures { IfOk result (λ line. line.items ≡ line_text event.now) }
{
    let mut text = String::new(alloc);
    write_event(&mut text, event)?;
    Ok(text.into_bytes())
}

/// Writes the line of an event, with its line feed, behind a text.
///
/// # Errors
///
/// Want of memory. A part of the line may have been written then.
pub fn write_event(text: &mut String, event: &Event) -> Result<(), AllocError>
    requires { IsSayable event.now }
    ensures { OnOk result (string_bytes text.new ≡ string_bytes text.old ++ line_text event.now) }
{
    write_words(text, event)?;
    writeln!(text)
}

/// Writes an event without its line feed.
#[tactic(auto, unfolding(crate::specs::Lines::words_text))]
fn write_words(text: &mut String, event: &Event) -> Result<(), AllocError>
    ensures { OnOk result (string_bytes text.new ≡ string_bytes text.old ++ words_text event.now) }
{
    match event {
        Event::Open { hart, ask, answer } => write_open(text, *hart, ask, answer),
        Event::Close {
            hart,
            handle,
            answer,
        } => write_close(text, *hart, *handle, answer),
        Event::Unmapped { hart, set } => write_unmapped(text, *hart, set.as_slice()),
        Event::Grant { .. } | Event::Bound { .. } | Event::Lost { .. } | Event::Unresolved { .. } =>
            write_of_slot(text, event),
        Event::Sym { hart, ask, answer } => write_sym(text, *hart, ask, answer),
        Event::Tls {
            hart,
            owner,
            address,
        } => write_block(text, *hart, *owner, *address),
        Event::Init { hart, object } => write_ran(text, "init", *hart, *object),
        Event::Fini { hart, object } => write_ran(text, "fini", *hart, *object),
        Event::Wrote { hart, bytes } => write_wrote(text, *hart, bytes.as_slice()),
        Event::Told { hart, fault } => write_told(text, *hart, fault),
        Event::Ended { hart, end } => write_ended(text, *hart, *end),
    }
}

/// Writes an event that is of a slot, and nothing of any other.
fn write_of_slot(text: &mut String, event: &Event) -> Result<(), AllocError>
    ensures { OnOk result (string_bytes text.new ≡ string_bytes text.old ++ slot_event_text event.now) }
{
    match event {
        Event::Grant {
            grant,
            hart,
            owner,
            slot,
            choice,
            value,
        } => {
            let (grant, hart, owner) = (grant.number(), hart.number(), owner.number());
            let granted = Granted(*choice, *value);
            write!(
                text,
                "grant g={grant} h={hart} o={owner} slot={slot} -> {granted}"
            )
        }
        Event::Bound { grant } => {
            let grant = grant.number();
            write!(text, "bound g={grant}")
        }
        Event::Lost { grant, saw } => {
            let grant = grant.number();
            write!(text, "lost g={grant} saw=0x{saw:x}")
        }
        Event::Unresolved {
            hart,
            owner,
            slot,
            choice,
        } => write_unresolved(text, *hart, *owner, *slot, *choice),
        _ => Ok(()),
    }
}

/// Writes that a slot gets nothing.
fn write_unresolved(
    text: &mut String,
    hart: HartId,
    owner: Serial,
    slot: u32,
    choice: Choice,
) -> Result<(), AllocError>
    ensures { OnOk result (string_bytes text.new ≡ string_bytes text.old ++ unresolved_event_text hart owner slot choice) }
{
    let (hart, owner) = (hart.number(), owner.number());
    let refused = Refused(choice);
    write!(text, "unresolved h={hart} o={owner} slot={slot} {refused}")
}

/// Writes that a hart got a block of thread-local storage.
fn write_block(
    text: &mut String,
    hart: HartId,
    owner: Serial,
    address: u64,
) -> Result<(), AllocError>
    ensures { OnOk result (string_bytes text.new ≡ string_bytes text.old ++ block_text hart owner address) }
{
    let (hart, owner) = (hart.number(), owner.number());
    write!(text, "tls h={hart} o={owner} 0x{address:x}")
}

/// Writes that a hart ran an object's constructors or destructors.
fn write_ran(text: &mut String, which: &str, hart: HartId, object: Serial) -> Result<(), AllocError>
    ensures { OnOk result (string_bytes text.new ≡ string_bytes text.old ++ ran_text which.now hart object) }
{
    let (hart, object) = (hart.number(), object.number());
    write!(text, "{which} h={hart} o={object}")
}

/// Writes what a hart wrote.
fn write_wrote(text: &mut String, hart: HartId, bytes: &[u8]) -> Result<(), AllocError>
    ensures { OnOk result (string_bytes text.new ≡ string_bytes text.old ++ wrote_text hart bytes.now) }
{
    let (hart, count) = (hart.number(), bytes.len());
    write!(text, "wrote h={hart} n={count} ")?;
    write_bytes(text, bytes)
}

/// Writes how a hart ended.
fn write_ended(text: &mut String, hart: HartId, end: HartEnd) -> Result<(), AllocError>
    ensures { OnOk result (string_bytes text.new ≡ string_bytes text.old ++ ended_text hart end) }
{
    let hart = hart.number();
    let end = EndText(end);
    write!(text, "ended h={hart} {end}")
}

/// Writes an opening.
#[tactic(auto, unfolding(crate::specs::Lines::open_text))]
fn write_open(
    text: &mut String,
    hart: HartId,
    ask: &OpenAsk,
    answer: &OpenAnswer,
) -> Result<(), AllocError>
    ensures { OnOk result (string_bytes text.new ≡ string_bytes text.old ++ open_text hart ask.now answer.now) }
{
    let hart = hart.number();
    let ns = Asked(ask.ns);
    let name = OrNone(&ask.name);
    let flags = ask.flags;
    write!(text, "open h={hart} ns={ns} name={name} flags=0x{flags:x} ")?;
    write_open_answer(text, answer)
}

fn write_open_answer(text: &mut String, answer: &OpenAnswer) -> Result<(), AllocError>
    ensures { OnOk result (string_bytes text.new ≡ string_bytes text.old ++ open_answer_text answer.now) }
{
    match answer {
        OpenAnswer::Done {
            ns,
            root,
            added,
            ranges: _,
        } => {
            let (ns, root) = (ns.number(), root.number());
            write!(text, "ok in={ns} root={root} new=")?;
            write_added(text, added.as_slice())
        }
        OpenAnswer::Absent => write!(text, "absent"),
        OpenAnswer::Refused(fault) => write!(text, "no {fault}"),
    }
}

/// Writes a closing.
fn write_close(
    text: &mut String,
    hart: HartId,
    handle: u64,
    answer: &CloseAnswer,
) -> Result<(), AllocError>
    ensures { OnOk result (string_bytes text.new ≡ string_bytes text.old ++ close_text hart handle answer.now) }
{
    let hart = hart.number();
    write!(text, "close h={hart} handle=0x{handle:x} ")?;
    write_close_answer(text, answer)
}

fn write_close_answer(text: &mut String, answer: &CloseAnswer) -> Result<(), AllocError>
    ensures { OnOk result (string_bytes text.new ≡ string_bytes text.old ++ close_answer_text answer.now) }
{
    match answer {
        CloseAnswer::Done(dying) => {
            write!(text, "ok dying=")?;
            write_serials(text, dying.as_slice())
        }
        CloseAnswer::Refused(fault) => write!(text, "no {fault}"),
    }
}

/// Writes an unmapping.
fn write_unmapped(text: &mut String, hart: HartId, set: &[Serial]) -> Result<(), AllocError>
    ensures { OnOk result (string_bytes text.new ≡ string_bytes text.old ++ unmapped_text hart set.now) }
{
    let hart = hart.number();
    write!(text, "unmapped h={hart} set=")?;
    write_serials(text, set)
}

/// Writes a look-up.
#[tactic(auto, unfolding(crate::specs::Lines::sym_text))]
fn write_sym(
    text: &mut String,
    hart: HartId,
    ask: &SymAsk,
    answer: &SymAnswer,
) -> Result<(), AllocError>
    ensures { OnOk result (string_bytes text.new ≡ string_bytes text.old ++ sym_text hart ask.now answer.now) }
{
    let (hart, ns) = (hart.number(), ask.ns.number());
    let handle = ask.handle;
    let name = &ask.name;
    let version = OrNone(&ask.version);
    write!(
        text,
        "sym h={hart} ns={ns} handle=0x{handle:x} name={name} ver={version} "
    )?;
    write_sym_answer(text, answer)
}

fn write_sym_answer(text: &mut String, answer: &SymAnswer) -> Result<(), AllocError>
    ensures { OnOk result (string_bytes text.new ≡ string_bytes text.old ++ sym_answer_text answer.now) }
{
    match answer {
        SymAnswer::Found(serial, index, address) => {
            let serial = serial.number();
            write!(text, "ok {serial}.{index} 0x{address:x}")
        }
        SymAnswer::Refused(fault) => write!(text, "no {fault}"),
    }
}

/// Writes what a hart was told.
fn write_told(text: &mut String, hart: HartId, fault: &Option<DlFault>) -> Result<(), AllocError>
    ensures { OnOk result (string_bytes text.new ≡ string_bytes text.old ++ told_text hart fault.now) }
{
    let hart = hart.number();
    match fault {
        Some(fault) => write!(text, "told h={hart} {fault}"),
        None => write!(text, "told h={hart} -"),
    }
}
