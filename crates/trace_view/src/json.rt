//! A journal for other programs: JSON, a line an event.

ghost use Rattle.std.specs.Prelude.{◌≡◌, false, ◌++◌, IfOk, OnOk, flat_map, option_map};
ghost use Rattle.std.specs.String.{string_bytes};
ghost use Rattle.serde_json.specs.Data.{put as with_member, string};
ghost use Rattle.serde_json.specs.View.{members_view, view};
ghost use Rattle.serde_json.specs.Written.{compact_text, has_float};
ghost use Rattle.trace_view.specs.Names.{object_name};
ghost use Rattle.trace_view.specs.Json.{address_of, data_of, end_data, grant_of, json_line, json_text, kind_of, number_or_null, object_of};
ghost use Rattle.trace_view.specs.Json.{text_or_null, with_numbers, with_object};
ghost use Rattle.trace_view.specs.Picture.{hart_of};

use crate::journal::{Journal, Step};
use crate::members::Member;
use crate::names::ObjectName;
use crate::picture::hart_of;
use crate::words::write_words;
use history_event::{EventLine, OpenLine, SymAnswer};
use ld_base::{GrantNo, Serial};
use serde_json::{Map, Value};
use std::alloc::{AllocError, Global};

/// The first word of an event's line.
fn kind_of(event: &EventLine) -> &'static str
    ensures { result.now ≡ kind_of event.now }
{
    match event {
        EventLine::Open { .. } => "open",
        EventLine::Close { .. } => "close",
        EventLine::Unmapped { .. } => "unmapped",
        EventLine::Grant { .. } => "grant",
        EventLine::Bound { .. } => "bound",
        EventLine::Lost { .. } => "lost",
        EventLine::Unresolved { .. } => "unresolved",
        EventLine::Sym { .. } => "sym",
        EventLine::Tls { .. } => "tls",
        EventLine::Init { .. } => "init",
        EventLine::Fini { .. } => "fini",
        EventLine::Wrote { .. } => "wrote",
        EventLine::Told { .. } => "told",
        EventLine::Ended { .. } => "ended",
    }
}

/// The object that an event is of: that whose slot, storage or functions it is, or that was opened or
/// found.
fn object_of(step: &Step) -> Option<Serial>
    ensures { result ≡ object_of step.now }
{
    match &step.event {
        EventLine::Grant { owner, .. } => Some(*owner),
        EventLine::Unresolved { owner, .. } => Some(*owner),
        EventLine::Tls { owner, .. } => Some(*owner),
        EventLine::Init { object, .. } | EventLine::Fini { object, .. } => Some(*object),
        EventLine::Open {
            answer: OpenLine::Done { root, .. },
            ..
        } => Some(*root),
        EventLine::Sym {
            answer: SymAnswer::Found(object, _, _),
            ..
        } => Some(*object),
        EventLine::Bound { .. } | EventLine::Lost { .. } => {
            match &step.grant {
                Some(made) => Some(made.owner),
                None => None,
            }
        }
        _ => None,
    }
}

/// The grant that an event makes or settles.
fn grant_of(event: &EventLine) -> Option<GrantNo>
    ensures { result ≡ grant_of event.now }
{
    match event {
        EventLine::Grant { grant, .. } => Some(*grant),
        EventLine::Bound { grant } | EventLine::Lost { grant, .. } => Some(*grant),
        _ => None,
    }
}

/// The address that an event gives.
fn address_of(event: &EventLine) -> Option<u64>
    ensures { result ≡ address_of event.now }
{
    match event {
        EventLine::Grant { value, .. } => Some(*value),
        EventLine::Lost { saw, .. } => Some(*saw),
        EventLine::Tls { address, .. } => Some(*address),
        EventLine::Sym {
            answer: SymAnswer::Found(_, _, address),
            ..
        } => Some(*address),
        _ => None,
    }
}

fn number_or_null(number: Option<u64>) -> Value
    ensures { view result ≡ number_or_null number }
{
    match number {
        Some(number) => Value::from(number),
        None => Value::Null,
    }
}

/// The name of an object, where there is one.
fn name_or_null(
    alloc: Global,
    members: &[Member],
    serial: Option<Serial>,
) -> Result<Value, AllocError>
    ensures { IfOk result (λ v. view v ≡ text_or_null (option_map (object_name members.now) serial)) }
{
    match serial {
        Some(serial) => {
            let name = ObjectName { members, serial };
            Ok(Value::String(format!(in alloc; "{name}")?))
        }
        None => Ok(Value::Null),
    }
}

fn put_number(
    map: &mut Map<String, Value>,
    alloc: Global,
    key: &str,
    number: Option<u64>,
) -> Result<(), AllocError>
    ensures { OnOk result (members_view map.new.entries ≡ with_member key.now (number_or_null number) (members_view map.old.entries)) }
{
    serde_json::put(map, alloc, key, number_or_null(number))
}

fn put_text(
    map: &mut Map<String, Value>,
    alloc: Global,
    key: &str,
    text: &str,
) -> Result<(), AllocError>
    ensures { OnOk result (members_view map.new.entries ≡ with_member key.now (string text.now) (members_view map.old.entries)) }
{
    let value = Value::try_from_str(alloc, text)?;
    serde_json::put(map, alloc, key, value)
}

/// Puts the object that an event is of.
fn put_object(
    map: &mut Map<String, Value>,
    alloc: Global,
    members: &[Member],
    step: &Step,
) -> Result<(), AllocError>
    ensures { OnOk result (members_view map.new.entries ≡ with_object members.now (object_of step.now) (members_view map.old.entries)) }
{
    let serial = object_of(step).map(|serial| serial.number());
    put_number(map, alloc, "serial", serial)?;
    let name = name_or_null(alloc, members, object_of(step))?;
    serde_json::put(map, alloc, "object", name)
}

/// Puts what an event says of its hart, its grant and its address.
fn put_numbers(map: &mut Map<String, Value>, alloc: Global, step: &Step) -> Result<(), AllocError>
    ensures { OnOk result (members_view map.new.entries ≡ with_numbers step.now (members_view map.old.entries)) }
{
    let hart = hart_of(step).map(|hart| u64::from(hart.number()));
    let grant = grant_of(&step.event).map(|grant| grant.number());
    put_number(map, alloc, "row", Some(step.row as u64))?;
    put_number(map, alloc, "hart", hart)?;
    put_number(map, alloc, "grant", grant)?;
    put_number(map, alloc, "address", address_of(&step.event))
}

/// A step as JSON.
#[tactic(auto, unfolding(crate::specs::Json::data_of))]
fn value_of(alloc: Global, members: &[Member], step: &Step) -> Result<Value, AllocError>
    ensures { IfOk result (λ v. view v ≡ data_of members.now step.now) }
{
    let mut words = String::new(alloc);
    write_words(&mut words, members, step)?;
    let mut map = Map::new(alloc);
    put_numbers(&mut map, alloc, step)?;
    put_object(&mut map, alloc, members, step)?;
    put_text(&mut map, alloc, "event", kind_of(&step.event))?;
    put_text(&mut map, alloc, "words", words.as_str())?;
    Ok(Value::Object(map))
}

/// The text of a value whose numbers are whole.
fn text_of(alloc: Global, value: &Value) -> Result<String, AllocError>
    requires { has_float (view value.now) ≡ false }
    ensures { IfOk result (λ text. string_bytes text ≡ compact_text (view value.now)) }
{
    value.to_string(alloc)
}

/// The line of a step, without its line feed.
#[tactic(auto, using(crate::proofs::Whole::data_whole))]
fn line_of(alloc: Global, members: &[Member], step: &Step) -> Result<String, AllocError>
    ensures { IfOk result (λ line. string_bytes line ≡ compact_text (data_of members.now step.now)) }
{
    let value = value_of(alloc, members, step)?;
    text_of(alloc, &value)
}

fn write_lines(
    text: &mut String,
    alloc: Global,
    members: &[Member],
    steps: &[Step],
) -> Result<(), AllocError>
    ensures { OnOk result (string_bytes text.new ≡ string_bytes text.old ++ flat_map (json_line members.now) steps.now) }
{
    for step in steps {
        let line = line_of(alloc, members, step)?;
        writeln!(text, "{line}")?;
    }
    Ok(())
}

/// The run's end as JSON.
#[tactic(auto, unfolding(crate::specs::Json::end_data))]
fn end_value(alloc: Global, words: &str) -> Result<Value, AllocError>
    ensures { IfOk result (λ v. view v ≡ end_data words.now) }
{
    let mut map = Map::new(alloc);
    put_text(&mut map, alloc, "event", "end")?;
    put_text(&mut map, alloc, "words", words)?;
    Ok(Value::Object(map))
}

/// The line of the run's end, without its line feed.
#[tactic(auto, using(crate::proofs::Whole::end_whole))]
fn end_line(alloc: Global, words: &str) -> Result<String, AllocError>
    ensures { IfOk result (λ line. string_bytes line ≡ compact_text (end_data words.now)) }
{
    let value = end_value(alloc, words)?;
    text_of(alloc, &value)
}

/// A journal as lines of JSON: an object an event, and one of the run's end where it is said.
///
/// # Errors
///
/// Want of memory.
pub(crate) fn json_text(
    alloc: Global,
    members: &[Member],
    journal: &Journal,
) -> Result<String, AllocError>
    ensures { IfOk result (λ text. string_bytes text ≡ json_text members.now journal.now.steps (option_map string_bytes journal.now.last)) }
{
    let mut text = String::new(alloc);
    write_lines(&mut text, alloc, members, journal.steps.as_slice())?;
    if let Some(last) = &journal.last {
        let line = end_line(alloc, last.as_str())?;
        writeln!(text, "{line}")?;
    }
    Ok(text)
}
