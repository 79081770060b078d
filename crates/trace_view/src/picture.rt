//! A journal as a picture: a lane a hart, a row an event.

ghost use Rattle.std.specs.Prelude.{◌≡◌, ◌==◌, ◌<◌, ◌^◌, ◌++◌, Some, IfOk, OnOk, flat_map};
ghost use Rattle.std.specs.List.{list_any};
ghost use Rattle.std.specs.Option.{option_copied};
ghost use Rattle.std.specs.String.{string_bytes};
ghost use Rattle.trace_view.specs.Picture.{arc_text, circle_text, circle_x, circle_y, fill_text, ground_text, opening_text, path_bend, path_start};
ghost use Rattle.trace_view.specs.Picture.{size_text, stroke_text, colour_of, curve_text, hart_of, head_text, label_text, lane_for, lane_of};
ghost use Rattle.trace_view.specs.Picture.{lane_text, lanes_of, line_text, mark_text, picture_text, row_text, start_text, with_hart, x_of, xml_byte};
ghost use Rattle.trace_view.specs.Picture.{y_of};

use crate::journal::Step;
use crate::members::Member;
use crate::words::write_words;
use history_event::EventLine;
use ld_base::HartId;
use std::alloc::{AllocError, Global};
use std::fmt;

/// A hart, and how many lanes stand to the left of its own.
#[derive(Clone, Copy)]
struct Lane {
    place: usize,
    hart: HartId,
}

/// A byte of a text, as XML has it in text and in attributes.
#[derive(Clone, Copy)]
struct XmlByte(u8);

impl fmt::Display for XmlByte {
    ghost output = { λ b. Some (xml_byte b.0) };

    fn fmt<W: fmt::Write>(&self, f: &mut fmt::Formatter<W>) -> fmt::Result {
        let byte = self.0;
        match byte {
            b'&' => write!(f, "&amp;"),
            b'<' => write!(f, "&lt;"),
            b'>' => write!(f, "&gt;"),
            b'"' => write!(f, "&quot;"),
            0x20..=0x7e => {
                let plain = byte as char;
                write!(f, "{plain}")
            }
            _ => write!(f, "?"),
        }
    }
}

fn write_xml(text: &mut String, bytes: &[u8]) -> Result<(), AllocError>
    ensures { OnOk result (string_bytes text.new ≡ string_bytes text.old ++ flat_map xml_byte bytes.now) }
{
    for byte in bytes {
        let byte = XmlByte(*byte);
        write!(text, "{byte}")?;
    }
    Ok(())
}

/// The hart of a step: of one that settles a grant the grant's, where it is known.
#[tactic(auto, unfolding(crate::specs::Picture::hart_of))]
pub(crate) fn hart_of(step: &Step) -> Option<HartId>
    ensures { result ≡ hart_of step.now }
{
    match &step.event {
        EventLine::Open { hart, .. }
        | EventLine::Close { hart, .. }
        | EventLine::Unmapped { hart, .. }
        | EventLine::Sym { hart, .. }
        | EventLine::Init { hart, .. }
        | EventLine::Fini { hart, .. }
        | EventLine::Wrote { hart, .. }
        | EventLine::Told { hart, .. }
        | EventLine::Ended { hart, .. } => Some(*hart),
        EventLine::Grant { hart, .. } => Some(*hart),
        EventLine::Unresolved { hart, .. } => Some(*hart),
        EventLine::Tls { hart, .. } => Some(*hart),
        EventLine::Bound { .. } | EventLine::Lost { .. } => {
            match &step.grant {
                Some(made) => Some(made.hart),
                None => None,
            }
        }
    }
}

/// The colour of an event's kind.
fn colour_of(event: &EventLine) -> &'static str
    ensures { result.now ≡ colour_of event.now }
{
    match event {
        EventLine::Open { .. } | EventLine::Close { .. } | EventLine::Unmapped { .. } => "#0550ae",
        EventLine::Grant { .. } => "#bc4c00",
        EventLine::Bound { .. } => "#1a7f37",
        EventLine::Lost { .. } | EventLine::Unresolved { .. } => "#cf222e",
        EventLine::Init { .. } | EventLine::Fini { .. } => "#8250df",
        _ => "#57606a",
    }
}

/// Whether a hart has a lane.
fn has_lane(lanes: &[Lane], hart: HartId) -> bool
    ensures { result ≡ list_any (λ lane. lane.hart == hart) lanes.now }
{
    lanes.iter().any(|lane| lane.hart == hart)
}

/// Gives a hart a lane behind all others, where it has none.
fn add_lane(lanes: &mut Vec<Lane>, hart: Option<HartId>) -> Result<(), AllocError>
    ensures { OnOk result (lanes.new.items ≡ with_hart lanes.old.items hart) }
{
    let Some(hart) = hart else {
        return Ok(());
    };
    if has_lane(lanes.as_slice(), hart) {
        return Ok(());
    }
    let place = lanes.len();
    lanes.push(Lane { place, hart })?;
    Ok(())
}

/// The lanes of a journal: one a hart, in the order of their first events.
fn lanes_of(alloc: Global, steps: &[Step]) -> Result<Vec<Lane>, AllocError>
    ensures { IfOk result (λ lanes. lanes.items ≡ lanes_of steps.now) }
{
    let mut lanes = Vec::new(alloc);
    for step in steps {
        add_lane(&mut lanes, hart_of(step))?;
    }
    Ok(lanes)
}

/// The lane of a hart.
fn lane_for(lanes: &[Lane], hart: HartId) -> Option<&Lane>
    ensures { option_copied result ≡ lane_for lanes.now hart }
{
    lanes.iter().find(|lane| lane.hart == hart)
}

/// How many lanes stand to the left of a hart's own.
#[tactic(auto, unfolding(crate::specs::Picture::lane_of))]
fn lane_of(lanes: &[Lane], hart: Option<HartId>) -> usize
    ensures { result ≡ lane_of lanes.now hart }
{
    let Some(hart) = hart else {
        return 0;
    };
    match lane_for(lanes, hart) {
        Some(lane) => lane.place,
        None => 0,
    }
}

/// Where a lane stands.
fn x_of(place: usize) -> u128
    ensures { result ≡ x_of place }
{
    30 + 24 * place as u128
}

/// Where a row stands.
fn y_of(row: usize) -> u128
    ensures place { result ≡ y_of row }
    ensures bound { result < 2 ^ 100 }
{
    50 + 20 * row as u128
}

/// Writes the number of a hart at the head of its lane.
fn write_head(text: &mut String, x: u128, hart: HartId) -> Result<(), AllocError>
    ensures { OnOk result (string_bytes text.new ≡ string_bytes text.old ++ head_text x hart) }
{
    let hart = hart.number();
    write!(
        text,
        "<text x=\"{x}\" y=\"24\" text-anchor=\"middle\">{hart}</text>"
    )
}

fn write_line(text: &mut String, x: u128, bottom: u128) -> Result<(), AllocError>
    ensures { OnOk result (string_bytes text.new ≡ string_bytes text.old ++ line_text x bottom) }
{
    writeln!(
        text,
        "<line x1=\"{x}\" y1=\"32\" x2=\"{x}\" y2=\"{bottom}\" stroke=\"#d0d7de\"/>"
    )
}

/// Writes the line of a hart from the first row to the last.
fn write_lane(text: &mut String, rows: usize, lane: Lane) -> Result<(), AllocError>
    ensures { OnOk result (string_bytes text.new ≡ string_bytes text.old ++ lane_text rows lane) }
{
    let x = x_of(lane.place);
    write_head(text, x, lane.hart)?;
    write_line(text, x, y_of(rows))
}

fn write_lanes(text: &mut String, rows: usize, lanes: &[Lane]) -> Result<(), AllocError>
    ensures { OnOk result (string_bytes text.new ≡ string_bytes text.old ++ flat_map (lane_text rows) lanes.now) }
{
    for lane in lanes {
        write_lane(text, rows, *lane)?;
    }
    Ok(())
}

/// Writes the arc from the row of a grant to that in which it is settled.
#[tactic(auto, unfolding(crate::specs::Picture::arc_text))]
fn write_arc(text: &mut String, x: u128, step: &Step) -> Result<(), AllocError>
    requires { x < 2 ^ 100 }
    ensures { OnOk result (string_bytes text.new ≡ string_bytes text.old ++ arc_text x step.now) }
{
    let Some(made) = &step.grant else {
        return Ok(());
    };
    let colour = colour_of(&step.event);
    let (from, to) = (y_of(made.row), y_of(step.row));
    let middle = (from + to) / 2;
    let left = x.saturating_sub(16);
    write_curve(text, x, left, from, middle, to, colour)
}

fn write_curve(
    text: &mut String,
    x: u128,
    left: u128,
    from: u128,
    middle: u128,
    to: u128,
    colour: &str,
) -> Result<(), AllocError>
    ensures { OnOk result (string_bytes text.new ≡ string_bytes text.old ++ curve_text x left from middle to colour.now) }
{
    write_path_start(text, x, from)?;
    write_path_bend(text, left, middle, x, to)?;
    write_stroke(text, colour)
}

#[tactic(auto, unfolding(crate::specs::Picture::path_start))]
fn write_path_start(text: &mut String, x: u128, from: u128) -> Result<(), AllocError>
    ensures { OnOk result (string_bytes text.new ≡ string_bytes text.old ++ path_start x from) }
{
    write!(text, "<path d=\"M{x} {from}")
}

#[tactic(auto, unfolding(crate::specs::Picture::path_bend))]
fn write_path_bend(
    text: &mut String,
    left: u128,
    middle: u128,
    x: u128,
    to: u128,
) -> Result<(), AllocError>
    ensures { OnOk result (string_bytes text.new ≡ string_bytes text.old ++ path_bend left middle x to) }
{
    write!(text, "Q{left} {middle} {x} {to}\"")
}

#[tactic(auto, unfolding(crate::specs::Picture::stroke_text))]
fn write_stroke(text: &mut String, colour: &str) -> Result<(), AllocError>
    ensures { OnOk result (string_bytes text.new ≡ string_bytes text.old ++ stroke_text colour.now) }
{
    writeln!(text, " fill=\"none\" stroke=\"{colour}\"/>")
}

/// Writes the row of a step: its mark in the lane of its hart, and its words behind all lanes.
#[tactic(auto, unfolding(crate::specs::Picture::row_text))]
fn write_row(
    text: &mut String,
    alloc: Global,
    members: &[Member],
    lanes: &[Lane],
    step: &Step,
) -> Result<(), AllocError>
    ensures { OnOk result (string_bytes text.new ≡ string_bytes text.old ++ row_text members.now lanes.now step.now) }
{
    let x = x_of(lane_of(lanes, hart_of(step)));
    let y = y_of(step.row);
    let colour = colour_of(&step.event);
    write_arc(text, x, step)?;
    write_mark(text, x, y, colour)?;
    let mut words = String::new(alloc);
    write_words(&mut words, members, step)?;
    write_label(text, x_of(lanes.len()), y + 4, colour, words.as_bytes())
}

fn write_mark(text: &mut String, x: u128, y: u128, colour: &str) -> Result<(), AllocError>
    ensures { OnOk result (string_bytes text.new ≡ string_bytes text.old ++ mark_text x y colour.now) }
{
    write_circle(text, x, y)?;
    write_fill(text, colour)
}

fn write_circle(text: &mut String, x: u128, y: u128) -> Result<(), AllocError>
    ensures { OnOk result (string_bytes text.new ≡ string_bytes text.old ++ circle_text x y) }
{
    write_circle_x(text, x)?;
    write_circle_y(text, y)
}

#[tactic(auto, unfolding(crate::specs::Picture::circle_x))]
fn write_circle_x(text: &mut String, x: u128) -> Result<(), AllocError>
    ensures { OnOk result (string_bytes text.new ≡ string_bytes text.old ++ circle_x x) }
{
    write!(text, "<circle cx=\"{x}\"")
}

#[tactic(auto, unfolding(crate::specs::Picture::circle_y))]
fn write_circle_y(text: &mut String, y: u128) -> Result<(), AllocError>
    ensures { OnOk result (string_bytes text.new ≡ string_bytes text.old ++ circle_y y) }
{
    write!(text, " cy=\"{y}\" r=\"4\"")
}

#[tactic(auto, unfolding(crate::specs::Picture::fill_text))]
fn write_fill(text: &mut String, colour: &str) -> Result<(), AllocError>
    ensures { OnOk result (string_bytes text.new ≡ string_bytes text.old ++ fill_text colour.now) }
{
    write!(text, " fill=\"{colour}\"/>")
}

#[tactic(auto, unfolding(crate::specs::Picture::label_text))]
fn write_label(
    text: &mut String,
    x: u128,
    y: u128,
    colour: &str,
    words: &[u8],
) -> Result<(), AllocError>
    ensures { OnOk result (string_bytes text.new ≡ string_bytes text.old ++ label_text x y colour.now words.now) }
{
    write!(text, "<text x=\"{x}\" y=\"{y}\" fill=\"{colour}\">")?;
    write_xml(text, words)?;
    writeln!(text, "</text>")
}

fn write_rows(
    text: &mut String,
    alloc: Global,
    members: &[Member],
    lanes: &[Lane],
    steps: &[Step],
) -> Result<(), AllocError>
    ensures { OnOk result (string_bytes text.new ≡ string_bytes text.old ++ flat_map (row_text members.now lanes.now) steps.now) }
{
    for step in steps {
        write_row(text, alloc, members, lanes, step)?;
    }
    Ok(())
}

fn write_start(text: &mut String, width: u128, height: u128) -> Result<(), AllocError>
    ensures { OnOk result (string_bytes text.new ≡ string_bytes text.old ++ start_text width height) }
{
    write_opening(text)?;
    write_size(text, width, height)?;
    write_ground(text)
}

#[tactic(auto, unfolding(crate::specs::Picture::opening_text))]
fn write_opening(text: &mut String) -> Result<(), AllocError>
    ensures { OnOk result (string_bytes text.new ≡ string_bytes text.old ++ opening_text) }
{
    write!(text, "<svg xmlns=\"http://www.w3.org/2000/svg\"")
}

#[tactic(auto, unfolding(crate::specs::Picture::size_text))]
fn write_size(text: &mut String, width: u128, height: u128) -> Result<(), AllocError>
    ensures { OnOk result (string_bytes text.new ≡ string_bytes text.old ++ size_text width height) }
{
    write!(text, " width=\"{width}\" height=\"{height}\"")
}

#[tactic(auto, unfolding(crate::specs::Picture::ground_text))]
fn write_ground(text: &mut String) -> Result<(), AllocError>
    ensures { OnOk result (string_bytes text.new ≡ string_bytes text.old ++ ground_text) }
{
    write!(
        text,
        " font-family=\"monospace\" font-size=\"12\">\n<rect width=\"100%\" height=\"100%\" fill=\"#ffffff\"/>\n"
    )
}

/// A journal as a picture in SVG. Beside a grant that was bound or lost stands an arc to the row in which
/// it was.
///
/// # Errors
///
/// Want of memory.
pub(crate) fn picture_text(
    alloc: Global,
    members: &[Member],
    steps: &[Step],
) -> Result<String, AllocError>
    ensures { IfOk result (λ text. string_bytes text ≡ picture_text members.now steps.now) }
{
    let lanes = lanes_of(alloc, steps)?;
    let width = x_of(lanes.len()) + 960;
    let height = y_of(steps.len());
    let mut text = String::new(alloc);
    write_start(&mut text, width, height)?;
    write_lanes(&mut text, steps.len(), lanes.as_slice())?;
    write_rows(&mut text, alloc, members, lanes.as_slice(), steps)?;
    writeln!(text, "</svg>")?;
    Ok(text)
}
