//! The lines that `bind` writes.

ghost use Rattle.std.specs.Prelude.{◌≡◌, ◌++◌, ◌<◌, flat_map, true, OnOk, Some};
ghost use Rattle.std.specs.Option.{option_copied};
ghost use Rattle.std.specs.String.{string_bytes};
ghost use Rattle.scope_rule.specs.Choose.{want_of};
ghost use Rattle.scope_rule.specs.Relocation.{names_symbols};
ghost use Rattle.sym_lookup.specs.Looking.{want_for};
ghost use Rattle.cli_text.specs.Lines.{object_line, choice_text, version_of, slot_text, slot_lines};

use ld_base::{Choice, Loaded, Name, Symbol, Want};
use std::alloc::AllocError;
use std::fmt;
use sym_lookup::References;

/// A choice, as it is written.
#[derive(Clone, Copy)]
struct Chosen(Choice);

impl fmt::Display for Chosen {
    ghost output = { λ c. Some (choice_text c.0) };

    fn fmt<W: fmt::Write>(&self, f: &mut fmt::Formatter<W>) -> fmt::Result {
        match self.0 {
            Choice::Def(serial, index) => {
                let serial = serial.number();
                write!(f, "{serial}.{index}")
            }
            Choice::WeakZero => write!(f, "weak"),
            Choice::Missing => write!(f, "missing"),
        }
    }
}

/// The version that a reference asks for, if any.
pub(crate) fn version_of(want: &Want) -> Option<&Name>
    ensures { option_copied result ≡ version_of want.now }
{
    match want {
        Want::Version(name) | Want::Dlvsym(name) => Some(name),
        Want::Plain | Want::Dlsym => None,
    }
}

fn write_object(text: &mut String, object: &Loaded) -> Result<(), AllocError>
    ensures { OnOk result (string_bytes text.new ≡ string_bytes text.old ++ object_line object.now) }
{
    let serial = object.serial.number();
    let path = &object.path;
    writeln!(text, "object {serial} {path}")
}

/// Writes a slot, the reference of which asks for this version.
#[tactic(auto, unfolding(crate::specs::Lines::slot_text))]
fn write_slot(
    text: &mut String,
    owner: &Loaded,
    number: usize,
    symbol: &Symbol,
    version: Option<&Name>,
    choice: Choice,
) -> Result<(), AllocError>
    requires { want_of owner.now.object symbol.now ≡ want_for (option_copied version) }
    ensures { OnOk result (string_bytes text.new ≡ string_bytes text.old ++ slot_text owner.now number symbol.now choice) }
{
    let choice = Chosen(choice);
    let serial = owner.serial.number();
    let name = &symbol.name;
    match version {
        Some(version) => writeln!(text, "slot {serial} {number} {name} {version} -> {choice}"),
        None => writeln!(text, "slot {serial} {number} {name} - -> {choice}"),
    }
}

/// Writes the slots of an object, whose references these are, in order.
pub(crate) fn write_each_slot(
    text: &mut String,
    references: &mut References,
    owner: &Loaded,
) -> Result<(), AllocError>
    requires names { names_symbols owner.now.object ≡ true }
    requires owner { references.old.owner ≡ owner.now }
    ensures { OnOk result (string_bytes text.new ≡ string_bytes text.old ++ slot_lines references.old.seen owner.now) }
{
    for (number, slot) in owner.object.plt_relocs.as_slice().iter().enumerate() {
        let symbol = &owner.object.symbols.as_slice()[slot.symbol as usize];
        let choice = references.choice(slot);
        let version = references.version(symbol);
        write_slot(text, owner, number, symbol, version, choice)?;
    }
    Ok(())
}

/// Writes the line of each object.
pub(crate) fn write_objects(text: &mut String, objects: &[Loaded]) -> Result<(), AllocError>
    ensures { OnOk result (string_bytes text.new ≡ string_bytes text.old ++ flat_map object_line objects.now) }
{
    for object in objects {
        write_object(text, object)?;
    }
    Ok(())
}
