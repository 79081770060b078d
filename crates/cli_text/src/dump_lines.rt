//! What `dump` writes.

ghost use Rattle.std.specs.Prelude.{◌≡◌, ◌++◌, flat_map, OnOk, IfOk, Some};
ghost use Rattle.std.specs.List.{enumerate_from};
ghost use Rattle.std.specs.Option.{option_copied};
ghost use Rattle.std.specs.String.{string_bytes};
ghost use Rattle.ld_base.specs.Text.{name_or_none};
ghost use Rattle.cli_text.specs.DumpLines.{head_line, needed_line, symbol_line, reloc_line, relr_line, plt_line, symbol_lines, dump_text};
ghost use Rattle.scope_lists.specs.VersionPlaces.Places.{places_of};

use ld_base::{Kind, Name, Object, Reloc, Symbol};
use scope_lists::VersionNames;
use std::alloc::{AllocError, Global};
use std::fmt;

/// How long a text may be when a symbol is to follow. Symbols share names of versions, so that those
/// of a file of 8 MiB could ask for more than a GiB.
const MOST_TEXT: usize = 1 << 27;

/// A name, or `-` where there is none.
#[derive(Clone, Copy)]
struct OrNone<'a>(Option<&'a Name>);

impl fmt::Display for OrNone<'_> {
    ghost output = { λ o. Some (name_or_none (option_copied o.0)) };

    fn fmt<W: fmt::Write>(&self, f: &mut fmt::Formatter<W>) -> fmt::Result {
        match self.0 {
            Some(name) => write!(f, "{name}"),
            None => write!(f, "-"),
        }
    }
}

#[tactic(auto, unfolding(crate::specs::DumpLines::head_line))]
fn write_head(text: &mut String, object: &Object) -> Result<(), AllocError>
    ensures { OnOk result (string_bytes text.new ≡ string_bytes text.old ++ head_line object.now) }
{
    let kind = match object.kind {
        Kind::Exec => "exec",
        Kind::Dyn => "dyn",
    };
    let soname = OrNone(object.soname.as_ref());
    writeln!(text, "object {kind} soname={soname}")
}

#[tactic(auto, unfolding(crate::specs::DumpLines::needed_line))]
fn write_needed(text: &mut String, name: &Name) -> Result<(), AllocError>
    ensures { OnOk result (string_bytes text.new ≡ string_bytes text.old ++ needed_line name.now) }
{
    writeln!(text, "needed {name}")
}

fn write_all_needed(text: &mut String, names: &[Name]) -> Result<(), AllocError>
    ensures { OnOk result (string_bytes text.new ≡ string_bytes text.old ++ flat_map needed_line names.now) }
{
    for name in names {
        write_needed(text, name)?;
    }
    Ok(())
}

/// Writes the symbol with an index. A text that is too long is want of memory.
#[tactic(auto, unfolding(crate::specs::DumpLines::symbol_line))]
fn write_symbol(
    text: &mut String,
    object: &Object,
    names: &VersionNames,
    index: usize,
    symbol: &Symbol,
) -> Result<(), AllocError>
    requires { names.now ≡ places_of object.now }
    ensures { OnOk result (string_bytes text.new ≡ string_bytes text.old ++ symbol_line object.now (index, symbol.now)) }
{
    if text.len() > MOST_TEXT {
        return Err(AllocError);
    }
    let name = &symbol.name;
    let version = OrNone(names.get(object, symbol.version_index()));
    let value = symbol.value;
    let defined = if symbol.is_defined() { "def" } else { "undef" };
    writeln!(
        text,
        "symbol {index} {name} {version} 0x{value:x} {defined}"
    )
}

/// Writes the symbols but for the null symbol.
fn write_symbols(text: &mut String, object: &Object, names: &VersionNames) -> Result<(), AllocError>
    requires { names.now ≡ places_of object.now }
    ensures { OnOk result (string_bytes text.new ≡ string_bytes text.old ++ symbol_lines object.now) }
{
    if let [_null, symbols @ ..] = object.symbols.as_slice() {
        for (place, symbol) in symbols.iter().enumerate() {
            write_symbol(text, object, names, place + 1, symbol)?;
        }
    }
    Ok(())
}

#[tactic(auto, unfolding(crate::specs::DumpLines::reloc_line))]
fn write_reloc(text: &mut String, number: usize, reloc: &Reloc) -> Result<(), AllocError>
    ensures { OnOk result (string_bytes text.new ≡ string_bytes text.old ++ reloc_line (number, reloc.now)) }
{
    let Reloc {
        place,
        kind,
        symbol,
        addend,
    } = *reloc;
    writeln!(text, "reloc {number} {kind} 0x{place:x} {symbol} {addend}")
}

fn write_relocs(text: &mut String, relocs: &[Reloc]) -> Result<(), AllocError>
    ensures { OnOk result (string_bytes text.new ≡ string_bytes text.old ++ flat_map reloc_line (enumerate_from 0 relocs.now)) }
{
    for (number, reloc) in relocs.iter().enumerate() {
        write_reloc(text, number, reloc)?;
    }
    Ok(())
}

#[tactic(auto, unfolding(crate::specs::DumpLines::relr_line))]
fn write_relr(text: &mut String, number: usize, place: u64) -> Result<(), AllocError>
    ensures { OnOk result (string_bytes text.new ≡ string_bytes text.old ++ relr_line (number, place)) }
{
    writeln!(text, "relr {number} 0x{place:x}")
}

fn write_all_relr(text: &mut String, places: &[u64]) -> Result<(), AllocError>
    ensures { OnOk result (string_bytes text.new ≡ string_bytes text.old ++ flat_map relr_line (enumerate_from 0 places.now)) }
{
    for (number, place) in places.iter().enumerate() {
        write_relr(text, number, *place)?;
    }
    Ok(())
}

#[tactic(auto, unfolding(crate::specs::DumpLines::plt_line))]
fn write_slot(text: &mut String, number: usize, slot: &Reloc) -> Result<(), AllocError>
    ensures { OnOk result (string_bytes text.new ≡ string_bytes text.old ++ plt_line (number, slot.now)) }
{
    let place = slot.place;
    let symbol = slot.symbol;
    writeln!(text, "slot {number} 0x{place:x} {symbol}")
}

fn write_slots(text: &mut String, slots: &[Reloc]) -> Result<(), AllocError>
    ensures { OnOk result (string_bytes text.new ≡ string_bytes text.old ++ flat_map plt_line (enumerate_from 0 slots.now)) }
{
    for (number, slot) in slots.iter().enumerate() {
        write_slot(text, number, slot)?;
    }
    Ok(())
}

/// The text of an object.
///
/// # Errors
///
/// Want of memory. A text that has more than 128 MiB before another symbol counts as that.
#[tactic(auto, unfolding(crate::specs::DumpLines::dump_text))]
pub fn dump_text(alloc: Global, object: &Object) -> Result<String, AllocError>
    ensures { IfOk result (λ text. string_bytes text ≡ dump_text object.now) }
{
    let names = VersionNames::of(alloc, object)?;
    let mut text = String::new(alloc);
    write_head(&mut text, object)?;
    write_all_needed(&mut text, object.needed.as_slice())?;
    write_symbols(&mut text, object, &names)?;
    write_relocs(&mut text, object.relocs.as_slice())?;
    write_all_relr(&mut text, object.relr.as_slice())?;
    write_slots(&mut text, object.plt_relocs.as_slice())?;
    writeln!(text, "end 0 dumped")?;
    Ok(text)
}
