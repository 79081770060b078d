//! Lists, as they are written.

ghost use Rattle.std.specs.Prelude.{◌≡◌, ◌++◌, ◌∷◌, ◌<◌, OnOk, flat_map};
ghost use Rattle.std.specs.Fmt.{decimal};
ghost use Rattle.std.specs.String.{string_bytes};
ghost use Rattle.ld_base.specs.Text.{hex_digit};
ghost use Rattle.trace_text.specs.Lists.{added_text, byte_digits, new_text, place_text, serials_text};

use ld_base::{Loaded, Serial, TlsPlace};
use std::alloc::AllocError;

/// Writes serials, or `-` where there are none.
pub(crate) fn write_serials(text: &mut String, serials: &[Serial]) -> Result<(), AllocError>
    ensures { OnOk result (string_bytes text.new ≡ string_bytes text.old ++ serials_text serials.now) }
{
    let Some((first, rest)) = serials.split_first() else {
        return write!(text, "-");
    };
    let first = first.number();
    write!(text, "{first}")?;
    write_more_serials(text, rest)
}

/// Writes serials, each behind a comma.
fn write_more_serials(text: &mut String, serials: &[Serial]) -> Result<(), AllocError>
    ensures { OnOk result (string_bytes text.new ≡ string_bytes text.old ++ flat_map (λ s. 44 ∷ decimal s) serials.now) }
{
    for serial in serials {
        let serial = serial.number();
        write!(text, ",{serial}")?;
    }
    Ok(())
}

/// Writes new objects, or `-` where there are none.
pub(crate) fn write_added(text: &mut String, added: &[Loaded]) -> Result<(), AllocError>
    ensures { OnOk result (string_bytes text.new ≡ string_bytes text.old ++ added_text added.now) }
{
    let Some((first, rest)) = added.split_first() else {
        return write!(text, "-");
    };
    write_new(text, first)?;
    write_more_added(text, rest)
}

/// Writes new objects, each behind a comma.
fn write_more_added(text: &mut String, added: &[Loaded]) -> Result<(), AllocError>
    ensures { OnOk result (string_bytes text.new ≡ string_bytes text.old ++ flat_map (λ o. 44 ∷ new_text o) added.now) }
{
    for object in added {
        write!(text, ",")?;
        write_new(text, object)?;
    }
    Ok(())
}

/// Writes a new object.
fn write_new(text: &mut String, object: &Loaded) -> Result<(), AllocError>
    ensures { OnOk result (string_bytes text.new ≡ string_bytes text.old ++ new_text object.now) }
{
    let serial = object.serial.number();
    let path = &object.path;
    let base = object.base;
    write!(text, "{serial}:{path}@0x{base:x}")?;
    write_place(text, object.module)
}

/// Writes a module, if there is one.
fn write_place(text: &mut String, place: Option<TlsPlace>) -> Result<(), AllocError>
    ensures { OnOk result (string_bytes text.new ≡ string_bytes text.old ++ place_text place) }
{
    let Some(TlsPlace { number, offset }) = place else {
        return Ok(());
    };
    match offset {
        None => write!(text, "/{number}"),
        Some(offset) => write!(text, "/{number}+0x{offset:x}"),
    }
}

/// A lower-case hexadecimal digit.
fn hex_digit(number: u8) -> char
    requires { number < 16 }
    ensures { result ≡ hex_digit number }
{
    if number < 10 {
        (b'0' + number) as char
    } else {
        (b'a' - 10 + number) as char
    }
}

/// Writes bytes, each as two digits.
pub(crate) fn write_bytes(text: &mut String, bytes: &[u8]) -> Result<(), AllocError>
    ensures { OnOk result (string_bytes text.new ≡ string_bytes text.old ++ flat_map byte_digits bytes.now) }
{
    for byte in bytes {
        let high = hex_digit(*byte / 16);
        let low = hex_digit(*byte % 16);
        write!(text, "{high}{low}")?;
    }
    Ok(())
}
