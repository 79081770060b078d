//! How names are written in lines of text.

ghost use Rattle.std.specs.Prelude.{◌≡◌, ◌<◌, Some, IfSome, flat_map};
ghost use Rattle.std.specs.Fmt.{WritesOnOk};
ghost use Rattle.std.specs.List.{list_all};
ghost use Rattle.ld_base.specs.Text.{hex_digit, byte_text, is_plain, name_text, name_or_none};
ghost use Rattle.ld_base.specs.FaultText.{fault_text};

use crate::{DlFault, Name, NotAccepted};
use std::fmt;

/// A byte of a name.
#[derive(Clone, Copy)]
struct Escaped(u8);

impl Escaped {
    fn is_plain(&self) -> bool
        ensures { result ≡ is_plain self.now.0 }
    {
        let byte = self.0;
        (0x21..=0x7e).contains(&byte) && !matches!(byte, b'%' | b',' | b':' | b'=' | b'@')
    }
}

/// A lower-case hexadecimal digit.
fn hex_digit(number: u8) -> char
    requires { number < 16 }
    ensures { result ≡ hex_digit number }
{
    if number < 10 {
        (b'0' + number) as char
    } else {
        (b'a' - 10 + number) as char
    }
}

impl fmt::Display for Escaped {
    ghost output = { λ e. Some (byte_text e.0) };

    fn fmt<W: fmt::Write>(&self, f: &mut fmt::Formatter<W>) -> fmt::Result {
        let byte = self.0;
        if self.is_plain() {
            let plain = byte as char;
            write!(f, "{plain}")
        } else {
            let high = hex_digit(byte / 16);
            let low = hex_digit(byte % 16);
            write!(f, "%{high}{low}")
        }
    }
}

/// Whether each byte stands for itself.
fn are_plain(bytes: &[u8]) -> bool
    ensures { result ≡ list_all is_plain bytes.now }
{
    bytes.iter().all(|byte| Escaped(*byte).is_plain())
}

/// The bytes as text, where each of them stands for itself.
#[tactic(auto, using(crate::proofs::Plain::plain_bytes))]
fn plain_text(bytes: &[u8]) -> Option<&str>
    ensures { IfSome result (λ text. text.now ≡ flat_map byte_text bytes.now) }
{
    if are_plain(bytes) {
        str::from_utf8(bytes).ok()
    } else {
        None
    }
}

/// Writes the bytes: at once where each stands for itself, as in most names, and else one after another.
fn write_escaped<W: fmt::Write>(f: &mut fmt::Formatter<W>, bytes: &[u8]) -> fmt::Result
    ensures { WritesOnOk W.write_str_gives f.old result (flat_map byte_text bytes.now) f.new }
{
    if let Some(text) = plain_text(bytes) {
        return f.write_str(text);
    }
    for byte in bytes {
        let escaped = Escaped(*byte);
        write!(f, "{escaped}")?;
    }
    Ok(())
}

#[tactic(auto, unfolding(crate::specs::Text::name_text))]
impl fmt::Display for Name {
    ghost output = { λ n. Some (name_text n) };

    fn fmt<W: fmt::Write>(&self, f: &mut fmt::Formatter<W>) -> fmt::Result {
        let bytes = self.as_bytes();
        if bytes.is_empty() {
            write!(f, "%")
        } else if bytes == b"-".as_slice() {
            write!(f, "%2d")
        } else {
            write_escaped(f, bytes)
        }
    }
}

/// A name, or `-` where there is none.
#[derive(Clone, Copy)]
struct OrNone<'a>(&'a Option<Name>);

impl fmt::Display for OrNone<'_> {
    ghost output = { λ o. Some (name_or_none o.0.now) };

    fn fmt<W: fmt::Write>(&self, f: &mut fmt::Formatter<W>) -> fmt::Result {
        match self.0 {
            Some(name) => write!(f, "{name}"),
            None => write!(f, "-"),
        }
    }
}

#[tactic(auto, unfolding(crate::specs::FaultText::fault_text))]
impl fmt::Display for DlFault {
    ghost output = { λ fault. Some (fault_text fault) };

    fn fmt<W: fmt::Write>(&self, f: &mut fmt::Formatter<W>) -> fmt::Result {
        match self {
            DlFault::MissingLibrary(name) => write!(f, "missing-library {name}"),
            DlFault::ReadFault(path) => write!(f, "read-fault {path}"),
            DlFault::NotAccepted(path, broken) => {
                let NotAccepted { rule, number } = *broken;
                write!(f, "not-accepted {path} {rule} {number}")
            }
            DlFault::MissingVersion(object, file, version) => {
                write!(f, "missing-version {object} {file} {version}")
            }
            DlFault::MissingSymbol(object, name, version) => {
                let object = OrNone(object);
                let version = OrNone(version);
                write!(f, "missing-symbol {object} {name} {version}")
            }
            DlFault::NotCode(object, name) => write!(f, "not-code {object} {name}"),
            DlFault::NeedsStaticTls(object) => write!(f, "needs-static-tls {object}"),
            DlFault::AddressSpaceFull(pages) => write!(f, "address-space-full {pages}"),
            DlFault::NamespacesFull => write!(f, "namespaces-full"),
            DlFault::BadHandle(handle) => write!(f, "bad-handle 0x{handle:x}"),
            DlFault::BadFlags(flags) => write!(f, "bad-flags 0x{flags:x}"),
            DlFault::ClosingHere(object) => write!(f, "closing-here {object}"),
            DlFault::NameTooLong => write!(f, "name-too-long"),
            DlFault::BadNamespace(ns) => write!(f, "bad-namespace 0x{ns:x}"),
        }
    }
}
