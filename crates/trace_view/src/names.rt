//! How objects, symbols and bytes are named.

ghost use Rattle.std.specs.Prelude.{◌≡◌, ◌<◌, ◌∷◌, Some, flat_map, option_map};
ghost use Rattle.std.specs.Fmt.{WritesOnOk};
ghost use Rattle.ld_base.specs.Text.{hex_digit};
ghost use Rattle.trace_view.specs.Names.{choice_name, handle_name, linker_name, new_name, object_name, objects_text, news_text, quoted, quoted_byte};
ghost use Rattle.trace_view.specs.Names.{slot_name, symbol_name};

use crate::members::{Member, member_of, slot_symbol_of, symbol_of};
use history_event::NewLine;
use ld_base::{Choice, Serial};
use std::fmt;

/// What a function of the linker's own object is called.
fn linker_name(index: u32) -> Option<&'static str>
    ensures { option_map (λ name. name.now) result ≡ linker_name index }
{
    match index {
        1 => Some("dlopen"),
        2 => Some("dlmopen"),
        3 => Some("dlsym"),
        4 => Some("dlvsym"),
        5 => Some("dlclose"),
        6 => Some("dlerror"),
        7 => Some("__tls_get_addr"),
        _ => None,
    }
}

/// An object by its path. The linker's own is `ldso`.
#[derive(Clone, Copy)]
pub(crate) struct ObjectName<'a> {
    pub members: &'a [Member],
    pub serial: Serial,
}

#[tactic(auto, unfolding(crate::specs::Names::object_name))]
impl fmt::Display for ObjectName<'_> {
    ghost output = { λ o. Some (object_name o.members.now o.serial) };

    fn fmt<W: fmt::Write>(&self, f: &mut fmt::Formatter<W>) -> fmt::Result {
        if self.serial == Serial::LINKER {
            return write!(f, "ldso");
        }
        match member_of(self.members, self.serial) {
            Some(member) => {
                let path = &member.path;
                write!(f, "{path}")
            }
            None => {
                let serial = self.serial.number();
                write!(f, "object {serial}")
            }
        }
    }
}

/// A handle: the object that was opened, or RTLD_DEFAULT.
#[derive(Clone, Copy)]
pub(crate) struct HandleName<'a> {
    pub members: &'a [Member],
    pub handle: u64,
}

impl fmt::Display for HandleName<'_> {
    ghost output = { λ h. Some (handle_name h.members.now h.handle) };

    fn fmt<W: fmt::Write>(&self, f: &mut fmt::Formatter<W>) -> fmt::Result {
        if self.handle == 0 {
            return write!(f, "RTLD_DEFAULT");
        }
        let object = ObjectName {
            members: self.members,
            serial: Serial::new(self.handle),
        };
        write!(f, "{object}")
    }
}

/// A symbol by its name where its object's file was found, and else by its index.
#[derive(Clone, Copy)]
pub(crate) struct SymbolName<'a> {
    pub members: &'a [Member],
    pub serial: Serial,
    pub index: u32,
}

#[tactic(auto, unfolding(crate::specs::Names::symbol_name))]
impl fmt::Display for SymbolName<'_> {
    ghost output = { λ s. Some (symbol_name s.members.now s.serial s.index) };

    fn fmt<W: fmt::Write>(&self, f: &mut fmt::Formatter<W>) -> fmt::Result {
        let index = self.index;
        if self.serial == Serial::LINKER {
            return match linker_name(index) {
                Some(name) => write!(f, "{name}"),
                None => write!(f, "symbol {index}"),
            };
        }
        match symbol_of(self.members, self.serial, index) {
            Some(name) => write!(f, "{name}"),
            None => write!(f, "symbol {index}"),
        }
    }
}

/// A slot by the name of its symbol where its object's file was found, and else by its number.
#[derive(Clone, Copy)]
pub(crate) struct SlotName<'a> {
    pub members: &'a [Member],
    pub owner: Serial,
    pub slot: u32,
}

#[tactic(auto, unfolding(crate::specs::Names::slot_name))]
impl fmt::Display for SlotName<'_> {
    ghost output = { λ s. Some (slot_name s.members.now s.owner s.slot) };

    fn fmt<W: fmt::Write>(&self, f: &mut fmt::Formatter<W>) -> fmt::Result {
        let slot = self.slot;
        match slot_symbol_of(self.members, self.owner, slot) {
            Some(index) => {
                let symbol = SymbolName {
                    members: self.members,
                    serial: self.owner,
                    index,
                };
                write!(f, "{symbol}")
            }
            None => write!(f, "slot {slot}"),
        }
    }
}

/// What a search chose.
#[derive(Clone, Copy)]
pub(crate) struct ChoiceName<'a> {
    pub members: &'a [Member],
    pub choice: Choice,
}

impl fmt::Display for ChoiceName<'_> {
    ghost output = { λ c. Some (choice_name c.members.now c.choice) };

    fn fmt<W: fmt::Write>(&self, f: &mut fmt::Formatter<W>) -> fmt::Result {
        match self.choice {
            Choice::Def(serial, index) => {
                let members = self.members;
                let symbol = SymbolName {
                    members,
                    serial,
                    index,
                };
                let object = ObjectName { members, serial };
                write!(f, "{symbol} of {object}")
            }
            Choice::WeakZero | Choice::Missing => write!(f, "no definition"),
        }
    }
}

/// Objects by their paths.
#[derive(Clone, Copy)]
pub(crate) struct ObjectNames<'a> {
    pub members: &'a [Member],
    pub serials: &'a [Serial],
}

impl fmt::Display for ObjectNames<'_> {
    ghost output = { λ o. Some (objects_text o.members.now o.serials.now) };

    fn fmt<W: fmt::Write>(&self, f: &mut fmt::Formatter<W>) -> fmt::Result {
        let members = self.members;
        let Some((first, rest)) = self.serials.split_first() else {
            return write!(f, "nothing");
        };
        let first = ObjectName {
            members,
            serial: *first,
        };
        write!(f, "{first}")?;
        write_more_objects(f, members, rest)
    }
}

fn write_more_objects<W: fmt::Write>(
    f: &mut fmt::Formatter<W>,
    members: &[Member],
    serials: &[Serial],
) -> fmt::Result
    ensures { WritesOnOk W.write_str_gives f.old result (flat_map (λ s. 44 ∷ 32 ∷ object_name members.now s) serials.now) f.new }
{
    for serial in serials {
        let object = ObjectName {
            members,
            serial: *serial,
        };
        write!(f, ", {object}")?;
    }
    Ok(())
}

/// New objects by their paths, with their addresses.
#[derive(Clone, Copy)]
pub(crate) struct NewNames<'a>(pub &'a [NewLine]);

impl fmt::Display for NewNames<'_> {
    ghost output = { λ n. Some (news_text n.0.now) };

    fn fmt<W: fmt::Write>(&self, f: &mut fmt::Formatter<W>) -> fmt::Result {
        let Some((first, rest)) = self.0.split_first() else {
            return write!(f, "nothing new");
        };
        let path = &first.path;
        let base = first.base;
        write!(f, "{path} at 0x{base:x}")?;
        write_more_news(f, rest)
    }
}

fn write_more_news<W: fmt::Write>(f: &mut fmt::Formatter<W>, news: &[NewLine]) -> fmt::Result
    ensures { WritesOnOk W.write_str_gives f.old result (flat_map (λ n. 44 ∷ 32 ∷ new_name n) news.now) f.new }
{
    for new in news {
        let path = &new.path;
        let base = new.base;
        write!(f, ", {path} at 0x{base:x}")?;
    }
    Ok(())
}

/// A lower-case hexadecimal digit.
fn hex_digit(number: u8) -> char
    requires { number < 16 }
    ensures { result ≡ hex_digit number }
{
    if number < 10 {
        (b'0' + number) as char
    } else {
        (b'a' - 10 + number) as char
    }
}

/// A byte as a literal of C has it.
#[derive(Clone, Copy)]
struct QuotedByte(u8);

impl fmt::Display for QuotedByte {
    ghost output = { λ b. Some (quoted_byte b.0) };

    fn fmt<W: fmt::Write>(&self, f: &mut fmt::Formatter<W>) -> fmt::Result {
        let byte = self.0;
        match byte {
            b'\n' => write!(f, "\\n"),
            b'"' => write!(f, "\\\""),
            b'\\' => write!(f, "\\\\"),
            0x20..=0x7e => {
                let plain = byte as char;
                write!(f, "{plain}")
            }
            _ => {
                let high = hex_digit(byte / 16);
                let low = hex_digit(byte % 16);
                write!(f, "\\x{high}{low}")
            }
        }
    }
}

/// Bytes as a literal of C has them.
#[derive(Clone, Copy)]
pub(crate) struct Quoted<'a>(pub &'a [u8]);

impl fmt::Display for Quoted<'_> {
    ghost output = { λ q. Some (quoted q.0.now) };

    fn fmt<W: fmt::Write>(&self, f: &mut fmt::Formatter<W>) -> fmt::Result {
        write!(f, "\"")?;
        write_quoted(f, self.0)?;
        write!(f, "\"")
    }
}

fn write_quoted<W: fmt::Write>(f: &mut fmt::Formatter<W>, bytes: &[u8]) -> fmt::Result
    ensures { WritesOnOk W.write_str_gives f.old result (flat_map quoted_byte bytes.now) f.new }
{
    for byte in bytes {
        let quoted = QuotedByte(*byte);
        write!(f, "{quoted}")?;
    }
    Ok(())
}
