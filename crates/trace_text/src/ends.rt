//! How a hart ended, as it is written.

ghost use Rattle.std.specs.Prelude.{Some};
ghost use Rattle.trace_text.specs.Ends.{end_text};

use history_event::HartEnd;
use std::fmt;

/// The end of a hart, which is written as its words.
#[derive(Clone, Copy)]
pub struct EndText(pub HartEnd);

#[tactic(auto, unfolding(crate::specs::Ends::end_text))]
impl fmt::Display for EndText {
    ghost output = { λ e. Some (end_text e.0) };

    fn fmt<W: fmt::Write>(&self, f: &mut fmt::Formatter<W>) -> fmt::Result {
        match self.0 {
            HartEnd::Exit(code) => write!(f, "exit {code}"),
            HartEnd::FuelOut => write!(f, "fuel"),
            HartEnd::NotMapped(pc, address) => write!(f, "not-mapped 0x{pc:x} 0x{address:x}"),
            HartEnd::SlotStore(pc, address) => write!(f, "slot-store 0x{pc:x} 0x{address:x}"),
            HartEnd::BadInstruction(pc, word) => write!(f, "bad-instruction 0x{pc:x} 0x{word:x}"),
            HartEnd::Misaligned(pc, address) => write!(f, "misaligned 0x{pc:x} 0x{address:x}"),
            HartEnd::Break(pc) => write!(f, "break 0x{pc:x}"),
            HartEnd::BadModule(number) => write!(f, "bad-module {number}"),
            HartEnd::Unloaded(serial) => write!(f, "unloaded 0x{serial:x}"),
            HartEnd::NoSlot(serial, eights) => {
                let serial = serial.number();
                write!(f, "no-slot {serial} 0x{eights:x}")
            }
            HartEnd::Unresolved(serial, slot) => {
                let serial = serial.number();
                write!(f, "unresolved {serial} {slot}")
            }
            HartEnd::NotCode(serial, slot) => {
                let serial = serial.number();
                write!(f, "not-code {serial} {slot}")
            }
            HartEnd::AddressSpaceFull(pages) => write!(f, "address-space-full {pages}"),
            HartEnd::Memory => write!(f, "memory"),
        }
    }
}
