//! A copied doubleword.

ghost use Rattle.std.specs.Prelude.{◌≡◌, ℕ, ◌≤◌, [], List, false};
ghost use Rattle.history_state.specs.State.{State};
ghost use Rattle.hart_moves.specs.Copying.{Copy, after_name, before_end, grown, is_copied, with_bytes};
ghost use Rattle.hart_moves.specs.Due.{Due, due, name_start, write_count};
ghost use Rattle.hart_seat.specs.HartParts.Views.{naming_of};
ghost use Rattle.hart_seat.specs.Copied.{begun, copied_phase, more_bytes};
ghost use Rattle.hart_seat.specs.Phases.{IsInside, phase_of};

use crate::LinkedHart;
use crate::hart_parts::{A0, A1, A2, Naming, PassedBytes, Service, first_left, service_at};
use crate::phase::Phase;

/// How many bytes of a name, or of what is written, are copied at most.
const MOST: usize = 256;

/// The bytes of a module's number and an offset.
const PAIR: usize = 16;

impl LinkedHart {
    /// A doubleword was copied.
    pub fn copied(&mut self, word: u64)
        ensures kept { self.new.hart ≡ record self.old.hart { phase = self.new.hart.phase } }
        ensures phase { (s : State) (copy : Copy) (start : ℕ) (bytes : List ℕ) → due s self.old.hart ≡ Due.copy copy start bytes
            → self.new.hart ≡ record self.old.hart { phase = with_bytes copy (grown copy start bytes word) } }
    {
        self.begin_copy();
        self.take_word(word);
    }

    /// Begins to copy what the service at the pc takes.
    fn begin_copy(&mut self)
        ensures { self.new.hart ≡ record self.old.hart { phase = begun self.old.hart.registers.pc self.old.hart.phase } }
    {
        if let Phase::AtPc = self.phase {
            self.bytes.clear();
            self.phase = match service_at(self.registers.pc) {
                Some(Service::Name(naming)) => Phase::Naming(naming),
                Some(Service::TlsGetAddr) => Phase::Pairing,
                _ => Phase::AtPc,
            };
        }
    }

    /// The bytes with one doubleword more.
    fn take_word(&mut self, word: u64)
        ensures { self.new.hart ≡ record self.old.hart { phase = copied_phase self.old.hart.registers self.old.hart.phase word } }
    {
        match self.phase {
            Phase::Naming(naming) => {
                let start = self.name_start(naming);
                if take_name(&mut self.bytes, start, word) {
                    self.version.clear();
                    self.phase = after_name(naming, self.bytes.as_slice());
                }
            }
            Phase::Versioning => {
                if take_name(&mut self.version, self.registers.x[A2], word) {
                    self.phase = Phase::Named(Naming::Dlvsym);
                }
            }
            Phase::Pairing => take_bytes(&mut self.bytes, PAIR, self.registers.x[A0], word),
            Phase::Writing => {
                let count = self.write_count();
                take_bytes(&mut self.bytes, count, self.registers.x[A1], word);
            }
            _ => {}
        }
    }

    /// Where a name begins.
    pub(crate) fn name_start(&self, naming: Naming) -> u64
        ensures { result ≡ name_start (naming_of naming) self.now.hart.registers }
    {
        match naming {
            Naming::Dlopen => self.registers.x[A0],
            _ => self.registers.x[A1],
        }
    }

    /// How many bytes a write takes.
    pub(crate) fn write_count(&self) -> usize
        ensures { result ≡ write_count self.now.hart.registers }
    {
        self.registers.x[A2].min(MOST as u64) as usize
    }
}

/// The bytes of a text that begins at an address, with one doubleword more, and so many bytes at most.
fn take_bytes(bytes: &mut PassedBytes, most: usize, start: u64, word: u64)
    requires { most ≤ 256 }
    ensures { bytes.new ≡ more_bytes most start bytes.old word }
{
    let first = first_left(start, bytes.as_slice());
    bytes.grow(most, first, word);
}

/// A name that begins at an address with one doubleword more, up to where it ends. It answers whether it
/// is copied.
fn take_name(bytes: &mut PassedBytes, start: u64, word: u64) -> bool
    ensures copied { result ≡ is_copied (more_bytes 256 start bytes.old word) }
    ensures left { bytes.new ≡ before_end (more_bytes 256 start bytes.old word) }
    ensures whole { result ≡ false → bytes.new ≡ more_bytes 256 start bytes.old word }
{
    take_bytes(bytes, MOST, start, word);
    bytes.cut()
}

/// What follows a name that is copied: dlvsym's version, but not after one that is too long.
fn after_name(naming: Naming, name: &[u8]) -> Phase
    ensures phase { (message : List ℕ) → phase_of name.now [] message result ≡ after_name (naming_of naming) name.now }
    ensures inside { (message : List ℕ) → IsInside message result }
{
    match naming {
        Naming::Dlvsym if name.len() < MOST => Phase::Versioning,
        _ => Phase::Named(naming),
    }
}
