//! The state of a hart.

ghost use Rattle.std.specs.Prelude.{◌≡◌, slice_index};

use rv_isa::Reg;

/// A reservation: the address and the size of the LR that made it, and the version of the
/// doubleword that the LR found.
#[derive(Clone, Copy, Debug, PartialEq, Eq)]
pub struct Held {
    pub address: u64,
    pub size: u8,
    pub version: u64,
}

/// The registers and the reservation of a hart. x0 reads as 0.
#[derive(Debug, Drop)]
pub struct Hart {
    pub pc: u64,
    pub x: [u64; 32],
    pub held: Option<Held>,
    ghost zero: { slice_index x 0 ≡ 0 },
}

impl Hart {
    ghost use Rattle.std.specs.Prelude.{None};
    ghost use Rattle.rv_hart.specs.Registers.{registers_of, starting, result_in, passed, jumped};

    /// Where a return from a hart's first function leads: the address that ends a hart.
    pub const END: u64 = 0x80_f090;

    /// A hart that starts at `pc` with a stack, a thread pointer and an argument. It returns to
    /// [`Hart::END`] and holds no reservation.
    pub fn new(pc: u64, sp: u64, tp: u64, a0: u64) -> Self
        ensures pc { result.pc ≡ pc }
        ensures registers { result.x ≡ starting sp tp a0 }
        ensures reservation { result.held ≡ None }
    {
        let mut x = [0; 32];
        x[1] = Self::END;
        x[2] = sp;
        x[4] = tp;
        x[10] = a0;
        Hart { pc, x, held: None }
    }

    // What a register holds.
    pub(crate) fn value(&self, register: Reg) -> u64
        ensures { result ≡ slice_index self.now.x register }
    {
        self.x[usize::from(register.number())]
    }

    // Goes on after an instruction that puts a value into a register.
    pub(crate) fn finish(&mut self, register: Reg, value: u64)
        ensures { registers_of self.new ≡ result_in (registers_of self.old) register value }
    {
        if register.number() != 0 {
            self.x[usize::from(register.number())] = value;
        }
        self.pc = self.pc.wrapping_add(4);
    }

    // Goes on after an instruction that puts nothing into a register.
    pub(crate) fn pass(&mut self)
        ensures { registers_of self.new ≡ passed (registers_of self.old) }
    {
        self.pc = self.pc.wrapping_add(4);
    }

    // Goes on at a target, with the address of the next instruction in a register.
    pub(crate) fn jump(&mut self, register: Reg, target: u64)
        ensures { registers_of self.new ≡ jumped (registers_of self.old) register target }
    {
        let next = self.pc.wrapping_add(4);
        self.finish(register, next);
        self.pc = target;
    }
}
