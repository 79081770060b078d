//! What a hart's next turn is.

ghost use Rattle.std.specs.Prelude.{◌≡◌, ◌≢◌, ℕ, ◌+◌, ◌-◌, ◌<◌, ◌≤◌, List, None};
ghost use Rattle.history_state.specs.State.{State};
ghost use Rattle.hart_moves.specs.Due.{back, by_phase, call_of, due, within_fuel};
ghost use Rattle.hart_moves.specs.Due.{Due as is_due};
ghost use Rattle.hart_moves.specs.Harts.{Phase as phase_is};
ghost use Rattle.hart_moves.specs.Services.{service_at};
ghost use Rattle.hart_seat.specs.HartParts.Views.{due_in, naming_of};
ghost use Rattle.hart_seat.specs.HartParts.Turns.{HasFuel, HasName, HasParts, is_at_pc};
ghost use Rattle.rv_hart.specs.Registers.{Registers};

use crate::LinkedHart;
use crate::hart_parts::{A0, A1, A2, Call, Copying, Due, Naming, RA, number_at};
use crate::phase::{Phase, Resolving};

/// The bytes of a module's number and an offset.
const PAIR: usize = 16;

impl LinkedHart {
    /// What the hart's next turn is, whatever the linker's state.
    #[inline(always)]
    #[tactic(auto, unfolding(hart_moves::specs::Due::due))]
    pub fn due(&self) -> Due<'_>
        ensures is { (s : State) → due_in s self.now.hart result ≡ due s self.now.hart }
        ensures fuel { HasFuel self.now.hart result }
        ensures parts { HasParts self.now.hart result }
    {
        if self.end.is_some() {
            return Due::Nothing;
        }
        match self.resolving {
            Resolving::ToExchange(offered) => Due::Exchange(offered),
            Resolving::ToFinish(offered, found) => Due::Finish(offered, found),
            Resolving::Idle | Resolving::ToSettle(..) => self.within_fuel(),
        }
    }

    /// How many of the hart's next turns are instructions, up to the first that finds its pc at a service.
    pub fn instructions_left(&self) -> u64
        ensures instructions { (s : State) (r : Registers) (k : ℕ) → k < result → service_at r.pc ≡ None
            → due s (record self.now.hart { registers = r; turns = self.now.hart.turns + k }) ≡ is_due.instruction }
        ensures no_more { (s : State) (r : Registers)
            → due s (record self.now.hart { registers = r; turns = self.now.hart.turns + result }) ≢ is_due.instruction }
        ensures fuel { result ≤ self.now.hart.fuel - self.now.hart.turns }
    {
        if self.is_at_pc() {
            self.fuel.saturating_sub(self.turns)
        } else {
            0
        }
    }

    /// Whether the hart runs, has no turn of a granted slot to take, and passes nothing to the linker.
    fn is_at_pc(&self) -> bool
        ensures { result ≡ is_at_pc self.now.hart }
    {
        if self.end.is_some() {
            return false;
        }
        match self.resolving {
            Resolving::ToExchange(_) | Resolving::ToFinish(..) => false,
            Resolving::Idle | Resolving::ToSettle(..) => matches!(self.phase, Phase::AtPc),
        }
    }

    /// A hart whose turns have reached its fuel takes no other.
    fn within_fuel(&self) -> Due<'_>
        ensures is { (s : State) → due_in s self.now.hart result ≡ within_fuel self.now.hart (by_phase s self.now.hart self.now.hart.phase) }
        ensures fuel { HasFuel self.now.hart result }
        ensures parts { HasParts self.now.hart result }
    {
        if self.turns < self.fuel {
            self.by_phase()
        } else {
            Due::FuelOut
        }
    }

    /// By what it has of what it passes.
    #[tactic(auto, unfolding(hart_moves::specs::Due::by_phase))]
    fn by_phase(&self) -> Due<'_>
        ensures is { (s : State) → due_in s self.now.hart result ≡ by_phase s self.now.hart self.now.hart.phase }
        ensures parts { HasParts self.now.hart result }
    {
        match self.phase {
            Phase::AtPc => self.at_pc(),
            Phase::Naming(naming) => {
                Due::Copy(
                    Copying::Name(naming),
                    self.name_start(naming),
                    self.bytes.as_slice(),
                )
            }
            Phase::Versioning => Due::Copy(
                Copying::Version(self.bytes.as_slice()),
                self.registers.x[A2],
                self.version.as_slice(),
            ),
            Phase::Named(naming) => Due::Serve(self.named_call(naming)),
            Phase::Waiting(naming, shown) => Due::Wait(shown, self.named_call(naming)),
            Phase::Pairing => self.pairing(),
            Phase::Writing => self.writing(),
            Phase::Storing { text, stored } => Due::Store {
                text,
                stored,
                word: number_at(self.message.as_bytes(), (8 * stored) as usize),
            },
        }
    }

    /// The call of a function that takes names, once they are copied.
    #[tactic(auto, unfolding(hart_moves::specs::Due::call_of))]
    fn named_call(&self, naming: Naming) -> Call<'_>
        ensures { (s : State) (name version : List ℕ) → HasName self.now.hart.phase (naming_of naming) name version
            → due_in s self.now.hart (Due.Serve result) ≡
            is_due.serve (call_of s self.now.hart.registers (naming_of naming) name version) (back self.now.hart) }
    {
        let caller = self.registers.x[RA];
        let (a0, a1, a2) = (
            self.registers.x[A0],
            self.registers.x[A1],
            self.registers.x[A2],
        );
        let name = self.bytes.as_slice();
        match naming {
            Naming::Dlopen => Call::Dlopen {
                caller,
                name: Some(name),
                flags: a1,
            },
            Naming::Dlmopen => Call::Dlmopen {
                namespace: a0,
                name: Some(name),
                flags: a2,
            },
            Naming::Dlsym => Call::Dlsym {
                caller,
                handle: a0,
                name,
            },
            Naming::Dlvsym => {
                let version = self.version.as_slice();
                Call::Dlvsym {
                    caller,
                    handle: a0,
                    name,
                    version,
                }
            }
        }
    }

    /// A module's number and an offset.
    #[tactic(auto, unfolding(hart_moves::specs::Due::by_phase, hart_moves::specs::Copying::number_in))]
    fn pairing(&self) -> Due<'_>
        ensures is { (s : State) (bytes : List ℕ) → self.now.hart.phase ≡ phase_is.pairing bytes
            → due_in s self.now.hart result ≡ by_phase s self.now.hart (phase_is.pairing bytes) }
        ensures parts { HasParts self.now.hart result }
    {
        let bytes = self.bytes.as_slice();
        if bytes.len() < PAIR {
            return Due::Copy(Copying::Pair, self.registers.x[A0], bytes);
        }
        Due::Serve(Call::Locate {
            number: number_at(bytes, 0),
            offset: number_at(bytes, 8),
        })
    }

    /// Bytes to write.
    #[tactic(auto, unfolding(hart_moves::specs::Due::by_phase))]
    fn writing(&self) -> Due<'_>
        ensures is { (s : State) (bytes : List ℕ) → self.now.hart.phase ≡ phase_is.writing bytes
            → due_in s self.now.hart result ≡ by_phase s self.now.hart (phase_is.writing bytes) }
        ensures parts { HasParts self.now.hart result }
    {
        let bytes = self.bytes.as_slice();
        let count = self.write_count();
        if bytes.len() < count {
            return Due::Copy(Copying::Text(count as u64), self.registers.x[A1], bytes);
        }
        Due::Serve(Call::Write(bytes))
    }
}
