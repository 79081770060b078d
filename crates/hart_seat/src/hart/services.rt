//! What is due at the services of the linker's page.

ghost use Rattle.std.specs.Prelude.{◌≡◌};
ghost use Rattle.history_state.specs.State.{State};
ghost use Rattle.hart_moves.specs.Due.{at_service, by_frames, by_name, by_phase};
ghost use Rattle.hart_moves.specs.Harts.{Phase as phase_is};
ghost use Rattle.hart_seat.specs.HartParts.Views.{due_in, naming_of, service_of};
ghost use Rattle.hart_seat.specs.HartParts.Turns.{HasParts};

use crate::LinkedHart;
use crate::hart::{EIGHTS, OWNER};
use crate::hart_parts::{A0, A1, A2, Call, Copying, Due, Naming, RA, Service, service_at};
use history_event::HartEnd;

impl LinkedHart {
    /// A service, or an instruction.
    #[tactic(auto, unfolding(hart_moves::specs::Due::by_phase))]
    pub(crate) fn at_pc(&self) -> Due<'_>
        ensures is { (s : State) → due_in s self.now.hart result ≡ by_phase s self.now.hart phase_is.at_pc }
        ensures parts { HasParts self.now.hart result }
    {
        match service_at(self.registers.pc) {
            Some(service) => self.at_service(service),
            None => Due::Instruction,
        }
    }

    /// The first turn of a service.
    fn at_service(&self, service: Service) -> Due<'_>
        ensures is { (s : State) → due_in s self.now.hart result ≡ at_service s self.now.hart (service_of service) }
        ensures parts { HasParts self.now.hart result }
    {
        let a0 = self.registers.x[A0];
        match service {
            Service::Resolve => Due::Serve(Call::Resolve {
                owner: self.registers.x[OWNER],
                eights: self.registers.x[EIGHTS],
            }),
            Service::Name(naming) => self.by_name(naming),
            Service::Dlclose => Due::Serve(Call::Dlclose(a0)),
            Service::Dlerror => Due::Serve(Call::Dlerror),
            Service::TlsGetAddr if a0 % 8 == 0 => Due::Copy(Copying::Pair, a0, &[]),
            Service::TlsGetAddr => stop(HartEnd::Misaligned(self.registers.pc, a0)),
            Service::NextFunction => self.next_function(),
            Service::Exit => stop(HartEnd::Exit(a0)),
        }
    }

    /// A function that takes a name. dlopen and dlmopen may be passed none.
    fn by_name(&self, naming: Naming) -> Due<'_>
        ensures is { (s : State) → due_in s self.now.hart result ≡ by_name s self.now.hart (naming_of naming) }
        ensures parts { HasParts self.now.hart result }
    {
        let start = self.name_start(naming);
        match naming {
            Naming::Dlopen if start == 0 => Due::Serve(Call::Dlopen {
                caller: self.registers.x[RA],
                name: None,
                flags: self.registers.x[A1],
            }),
            Naming::Dlmopen if start == 0 => Due::Serve(Call::Dlmopen {
                namespace: self.registers.x[A0],
                name: None,
                flags: self.registers.x[A2],
            }),
            _ => Due::Copy(Copying::Name(naming), start, &[]),
        }
    }

    /// The next function that the linker has the hart run.
    fn next_function(&self) -> Due<'_>
        ensures is { (s : State) → due_in s self.now.hart result ≡ by_frames self.now.hart self.now.hart.frames }
        ensures parts { HasParts self.now.hart result }
    {
        match self.frames.last() {
            Some(queue) => queue.due(self.registers.pc),
            None => stop(HartEnd::Break(self.registers.pc)),
        }
    }
}

/// The hart ends by itself.
fn stop<'a>(reason: HartEnd) -> Due<'a>
    ensures { result ≡ Due.Serve (Call.Stop reason) }
{
    Due::Serve(Call::Stop(reason))
}
