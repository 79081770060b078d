//! The services of the linker's own page.

ghost use Rattle.std.specs.Prelude.{◌≡◌};
ghost use Rattle.std.specs.Option.{option_map};
ghost use Rattle.hart_moves.specs.Services.{service_at};
ghost use Rattle.hart_seat.specs.HartParts.Views.{service_of};

use crate::hart_parts::Naming;

/// A service of the linker.
#[derive(Clone, Copy)]
pub enum Service {
    /// A slot is called for the first time.
    Resolve,
    /// A function that takes a name.
    Name(Naming),
    Dlclose,
    Dlerror,
    TlsGetAddr,
    /// The next constructor or destructor.
    NextFunction,
    /// The end of a hart.
    Exit,
}

/// The service at an address.
pub fn service_at(pc: u64) -> Option<Service>
    ensures { option_map service_of result ≡ service_at pc }
{
    match pc {
        0x80_f000 => Some(Service::Resolve),
        0x80_f010 => Some(Service::Name(Naming::Dlopen)),
        0x80_f020 => Some(Service::Name(Naming::Dlmopen)),
        0x80_f030 => Some(Service::Name(Naming::Dlsym)),
        0x80_f040 => Some(Service::Name(Naming::Dlvsym)),
        0x80_f050 => Some(Service::Dlclose),
        0x80_f060 => Some(Service::Dlerror),
        0x80_f070 => Some(Service::TlsGetAddr),
        0x80_f080 => Some(Service::NextFunction),
        0x80_f090 => Some(Service::Exit),
        _ => None,
    }
}
