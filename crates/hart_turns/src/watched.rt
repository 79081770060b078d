//! A bus whose stores are noticed.

ghost use Rattle.std.specs.Prelude.{◌≡◌, ◌<◌, false};

use rv_hart::{Bus, BusFault};
use rv_isa::AmoOp;

/// A bus, and whether it was asked to store something.
#[derive(Drop)]
pub(crate) struct Watched<'a, B: Bus> {
    bus: &'a mut B,
    stores: bool,
}

impl<'a, B: Bus> Watched<'a, B> {
    /// A bus that wasn't asked yet.
    pub(crate) fn new(bus: &'a mut B) -> Self
        ensures { (result.bus ≡ bus.entry) × (result.stores ≡ false) }
    {
        Watched { bus, stores: false }
    }

    /// Whether it was asked to store something.
    pub(crate) fn stores(&self) -> bool
        ensures { result ≡ self.now.stores }
    {
        self.stores
    }
}

impl<'a, B: Bus> Bus for Watched<'a, B> {
    ghost use Rattle.std.specs.Prelude.{◌≡◌, ◌||◌};
    ghost use Rattle.hart_moves.specs.Moves.{is_store};

    ghost does = { λ before item after. (after.bus.ghost_name ≡ before.bus.ghost_name) × B.does before.bus.now item after.bus.now
        × (after.stores ≡ (is_store item || before.stores)) };

    fn fetch(&mut self, address: u64) -> Result<u32, BusFault> {
        self.bus.fetch(address)
    }

    fn read(&mut self, address: u64, size: u8) -> Result<u64, BusFault> {
        self.bus.read(address, size)
    }

    fn write(&mut self, address: u64, size: u8, value: u64) -> Result<(), BusFault> {
        self.stores = true;
        self.bus.write(address, size, value)
    }

    fn amo(&mut self, address: u64, size: u8, op: AmoOp, value: u64) -> Result<u64, BusFault> {
        self.stores = true;
        self.bus.amo(address, size, op, value)
    }

    fn reserve(&mut self, address: u64, size: u8) -> Result<(u64, u64), BusFault> {
        self.bus.reserve(address, size)
    }

    fn conditional(
        &mut self,
        address: u64,
        size: u8,
        value: u64,
        version: u64,
    ) -> Result<bool, BusFault> {
        self.stores = true;
        self.bus.conditional(address, size, value, version)
    }
}
