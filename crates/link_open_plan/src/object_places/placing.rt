//! Places of new objects.

ghost use Rattle.std.specs.Prelude.{◌≡◌, map, Contains, IfErr, IfOk};
ghost use Rattle.ld_base.specs.declared.linking.Loaded.{Loaded as loaded};
ghost use Rattle.history_state.specs.Accepted.{IsAccepted};
ghost use Rattle.history_state.specs.Opening.{unplaced};
ghost use Rattle.link_open_plan.specs.declared.object_places.placing.PlaceFault.TheVariants.{Full, Memory};
ghost use Rattle.link_open_plan.specs.ObjectPlaces.Placing.{HavePlaces, IsUnplaced};

use crate::object_places::modules::give_modules;
use crate::object_places::ranges::{reserve_all, set_bases};
use crate::object_places::wanted::wanted_for;
use address_space::{NoRoom, Regions};
use history_event::Ranges;
use ld_base::Loaded;
use std::alloc::{AllocError, Global};
use tls_blocks::TlsModules;

/// Why new objects have no places.
#[derive(Clone, Copy, PartialEq, Eq)]
pub enum PlaceFault {
    /// So many pages have no room.
    Full(u64),
    /// Want of memory.
    Memory,
}

impl From<AllocError> for PlaceFault {
    ghost from_gives = { λ _ fault. fault ≡ Memory };

    fn from(_: AllocError) -> Self {
        PlaceFault::Memory
    }
}

impl From<NoRoom> for PlaceFault {
    ghost from_gives = { λ error fault. fault ≡ Full error.0 };

    fn from(error: NoRoom) -> Self {
        PlaceFault::Full(error.0)
    }
}

/// Where new objects stand.
#[derive(Drop)]
pub struct Places {
    /// The modules with those of the new objects.
    pub modules: TlsModules,
    /// The pages of the objects, in load order, and behind them at startup each hart's stack and each
    /// hart's static area.
    pub ranges: Ranges,
}

/// Gives new objects their modules, pages and bases, beside the modules that are there and in the pages
/// that are free. `harts` is how many harts there are at startup, whose objects have static blocks and
/// which reserves stacks and static areas, too; later it is none.
///
/// # Errors
///
/// The first pages that have no room, or want of memory. The objects may have modules then.
pub fn place(
    alloc: Global,
    regions: &Regions,
    modules: &TlsModules,
    harts: Option<u32>,
    added: &mut [Loaded],
) -> Result<Places, PlaceFault>
    requires { (o : loaded) → Contains added.old o → IsAccepted o.object }
    ensures same { map unplaced added.new ≡ map unplaced added.old }
    ensures ok { IfOk result (HavePlaces regions.now modules.now harts added.new) }
    ensures err { IfErr result (IsUnplaced regions.now modules.now harts added.new) }
{
    let mut modules = modules.copy(alloc)?;
    give_modules(&mut modules, harts.is_none(), added)?;
    let wanted = wanted_for(alloc, &modules, harts, added)?;
    let mut regions = regions.copy();
    let ranges = reserve_all(alloc, &mut regions, wanted.as_slice())?;
    set_bases(added, ranges.as_slice());
    Ok(Places { modules, ranges })
}
