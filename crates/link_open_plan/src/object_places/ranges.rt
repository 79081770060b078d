//! Pages of what is wanted, and the bases that they give.

ghost use Rattle.std.specs.Prelude.{◌≡◌, ◌≤◌, length, map, Contains, IfErr, IfOk};
ghost use Rattle.ld_base.specs.declared.linking.Loaded.{Loaded as loaded};
ghost use Rattle.history_state.specs.Areas.{AreBased, AreGiven};
ghost use Rattle.seg_image.specs.Accepted.{Accepted};
ghost use Rattle.seg_image.specs.Pages.{low_of, own_address};
ghost use Rattle.link_open_plan.specs.ObjectPlaces.Placing.{IsLacking, unbased};

use crate::object_places::placing::PlaceFault;
use crate::object_places::wanted::Wanted;
use address_space::Regions;
use history_event::{Range, Ranges};
use ld_base::Loaded;
use seg_image::low_of;
use std::alloc::Global;

/// Reserves what is wanted, one after another.
///
/// # Errors
///
/// The pages that have no room, or want of memory.
pub(crate) fn reserve_all(
    alloc: Global,
    regions: &mut Regions,
    wanted: &[Wanted],
) -> Result<Ranges, PlaceFault>
    ensures given { IfOk result (λ ranges. AreGiven regions.old wanted.now ranges regions.new) }
    ensures lacks { IfErr result (IsLacking regions.old wanted.now) }
{
    let mut ranges = Ranges::new(alloc);
    for area in wanted {
        ranges.push(area.reserve(regions)?)?;
    }
    Ok(ranges)
}

/// Gives each object the base of its pages, which are the first ranges.
pub(crate) fn set_bases(added: &mut [Loaded], ranges: &[Range])
    requires accepted { (o : loaded) → Contains added.old o → Accepted o.object }
    requires enough { length added.old ≤ length ranges.now }
    ensures same { map unbased added.new ≡ map unbased added.old }
    ensures based { AreBased added.new ranges.now }
{
    for (index, object) in added.iter_mut().enumerate() {
        set_base(object, &ranges[index]);
    }
}

/// Gives an object the base of its pages.
#[tactic(auto, unfolding(seg_image::specs::Pages::own_address))]
fn set_base(object: &mut Loaded, range: &Range)
    requires { Accepted object.old.object }
    ensures same { unbased object.new ≡ unbased object.old }
    ensures base { object.new.base ≡ own_address (low_of object.new.object) range.now.address }
{
    object.base = range.address.wrapping_sub(low_of(&object.object));
}
