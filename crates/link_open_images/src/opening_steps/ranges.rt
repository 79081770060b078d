//! Reserved pages.

ghost use Rattle.std.specs.Prelude.{◌≡◌, ◌+◌, ◌≤◌, ◌++◌, length};
ghost use Rattle.link_spaces.specs.ReservedPagesPart.Laid.{AreLaid};

use history_event::Range;
use link_spaces::ReservedPages;

/// Reserves the pages of ranges, one range after another; each is free when its turn comes.
pub fn reserve_all(reserved: &mut ReservedPages, ranges: &[Range])
    requires room { length ranges.now ≤ reserved.old.spare }
    requires free { AreLaid reserved.old.ranges ranges.now }
    ensures { reserved.new.ranges ≡ reserved.old.ranges ++ ranges.now }
{
    for range in ranges {
        reserved.push(range.address, range.pages, range.purpose);
    }
}
