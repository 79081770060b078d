//! What holds of the pages of each accepted object.

ghost use Rattle.std.specs.Prelude.{◌≡◌, ℕ, ◌+◌, ◌*◌, ◌^◌, ◌<◌, ◌≤◌, Some};
ghost use Rattle.std.specs.List.{slice_get};
ghost use Rattle.ld_base.specs.declared.object.Object.{Object};
ghost use Rattle.ld_base.specs.declared.object.Segment.{Segment};
ghost use Rattle.seg_image.specs.Accepted.{Accepted};
ghost use Rattle.seg_image.specs.Pages.{IsInside, end_of, low_of, page_size, pages_of, segment_at, start_of};

/// The pages of an object hold the memory and the pages of each of its segments, in the first 8 GiB,
/// and an address of a segment's pages is of that segment alone.
pub fn pages_hold_segments()
    ensures low { (o : Object) (v : ℕ) → Accepted o → IsInside o v → low_of o ≤ v }
    ensures high { (o : Object) (v : ℕ) → Accepted o → IsInside o v → v < low_of o + page_size * pages_of o }
    ensures from { (o : Object) (k : ℕ) (g : Segment) (v : ℕ) → Accepted o → slice_get o.segments k ≡ Some g → start_of g ≤ v → low_of o ≤ v }
    ensures to { (o : Object) (k : ℕ) (g : Segment) (v : ℕ) → Accepted o → slice_get o.segments k ≡ Some g → v < end_of g
        → v < low_of o + page_size * pages_of o }
    ensures some { (o : Object) → Accepted o → 0 < pages_of o }
    ensures few { (o : Object) → Accepted o → low_of o + page_size * pages_of o < 2 ^ 33 }
    ensures one { (o : Object) (k : ℕ) (g : Segment) (v : ℕ) → Accepted o → slice_get o.segments k ≡ Some g → start_of g ≤ v → v < end_of g
        → segment_at o v ≡ Some g }
{}
