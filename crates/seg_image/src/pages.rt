//! Where an object's pages begin, how many there are, what alignment they ask for, and where an
//! address lies among them.

ghost use Rattle.std.specs.Prelude.{◌≡◌, ◌+◌, ◌*◌, ◌<◌, ◌≤◌};
ghost use Rattle.seg_image.specs.Accepted.{Accepted, IsSegment};
ghost use Rattle.seg_image.specs.Pages.{IsInside, align_of, end_of, high_of, low_of, pages_of, start_of};

use ld_base::{Object, Segment};

/// The bytes of a page.
pub(crate) const PAGE_SIZE: u64 = 4096;
/// The bytes of a word.
pub(crate) const WORD_SIZE: u64 = 8;

/// Where the first page of a segment begins.
pub(crate) fn start_of(segment: &Segment) -> u64
    ensures { result ≡ start_of segment.now }
{
    segment.vaddr / PAGE_SIZE * PAGE_SIZE
}

/// Where the last page of a segment ends.
pub(crate) fn end_of(segment: &Segment) -> u64
    requires { IsSegment segment.now }
    ensures { result ≡ end_of segment.now }
{
    (segment.vaddr + segment.memsz + (PAGE_SIZE - 1)) / PAGE_SIZE * PAGE_SIZE
}

/// Where the object's first page begins, by its own addresses.
#[tactic(auto, unfolding(crate::specs::Pages::low_of))]
pub fn low_of(object: &Object) -> u64
    requires { Accepted object.now }
    ensures { result ≡ low_of object.now }
{
    object.segments.as_slice().first().map_or(0, start_of)
}

/// Where the object's last page ends, by its own addresses.
#[tactic(auto, unfolding(crate::specs::Pages::high_of))]
fn high_of(object: &Object) -> u64
    requires { Accepted object.now }
    ensures { result ≡ high_of object.now }
{
    object.segments.as_slice().last().map_or(0, end_of)
}

/// How many pages the object takes, from its first to its last, gaps too.
#[tactic(auto, unfolding(crate::specs::Pages::pages_of))]
pub fn pages_of(object: &Object) -> u64
    requires { Accepted object.now }
    ensures { result ≡ pages_of object.now }
{
    (high_of(object) - low_of(object)) / PAGE_SIZE
}

/// The greatest alignment that a segment asks for, and at least a page.
#[tactic(auto, unfolding(crate::specs::Pages::align_of))]
pub fn align_of(object: &Object) -> u64
    ensures { result ≡ align_of object.now }
{
    object
        .segments
        .as_slice()
        .iter()
        .fold(PAGE_SIZE, |align, segment| align.max(segment.align))
}

/// The index, among the words of the object's pages, of the word that holds the byte at an own
/// address.
pub fn index_of(object: &Object, address: u64) -> usize
    requires accepted { Accepted object.now }
    requires inside { IsInside object.now address }
    ensures within { result < 512 * pages_of object.now }
    ensures low { low_of object.now + 8 * result ≤ address }
    ensures high { address < low_of object.now + 8 * result + 8 }
{
    ((address - low_of(object)) / WORD_SIZE) as usize
}
