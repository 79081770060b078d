//! The pages of a late block of thread-local storage.

ghost use Rattle.std.specs.Prelude.{◌≡◌, ◌<◌, ◌≤◌, ◌^◌};
ghost use Rattle.history_state.specs.Storage.{block_pages, residue};

use ld_base::TlsSeg;

/// The bytes of a page.
const PAGE_SIZE: u64 = 4096;

/// How far behind the start of its pages a block of this segment begins.
pub fn block_residue(segment: TlsSeg) -> u64
    requires { segment.align ≤ 2 ^ 20 }
    ensures value { result ≡ residue segment }
    ensures short { result < 2 ^ 20 }
{
    if segment.align == 0 {
        0
    } else {
        segment.vaddr % segment.align
    }
}

/// How many pages it takes.
pub fn block_pages(segment: TlsSeg) -> u64
    requires align { segment.align ≤ 2 ^ 20 }
    requires memory { segment.memsz ≤ 2 ^ 20 }
    ensures value { result ≡ block_pages segment }
    ensures some { 0 < result }
{
    let bytes = block_residue(segment) + segment.memsz;
    ((bytes + (PAGE_SIZE - 1)) / PAGE_SIZE).max(1)
}
