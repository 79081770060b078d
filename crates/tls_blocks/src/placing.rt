//! Where a static block stands.

ghost use Rattle.std.specs.Prelude.{◌≡◌, ℕ, ◌+◌, ◌%◌, ◌<◌, ◌≤◌, ◌^◌};
ghost use Rattle.tls_blocks.specs.Places.{IsOffset, alignment_of};

use ld_base::TlsSeg;

/// The alignment of a segment: 0 stands for 1.
pub(crate) fn alignment(seg: TlsSeg) -> u64
    ensures { result ≡ alignment_of seg }
{
    if seg.align == 0 { 1 } else { seg.align }
}

/// How far the next address of this residue is away.
fn gap(address: u64, align: u64, residue: u64) -> u64
    requires { residue < align }
    ensures fits { (address + result) % align ≡ residue }
    ensures short { result < align }
    ensures least { (more : ℕ) → (address + more) % align ≡ residue → result ≤ more }
{
    let here = address % align;
    if here <= residue {
        residue - here
    } else {
        align - here + residue
    }
}

/// The offset behind tp of a block that follows those that end at `size`; tp has this residue
/// itself.
pub(crate) fn static_offset(tp: u64, size: u64, seg: TlsSeg) -> u64
    requires tp { tp < 2 ^ 20 }
    requires size { size ≤ 2 ^ 62 }
    requires align { seg.align ≤ 2 ^ 20 }
    ensures offset { IsOffset tp size seg result }
    ensures short { result ≤ size + 2 ^ 20 }
{
    let align = alignment(seg);
    size + gap(tp + size, align, seg.vaddr % align)
}
