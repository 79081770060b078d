//! The ELF header (gABI, "ELF Header"; psABI, "File Header").

ghost use Rattle.std.specs.Prelude.{◌≡◌, ◌≤◌, length};
ghost use Rattle.elf_head.specs.AcceptancePart.Broken.{first_broken};
ghost use Rattle.elf_head.specs.Rules.{header_rules, is_not_class64_little, has_bad_program_headers, kind_of};

use crate::program_headers::ENTRY_SIZE;
use ld_base::{Kind, NotAccepted, field16, field32, field64};

/// The bytes of an ELF header.
const HEADER_SIZE: usize = 64;
/// The first bytes of an ELF file.
const MAGIC: [u8; 4] = [0x7f, b'E', b'L', b'F'];
/// Words of 64 bits.
const ELFCLASS64: u8 = 2;
/// The lowest byte first.
const ELFDATA2LSB: u8 = 1;
/// The only version of the format.
const EV_CURRENT: u8 = 1;
/// RISC-V.
const EM_RISCV: u16 = 243;
/// A program at its own addresses.
const ET_EXEC: u16 = 2;
/// A shared object, or a program that may stand anywhere.
const ET_DYN: u16 = 3;
/// EF_RISCV_RVC, the two bits of the float ABI, and EF_RISCV_RVE.
const EXTENSIONS: u32 = 0xf;
/// The most program headers.
const MAX_ENTRIES: usize = 128;

/// The first of the rules 1 to 7 that the bytes break.
pub(crate) fn broken_header_rule(bytes: &[u8]) -> Option<NotAccepted>
    ensures { result ≡ first_broken 1 (header_rules bytes.now) }
{
    let rule = if bytes.len() < HEADER_SIZE {
        1
    } else if !bytes.starts_with(&MAGIC) {
        2
    } else if is_not_class64_little(bytes) {
        3
    } else if field16(bytes, 18) != EM_RISCV {
        4
    } else if !matches!(field16(bytes, 16), ET_EXEC | ET_DYN) {
        5
    } else if field32(bytes, 48) & EXTENSIONS != 0 {
        6
    } else if has_bad_program_headers(bytes) {
        7
    } else {
        return None;
    };
    Some(NotAccepted { rule, number: 0 })
}

/// Whether the class, the byte order or a version is another.
fn is_not_class64_little(bytes: &[u8]) -> bool
    requires { 64 ≤ length bytes.now }
    ensures { result ≡ is_not_class64_little bytes.now }
{
    bytes[4] != ELFCLASS64
        || bytes[5] != ELFDATA2LSB
        || bytes[6] != EV_CURRENT
        || field32(bytes, 20) != u32::from(EV_CURRENT)
}

/// Whether the table of program headers has another form or passes the file's end.
fn has_bad_program_headers(bytes: &[u8]) -> bool
    requires { 64 ≤ length bytes.now }
    ensures { result ≡ has_bad_program_headers bytes.now }
{
    let start = field64(bytes, 32) as usize;
    let count = usize::from(field16(bytes, 56));
    usize::from(field16(bytes, 54)) != ENTRY_SIZE
        || count == 0
        || count > MAX_ENTRIES
        || start > bytes.len()
        || ENTRY_SIZE * count > bytes.len() - start
}

/// Whether the file stands at its own addresses.
pub(crate) fn kind_of(bytes: &[u8]) -> Kind
    requires { 64 ≤ length bytes.now }
    ensures { result ≡ kind_of bytes.now }
{
    if field16(bytes, 16) == ET_EXEC {
        Kind::Exec
    } else {
        Kind::Dyn
    }
}
