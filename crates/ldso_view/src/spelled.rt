//! What the files of objects say.

ghost use Rattle.std.specs.Prelude.{◌≡◌, ◌≤◌, All, IfOk, map};
ghost use Rattle.ldso_view.specs.Spelled.{IsFound, IsFoundFrom, path_in, unknown};

use elf_object::read_object;
use ld_base::{Name, Object, ReadFault, SharedBytes};
use library_source::{Library, ReadError};
use std::alloc::{AllocError, Global};
use trace_view::{Member, Members};

/// A path as it is found from a folder.
fn path_in(alloc: Global, folder: &[u8], path: &Name) -> Result<Vec<u8>, AllocError>
    ensures { IfOk result (λ joined. joined.items ≡ path_in folder.now path.now) }
{
    let path = path.as_bytes();
    if path.first() == Some(&b'/') {
        return Vec::from_slice(alloc, path);
    }
    let mut joined = Vec::from_slice(alloc, folder)?;
    joined.extend_from_slice(b"/")?;
    joined.extend_from_slice(path)?;
    Ok(joined)
}

/// The object that the file at a path is, as the program or as another object. None where it isn't
/// there, can't be read or is no object.
fn object_at<L: Library>(
    alloc: Global,
    library: &mut L,
    path: &[u8],
    program: bool,
) -> Result<Option<Object>, AllocError>
    ensures found { IfOk result (IsFound (L.files library.old) (L.faults library.old) (L.faults library.new) path.now program) }
    ensures files { L.files library.new ≡ L.files library.old }
    ensures faults { L.faults library.old ≤ L.faults library.new }
{
    let file = match library.read(path) {
        Ok(bytes) => SharedBytes::from_vec(bytes)?,
        Err(ReadError::Missing | ReadError::Failed) => return Ok(None),
        Err(ReadError::Memory) => return Err(AllocError),
    };
    match read_object(alloc, &file, program) {
        Ok((object, _table)) => Ok(Some(object)),
        Err(ReadFault::NotAccepted(_)) => Ok(None),
        Err(ReadFault::Memory) => Err(AllocError),
    }
}

/// A member with what its file says. The program is a run's first object.
fn found<L: Library>(
    alloc: Global,
    library: &mut L,
    folder: &[u8],
    member: &Member,
) -> Result<Member, AllocError>
    ensures same { IfOk result (λ m. unknown m ≡ unknown member.now) }
    ensures found { IfOk result (IsFoundFrom (L.files library.old) (L.faults library.old) (L.faults library.new) folder.now) }
    ensures files { L.files library.new ≡ L.files library.old }
    ensures faults { L.faults library.old ≤ L.faults library.new }
{
    let path = path_in(alloc, folder, &member.path)?;
    let object = object_at(alloc, library, path.as_slice(), member.serial.number() == 1)?;
    Ok(Member {
        serial: member.serial,
        path: Name::new(alloc, member.path.as_bytes())?,
        base: member.base,
        ns: member.ns,
        object,
    })
}

/// The same members, each with what its file says where it was found.
///
/// # Errors
///
/// Want of memory.
pub fn all_found<L: Library>(
    alloc: Global,
    library: &mut L,
    folder: &[u8],
    members: &[Member],
) -> Result<Members, AllocError>
    ensures same { IfOk result (λ all. map unknown all ≡ map unknown members.now) }
    ensures found { IfOk result (All (IsFoundFrom (L.files library.old) (L.faults library.old) (L.faults library.new) folder.now)) }
    ensures files { L.files library.new ≡ L.files library.old }
    ensures faults { L.faults library.old ≤ L.faults library.new }
{
    let mut all = Members::new(alloc);
    for member in members {
        all.push(found(alloc, library, folder, member)?)?;
    }
    Ok(all)
}
