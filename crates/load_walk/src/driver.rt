//! The part of a load that reads files.

ghost use Rattle.std.specs.Prelude.{◌≡◌, List, Result};
ghost use Rattle.ld_base.specs.declared.linking.Loaded.{Loaded};
ghost use Rattle.load_walk.specs.Files.{is_program};
ghost use Rattle.load_walk.specs.Staging.{Drives, Source, Stage, Reads, TakesFile, Turns, source_of};
ghost use Rattle.load_walk.specs.Walking.{IsToRead, IsWalker};

use crate::ask::{LoadAsk, LoadFault};
use crate::format::Format;
use crate::objects_there::ObjectsThere;
use crate::walker::{Next, Walker};
use ld_base::{DlFault, Name, ReadFault, SharedBytes};
use library_source::{Library, ReadError};
use scope_rule::{Arrival, Namespace, missing_library};
use std::alloc::Global;

/// Whether a path is read as the program.
fn is_program(ask: &LoadAsk, path: &Name) -> bool
    ensures { result ≡ is_program ask.now path.now }
{
    ask.program && ask.name.is(path.as_bytes())
}

/// Takes in the file at a path, as a new object.
fn take_file<F: Format>(
    alloc: Global,
    ask: &LoadAsk,
    format: &F,
    walker: &mut Walker,
    path: Name,
    file: &SharedBytes,
) -> Result<(), LoadFault>
    ensures { TakesFile (F.verdict format.now) ask.now walker.old path file.now walker.new result }
{
    let program = is_program(ask, &path);
    match format.read(alloc, file, program) {
        Err(ReadFault::Memory) => Err(LoadFault::Memory),
        Err(ReadFault::NotAccepted(broken)) => {
            Err(LoadFault::Refused(DlFault::NotAccepted(path, broken)))
        }
        Ok((object, table)) => {
            let arrival = Arrival {
                path,
                object,
                table,
            };
            walker.give_object(alloc, ask, arrival)?;
            Ok(())
        }
    }
}

/// Reads the path that the load has to know next.
fn read_next<F: Format, L: Library>(
    alloc: Global,
    ask: &LoadAsk,
    format: &F,
    library: &mut L,
    walker: &mut Walker,
    path: Name,
) -> Result<(), LoadFault>
    ensures { (there : List Loaded) (first : Source) →
        Stage (F.verdict format.now) ask.now there first (source_of L.files L.faults L.misses library.old) walker.old → IsToRead ask.now there walker.old path →
        Reads (F.verdict format.now) ask.now there first (source_of L.files L.faults L.misses library.new) walker.new result }
{
    match library.read(path.as_bytes()) {
        Err(ReadError::Missing) => {
            walker.missed.add(alloc, path.as_bytes())?;
            Ok(())
        }
        Err(ReadError::Failed) => Err(LoadFault::Refused(DlFault::ReadFault(path))),
        Err(ReadError::Memory) => Err(LoadFault::Memory),
        Ok(bytes) => {
            let file = SharedBytes::from_vec(bytes)?;
            take_file(alloc, ask, format, walker, path, &file)
        }
    }
}

/// One turn of a load: a name further, or a path. Whether no name is left.
fn turn<F: Format, L: Library>(
    alloc: Global,
    there: &ObjectsThere,
    ask: &LoadAsk,
    format: &F,
    library: &mut L,
    walker: &mut Walker,
) -> Result<bool, LoadFault>
    requires { IsWalker ask.now there.now walker.old }
    ensures { (first : Source) →
        Stage (F.verdict format.now) ask.now there.now first (source_of L.files L.faults L.misses library.old) walker.old →
        Turns (F.verdict format.now) ask.now there.now first (source_of L.files L.faults L.misses library.new) walker.new result }
{
    missing_library();
    match walker.look(alloc, there, ask)? {
        Next::Found(serial) => {
            walker.found.push(serial)?;
            Ok(false)
        }
        Next::Read(path) => {
            read_next(alloc, ask, format, library, walker, path)?;
            Ok(false)
        }
        Next::Done => Ok(true),
    }
}

/// Goes through the whole load.
pub(crate) fn drive<F: Format, L: Library>(
    alloc: Global,
    ns: &Namespace,
    ask: &LoadAsk,
    format: &F,
    library: &mut L,
    walker: &mut Walker,
) -> Result<(), LoadFault>
    requires { Stage (F.verdict format.now) ask.now ns.now.objects
        (source_of L.files L.faults L.misses library.old) (source_of L.files L.faults L.misses library.old) walker.old }
    ensures { Drives (F.verdict format.now) ask.now ns.now.objects
        (source_of L.files L.faults L.misses library.old) (source_of L.files L.faults L.misses library.new) walker.new result }
{
    let mut there = ObjectsThere::new(ns.objects.as_slice());
    // A load ends long before; the bound spares a measure of what is left of it.
    for _ in 0..u64::MAX {
        there.note_places(alloc, walker.found.len())?;
        if turn(alloc, &there, ask, format, library, walker)? {
            return Ok(());
        }
    }
    Err(LoadFault::Memory)
}
