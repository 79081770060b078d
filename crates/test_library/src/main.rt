//! Reads each program that is named, and runs it with the libraries of the folder `lib`.
#![tactic(auto)]

use elf_object::read_object;
use history_calls::Setup;
use ld_base::{Name, Names, SharedBytes};
use library_source::{FolderLibrary, Library};
use plain_world::World;
use std::{env, io};
use world_turns::Turns;

fn main(rt: HostRuntime) -> io::Result<()> {
    let alloc = rt.alloc();
    let mut library = FolderLibrary::new(rt.clone()?, alloc);
    for path in env::args(&rt)?.skip(1) {
        let Ok(bytes) = library.read(path.as_bytes()) else {
            continue
        };
        let file = SharedBytes::from_vec(bytes)?;
        if let Ok((object, _table)) = read_object(alloc, &file, true) {
            let (needed, slots) = (object.needed.len(), object.plt_relocs.len());
            print!(rt; "{path} needs {needed} libraries and has {slots} slots\n")?;
        }
        let mut folders = Names::new(alloc);
        folders.push(Name::new(alloc, b"lib")?)?;
        let setup = Setup {
            program: Name::new(alloc, path.as_bytes())?,
            folders,
            preload: Names::new(alloc),
            bind_now: false,
            harts: Names::new(alloc),
            fuel: 100_000,
        };
        if let Ok(mut world) = World::start(alloc, &setup, &mut library) {
            world.run(alloc, &Turns::new(alloc), &mut library);
            let counts = world.into_record().counts;
            let (events, bound) = (counts.events, counts.bound);
            print!(rt; "it ran: {events} events, {bound} slots bound\n")?;
        }
    }
    Ok(())
}
