//! Loads beside the objects of a namespace, over files that are laid out here: libraries without
//! symbols.

use crate::lists::write_serials;
use crate::matching::refusal;
use crate::scene::Scene;
use ld_base::{Bytes, Calls, File, Files, HartId, Name, Names, Serial};
use library_source::MemLibrary;
use load_order::{LoadAsk, LoadFault, LoadPlan, find_loaded, plan_load};
use scope_rule::Namespace;
use std::alloc::Global;
use test_file::{Fault, Words, show};

const FILE_SIZE: usize = 0x300;

/// Where the parts of a file stand.
const HASH: u64 = 0x100;

const SYMBOLS: u64 = 0x110;

const STRINGS: u64 = 0x140;

const TAGS: u64 = 0x200;

/// A field: its place in the file, how many bytes it has, and its value.
#[derive(Clone, Copy)]
struct Field(u64, u64, u64);

/// A library without symbols: the ELF header, two program headers, and the dynamic table up to the
/// names that it needs.
const FIELDS: [Field; 32] = [
    Field(0, 4, 0x464c_457f),
    Field(4, 1, 2),
    Field(5, 1, 1),
    Field(6, 1, 1),
    Field(16, 2, 3),
    Field(18, 2, 243),
    Field(20, 4, 1),
    Field(32, 8, 64),
    Field(54, 2, 56),
    Field(56, 2, 2),
    Field(64, 4, 1),
    Field(68, 4, 4),
    Field(96, 8, 0x300),
    Field(104, 8, 0x300),
    Field(120, 4, 2),
    Field(128, 8, TAGS),
    Field(136, 8, TAGS),
    Field(152, 8, 0x100),
    Field(160, 8, 0x100),
    Field(HASH, 4, 1),
    Field(HASH + 4, 4, 1),
    Field(TAGS, 8, 4),
    Field(TAGS + 8, 8, HASH),
    Field(TAGS + 16, 8, 5),
    Field(TAGS + 24, 8, STRINGS),
    Field(TAGS + 32, 8, 6),
    Field(TAGS + 40, 8, SYMBOLS),
    Field(TAGS + 48, 8, 10),
    Field(TAGS + 56, 8, 0xc0),
    Field(TAGS + 64, 8, 11),
    Field(TAGS + 72, 8, 24),
    Field(TAGS + 80, 8, 0),
];

/// Where the entries of needed names begin in the dynamic table.
const NEEDED: u64 = TAGS + 80;

fn put(bytes: &mut [u8], Field(at, width, value): Field) {
    for (place, digit) in value.to_le_bytes().iter().enumerate() {
        let place = place as u64;
        let at = at.saturating_add(place);
        if place < width && at < bytes.len() as u64 {
            bytes[at as usize] = *digit;
        }
    }
}

/// Puts the `number`th needed name in.
fn put_needed(bytes: &mut [u8], number: u64, name: &[u8]) {
    let offset = number.saturating_mul(16).saturating_add(1);
    let entry = number.saturating_mul(16).saturating_add(NEEDED);
    put(bytes, Field(entry, 8, 1));
    put(bytes, Field(entry.saturating_add(8), 8, offset));
    for (place, byte) in name.iter().enumerate() {
        let at = STRINGS.saturating_add(offset).saturating_add(place as u64);
        put(bytes, Field(at, 1, u64::from(*byte)));
    }
}

/// Lays out a library that needs these names; of `!` it is no ELF file.
fn lay_out(bytes: &mut [u8], needed: &str) {
    for field in FIELDS {
        put(bytes, field);
    }
    for (number, name) in needed.split(':').enumerate() {
        match name {
            "" => {}
            "!" => put(bytes, Field(0, 4, 0)),
            _ => put_needed(bytes, number as u64, name.as_bytes()),
        }
    }
}

/// The file of a word: its path, and the names that it needs, each behind a colon.
fn push_file(alloc: Global, files: &mut Files, word: &str) -> Result<(), Fault> {
    let (path, needed) = word.split_once(':').unwrap_or((word, ""));
    let mut bytes = vec![in alloc; 0u8; FILE_SIZE]?;
    lay_out(bytes.as_mut_slice(), needed);
    let path = Name::new(alloc, path.as_bytes())?;
    let bytes = Bytes::from(bytes);
    Ok(files.push(File { path, bytes })?)
}

fn push_files(alloc: Global, files: &mut Files, text: &str) -> Result<(), Fault> {
    for word in text.split_whitespace() {
        push_file(alloc, files, word)?;
    }
    Ok(())
}

impl Scene {
    /// From here on a load finds these files, and no others. Gives how many there are.
    pub fn files(&mut self, alloc: Global, words: &str) -> Result<String, Fault> {
        self.files = String::from_str(alloc, words)?;
        show(alloc, words.split_whitespace().count())
    }

    /// What a load of a name by hart 0 comes to, where `''` is the empty one: the objects that the root
    /// leads to, and then each new object with what its names found.
    pub fn load(&self, alloc: Global, words: &mut Words) -> Result<String, Fault> {
        let name = words.text()?;
        let mut files = Files::new(alloc);
        push_files(alloc, &mut files, self.files.as_str())?;
        let mut library = MemLibrary::new(alloc, files, Calls::new(alloc));
        load(alloc, &self.ns, name, &mut library)
    }

    /// The object that is there for a name, where nothing is read, as under RTLD_NOLOAD: of the hart,
    /// how the name is taken, as `dlopen`'s or as a `program`'s, and the name.
    pub fn loaded(&self, alloc: Global, words: &mut Words) -> Result<String, Fault> {
        let hart = HartId::new(words.number32()?);
        let (kind, name) = (words.text()?, words.text()?);
        let mut ask = ask_of(alloc, hart, kind == "program");
        match fill(alloc, &mut ask, name) {
            Ok(()) => found(alloc, find_loaded(alloc, &self.ns, &ask)),
            Err(fault) => Err(fault),
        }
    }
}

fn load(
    alloc: Global,
    ns: &Namespace,
    name: &str,
    library: &mut MemLibrary,
) -> Result<String, Fault> {
    let mut ask = ask_of(alloc, HartId::new(0), false);
    match fill(alloc, &mut ask, name) {
        Ok(()) => outcome(alloc, plan_load(alloc, ns, &ask, library)),
        Err(fault) => Err(fault),
    }
}

fn ask_of(alloc: Global, hart: HartId, program: bool) -> LoadAsk {
    LoadAsk {
        name: Name::empty(),
        folders: Names::new(alloc),
        preload: Names::new(alloc),
        hart,
        next: Serial::new(7),
        program,
        deep: false,
    }
}

/// Asks for a name, where `''` is the empty one, in the folders `lib` and `alt`.
fn fill(alloc: Global, ask: &mut LoadAsk, name: &str) -> Result<(), Fault> {
    let name = if name == "''" { "" } else { name };
    ask.name = Name::new(alloc, name.as_bytes())?;
    ask.folders.push(Name::new(alloc, b"lib")?)?;
    ask.folders.push(Name::new(alloc, b"alt")?)?;
    Ok(ask.preload.push(Name::new(alloc, b"none")?)?)
}

fn found(alloc: Global, found: Result<Option<Serial>, LoadFault>) -> Result<String, Fault> {
    match found {
        Ok(Some(serial)) => show(alloc, serial.number()),
        Ok(None) => Ok(String::from_str(alloc, "none")?),
        Err(fault) => fault_text(alloc, fault),
    }
}

fn outcome(alloc: Global, load: Result<LoadPlan, LoadFault>) -> Result<String, Fault> {
    match load {
        Ok(plan) => plan_text(alloc, &plan),
        Err(fault) => fault_text(alloc, fault),
    }
}

fn fault_text(alloc: Global, fault: LoadFault) -> Result<String, Fault> {
    match fault {
        LoadFault::Refused(fault) => refusal(alloc, fault),
        LoadFault::Wait(shown) => show(alloc, shown),
        LoadFault::Memory => Err(Fault::Memory),
    }
}

fn plan_text(alloc: Global, plan: &LoadPlan) -> Result<String, Fault> {
    let mut text = String::new(alloc);
    write_plan(&mut text, plan)?;
    Ok(text)
}

fn write_plan(text: &mut String, plan: &LoadPlan) -> Result<(), Fault> {
    write_serials(text, plan.breadth.as_slice())?;
    for object in plan.added.as_slice() {
        let path = &object.path;
        write!(text, " {path}>")?;
        write_serials(text, object.found.as_slice())?;
    }
    Ok(())
}
