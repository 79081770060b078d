//! The image of one object that has every type of relocation, word by word.
//!
//! The object and its bindings are those of `relocator/specs/Example.antt`, and that they are is
//! proved: so they are what `make_image` and `relocate` ask for.

ghost use Rattle.std.specs.Prelude.{◌≡◌, [], IfOk, OnOk};
ghost use Rattle.relocator.specs.Example.{bytes_of_data, defined, example, example_bindings, example_places};
ghost use Rattle.relocator.specs.Example.{lazily, own, symbol, undefined};

use ld_base::{
    Bytes, Choice, Kind, Name, ObjFlags, Object, Reloc, Segment, Serial, SharedBytes, SharedList,
    SharedSymbols, Span, Symbol, Symbols,
};
use relocator::{Binding, Bindings, ModulePlace, TlsPlaces, relocate, worked_example};
use seg_image::{Image, make_image};
use std::alloc::{AllocError, Global};
use test_file::{Fault, Words};

/// Where the object lies.
const BASE: u64 = 0x30000;

/// The word at a place of the relocated object, and its role.
pub fn word(alloc: Global, words: &mut Words) -> Result<String, Fault> {
    let place = words.number()?;
    let image = relocated(alloc)?;
    word_at(alloc, &image, place)
}

fn word_at(alloc: Global, image: &Image, place: u64) -> Result<String, Fault> {
    let offset = place.wrapping_add(BASE).wrapping_sub(image.start);
    let index = usize::try_from(offset / 8).map_err(|_| Fault::Unclear)?;
    match image.words.as_slice().get(index) {
        Some(word) => Ok(format!(in alloc; "{:#x} {:?}", word.value, word.role)?),
        None => Ok(String::from_str(alloc, "none")?),
    }
}

/// The image of the object, relocated.
fn relocated(alloc: Global) -> Result<Image, Fault> {
    let object = object(alloc)?;
    image_of(alloc, &object)
}

/// The image of the object, with the example's bindings.
fn image_of(alloc: Global, object: &Object) -> Result<Image, Fault>
    requires { object.now ≡ example }
{
    let bindings = bindings(alloc)?;
    bound_image(alloc, object, &bindings)
}

fn bound_image(alloc: Global, object: &Object, bindings: &Bindings) -> Result<Image, Fault>
    requires object { object.now ≡ example }
    requires bindings { bindings.now ≡ example_bindings }
{
    worked_example();
    let places = places(alloc)?;
    let mut image = make_image(alloc, object, BASE)?;
    match relocate(&mut image, object, BASE, Serial::new(7), bindings, &places) {
        Ok(()) => Ok(image),
        Err(_) => Err(Fault::Unclear),
    }
}

fn object(alloc: Global) -> Result<Object, AllocError>
    ensures { IfOk result (λ o. o ≡ example) }
{
    let segments = segments(alloc)?;
    let symbols = symbols(alloc)?;
    let relocs = relocs(alloc)?;
    let slots = [reloc(5, 0x3010, 1, 0), reloc(5, 0x3018, 1, 0)];
    let slots = Vec::from_slice(alloc, &slots)?;
    let places = Vec::from_slice(alloc, &[0x3040, 0x3088])?;
    Ok(Object {
        kind: Kind::Dyn,
        entry: 0,
        soname: None,
        needed: SharedList::new(alloc, Vec::new(alloc))?,
        segments,
        symbols,
        first_exported: 1,
        has_versym: false,
        verdefs: SharedList::new(alloc, Vec::new(alloc))?,
        verneeds: SharedList::new(alloc, Vec::new(alloc))?,
        relocs,
        plt_relocs: SharedList::new(alloc, slots)?,
        pltgot: Some(0x3000),
        preinit: None,
        init: None,
        init_array: None,
        fini: None,
        fini_array: None,
        tls: None,
        relro: Some(Span {
            start: 0x3000,
            size: 0x2c,
        }),
        flags: ObjFlags {
            symbolic: false,
            bind_now: false,
            nodelete: false,
        },
        relr: SharedList::new(alloc, places)?,
        dynamic: 0,
    })
}

fn segments(alloc: Global) -> Result<SharedList<Segment>, AllocError>
    ensures { IfOk result (λ s. s ≡ example.segments) }
{
    let mut segments = Vec::new(alloc);
    segments.push(Segment {
        vaddr: 0x1000,
        memsz: 24,
        flags: 5,
        align: 0x1000,
        bytes: SharedBytes::copy_from_slice(
            alloc,
            &[
                0x13, 0, 0, 0, 0, 0, 0, 0, 0x67, 0x80, 0, 0, 0, 0, 0, 0, 0x73, 0, 0, 0, 0, 0, 0, 0,
            ],
        )?,
    })?;
    segments.push(Segment {
        vaddr: 0x3000,
        memsz: 0x90,
        flags: 6,
        align: 0x1000,
        bytes: data_bytes(alloc)?,
    })?;
    SharedList::new(alloc, segments)
}

fn data_bytes(alloc: Global) -> Result<SharedBytes, AllocError>
    ensures { IfOk result (λ b. b ≡ bytes_of_data) }
{
    SharedBytes::copy_from_slice(
        alloc,
        &[
            0, 0, 0, 0, 0, 0, 0, 0, 0, 0, 0, 0, 0, 0, 0, 0, 0x10, 0x10, 0, 0, 0, 0, 0, 0, 0x10,
            0x10, 0, 0, 0, 0, 0, 0, 1, 0, 0, 0, 0, 0, 0, 0, 2, 0, 0, 0, 0, 0, 0, 0, 0xef, 0xbe, 0,
            0, 0, 0, 0, 0, 0x11, 0x22, 0x33, 0x44,
        ],
    )
}

fn symbols(alloc: Global) -> Result<SharedSymbols, AllocError>
    ensures { IfOk result (λ s. s ≡ example.symbols) }
{
    let mut symbols = Symbols::new(alloc);
    symbols.push(symbol(alloc, 0)?)?;
    symbols.push(symbol(alloc, 8)?)?;
    symbols.push(symbol(alloc, 5)?)?;
    symbols.into_shared(alloc)
}

fn symbol(alloc: Global, size: u64) -> Result<Symbol, AllocError>
    ensures { IfOk result (λ s. s ≡ symbol size) }
{
    Ok(Symbol {
        name: Name::new(alloc, &[])?,
        info: 17,
        other: 0,
        shndx: 0,
        value: 0,
        size,
        version: 0,
    })
}

fn relocs(alloc: Global) -> Result<SharedList<Reloc>, AllocError>
    ensures { IfOk result (λ r. r ≡ example.relocs) }
{
    let relocs = Vec::from_slice(
        alloc,
        &[
            reloc(2, 0x3020, 1, -8),
            reloc(3, 0x3028, 0, 0x1008),
            reloc(7, 0x3048, 1, 0),
            reloc(9, 0x3050, 1, 0),
            reloc(11, 0x3058, 0, 4),
            reloc(4, 0x3061, 2, 0),
            reloc(0, 0x3030, 0, 0),
            reloc(7, 0x3070, 1, 0),
            reloc(11, 0x3078, 1, 0),
            reloc(2, 0x3080, 1, 1),
        ],
    )?;
    SharedList::new(alloc, relocs)
}

fn reloc(kind: u32, place: u64, symbol: u32, addend: i64) -> Reloc
    ensures { result ≡ record { place = place; kind = kind; symbol = symbol; addend = addend } }
{
    Reloc {
        place,
        kind,
        symbol,
        addend,
    }
}

fn places(alloc: Global) -> Result<TlsPlaces, AllocError>
    ensures { IfOk result (λ p. p ≡ example_places) }
{
    TlsPlaces::from_slice(
        alloc,
        &[
            ModulePlace {
                serial: Serial::new(7),
                number: 1,
                offset: Some(0x10),
            },
            ModulePlace {
                serial: Serial::new(9),
                number: 2,
                offset: None,
            },
        ],
    )
}

fn bindings(alloc: Global) -> Result<Bindings, AllocError>
    ensures { IfOk result (λ b. b ≡ example_bindings) }
{
    let mut bindings = Bindings::new(alloc);
    match push_bindings(alloc, &mut bindings) {
        Ok(()) => Ok(bindings),
        Err(error) => Err(error),
    }
}

fn push_bindings(alloc: Global, bindings: &mut Bindings) -> Result<(), AllocError>
    requires { bindings.old ≡ [] }
    ensures { OnOk result (bindings.new ≡ example_bindings) }
{
    bindings.push(defined(alloc, 0x40000, 8, &[])?)?;
    bindings.push(undefined(alloc))?;
    bindings.push(defined(alloc, 0x10, 8, &[])?)?;
    bindings.push(defined(alloc, 0x10, 8, &[])?)?;
    bindings.push(own(alloc))?;
    bindings.push(defined(alloc, 0x40020, 3, &[0xaa, 0xbb, 0xcc])?)?;
    bindings.push(undefined(alloc))?;
    bindings.push(undefined(alloc))?;
    bindings.push(undefined(alloc))?;
    bindings.push(defined(alloc, u64::MAX, 8, &[])?)?;
    bindings.push(lazily(alloc))?;
    bindings.push(defined(alloc, 0x45678, 8, &[])?)
}

fn defined(alloc: Global, value: u64, size: u64, copied: &[u8]) -> Result<Binding, AllocError>
    ensures { IfOk result (λ b. b ≡ defined value size copied.now) }
{
    Ok(Binding {
        bound: true,
        choice: Choice::Def(Serial::new(9), 4),
        value,
        size,
        object: Some(Serial::new(9)),
        copied: Bytes::from_slice(alloc, copied)?,
    })
}

fn undefined(alloc: Global) -> Binding
    ensures { result ≡ undefined }
{
    Binding {
        bound: true,
        choice: Choice::WeakZero,
        value: 0,
        size: 0,
        object: None,
        copied: Bytes::new(alloc),
    }
}

fn lazily(alloc: Global) -> Binding
    ensures { result ≡ lazily }
{
    Binding {
        bound: false,
        choice: Choice::WeakZero,
        value: 0x99,
        size: 0,
        object: None,
        copied: Bytes::new(alloc),
    }
}

fn own(alloc: Global) -> Binding
    ensures { result ≡ own }
{
    Binding {
        bound: true,
        choice: Choice::Def(Serial::new(7), 0),
        value: 0x99,
        size: 0,
        object: Some(Serial::new(7)),
        copied: Bytes::new(alloc),
    }
}
