//! Which definition of one object a reference takes.

ghost use Rattle.std.specs.Prelude.{◌≡◌, ◌⊎◌, IfSome, ◌+◌, ◌&&◌, ◌||◌, ◌==◌, ◌<◌, ◌^◌, not, length, position};
ghost use Rattle.std.specs.Prelude.{count_by, None, option_map};
ghost use Rattle.std.specs.Option.{option_copied};
ghost use Rattle.ld_base.specs.Symbol.{is_local, is_weak, is_tls, is_defined, is_absolute, is_visible_definition, version_index, is_hidden_version};
ghost use Rattle.ld_base.specs.Version.{is_base, verdef_of, verneed_of, version_name};
ghost use Rattle.ld_base.specs.Pick.{is_offer, has_version, is_wanted, names_no_version, first_exported, only_exported, exported, pick_of};

use crate::carriers::Carriers;
use crate::{Name, Object, Symbol, Verdef, Verneed, Want};

/// The section index of a symbol that is undefined (SHN_UNDEF).
const UNDEFINED: u16 = 0;
/// The section index of a symbol whose value isn't an address (SHN_ABS).
const ABSOLUTE: u16 = 0xfff1;
/// The bindings of a symbol that its own object alone sees, and of one that may lack a definition.
const STB_LOCAL: u8 = 0;

const STB_WEAK: u8 = 2;
/// The types of symbols that name functions (the last of three that name code or data), common
/// data, and places in thread-local storage.
const STT_FUNC: u8 = 2;

const STT_COMMON: u8 = 5;

const STT_TLS: u8 = 6;
/// The visibilities that keep a definition from other objects.
const STV_INTERNAL: u8 = 1;

const STV_HIDDEN: u8 = 2;
/// The flag of a version that names the object itself.
const VER_FLG_BASE: u16 = 1;

impl Symbol {
    /// Whether only its own object sees it (STB_LOCAL).
    pub fn is_local(&self) -> bool
        ensures { result ≡ is_local self.now }
    {
        self.info / 16 == STB_LOCAL
    }

    /// Whether a reference to it may stay without a definition (STB_WEAK).
    pub fn is_weak(&self) -> bool
        ensures { result ≡ is_weak self.now }
    {
        self.info / 16 == STB_WEAK
    }

    /// Whether it names a place in thread-local storage (STT_TLS).
    pub fn is_tls(&self) -> bool
        ensures { result ≡ is_tls self.now }
    {
        self.info % 16 == STT_TLS
    }

    /// Whether it is a definition.
    pub fn is_defined(&self) -> bool
        ensures { result ≡ is_defined self.now }
    {
        self.shndx != UNDEFINED
    }

    /// Whether its value isn't an address of its object (SHN_ABS).
    pub fn is_absolute(&self) -> bool
        ensures { result ≡ is_absolute self.now }
    {
        self.shndx == ABSOLUTE
    }

    /// The index of its version, without the bit that hides it.
    pub fn version_index(&self) -> u16
        ensures { result ≡ version_index self.now }
    {
        self.version % 0x8000
    }

    /// Whether only a reference with its version takes it.
    pub fn is_hidden_version(&self) -> bool
        ensures { result ≡ is_hidden_version self.now }
    {
        self.version >= 0x8000
    }

    /// Whether it is a definition that other objects can see.
    pub fn is_visible_definition(&self) -> bool
        ensures { result ≡ is_visible_definition self.now }
    {
        let visibility = self.other % 4;
        let kind = self.info % 16;
        self.is_defined()
            && !self.is_local()
            && visibility != STV_INTERNAL
            && visibility != STV_HIDDEN
            && (kind <= STT_FUNC || kind == STT_COMMON || self.is_tls())
            && (self.value != 0 || self.is_absolute() || self.is_tls())
    }
}

impl Verdef {
    /// Whether it names the object itself, and no version (VER_FLG_BASE).
    pub fn is_base(&self) -> bool
        ensures { result ≡ is_base self.now }
    {
        self.flags % 2 == VER_FLG_BASE
    }

    fn defines(&self, index: u16) -> bool
        ensures { result ≡ (self.now.index == index && not (is_base self.now)) }
    {
        self.index == index && !self.is_base()
    }
}

fn verdef_of(verdefs: &[Verdef], index: u16) -> Option<&Verdef>
    ensures { option_copied result ≡ verdef_of verdefs.now index }
{
    for verdef in verdefs {
        if verdef.defines(index) {
            return Some(verdef);
        }
    }
    None
}

fn verneed_of(verneeds: &[Verneed], index: u16) -> Option<&Verneed>
    ensures { option_copied result ≡ verneed_of verneeds.now index }
{
    for verneed in verneeds {
        if verneed.index == index {
            return Some(verneed);
        }
    }
    None
}

impl Object {
    /// The name of a version's index, if it has one.
    pub fn version_name(&self, index: u16) -> Option<&Name>
        ensures { option_copied result ≡ version_name self.now index }
    {
        match verdef_of(self.verdefs.as_slice(), index) {
            Some(verdef) => Some(&verdef.name),
            None => match verneed_of(self.verneeds.as_slice(), index) {
                Some(verneed) => Some(&verneed.name),
                None => None,
            },
        }
    }

    fn is_offer(&self, name: &[u8], symbol: &Symbol) -> bool
        ensures { result ≡ is_offer self.now name.now symbol.now }
    {
        symbol.is_visible_definition()
            && symbol.name.is(name)
            && (!self.has_versym || symbol.version_index() != 0)
    }
}

impl Want {
    fn names_no_version(&self) -> bool
        ensures { result ≡ names_no_version self.now }
    {
        matches!(self, Want::Plain | Want::Dlsym)
    }
}

/// The symbols of an object that it may export.
fn exported(object: &Object) -> &[Symbol]
    ensures value { result.now ≡ exported object.now }
    ensures few { length result.now ≡ 0 ⊎ (length result.now + object.now.first_exported < 2 ^ 32) }
{
    let symbols = object.symbols.as_slice();
    let first = object.first_exported as usize;
    if first < symbols.len() {
        &symbols[first..]
    } else {
        &[]
    }
}

/// The index of the symbol at a place among the exported ones.
fn index_of(object: &Object, place: Option<usize>) -> Option<u32>
    requires { IfSome place (λ k. k < length (exported object.now)) }
    ensures { result ≡ option_map (λ k. k + object.now.first_exported) place }
{
    // There are fewer than 2^32, so that the sum is an index.
    let _few = exported(object).len();
    match place {
        Some(place) => Some(place as u32 + object.first_exported),
        None => None,
    }
}

fn first_offer(object: &Object, name: &[u8]) -> Option<usize>
    ensures { result ≡ position (is_offer object.now name.now) (exported object.now) }
{
    exported(object)
        .iter()
        .position(|symbol| object.is_offer(name, symbol))
}

/// The first offer of a version, or that every version takes.
fn first_of_version(object: &Object, name: &[u8], version: &[u8]) -> Option<usize>
    ensures { result ≡ position (λ s. is_offer object.now name.now s && (has_version object.now version.now s || s.version == 1)) (exported object.now) }
{
    let carriers = Carriers::new(object, version);
    exported(object).iter().position(|symbol| object.is_offer(name, symbol)
        && (carriers.has(symbol.version_index()) || symbol.version == 1))
}

/// The first offer of just this version.
fn first_of_just(object: &Object, name: &[u8], version: &[u8]) -> Option<usize>
    ensures { result ≡ position (λ s. is_offer object.now name.now s && has_version object.now version.now s) (exported object.now) }
{
    let carriers = Carriers::new(object, version);
    exported(object).iter().position(|symbol| object.is_offer(name, symbol)
        && carriers.has(symbol.version_index()))
}

/// The first offer of one of the first two indexes.
fn first_of_base(object: &Object, name: &[u8], last: u16) -> Option<usize>
    ensures { result ≡ position (λ s. is_offer object.now name.now s && (version_index s == 1 || version_index s == last)) (exported object.now) }
{
    exported(object).iter().position(|symbol| object.is_offer(name, symbol)
        && (symbol.version_index() == 1 || symbol.version_index() == last))
}

fn first_wanted(object: &Object, name: &[u8], want: &Want) -> Option<usize>
    ensures { result ≡ position (λ s. is_offer object.now name.now s && is_wanted object.now want.now s) (exported object.now) }
{
    match want {
        Want::Version(version) => first_of_version(object, name, version.as_bytes()),
        Want::Plain => first_of_base(object, name, 2),
        Want::Dlsym => first_of_base(object, name, 1),
        Want::Dlvsym(version) => first_of_just(object, name, version.as_bytes()),
    }
}

fn first_in_sight(object: &Object, name: &[u8]) -> Option<usize>
    ensures { result ≡ position (λ s. is_offer object.now name.now s && not (is_hidden_version s)) (exported object.now) }
{
    exported(object).iter().position(|symbol| object.is_offer(name, symbol)
        && !symbol.is_hidden_version())
}

fn count_in_sight(object: &Object, name: &[u8]) -> usize
    ensures { result ≡ count_by (λ s. is_offer object.now name.now s && not (is_hidden_version s)) (exported object.now) }
{
    exported(object)
        .iter()
        .filter(|symbol| object.is_offer(name, symbol) && !symbol.is_hidden_version())
        .count()
}

fn only_in_sight(object: &Object, name: &[u8]) -> Option<u32>
    ensures { result ≡ only_exported object.now (λ s. is_offer object.now name.now s && not (is_hidden_version s)) }
{
    if count_in_sight(object, name) == 1 {
        index_of(object, first_in_sight(object, name))
    } else {
        None
    }
}

/// The index of the definition that a reference to the name takes in this object, or none: the
/// least index that is an exported definition of the name with the version that is wanted (gABI,
/// "Symbol Table"; Drepper, "ELF Symbol Versioning").
///
/// Without a wanted version the first of index 1 or 2 is taken (for dlsym of index 1), and failing
/// that a definition that is alone in sight. An object without version indexes gives its first of
/// the name.
pub fn pick(object: &Object, name: &[u8], want: &Want) -> Option<u32>
    ensures { result ≡ pick_of object.now name.now want.now }
{
    if !object.has_versym {
        return index_of(object, first_offer(object, name));
    }
    match index_of(object, first_wanted(object, name, want)) {
        Some(index) => Some(index),
        None if want.names_no_version() => only_in_sight(object, name),
        None => None,
    }
}
