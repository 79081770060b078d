//! Finding a symbol by the hash table of its object.

ghost use Rattle.std.specs.Prelude.{◌≡◌, ◌↔◌, ℕ, IfSome, IsTrue, Some, ◌&&◌, ◌||◌, true, false};
ghost use Rattle.ld_base.specs.Pick.{has_version, is_offer, is_wanted, names_no_version, pick_of};
ghost use Rattle.ld_base.specs.Taken.{Exports, fits};
ghost use Rattle.ld_base.specs.declared.object.Symbol.{Symbol};
ghost use Rattle.sym_lookup.specs.SymFind.Best.{IsWantedAt, Keeps, KeepsAll, Knows, passes};
ghost use Rattle.sym_lookup.specs.SymFind.Found.{Finds, Nowhere};
ghost use Rattle.sym_lookup.specs.SymFind.Offers.{is_wanted_at};
ghost use Rattle.sym_lookup.specs.SymFind.Reference.{want_as};
ghost use Rattle.sym_hash.specs.Reached.{IsTableOf, Reached};
ghost use Rattle.scope_lists.specs.VersionPlaces.Places.{places_of};

use crate::sym_find::best::{Best, Search, Test};
use crate::sym_find::reference::{Asked, Sought};
use crate::sym_find::{gnu, sysv};
use ld_base::{Carriers, HashTable, Object, Symbol, Want, one_pick};
use scope_lists::{VersionNames, version_name};

/// The index whose version every reference takes, and the first that an object gives (Drepper, "ELF
/// Symbol Versioning").
const GLOBAL: u16 = 1;

const FIRST_DEFINED: u16 = 2;

/// Finding a symbol by the hash table of its object.
pub trait Find {
    /// The index of the definition that a reference to the name takes in the object of this table, or
    /// none: what `pick` gives, of the symbols that the table leads to (gABI, "Hash Table").
    ///
    /// The GNU table is walked where there is one, else the System V table. It takes no memory.
    fn find(&self, object: &Object, name: &[u8], want: &Want) -> Option<u32>;

    /// The same for a reference whose hashes are known, where the names of the object's versions may be
    /// known too. So the version of the first definition of the name is asked in one step.
    fn find_sought(
        &self,
        object: &Object,
        names: Option<&VersionNames>,
        sought: &Sought,
    ) -> Option<u32>
        requires { IfSome names (λ n. n.now ≡ places_of object.now) };
}

/// What is kept of the symbols that a table leads to.
fn walk(table: &HashTable, sought: &Sought, search: &Search) -> Best
    ensures { Knows search.now (Reached table.now sought.now.name) result }
{
    match (&table.gnu, &table.sysv) {
        (Some(gnu), _) => gnu::best(gnu, sought.gnu(), search),
        (None, Some(sysv)) => sysv::best(sysv, sought.sysv(), search),
        (None, None) => Best::new(),
    }
}

/// Whether the version of a definition has a name.
fn has_version(
    object: &Object,
    names: Option<&VersionNames>,
    version: &[u8],
    symbol: &Symbol,
) -> bool
    requires { IfSome names (λ n. n.now ≡ places_of object.now) }
    ensures { result ≡ has_version object.now version.now symbol.now }
{
    match version_name(object, names, symbol.version_index()) {
        Some(name) => name.is(version),
        None => false,
    }
}

/// Whether the version of a definition is one that is asked for.
fn is_wanted(object: &Object, names: Option<&VersionNames>, asked: Asked, symbol: &Symbol) -> bool
    requires { IfSome names (λ n. n.now ≡ places_of object.now) }
    ensures { result ≡ is_wanted object.now (want_as asked.entry) symbol.now }
{
    let index = symbol.version_index();
    match asked {
        Asked::Version(version) => {
            has_version(object, names, version, symbol) || symbol.version == 1
        }
        Asked::Plain => index == GLOBAL || index == FIRST_DEFINED,
        Asked::Dlsym => index == GLOBAL,
        Asked::Dlvsym(version) => has_version(object, names, version, symbol),
    }
}

/// The same of the definition at an index.
pub(crate) fn is_wanted_at(
    object: &Object,
    names: Option<&VersionNames>,
    asked: Asked,
    index: u32,
) -> bool
    requires { IfSome names (λ n. n.now ≡ places_of object.now) }
    ensures { result ≡ is_wanted_at object.now (want_as asked.entry) index }
{
    match object.symbols.as_slice().get(index as usize) {
        Some(symbol) => is_wanted(object, names, asked, symbol),
        None => false,
    }
}

/// Whether the first definition of a name decides, whatever its version: there is none, or it is of one
/// that is asked for, or the object has no versions.
fn decides(object: &Object, names: Option<&VersionNames>, asked: Asked, first: Option<u32>) -> bool
    requires { IfSome names (λ n. n.now ≡ places_of object.now) }
    ensures first { IsTrue result → IfSome first (IsWantedAt object.now (want_as asked.entry)) }
    ensures versions { result ≡ false → object.now.has_versym ≡ true }
{
    if !object.has_versym {
        return true;
    }
    match first {
        Some(index) => is_wanted_at(object, names, asked, index),
        None => true,
    }
}

/// What is kept of all definitions of the name.
fn kept_of_all<'a>(table: &HashTable, object: &'a Object, sought: &Sought<'a>) -> Best
    ensures { KeepsAll object.now sought.now.name (Reached table.now sought.now.name) result }
{
    let search = Search {
        object,
        name: sought.name(),
        test: Test::Any,
    };
    walk(table, sought, &search)
}

/// What is kept of those whose version passes a test.
fn kept(table: &HashTable, object: &Object, sought: &Sought, test: Test) -> Best
    ensures { ((s : Symbol) → fits object.now sought.now.name sought.now.want s ≡ (is_offer object.now sought.now.name s && passes test.entry s))
        → Keeps object.now sought.now.name sought.now.want (Reached table.now sought.now.name) result }
{
    let search = Search {
        object,
        name: sought.name(),
        test,
    };
    walk(table, sought, &search)
}

/// What is kept for a reference that names a version.
fn kept_of_version(table: &HashTable, object: &Object, sought: &Sought, version: &[u8]) -> Best
    requires versions { object.now.has_versym ≡ true }
    requires want { sought.now.want ≡ Want.Version version.now }
    ensures { Keeps object.now sought.now.name sought.now.want (Reached table.now sought.now.name) result }
{
    let carriers = Carriers::new(object, version);
    kept(table, object, sought, Test::Version(&carriers))
}

/// What is kept for dlvsym.
fn kept_of_just(table: &HashTable, object: &Object, sought: &Sought, version: &[u8]) -> Best
    requires versions { object.now.has_versym ≡ true }
    requires want { sought.now.want ≡ Want.Dlvsym version.now }
    ensures { Keeps object.now sought.now.name sought.now.want (Reached table.now sought.now.name) result }
{
    let carriers = Carriers::new(object, version);
    kept(table, object, sought, Test::Just(&carriers))
}

/// What is kept for a reference to an object with versions.
fn kept_with_versions(table: &HashTable, object: &Object, sought: &Sought) -> Best
    requires versions { object.now.has_versym ≡ true }
    ensures { Keeps object.now sought.now.name sought.now.want (Reached table.now sought.now.name) result }
{
    match sought.asked() {
        Asked::Version(version) => kept_of_version(table, object, sought, version),
        Asked::Plain => kept(table, object, sought, Test::Base(FIRST_DEFINED)),
        Asked::Dlsym => kept(table, object, sought, Test::Base(GLOBAL)),
        Asked::Dlvsym(version) => kept_of_just(table, object, sought, version),
    }
}

/// Whether the bloom filter tells that the table leads to no symbol of the name, as it does of most
/// objects that are searched.
pub(crate) fn rules_out(table: &HashTable, sought: &Sought) -> bool
    ensures { IsTrue result → Nowhere (Reached table.now sought.now.name) }
{
    match &table.gnu {
        Some(gnu) => !gnu::in_bloom(gnu, sought.gnu()),
        None => false,
    }
}

/// What is kept for a reference. Most often the first definition of the name is the one: versions are
/// marked only where it isn't.
fn kept_for(
    table: &HashTable,
    object: &Object,
    names: Option<&VersionNames>,
    sought: &Sought,
) -> Best
    requires { IfSome names (λ n. n.now ≡ places_of object.now) }
    ensures { Keeps object.now sought.now.name sought.now.want (Reached table.now sought.now.name) result }
{
    if rules_out(table, sought) {
        return Best::new();
    }
    let all = kept_of_all(table, object, sought);
    if decides(object, names, sought.asked(), all.first) {
        all
    } else {
        kept_with_versions(table, object, sought)
    }
}

/// Whether a definition that is alone in sight is taken.
fn may_be_alone(object: &Object, sought: &Sought) -> bool
    ensures { result ≡ (object.now.has_versym && names_no_version sought.now.want) }
{
    object.has_versym && sought.asked().names_no_version()
}

impl Find for HashTable {
    fn find(&self, object: &Object, name: &[u8], want: &Want) -> Option<u32>
        ensures found { (k : ℕ) → (result ≡ Some k) ↔ Finds self.now object.now name.now want.now k }
        ensures reached { IfSome result (λ k. Exports object.now (is_offer object.now name.now) k × Reached self.now name.now k) }
        ensures picks { IsTableOf self.now object.now → result ≡ pick_of object.now name.now want.now }
    {
        self.find_sought(object, None, &Sought::new(name, Asked::of(want)))
    }

    fn find_sought(
        &self,
        object: &Object,
        names: Option<&VersionNames>,
        sought: &Sought,
    ) -> Option<u32>
        requires { IfSome names (λ n. n.now ≡ places_of object.now) }
        ensures found { (k : ℕ) → (result ≡ Some k) ↔ Finds self.now object.now sought.now.name sought.now.want k }
        ensures reached { IfSome result (λ k. Exports object.now (is_offer object.now sought.now.name) k × Reached self.now sought.now.name k) }
        ensures picks { IsTableOf self.now object.now → result ≡ pick_of object.now sought.now.name sought.now.want }
    {
        one_pick();
        let best = kept_for(self, object, names, sought);
        let only = may_be_alone(object, sought);
        best.taken(only)
    }
}
