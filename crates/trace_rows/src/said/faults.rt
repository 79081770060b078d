//! Refusals that are the same.

ghost use Rattle.std.specs.Prelude.{◌≡◌, ◌↔◌, IsTrue};

use ld_base::{DlFault, Name};

/// Whether two names are the same.
pub(super) fn same(one: &Name, other: &Name) -> bool
    ensures { IsTrue result ↔ (one.now ≡ other.now) }
{
    one.is(other.as_bytes())
}

/// Whether two names that may be missing are the same.
pub(super) fn same_name(one: &Option<Name>, other: &Option<Name>) -> bool
    ensures { IsTrue result ↔ (one.now ≡ other.now) }
{
    match one {
        Some(name) => matches!(other, Some(said) if same(name, said)),
        None => other.is_none(),
    }
}

/// Whether two refusals are the same.
pub(crate) fn same_fault(one: &DlFault, other: &DlFault) -> bool
    ensures { IsTrue result ↔ (one.now ≡ other.now) }
{
    use DlFault::*;
    match one {
        MissingLibrary(name) => matches!(other, MissingLibrary(n) if same(name, n)),
        ReadFault(path) => matches!(other, ReadFault(p) if same(path, p)),
        NotAccepted(path, broken) =>
            matches!(other, NotAccepted(p, b) if same(path, p) && broken == b),
        MissingVersion(object, file, version) => {
            matches!(other, MissingVersion(o, f, v) if same(object, o) && same(file, f) && same(version, v))
        }
        MissingSymbol(object, name, version) => {
            matches!(other, MissingSymbol(o, n, v) if same_name(object, o) && same(name, n) && same_name(version, v))
        }
        NotCode(object, name) => matches!(other, NotCode(o, n) if same(object, o) && same(name, n)),
        NeedsStaticTls(object) => matches!(other, NeedsStaticTls(o) if same(object, o)),
        AddressSpaceFull(pages) => matches!(other, AddressSpaceFull(n) if pages == n),
        NamespacesFull => matches!(other, NamespacesFull),
        BadHandle(handle) => matches!(other, BadHandle(n) if handle == n),
        BadFlags(flags) => matches!(other, BadFlags(n) if flags == n),
        ClosingHere(object) => matches!(other, ClosingHere(o) if same(object, o)),
        NameTooLong => matches!(other, NameTooLong),
        BadNamespace(number) => matches!(other, BadNamespace(n) if number == n),
    }
}
