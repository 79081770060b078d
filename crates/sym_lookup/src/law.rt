//! What holds of all tables.

ghost use Rattle.std.specs.List.{AllByRecursion};
ghost use Rattle.scope_rule.specs.Seen.{Seen};
ghost use Rattle.sym_hash.specs.Reached.{IsTableOf};
ghost use Rattle.sym_lookup.specs.Looking.{HaveTables};

/// Where each object of a namespace has its own table, each that is there by a serial has.
pub fn tables_are_there()
    ensures { (s : Seen) → AllByRecursion (λ o. IsTableOf o.table o.object) s.objects → HaveTables s }
{}
