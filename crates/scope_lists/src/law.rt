//! What holds of all lists.

ghost use Rattle.std.specs.Prelude.{map};
ghost use Rattle.ld_base.specs.declared.linking.Loaded.{Loaded};
ghost use Rattle.scope_rule.specs.Seen.{Seen};
ghost use Rattle.scope_lists.specs.Lists.{AreListsOf, ChangesStateAlone};
ghost use Rattle.scope_lists.specs.declared.lists.SearchLists.{SearchLists};

/// Lists don't tell of the states of objects, but for which are closing: an object that becomes ready
/// leaves them as they are.
pub fn lists_stay()
    ensures { (s : Seen) (lists : SearchLists) (change : Loaded → Loaded) → ((o : Loaded) → ChangesStateAlone o (change o))
        → AreListsOf s lists → AreListsOf (record s { objects = map change s.objects }) lists }
{}
