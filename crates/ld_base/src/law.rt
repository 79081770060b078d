//! What a choice of a definition means.

ghost use Rattle.std.specs.Prelude.{◌≡◌, ◌↔◌, ℕ, List, Some};
ghost use Rattle.ld_base.specs.declared.linking.Want.{Want};
ghost use Rattle.ld_base.specs.declared.object.Object.{Object};
ghost use Rattle.ld_base.specs.Pick.{pick_of};
ghost use Rattle.ld_base.specs.Taken.{Takes};

/// A reference takes at most one definition of an object: the one of least index that it may take.
pub fn one_pick()
    ensures taken { (object : Object) (name : List ℕ) (want : Want) (index : ℕ) → (pick_of object name want ≡ Some index) ↔ Takes object name want index }
{}
