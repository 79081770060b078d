//! What a slot chooses and a look-up finds.

ghost use Rattle.history_state.specs.Legal.{Legal};
ghost use Rattle.history_worked.specs.Choosing as choosing;

/// An object with DT_SYMBOLIC calls its own function, and not the program's of the same name.
pub fn symbolic_comes_first()
    ensures own { Legal choosing.setting choosing.calls_its_own }
    ensures not_the_programs { Legal choosing.setting choosing.symbolic_calls_the_programs → ⊥ }
{}

/// A reference to a protected definition of one's own is to it; what is hidden no look-up finds.
pub fn visibility_is_kept()
    ensures protected { Legal choosing.setting choosing.calls_the_protected }
    ensures not_the_programs { Legal choosing.setting choosing.protected_calls_the_programs → ⊥ }
    ensures hidden { Legal choosing.setting choosing.hidden_missing }
    ensures not_found { Legal choosing.setting choosing.hidden_found → ⊥ }
{}

/// A definition whose version is no default is found by its version, and not without one.
pub fn hidden_versions_are_asked_for()
    ensures by_version { Legal choosing.setting choosing.version_found }
    ensures not_without { Legal choosing.setting choosing.found_without_version → ⊥ }
{}

/// A weak reference without a definition is bound to 0, and another isn't bound at all.
pub fn weak_references_are_zero()
    ensures weak { Legal choosing.setting choosing.weak_is_zero }
    ensures not_missing { Legal choosing.setting choosing.weak_is_missing → ⊥ }
    ensures strong { Legal choosing.setting choosing.strong_is_missing }
    ensures not_zero { Legal choosing.setting choosing.strong_is_zero → ⊥ }
{}

/// What an object that was opened with RTLD_DEEPBIND needs comes before the program for it, and without the flag
/// behind it.
pub fn deep_comes_first()
    ensures deep { Legal choosing.setting choosing.deep_calls_libes }
    ensures not_the_programs { Legal choosing.setting choosing.deep_calls_the_programs → ⊥ }
    ensures plain { Legal choosing.setting choosing.calls_the_programs }
    ensures not_libes { Legal choosing.setting choosing.calls_libes → ⊥ }
{}
