//! What holds of modules by their numbers.

ghost use Rattle.std.specs.Prelude.{◌≤◌, Bool, List, filter};
ghost use Rattle.history_event.specs.declared.state.Module.{Module};
ghost use Rattle.tls_blocks.specs.Numbers.{AreNumbered, number_of, with_module};

/// Modules in the order of their numbers, from 1 on, stay so with one more and with fewer.
pub fn modules_stay_numbered()
    ensures more { (modules : List Module) (m : Module) → AreNumbered modules → 1 ≤ number_of m → AreNumbered (with_module m modules) }
    ensures fewer { (keep : Module → Bool) (modules : List Module) → AreNumbered modules → AreNumbered (filter keep modules) }
{}
