//! What holds of every set.

ghost use Rattle.std.specs.Prelude.{◌≡◌, ℕ, List};
ghost use Rattle.ld_base.specs.declared.linking.File.{File};
ghost use Rattle.lib_gen.specs.Set.{AreSetOf};

/// A number makes one set.
pub fn one_set()
    ensures { (number : ℕ) (first second : List File) → AreSetOf number first → AreSetOf number second → first ≡ second }
{
    asm_layout::one_answer();
}
