//! What holds of every source.

ghost use Rattle.std.specs.Prelude.{◌≡◌, ◌⊎◌, ℕ, List};
ghost use Rattle.ld_base.specs.declared.fault.AsmCause.{AsmCause};
ghost use Rattle.asm_layout.specs.AsmDenotes.Denotes.{Denotes, AsmBroken};

/// A source denotes one object, or is refused at one line and for one cause; never both.
pub fn one_answer()
    ensures either { (source : List ℕ) → ((bytes : List ℕ) × Denotes source bytes) ⊎ ((number : ℕ) × (cause : AsmCause) × AsmBroken source number cause) }
    ensures never_both { (source bytes : List ℕ) (number : ℕ) (cause : AsmCause) → Denotes source bytes → AsmBroken source number cause → ⊥ }
    ensures one { (source first second : List ℕ) → Denotes source first → Denotes source second → first ≡ second }
    ensures one_fault { (source : List ℕ) (first second : ℕ) (cause cause' : AsmCause) → AsmBroken source first cause → AsmBroken source second cause'
        → (first ≡ second) × (cause ≡ cause') }
{
    asm_grammar::one_source();
}
