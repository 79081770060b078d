//! Shared words are guest memory as it should be.

ghost use Rattle.std.specs.Prelude.{ℕ, List, slice_index};
ghost use Rattle.word_rule.specs.declared.entry.Grant.{Grant};
ghost use Rattle.word_rule.specs.declared.view.View.{View};
ghost use Rattle.word_rule.specs.Rule.{IsGuest};
ghost use Rattle.history_state.specs.State.{State};
ghost use Rattle.history_memory.specs.Holds.{Holds};
ghost use Rattle.word_holds.specs.Shared.{HaveWon, IsOfState, memory_of};

/// Where the rule of shared words holds, and the keeper's view is that of a state of the linker, guest
/// memory is as that state says, whoever has locked a doubleword; those grants that the keeper hasn't
/// asked for and whose exchanges found the lazy word have won.
pub fn shared_words_hold()
    ensures { (s : State) (won : List ℕ) (number : ℕ → Grant → ℕ) (words : List ℕ) (views : List View) (g : IsGuest words views) →
        IsOfState s g.kept number → HaveWon g.kept g.hart number won → Holds s won (memory_of (slice_index words)) }
{}
