//! Where static blocks stand, and what is copied.

ghost use Rattle.std.specs.Prelude.{◌≡◌};
ghost use Rattle.history_state.specs.After.{after};
ghost use Rattle.history_state.specs.Legal.{Legal};
ghost use Rattle.history_state.specs.Memory.{first_word_at};
ghost use Rattle.history_worked.specs.Storing as storing;

/// A static block stands at the least offset behind tp, and behind those before it, that its alignment allows.
pub fn static_blocks_follow()
    ensures least { Legal storing.setting storing.at_32 }
    ensures not_unaligned { Legal storing.setting storing.at_20 → ⊥ }
    ensures not_later { Legal storing.setting storing.at_48 → ⊥ }
{
    history_calls::one_answer();
}

/// A COPY takes the bytes of another object's definition: the program's own, which has room for them, is none.
pub fn copies_take_anothers()
    ensures copied { Legal storing.copying storing.v_is_copied }
    ensures bytes { first_word_at (after storing.v_is_copied) 0x11000 ≡ 42 }
    ensures missing { Legal storing.copying storing.v_is_missing }
    ensures not_its_own { Legal storing.copying storing.v_is_its_own → ⊥ }
{
    history_calls::one_answer();
}
