//! Memory in a worked history.

ghost use Rattle.std.specs.Prelude.{◌≡◌, [], ◌∷◌};
ghost use Rattle.ld_base.specs.declared.linking.Role.TheVariants.{Slot};
ghost use Rattle.history_state.specs.After.{after};
ghost use Rattle.history_state.specs.Memory.{role_at, first_word_at};
ghost use Rattle.history_memory.specs.FirstCall as first;
ghost use Rattle.history_memory.specs.Holds.{Holds};

/// A program calls a function through its slot. Memory is as the journal says with the lazy word in the
/// slot while the grant is open; with the function's address once its exchange has won; and so too once
/// it is bound. It isn't with the function's address before the exchange, nor with the lazy word once
/// the grant is bound, nor ever with the address of the same function in another library.
pub fn first_call_is_held()
    ensures slot { role_at (after first.called) first.slot_address ≡ Slot }
    ensures lazy { first_word_at (after first.called) first.slot_address ≡ first.lazy_word }
    ensures before_exchange { Holds (after first.called) [] (first.memory_with (after first.called) first.lazy_word) }
    ensures after_exchange { Holds (after first.called) (1 ∷ []) (first.memory_with (after first.called) first.function) }
    ensures once_bound { Holds (after first.bound) [] (first.memory_with (after first.bound) first.function) }
    ensures too_early { Holds (after first.called) [] (first.memory_with (after first.called) first.function) → ⊥ }
    ensures too_late { Holds (after first.bound) [] (first.memory_with (after first.bound) first.lazy_word) → ⊥ }
    ensures other_value { Holds (after first.bound) [] (first.memory_with (after first.bound) first.other_function) → ⊥ }
{}
