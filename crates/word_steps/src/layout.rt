//! Where the words of a doubleword stand, and what a control word says.

ghost use Rattle.std.specs.Prelude.{◌≡◌, ◌+◌, ◌<◌, ◌*◌, ◌==◌};
ghost use Rattle.word_rule.specs.Layout.{IsDoubleword, control_at, doublewords, index_of, lock_bit, place_of};
ghost use Rattle.word_rule.specs.Layout.{role_code, role_in, row_at, state_at, table_words, value_at, version_in};

use ld_base::Role;
use word_rule::RowWord;

/// Where guest memory begins.
pub const FIRST_ADDRESS: u64 = 0x10000;

/// How many doublewords guest memory has.
pub const DOUBLEWORDS: u64 = 1 << 20;

/// The word that nothing changes.
pub const QUIET: usize = 0;

/// The word with the generation of the modules with thread-local storage.
pub const GENERATION: usize = 1;

/// The word that counts events.
pub const COUNT: usize = 2;

/// What is added to a control word to lock it, and again to unlock it: that raises the version.
pub const LOCK: u64 = 8;

/// How many words the table has: the first words, rows, and two words a doubleword.
#[tactic(auto, unfolding(word_rule::specs::Layout::doublewords))]
pub(crate) fn table_words() -> usize
    ensures { result ≡ table_words }
{
    2 * DOUBLEWORDS as usize + 128
}

/// The doubleword of an address.
#[tactic(auto, unfolding(word_rule::specs::Layout::doublewords, word_rule::specs::Layout::place_of))]
pub fn place_at(address: u64) -> usize
    requires { IsDoubleword address }
    ensures place { result ≡ place_of address }
    ensures inside { result < doublewords }
{
    ((address - FIRST_ADDRESS) / 8) as usize
}

/// The word that holds a doubleword's value.
#[tactic(auto, unfolding(word_rule::specs::Layout::doublewords))]
pub fn value_word(at: usize) -> usize
    requires { at < doublewords }
    ensures word { result ≡ value_at at }
    ensures inside { result < table_words }
{
    2 * at + 128
}

/// The control word of a doubleword.
#[tactic(auto, unfolding(word_rule::specs::Layout::doublewords))]
pub fn control_word(at: usize) -> usize
    requires { at < doublewords }
    ensures word { result ≡ control_at at }
    ensures inside { result < table_words }
{
    2 * at + 129
}

/// The word of a hart's row that says where its call stands.
pub fn state_word(hart: u64) -> usize
    requires { hart < 16 }
    ensures word { result ≡ state_at hart }
    ensures inside { result < table_words }
{
    6 * hart as usize + 8
}

/// Another word of a hart's row.
pub fn row_word(hart: u64, word: RowWord) -> usize
    requires { hart < 16 }
    ensures word { result ≡ row_at hart (index_of word) }
    ensures inside { result < table_words }
{
    state_word(hart) + place_in_row(word)
}

// Where a word stands in its row, after the state.
fn place_in_row(word: RowWord) -> usize
    ensures place { result ≡ index_of word }
    ensures low { result < 6 }
{
    match word {
        RowWord::Number => 1,
        RowWord::Slot => 2,
        RowWord::Lazy => 3,
        RowWord::Value => 4,
        RowWord::Generation => 5,
    }
}

/// Whether somebody has locked the doubleword.
pub fn is_locked(control: u64) -> bool
    ensures { result ≡ (lock_bit control == 1) }
{
    control / 8 % 2 == 1
}

/// The role that a control word gives its doubleword.
pub fn role_of(control: u64) -> Role
    ensures { result ≡ role_in control }
{
    let roles = [Role::None, Role::Ro, Role::Rx, Role::Rw, Role::Slot];
    match roles.get((control % 8) as usize) {
        Some(role) => *role,
        None => Role::None,
    }
}

/// A role as control words have it.
pub fn code_of(role: Role) -> u64
    ensures code { result ≡ role_code role }
    ensures low { result < 5 }
{
    match role {
        Role::None => 0,
        Role::Ro => 1,
        Role::Rx => 2,
        Role::Rw => 3,
        Role::Slot => 4,
    }
}

/// The version that a control word gives its doubleword.
pub fn version_of(control: u64) -> u64
    ensures { result ≡ version_in control }
{
    control / 16
}
