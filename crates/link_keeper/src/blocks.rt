//! The blocks of thread-local storage that a hart keeps, behind a turn.

ghost use Rattle.std.specs.Prelude.{◌≡◌, ◌<◌, true, IsSome};
ghost use Rattle.link_keeper.specs.Handing.{KeepsAnswer, is_stored};
ghost use Rattle.tls_blocks.specs.Numbers.{module_at};

use hart_linker::HartBlocks;
use tls_blocks::TlsModules;
use word_rule::Entry;

/// The mark of an event's entry.
const EVENT: u8 = 1;
/// The mark of an answer on thread-local storage that is no event.
const BLOCK: u8 = 2;

/// The hart's blocks are those of the modules' generation from now on, and the one that it was answered is
/// kept, if it was answered one.
pub(crate) fn keep_answer(blocks: &mut HartBlocks, modules: &TlsModules, entry: Entry)
    requires room { is_stored entry ≡ true → 0 < blocks.old.spare }
    requires there { is_stored entry ≡ true → IsSome (module_at modules.now.modules entry.slot) }
    ensures { KeepsAnswer modules.now.generation entry blocks.old blocks.new }
{
    blocks.begin(modules.generation());
    if is_stored(entry) {
        if let Some(module) = modules.find(entry.slot) {
            blocks.keep(module, entry.value);
        }
    }
}

/// Whether an entry is an answer on thread-local storage.
fn is_stored(entry: Entry) -> bool
    ensures { result ≡ is_stored entry }
{
    if entry.mark == EVENT {
        entry.slot != 0
    } else {
        entry.mark == BLOCK
    }
}
