//! Memory gets what the events of a turn come to.

ghost use Rattle.std.specs.Prelude.{◌≡◌, ◌≤◌, List};
ghost use Rattle.history_event.specs.declared.event.Event.{Event};
ghost use Rattle.history_journal.specs.Following.{machine_of};
ghost use Rattle.word_rule.specs.Views.{IsLong};
ghost use Rattle.link_keeper.specs.Keeping.{KeepsView};
ghost use Rattle.link_keeper.specs.Remaking.{ComesTo, IsMade, MayMake, Remakes};

use hart_linker::RunNaming;
use history_calls::Installs;
use history_journal::accepted_object;
use kept_words::records_stay;
use link_state::LinkState;
use std::sync::Wait;
use word_installs::{install, installs_remake, unmap, unmappings_remake};
use word_memory::{KeeperSeat, Memory, Naming, latest_generation, row_word, set_generation};
use word_rule::{KeeperKind, RowWord};
use world_memory::MemoryChange;

/// Memory gets what the linker's answer handed out, by the first of a turn's events, none of which the keeper
/// has counted yet. The generation is then that of the state.
///
/// It takes no memory. Where pages go it waits for a doubleword that a hart has locked.
pub(crate) fn remake<R: Wait, J: RunNaming>(
    rt: &R,
    memory: &Memory<J>,
    keeper: &mut KeeperSeat<J>,
    state: &LinkState,
    change: &MemoryChange,
)
    requires view { KeepsView J.setting J.journal keeper.old }
    requires machine { J.setting.machine ≡ machine_of state.now.harts }
    requires comes { (e : Event) × (rest : List Event) × ComesTo J.setting state.now keeper.old e rest change.now }
    ensures { (e : Event) (rest : List Event) → ComesTo J.setting state.now keeper.old e rest change.now → Remakes J.setting J.journal e keeper.old keeper.new }
{
    accepted_object();
    installs_remake();
    unmappings_remake();
    records_stay();
    let generation = state.modules().generation();
    make(rt, memory, keeper, change, state.made_block(), generation);
    recall(memory, keeper);
}

/// Makes a change of memory, and sets the generation, where it rose. `made` is the block that the linker's
/// state has made last.
fn make<R: Wait, J: Naming>(
    rt: &R,
    memory: &Memory<J>,
    keeper: &mut KeeperSeat<J>,
    change: &MemoryChange,
    made: &Installs,
    generation: u64,
)
    requires may { MayMake change.now made.now keeper.old }
    requires rises { keeper.old.generation ≤ generation }
    ensures { IsMade change.now made.now generation keeper.old keeper.new }
{
    match change {
        MemoryChange::Nothing => raise_generation(memory, keeper, generation),
        MemoryChange::Installs(installs) => install(memory, keeper, installs, generation),
        MemoryChange::Made => install(memory, keeper, made, generation),
        MemoryChange::Removes(ranges) => {
            unmap(rt, memory, keeper, ranges.as_slice(), generation);
        }
    }
}

/// Sets the generation, where it rose.
fn raise_generation<J: Naming>(memory: &Memory<J>, keeper: &mut KeeperSeat<J>, generation: u64)
    requires { keeper.old.generation ≤ generation }
    ensures { keeper.new ≡ record keeper.old { generation = generation } }
{
    if latest_generation(memory, keeper) < generation {
        set_generation(memory, keeper, generation);
    }
}

/// The keeper knows of each doubleword and of each row, as any load shows.
fn recall<J: Naming>(memory: &Memory<J>, keeper: &mut KeeperSeat<J>)
    ensures same { keeper.new ≡ keeper.old }
    ensures long { IsLong keeper.old }
{
    let word = row_word(0, RowWord::Number);
    let _ = keeper.load_word(memory, word, KeeperKind::Recall(0, RowWord::Number));
}
