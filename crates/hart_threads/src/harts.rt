//! Harts side by side.

ghost use Rattle.std.specs.Prelude.{◌≡◌, ◌<◌, ℕ, false, All, List, length, slice_index_or};
ghost use Rattle.hart_moves.specs.Harts.{HartState};
ghost use Rattle.hart_moves.specs.Starting.{starting_registers};
ghost use Rattle.hart_linker.specs.Between.{HasHeard, Hears};
ghost use Rattle.hart_threads.specs.Ends.{IsToldOf, RanFirst, RunsAlone};
ghost use Rattle.hart_threads.specs.Run.{HasStarted, HearsUpTo, IsReady, IsUnrun, RunsOn, RunsToEnd};
ghost use Rattle.hart_trails.specs.Ends.{IsFresh};
ghost use Rattle.history_event.specs.declared.event.Event.{Event};
ghost use Rattle.word_rule.specs.Views.{BeginsWith, IsLane};
ghost use Rattle.word_rule.specs.declared.view.HartView.{HartView};

use crate::run::HartRun;
use hart_fits::harts_fit;
use hart_linker::{Linker, RunNaming};
use hart_moves::turns_append;
use hart_trails::trails_grow;
use history_event::{HartEnd, HartEntry};
use std::sync::Wait;
use std::thread::{Threads, for_each_mut};
use word_memory::{HartSeat, Memory};

/// How many harts there are at most.
const HARTS: usize = 16;

/// Runs a hart until it has ended.
fn run_one<R: Wait, J: RunNaming, K: Linker<J>>(
    rt: &R,
    linker: &K,
    memory: &Memory<J>,
    run: &mut HartRun<J>,
)
    requires { IsReady J.setting J.journal run.old.seat run.old.hart.hart run.old.blocks }
    ensures { RunsToEnd J.setting J.journal run.old.seat run.new.seat run.old.hart.hart run.new.hart.hart run.new.blocks }
{
    run.run(rt, linker, memory);
}

/// Runs harts side by side, each until it has ended. The first one's constructors of startup are over.
fn run_all<R: Threads + Wait + Sync, J: RunNaming + Send + Sync, K: Linker<J> + Sync>(
    rt: &R,
    linker: &K,
    memory: &Memory<J>,
    runs: &mut [HartRun<J>],
)
    requires ready { All (λ run. IsReady J.setting J.journal run.seat run.hart.hart run.blocks) runs.old }
    requires over { (d : _) → HasStarted (slice_index_or runs.old 0 d).hart.hart }
    ensures { (i : ℕ) (d : _) → i < length runs.old
        → RunsToEnd J.setting J.journal (slice_index_or runs.old i d).seat (slice_index_or runs.new i d).seat
        (slice_index_or runs.old i d).hart.hart (slice_index_or runs.new i d).hart.hart (slice_index_or runs.new i d).blocks }
{
    for_each_mut(rt, runs, HARTS, &|_, run| run_one(rt, linker, memory, run));
}

/// Runs the first hart alone until startup's constructors are over.
fn start_first<R: Wait, J: RunNaming, K: Linker<J>>(
    rt: &R,
    linker: &K,
    memory: &Memory<J>,
    runs: &mut [HartRun<J>],
)
    requires some { 0 < length runs.old }
    requires ready { All (λ run. IsReady J.setting J.journal run.seat run.hart.hart run.blocks) runs.old }
    ensures ready { All (λ run. IsReady J.setting J.journal run.seat run.hart.hart run.blocks) runs.new }
    ensures first { (d : _) → RunsOn J.setting J.journal (slice_index_or runs.old 0 d).seat (slice_index_or runs.new 0 d).seat
        (slice_index_or runs.old 0 d).hart.hart (slice_index_or runs.new 0 d).hart.hart (slice_index_or runs.new 0 d).blocks }
    ensures over { (d : _) → HasStarted (slice_index_or runs.new 0 d).hart.hart }
    ensures calling { (d : _) → (slice_index_or runs.new 0 d).seat.lane.calling ≡ false }
    ensures others { (i : ℕ) (d : _) → 0 < i → slice_index_or runs.new i d ≡ slice_index_or runs.old i d }
{
    runs[0].start(rt, linker, memory);
}

/// Tells two harts of all events: they have heard of the same then.
fn tell_both<R: Wait, J: RunNaming, K: Linker<J>>(
    rt: &R,
    linker: &K,
    memory: &Memory<J>,
    one: &mut HartSeat<J>,
    other: &mut HartSeat<J>,
)
    requires one { HasHeard J.setting J.journal one.old }
    requires one_calling { one.old.lane.calling ≡ false }
    requires other { HasHeard J.setting J.journal other.old }
    requires other_calling { other.old.lane.calling ≡ false }
    ensures one { Hears J.setting J.journal one.old one.new }
    ensures other { Hears J.setting J.journal other.old other.new }
    ensures same { other.new.heard ≡ one.new.heard }
    ensures lane { IsLane other.old.lane }
{
    let _ = other.number();
    linker.tell(rt, memory, one, other);
}

/// Tells harts of all events, and the first one with each of them: it has heard of all that they have then.
fn tell_others<R: Wait, J: RunNaming, K: Linker<J>>(
    rt: &R,
    linker: &K,
    memory: &Memory<J>,
    first: &mut HartSeat<J>,
    others: &mut [HartRun<J>],
)
    requires first { HasHeard J.setting J.journal first.old }
    requires first_calling { first.old.lane.calling ≡ false }
    requires heard { All (λ run. HasHeard J.setting J.journal run.seat) others.old }
    requires calling { All (λ run. run.seat.lane.calling ≡ false) others.old }
    ensures first { Hears J.setting J.journal first.old first.new }
    ensures told { (i : ℕ) (d : _) → i < length others.old
        → HearsUpTo J.setting J.journal first.new (slice_index_or others.old i d).seat (slice_index_or others.new i d).seat }
    ensures since { (i : ℕ) (d : _) → i < length others.old → BeginsWith (slice_index_or others.new i d).seat.heard first.old.heard }
    ensures harts { (i : ℕ) (d : _) → (slice_index_or others.new i d).hart ≡ (slice_index_or others.old i d).hart }
    ensures blocks { (i : ℕ) (d : _) → (slice_index_or others.new i d).blocks ≡ (slice_index_or others.old i d).blocks }
{
    for other in others.iter_mut() {
        tell_both(rt, linker, memory, first, &mut other.seat);
    }
}

/// Tells all harts of a run of events: the first one has heard of all that each other has then.
fn tell_all<R: Wait, J: RunNaming, K: Linker<J>>(
    rt: &R,
    linker: &K,
    memory: &Memory<J>,
    runs: &mut [HartRun<J>],
)
    requires some { 0 < length runs.old }
    requires heard { All (λ run. HasHeard J.setting J.journal run.seat) runs.old }
    requires calling { All (λ run. run.seat.lane.calling ≡ false) runs.old }
    ensures told { (i : ℕ) (d : _) → i < length runs.old
        → HearsUpTo J.setting J.journal (slice_index_or runs.new 0 d).seat (slice_index_or runs.old i d).seat (slice_index_or runs.new i d).seat }
    ensures since { (i : ℕ) (d : _) → i < length runs.old → BeginsWith (slice_index_or runs.new i d).seat.heard (slice_index_or runs.old 0 d).seat.heard }
    ensures harts { (i : ℕ) (d : _) → (slice_index_or runs.new i d).hart ≡ (slice_index_or runs.old i d).hart }
    ensures blocks { (i : ℕ) (d : _) → (slice_index_or runs.new i d).blocks ≡ (slice_index_or runs.old i d).blocks }
{
    let _ = runs[0].seat.number();
    let (first, others) = runs.split_at_mut(1);
    tell_others(rt, linker, memory, &mut first[0].seat, others);
}

/// Tells harts of what the first one has done alone. It hears with the second one, and each other with that one: so
/// they all have heard of what it has then.
fn tell_begun<R: Wait, J: RunNaming, K: Linker<J>>(
    rt: &R,
    linker: &K,
    memory: &Memory<J>,
    runs: &mut [HartRun<J>],
)
    requires some { 0 < length runs.old }
    requires heard { All (λ run. HasHeard J.setting J.journal run.seat) runs.old }
    requires calling { All (λ run. run.seat.lane.calling ≡ false) runs.old }
    ensures hears { (i : ℕ) (d : _) → i < length runs.old
        → Hears J.setting J.journal (slice_index_or runs.old i d).seat (slice_index_or runs.new i d).seat }
    ensures lanes { All (λ run. IsLane run.seat.lane) runs.old }
    ensures since { (i : ℕ) (d : _) → i < length runs.old → BeginsWith (slice_index_or runs.new i d).seat.heard (slice_index_or runs.new 0 d).seat.heard }
    ensures harts { (i : ℕ) (d : _) → (slice_index_or runs.new i d).hart ≡ (slice_index_or runs.old i d).hart }
    ensures blocks { (i : ℕ) (d : _) → (slice_index_or runs.new i d).blocks ≡ (slice_index_or runs.old i d).blocks }
{
    let _ = runs[0].seat.number();
    let (first, others) = runs.split_at_mut(1);
    if others.is_empty() {
        return;
    }
    tell_both(rt, linker, memory, &mut first[0].seat, &mut others[0].seat);
    tell_all(rt, linker, memory, others);
}

/// Starts the harts of a run: the first one runs alone until startup's constructors are over, or it has ended, and
/// all are told of what it did. No other takes a turn.
pub fn start_harts<R: Wait, J: RunNaming, K: Linker<J>>(
    rt: &R,
    linker: &K,
    memory: &Memory<J>,
    runs: &mut [HartRun<J>],
)
    requires some { 0 < length runs.old }
    requires harts { length runs.old ≡ J.setting.machine.harts }
    requires ready { All (λ run. IsReady J.setting J.journal run.seat run.hart.hart run.blocks) runs.old }
    requires numbers { (i : ℕ) (d : _) → i < length runs.old → (slice_index_or runs.old i d).seat.number ≡ i }
    requires heard { All (λ run. run.seat.heard ≡ J.journal) runs.old }
    requires fresh { (d : _) → IsFresh (slice_index_or runs.old 0 d).hart.hart }
    requires unrun { All (λ run. IsUnrun run.seat run.hart.hart) runs.old }
    ensures ready { All (λ run. IsReady J.setting J.journal run.seat run.hart.hart run.blocks) runs.new }
    ensures over { (d : _) → HasStarted (slice_index_or runs.new 0 d).hart.hart }
    ensures apart { (alone : List Event)
        × ((d : _) → RunsAlone J.setting J.journal alone (slice_index_or runs.old 0 d).seat (slice_index_or runs.new 0 d).seat
        (slice_index_or runs.old 0 d).hart.hart (slice_index_or runs.new 0 d).hart.hart)
        × ((i : ℕ) (d : _) → 0 < i → i < length runs.old
        → IsToldOf J.setting J.journal alone (slice_index_or runs.old i d).seat (slice_index_or runs.new i d).seat) }
    ensures others { (i : ℕ) (d : _) → 0 < i → (slice_index_or runs.new i d).hart ≡ (slice_index_or runs.old i d).hart }
{
    harts_fit();
    start_first(rt, linker, memory, runs);
    tell_begun(rt, linker, memory, runs);
}

/// Runs the harts of a run that were started, each to its end: all side by side, and then the first in the final
/// destructors. Answers the end that counts for the first; each other has the one that it ended with. The first
/// has heard of all that each other has.
pub fn run_harts<R: Threads + Wait + Sync, J: RunNaming + Send + Sync, K: Linker<J> + Sync>(
    rt: &R,
    linker: &K,
    memory: &Memory<J>,
    runs: &mut [HartRun<J>],
    entry: HartEntry,
) -> HartEnd
    requires some { 0 < length runs.old }
    requires harts { length runs.old ≡ J.setting.machine.harts }
    requires ready { All (λ run. IsReady J.setting J.journal run.seat run.hart.hart run.blocks) runs.old }
    requires over { (d : _) → HasStarted (slice_index_or runs.old 0 d).hart.hart }
    requires alone { (d : _) → (alone : List Event) × (before : HartView) × (b : HartState)
        × RunsAlone J.setting J.journal alone before (slice_index_or runs.old 0 d).seat b (slice_index_or runs.old 0 d).hart.hart }
    ensures first { (d : _) (alone : List Event) (before : HartView) (b : HartState)
        → RunsAlone J.setting J.journal alone before (slice_index_or runs.old 0 d).seat b (slice_index_or runs.old 0 d).hart.hart
        → RanFirst J.setting J.journal alone (starting_registers entry) before (slice_index_or runs.new 0 d).seat b result }
    ensures others { (i : ℕ) (d : _) → 0 < i → i < length runs.old
        → RunsToEnd J.setting J.journal (slice_index_or runs.old i d).seat (slice_index_or runs.new i d).seat
        (slice_index_or runs.old i d).hart.hart (slice_index_or runs.new i d).hart.hart (slice_index_or runs.new i d).blocks }
    ensures fronts { (i : ℕ) (d : _) → 0 < i → i < length runs.old
        → BeginsWith (slice_index_or runs.new 0 d).seat.heard (slice_index_or runs.new i d).seat.heard }
{
    trails_grow();
    turns_append();
    run_all(rt, linker, memory, runs);
    tell_all(rt, linker, memory, runs);
    runs[0].finish(rt, linker, memory, entry)
}
