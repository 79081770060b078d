//! A whole run by a written schedule.

ghost use Rattle.std.specs.Prelude.{◌≡◌, ◌<◌, ◌≤◌, true, false, Contains, IsTrue, None};
ghost use Rattle.world_answers.specs.GuestsPart.GuestWorlds.Coming.{HasEnd};
ghost use Rattle.world_answers.specs.GuestsPart.Counting.{IsCounted, counts_at};
ghost use Rattle.hart_moves.specs.Starting.{starting_registers};
ghost use Rattle.plain_world.specs.Playing.{FinalisesOnce, InEachRun, OthersHaveEnded, Plays};
ghost use Rattle.plain_world.specs.Stretches.{GoesRound, TakesSome};
ghost use Rattle.plain_world.specs.Table.{moved};
ghost use Rattle.world_turns.specs.declared.schedules.schedule.TurnItem.{TurnItem as item_value};
ghost use Rattle.world_turns.specs.Run.{Constructs, RunEnds, RunFinishes, Repeats, Rounds, TakesItems, all_harts, have_ended};

use crate::World;
use ld_base::HartId;
use library_source::Library;
use std::alloc::Global;
use world_turns::{TurnItem, Turns};

/// The number of the hart that runs startup's constructors and the final destructors.
const FIRST_HART: u32 = 0;

impl World {
    /// Takes a run to its end by a schedule: what is left of startup's constructors, the items of the schedule,
    /// the harts in order until all have ended, the final destructors, where they haven't begun before, and
    /// what is left to settle. Each opening that is refused meanwhile for a read that failed, or for a missing
    /// library, shows that in the library's counts.
    pub fn run<L: Library>(&mut self, alloc: Global, turns: &Turns, library: &mut L)
        requires { (item : item_value) → Contains turns.now item → item.hart < self.old.count }
        ensures plays { InEachRun self.old (L.files library.old)
            (λ w. Plays w self.old.begun (starting_registers self.old.entry) turns.now self.old.world self.new.world) }
        ensures over { IsTrue (have_ended self.new.world) }
        ensures rest { self.new ≡ record self.old { begun = true; world = self.new.world } }
        ensures counts { IsCounted self.old.folders self.old.world self.new.world
            (counts_at L.faults L.misses library.old) (counts_at L.faults L.misses library.new) }
        ensures files { L.files library.new ≡ L.files library.old }
        ensures faults { L.faults library.old ≤ L.faults library.new }
        ensures misses { L.misses library.old ≤ L.misses library.new }
    {
        construct(self, alloc, library);
        follow(self, alloc, turns.as_slice(), library);
        finish(self, alloc, library);
        finalise(self, alloc, library);
        self.settle();
    }
}

/// The first hart runs what is left of startup's constructors.
fn construct<L: Library>(run: &mut World, alloc: Global, library: &mut L)
    ensures constructs { InEachRun run.old (L.files library.old) (λ w. Constructs w run.old.world run.new.world) }
    ensures rest { run.new ≡ moved run.old run.new.world }
    ensures counts { IsCounted run.old.folders run.old.world run.new.world
        (counts_at L.faults L.misses library.old) (counts_at L.faults L.misses library.new) }
    ensures files { L.files library.new ≡ L.files library.old }
    ensures faults { L.faults library.old ≤ L.faults library.new }
    ensures misses { L.misses library.old ≤ L.misses library.new }
{
    while run.is_starting() {
        go_on(run, alloc, HartId::new(FIRST_HART), library);
    }
}

/// The next turns of a hart that runs on.
fn go_on<L: Library>(run: &mut World, alloc: Global, id: HartId, library: &mut L)
    requires { HasEnd run.old.world id None }
    ensures takes { InEachRun run.old (L.files library.old) (λ w. TakesSome w id run.old.world run.new.world) }
    ensures rest { run.new ≡ moved run.old run.new.world }
    ensures counts { IsCounted run.old.folders run.old.world run.new.world
        (counts_at L.faults L.misses library.old) (counts_at L.faults L.misses library.new) }
    ensures files { L.files library.new ≡ L.files library.old }
    ensures faults { L.faults library.old ≤ L.faults library.new }
    ensures misses { L.misses library.old ≤ L.misses library.new }
{
    let _ = run.count();
    let _ = run.next_turns(alloc, id, u64::MAX, library);
}

/// The items of a schedule, one after another.
fn follow<L: Library>(run: &mut World, alloc: Global, items: &[TurnItem], library: &mut L)
    requires { (item : item_value) → Contains items.now item → item.hart < run.old.count }
    ensures follows { InEachRun run.old (L.files library.old) (λ w. TakesItems w items.now run.old.world run.new.world) }
    ensures rest { run.new ≡ moved run.old run.new.world }
    ensures counts { IsCounted run.old.folders run.old.world run.new.world
        (counts_at L.faults L.misses library.old) (counts_at L.faults L.misses library.new) }
    ensures files { L.files library.new ≡ L.files library.old }
    ensures faults { L.faults library.old ≤ L.faults library.new }
    ensures misses { L.misses library.old ≤ L.misses library.new }
{
    for item in items {
        repeat(run, alloc, *item, library);
    }
}

/// A hart takes its next so many turns, or all that it has.
fn repeat<L: Library>(run: &mut World, alloc: Global, item: TurnItem, library: &mut L)
    requires { item.hart < run.old.count }
    ensures repeats { InEachRun run.old (L.files library.old) (λ w. Repeats w item.hart item.count run.old.world run.new.world) }
    ensures rest { run.new ≡ moved run.old run.new.world }
    ensures counts { IsCounted run.old.folders run.old.world run.new.world
        (counts_at L.faults L.misses library.old) (counts_at L.faults L.misses library.new) }
    ensures files { L.files library.new ≡ L.files library.old }
    ensures faults { L.faults library.old ≤ L.faults library.new }
    ensures misses { L.misses library.old ≤ L.misses library.new }
{
    let mut left = item.count;
    while left > 0 {
        let taken = run.next_turns(alloc, item.hart, left, library);
        if taken == 0 {
            return;
        }
        left -= taken;
    }
}

/// The harts in their order, again and again, until all have ended.
fn finish<L: Library>(run: &mut World, alloc: Global, library: &mut L)
    ensures finishes { InEachRun run.old (L.files library.old) (λ w. RunFinishes w run.old.world run.new.world) }
    ensures rest { run.new ≡ moved run.old run.new.world }
    ensures over { IsTrue (have_ended run.new.world) }
    ensures counts { IsCounted run.old.folders run.old.world run.new.world
        (counts_at L.faults L.misses library.old) (counts_at L.faults L.misses library.new) }
    ensures files { L.files library.new ≡ L.files library.old }
    ensures faults { L.faults library.old ≤ L.faults library.new }
    ensures misses { L.misses library.old ≤ L.misses library.new }
{
    while !run.have_ended() {
        go_rounds(run, alloc, library);
    }
}

/// A turn of each hart, in their order; where one alone runs on, as many such rounds as it takes turns at a stretch.
fn go_rounds<L: Library>(run: &mut World, alloc: Global, library: &mut L)
    requires { have_ended run.old.world ≡ false }
    ensures rounds { InEachRun run.old (L.files library.old) (λ w. GoesRound w run.old.world run.new.world) }
    ensures rest { run.new ≡ moved run.old run.new.world }
    ensures counts { IsCounted run.old.folders run.old.world run.new.world
        (counts_at L.faults L.misses library.old) (counts_at L.faults L.misses library.new) }
    ensures files { L.files library.new ≡ L.files library.old }
    ensures faults { L.faults library.old ≤ L.faults library.new }
    ensures misses { L.misses library.old ≤ L.misses library.new }
{
    match run.last_running() {
        Some(last) => go_on(run, alloc, last, library),
        None => go_round(run, alloc, library),
    }
}

/// A turn of each hart, in their order.
fn go_round<L: Library>(run: &mut World, alloc: Global, library: &mut L)
    ensures rounds { InEachRun run.old (L.files library.old) (λ w. Rounds w (all_harts run.old.world) run.old.world run.new.world) }
    ensures rest { run.new ≡ moved run.old run.new.world }
    ensures counts { IsCounted run.old.folders run.old.world run.new.world
        (counts_at L.faults L.misses library.old) (counts_at L.faults L.misses library.new) }
    ensures files { L.files library.new ≡ L.files library.old }
    ensures faults { L.faults library.old ≤ L.faults library.new }
    ensures misses { L.misses library.old ≤ L.misses library.new }
{
    for number in 0..run.count() {
        let _ = run.next_turns(alloc, HartId::new(number), 1, library);
    }
}

/// The final destructors, where each hart has ended by exit and they haven't begun before.
fn finalise<L: Library>(run: &mut World, alloc: Global, library: &mut L)
    requires { IsTrue (have_ended run.old.world) }
    ensures finalises { InEachRun run.old (L.files library.old)
        (λ w. FinalisesOnce w run.old.begun (starting_registers run.old.entry) run.old.world run.new.world) }
    ensures over { IsTrue (have_ended run.new.world) }
    ensures rest { run.new ≡ record run.old { begun = true; world = run.new.world } }
    ensures counts { IsCounted run.old.folders run.old.world run.new.world
        (counts_at L.faults L.misses library.old) (counts_at L.faults L.misses library.new) }
    ensures files { L.files library.new ≡ L.files library.old }
    ensures faults { L.faults library.old ≤ L.faults library.new }
    ensures misses { L.misses library.old ≤ L.misses library.new }
{
    if run.begin_finals(alloc) {
        run_finals(run, alloc, library);
    }
}

/// The first hart runs the final destructors until it ends.
fn run_finals<L: Library>(run: &mut World, alloc: Global, library: &mut L)
    requires { OthersHaveEnded run.old.world }
    ensures ends { InEachRun run.old (L.files library.old) (λ w. RunEnds w run.old.world run.new.world) }
    ensures rest { run.new ≡ moved run.old run.new.world }
    ensures over { IsTrue (have_ended run.new.world) }
    ensures counts { IsCounted run.old.folders run.old.world run.new.world
        (counts_at L.faults L.misses library.old) (counts_at L.faults L.misses library.new) }
    ensures files { L.files library.new ≡ L.files library.old }
    ensures faults { L.faults library.old ≤ L.faults library.new }
    ensures misses { L.misses library.old ≤ L.misses library.new }
{
    while !run.have_ended() {
        go_on(run, alloc, HartId::new(FIRST_HART), library);
    }
}
