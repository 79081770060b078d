//! `turns`: a run on one thread, by a written schedule.

ghost use Rattle.std.specs.Prelude.{◌≡◌, ◌<◌, ◌≤◌, ◌^◌, ◌++◌, All, IfErr, IfOk, List};
ghost use Rattle.ldso_cli.specs.Scheduled.{AsScheduled};
ghost use Rattle.ldso_cli.specs.End.{kept_end};
ghost use Rattle.ldso_cli.specs.Outside.{library_at};
ghost use Rattle.ldso_cli.specs.Played.{last_line, run_cause};
ghost use Rattle.ldso_cli.specs.Turns.{IsScheduled, Schedules, TurnsComes};
ghost use Rattle.history_calls.specs.Startup.{harts_of};
ghost use Rattle.trace_text.specs.RunTexts.Printed.{journal_lines};
ghost use Rattle.cli_read.specs.declared.schedule_read.fault.TurnsFault.TheVariants.{NotTurns};
ghost use Rattle.world_turns.specs.SchedulesPart.Grammar.{SaysTurns};
ghost use Rattle.world_turns.specs.declared.schedules.schedule.TurnItem.{TurnItem};
ghost use Rattle.trace_text.specs.Lines.{IsSayable};

use crate::answer::{Answer, usage};
use crate::outcome::End;
use crate::play::{Played, last_line, play, run_cause};
use cli_read::{TurnsFault, read_turns};
use cli_words::Turns;
use history_calls::served_calls_are_legal;
use history_journal::accepted_object;
use ld_base::Name;
use library_source::Library;
use std::alloc::{AllocError, Global};
use trace_text::{events_are_sayable, journal_text};
use world_turns::runs_stay_sound;

/// The items of a written schedule of so many harts.
///
/// # Errors
///
/// `NotTurns` where it is none, or want of memory.
fn items_of(alloc: Global, schedule: &Name, harts: u32) -> Result<world_turns::Turns, TurnsFault>
    ensures says { IfOk result (SaysTurns harts schedule.now) }
    ensures not_turns { IfErr result (λ fault. fault ≡ NotTurns → (items : List TurnItem) → SaysTurns harts schedule.now items → ⊥) }
{
    match str::from_utf8(schedule.as_bytes()) {
        Ok(text) => read_turns(alloc, text, harts),
        Err(_) => Err(TurnsFault::NotTurns),
    }
}

/// The answer of a run that is over.
fn told(alloc: Global, played: Played) -> Result<Answer, AllocError>
    requires { All IsSayable played.left.journal.events }
    ensures end { IfOk result (λ answer. answer.end ≡ kept_end (run_cause played.ended) played.left) }
    ensures text { IfOk result (λ answer. answer.text ≡ journal_lines played.left.journal.events ++ last_line played.ended) }
{
    let Played { ended, left } = played;
    let line = last_line(alloc, &ended)?;
    let text = journal_text(alloc, left.journal.as_slice(), line.as_str())?;
    let end = End {
        cause: run_cause(ended),
        kept: Some(left),
        trails: None,
    };
    Ok(Answer { end, text })
}

/// The answer of a run by these items, which the schedule says.
fn of_items<L: Library>(
    alloc: Global,
    command: &Turns,
    items: &world_turns::Turns,
    library: &mut L,
) -> Result<Answer, AllocError>
    requires few { harts_of command.now.setup < 2 ^ 32 }
    requires fuel { command.now.setup.fuel ≤ 2 ^ 32 }
    requires says { Schedules command.now items.now }
    ensures comes { IfOk result (λ answer. TurnsComes command.now (library_at L.files L.faults L.misses library.old)
        (library_at L.files L.faults L.misses library.new) answer.end answer.text) }
    ensures files { L.files library.new ≡ L.files library.old }
    ensures faults { L.faults library.old ≤ L.faults library.new }
    ensures misses { L.misses library.old ≤ L.misses library.new }
{
    accepted_object();
    runs_stay_sound();
    served_calls_are_legal();
    events_are_sayable();
    let played = play(alloc, &command.setup, items, library)?;
    told(alloc, played)
}

/// Runs a program on one thread by a schedule, and gives its journal. A schedule that is none of so many
/// harts is a usage.
pub(crate) fn turns<L: Library>(
    alloc: Global,
    command: &Turns,
    library: &mut L,
) -> Result<Answer, AllocError>
    requires few { harts_of command.now.setup < 2 ^ 32 }
    requires fuel { command.now.setup.fuel ≤ 2 ^ 32 }
    ensures comes { IfOk result (λ answer. AsScheduled command.now (library_at L.files L.faults L.misses library.old)
        (library_at L.files L.faults L.misses library.new) answer.end answer.text) }

    // What the library is left as.
    ensures unread { (IsScheduled command.now → ⊥) → library.new ≡ library.old }
    ensures files { L.files library.new ≡ L.files library.old }
    ensures faults { L.faults library.old ≤ L.faults library.new }
    ensures misses { L.misses library.old ≤ L.misses library.new }
{
    let harts = command.setup.harts.len() as u32 + 1;
    match items_of(alloc, &command.schedule, harts) {
        Ok(items) => of_items(alloc, command, &items, library),
        Err(TurnsFault::NotTurns) => usage(alloc),
        Err(TurnsFault::Memory) => Err(AllocError),
    }
}
