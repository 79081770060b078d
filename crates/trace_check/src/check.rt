//! A trace, line by line.

ghost use Rattle.std.specs.Prelude.{◌≡◌, ◌≢◌, ◌≤◌, ◌+◌, [], ℕ, List, IfErr, IfOk, None, Ok, OnOk, map};
ghost use Rattle.history_event.specs.declared.event.Event.{Event};
ghost use Rattle.history_journal.specs.Following.{machine_of};
ghost use Rattle.history_state.specs.Setting.{Setting};
ghost use Rattle.library_source.specs.Count.{Rises};
ghost use Rattle.trace_check.specs.Judged.{IsJudged, Judged, MayBeRead, Says, at, legal};
ghost use Rattle.trace_check.specs.Lines.{AreLines};
ghost use Rattle.trace_check.specs.Rows.{AreTaken, IsOfLine, IsPrepared, StopsAs, StopsIn, end_cause};
ghost use Rattle.trace_check.specs.Split.{lines_of};
ghost use Rattle.trace_check.specs.declared.verdict.CheckFault.TheVariants.{At as IsAt, ReadFault as IsReadFault};
ghost use Rattle.trace_check.specs.declared.verdict.TraceCause.{TraceCause as ACause};
ghost use Rattle.trace_opens.specs.OpeningRows.Expected.{trace_run};
ghost use Rattle.trace_replay.specs.Shown.{Shows};

use crate::harts::named_harts;
use crate::lines::{Lines, split_lines};
use crate::taking::take_line;
use crate::verdict::{CheckFault, TraceCause};
use history_state::legal_step_by_step;
use ld_base::Names;
use library_source::Library;
use std::alloc::{AllocError, Global};
use trace_opens::Doubt;
use trace_replay::Replay;
use trace_rows::is_whole;

/// Judges a trace, the lines of a run's history with a last line that begins with `end `: by the objects that the
/// library has at the paths which the lines name, of a run without preload names that looks for libraries in these
/// folders. Answers how many events there are, if the trace is legal and whole. The library is handed back.
///
/// Over a library that doesn't tell its files, a trace that passes is legal over some files, each opening by its own.
/// A line that is refused then is the first that is wrong over any files, or is an opening's that loads a name: of
/// that no more is said.
///
/// # Errors
///
/// The first line that is refused; that the library failed to read a path, which its count shows, and to which an
/// opening may come; or want of memory.
pub fn check_trace<L: Library>(
    alloc: Global,
    trace: &[u8],
    folders: &Names,
    library: L,
) -> (Result<u64, CheckFault>, L)
    ensures passed { IfOk result.0 (λ count. IsJudged folders.now (L.files library) trace.now (legal count)) }
    ensures refused { IfErr result.0 (λ fault. (line : ℕ) (cause : ACause) → fault ≡ IsAt line cause
        → IsJudged folders.now (L.files library) trace.now (at line cause)) }
    ensures path { IfErr result.0 (λ fault. (path : List ℕ) → fault ≡ IsReadFault path → MayBeRead folders.now (L.files library) trace.now path) }
    ensures failed { IfErr result.0 (λ fault. (path : List ℕ) → fault ≡ IsReadFault path → Rises (L.faults library) (L.faults result.1)) }
    ensures files { L.files result.1 ≡ L.files library }
    ensures faults { L.faults library ≤ L.faults result.1 }
    ensures misses { L.misses library ≤ L.misses result.1 }
{
    match prepare(alloc, trace) {
        Ok((lines, replay)) => check_lines(alloc, &lines, replay, folders, library),
        Err(AllocError) => (Err(CheckFault::Memory), library),
    }
}

/// The lines of a trace, and the lists before its first event.
///
/// # Errors
///
/// Want of memory.
fn prepare(alloc: Global, trace: &[u8]) -> Result<(Lines<'_>, Replay), AllocError>
    ensures lines { IfOk result (λ prepared. AreLines trace.now (lines_of prepared.0)) }
    ensures begins { IfOk result (λ prepared. IsPrepared (lines_of prepared.0) prepared.1) }
{
    let lines = split_lines(alloc, trace)?;
    let named = named_harts(alloc, lines.events.as_slice())?;
    let harts = named.checked_add(1).ok_or(AllocError)?;
    let replay = Replay::new(alloc, harts)?;
    Ok((lines, replay))
}

/// Judges the lines of a trace.
///
/// # Errors
///
/// As those of [`check_trace`].
fn check_lines<L: Library>(
    alloc: Global,
    lines: &Lines,
    replay: Replay,
    folders: &Names,
    library: L,
) -> (Result<u64, CheckFault>, L)
    requires harts { 1 ≤ replay.harts }
    requires begins { Shows [] replay }
    ensures passed { IfOk result.0 (λ count. Judged (trace_run replay.harts folders.now (L.files library)) (lines_of lines.now) (legal count)) }
    ensures stopped { IfErr result.0 (StopsAs (trace_run replay.harts folders.now (L.files library)) (lines_of lines.now)) }
    ensures failed { IfErr result.0 (λ fault. (path : List ℕ) → fault ≡ IsReadFault path → Rises (L.faults library) (L.faults result.1)) }
    ensures files { L.files result.1 ≡ L.files library }
    ensures faults { L.faults library ≤ L.faults result.1 }
    ensures misses { L.misses library ≤ L.misses result.1 }
{
    let mut replay = replay;
    let (taken, library) = take_lines(
        alloc,
        &mut replay,
        lines.events.as_slice(),
        folders,
        library,
    );
    match taken {
        Ok(()) => (judge_end(&replay, lines), library),
        Err(fault) => (Err(fault), library),
    }
}

/// Takes in the events of lines, one after another.
///
/// # Errors
///
/// The first line that is refused; that the library failed to read a path, which its count shows; or want of memory.
fn take_lines<L: Library>(
    alloc: Global,
    replay: &mut Replay,
    lines: &[&[u8]],
    folders: &Names,
    library: L,
) -> (Result<(), CheckFault>, L)
    requires harts { 1 ≤ replay.old.harts }
    requires begins { Shows [] replay.old }
    ensures taken { OnOk result.0 (AreTaken (trace_run replay.old.harts folders.now (L.files library)) (map (λ line. line.now) lines.now) replay.new) }
    ensures stopped { IfErr result.0 (StopsIn (trace_run replay.old.harts folders.now (L.files library)) (map (λ line. line.now) lines.now)) }
    ensures failed { IfErr result.0 (λ fault. (path : List ℕ) → fault ≡ IsReadFault path → Rises (L.faults library) (L.faults result.1)) }
    ensures harts { replay.new.harts ≡ replay.old.harts }
    ensures files { L.files result.1 ≡ L.files library }
    ensures faults { L.faults library ≤ L.faults result.1 }
    ensures misses { L.misses library ≤ L.misses result.1 }
{
    legal_step_by_step();
    let mut library = library;
    for (index, line) in lines.iter().enumerate() {
        let (checked, back) = take_line(alloc, replay, line, folders, library);
        library = back;
        if let Err(fault) = refuse(index as u64 + 1, checked) {
            return (Err(fault), library);
        }
    }
    (Ok(()), library)
}

/// Refuses the line of this number, if there is a cause.
///
/// # Errors
///
/// That it is refused; or the doubt whether it is.
fn refuse(number: u64, checked: Result<Option<TraceCause>, Doubt>) -> Result<(), CheckFault>
    ensures ok { OnOk result (checked ≡ Ok None) }
    ensures err { IfErr result (IsOfLine number checked) }
{
    match checked? {
        None => Ok(()),
        Some(cause) => Err(CheckFault::At(number, cause)),
    }
}

/// Judges the end of a trace whose lines of events are taken in.
///
/// # Errors
///
/// The line that is refused.
fn judge_end(replay: &Replay, lines: &Lines) -> Result<u64, CheckFault>
    ensures passed { (w : Setting) (events : List Event) → w.machine ≡ machine_of replay.now.harts → Says w (lines_of lines.now).events events
        → Shows events replay.now → IfOk result (λ count. Judged w (lines_of lines.now) (legal count)) }
    ensures refused { (w : Setting) (events : List Event) → w.machine ≡ machine_of replay.now.harts → Says w (lines_of lines.now).events events
        → Shows events replay.now → IfErr result (StopsAs w (lines_of lines.now)) }
    ensures line { IfErr result (λ fault. (path : List ℕ) → fault ≢ IsReadFault path) }
{
    let count = lines.events.len() as u64;
    if lines.last.is_none() {
        return Err(CheckFault::At(count + 1, end_cause(lines.rest)));
    }
    if !is_whole(replay) {
        return Err(CheckFault::At(count + 1, TraceCause::NotWhole));
    }
    if !lines.rest.is_empty() {
        return Err(CheckFault::At(count + 2, TraceCause::NotALine));
    }
    Ok(count)
}

/// Why a trace is refused that has no last line, by what stands behind its last line feed.
fn end_cause(rest: &[u8]) -> TraceCause
    ensures { result ≡ end_cause rest.now }
{
    if rest.is_empty() {
        TraceCause::NoEnd
    } else {
        TraceCause::NotALine
    }
}
