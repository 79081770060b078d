//! Whether an opening may be refused for a read that fails.

ghost use Rattle.std.specs.Prelude.{◌≡◌, ◌≤◌, ℕ, List, [], Some, false, IfErr, IfOk, IsTrue};
ghost use Rattle.ld_base.specs.declared.linking.File.{File};
ghost use Rattle.library_source.specs.Count.{Rises};
ghost use Rattle.history_event.specs.declared.event.Event.{Event};
ghost use Rattle.history_state.specs.Allowed.{Allowed};
ghost use Rattle.history_state.specs.Setting.{Setting};
ghost use Rattle.history_calls.specs.Startup.{harts_of, program_ask};
ghost use Rattle.link_open_plan.specs.Before.{HasObjects, IsBefore};
ghost use Rattle.link_open_plan.specs.Startup.{IsFirst, run_of};
ghost use Rattle.trace_opens.specs.FailedPaths.Emptied.{first_rule, is_broken, reads_badly};
ghost use Rattle.trace_opens.specs.FailedPaths.Row.{GivesOther};
ghost use Rattle.trace_opens.specs.OpeningRows.Expected.{MayFailSo};
ghost use Rattle.trace_opens.specs.declared.failed_paths.judging.Doubt.TheVariants.{ReadFault};

use super::emptied::EmptyAt;
use super::judging::{Doubt, judge};
use super::law::{a_failed_read_is_an_empty_file, empty_is_refused};
use history_calls::Setup;
use history_event::OpenAsk;
use ld_base::{HartId, Name, Names};
use library_source::Library;
use link_open_plan::{Before, plan_named, plan_program};
use std::alloc::Global;

/// Whether an opening by name, once startup is over, may be refused for a failed read of this path. The
/// library is handed back.
///
/// # Errors
///
/// That the library itself failed to read a path, which its count shows, or want of memory.
pub(crate) fn may_fail_at<L: Library>(
    alloc: Global,
    before: &Before,
    hart: HartId,
    ask: &OpenAsk,
    name: &Name,
    folders: &Names,
    library: L,
    path: &Name,
) -> (Result<bool, Doubt>, L)
    requires there { HasObjects before.now }
    ensures yes { IfOk result.0 (λ may. IsTrue may → (w : Setting) (past : List Event) (id : ℕ)
        → IsBefore w past ask.now name.now id before.now folders.now (L.files library) → Allowed w past (reads_badly hart ask.now path.now)) }
    ensures no { IfOk result.0 (λ may. may ≡ false → (w : Setting) (files : List File) (past : List Event) (id : ℕ) → w.files ≡ Some files
        → IsBefore w past ask.now name.now id before.now folders.now (L.files library) → ¬ (Allowed w past (reads_badly hart ask.now path.now))) }
    ensures failed { IfErr result.0 (λ doubt. (failed : List ℕ) → doubt ≡ ReadFault failed → Rises (L.faults library) (L.faults result.1)) }
    ensures path { IfErr result.0 (λ doubt. (w : Setting) (past : List Event) (id : ℕ)
        → IsBefore w past ask.now name.now id before.now folders.now (L.files library) → MayFailSo w past hart ask.now doubt) }
    ensures files { L.files result.1 ≡ L.files library }
    ensures faults { L.faults library ≤ L.faults result.1 }
    ensures misses { L.misses library ≤ L.misses result.1 }
{
    a_failed_read_is_an_empty_file();
    empty_is_refused();
    let mut emptied = EmptyAt::new(alloc, library, path);
    let answer = plan_and_judge(alloc, before, hart, ask, name, folders, &mut emptied, path);
    (answer, emptied.into_library())
}

fn plan_and_judge<L: Library>(
    alloc: Global,
    before: &Before,
    hart: HartId,
    ask: &OpenAsk,
    name: &Name,
    folders: &Names,
    library: &mut L,
    path: &Name,
) -> Result<bool, Doubt>
    requires there { HasObjects before.now }
    ensures yes { IfOk result (λ may. IsTrue may → (w : Setting) (past : List Event) (id : ℕ)
        → IsBefore w past ask.now name.now id before.now folders.now (L.files library.old) → Allowed w past (is_broken hart ask.now path.now first_rule)) }
    ensures no { IfOk result (λ may. may ≡ false → (w : Setting) (past : List Event) (id : ℕ)
        → IsBefore w past ask.now name.now id before.now folders.now (L.files library.old) → GivesOther w past hart ask.now path.now) }
    ensures failed { IfErr result (λ doubt. (failed : List ℕ) → doubt ≡ ReadFault failed → Rises (L.faults library.old) (L.faults library.new)) }
    ensures path { IfErr result (λ doubt. (w : Setting) (past : List Event) (id : ℕ)
        → IsBefore w past ask.now name.now id before.now folders.now (L.files library.old) → MayFailSo w past hart ask.now doubt) }
    ensures files { L.files library.new ≡ L.files library.old }
    ensures faults { L.faults library.old ≤ L.faults library.new }
    ensures misses { L.misses library.old ≤ L.misses library.new }
{
    let planned = plan_named(alloc, before, hart, ask, name, folders, library);
    judge(alloc, path, &planned)
}

/// Whether startup's opening may be refused for a failed read of this path. The library is handed back.
///
/// # Errors
///
/// That the library itself failed to read a path, which its count shows, or want of memory.
pub(crate) fn may_fail_at_start<L: Library>(
    alloc: Global,
    before: &Before,
    harts: u32,
    ask: &OpenAsk,
    setup: &Setup,
    library: L,
    path: &Name,
) -> (Result<bool, Doubt>, L)
    requires first { IsFirst before.now }
    requires harts { harts ≡ harts_of setup.now }
    requires ask { ask.now ≡ program_ask setup.now }
    ensures yes { IfOk result.0 (λ may. IsTrue may → Allowed (run_of setup.now (L.files library)) [] (reads_badly 0 ask.now path.now)) }
    ensures no { IfOk result.0 (λ may. may ≡ false → (files : List File) → L.files library ≡ Some files
        → ¬ (Allowed (run_of setup.now (L.files library)) [] (reads_badly 0 ask.now path.now))) }
    ensures failed { IfErr result.0 (λ doubt. (failed : List ℕ) → doubt ≡ ReadFault failed → Rises (L.faults library) (L.faults result.1)) }
    ensures path { IfErr result.0 (MayFailSo (run_of setup.now (L.files library)) [] 0 ask.now) }
    ensures files { L.files result.1 ≡ L.files library }
    ensures faults { L.faults library ≤ L.faults result.1 }
    ensures misses { L.misses library ≤ L.misses result.1 }
{
    a_failed_read_is_an_empty_file();
    empty_is_refused();
    let mut emptied = EmptyAt::new(alloc, library, path);
    let answer = plan_program_and_judge(alloc, before, harts, ask, setup, &mut emptied, path);
    (answer, emptied.into_library())
}

fn plan_program_and_judge<L: Library>(
    alloc: Global,
    before: &Before,
    harts: u32,
    ask: &OpenAsk,
    setup: &Setup,
    library: &mut L,
    path: &Name,
) -> Result<bool, Doubt>
    requires first { IsFirst before.now }
    requires harts { harts ≡ harts_of setup.now }
    requires ask { ask.now ≡ program_ask setup.now }
    ensures yes { IfOk result (λ may. IsTrue may → Allowed (run_of setup.now (L.files library.old)) [] (is_broken 0 ask.now path.now first_rule)) }
    ensures no { IfOk result (λ may. may ≡ false → GivesOther (run_of setup.now (L.files library.old)) [] 0 ask.now path.now) }
    ensures failed { IfErr result (λ doubt. (failed : List ℕ) → doubt ≡ ReadFault failed → Rises (L.faults library.old) (L.faults library.new)) }
    ensures path { IfErr result (MayFailSo (run_of setup.now (L.files library.old)) [] 0 ask.now) }
    ensures files { L.files library.new ≡ L.files library.old }
    ensures faults { L.faults library.old ≤ L.faults library.new }
    ensures misses { L.misses library.old ≤ L.misses library.new }
{
    let planned = plan_program(alloc, before, harts, ask, setup, library);
    judge(alloc, path, &planned)
}
