//! `bind`: the definition of each slot of a program and its libraries.

ghost use Rattle.std.specs.Prelude.{◌≡◌, ◌≤◌, IfOk, Some, true};
ghost use Rattle.std.specs.List.{AllByRecursion};
ghost use Rattle.scope_rule.specs.Relocation.{names_symbols};
ghost use Rattle.scope_rule.specs.Seen.{seen_in};
ghost use Rattle.scope_lists.specs.Lists.{AreListed, AreListsOf};
ghost use Rattle.sym_lookup.specs.Looking.{HaveTables};
ghost use Rattle.cli_text.specs.Refusal.{first_refusal};
ghost use Rattle.ldso_cli.specs.Bind.{ask_of, cause_of, nothing_loaded, objects_text};
ghost use Rattle.ldso_cli.specs.Command.{WordsAnswer};
ghost use Rattle.ldso_cli.specs.End.{bare};
ghost use Rattle.ldso_cli.specs.Outside.{library_at};

use crate::answer::{Answer, done, refused};
use cli_text::{Binding, bind_objects};
use cli_words::{Bind, Command};
use elf_object::one_object;
use ld_base::{Added, DlFault, HartId, NsId, Serial, Serials};
use library_source::Library;
use load_order::{LoadAsk, LoadFault, LoadPlan, plan_load};
use scope_rule::{Namespace, Opens, loads_breadth_first, never_waits, root_is_new};
use std::alloc::{AllocError, Global};
use sym_lookup::{SearchLists, tables_are_there};

/// What is asked of the load of a program.
fn ask_of(bind: Bind) -> LoadAsk
    ensures { result ≡ ask_of bind }
{
    let Bind {
        folders,
        preload,
        program,
        now: _,
    } = bind;
    LoadAsk {
        name: program,
        folders,
        preload,
        hart: HartId::new(0),
        next: Serial::new(1),
        program: true,
        deep: false,
    }
}

/// A namespace in which nothing is loaded yet.
fn nothing_loaded(alloc: Global) -> Namespace
    ensures { result ≡ nothing_loaded }
{
    Namespace {
        id: NsId::BASE,
        objects: Added::new(alloc),
        global: Serials::new(alloc),
        opens: Opens::new(alloc),
    }
}

/// The answer of objects that are all there, whose search lists these are.
fn of_lists(
    alloc: Global,
    ns: &Namespace,
    lists: &SearchLists,
    now: bool,
) -> Result<Answer, AllocError>
    requires names { AllByRecursion (λ o. names_symbols o.object ≡ true) ns.now.objects }
    requires lists { AreListsOf (seen_in ns.now) lists.now }
    requires listed { AreListed (seen_in ns.now) 0 lists.now }
    requires tables { HaveTables (seen_in ns.now) }
    ensures end { IfOk result (λ answer. answer.end ≡ bare (cause_of (first_refusal ns.now now ns.now.objects))) }
    ensures text { IfOk result (λ answer. answer.text ≡ objects_text ns.now (first_refusal ns.now now ns.now.objects)) }
{
    match bind_objects(alloc, ns, lists, now)? {
        Binding::Refused(fault) => refused(alloc, fault),
        Binding::Bound(text) => Ok(done(text)),
    }
}

/// The answer of objects that are all there.
fn of_objects(alloc: Global, ns: &Namespace, now: bool) -> Result<Answer, AllocError>
    requires names { AllByRecursion (λ o. names_symbols o.object ≡ true) ns.now.objects }
    requires tables { HaveTables (seen_in ns.now) }
    ensures end { IfOk result (λ answer. answer.end ≡ bare (cause_of (first_refusal ns.now now ns.now.objects))) }
    ensures text { IfOk result (λ answer. answer.text ≡ objects_text ns.now (first_refusal ns.now now ns.now.objects)) }
{
    let lists = SearchLists::build(alloc, ns)?;
    of_lists(alloc, ns, &lists, now)
}

/// Loads the program with all that it needs, and gives the definition of each slot, or the one
/// refusal that stops it.
pub(crate) fn bind<L: Library>(
    alloc: Global,
    command: Bind,
    library: &mut L,
) -> Result<Answer, AllocError>
    ensures answers { IfOk result (λ answer. WordsAnswer (Some (Command.Bind command)) (library_at L.files L.faults L.misses library.old)
        (library_at L.files L.faults L.misses library.new) answer.end answer.text) }

    // What the library is left as.
    ensures files { L.files library.new ≡ L.files library.old }
    ensures faults { L.faults library.old ≤ L.faults library.new }
    ensures misses { L.misses library.old ≤ L.misses library.new }
{
    one_object();
    loads_breadth_first();
    never_waits();
    root_is_new();
    tables_are_there();
    let now = command.now;
    let ask = ask_of(command);
    let ns = nothing_loaded(alloc);
    match plan_load(alloc, &ns, &ask, library) {
        Err(LoadFault::Refused(fault)) => refused(alloc, fault),
        // Nothing is loaded that another hart could start or close.
        Err(LoadFault::Wait(_)) => unreachable!(),
        Err(LoadFault::Memory) => Err(AllocError),
        Ok(plan) => {
            let LoadPlan {
                root,
                added,
                breadth: _,
            } = plan;
            let ns = ns.opened(alloc, added, root, true)?;
            of_objects(alloc, &ns, now)
        }
    }
}
