//! The entries by which a hart gets what an event answers.

ghost use Rattle.std.specs.Prelude.{◌≡◌, ◌==◌, find, Some};
ghost use Rattle.std.specs.Option.{option_copied, option_map_or};
ghost use Rattle.ld_base.specs.declared.fault.DlFault.{DlFault as fault_value};
ghost use Rattle.history_state.specs.State.{State};
ghost use Rattle.history_calls.specs.Startup.{is_stack};
ghost use Rattle.hart_trails.specs.Entries.{of_closing, of_look_up, of_opening};
ghost use Rattle.link_keeper.specs.Entering.{AnswersBy, ModuleBy, of_telling};

use history_event::{CloseAnswer, Event, Module, OpenAnswer, Purpose, Range, SymAnswer};
use ld_base::{DlFault, HartId, Serial};

/// What a closing that is refused answers: -1.
const NOT_CLOSED: u64 = u64::MAX;

/// The module of a new block; 0 of every other event.
#[tactic(auto, unfolding(hart_trails::specs::Entries::module_of))]
pub(crate) fn module_of(modules: &[Module], event: &Event) -> u64
    ensures { ModuleBy modules.now event.now result }
{
    match event {
        Event::Tls { owner, .. } => number_of(modules, *owner),
        _ => 0,
    }
}

/// The number of an object's module; 0 where it has none.
fn number_of(modules: &[Module], owner: Serial) -> u64
    ensures { result ≡ option_map_or (λ m. m.number) (find (λ m. m.serial == owner) modules.now) 0 }
{
    match module_among(modules, owner) {
        Some(module) => module.number,
        None => 0,
    }
}

/// The module of an object.
fn module_among(modules: &[Module], owner: Serial) -> Option<&Module>
    ensures { option_copied result ≡ find (λ m. m.serial == owner) modules.now }
{
    modules.iter().find(|module| module.serial == owner)
}

/// What an event answers its hart.
#[tactic(auto, unfolding(hart_trails::specs::Entries::answered))]
pub(crate) fn answer_of(ranges: &[Range], event: &Event) -> u64
    ensures { AnswersBy ranges.now event.now result }
{
    match event {
        Event::Open { answer, .. } => of_opening(answer),
        Event::Close { answer, .. } => of_closing(answer),
        Event::Grant { value, .. } => *value,
        Event::Sym { answer, .. } => of_look_up(answer),
        Event::Tls { address, .. } => *address,
        Event::Wrote { bytes, .. } => bytes.len() as u64,
        Event::Told { hart, fault } => of_telling(ranges, *hart, fault),
        Event::Unmapped { .. }
        | Event::Bound { .. }
        | Event::Lost { .. }
        | Event::Unresolved { .. }
        | Event::Init { .. }
        | Event::Fini { .. }
        | Event::Ended { .. } => 0,
    }
}

/// The handle that an opening answers, or 0.
fn of_opening(answer: &OpenAnswer) -> u64
    ensures { result ≡ of_opening answer.now }
{
    match answer {
        OpenAnswer::Done { root, .. } => root.number(),
        OpenAnswer::Absent | OpenAnswer::Refused(_) => 0,
    }
}

/// The address that a look-up answers, or 0.
fn of_look_up(answer: &SymAnswer) -> u64
    ensures { result ≡ of_look_up answer.now }
{
    match answer {
        SymAnswer::Found(_, _, value) => *value,
        SymAnswer::Refused(_) => 0,
    }
}

/// What a closing answers.
fn of_closing(answer: &CloseAnswer) -> u64
    ensures { result ≡ of_closing answer.now }
{
    match answer {
        CloseAnswer::Done(_) => 0,
        CloseAnswer::Refused(_) => NOT_CLOSED,
    }
}

/// Where the text stands that dlerror answers: at the start of the hart's stack; 0 where there is none.
fn of_telling(ranges: &[Range], id: HartId, fault: &Option<DlFault>) -> u64
    ensures { (s : State) → ((x : fault_value) → fault.now ≡ Some x → ranges.now ≡ s.ranges) → result ≡ of_telling s id fault.now }
{
    match fault {
        Some(_) => stack_start(ranges, id),
        None => 0,
    }
}

/// Where the stack of a hart begins.
fn stack_start(ranges: &[Range], id: HartId) -> u64
    ensures { result ≡ option_map_or (λ r. r.address) (find (λ r. is_stack id r.purpose) ranges.now) 0 }
{
    match stack_among(ranges, id) {
        Some(stack) => stack.address,
        None => 0,
    }
}

/// The pages among these that are for the stack of a hart.
fn stack_among(ranges: &[Range], id: HartId) -> Option<&Range>
    ensures { option_copied result ≡ find (λ r. is_stack id r.purpose) ranges.now }
{
    ranges.iter().find(|range| is_stack(id, range.purpose))
}

/// Whether pages are for the stack of a hart.
fn is_stack(id: HartId, purpose: Purpose) -> bool
    ensures { result ≡ is_stack id purpose }
{
    match purpose {
        Purpose::Stack(hart) => hart == id,
        _ => false,
    }
}
