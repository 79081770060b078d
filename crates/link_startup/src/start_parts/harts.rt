//! Where harts start.

ghost use Rattle.std.specs.Prelude.{◌≡◌, ◌+◌, ◌≤◌, ◌<◌, IfErr, IfOk, length};
ghost use Rattle.history_state.specs.Addresses.{is_linkers_page};
ghost use Rattle.history_state.specs.After.{after};
ghost use Rattle.history_calls.specs.Served.{InstallsNothing};
ghost use Rattle.history_calls.specs.Startup.{is_executable};
ghost use Rattle.link_startup.specs.StartParts.Loaded.{HasLoaded};
ghost use Rattle.link_startup.specs.StartParts.Harts.{FoundAll, IsLacking, IsLackingAt, NameComesTo, StartsAt};
ghost use Rattle.link_startup.specs.declared.start_parts.harts.Unstarted.TheVariants.{Memory};

use crate::start_parts::entries::{object_with, program_entry, startup_objects};
use history_calls::{Served, Setup, executable_by_holder};
use history_event::Addresses;
use history_journal::{accepted_object, one_image};
use history_state::{modules_are_tidy, objects_are_apart, objects_are_read};
use ld_base::{DlFault, HartId, Name, NsId};
use link_calls::dlsym;
use link_lists::Copied;
use link_spaces::is_code_in;
use link_state::LinkState;
use std::alloc::{AllocError, Global};

/// The handle that stands for all that is global (RTLD_DEFAULT).
const DEFAULT_HANDLE: u64 = 0;
/// The linker's own page.
const LINKER_PAGE: u64 = 0x80f000;
/// Where the linker's own page ends.
const LINKER_END: u64 = 0x81_0000;

/// Why a run doesn't start.
#[derive(Drop)]
pub enum Unstarted {
    /// The first refusal, which is noted.
    Refused(DlFault),
    /// Want of memory.
    Memory,
}

impl From<AllocError> for Unstarted {
    ghost from_gives = { λ _ why. why ≡ Memory };

    fn from(_: AllocError) -> Self {
        Unstarted::Memory
    }
}

/// The addresses at which the harts start, once the program is opened: the first one at the program's entry
/// point, and each further one at the name that it is given. The look-ups make no block of thread-local storage.
///
/// # Errors
///
/// The first name at which no hart can start, with the events of the look-ups up to it; or want of memory, with
/// the events of the look-ups until then.
pub fn find_harts(
    alloc: Global,
    state: &mut LinkState,
    setup: &Setup,
) -> Result<Addresses, Unstarted>
    requires loaded { HasLoaded state.old.events }
    requires harts { length setup.now.harts + 1 ≤ state.old.harts }
    ensures found { IfOk result (λ starts. FoundAll state.old.events setup.now.harts starts state.new.events) }
    ensures lacks { IfErr result (λ why. IsLacking state.old.events setup.now.program setup.now.harts why state.new.events) }
    ensures made { InstallsNothing state.old.made → InstallsNothing state.new.made }
    ensures same { state.new.harts ≡ state.old.harts }
{
    let _ = state.harts();
    let mut starts = Addresses::new(alloc);
    starts.push(program_entry(state))?;
    for (index, name) in setup.harts.as_slice().iter().enumerate() {
        let hart = HartId::new(index as u32 + 1);
        starts.push(find_start(alloc, state, hart, &setup.program, name)?)?;
    }
    Ok(starts)
}

/// The address of the name at which a hart starts, in executable words.
///
/// # Errors
///
/// That the name isn't found, or not in executable words, with the event of its look-up; or want of memory.
fn find_start(
    alloc: Global,
    state: &mut LinkState,
    hart: HartId,
    program: &Name,
    name: &Name,
) -> Result<u64, Unstarted>
    requires loaded { HasLoaded state.old.events }
    requires hart { hart < state.old.harts }
    ensures found { IfOk result (λ value. StartsAt state.old.events hart name.now value state.new.events) }
    ensures lacks { IfErr result (λ why. IsLackingAt state.old.events hart program.now name.now why state.new.events) }
    ensures made { InstallsNothing state.old.made → InstallsNothing state.new.made }
    ensures same { state.new.harts ≡ state.old.harts }
{
    match look_up(alloc, state, hart, name) {
        Served::Done(address) => {
            if is_executable(state, address) {
                return Ok(address);
            }
            let fault = DlFault::NotCode(program.copy(alloc)?, name.copy(alloc)?);
            Err(Unstarted::Refused(fault))
        }
        Served::Refused(fault) => Err(Unstarted::Refused(fault)),
        Served::Memory => Err(Unstarted::Memory),
        Served::Opened(_, _, _) | Served::Closing(_, _) | Served::Again(_) => unreachable!(),
    }
}

/// Looks the name at which a hart starts up among all that is global, as dlsym does. Each block of thread-local
/// storage is static at startup, so none is made.
fn look_up(alloc: Global, state: &mut LinkState, hart: HartId, name: &Name) -> Served
    requires loaded { HasLoaded state.old.events }
    requires hart { hart < state.old.harts }
    ensures comes { NameComesTo state.old.events hart name.now result state.new.events }
    ensures made { InstallsNothing state.old.made → InstallsNothing state.new.made }
    ensures same { state.new.harts ≡ state.old.harts }
{
    modules_are_tidy();
    let _ = state.journal();
    dlsym(
        alloc,
        state,
        hart,
        NsId::BASE,
        DEFAULT_HANDLE,
        name.as_bytes(),
    )
}

/// Whether an address lies in executable words: of the object whose pages hold it, or of the linker's own page.
fn is_executable(state: &LinkState, address: u64) -> bool
    requires loaded { HasLoaded state.now.events }
    ensures { result ≡ is_executable (after state.now.events) address }
{
    executable_by_holder();
    accepted_object();
    one_image();
    objects_are_apart();
    objects_are_read();
    let _ = state.journal();
    match state.holder(address) {
        Some((_, serial)) => {
            let (objects, _) = startup_objects(state);
            match object_with(objects, serial) {
                Some(object) => is_code_in(object, address),
                None => false,
            }
        }
        None => is_linkers_page(address),
    }
}

/// Whether an address is one of the linker's own page.
fn is_linkers_page(address: u64) -> bool
    ensures { result ≡ is_linkers_page address }
{
    (LINKER_PAGE..LINKER_END).contains(&address)
}
