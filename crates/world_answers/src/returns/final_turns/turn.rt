//! The turn in which the destructors of an object have run.

ghost use Rattle.std.specs.Prelude.{◌≡◌, ℕ, ◌==◌, ◌<◌, ◌≤◌, [], ◌∷◌, ◌++◌, drop, filter, if◌then◌else◌, length, map, take, IfOk, OnOk, IsTrue};
ghost use Rattle.std.specs.List.{list_any};
ghost use Rattle.history_state.specs.After.{after};
ghost use Rattle.history_state.specs.Objects.{has};
ghost use Rattle.history_state.specs.Setting.{Setting};
ghost use Rattle.history_calls.specs.Functions.{object_of};
ghost use Rattle.hart_moves.specs.Harts.{HartState};
ghost use Rattle.hart_moves.specs.Moves.{Finalises, did_by, freed, settles};
ghost use Rattle.world_answers.specs.ReturnsPart.FinalTurns.Planned.{FinalsMayFollow, FinalsMayFollowIn, IsPlanned, is_other};
ghost use Rattle.world_answers.specs.ReturnsPart.FinalTurns.Table.{finis, plan_events};
ghost use Rattle.world_memory.specs.TurnAnswers.Following.{MayFollowAll};

use hart_seat::{FinalisedObject, LinkedHart, passed_objects};
use history_event::{Function, Functions};
use history_state::initialised_once;
use ld_base::{HartId, Serial, Serials};
use link_calls::final_functions;
use link_state::LinkState;
use std::alloc::{AllocError, Global};
use std::marker::Model;

/// The turn in which the destructors of an object have run, before anything of it is done. Contracts see
/// which objects get their events, and whose destructors run next.
#[derive(Drop)]
pub struct FinalTurn {
    code: u64,
    object: Serial,
    finalised: Serials,
    /// The next object, if there is one.
    next: Functions,
}

impl Model for FinalTurn {
    ghost use Rattle.world_answers.specs.ReturnsPart.FinalTurns.Table.{FinalPlan};

    ghost Value = { FinalPlan };

    ghost view = { λ t. record { code = t.code; object = t.object; finalised = t.finalised; next = t.next } };
}

impl FinalTurn {
    /// What the turn comes to in which the final destructors of an object have run. This takes all memory that the
    /// turn needs.
    ///
    /// # Errors
    ///
    /// Want of memory.
    pub fn prepare(
        alloc: Global,
        state: &LinkState,
        hart: &mut LinkedHart,
        finalised: FinalisedObject,
    ) -> Result<Self, AllocError>
        requires { IsTrue (has (after state.now.events).inits finalised.object) }
        ensures planned { IfOk result (IsPlanned (after state.now.events)) }
        ensures finalised { IfOk result (λ plan. (plan.code ≡ finalised.code) × (plan.object ≡ finalised.object)) }
        ensures room { OnOk result (0 < hart.new.spare) }
        ensures hart { hart.new.hart ≡ hart.old.hart }
    {
        hart.make_room()?;
        FinalTurn::plan(alloc, state, finalised.code, finalised.object)
    }

    /// The same but for the hart's room for functions.
    fn plan(alloc: Global, state: &LinkState, code: u64, object: Serial) -> Result<Self, AllocError>
        requires initialised { IsTrue (has (after state.now.events).inits object) }
        ensures planned { IfOk result (IsPlanned (after state.now.events)) }
        ensures code { IfOk result (λ plan. plan.code ≡ code) }
        ensures object { IfOk result (λ plan. plan.object ≡ object) }
    {
        let functions = final_functions(alloc, state)?;
        let left = is_left(functions.as_slice(), object);
        let others = others_of(functions, object);
        let passed = passed_objects(others.as_slice());
        let finalised = finalised_objects(alloc, object, left, &others.as_slice()[..passed])?;
        let next = only_at(others, passed);
        Ok(FinalTurn {
            code,
            object,
            finalised,
            next,
        })
    }

    /// Whether the turn has events. If it has, all grants that harts are done with are settled first.
    pub fn has_events(&self) -> bool
        ensures { (h : ℕ) → result ≡ settles (did_by (plan_events h self.now)) }
    {
        !self.finalised.is_empty()
    }

    /// The turn is carried out. This takes no memory.
    pub fn carry_out(self, state: &mut LinkState, id: HartId, hart: &mut LinkedHart)
        requires planned { IsPlanned (after state.old.events) self }
        requires may { FinalsMayFollowIn state.old.harts state.old.events id self.object }
        requires fuel { hart.old.hart.turns < hart.old.hart.fuel }
        requires room { 0 < hart.old.spare }
        ensures turn { (w : Setting) (b : HartState) → FinalsMayFollow w state.old.events id self.object
            → hart.old.hart ≡ (if settles (did_by (plan_events id self)) then freed b else b)
            → Finalises w state.old.events id b self.code self.object (did_by (plan_events id self)) hart.new.hart }
        ensures events { state.new ≡ record state.old { events = state.old.events ++ plan_events id self } }
    {
        initialised_once();
        let _ = state.journal();
        let FinalTurn {
            code,
            finalised,
            next,
            ..
        } = self;
        finalise(state, id, finalised.as_slice());
        hart.run_last(code, next, 0);
        hart.spend();
    }
}

/// Whether an object is one of those that are left.
fn is_left(functions: &[Function], object: Serial) -> bool
    ensures { result ≡ list_any (λ f. f.object == object) functions.now }
{
    functions.iter().any(|function| function.object == object)
}

/// The others, in their order.
fn others_of(functions: Functions, object: Serial) -> Functions
    ensures { result ≡ filter (λ f. is_other object f.object) functions }
{
    let mut functions = functions.into_vec();
    functions.retain(|function| object != function.object);
    Functions::from(functions)
}

/// The objects that get their events: the one whose destructors have run, if it is left, and those that pass
/// behind it.
///
/// # Errors
///
/// Want of memory.
fn finalised_objects(
    alloc: Global,
    object: Serial,
    left: bool,
    passing: &[Function],
) -> Result<Serials, AllocError>
    ensures { IfOk result (λ objects. objects ≡ (if left then object ∷ [] else []) ++ map object_of passing.now) }
{
    let mut objects = Serials::new(alloc);
    if left {
        objects.push(object)?;
    }
    for function in passing {
        objects.push(function.object)?;
    }
    Ok(objects)
}

/// The functions at a place alone, if there are some.
pub(crate) fn only_at(functions: Functions, place: usize) -> Functions
    requires { place ≤ length functions }
    ensures { result ≡ take 1 (drop place functions) }
{
    let mut functions = functions.into_vec();
    functions.drain(..place);
    functions.truncate(1);
    Functions::from(functions)
}

/// Some objects are finalised, one after another.
fn finalise(state: &mut LinkState, hart: HartId, objects: &[Serial])
    requires { MayFollowAll state.old.harts state.old.events (finis hart objects.now) }
    ensures { state.new ≡ record state.old { events = state.old.events ++ finis hart objects.now } }
{
    for object in objects {
        state.finalised(hart, *object);
    }
}
