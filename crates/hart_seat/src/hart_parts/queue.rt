//! The functions that the linker has a hart run.

ghost use Rattle.std.specs.Prelude.{◌≡◌, ◌+◌, ◌≤◌, ◌∷◌, List, drop, length, take, map};
ghost use Rattle.history_state.specs.State.{State};
ghost use Rattle.history_calls.specs.Functions.{left, object_of, passed};
ghost use Rattle.hart_moves.specs.Due.{all_done, by_queue};
ghost use Rattle.hart_moves.specs.Harts.{Frame, HartState};
ghost use Rattle.hart_seat.specs.HartParts.Views.{due_in, purpose_of};
ghost use Rattle.hart_seat.specs.HartParts.Queues.{first_entry, without_first};
ghost use Rattle.hart_seat.specs.HartParts.Turns.{HasParts};

use crate::hart_parts::{Call, Due, NEXT_FUNCTION};
use history_event::{Dying, Function, Functions, HartEnd, HartEntry};
use ld_base::Serial;
use std::marker::Model;

/// What the linker has a hart run functions for.
#[derive(Drop)]
pub enum Purpose {
    /// The constructors of startup. Then the hart starts with these registers.
    Startup(HartEntry),
    /// Those of an opening, which then returns to this address, with the handle of its root.
    Opening(u64, Serial),
    /// The destructors of a closing, whose objects are then unmapped. It returns to this address.
    Closing(u64, Dying),
    /// The final destructors, one object at a time. The hart has ended by exit with this code.
    End(u64),
}

/// The objects whose functions are to run, with those that weren't entered yet. The first object is the
/// one whose function runs.
#[derive(Drop)]
pub struct FunctionQueue {
    purpose: Purpose,
    functions: Functions,
    /// How many objects have passed.
    passed: usize,
    /// How many functions of the next one were entered.
    entered: usize,
}

impl Model for FunctionQueue {
    ghost use Rattle.std.specs.Prelude.{drop};
    ghost use Rattle.hart_moves.specs.Harts.{Frame};

    ghost Value = { Frame };

    ghost use Rattle.std.specs.Prelude.{◌≤◌, length};
    ghost use Rattle.hart_seat.specs.HartParts.Views.{purpose_of};
    ghost use Rattle.hart_seat.specs.HartParts.Queues.{without_first};

    ghost view = { λ q. record { purpose = purpose_of q.purpose; queue = without_first q.entered (drop q.passed q.functions) } };

    ghost invariant = { λ q. q.passed ≤ length q.functions };
}

impl FunctionQueue {
    /// The functions behind those of so many objects.
    pub fn new(purpose: Purpose, functions: Functions, passed: usize) -> Self
        requires { passed ≤ length functions }
        ensures { result ≡ record { purpose = purpose_of purpose; queue = drop passed functions } }
    {
        FunctionQueue {
            purpose,
            functions,
            passed,
            entered: 0,
        }
    }

    /// What they are run for.
    pub fn purpose(&self) -> &Purpose
        ensures { purpose_of result.now ≡ self.now.purpose }
    {
        &self.purpose
    }

    /// What is due for a hart that has come to its next function, at this pc.
    pub fn due(&self, pc: u64) -> Due<'_>
        ensures is { (s : State) (b : HartState) (below : List Frame) → b.registers.pc ≡ pc → b.frames ≡ self.now ∷ below
            → due_in s b result ≡ by_queue b self.now.purpose self.now.queue below }
        ensures parts { (b : HartState) (below : List Frame) → b.frames ≡ self.now ∷ below → HasParts b result }
    {
        match &self.functions.as_slice()[self.passed..] {
            [] => self.all_done(pc),
            [first, behind @ ..] => match first.addresses.as_slice().get(self.entered) {
                Some(function) => Due::Enter(*function),
                None => Due::Complete(&self.purpose, first.object, behind),
            },
        }
    }

    /// The next function of the first object is entered, if there is an object. Where it has none left,
    /// its turn comes next.
    pub fn enter(&mut self) -> Option<u64>
        ensures entry { result ≡ first_entry self.old.queue }
        ensures left { self.new ≡ record self.old { queue = without_first 1 self.old.queue } }
    {
        let first = self.functions.as_slice().get(self.passed)?;
        match first.addresses.as_slice().get(self.entered).copied() {
            Some(function) => {
                self.entered += 1;
                Some(function)
            }
            None => Some(NEXT_FUNCTION),
        }
    }

    /// The first object passes, and so many behind it.
    pub fn pass(&mut self, behind: usize)
        ensures { self.new ≡ record self.old { queue = drop (behind + 1) self.old.queue } }
    {
        self.passed = self
            .functions
            .len()
            .min(self.passed.saturating_add(behind).saturating_add(1));
        self.entered = 0;
    }

    fn all_done(&self, pc: u64) -> Due<'_>
        ensures is { (s : State) (b : HartState) (below : List Frame) → b.registers.pc ≡ pc → b.frames ≡ self.now ∷ below
            → due_in s b result ≡ all_done b self.now.purpose below }
        ensures parts { (b : HartState) → HasParts b result }
    {
        match &self.purpose {
            Purpose::Closing(_, dying) => Due::Serve(Call::Unmap(dying)),
            _ => Due::Serve(Call::Stop(HartEnd::Break(pc))),
        }
    }
}

/// How many objects in front have no functions: they pass at once.
pub fn passed_objects(functions: &[Function]) -> usize
    ensures within { result ≤ length functions.now }
    ensures passed { map object_of (take result functions.now) ≡ passed functions.now }
    ensures left { drop result functions.now ≡ left functions.now }
{
    for (count, function) in functions.iter().enumerate() {
        if !function.addresses.is_empty() {
            return count;
        }
    }
    functions.len()
}
