//! Functions that the linker has a hart run.

ghost use Rattle.std.specs.Prelude.{◌≡◌, ◌<◌, ◌≤◌, [], ◌∷◌, List, drop, length};
ghost use Rattle.std.specs.List.{list_any};
ghost use Rattle.history_event.specs.declared.handed.Function.{Function as function_value};
ghost use Rattle.hart_moves.specs.Harts.Phase.{at_pc};
ghost use Rattle.hart_moves.specs.Harts.Purpose.{of_end};
ghost use Rattle.hart_moves.specs.Harts.{Frame, Purpose as purpose_value, is_startup_frame};
ghost use Rattle.hart_moves.specs.Moves.{after_all, running, runs};
ghost use Rattle.hart_moves.specs.Registers.{entered};
ghost use Rattle.hart_moves.specs.Starting.{starting_registers};
ghost use Rattle.hart_seat.specs.HartParts.Queues.{entered_frames};
ghost use Rattle.hart_seat.specs.HartParts.Views.{purpose_of};

use crate::LinkedHart;
use crate::hart_parts::{
    FunctionQueue, NEXT_FUNCTION, Purpose, enter_function, return_with, start,
};
use crate::phase::Phase;
use history_event::{Functions, HartEnd, HartEntry};

impl LinkedHart {
    /// The hart is to run functions, those of so many objects in front apart, which have passed.
    pub fn run(&mut self, purpose: Purpose, functions: Functions, passed: usize)
        requires room { 0 < self.old.spare }
        requires passed { passed ≤ length functions }
        ensures { self.new.hart ≡ runs (purpose_of purpose) (drop passed functions) self.old.hart.frames self.old.hart }
    {
        self.begin(FunctionQueue::new(purpose, functions, passed));
    }

    /// The hart, which has ended by exit with a code, is to run final destructors and nothing below them.
    pub fn run_last(&mut self, code: u64, functions: Functions, passed: usize)
        requires room { 0 < self.old.spare }
        requires passed { passed ≤ length functions }
        ensures { self.new.hart ≡ runs (of_end code) (drop passed functions) [] self.old.hart }
    {
        self.frames.clear();
        self.begin(FunctionQueue::new(Purpose::End(code), functions, passed));
    }

    /// The hart gets its starting registers again, and runs nothing.
    pub fn restart(&mut self, entry: HartEntry)
        ensures hart { self.new.hart ≡ record self.old.hart { registers = starting_registers entry; phase = at_pc; frames = []; «end» = None } }
        ensures spare { self.old.spare ≤ self.new.spare }
    {
        self.registers = start(entry);
        self.phase = Phase::AtPc;
        self.frames.clear();
        self.end = None;
    }

    /// Whether functions of startup are to run, or one of them runs.
    pub fn is_starting(&self) -> bool
        ensures { result ≡ list_any is_startup_frame self.now.hart.frames }
    {
        has_startup(self.frames.as_slice())
    }

    /// The next function of an object is entered.
    pub fn enter(&mut self, function: u64)
        ensures { self.new.hart ≡
            running (entered function self.old.hart.registers) (record self.old.hart { frames = entered_frames self.old.hart.frames }) }
    {
        if let Some(mut queue) = self.frames.pop() {
            let _ = queue.enter();
            self.frames.push_reserved(queue);
        }
        enter_function(&mut self.registers, function);
        self.phase = Phase::AtPc;
    }

    /// An object passes, whose functions have run, and so many behind it.
    pub fn complete(&mut self, passed: usize)
        ensures { (purpose : purpose_value) (f : function_value) (rest : List function_value) (below : List Frame)
            → self.old.hart.frames ≡ record { purpose = purpose; queue = f ∷ rest } ∷ below
            → self.new.hart ≡ runs purpose (drop passed rest) below self.old.hart }
    {
        if let Some(mut queue) = self.frames.pop() {
            queue.pass(passed);
            self.begin(queue);
        }
    }

    /// The first function of a queue is entered.
    fn begin(&mut self, mut queue: FunctionQueue)
        requires { 0 < self.old.spare }
        ensures { self.new.hart ≡ runs queue.purpose queue.queue self.old.hart.frames self.old.hart }
    {
        match queue.enter() {
            Some(function) => {
                self.frames.push_reserved(queue);
                enter_function(&mut self.registers, function);
                self.phase = Phase::AtPc;
            }
            None => self.after_all(queue),
        }
    }

    /// No function is left to run.
    fn after_all(&mut self, queue: FunctionQueue)
        requires room { 0 < self.old.spare }
        requires empty { queue.queue ≡ [] }
        ensures { self.new.hart ≡ after_all queue.purpose self.old.hart.frames self.old.hart }
    {
        match queue.purpose() {
            Purpose::Startup(entry) => {
                self.registers = start(*entry);
                self.phase = Phase::AtPc;
            }
            Purpose::Opening(to, root) => {
                return_with(&mut self.registers, *to, root.number());
                self.phase = Phase::AtPc;
            }
            Purpose::Closing(..) => {
                self.registers.pc = NEXT_FUNCTION;
                self.phase = Phase::AtPc;
                self.frames.push_reserved(queue);
            }
            Purpose::End(code) => self.end = Some(HartEnd::Exit(*code)),
        }
    }
}

/// Whether some functions are those of startup.
fn has_startup(frames: &[FunctionQueue]) -> bool
    ensures { result ≡ list_any is_startup_frame frames.now }
{
    frames.iter().any(|queue| is_of_startup(queue))
}

/// Whether functions are those of startup.
fn is_of_startup(queue: &FunctionQueue) -> bool
    ensures { result ≡ is_startup_frame queue.now }
{
    matches!(queue.purpose(), Purpose::Startup(_))
}
