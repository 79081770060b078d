//! The calls of harts by their names.

ghost use Rattle.std.specs.Prelude.{◌≢◌, IfOk};
ghost use Rattle.ld_base.specs.declared.linking.Role.TheVariants.{None as NoRole, Slot as SlotRole};

use super::words::Table;
use ld_base::Role;
use rv_hart::{Bus, BusFault, Hart, Stop, step};
use std::alloc::Global;
use test_file::{Calls, Fault, Words, show};
use word_memory::{Naming, TableBus};

/// A memory, and the registers of the two harts that share it.
#[derive(Drop)]
pub struct TableCalls<J: Naming> {
    alloc: Global,
    table: Table<J>,
    harts: [Hart; 2],
}

impl<J: Naming> TableCalls<J> {
    pub fn new(alloc: Global, table: Table<J>) -> Self {
        TableCalls {
            alloc,
            table,
            harts: [Hart::new(0, 0, 0, 0), Hart::new(0, 0, 0, 0)],
        }
    }

    /// Gives the next doubleword a role and a value. Gives its address.
    fn word(&mut self, words: &mut Words) -> Result<String, Fault> {
        let role = role(words.text()?)?;
        let value = words.number()?;
        let put = self.table.writer.put(&self.table.memory, value, role);
        hex(self.alloc, put.ok_or(Fault::Unclear)?)
    }
}

impl<J: Naming> Calls for TableCalls<J> {
    fn answer(&mut self, line: &str) -> Result<String, Fault> {
        let (call, rest) = line.split_once(' ').ok_or(Fault::Unclear)?;
        let mut words = Words::new(rest);
        if call == "word" {
            return self.word(&mut words);
        }
        let number = words.number()? as usize;
        let Some(seat) = self.table.seats.get_mut(number) else {
            return Err(Fault::Unclear);
        };
        let Some(hart) = self.harts.get_mut(number) else {
            return Err(Fault::Unclear);
        };
        let mut bus = TableBus::new(&self.table.memory, seat);
        of_hart(self.alloc, hart, &mut bus, call, &mut words)
    }
}

/// A call of a hart over its bus.
fn of_hart<B: Bus>(
    alloc: Global,
    hart: &mut Hart,
    bus: &mut B,
    call: &str,
    words: &mut Words,
) -> Result<String, Fault> {
    match call {
        "go" => {
            hart.pc = words.number()?;
            hex(alloc, hart.pc)
        }
        "set" => set(alloc, hart, words),
        "step" => steps(alloc, hart, bus, words.number()?),
        "x" => match hart.x.get(words.number()? as usize) {
            Some(value) => hex(alloc, *value),
            None => Err(Fault::Unclear),
        },
        "pc" => hex(alloc, hart.pc),
        "fetch" => found(alloc, bus.fetch(words.number()?).map(u64::from)),
        "read" => read(alloc, bus, words),
        "write" => match bus.write(words.number()?, 8, words.number()?) {
            Ok(()) => done(alloc),
            Err(fault) => show(alloc, fault),
        },
        _ => Err(Fault::Unclear),
    }
}

/// Gives a register a value.
fn set(alloc: Global, hart: &mut Hart, words: &mut Words) -> Result<String, Fault> {
    let (register, value) = (words.number()? as usize, words.number()?);
    if register == 0 || register >= 32 {
        return Err(Fault::Unclear);
    }
    hart.x[register] = value;
    hex(alloc, value)
}

/// So many steps, unless the hart stops before.
fn steps<B: Bus>(alloc: Global, hart: &mut Hart, bus: &mut B, count: u64) -> Result<String, Fault> {
    for _ in 0..count {
        if let Err(stop) = step(hart, bus) {
            return stop_text(alloc, stop);
        }
    }
    done(alloc)
}

fn stop_text(alloc: Global, stop: Stop) -> Result<String, Fault> {
    match stop {
        Stop::Refused(address, fault) => {
            Ok(format!(in alloc; "Refused {address:#x} {fault:?}")?)
        }
        Stop::Misaligned(address) => Ok(format!(in alloc; "Misaligned {address:#x}")?),
        stop => show(alloc, stop),
    }
}

/// Reads so many bytes at an address.
fn read<B: Bus>(alloc: Global, bus: &mut B, words: &mut Words) -> Result<String, Fault> {
    let (address, size) = (words.number()?, words.number()?);
    let answer = match size {
        1 => bus.read(address, 1),
        2 => bus.read(address, 2),
        4 => bus.read(address, 4),
        8 => bus.read(address, 8),
        _ => return Err(Fault::Unclear),
    };
    found(alloc, answer)
}

/// What is read, as it is written.
fn found(alloc: Global, answer: Result<u64, BusFault>) -> Result<String, Fault> {
    match answer {
        Ok(value) => hex(alloc, value),
        Err(fault) => show(alloc, fault),
    }
}

fn hex(alloc: Global, value: u64) -> Result<String, Fault> {
    Ok(format!(in alloc; "{value:#x}")?)
}

fn done(alloc: Global) -> Result<String, Fault> {
    Ok(String::from_str(alloc, "done")?)
}

fn role(word: &str) -> Result<Role, Fault>
    ensures { IfOk result (λ role. (role ≢ NoRole) × (role ≢ SlotRole)) }
{
    match word {
        "Ro" => Ok(Role::Ro),
        "Rx" => Ok(Role::Rx),
        "Rw" => Ok(Role::Rw),
        _ => Err(Fault::Unclear),
    }
}
