//! One step of a hart over a bus.

ghost use Rattle.std.specs.Prelude.{◌≡◌, OnErr};
ghost use Rattle.rv_hart.specs.Registers.{registers_of};
ghost use Rattle.rv_hart.specs.Instructions.{IsSized};
ghost use Rattle.rv_hart.specs.Trail.{Performs, Steps};

use crate::{Access, Answer, Bus, BusFault, Hart, complete, plan};

/// Why a step doesn't get through its instruction. The hart is as before the step.
#[derive(Clone, Copy, Debug, PartialEq, Eq)]
pub enum Stop {
    /// The instruction is an ecall: whoever runs the hart answers it.
    Ecall,
    /// The instruction is an ebreak.
    Break,
    /// The word is no instruction.
    Bad(u32),
    /// The instruction jumps to this address, or is an SC at it, and it isn't aligned.
    Misaligned(u64),
    /// The bus refused the fetch or the access at this address.
    Refused(u64, BusFault),
}

// Makes the one access that a word asks for.
fn perform<B: Bus>(bus: &mut B, access: Access, word: u32) -> Result<Answer, Stop>
    requires { IsSized access }
    ensures { Performs B.does bus.old bus.new word access result }
{
    match access {
        Access::Nothing => Ok(Answer::Nothing),
        Access::Read(address, size) => match bus.read(address, size) {
            Ok(value) => Ok(Answer::Value(value)),
            Err(fault) => Err(Stop::Refused(address, fault)),
        },
        Access::Write(address, size, value) => match bus.write(address, size, value) {
            Ok(()) => Ok(Answer::Nothing),
            Err(fault) => Err(Stop::Refused(address, fault)),
        },
        Access::Amo(address, size, op, value) => match bus.amo(address, size, op, value) {
            Ok(found) => Ok(Answer::Value(found)),
            Err(fault) => Err(Stop::Refused(address, fault)),
        },
        Access::Reserve(address, size) => match bus.reserve(address, size) {
            Ok((value, version)) => Ok(Answer::Held(value, version)),
            Err(fault) => Err(Stop::Refused(address, fault)),
        },
        Access::Conditional(address, size, value, version) => {
            match bus.conditional(address, size, value, version) {
                Ok(stored) => Ok(Answer::Stored(stored)),
                Err(fault) => Err(Stop::Refused(address, fault)),
            }
        }
        Access::Ecall => Err(Stop::Ecall),
        Access::Break => Err(Stop::Break),
        Access::Bad => Err(Stop::Bad(word)),
        Access::Misaligned(address) => Err(Stop::Misaligned(address)),
    }
}

/// One step of a hart: it fetches a word, makes the one access that the word asks for, and goes
/// on. A hart that stops is as before the step.
///
/// # Errors
///
/// Why the hart stops.
pub fn step<B: Bus>(hart: &mut Hart, bus: &mut B) -> Result<(), Stop>
    ensures followed { let r = registers_of hart.old in let r' = registers_of hart.new
        in Steps B.does bus.old bus.new r r' result }
    ensures stopped { OnErr result (hart.new ≡ hart.old) }
{
    let pc = hart.pc;
    let word = match bus.fetch(pc) {
        Ok(word) => word,
        Err(fault) => return Err(Stop::Refused(pc, fault)),
    };
    let action = plan(hart, word);
    let answer = perform(bus, action.access, word)?;
    complete(hart, action, answer);
    Ok(())
}
