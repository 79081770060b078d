//! How a run ended.

ghost use Rattle.std.specs.Prelude.{◌≡◌, ◌<◌, ◌≤◌, ◌^◌, length, IfOk};
ghost use Rattle.std.specs.String.{string_bytes};
ghost use Rattle.history_state.specs.Setting.{is_exit};
ghost use Rattle.trace_text.specs.RunTexts.Ends.{end_status};

use crate::EndText;
use history_event::HartEnd;
use ld_base::HartId;
use std::alloc::{AllocError, Global};
use std::fmt;

/// How a run ended.
#[derive(Clone, Copy, PartialEq, Eq)]
pub enum RunEnd {
    /// Every hart ended by exit, hart 0 with this code.
    Exited(u64),
    /// The hart that decides, the lowest-numbered one that ended otherwise, and its end.
    Ended(HartId, HartEnd),
}

impl RunEnd {
    ghost use Rattle.trace_text.specs.RunTexts.Ends.{IsRunEnd, end_line, run_status};

    /// How a run ended whose harts' last ends are these, in order of hart number. Hart 0 may end twice,
    /// the second time in the final destructors: that end counts.
    pub fn of(ends: &[HartEnd]) -> Self
        requires some { 0 < length ends.now }
        requires few { length ends.now ≤ 2 ^ 32 }
        ensures { IsRunEnd ends.now result }
    {
        for (number, end) in ends.iter().enumerate() {
            if !is_exit(*end) {
                return RunEnd::Ended(HartId::new(number as u32), *end);
            }
        }
        match ends[0] {
            HartEnd::Exit(code) => RunEnd::Exited(code),
            _ => unreachable!(),
        }
    }

    /// The status with which the run ends the command.
    pub fn status(&self) -> u8
        ensures { result ≡ run_status self.now }
    {
        match self {
            RunEnd::Exited(code) => (*code % 256) as u8,
            RunEnd::Ended(_, end) => end_status(*end),
        }
    }

    /// The last line of what is printed.
    ///
    /// # Errors
    ///
    /// Want of memory.
    #[tactic(auto, unfolding(crate::specs::RunTexts::Ends::end_line))]
    pub fn line(&self, alloc: Global) -> Result<String, AllocError>
        ensures { IfOk result (λ line. string_bytes line ≡ end_line self.now) }
    {
        let status = self.status();
        let words = EndWords(*self);
        let mut line = String::new(alloc);
        writeln!(line, "end {status} {words}")?;
        Ok(line)
    }
}

/// How a run ended, as the last line says it behind the status.
#[derive(Clone, Copy)]
struct EndWords(RunEnd);

impl fmt::Display for EndWords {
    ghost use Rattle.std.specs.Prelude.{Some};
    ghost use Rattle.trace_text.specs.RunTexts.Ends.{end_words};

    ghost output = { λ w. Some (end_words w.0) };

    fn fmt<W: fmt::Write>(&self, f: &mut fmt::Formatter<W>) -> fmt::Result {
        match self.0 {
            RunEnd::Exited(_) => write!(f, "exit"),
            RunEnd::Ended(hart, end) => {
                let (hart, end) = (hart.number(), EndText(end));
                write!(f, "hart {hart} {end}")
            }
        }
    }
}

fn is_exit(end: HartEnd) -> bool
    ensures { result ≡ is_exit end }
{
    matches!(end, HartEnd::Exit(_))
}

/// The status of a hart's end.
fn end_status(end: HartEnd) -> u8
    ensures { result ≡ end_status end }
{
    match end {
        HartEnd::Exit(code) => (code % 256) as u8,
        HartEnd::FuelOut => 124,
        HartEnd::NotMapped(_, _)
        | HartEnd::SlotStore(_, _)
        | HartEnd::BadInstruction(_, _)
        | HartEnd::Misaligned(_, _)
        | HartEnd::Break(_)
        | HartEnd::BadModule(_)
        | HartEnd::Unloaded(_)
        | HartEnd::NoSlot(_, _) => 125,
        HartEnd::Unresolved(_, _) => 127,
        HartEnd::NotCode(_, _) | HartEnd::AddressSpaceFull(_) => 118,
        HartEnd::Memory => 123,
    }
}
