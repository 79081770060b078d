//! Lines of events.

ghost use Rattle.std.specs.Prelude.{◌≡◌, IfOk, IfErr};
ghost use Rattle.history_event.specs.declared.event.Event.{Event as AnEvent};
ghost use Rattle.history_event.specs.declared.event_line.EventLine.{EventLine as ALine};
ghost use Rattle.trace_text.specs.Lines.{line_text};
ghost use Rattle.trace_read.specs.declared.fault.TraceFault.TheVariants.{Memory, NotALine};
ghost use Rattle.trace_read.specs.Fits.{IsWritable};
ghost use Rattle.trace_read.specs.Gives.{Gives};
ghost use Rattle.trace_read.specs.Lines.{HasLine};
ghost use Rattle.trace_read.specs.Read.{read_line};
ghost use Rattle.trace_read.specs.Said.{said_of};

use crate::events::event;
use crate::fault::TraceFault;
use history_event::EventLine;
use std::alloc::Global;

#[tactic(auto, unfolding(crate::specs::Read::read_line))]
fn read_line(alloc: Global, line: &[u8]) -> Result<EventLine, TraceFault>
    ensures { Gives (read_line line.now) result }
{
    match line.strip_suffix(b"\n") {
        Some(text) => event(alloc, text),
        None => Err(TraceFault::NotALine),
    }
}

/// What the line of an event says of it; its line feed is a part of the line.
///
/// # Errors
///
/// No event has this line, or want of memory.
pub fn read_event(alloc: Global, line: &[u8]) -> Result<EventLine, TraceFault>
    ensures line { IfOk result (HasLine line.now) }
    ensures only { IfOk result (λ event. (other : ALine) → HasLine line.now other → other ≡ event) }
    ensures not_a_line { IfErr result (λ fault. fault ≡ NotALine → (event : ALine) → HasLine line.now event → ⊥) }
    ensures inverse { (event : AnEvent) → IsWritable (said_of event) → line.now ≡ line_text event
        → IfOk result (λ read. read ≡ said_of event) × IfErr result (λ fault. fault ≡ Memory) }
{
    read_line(alloc, line)
}
