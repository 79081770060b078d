//! Laws of steps. Their functions do nothing: each is there for what it ensures.

ghost use Rattle.rv_hart.specs.Laws.{OneEnd, StepLeads, LeadsJoin, SilentSteps, DivisionEdges};

use rv_isa::decoding_inverts_encoding;

/// The calls that a hart made of its bus determine where they left it, from its registers before
/// them: the hart adds nothing of its own.
pub fn calls_determine_the_end()
    ensures { OneEnd }
{
    decoding_inverts_encoding();
}

/// The calls of a step lead the hart by the instructions, and those of one step after another lead on.
pub fn steps_join()
    ensures step { StepLeads }
    ensures join { LeadsJoin }
{}

/// A trail has no item of a call that its address alone refuses. Only a step whose fetch is refused
/// leaves no item at all.
pub fn silent_steps()
    ensures { SilentSteps }
{}

/// Division by zero gives all ones and leaves the dividend; the signed division that overflows
/// gives the dividend and leaves 0 (Unprivileged ISA 20191213, table 7.1).
pub fn division_at_its_edges()
    ensures { DivisionEdges }
{}
