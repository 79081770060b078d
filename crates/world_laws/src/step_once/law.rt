//! What registers and doublewords settle.

ghost use Rattle.world_laws.specs.StepOnce.Laws.{OneChain, OneRead, OneStep, OneWrite};

/// The same calls leave the same doublewords, a read and a write get one answer each, and two steps from
/// the same registers and doublewords are one.
pub fn steps_are_one()
    ensures chain { OneChain }
    ensures read { OneRead }
    ensures write { OneWrite }
    ensures step { OneStep }
{
    rv_hart::calls_determine_the_end();
    rv_hart::steps_join();
}
