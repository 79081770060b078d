//! Worked histories: journals that are legal, each with neighbours that aren't.

ghost use Rattle.history_state.specs.Cycle as cycle;
ghost use Rattle.history_state.specs.FirstMatch as matches;
ghost use Rattle.history_state.specs.Late as late;
ghost use Rattle.history_state.specs.Legal.{Legal, Whole};
ghost use Rattle.history_state.specs.Namespaces as apart;
ghost use Rattle.history_state.specs.Race as race;

/// Two harts race for a slot: while hart 0 has an open grant of one library's function, hart 1 opens a
/// global library that comes first from then on, and binds the slot to it. The journal is legal and
/// whole. It isn't legal that hart 1 is granted what hart 0 was: the global list comes first. Where
/// hart 1 closes in place of binding, nothing dies while the grant is open, neither its owner nor
/// its target.
pub fn harts_race()
    ensures legal { Legal race.setting race.race }
    ensures whole { Whole race.setting race.race }
    ensures granted_the_first { Legal race.setting race.granted_the_first → ⊥ }
    ensures closed { Legal race.setting race.closed_under_grant }
    ensures owner_dies { Legal race.setting race.owner_dies → ⊥ }
{}

/// Two libraries that need nothing are bound to each other. Closing the handle of the first unmaps
/// neither, and dlsym finds it still, though not on its handle; closing that of the second closes both,
/// whose destructors run, the later one's first, before both are unmapped. The journal is legal and
/// whole. It isn't legal that the first dies when its handle is closed, nor that none does when both
/// are, nor that they are unmapped before their destructors have run.
pub fn libraries_hold_each_other()
    ensures legal { Legal cycle.setting cycle.cycle }
    ensures whole { Whole cycle.setting cycle.cycle }
    ensures dies_early { Legal cycle.setting cycle.dies_early → ⊥ }
    ensures never_dies { Legal cycle.setting cycle.never_dies → ⊥ }
    ensures unmapped_early { Legal cycle.setting cycle.unmapped_early → ⊥ }
{}

/// A program is bound to the first of two libraries that define what it calls. The journal is legal
/// and whole. It isn't legal that the last match is chosen, nor that the program's constructors run
/// before those of what it needs, nor that a page is left free between the libraries.
pub fn first_match_is_chosen()
    ensures legal { Legal matches.setting matches.first_match }
    ensures whole { Whole matches.setting matches.first_match }
    ensures last_match { Legal matches.setting matches.last_match → ⊥ }
    ensures program_first { Legal matches.setting matches.program_first → ⊥ }
    ensures gap_left { Legal matches.setting matches.gap_left → ⊥ }
{}

/// A library that is opened in the base namespace and in a new one is two objects, and each handle
/// gives the variable of its own; a namespace that isn't there is refused. The journal is legal and
/// whole. It isn't legal that a handle gives the variable of the other namespace.
pub fn namespaces_are_apart()
    ensures legal { Legal apart.setting apart.namespaces }
    ensures whole { Whole apart.setting apart.namespaces }
    ensures other_namespace { Legal apart.setting apart.other_namespace → ⊥ }
{}

/// A late library has thread-local storage: each hart gets its own block at its first use, and closed
/// and opened again the library has its module's number, its pages and its block's as before. The
/// journal is legal. It isn't legal that a hart is given the variable in another hart's block.
pub fn late_blocks_are_apart()
    ensures legal { Legal late.setting late.late }
    ensures other_block { Legal late.setting late.other_block → ⊥ }
{}
