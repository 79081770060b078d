//! What holds of the writes of every hart.

ghost use Rattle.world_turns.specs.TurnWrites.Laws.{FinalsBeginWriting, FinalsLackWriting, ServedMayBeWritten, SettlingKeepsWriting};
ghost use Rattle.world_turns.specs.TurnWrites.Laws.{StartWrites, TurnsKeepWrites, WorldsKeepWrites};

/// Each turn leaves the bytes that its hart has copied of a write at most 256, and of a write that isn't
/// empty; so what is served of a write may be written.
pub fn turns_keep_writes()
    ensures turns { TurnsKeepWrites }
    ensures served { ServedMayBeWritten }
{}

/// So it is with each hart of a run: when the run starts, behind each turn, when the final destructors
/// begin or lack memory, and when what is left at the end is settled.
pub fn worlds_keep_writes()
    ensures start { StartWrites }
    ensures turns { WorldsKeepWrites }
    ensures finals { FinalsBeginWriting }
    ensures no_memory { FinalsLackWriting }
    ensures settling { SettlingKeepsWriting }
{}
