//! What holds of every event, call and start of a run.

ghost use Rattle.history_calls.specs.UntoldFiles.Untold.{AllowedUntold, ServesUntold, StartsUntold};

/// An event that may come over the files of a library may come where none are told: it may be read there
/// what is read here. So it is with what a call gives, and with how a run starts.
pub fn files_only_narrow()
    ensures events { AllowedUntold }
    ensures calls { ServesUntold }
    ensures starts { StartsUntold }
{}
