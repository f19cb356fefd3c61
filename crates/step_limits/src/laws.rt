//! Laws of what the steps of requests leave as it was.

ghost use Rattle.step_limits.specs.Limits.{StepsKeepTheGeneration};

/// A step leaves the generation as it was, unless its command is a checkpoint.
pub fn steps_keep_the_generation()
    ensures { StepsKeepTheGeneration }
{}
