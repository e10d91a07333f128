//! Which kind of note a step has.

ghost use Rattle.machine.specs.Notes.{StepsFit, RunsFit};

/// A step has a note of its kind. The function does nothing: its contract is a law.
pub fn notes_fit_steps()
    // The note of a step is a refusal, or of a kind that this step may have (`fits`). So is that of a run's last step.
    ensures steps { StepsFit }
    ensures runs { RunsFit }
{}
