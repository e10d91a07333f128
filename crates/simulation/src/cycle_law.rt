//! The committer's ticks: which step of the plain machine each operation of a cycle is, and that each image that a device
//! leaves meanwhile is consistent with that step. Then what closing does.

ghost use Rattle.simulation.specs.cycles.Laws.{BatchesAreChosen, LinesAreCounted, LinesRise, LinesStay, IdleTicks, ChoosingTicks, RefusedTicks, LineTicks, FenceTicks, OperationTicks, CoveringTicks, FailingTicks, ClosingFlushes, ClosingWrites, ClosesOn};

/// The batch that is chosen keeps what a pending batch has to keep.
pub fn batches_are_chosen()
    ensures { BatchesAreChosen }
{}

/// Drawn commits touch as many lines as the machine counts for them.
pub fn lines_are_counted()
    ensures { LinesAreCounted }
{}

/// The lines that commits touch have one rising list: that of the lines that one of them touches.
pub fn lines_rise()
    ensures { LinesRise }
{}

/// No step of a session changes which lines the pending batch touches.
pub fn lines_stay()
    ensures { LinesStay }
{}

/// A tick with nothing to do.
pub fn idle_ticks()
    ensures { IdleTicks }
{}

/// The first tick of a cycle makes no operation: it chooses the batch, which is pending from then on.
pub fn choosing_ticks()
    ensures { ChoosingTicks }
{}

/// A tick that is refused changes nothing.
pub fn refused_ticks()
    ensures { RefusedTicks }
{}

/// A tick that flushes the next line of the batch.
pub fn line_ticks()
    ensures { LineTicks }
{}

/// The tick that fences the lines of the batch.
pub fn fence_ticks()
    ensures { FenceTicks }
{}

/// A tick that makes the next operation of the record's writing.
pub fn operation_ticks()
    ensures { OperationTicks }
{}

/// The last tick covers the batch.
pub fn covering_ticks()
    ensures { CoveringTicks }
{}

/// The operation of a tick fails.
pub fn failing_ticks()
    ensures { FailingTicks }
{}

/// Closing waits until what is drawn persists.
pub fn closing_flushes()
    ensures { ClosingFlushes }
{}

/// Closing writes the record under which all that is drawn is covered.
pub fn closing_writes()
    ensures { ClosingWrites }
{}

/// Closing covers a pending batch first.
pub fn closes_on()
    ensures { ClosesOn }
{}
