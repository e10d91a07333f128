//! What follows from the definitions. The functions do nothing: the contract of each is a law.

ghost use Rattle.machine.specs.Laws.{SnapshotsStay, CyclesAreWhole, OthersKeepHand, WorldsAdd, AcknowledgedStaysOverLives, OpenedGaps, OneGapList, OneOpening, UpdatedOpen, HasRun, RefusedKeeps, FailedStays, OneReply, HasReply, HistoryGrows, AcknowledgedStays, CoveredIsKept, DrawnOnce, WorldsStand, WorldsGrow, NeverReturns, DrawnOnceOverLives, CloseReported};
ghost use Rattle.machine.specs.Rounds.{VisitsFollow, RoundsRepeat};

/// Opening an image gives one list of gaps, and so one state.
pub fn openings_are_decided()
    // The joined gaps of a well-formed record are those that opening its image gives.
    ensures gaps { OpenedGaps }

    // There is one such list.
    ensures one_list { OneGapList }

    // An image, a history and what was lost open as one state.
    ensures one_state { OneOpening }

    // With today's version an image that opens still opens in the same way, under the same record, with the same rows and counts.
    // It stands for the same histories.
    ensures updated { UpdatedOpen }
{}

/// A refused step changes nothing, except that a failing device is remembered.
pub fn refused_steps_change_nothing()
    // A refused step leaves the state as it was. After Device, only `failed` is set.
    ensures keeps { RefusedKeeps }

    // Once the device has failed, each step is refused as Failed.
    ensures failed { FailedStays }
{}

/// What a step may reply is decided, unless memory runs out or the device fails.
pub fn steps_are_decided()
    // A step has one reply and one next state, apart from OutOfMemory and Device.
    ensures one { OneReply }

    // That reply is possible.
    ensures some { HasReply }

    // Each list of steps has a run with ample memory and a working device, and it is the computed one.
    ensures run { HasRun }
{}

/// The history only grows, and what was acknowledged stays in it.
pub fn history_grows()
    // A run only adds to the history.
    ensures grows { HistoryGrows }

    // A commit that a poll reported as committed is in the history at the end of each further run.
    ensures acknowledged { AcknowledgedStays }

    // A covering tick adds exactly its batch's commits at the end. Its `from`, `stamp` and `persisted` are those of the records
    // before and after.
    ensures covered { CoveredIsKept }
{}

/// No session sees more commits than are covered, and what an Active session sees stays the same over each step that doesn't name
/// it.
pub fn snapshots_stay()
    ensures { SnapshotsStay }
{}

/// How long a cycle takes, and what it replies.
pub fn cycles_are_whole()
    // A cycle that meets no fault takes as many ticks as its batch has lines, and 41 more. Its replies are the stages in order,
    // then Covered with the batch.
    ensures whole { CyclesAreWhole }

    // No other step changes the pending batch, the history, the layout or the record.
    ensures others { OthersKeepHand }
{}

/// No timestamp is drawn twice, in a run or across lives.
pub fn timestamps_are_drawn_once()
    // Timestamps that are drawn rise, in a run and over a chain of lives.
    ensures run { DrawnOnce }
    ensures lives { DrawnOnceOverLives }
{}

/// What a chain of lives (`specs/Lives.antt`) leaves. `run_lives` of `lives` promises that its reports are such a chain.
pub fn lives_keep_the_history()
    // Whatever lives follow each other, the image that is left stands for the history that belongs to it.
    ensures stand { WorldsStand }

    // The history, and the timestamps that were lost, are only added to.
    ensures grow { WorldsGrow }

    // A life that opens has its replies by a run from the opened state. It adds the batches that they report as covered, and then
    // a beginning of what the last state of that run has uncovered, in log order. Each commit has the timestamp and the writes
    // that it was drawn with. The batches and all that was uncovered are together exactly what the replies drew. A life that
    // doesn't open adds nothing.
    ensures add { WorldsAdd }

    // The timestamps that polls and covering ticks acknowledged, and all that a closed life drew, are in the history after all
    // lives.
    ensures acknowledged { AcknowledgedStaysOverLives }

    // Closing that was asked for has an outcome in the report, unless the device had failed. Then closing wasn't begun.
    ensures closes { CloseReported }
{}

/// A timestamp that a stop left out is in no later history, and is below all that are drawn later.
pub fn lost_commits_never_return()
    ensures { NeverReturns }
{}

/// Visits of the collector that follow each other with no step between them settle after a round.
pub fn rounds_repeat()
    // Steps of the collector that follow each other are visits, with their replies, if the device hasn't failed.
    ensures follow { VisitsFollow }

    // A second round of visits changes nothing. What a round doesn't change, later rounds don't change either. So any number of
    // rounds and some visits come to what the visits alone do.
    ensures repeat { RoundsRepeat }
{}
