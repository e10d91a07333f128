//! The collector's visits: which operations they make, what each leads to, that every image that a device leaves meanwhile is
//! consistent with the visit, and what is swept at the end.

ghost use Rattle.simulation.specs.visits.Laws.{VisitsKeep, VisitsLead, VisitsCount, SweepsEnd, EndsShowGarbage, VisitsKeepSight};

/// A visit keeps what a plain state of a life keeps: no snapshot in use reads the version in the slot that it frees.
pub fn visits_keep()
    ensures { VisitsKeep }
{}

/// A device that makes the operations of a visit upholds the state after it, and each image that it leaves meanwhile is
/// consistent with the visit. A device that fails upholds the failed state.
pub fn visits_lead()
    ensures { VisitsLead }
{}

/// A visit makes at most three operations at a slot, one at the closing place, and none if no sweep is due.
pub fn visits_count()
    ensures { VisitsCount }
{}

/// Once a sweep has ended, no crash leaves a timestamp of a swept gap in the begin or the end of any slot.
pub fn sweeps_end()
    ensures { SweepsEnd }
{}

/// The slot of a version is freed exactly if its end is covered, by the ruling record and by the snapshot of each active
/// session.
pub fn ends_show_garbage()
    ensures { EndsShowGarbage }
{}

/// A session's snapshot sees after a visit the commits that it saw before, also once gaps are swept.
pub fn visits_keep_sight()
    ensures { VisitsKeepSight }
{}
