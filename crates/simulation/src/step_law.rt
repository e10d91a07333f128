//! How the steps of sessions lead from one plain state to the next on a device: what the operations of each make of a device that
//! upholds the state, whole or up to one that fails.

ghost use Rattle.simulation.specs.steps.Laws.{RunsCount, StopsCount, RefusalsLead, QuietStepsLead, PutsLead, PutsCount, StampsLead, StampsOperate, StampsCount};

/// A run makes as many operations as it lists, and none fails.
pub fn runs_count()
    ensures { RunsCount }
{}

/// A run that stops makes fewer, and one operation fails.
pub fn stops_count()
    ensures { StopsCount }
{}

/// A refused step leaves the device and what it upholds as they are.
pub fn refusals_lead()
    ensures { RefusalsLead }
{}

/// A session's step that stores nothing leads on with no operation: it begins, reads, deletes, draws, polls, aborts or ends.
pub fn quiet_steps_lead()
    ensures { QuietStepsLead }
{}

/// A put clears the slot that it takes, and fills its slot. If an operation fails, the device upholds the failed state.
pub fn puts_lead()
    ensures { PutsLead }
{}

/// A put makes no more operations than the machine allows.
pub fn puts_count()
    ensures { PutsCount }
{}

/// A stamp stores its timestamp in the begin of its commit's version, and in the end of the version that this ends. If
/// an operation fails, the device upholds the failed state.
pub fn stamps_lead()
    ensures { StampsLead }
{}

/// If a stamp makes an operation, the machine says that the device may fail in it.
pub fn stamps_operate()
    ensures { StampsOperate }
{}

/// A stamp makes no more operations than the machine allows.
pub fn stamps_count()
    ensures { StampsCount }
{}
