use base::step::SessionStep;

/// Which image of a stopped device is kept: of each word the oldest value that may have survived,
/// or the newest.
#[derive(Clone, Copy)]
pub enum Survivor {
    Oldest,
    Newest,
}

/// What a line asks for.
#[derive(Clone, Copy)]
pub enum Command {
    /// A step of a session.
    Step(SessionStep),
    /// A put of a row that is longer than any row may be. It makes no step, and is refused before anything else is.
    LongRow,
    /// As many ticks of the committer.
    Commit { ticks: u64 },
    /// As many visits of the collector.
    Collect { visits: u64 },
    /// Ticks of the committer until one covers or finds nothing to do.
    Cycle,
    Crash { keeps: Survivor },
}
