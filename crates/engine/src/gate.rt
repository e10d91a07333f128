//! A test holds a worker within a cycle or a sweep, which no schedule promises. So each worker asks before it goes on.

use base::step::Note;

/// What a worker does next.
#[derive(Clone, Copy)]
pub enum Go {
    Tick,
    Stop,
}

/// Asked before each tick of a worker, outside the locks. It may wait.
pub trait Gate {
    /// `after` is the note of the worker's own last tick. Before its first it is `Idle` for the committer and `SweepEnd` for
    /// the collector.
    fn pass(&mut self, after: &Note) -> Go;
}
