use base::step::Stage;

/// The result of a tick of the committer.
#[derive(Clone, Copy, Debug, PartialEq, Eq)]
pub enum Tick {
    /// There was nothing to do.
    Idle,
    /// The committer is at this stage of its cycle.
    Reached(Stage),
    /// The pending batch is covered.
    Covered,
}
