use base::SlotNo;

/// The result of a tick of the collector.
#[derive(Clone, Copy, Debug, PartialEq, Eq)]
pub enum Visit {
    /// This slot was visited, whether or not it was freed.
    Slot(SlotNo),
    /// The closing place was visited: the gaps so far count as swept.
    SweepEnd,
}
