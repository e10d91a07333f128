/// What the committer does next for its batch.
#[derive(Clone, Copy, Debug, PartialEq, Eq)]
pub enum CycleStage {
    /// The flush of its next line, or the fence if none is left. `flushed` lines are done; the next isn't below `from`.
    FlushLines { flushed: u64, from: u64 },
    /// The next operation of the record's writing.
    WriteRecord,
}
