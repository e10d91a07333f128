/// How the slots are used.
#[derive(Clone, Copy, Debug, PartialEq, Eq)]
pub struct Usage {
    /// How many rows are covered.
    pub rows: usize,
    /// How many slots hold no version.
    pub free: u64,
}
