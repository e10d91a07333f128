/// How many operations of each kind a device made.
#[derive(Clone, Copy, Debug, PartialEq, Eq)]
pub struct Operations {
    pub stores: u64,
    pub flushes: u64,
    pub fences: u64,
}
