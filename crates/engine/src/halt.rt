//! A session is told which tick ended the committer, and not its fault alone. So closing can look that tick up in the history.

use base::fault::Fault;

/// The tick of the committer that was refused, which ended it: its place in the history, and the fault.
#[derive(Clone, Copy, Debug)]
pub struct Halt {
    pub place: u64,
    pub fault: Fault,
}

/// Why a wait for a commit fails.
#[derive(Clone, Copy)]
pub enum Why {
    /// The committer has ended.
    Halted(Halt),
    /// It is refused memory again and again.
    Memory,
}
