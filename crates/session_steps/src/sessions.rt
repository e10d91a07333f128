use collector::{Collector, ReplacedSlots};
use dirty_table::DirtyTable;
use index::Index;
use slot_alloc::SlotAlloc;
use snapshot::Numbers;
use std::alloc::Global;
use txn::{DrawnCommits, Transactions};

/// The open sessions, and what they share.
#[derive(Drop)]
pub struct Sessions {
    pub(crate) numbers: Numbers,
    pub(crate) transactions: Transactions,
    pub(crate) drawn: DrawnCommits,
    pub(crate) index: Index,
    pub(crate) dirty: DirtyTable,
    pub(crate) slots: SlotAlloc,
    pub(crate) collector: Collector,
    // The slots whose versions a covered commit has replaced, or more.
    pub(crate) replaced: ReplacedSlots,
    // The place of the index's entry to look at next, so that none stays that says nothing.
    pub(crate) next_entry: usize,
    pub(crate) alloc: Global,
}
