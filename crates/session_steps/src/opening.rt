ghost use Rattle.std.specs.Prelude.{ℕ, ◌≡◌, ◌*◌, ◌≤◌, false, length, replicate};
ghost use Rattle.base.specs.Layout.{total_words};
ghost use Rattle.dirty_table.specs.Touches.{is_touched};
ghost use Rattle.pmem.specs.Words.{image_of};
ghost use Rattle.session_steps.specs.Opening.{HasFound};

use crate::sessions::Sessions;
use base::Ts;
use base::geometry::Geometry;
use collector::{Collector, ReplacedSlots};
use dirty_table::DirtyTable;
use index::Index;
use log_area::Record;
use slot_alloc::SlotAlloc;
use snapshot::Numbers;
use std::alloc::Global;
use txn::{DrawnCommits, Transactions};

impl Sessions {
    ghost use Rattle.pmem.specs.Device.{Device, IsOrderly};
    ghost use Rattle.session_steps.specs.Opening.{ShowsOpened};

    /// The sessions of a life that begins on an opened device, with the index of its slots, those that are free, and a table of
    /// its lines. No session is open. It takes no memory.
    pub fn open(
        alloc: Global,
        index: Index,
        slots: SlotAlloc,
        replaced: ReplacedSlots,
        dirty: DirtyTable,
        geometry: Geometry,
        ruling: Record,
        next: Ts,
    ) -> Sessions
        requires slots { length slots ≡ geometry.slots }

        // No slot is among the replaced ones: what replaces a version has freed its slot.
        requires replaced { replaced ≡ replicate geometry.slots false }

        // The dirty table has a place for each line of the layout, and none is touched.
        requires untouched { (n line : ℕ) → is_touched dirty n line ≡ false }
        requires sized { total_words geometry ≤ 8 * length dirty }

        // They show the opened state whenever the device upholds it and the index has found its slots.
        ensures { (device : Device) → IsOrderly device → HasFound (image_of device) slots geometry.slots index → ShowsOpened result device geometry ruling next slots }
    {
        Sessions {
            numbers: Numbers {
                geometry,
                record: ruling,
                next,
            },
            transactions: Transactions::new(alloc),
            drawn: DrawnCommits::new(alloc),
            index,
            dirty,
            slots,
            collector: Collector::new(),
            replaced,
            next_entry: 0,
            alloc,
        }
    }
}
