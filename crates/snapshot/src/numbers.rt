ghost use Rattle.std.specs.Prelude.{◌≡◌, ◌+◌, ◌*◌, ◌^◌, ◌<◌, ◌≤◌, nat_eq, nat_le, IsTrue};
ghost use Rattle.gap_list.specs.GapLists.{is_gap_list};
ghost use Rattle.snapshot.specs.Snapshots.{seen_by};

use crate::{Covered, Snapshot};
use base::geometry::Geometry;
use base::{NUMBER_LIMIT, Ts};
use log_area::Record;

/// The layout, the record that rules, and the timestamp that is drawn next.
#[derive(Clone, Copy)]
pub struct Numbers {
    pub geometry: Geometry,
    pub record: Record,
    pub next: Ts,
}

impl Numbers {
    /// What the record covers, borrowed from it: its persisted timestamp, its gaps and its long commits (`seen_by`).
    #[inline(always)]
    pub fn covered(&self) -> Covered<'_>
        requires { IsTrue (is_gap_list self.now.record.gaps) }
        ensures { result ≡ seen_by self.now.record }
    {
        Covered::by(&self.record)
    }

    /// What the record covers.
    #[inline(always)]
    pub fn snapshot(&self) -> Snapshot
        requires { IsTrue (is_gap_list self.now.record.gaps) }
        ensures { result ≡ seen_by self.now.record }
    {
        self.covered().to_snapshot()
    }

    /// Have all timestamps that the record reserves been drawn?
    pub fn is_window_full(&self) -> bool
        ensures { result ≡ nat_eq self.now.next self.now.record.dirty }
    {
        self.next == self.record.dirty()
    }

    /// Would the window after the next one reach past the last timestamp?
    pub fn is_near_limit(&self) -> bool
        requires { self.now.next ≤ 2 ^ 62 }
        ensures { result ≡ nat_le (2 ^ 62) (self.now.next + 2 * self.now.geometry.window) }
    {
        NUMBER_LIMIT <= self.next + 2 * self.geometry.window()
    }

    /// Draws the next timestamp.
    pub fn draw(&mut self) -> Ts
        requires { self.old.next < 2 ^ 62 }

        // The next timestamp, which is one higher then. No other number changes.
        ensures timestamp { result ≡ self.old.next }
        ensures numbers { self.new ≡ record self.old { next = self.old.next + 1 } }
    {
        let timestamp = self.next;
        self.next += 1;
        timestamp
    }
}
