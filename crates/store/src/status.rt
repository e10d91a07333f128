//! The room reports its ruling record with lists of timestamps. A store's status has plain numbers instead, so that it can be
//! copied, compared and printed.

ghost use Rattle.std.specs.Prelude.{◌≡◌, ◌≤◌, min};
ghost use Rattle.store.specs.Status.{draws_left, records_left};

use base::{NUMBER_LIMIT, Ts};
use database::Report;
use std::fmt;

/// The layout of a store, how far it has come, and how full it is.
#[derive(Clone, Copy, Debug, PartialEq, Eq)]
pub struct Status {
    /// The version of the format: 2, 3 if it was made wide, or `4 + 256 w` for a large one whose slots have `w` lines.
    pub version: u64,
    /// How many versions of rows it has room for.
    pub slots: u64,
    /// How many places for records it has.
    pub places: u64,
    /// How many timestamps are reserved at a time.
    pub window: u64,
    /// The greatest length of a row, in bytes.
    pub row_limit: usize,
    /// The number of the ruling record.
    pub record: u64,
    /// Each commit up to this timestamp is covered, except for those that `longs` counts.
    pub persisted: Ts,
    /// How many commits up to `persisted` aren't covered yet.
    pub longs: usize,
    /// How many ranges of timestamps that never counted are still to be swept.
    pub gaps: usize,
    /// How many commits can still be made: there are at least this many timestamps to draw, and at least this many records can follow. A
    /// record may cover more than one commit.
    pub left: u64,
    /// How many rows are committed, in all tables.
    pub rows: usize,
    /// How many slots hold a version: one of these rows, an older version of a row, or what an open transaction has written.
    pub versions: u64,
    /// How many slots hold no version.
    pub free: u64,
}

impl Status {
    ghost use Rattle.std.specs.Prelude.{◌-◌};
    ghost use Rattle.machine.specs.Machine.{State};
    ghost use Rattle.database.specs.Reports.{ShowsReport};
    ghost use Rattle.store.specs.Status.{ShowsStore};

    /// How many lines it has when it is printed.
    pub const LINES: usize = 11;

    /// The status that a report of a database shows.
    pub fn of(report: &Report) -> Status
        ensures shows { (q : State) → ShowsReport q report.now → ShowsStore q result }
        ensures versions { result.versions ≡ result.slots - result.free }
    {
        let Report {
            layout: geometry,
            numbers,
            usage,
        } = report;
        Status {
            version: geometry.version(),
            slots: geometry.slots(),
            places: geometry.places(),
            window: geometry.window(),
            row_limit: geometry.row_limit(),
            record: numbers.gate,
            persisted: numbers.persisted,
            longs: numbers.longs.as_slice().len(),
            gaps: numbers.gaps.as_slice().len(),
            left: commits_left(geometry.window(), numbers.next, numbers.gate),
            rows: usage.rows,
            versions: geometry.slots().saturating_sub(usage.free),
            free: usage.free,
        }
    }
}

// A name and a number on each line: the layout, and how full the store is.
impl fmt::Display for Status {
    fn fmt<W: fmt::Write>(&self, f: &mut fmt::Formatter<W>) -> fmt::Result {
        writeln!(f, "version {}", self.version)?;
        writeln!(f, "slots {}", self.slots)?;
        writeln!(f, "places {}", self.places)?;
        writeln!(f, "window {}", self.window)?;
        writeln!(f, "width {}", self.row_limit)?;
        writeln!(f, "rows {}", self.rows)?;
        writeln!(f, "versions {}", self.versions)?;
        writeln!(f, "free {}", self.free)?;
        writeln!(f, "gaps {}", self.gaps)?;
        writeln!(f, "longs {}", self.longs)?;
        write!(f, "left {}", self.left)
    }
}

// How many commits can still be made before their timestamps, or the numbers of their records, run out.
fn commits_left(window: u64, next: Ts, gate: u64) -> u64
    requires { window ≤ 1024 }
    ensures { result ≡ min (draws_left window next) (records_left gate) }
{
    let draws = NUMBER_LIMIT.saturating_sub(next.saturating_add(2 * window));
    let records = NUMBER_LIMIT.saturating_sub(gate.saturating_add(1));
    draws.min(records)
}
