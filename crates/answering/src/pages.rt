//! Rows of a snapshot, some at a time, so that what is printed takes no memory for all of them.

use base::key::Key;
use base::row::Row;
use commands::Range;
use std::alloc::Global;
use std::sync::Wait;
use store::{Snapshot, StoreError};

/// The most rows that are read at once. A page may have a few more: those that a transaction has written itself.
pub const MOST_ROWS: usize = 256;

/// What is left of a range of one table.
#[derive(Clone, Copy)]
pub struct RangePages {
    range: Range,
    is_over: bool,
}

impl RangePages {
    pub fn new(range: Range) -> RangePages {
        RangePages {
            range,
            is_over: false,
        }
    }

    /// The next rows, or none at the end.
    pub fn next<R: Wait + Drop>(
        &mut self,
        alloc: Global,
        snapshot: &Snapshot<'_, R>,
    ) -> Result<Vec<(Key, Row)>, StoreError> {
        let most = (MOST_ROWS as u64).min(self.range.limit) as usize;
        if self.is_over || most == 0 {
            return Ok(Vec::new(alloc));
        }
        let Range { table, lo, hi, .. } = self.range;
        let rows = if self.range.is_reverse {
            snapshot.last(table, lo..=hi, most)?
        } else {
            snapshot.first(table, lo..=hi, most)?
        };
        match rows.last() {
            Some((key, _)) => self.go_on(key.key, rows.len()),
            None => self.is_over = true,
        }
        Ok(rows)
    }

    // Goes on behind this key, at which that many rows end.
    fn go_on(&mut self, key: u64, count: usize) {
        let behind = if self.range.is_reverse {
            key.checked_sub(1)
        } else {
            key.checked_add(1)
        };
        match behind {
            Some(next) if self.range.is_reverse => self.range.hi = next,
            Some(next) => self.range.lo = next,
            None => self.is_over = true,
        }
        self.range.limit = self.range.limit.saturating_sub(count as u64);
        self.is_over = self.is_over || self.range.hi < self.range.lo;
    }
}

/// How many rows a table has.
pub fn count_rows<R: Wait + Drop>(
    alloc: Global,
    snapshot: &Snapshot<'_, R>,
    table: u16,
) -> Result<usize, StoreError> {
    let mut pages = RangePages::new(Range::whole(table));
    let mut count: usize = 0;
    for _ in 0..u64::MAX {
        let rows = pages.next(alloc, snapshot)?;
        if rows.is_empty() {
            break;
        }
        count = count.saturating_add(rows.len());
    }
    Ok(count)
}
