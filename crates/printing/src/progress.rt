use std::rt::Clock;
use std::time::{Duration, Instant};

// After how many more rows the progress is printed again.
const STEP: u64 = 1_024;

/// The progress that is printed on standard error while rows are put.
#[derive(Drop)]
pub struct Progress<'a, R> {
    rt: &'a R,
    // When it began, if it is printed at all.
    start: Option<Instant>,
    // The number of rows that was printed last.
    printed: u64,
}

impl<'a, R: Eprint + Clock> Progress<'a, R> {
    /// Begins now.
    pub fn new(rt: &'a R, is_shown: bool) -> Progress<'a, R> {
        let start = if is_shown {
            Instant::now(rt).ok()
        } else {
            None
        };
        Progress {
            rt,
            start,
            printed: 0,
        }
    }

    /// Prints that this many rows are put, if enough were put since the last time.
    pub fn show(&mut self, rows: u64) {
        if rows.saturating_sub(self.printed) < STEP {
            return;
        }
        self.printed = rows;
        if let Some(elapsed) = self.elapsed() {
            let rate = rate(rows, elapsed);
            let _ = eprint!(self.rt; "\rkv: {rows} rows, {rate} a second");
        }
    }

    /// Ends the line of the progress, if one was begun.
    pub fn end(&self) {
        if self.start.is_some() && 0 < self.printed {
            let _ = eprintln!(self.rt; "");
        }
    }

    fn elapsed(&self) -> Option<Duration> {
        self.start?.elapsed(self.rt).ok()
    }
}

// How many rows per second.
fn rate(rows: u64, elapsed: Duration) -> u128 {
    let thousand = u128::from(rows).saturating_mul(1_000);
    thousand.checked_div(elapsed.as_millis()).unwrap_or(0)
}
