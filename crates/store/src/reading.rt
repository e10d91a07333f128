//! Transactions read through a snapshot of their own, so each read is written only here.

use crate::error::StoreError;
use crate::files::Device;
use crate::ranges::ends_of;
use crate::row::RowExt;
use base::key::Key;
use base::row::Row;
use database::{Front, Origin, Page, Transaction};
use std::alloc::Global;
use std::marker::Brand;
use std::ops::RangeBounds;
use std::sync::Wait;

/// The rows that were committed when the snapshot was created; within a transaction also what that transaction has written. It takes
/// one of 62 sessions until it is dropped. A read may wait for a step of another thread, even for a sync of the file, but never for
/// a commit.
#[derive(Drop)]
pub struct Snapshot<'a, R: Wait + Drop, J: Origin = Brand> {
    pub(crate) alloc: Global,
    pub(crate) reads: Transaction<'a, Device, R, J>,
}

impl<R: Wait + Drop, J: Origin> Snapshot<'_, R, J> {
    ghost use Rattle.std.specs.Prelude.{◌≡◌, ◌^◌, Ok, Err, IfOk, IfErr, MatchResult, length, take, reverse};
    ghost use Rattle.std.specs.Range.Bound.{start_index, end_index};
    ghost use Rattle.base.specs.declared.step.Step.TheVariants.{Get, Scan};
    ghost use Rattle.database.specs.Replies.{row_of, rows_of};
    ghost use Rattle.std.specs.Prelude.{ℕ, ◌-◌, List};
    ghost use Rattle.base.specs.declared.key.Key.{Key as KeyValue};
    ghost use Rattle.base.specs.declared.fault.Fault.{Fault as FaultValue};
    ghost use Rattle.session_steps.specs.Reads.{ReadsPage, first_of, last_of};
    ghost use Rattle.room.specs.Runs.{ComesTo};
    ghost use Rattle.database.specs.Histories.{Replies, Sees, begun_in, seen_in};
    ghost use Rattle.database.specs.Reads.{ReadsReply};
    ghost use Rattle.store.specs.Errors.{error_of};
    ghost use Rattle.store.specs.Answers.{Answers, Scans, ScanRefused, OfScanned, SeesScan, AnswersNumber};
    ghost use Rattle.store.specs.Reads.{Reads, ReadsRange, RangeRefused, first_key_of};

    /// The history up to its begin, if that is kept.
    pub fn begun(&self) -> Option<Front<J>>
        ensures { result ≡ begun_in self.now.reads.trace }
    {
        self.reads.begun()
    }

    /// The history up to its own last step, if that is kept.
    pub fn seen(&self) -> Option<Front<J>>
        ensures { result ≡ seen_in self.now.reads.trace }
    {
        self.reads.seen()
    }

    /// The row under the key, or `None` if there is none.
    pub fn get(&self, key: Key) -> Result<Option<Row>, StoreError>
        // A run ends in this step of the transaction's session, and what is returned is read off its reply, at Ok and at Err.
        ensures answers { Answers (Get self.now.reads.session key) row_of result }

        // If the history is kept, the row is the reply to this step in the state that the history leads to. Since the transaction's own
        // last step its session has made none.
        ensures sees { IfOk result (λ row. Sees J.opened self.now.reads.session self.now.reads.trace (λ q. Replies q (Get self.now.reads.session key) row_of (Ok row))) }
    {
        Ok(self.reads.get(key)?)
    }

    /// The number under the key.
    pub fn number(&self, key: Key) -> Result<Option<u64>, StoreError>
        // What such a step as that of `get` read: no row, or the number whose 8 bytes the row is. At Err it is `NotANumber`, if
        // the row doesn't have 8 bytes, or the fault.
        ensures { AnswersNumber self.now.reads.session key result }
    {
        match self.get(key) {
            Ok(Some(row)) => match row.as_u64() {
                Some(number) => Ok(Some(number)),
                None => Err(StoreError::NotANumber(key)),
            },
            Ok(None) => Ok(None),
            Err(error) => Err(error),
        }
    }

    /// The rows of the table whose keys are in the range, in ascending order. All are read in one step and take memory, so the error
    /// may be `OutOfMemory`.
    pub fn scan<B: RangeBounds<u64>>(
        &self,
        table: u16,
        range: B,
    ) -> Result<Vec<(Key, Row)>, StoreError>
        // As for `get`, of the scan of the table from the first key of the range up to the last. If the range has no key, it is
        // Ok without a row. Nothing is said about a range `a..=b` that was iterated to its end, here and of `first`, `last` and
        // `count`.
        ensures ok { B.has_bounds range → IfOk result (λ rows. Scans self.now.reads.session table (start_index (B.start_bound range)) (end_index (B.end_bound range) (2 ^ 64)) rows.items) }
        ensures err { B.has_bounds range → IfErr result (λ error. ScanRefused self.now.reads.session table (start_index (B.start_bound range)) (end_index (B.end_bound range) (2 ^ 64)) error) }

        // If the history is kept, the rows are the reply to this step in the state that the history leads to, as for `get`.
        ensures sees { B.has_bounds range → IfOk result (λ rows. SeesScan J.opened self.now.reads.session self.now.reads.trace table (start_index (B.start_bound range)) (end_index (B.end_bound range) (2 ^ 64)) rows.items) }
    {
        match ends_of(&range) {
            Some((least, greatest)) => self.scan_between(table, least, greatest),
            None => Ok(Vec::new(self.alloc)),
        }
    }

    // The rows of the table whose keys are between these two, or are one of them.
    fn scan_between(
        &self,
        table: u16,
        least: u64,
        greatest: u64,
    ) -> Result<Vec<(Key, Row)>, StoreError>
        ensures answers { MatchResult result (λ rows. Answers (Scan self.now.reads.session table least greatest) rows_of (Ok rows.items)) (λ error. Answers (Scan self.now.reads.session table least greatest) rows_of (Err error)) }
        ensures sees { IfOk result (λ rows. Sees J.opened self.now.reads.session self.now.reads.trace (λ q. Replies q (Scan self.now.reads.session table least greatest) rows_of (Ok rows.items))) }
    {
        Ok(self.reads.scan(table, least, greatest)?)
    }

    /// The first rows of the range in ascending order, at most `limit` of them. No others are read.
    pub fn first<B: RangeBounds<u64>>(
        &self,
        table: u16,
        range: B,
        limit: usize,
    ) -> Result<Vec<(Key, Row)>, StoreError>
        // At Ok the first rows of the reply to a scan of the range, in a state that a run comes to. If the range has no key, it is Ok
        // without a row. At Err the refusal of such a scan.
        ensures ok { B.has_bounds range → IfOk result (λ rows. ReadsRange (λ all. take limit all) self.now.reads.session table (start_index (B.start_bound range)) (end_index (B.end_bound range) (2 ^ 64)) rows.items) }
        ensures err { B.has_bounds range → IfErr result (λ error. RangeRefused (λ all. take limit all) self.now.reads.session table (start_index (B.start_bound range)) (end_index (B.end_bound range) (2 ^ 64)) error) }
    {
        match ends_of(&range) {
            Some((least, greatest)) => self.first_between(table, least, greatest, limit),
            None => Ok(Vec::new(self.alloc)),
        }
    }

    // The first rows of the table whose keys are between these two, or are one of them.
    fn first_between(
        &self,
        table: u16,
        least: u64,
        greatest: u64,
        limit: usize,
    ) -> Result<Vec<(Key, Row)>, StoreError>
        ensures { MatchResult result (λ rows. Reads (Scan self.now.reads.session table least greatest) (first_of limit) (Ok rows.items)) (λ error. Reads (Scan self.now.reads.session table least greatest) (first_of limit) (Err error)) }
    {
        Ok(self.reads.first_rows(table, least, greatest, limit)?)
    }

    /// The last rows of the range in descending order, at most `limit` of them. No others are read.
    pub fn last<B: RangeBounds<u64>>(
        &self,
        table: u16,
        range: B,
        limit: usize,
    ) -> Result<Vec<(Key, Row)>, StoreError>
        // At Ok the last rows of the reply to a scan of the range, the last first, in a state that a run comes to. If the range has no
        // key, it is Ok without a row. At Err the refusal of such a scan.
        ensures ok { B.has_bounds range → IfOk result (λ rows. ReadsRange (λ all. take limit (reverse all)) self.now.reads.session table (start_index (B.start_bound range)) (end_index (B.end_bound range) (2 ^ 64)) rows.items) }
        ensures err { B.has_bounds range → IfErr result (λ error. RangeRefused (λ all. take limit (reverse all)) self.now.reads.session table (start_index (B.start_bound range)) (end_index (B.end_bound range) (2 ^ 64)) error) }
    {
        match ends_of(&range) {
            Some((least, greatest)) => self.last_between(table, least, greatest, limit),
            None => Ok(Vec::new(self.alloc)),
        }
    }

    // The last rows of the table whose keys are between these two, or are one of them, the last first.
    fn last_between(
        &self,
        table: u16,
        least: u64,
        greatest: u64,
        limit: usize,
    ) -> Result<Vec<(Key, Row)>, StoreError>
        ensures { MatchResult result (λ rows. Reads (Scan self.now.reads.session table least greatest) (last_of limit) (Ok rows.items)) (λ error. Reads (Scan self.now.reads.session table least greatest) (last_of limit) (Err error)) }
    {
        Ok(self.reads.last_rows(table, least, greatest, limit)?)
    }

    /// The greatest key in the table, or `None` if the table has no rows. No other row is read.
    pub fn last_key(&self, table: u16) -> Result<Option<u64>, StoreError>
        // At Ok the number of the key of the last row of the reply to a scan of the table, in a state that a run comes to. At Err the refusal
        // of such a scan.
        ensures ok { IfOk result (λ number. (rows : List (KeyValue × List ℕ)) × ReadsReply (Scan self.now.reads.session table 0 (2 ^ 64 - 1)) (last_of 1) (Ok rows) × (number ≡ first_key_of rows)) }
        ensures err { IfErr result (λ error. Reads (Scan self.now.reads.session table 0 (2 ^ 64 - 1)) (last_of 1) (Err error)) }
    {
        let rows = self.last_between(table, 0, u64::MAX, 1)?;
        Ok(rows.first().map(|(key, _)| key.key))
    }

    /// The rows of all tables from the key `first` on, by rising key, up to `last` or to a key at which there are `limit`. A read
    /// goes on behind the key that was reached.
    pub fn page(&self, first: Key, last: Key, limit: usize) -> Result<Page, StoreError>
        // As `Transaction::page` of `database` says.
        ensures ok { IfOk result (λ page. ComesTo (λ q. ReadsPage q self.now.reads.session first last limit (Ok page))) }
        ensures err { IfErr result (λ error. (fault : FaultValue) × (error ≡ error_of fault) × ComesTo (λ q. ReadsPage q self.now.reads.session first last limit (Err fault))) }
        ensures sees { IfOk result (λ page. Sees J.opened self.now.reads.session self.now.reads.trace (λ q. ReadsPage q self.now.reads.session first last limit (Ok page))) }
    {
        Ok(self.reads.page(first, last, limit)?)
    }

    /// How many rows of the table have keys in the range. They are all read, as by `scan`.
    pub fn count<B: RangeBounds<u64>>(&self, table: u16, range: B) -> Result<usize, StoreError>
        // At Ok the count of the rows of such a scan. At Err the scan was refused.
        ensures ok { B.has_bounds range → IfOk result (λ count. OfScanned self.now.reads.session table (start_index (B.start_bound range)) (end_index (B.end_bound range) (2 ^ 64)) (λ all. count ≡ length all)) }
        ensures err { B.has_bounds range → IfErr result (λ error. ScanRefused self.now.reads.session table (start_index (B.start_bound range)) (end_index (B.end_bound range) (2 ^ 64)) error) }
    {
        Ok(self.scan(table, range)?.len())
    }
}
