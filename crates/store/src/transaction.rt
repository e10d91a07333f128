//! A commit and an abort take the transaction by value, so it can't be used after its end. It has the row limit of its store, so
//! that the error of a put that is too long can say what fits.

ghost use Rattle.std.specs.Prelude.{◌≡◌};
ghost use Rattle.store.specs.Answers.{put_error};

use crate::error::StoreError;
use crate::reading::Snapshot;
use crate::row::RowExt;
use base::Ts;
use base::fault::Fault;
use base::key::Key;
use base::row::Row;
use database::{Committed, Origin};
use std::marker::Brand;
use std::ops::Deref;
use std::sync::Wait;

/// Reads a snapshot, and writes up to 32 keys, which are kept together or not at all. It takes one of 62 sessions until it ends, and
/// a drop rolls it back. A step that is refused changes nothing, and the transaction stays open.
#[derive(Drop)]
pub struct Transaction<'a, R: Wait + Drop, J: Origin = Brand> {
    pub(crate) snapshot: Snapshot<'a, R, J>,
    // The greatest length of a row, in bytes.
    pub(crate) row_limit: usize,
}

// A transaction reads as a snapshot does.
impl<'a, R: Wait + Drop, J: Origin> Deref for Transaction<'a, R, J> {
    ghost use Rattle.std.specs.Prelude.{◌≡◌};

    type Target = Snapshot<'a, R, J>;

    ghost deref_gives = { λ transaction snapshot. snapshot ≡ transaction.snapshot };

    fn deref(&self) -> &Snapshot<'a, R, J> {
        &self.snapshot
    }
}

impl<R: Wait + Drop, J: Origin> Transaction<'_, R, J> {
    ghost use Rattle.std.specs.Prelude.{IfOk, IfErr, false, is_ok};
    ghost use Rattle.std.specs.Int.{w64, to_le_bytes};
    ghost use Rattle.base.specs.declared.step.Step.TheVariants.{Put, Delete, Abort};
    ghost use Rattle.database.specs.Replies.{done_of};
    ghost use Rattle.database.specs.Committing.{ReportsCommit};
    ghost use Rattle.database.specs.Histories.{Does, HasCommitted, made_if};
    ghost use Rattle.store.specs.Answers.{Answers, Puts, MakesWrites, WritesIn, IsCommitRefusal};
    ghost use Rattle.store.specs.Files.{StaysInFile};

    /// Writes the row under the key. It may be refused with `RowTooLong`, `TooManyKeys` or `Full`. It waits as a read does, and if no slot
    /// is free, it first looks for slots that nobody needs.
    pub fn put(&mut self, key: Key, row: Row) -> Result<(), StoreError>
        // As `Transaction::put` of `database` says, for this key and row. The error for TooLong has the greatest length.
        ensures made { Puts self.old.snapshot.reads.session key row self.old.row_limit result }

        // It is the same transaction. If its history is kept, that goes on from its last step, and has of its session this put, if it
        // was made, and no other step.
        ensures session { self.new.snapshot.reads.session ≡ self.old.snapshot.reads.session }
        ensures does { Does self.old.snapshot.reads.session (made_if (is_ok result) (Put self.old.snapshot.reads.session key row)) self.old.snapshot.reads.trace self.new.snapshot.reads.trace }
        ensures same { J.kept ≡ false → self.new ≡ self.old }
    {
        match self.snapshot.reads.put(key, row) {
            Ok(()) => Ok(()),
            Err(fault) => Err(put_error(self.row_limit, fault)),
        }
    }

    /// Writes the number under the key, in 8 bytes.
    pub fn put_number(&mut self, key: Key, number: u64) -> Result<(), StoreError>
        // As for `put`, of the number's 8 bytes.
        ensures made { Puts self.old.snapshot.reads.session key (to_le_bytes w64 number) self.old.row_limit result }
        ensures session { self.new.snapshot.reads.session ≡ self.old.snapshot.reads.session }
        ensures does { Does self.old.snapshot.reads.session (made_if (is_ok result) (Put self.old.snapshot.reads.session key (to_le_bytes w64 number))) self.old.snapshot.reads.trace self.new.snapshot.reads.trace }
        ensures same { J.kept ≡ false → self.new ≡ self.old }
    {
        self.put(key, Row::of_u64(number))
    }

    /// Deletes the row under the key, if there is one. It may be refused with `TooManyKeys`.
    pub fn delete(&mut self, key: Key) -> Result<(), StoreError>
        // A run ends in this step of the transaction's session, and what is returned is read off its reply, at Ok and at Err.
        ensures made { Answers (Delete self.old.snapshot.reads.session key) done_of result }

        // It is the same transaction. If its history is kept, that goes on from its last step, and has of its session this deletion, if
        // it was made, and no other step.
        ensures session { self.new.snapshot.reads.session ≡ self.old.snapshot.reads.session }
        ensures does { Does self.old.snapshot.reads.session (made_if (is_ok result) (Delete self.old.snapshot.reads.session key)) self.old.snapshot.reads.trace self.new.snapshot.reads.trace }
        ensures same { J.kept ≡ false → self.new ≡ self.old }
    {
        Ok(self.snapshot.reads.delete(key)?)
    }

    /// Makes these writes in their order, up to the first that is refused: each as `put` does, or as `delete` does if it has no row. It
    /// waits once for all, and no step of another thread comes in between.
    pub fn write(&mut self, writes: &[(Key, Option<Row>)]) -> Result<(), StoreError>
        // As `Transaction::write` of `database` says, for these writes. The error for TooLong has the greatest length.
        ensures made { MakesWrites self.old.snapshot.reads.session writes.now self.old.row_limit result }

        // It is the same transaction. If its history is kept, that goes on from its last step, and has of its session these writes, or
        // those that were made before the refusal, and no other step.
        ensures session { self.new.snapshot.reads.session ≡ self.old.snapshot.reads.session }
        ensures does { WritesIn self.old.snapshot.reads.session writes.now result self.old.snapshot.reads.trace self.new.snapshot.reads.trace }
        ensures same { J.kept ≡ false → self.new ≡ self.old }
    {
        match self.snapshot.reads.write(writes) {
            Ok(()) => Ok(()),
            Err(fault) => Err(put_error(self.row_limit, fault)),
        }
    }

    /// Commits, and returns once the commit is durable: its timestamp, or `None` if nothing was written. It waits for a sync of the file,
    /// which commits of other threads share. After an error nothing of it is kept, unless the error is `Unknown`. `Conflict` is returned
    /// only once the commit that was in the way is covered.
    pub fn commit(self) -> Result<Option<Ts>, StoreError>
        // As `Transaction::commit` of `database` says.
        ensures ok { IfOk result (ReportsCommit self.entry.snapshot.reads.session) }
        ensures err { IfErr result (IsCommitRefusal self.entry.snapshot.reads.session) }
    {
        match self.commit_known() {
            Ok(done) => Ok(done.timestamp),
            Err(error) => Err(error),
        }
    }

    /// The same, and returns the history up to the end of the transaction, if that is kept.
    pub fn commit_known(self) -> Result<Committed<J>, StoreError>
        // As for `commit`.
        ensures ok { IfOk result (λ done. ReportsCommit self.entry.snapshot.reads.session done.timestamp) }
        ensures err { IfErr result (IsCommitRefusal self.entry.snapshot.reads.session) }

        // As `Transaction::commit_known` of `database` says: of the session the history has the draw of this timestamp, stamps and its end
        // since the transaction's last step, and no other step.
        ensures history { IfOk result (λ done. HasCommitted J.opened self.entry.snapshot.reads.session self.entry.snapshot.reads.trace done.timestamp done.front) }

        // Whatever stops the store from then on, and each life after it: what may be found in the file is what lives of the machine
        // leave. The first of them made the steps of this history, and all that it has covered is there.
        ensures found { IfOk result (λ done. StaysInFile J.opened done.front) }
    {
        let Transaction { snapshot, .. } = self;
        let Snapshot { reads, .. } = snapshot;
        match reads.commit_known() {
            Ok(done) => Ok(done),
            Err(refused) => Err(StoreError::from(refused)),
        }
    }

    /// Rolls the transaction back, as a drop does, and fails if the file has failed.
    pub fn abort(self) -> Result<(), StoreError>
        // A run ends in this step of the transaction's session, and what is returned is read off its reply, at Ok and at Err.
        ensures { Answers (Abort self.entry.snapshot.reads.session) done_of result }
    {
        let Transaction { snapshot, .. } = self;
        let Snapshot { reads, .. } = snapshot;
        Ok(reads.abort()?)
    }
}

/// The error for a refused put, if rows have at most `limit` bytes.
pub fn put_error(limit: usize, fault: Fault) -> StoreError
    ensures { result ≡ put_error limit fault }
{
    match fault {
        Fault::TooLong => StoreError::RowTooLong(limit),
        fault => StoreError::from(fault),
    }
}
