//! A transaction borrows its database, so by the types none is open when the database is closed. Each call but the commit is
//! one turn of the database's lock, and returns when its steps are made.

ghost use Rattle.base.specs.declared.step.Step.TheVariants.{Abort};
ghost use Rattle.database.specs.Replies.{done_of};
ghost use Rattle.database.specs.Obeys.{AnswersStep};
ghost use Rattle.database.specs.Committing.{HasAborted};
ghost use Rattle.std.specs.Prelude.{◌≡◌, is_some};

use crate::committing::{put_collecting, write_all};
use crate::error::CommitError;
use crate::locked::{Locked, Shared};
use crate::steps;
use crate::trace::Trace;
use base::Ts;
use base::fault::Fault;
use base::key::Key;
use base::row::Row;
use history::{Front, Origin};
use pmem::Pmem;
use std::alloc::Global;
use std::marker::Brand;
use std::sync::{Arc, Wait};
use sync_ahead::SyncAhead;

/// Reads and writes of one snapshot. A drop aborts it. A commit and an abort take it apart, so no drop aborts it a second time.
pub struct Transaction<'a, D: Pmem + Drop, R: Wait, J: Origin = Brand> {
    pub(crate) rt: &'a R,
    pub(crate) shared: &'a Arc<Shared<D, J>, Global>,
    pub(crate) session: u8,
    /// What it knows of the history, if that is kept.
    pub(crate) trace: Option<Trace<J>>,
    ghost kept: { is_some trace ≡ J.kept },
}

impl<D: Pmem + Drop, R: Wait, J: Origin> Drop for Transaction<'_, D, R, J> {
    fn drop(self)
        // A run ends in the abort of its session, whatever the reply to that was. A commit and an abort take the transaction
        // apart, and no drop comes after them.
        ensures aborted { HasAborted self.entry.session }
    {
        let Transaction {
            rt,
            shared,
            session,
            trace: _,
        } = self;
        let _ = give_up(rt, shared, session);
    }
}

// Aborts the transaction of this session.
fn give_up<D: Pmem + Drop, J: Origin, R: Wait>(
    rt: &R,
    shared: &Shared<D, J>,
    session: u8,
) -> Result<(), Fault>
    ensures { AnswersStep (Abort session) done_of result }
{
    let mut locked = shared.locked(rt);
    let aborted = locked.abort(session);
    locked.leave();
    shared.urge(&locked);
    aborted
}

impl<'a, D: SyncAhead + Drop, R: Wait, J: Origin> Transaction<'a, D, R, J> {
    ghost use Rattle.std.specs.Prelude.{◌≡◌, Ok, Err, IfOk, IfErr, MatchResult};
    ghost use Rattle.base.specs.declared.step.Step.TheVariants.{Get, Scan, Delete, Abort};
    ghost use Rattle.database.specs.Replies.{row_of, rows_of, done_of};
    ghost use Rattle.database.specs.Obeys.{AnswersStep};
    ghost use Rattle.std.specs.Prelude.{false, is_ok, is_some};
    ghost use Rattle.base.specs.declared.step.Step.TheVariants.{Put};
    ghost use Rattle.database.specs.Committing.{AnswersPut, AnswersWrites, ReportsCommit, ReportsError};
    ghost use Rattle.database.specs.Histories.{Does, DoesWrites, HasCommitted, KeepsUp, Replies, Sees, begun_in, made_if, seen_in, traced};
    ghost use Rattle.database.specs.Obeys.{log_in};

    pub(crate) fn new(
        rt: &'a R,
        shared: &'a Arc<Shared<D, J>, Global>,
        session: u8,
        begun: Option<Front<J>>,
    ) -> Transaction<'a, D, R, J>
        requires kept { is_some begun ≡ J.kept }
        ensures session { result.session ≡ session }
        ensures trace { result.trace ≡ traced begun }
    {
        Transaction {
            rt,
            shared,
            session,
            trace: Trace::of(begun),
        }
    }

    // Keeps how far the history has come.
    fn keep(&mut self, locked: &Locked<D, J>)
        ensures session { self.new.session ≡ self.old.session }
        ensures trace { KeepsUp self.old.trace (log_in locked.now.room) self.new.trace }

        // If it isn't kept, the transaction is what it was, at Err too.
        ensures same { J.kept ≡ false → self.new ≡ self.old }
    {
        let seen = match &self.trace {
            Some(_) => locked.known(self.rt),
            None => return,
        };
        if let Some(trace) = &mut self.trace {
            trace.seen = seen;
        }
    }

    /// The history up to its begin, if that is kept.
    pub fn begun(&self) -> Option<Front<J>>
        ensures { result ≡ begun_in self.now.trace }
    {
        match &self.trace {
            Some(trace) => Some(trace.begun.again()),
            None => None,
        }
    }

    /// The history up to its own last step, if that is kept.
    pub fn seen(&self) -> Option<Front<J>>
        ensures { result ≡ seen_in self.now.trace }
    {
        match &self.trace {
            Some(trace) => Some(trace.seen.again()),
            None => None,
        }
    }

    /// The row under the key.
    pub fn get(&self, key: Key) -> Result<Option<Row>, Fault>
        // A run ends in this step of the transaction's session, and what is returned is read off its reply, at Ok and at Err.
        ensures answers { AnswersStep (Get self.now.session key) row_of result }

        // If the history is kept, the row is the reply to this step in the state that the history leads to. Since the transaction's own
        // last step its session has made none.
        ensures sees { IfOk result (λ row. Sees J.opened self.now.session self.now.trace (λ q. Replies q (Get self.now.session key) row_of (Ok row))) }
    {
        let mut locked = self.shared.locked(self.rt);
        locked.attend(self.rt, self.session, &self.trace);
        let Some(room) = &mut locked.room else {
            unreachable!()
        };
        steps::get(room, self.session, key)
    }

    /// The rows of the table at the keys from `lo` to `hi`, both included, by rising key.
    pub fn scan(&self, table: u16, lo: u64, hi: u64) -> Result<Vec<(Key, Row)>, Fault>
        // A run ends in this step of the transaction's session, and what is returned is read off its reply, at Ok and at Err.
        ensures answers { MatchResult result (λ rows. AnswersStep (Scan self.now.session table lo hi) rows_of (Ok rows.items))
            (λ fault. AnswersStep (Scan self.now.session table lo hi) rows_of (Err fault)) }

        // If the history is kept, the rows are the reply to this step in the state that the history leads to, as for `get`.
        ensures sees { IfOk result (λ rows. Sees J.opened self.now.session self.now.trace (λ q. Replies q (Scan self.now.session table lo hi) rows_of (Ok rows.items))) }
    {
        let mut locked = self.shared.locked(self.rt);
        locked.attend(self.rt, self.session, &self.trace);
        let Some(room) = &mut locked.room else {
            unreachable!()
        };
        match steps::scan(room, self.session, table, lo, hi) {
            Ok(rows) => Ok(rows.into_items()),
            Err(fault) => Err(fault),
        }
    }

    /// Writes the row under the key. If no slot is free, slots that nobody needs are collected first.
    pub fn put(&mut self, key: Key, row: Row) -> Result<(), Fault>
        // A run ends in the put of this key and row by the transaction's session, and this put didn't lack a slot. Or a run ends
        // in a put of them by that session that was refused with SlotsOut, visits of the collector and the put again. What is
        // returned is the last put's.
        ensures made { AnswersPut self.old.session key row result }

        // It is the same transaction. If its history is kept, that goes on from its last step, and has of its session this put, if it was made, and no
        // other step.
        ensures session { self.new.session ≡ self.old.session }
        ensures does { Does self.old.session (made_if (is_ok result) (Put self.old.session key row)) self.old.trace self.new.trace }

        // If it isn't kept, the transaction is what it was, at Err too.
        ensures same { J.kept ≡ false → self.new ≡ self.old }
    {
        let mut locked = self.shared.locked(self.rt);
        locked.attend(self.rt, self.session, &self.trace);
        let Some(room) = &mut locked.room else {
            unreachable!()
        };
        let returned = put_collecting(room, self.session, key, &row);
        self.keep(&locked);
        returned
    }

    /// Deletes the row under the key, if there is one.
    pub fn delete(&mut self, key: Key) -> Result<(), Fault>
        // A run ends in this step of the transaction's session, and what is returned is read off its reply, at Ok and at Err.
        ensures made { AnswersStep (Delete self.old.session key) done_of result }

        // It is the same transaction. If its history is kept, that goes on from its last step, and has of its session this deletion, if it was made, and no
        // other step.
        ensures session { self.new.session ≡ self.old.session }
        ensures does { Does self.old.session (made_if (is_ok result) (Delete self.old.session key)) self.old.trace self.new.trace }

        // If it isn't kept, the transaction is what it was, at Err too.
        ensures same { J.kept ≡ false → self.new ≡ self.old }
    {
        let mut locked = self.shared.locked(self.rt);
        locked.attend(self.rt, self.session, &self.trace);
        let Some(room) = &mut locked.room else {
            unreachable!()
        };
        let returned = steps::delete(room, self.session, key);
        self.keep(&locked);
        returned
    }

    /// Makes these writes in order, up to the first that is refused: as `put`, or as `delete` if there is no row. They take the
    /// lock once.
    pub fn write(&mut self, writes: &[(Key, Option<Row>)]) -> Result<(), Fault>
        // A run ends in these writes by the transaction's session, in their order and with no step of another session in between.
        // Each is as `put` says, or in its step if it is a deletion. At Ok they are all of the writes. At Err they end with the
        // first that was refused, and what is returned is its fault.
        ensures made { AnswersWrites self.old.session writes.now result }

        // It is the same transaction. If its history is kept, that goes on from its last step, and has of its session these writes, or those that were made before the refusal, and no
        // other step.
        ensures session { self.new.session ≡ self.old.session }
        ensures does { DoesWrites self.old.session writes.now result self.old.trace self.new.trace }

        // If it isn't kept, the transaction is what it was, at Err too.
        ensures same { J.kept ≡ false → self.new ≡ self.old }
    {
        let mut locked = self.shared.locked(self.rt);
        locked.attend(self.rt, self.session, &self.trace);
        let Some(room) = &mut locked.room else {
            unreachable!()
        };
        let returned = write_all(room, self.session, writes);
        self.keep(&locked);
        returned
    }

    /// Rolls the transaction back, as a drop does, and fails if the device has failed.
    pub fn abort(self) -> Result<(), Fault>
        // A run ends in this step of the transaction's session, and what is returned is read off its reply, at Ok and at Err.
        ensures { AnswersStep (Abort self.entry.session) done_of result }
    {
        let Transaction {
            rt,
            shared,
            session,
            trace: _,
        } = self;
        give_up(rt, shared, session)
    }

    /// Commits, and returns once that is durable: its timestamp, or `None` if nothing was written. At an error the transaction is
    /// over. `CommitError` says whether something of it may be committed.
    pub fn commit(self) -> Result<Option<Ts>, CommitError>
        // At None a run ends in the session's draw of nothing and its end. At a timestamp one run ends in the session's draw of
        // this very timestamp and its stamps to the last. Each stamp but the last left more keys. And one ends in its poll, which
        // reported that timestamp, and its end.
        ensures ok { IfOk result (ReportsCommit self.entry.session) }

        // At Err the commit isn't acknowledged, in one of two ways. In the first the commit wasn't drawn and stamped, and a run
        // ends in the session's abort. The reason is one of four. (1) A run ends in the session's draw, or in its end after it
        // wrote nothing, and that was refused with this fault. It isn't WindowFull, since that is waited for (`Refused`). (2) A
        // run ends in its draw and its stamps, the last of which was refused with this fault (`Open`). (3) Before its draw a run
        // ends in a tick of the committer that was refused with TimestampsOut, which is then reported (`Refused`). (4) Its draw
        // found the window full, and a tick was refused memory (`Refused` with OutOfMemory). In the second way the commit was
        // drawn and stamped. The reason is one of three. (1) A run ends in the poll of the session, which reported that it isn't
        // covered. Earlier in that very run the committer has ended with this fault (`Refused` with TimestampsOut alone,
        // otherwise `Open`). (2) A run ends in such a poll, and a tick was refused memory (`Open`). (3) The session's poll, or
        // the end after it, was refused with this fault (`Open`). So OutOfMemory is reported only if a draw or a tick was refused
        // it, and a conflict only if the draw of the session was refused for it. And a conflict is reported only late. By then a
        // run has come to a ruling record whose timestamp is at least the last one drawn at that draw, or the committer has
        // ended, or a tick was refused memory.
        ensures err { IfErr result (ReportsError self.entry.session) }
    {
        match self.commit_known() {
            Ok(done) => Ok(done.timestamp),
            Err(error) => Err(error),
        }
    }

    /// The same, and returns the history up to the end of the transaction, if that is kept.
    pub fn commit_known(self) -> Result<Committed<J>, CommitError>
        // As for `commit`.
        ensures ok { IfOk result (λ done. ReportsCommit self.entry.session done.timestamp) }
        ensures err { IfErr result (ReportsError self.entry.session) }

        // If the history is kept, what is returned goes on from the last step of the transaction, and can be made from whatever the
        // device opened as. Of the session it then has the draw of this very timestamp, which was the next one, stamps and its
        // end, and no other step. Or, without a timestamp, its draw and its end, and no other step.
        ensures history { IfOk result (λ done. HasCommitted J.opened self.entry.session self.entry.trace done.timestamp done.front) }
    {
        let Transaction {
            rt,
            shared,
            session,
            trace,
        } = self;
        match shared.commit(rt, shared.locked(rt), session, trace) {
            Ok((timestamp, front)) => Ok(Committed { timestamp, front }),
            Err(error) => Err(error),
        }
    }
}

/// What a commit returns: its timestamp, or `None` if nothing was written, and the history up to its transaction's end, if that is kept.
#[derive(Drop)]
pub struct Committed<J: Origin = Brand> {
    pub timestamp: Option<Ts>,
    pub front: Option<Front<J>>,
}
