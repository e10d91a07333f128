//! Each call is one step of the room, named in its contract with the value that is read off the reply, at Ok and at Err. They
//! take an `OpenedRoom`, so that no step is lost from the run that it carries. Whether and why the committer has ended stays as
//! it was (`ended`). If a history is kept, a step that was made is its next entry, except for reads and polls (`log`).

ghost use Rattle.std.specs.Prelude.{◌≡◌, ◌<◌, ◌≤◌, is_ok};
ghost use Rattle.base.specs.Steps.{as_reply};
ghost use Rattle.session_steps.specs.Replies.{polled as polled_reply};
ghost use Rattle.base.specs.declared.step.Step.TheVariants.{Begin, Get, Scan, Put, Delete, Draw, Stamp, Poll, Abort, End, Collect};
ghost use Rattle.database.specs.Replies.{began_of, row_of, rows_of, done_of, drawn_of, stamped_of, committed_of};
ghost use Rattle.database.specs.Obeys.{Obeys, RepeatsTimes};
ghost use Rattle.database.specs.Histories.{Logs, LogsQuiet, made_if, DrewNext, TookFree};

use crate::opened::{OpenedRoom, SmallStep, note, note_put};
use base::Ts;
use base::fault::Fault;
use base::key::Key;
use base::row::Row;
use base::rows::Rows;
use history::Origin;
use pmem::Pmem;
use room::CommitStatus;

/// Opens a session and returns its number.
pub fn begin<D: Pmem + Drop, J: Origin>(room: &mut OpenedRoom<D, J>) -> Result<u8, Fault>
    ensures step { Obeys D.state room.old.room room.new.room Begin began_of result }
    ensures ended { room.new.ended ≡ room.old.ended }
    ensures log { Logs (made_if (is_ok result) Begin) room.old.log room.new.log }
    ensures free { TookFree J.opened room.old.log result }
{
    let returned = room.room.begin();
    note(&mut room.log, &returned, SmallStep::Begin);
    returned
}

/// The row under the key, as the session's transaction sees it.
pub fn get<D: Pmem + Drop, J: Origin>(
    room: &mut OpenedRoom<D, J>,
    session: u8,
    key: Key,
) -> Result<Option<Row>, Fault>
    ensures step { Obeys D.state room.old.room room.new.room (Get session key) row_of result }
    ensures ended { room.new.ended ≡ room.old.ended }
    ensures log { room.new.log ≡ room.old.log }
{
    room.room.get(session, key)
}

/// The rows of the table at the keys from `lo` to `hi`, both included, by rising key.
pub fn scan<D: Pmem + Drop, J: Origin>(
    room: &mut OpenedRoom<D, J>,
    session: u8,
    table: u16,
    lo: u64,
    hi: u64,
) -> Result<Rows, Fault>
    ensures step { Obeys D.state room.old.room room.new.room (Scan session table lo hi) rows_of result }
    ensures ended { room.new.ended ≡ room.old.ended }
    ensures log { room.new.log ≡ room.old.log }
{
    room.room.scan(session, table, lo, hi)
}

/// Writes the row under the key.
pub fn put<D: Pmem + Drop, J: Origin>(
    room: &mut OpenedRoom<D, J>,
    session: u8,
    key: Key,
    row: &Row,
) -> Result<(), Fault>
    ensures step { Obeys D.state room.old.room room.new.room (Put session key row.now) done_of result }
    ensures ended { room.new.ended ≡ room.old.ended }
    ensures log { Logs (made_if (is_ok result) (Put session key row.now)) room.old.log room.new.log }
{
    let returned = room.room.put(session, key, row);
    note_put(&mut room.log, &returned, session, key, row);
    returned
}

/// Deletes the row under the key, if there is one.
pub fn delete<D: Pmem + Drop, J: Origin>(
    room: &mut OpenedRoom<D, J>,
    session: u8,
    key: Key,
) -> Result<(), Fault>
    ensures step { Obeys D.state room.old.room room.new.room (Delete session key) done_of result }
    ensures ended { room.new.ended ≡ room.old.ended }
    ensures log { Logs (made_if (is_ok result) (Delete session key)) room.old.log room.new.log }
{
    let returned = room.room.delete(session, key);
    note(&mut room.log, &returned, SmallStep::Delete(session, key));
    returned
}

/// Draws a timestamp. `None` if nothing was written.
pub fn draw<D: Pmem + Drop, J: Origin>(
    room: &mut OpenedRoom<D, J>,
    session: u8,
) -> Result<Option<Ts>, Fault>
    ensures step { Obeys D.state room.old.room room.new.room (Draw session) drawn_of result }
    ensures ended { room.new.ended ≡ room.old.ended }
    ensures log { Logs (made_if (is_ok result) (Draw session)) room.old.log room.new.log }
    ensures next { DrewNext J.opened room.old.log result }
{
    let returned = room.room.draw(session);
    note(&mut room.log, &returned, SmallStep::Draw(session));
    returned
}

/// Stamps one key, and returns whether all are stamped.
pub fn stamp<D: Pmem + Drop, J: Origin>(
    room: &mut OpenedRoom<D, J>,
    session: u8,
) -> Result<bool, Fault>
    ensures step { Obeys D.state room.old.room room.new.room (Stamp session) stamped_of result }
    ensures ended { room.new.ended ≡ room.old.ended }
    ensures log { Logs (made_if (is_ok result) (Stamp session)) room.old.log room.new.log }
{
    let returned = room.room.stamp(session);
    note(&mut room.log, &returned, SmallStep::Stamp(session));
    returned
}

/// The timestamp of the commit, once it is covered.
pub fn poll<D: Pmem + Drop, J: Origin>(
    room: &mut OpenedRoom<D, J>,
    session: u8,
) -> Result<Option<Ts>, Fault>
    ensures step { Obeys D.state room.old.room room.new.room (Poll session) committed_of result }
    ensures ended { room.new.ended ≡ room.old.ended }
    ensures log { room.new.log ≡ room.old.log }
{
    committed_in(room.room.poll(session))
}

// The timestamp, once the commit is covered. A transaction that wrote nothing has none.
fn committed_in(polled: Result<CommitStatus, Fault>) -> Result<Option<Ts>, Fault>
    ensures { result ≡ committed_of (as_reply (polled_reply polled)) }
{
    match polled {
        Ok(CommitStatus::Waiting) => Ok(None),
        Ok(CommitStatus::Committed(timestamp)) => Ok(Some(timestamp)),
        Ok(CommitStatus::ReadOnly) => Err(Fault::WrongState),
        Err(fault) => Err(fault),
    }
}

/// Rolls back the transaction.
pub fn abort<D: Pmem + Drop, J: Origin>(
    room: &mut OpenedRoom<D, J>,
    session: u8,
) -> Result<(), Fault>
    ensures step { Obeys D.state room.old.room room.new.room (Abort session) done_of result }
    ensures ended { room.new.ended ≡ room.old.ended }
    ensures log { Logs (made_if (is_ok result) (Abort session)) room.old.log room.new.log }
{
    let returned = room.room.abort(session);
    note(&mut room.log, &returned, SmallStep::Abort(session));
    returned
}

/// Ends a transaction that is covered.
pub fn end<D: Pmem + Drop, J: Origin>(room: &mut OpenedRoom<D, J>, session: u8) -> Result<(), Fault>
    ensures step { Obeys D.state room.old.room room.new.room (End session) done_of result }
    ensures ended { room.new.ended ≡ room.old.ended }
    ensures log { Logs (made_if (is_ok result) (End session)) room.old.log room.new.log }
{
    let returned = room.room.end(session);
    note(&mut room.log, &returned, SmallStep::End(session));
    returned
}

/// Visits this many places of the collector's round.
pub fn collect<D: Pmem + Drop, J: Origin>(room: &mut OpenedRoom<D, J>, places: u64)
    // The room makes exactly this number of visits of the collector, and no other step.
    ensures visits { RepeatsTimes D.state room.old.room room.new.room Collect places }
    ensures ended { room.new.ended ≡ room.old.ended }
    ensures log { LogsQuiet room.old.log room.new.log }
{
    let mut left = places;
    while left > 0 {
        left -= visit_next(room, left);
    }
}

// Visits this many places at most: those whose visits change nothing, and one more. Returns how many.
fn visit_next<D: Pmem + Drop, J: Origin>(room: &mut OpenedRoom<D, J>, most: u64) -> u64
    requires some { 0 < most }
    ensures visits { RepeatsTimes D.state room.old.room room.new.room Collect result }
    ensures some { 0 < result }
    ensures most { result ≤ most }
    ensures ended { room.new.ended ≡ room.old.ended }
    ensures log { LogsQuiet room.old.log room.new.log }
{
    let passed = room.pass(most);
    if passed == most {
        return passed;
    }
    let _ = room.visit();
    passed + 1
}
