//! A commit from its first step to its reply. Nobody sleeps here unless another thread is sure to wake it. A thread that waits for its
//! own commit leads, or another does. A thread that waits for another's commit is woken at each cover, each refused tick and each
//! worker's end. It notifies the committer if nobody leads.

ghost use Rattle.std.specs.Prelude.{◌≡◌, ◌↔◌, IsTrue, Err};
ghost use Rattle.base.specs.declared.fault.Fault.TheVariants.{WindowFull};
ghost use Rattle.database.specs.declared.error.CommitError.TheVariants.{Refused};

use crate::committing::prepare;
use crate::ending::end_after;
use crate::error::CommitError;
use crate::locked::{Locked, Shared};
use crate::trace::Trace;
use base::Ts;
use base::fault::Fault;
use base::key::Key;
use base::row::Row;
use history::{Front, Origin};
use roles::Next;
use std::sync::{MutexGuard, Wait};
use sync_ahead::SyncAhead;

impl<D: SyncAhead + Drop, J: Origin> Shared<D, J> {
    ghost use Rattle.std.specs.Prelude.{Ok, IfOk, IfErr};
    ghost use Rattle.base.specs.declared.key.Key.{Key};
    ghost use Rattle.base.specs.declared.fault.Fault.TheVariants.{Conflict};
    ghost use Rattle.database.specs.Histories.{HasCommitted, PreparesAfter};
    ghost use Rattle.database.specs.Committing.{IsPrepared, HasAborted, ConflictsAt, IsSettledUpTo, ReportsCommit, ReportsUnprepared, ReportsError, ReportsWritten, ReportsUnwritten};

    /// Makes these writes in a transaction of their own and commits it. Everything up to the last stamp is one turn of the lock.
    pub fn write<R: Wait>(
        &self,
        rt: &R,
        writes: &[(Key, Option<Row>)],
    ) -> Result<Option<Ts>, CommitError>
        ensures ok { IfOk result (ReportsWritten writes.now) }
        ensures err { IfErr result (ReportsUnwritten writes.now) }
    {
        let mut locked = self.locked(rt);
        match locked.begin_with(writes) {
            Ok(session) => match self.commit(rt, locked, session, None) {
                Ok((timestamp, _)) => Ok(timestamp),
                Err(error) => Err(error),
            },
            Err(fault) => Err(CommitError::Refused(fault)),
        }
    }

    /// Commits the transaction of this session, and ends it. If its last step is known, it also returns the history up to its end.
    pub fn commit<'a, R: Wait>(
        &'a self,
        rt: &R,
        locked: MutexGuard<'a, Locked<D, J>>,
        session: u8,
        trace: Option<Trace<J>>,
    ) -> Result<(Option<Ts>, Option<Front<J>>), CommitError>
        ensures ok { IfOk result (λ done. ReportsCommit session done.0) }
        ensures history { IfOk result (λ done. HasCommitted J.opened session trace done.0 done.1) }
        ensures err { IfErr result (ReportsError session) }
    {
        let (locked, prepared, drawn, front) = self.prepare(rt, locked, session, &trace);
        match prepared {
            Ok(timestamp) => match timestamp {
                Some(timestamp) => {
                    let (answer, ending) = self.wait(rt, locked, session, timestamp);
                    match answer {
                        Ok(()) => Ok((Some(timestamp), end_after(rt, session, front, ending))),
                        Err(error) => Err(error),
                    }
                }
                None => {
                    let mut locked = locked;
                    locked.leave();
                    self.urge(&locked);
                    self.exit(locked);
                    Ok((None, front))
                }
            },
            Err(error) => {
                drop(locked);
                self.give_way(rt, session, error, drawn);
                Err(error)
            }
        }
    }

    // Draws and stamps, once the committer has reserved timestamps. Returns the timestamp, if something was written, and the greatest
    // timestamp drawn by then, by any session. If the session's last step is known, it also returns the history up to there.
    fn prepare<'a, R: Wait>(
        &'a self,
        rt: &R,
        locked: MutexGuard<'a, Locked<D, J>>,
        session: u8,
        trace: &Option<Trace<J>>,
    ) -> (
        MutexGuard<'a, Locked<D, J>>,
        Result<Option<Ts>, CommitError>,
        Ts,
        Option<Front<J>>,
    )
        ensures history { IfOk result.1 (λ drawn. PreparesAfter J.opened session trace.now drawn result.3) }
        ensures ok { IfOk result.1 (λ drawn. IsPrepared session (Ok drawn)) }
        ensures err { IfErr result.1 (ReportsUnprepared session) }
        ensures conflict { (key : Key) → result.1 ≡ Err (Refused (Conflict key)) → ConflictsAt session key result.2 }
    {
        let mut locked = locked;
        for _ in rt.forever() {
            if locked.lacks_numbers() {
                return (
                    locked,
                    Err(CommitError::Refused(Fault::TimestampsOut)),
                    0,
                    None,
                );
            }
            locked.attend(rt, session, trace);
            if let Some(room) = &mut locked.room {
                let prepared = prepare(rt, room, session);
                let drawn = room.last_drawn();
                if !is_full(&prepared) {
                    let front = locked.known_if(rt, trace.is_some());
                    return (locked, prepared, drawn, front);
                }
                locked = self.take_turn(rt, locked);
                if locked.lacks_memory() {
                    return (
                        locked,
                        Err(CommitError::Refused(Fault::OutOfMemory)),
                        0,
                        None,
                    );
                }
            } else {
                locked = self.moved.wait(rt, locked);
            }
        }
        unreachable!()
    }

    // Ends a transaction whose commit was refused. A conflict is reported once all that was drawn by then is covered or abandoned: a
    // transaction that begins afterwards sees the commit that was in the way.
    fn give_way<R: Wait>(&self, rt: &R, session: u8, error: CommitError, drawn: Ts)
        ensures given { HasAborted session }
        ensures late { (key : Key) → error ≡ Refused (Conflict key) → IsSettledUpTo drawn }
    {
        let mut locked = self.locked(rt);
        let _ = locked.abort(session);
        match error {
            CommitError::Refused(Fault::Conflict(_)) => {
                locked.group.excuse();
                self.urge(&locked);
                let mut locked = self.settle(rt, locked, drawn);
                locked.leave();
                self.exit(locked);
            }
            _ => {
                locked.leave();
                self.exit(locked);
            }
        }
    }

    // Waits until each commit up to this timestamp is covered or abandoned, or the committer finds no memory.
    fn settle<'a, R: Wait>(
        &'a self,
        rt: &R,
        locked: MutexGuard<'a, Locked<D, J>>,
        timestamp: Ts,
    ) -> MutexGuard<'a, Locked<D, J>>
        ensures { IsSettledUpTo timestamp }
    {
        let mut locked = locked;
        for _ in rt.forever() {
            if locked.is_settled(timestamp) {
                return locked;
            }
            locked = self.take_turn(rt, locked);
            if locked.lacks_memory() {
                return locked;
            }
        }
        unreachable!()
    }

    // Waits for a turn of the committer, which the leader of a group takes. If no other transaction is open, this thread takes the turn
    // itself, and nobody sleeps.
    fn take_turn<'a, R: Wait>(
        &'a self,
        rt: &R,
        locked: MutexGuard<'a, Locked<D, J>>,
    ) -> MutexGuard<'a, Locked<D, J>> {
        let mut locked = locked;
        if 1 < locked.open {
            if !locked.roles.is_led() {
                self.commits.notify_all();
            }
            return self.wait_moved(rt, locked);
        }
        let (mut locked, turn) = self.cover_group(rt, locked);
        self.notify(rt, &mut locked, turn);
        // A commit that came meanwhile follows, and this thread won't lead it.
        let are_left = !locked.group.is_empty();
        self.recall(&mut locked, are_left);
        match turn.next_of_waiter() {
            Next::Sleep => self.wait_moved(rt, locked),
            Next::Yield => self.pass(rt, locked),
            Next::Again => locked,
        }
    }
}

// Whether the draw found no timestamp left in the window.
fn is_full(prepared: &Result<Option<Ts>, CommitError>) -> bool
    ensures { IsTrue result ↔ (prepared.now ≡ Err (Refused WindowFull)) }
{
    matches!(prepared, Err(CommitError::Refused(Fault::WindowFull)))
}
