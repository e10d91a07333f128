//! Each step of a session as a call of its own, which returns what that step is for. A step and a reply have room for the largest there
//! is: these calls move neither.

ghost use Rattle.std.specs.Prelude.{◌≡◌, ◌≢◌, false, IfErr};
ghost use Rattle.base.specs.declared.fault.Fault.TheVariants.{OutOfMemory};
ghost use Rattle.room.specs.Steps.{reports_failure};

use crate::room::Room;
use base::Ts;
use base::fault::Fault;
use base::key::Key;
use base::row::Row;
use base::rows::Rows;
use pmem::Pmem;
use session_steps::CommitStatus;

impl<D: Pmem + Drop> Room<D> {
    ghost use Rattle.base.specs.Steps.{as_reply};
    ghost use Rattle.base.specs.declared.step.Step.TheVariants.{Begin, Get, Scan, Put, Delete, Draw, Stamp, Poll, Abort, End};
    ghost use Rattle.session_steps.specs.Replies.{began, read, scanned, done, drawn, stamped, polled};
    ghost use Rattle.room.specs.Room.{Leads, covered_by};

    /// Opens a session under the lowest free number. Returns the number.
    #[inline(always)]
    pub fn begin(&mut self) -> Result<u8, Fault>
        ensures step { Leads D.state self.old self.new Begin (as_reply (began result)) }

        // The batch that waits to be handed out stays.
        ensures waits { covered_by self.new ≡ covered_by self.old }
    {
        if self.failed {
            return Err(Fault::Failed);
        }
        self.volatile.sessions.begin()
    }

    /// The session's own write of the key, or the row of its snapshot.
    #[inline(always)]
    pub fn get(&self, session: u8, key: Key) -> Result<Option<Row>, Fault>
        ensures step { Leads D.state self.now self.now (Get session key) (as_reply (read result)) }
    {
        if self.failed {
            return Err(Fault::Failed);
        }
        self.volatile.sessions.get(&self.device, session, key)
    }

    /// The rows that the session sees at the keys of the table from lo to hi, both included, by rising key.
    #[inline(always)]
    pub fn scan(&self, session: u8, table: u16, lo: u64, hi: u64) -> Result<Rows, Fault>
        ensures step { Leads D.state self.now self.now (Scan session table lo hi) (as_reply (scanned result)) }
    {
        if self.failed {
            return Err(Fault::Failed);
        }
        self.volatile
            .sessions
            .scan(&self.device, session, table, lo, hi)
    }

    /// Writes a row.
    #[inline(always)]
    pub fn put(&mut self, session: u8, key: Key, row: &Row) -> Result<(), Fault>
        ensures step { Leads D.state self.old self.new (Put session key row.now) (as_reply (done result)) }

        // The batch that waits to be handed out stays.
        ensures waits { covered_by self.new ≡ covered_by self.old }

        // It is never refused for lack of memory.
        ensures memory { IfErr result (λ fault. fault ≢ OutOfMemory) }
    {
        if self.failed {
            return Err(Fault::Failed);
        }
        let returned = self
            .volatile
            .sessions
            .put(&mut self.device, session, key, row);
        keep_failure(&mut self.failed, &returned);
        returned
    }

    /// Writes a deletion.
    #[inline(always)]
    pub fn delete(&mut self, session: u8, key: Key) -> Result<(), Fault>
        ensures step { Leads D.state self.old self.new (Delete session key) (as_reply (done result)) }

        // The batch that waits to be handed out stays.
        ensures waits { covered_by self.new ≡ covered_by self.old }

        // It is never refused for lack of memory.
        ensures memory { IfErr result (λ fault. fault ≢ OutOfMemory) }
    {
        if self.failed {
            return Err(Fault::Failed);
        }
        self.volatile.sessions.delete(session, key)
    }

    /// Draws a timestamp for what a session has written. `None` if it wrote nothing.
    #[inline(always)]
    pub fn draw(&mut self, session: u8) -> Result<Option<Ts>, Fault>
        ensures step { Leads D.state self.old self.new (Draw session) (as_reply (drawn result)) }

        // The batch that waits to be handed out stays.
        ensures waits { covered_by self.new ≡ covered_by self.old }
    {
        if self.failed {
            return Err(Fault::Failed);
        }
        self.volatile.sessions.draw(session)
    }

    /// Stamps the next of the keys that a session has drawn. Returns whether it was the last.
    #[inline(always)]
    pub fn stamp(&mut self, session: u8) -> Result<bool, Fault>
        ensures step { Leads D.state self.old self.new (Stamp session) (as_reply (stamped result)) }

        // The batch that waits to be handed out stays.
        ensures waits { covered_by self.new ≡ covered_by self.old }
    {
        if self.failed {
            return Err(Fault::Failed);
        }
        let returned = self.volatile.sessions.stamp(&mut self.device, session);
        keep_failure(&mut self.failed, &returned);
        returned
    }

    /// How far a session's commit has come.
    #[inline(always)]
    pub fn poll(&self, session: u8) -> Result<CommitStatus, Fault>
        ensures step { Leads D.state self.now self.now (Poll session) (as_reply (polled result)) }
    {
        if self.failed {
            return Err(Fault::Failed);
        }
        self.volatile.sessions.poll(session)
    }

    /// Rolls back what a session has written.
    #[inline(always)]
    pub fn abort(&mut self, session: u8) -> Result<(), Fault>
        ensures step { Leads D.state self.old self.new (Abort session) (as_reply (done result)) }

        // The batch that waits to be handed out stays.
        ensures waits { covered_by self.new ≡ covered_by self.old }
    {
        if self.failed {
            return Err(Fault::Failed);
        }
        self.volatile.sessions.abort(session)
    }

    /// Ends a session that is covered, or that wrote nothing.
    #[inline(always)]
    pub fn end(&mut self, session: u8) -> Result<(), Fault>
        ensures step { Leads D.state self.old self.new (End session) (as_reply (done result)) }

        // The batch that waits to be handed out stays.
        ensures waits { covered_by self.new ≡ covered_by self.old }
    {
        if self.failed {
            return Err(Fault::Failed);
        }
        self.volatile.sessions.end(session)
    }
}

// Keeps it if a call reports a failing device. Most don't, and then nothing is stored.
#[inline(always)]
pub(crate) fn keep_failure<T>(failed: &mut bool, returned: &Result<T, Fault>)
    requires { failed.old ≡ false }
    ensures { failed.new ≡ reports_failure returned.now }
{
    if matches!(returned, Err(Fault::Device)) {
        *failed = true;
    }
}
