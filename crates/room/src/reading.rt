//! Reads that return a part of what the step Scan does, or the rows of more than one table. They aren't steps of their own: the room is
//! lent, and stays as it is. They take memory for what they return alone.

ghost use Rattle.machine.specs.Machine.{State};
ghost use Rattle.room.specs.Room.{Shows};

use crate::room::Room;
use base::fault::Fault;
use base::key::Key;
use base::rows::Rows;
use pmem::Pmem;
use session_steps::Page;

impl<D: Pmem + Drop> Room<D> {
    ghost use Rattle.base.specs.declared.step.Step.TheVariants.{Scan};
    ghost use Rattle.session_steps.specs.Reads.{WouldReply, ReadsPage, first_of, last_of};

    /// The first of the rows that `scan` returns, at most `limit`.
    pub fn first_rows(
        &self,
        session: u8,
        table: u16,
        lo: u64,
        hi: u64,
        limit: usize,
    ) -> Result<Rows, Fault>
        // In every state that the room shows, the first rows of the plain machine's reply to such a Scan, or its refusal.
        ensures { (q : State) → Shows D.state self.now q → WouldReply q (Scan session table lo hi) (first_of limit) result }
    {
        if self.failed {
            return Err(Fault::Failed);
        }
        self.volatile
            .sessions
            .first_rows(&self.device, session, table, lo, hi, limit)
    }

    /// The last of the rows that `scan` returns, at most `limit`, the last one first.
    pub fn last_rows(
        &self,
        session: u8,
        table: u16,
        lo: u64,
        hi: u64,
        limit: usize,
    ) -> Result<Rows, Fault>
        // In every state that the room shows, the last rows of the plain machine's reply to such a Scan, or its refusal.
        ensures { (q : State) → Shows D.state self.now q → WouldReply q (Scan session table lo hi) (last_of limit) result }
    {
        if self.failed {
            return Err(Fault::Failed);
        }
        self.volatile
            .sessions
            .last_rows(&self.device, session, table, lo, hi, limit)
    }

    /// The rows that the session sees from the key `first` on, in all tables, up to `last` or to a key at which there are `limit`.
    /// A read goes on behind the key that was reached.
    pub fn page(&self, session: u8, first: Key, last: Key, limit: usize) -> Result<Page, Fault>
        // In every state that the room shows, all rows that a Scan sees, from the first key up to the one that was reached. That is the
        // last one, or there are at least `limit` rows. At Err the refusal of a Scan.
        ensures { (q : State) → Shows D.state self.now q → ReadsPage q session first last limit result }
    {
        if self.failed {
            return Err(Fault::Failed);
        }
        self.volatile
            .sessions
            .page(&self.device, session, first, last, limit)
    }
}
