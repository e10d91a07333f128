//! Reads of a part of what a scan returns, and pages of rows over all tables. Each is one turn of the lock, looks at little more than the
//! rows that it returns, and takes memory for these alone. What a transaction has written itself is laid over its snapshot, as in a scan.

ghost use Rattle.base.specs.declared.step.Step.TheVariants.{Scan};
ghost use Rattle.machine.specs.Machine.{State};
ghost use Rattle.room.specs.Room.{Shows};
ghost use Rattle.room.specs.Runs.{ComesTo};
ghost use Rattle.session_steps.specs.Reads.{ReadsPage, WouldReply, first_of, last_of};
ghost use Rattle.database.specs.Histories.{Sees};
ghost use Rattle.database.specs.Reads.{ReadsReply};

use crate::opened::OpenedRoom;
use crate::transaction::Transaction;
use base::fault::Fault;
use base::key::Key;
use base::row::Row;
use base::rows::Rows;
use history::Origin;
use pmem::Pmem;
use room::Page;
use std::sync::Wait;
use sync_ahead::SyncAhead;

impl<D: Pmem + Drop, J: Origin> OpenedRoom<D, J> {
    /// The first of the rows that a scan returns, at most `limit`.
    pub fn first_rows(
        &self,
        session: u8,
        table: u16,
        lo: u64,
        hi: u64,
        limit: usize,
    ) -> Result<Rows, Fault>
        ensures comes { ReadsReply (Scan session table lo hi) (first_of limit) result }
        ensures shows { (q : State) → Shows D.state self.now.room q → WouldReply q (Scan session table lo hi) (first_of limit) result }
    {
        self.room.first_rows(session, table, lo, hi, limit)
    }

    /// The last of the rows that a scan returns, at most `limit`, the last one first.
    pub fn last_rows(
        &self,
        session: u8,
        table: u16,
        lo: u64,
        hi: u64,
        limit: usize,
    ) -> Result<Rows, Fault>
        ensures comes { ReadsReply (Scan session table lo hi) (last_of limit) result }
        ensures shows { (q : State) → Shows D.state self.now.room q → WouldReply q (Scan session table lo hi) (last_of limit) result }
    {
        self.room.last_rows(session, table, lo, hi, limit)
    }

    /// The rows from `first` on, up to `last` or to a key at which there are `limit`.
    pub fn page(&self, session: u8, first: Key, last: Key, limit: usize) -> Result<Page, Fault>
        ensures comes { ComesTo (λ q. ReadsPage q session first last limit result) }
        ensures shows { (q : State) → Shows D.state self.now.room q → ReadsPage q session first last limit result }
    {
        self.room.page(session, first, last, limit)
    }
}

impl<'a, D: SyncAhead + Drop, R: Wait, J: Origin> Transaction<'a, D, R, J> {
    ghost use Rattle.std.specs.Prelude.{Ok, Err, IfOk, MatchResult};

    /// The first rows of the table at the keys from `lo` to `hi`, both included, by rising key: at most `limit`.
    pub fn first_rows(
        &self,
        table: u16,
        lo: u64,
        hi: u64,
        limit: usize,
    ) -> Result<Vec<(Key, Row)>, Fault>
        // In a state that a run comes to, the first rows of the reply to such a Scan of the transaction's session, at most `limit`, or its
        // refusal.
        ensures answers { MatchResult result (λ rows. ReadsReply (Scan self.now.session table lo hi) (first_of limit) (Ok rows.items))
            (λ fault. ReadsReply (Scan self.now.session table lo hi) (first_of limit) (Err fault)) }

        // If the history is kept, the rows are of the reply to that step in the state that the history leads to, as for `scan`.
        ensures sees { IfOk result (λ rows. Sees J.opened self.now.session self.now.trace (λ q. WouldReply q (Scan self.now.session table lo hi) (first_of limit) (Ok rows.items))) }
    {
        let locked = self.shared.locked(self.rt);
        locked.attend(self.rt, self.session, &self.trace);
        let Some(room) = &locked.room else {
            unreachable!()
        };
        match room.first_rows(self.session, table, lo, hi, limit) {
            Ok(rows) => Ok(rows.into_items()),
            Err(fault) => Err(fault),
        }
    }

    /// The last rows of the table at the keys from `lo` to `hi`, both included, by falling key: at most `limit`.
    pub fn last_rows(
        &self,
        table: u16,
        lo: u64,
        hi: u64,
        limit: usize,
    ) -> Result<Vec<(Key, Row)>, Fault>
        // In a state that a run comes to, the last rows of the reply to such a Scan of the transaction's session, the last one first and at
        // most `limit`, or its refusal.
        ensures answers { MatchResult result (λ rows. ReadsReply (Scan self.now.session table lo hi) (last_of limit) (Ok rows.items))
            (λ fault. ReadsReply (Scan self.now.session table lo hi) (last_of limit) (Err fault)) }

        // If the history is kept, the rows are of the reply to that step in the state that the history leads to, as for `scan`.
        ensures sees { IfOk result (λ rows. Sees J.opened self.now.session self.now.trace (λ q. WouldReply q (Scan self.now.session table lo hi) (last_of limit) (Ok rows.items))) }
    {
        let locked = self.shared.locked(self.rt);
        locked.attend(self.rt, self.session, &self.trace);
        let Some(room) = &locked.room else {
            unreachable!()
        };
        match room.last_rows(self.session, table, lo, hi, limit) {
            Ok(rows) => Ok(rows.into_items()),
            Err(fault) => Err(fault),
        }
    }

    /// The rows of all tables from the key `first` on, by rising key, up to `last` or to a key at which there are `limit`. A read
    /// goes on behind the key that was reached.
    pub fn page(&self, first: Key, last: Key, limit: usize) -> Result<Page, Fault>
        // In a state that a run comes to, all rows that the transaction's session sees, from the first key up to the one that was
        // reached. That is the last one, or there are at least `limit` rows. At Err the refusal of a Scan.
        ensures answers { ComesTo (λ q. ReadsPage q self.now.session first last limit result) }

        // If the history is kept, the rows are those that the session sees in the state that the history leads to, as for `scan`.
        ensures sees { IfOk result (λ page. Sees J.opened self.now.session self.now.trace (λ q. ReadsPage q self.now.session first last limit (Ok page))) }
    {
        let locked = self.shared.locked(self.rt);
        locked.attend(self.rt, self.session, &self.trace);
        let Some(room) = &locked.room else {
            unreachable!()
        };
        room.page(self.session, first, last, limit)
    }
}
