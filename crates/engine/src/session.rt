//! Memory for a receipt is taken before its step, so no step is made that its session can't account for.

ghost use Rattle.std.specs.Prelude.{◌≡◌, IsTrue};
ghost use Rattle.std.specs.Option.{ForSome};
ghost use Rattle.engine.specs.declared.phase.Phase.TheVariants.{Idle};
ghost use Rattle.engine.specs.Phases.{phase_after};
ghost use Rattle.engine.specs.Receipts.{rises, floor_of};
ghost use Rattle.engine.specs.Origins.{HasHalted};

use crate::halt::Halt;
use crate::origin::Origin;
use crate::phase::{Phase, PollReply};
use crate::shared::Shared;
use audited::Receipt;
use base::fault::Fault;
use base::key::Key;
use base::row::Row;
use base::step::{Reply, Step};
use board::Token;
use pmem::Pmem;
use std::alloc::Global;
use std::sync::{Arc, Wait};

/// One transaction after another, with a receipt for each step that was kept. Memory for a receipt is taken before its step.
#[derive(Drop)]
pub struct Session<D: Pmem, J: Origin, B: Drop> {
    pub(crate) shared: Arc<Shared<D, J, B>, Global>,
    // What had been published when the engine was started.
    pub(crate) published: Token<J>,
    pub(crate) phase: Phase,
    receipts: Vec<Receipt>,
    floor: u64,
    // The tick that ended the committer, once a call has failed for that.
    pub(crate) told: Option<Halt>,
    ghost rising: { IsTrue (rises 0 receipts.items) },
    ghost floor_is: { floor ≡ floor_of 0 receipts.items },
    pub ghost phase_is: { phase ≡ phase_after Idle receipts.items },
    pub ghost told_of: { ForSome told (HasHalted J.image) },
}

impl<D: Pmem + Drop, J: Origin, B: Drop> Session<D, J, B> {
    ghost use Rattle.std.specs.Prelude.{◌≢◌, ◌⊎◌, [], ℕ, None, length, IfOk, IfErr, IfSome, OnErr};
    ghost use Rattle.base.specs.declared.fault.Fault.TheVariants.{NoSession, WrongState, OutOfMemory};
    ghost use Rattle.base.specs.declared.step.Step.TheVariants.{Begin, Get, Scan, Put, Delete, Poll, Abort};
    ghost use Rattle.base.specs.declared.step.Note.TheVariants.{Began, Row as RowNote, Rows, Done};
    ghost use Rattle.base.specs.Replies.{note_of};
    ghost use Rattle.machine.specs.Notes.{fits};
    ghost use Rattle.engine.specs.declared.phase.Phase.TheVariants.{Active};
    ghost use Rattle.engine.specs.Phases.{number_of, phase_after_step, IsOpenAs};
    ghost use Rattle.engine.specs.Receipts.{Asks, Refuses, Answers, Declines};
    ghost use Rattle.engine.specs.Calls.{note_of_poll};

    /// Begins a transaction.
    pub fn begin<R: Wait>(&mut self, rt: &R) -> Result<(), Fault>
        // The step asked was kept, its receipt is added, and what is returned is its note's.
        ensures ok { IfOk result (λ _. (n : ℕ) × (self.old.phase ≡ Idle) × Asks self.old.receipts.items self.new.receipts.items Begin (Began n) × (self.new.phase ≡ Active n)) }

        // That note refuses with the fault. Or it is WrongState without a step, exactly if a transaction is open. Or, for lack of
        // memory, the step wasn't made or kept.
        ensures err { IfErr result (λ fault. ((self.old.phase ≡ Idle) × Refuses self.old.receipts.items self.new.receipts.items Begin fault)
            ⊎ ((self.old.phase ≢ Idle) × (fault ≡ WrongState) × (self.new.receipts.items ≡ self.old.receipts.items))) }

        // The transaction's phase after it.
        ensures phase { IfErr result (λ fault. self.new.phase ≡ self.old.phase) }

        // The list that a token of the session begins with stays.
        ensures published { self.new.published ≡ self.old.published }
        ensures told { self.new.told ≡ self.old.told }
    {
        if !matches!(self.phase, Phase::Idle) {
            return Err(Fault::WrongState);
        }
        match self.make(rt, Step::Begin)? {
            Reply::Began(_) => Ok(()),
            Reply::Refused(fault) => Err(fault),
            _ => unreachable!(),
        }
    }

    /// The row under the key, as the transaction sees it.
    pub fn get<R: Wait>(&mut self, rt: &R, key: Key) -> Result<Option<Row>, Fault>
        // As for `begin`, but it is NoSession without a step, exactly if no transaction is open.
        ensures ok { IfOk result (λ row. Answers self.old.phase self.old.receipts.items self.new.receipts.items (Get (number_of self.old.phase) key) (RowNote row)) }
        ensures err { IfErr result (λ fault. Declines self.old.phase self.old.receipts.items self.new.receipts.items (Get (number_of self.old.phase) key) fault) }
        ensures phase { self.new.phase ≡ self.old.phase }
        ensures published { self.new.published ≡ self.old.published }
        ensures told { self.new.told ≡ self.old.told }
    {
        let session = self.number()?;
        match self.make(rt, Step::Get { session, key })? {
            Reply::Row(row) => Ok(row),
            Reply::Refused(fault) => Err(fault),
            _ => unreachable!(),
        }
    }

    /// The rows of the table at the keys from `lo` to `hi`, both included, by rising key, as the transaction sees them.
    pub fn scan<R: Wait>(
        &mut self,
        rt: &R,
        table: u16,
        lo: u64,
        hi: u64,
    ) -> Result<Vec<(Key, Row)>, Fault>
        // As for `begin`, but it is NoSession without a step, exactly if no transaction is open.
        ensures ok { IfOk result (λ rows. Answers self.old.phase self.old.receipts.items self.new.receipts.items (Scan (number_of self.old.phase) table lo hi) (Rows rows.items)) }
        ensures err { IfErr result (λ fault. Declines self.old.phase self.old.receipts.items self.new.receipts.items (Scan (number_of self.old.phase) table lo hi) fault) }
        ensures phase { self.new.phase ≡ self.old.phase }
        ensures published { self.new.published ≡ self.old.published }
        ensures told { self.new.told ≡ self.old.told }
    {
        let session = self.number()?;
        let scan = Step::Scan {
            session,
            table,
            lo,
            hi,
        };
        match self.make(rt, scan)? {
            Reply::Rows(rows) => Ok(rows.into_items()),
            Reply::Refused(fault) => Err(fault),
            _ => unreachable!(),
        }
    }

    /// Writes the row under the key.
    pub fn put<R: Wait>(&mut self, rt: &R, key: Key, row: Row) -> Result<(), Fault>
        // As for `begin`, but it is NoSession without a step, exactly if no transaction is open.
        ensures ok { IfOk result (λ _. Answers self.old.phase self.old.receipts.items self.new.receipts.items (Put (number_of self.old.phase) key row) Done) }
        ensures err { IfErr result (λ fault. Declines self.old.phase self.old.receipts.items self.new.receipts.items (Put (number_of self.old.phase) key row) fault) }
        ensures phase { self.new.phase ≡ self.old.phase }
        ensures published { self.new.published ≡ self.old.published }
        ensures told { self.new.told ≡ self.old.told }
    {
        let session = self.number()?;
        match self.make(rt, Step::Put { session, key, row })? {
            Reply::Done => Ok(()),
            Reply::Refused(fault) => Err(fault),
            _ => unreachable!(),
        }
    }

    /// Deletes the row under the key, if there is one.
    pub fn delete<R: Wait>(&mut self, rt: &R, key: Key) -> Result<(), Fault>
        // As for `begin`, but it is NoSession without a step, exactly if no transaction is open.
        ensures ok { IfOk result (λ _. Answers self.old.phase self.old.receipts.items self.new.receipts.items (Delete (number_of self.old.phase) key) Done) }
        ensures err { IfErr result (λ fault. Declines self.old.phase self.old.receipts.items self.new.receipts.items (Delete (number_of self.old.phase) key) fault) }
        ensures phase { self.new.phase ≡ self.old.phase }
        ensures published { self.new.published ≡ self.old.published }
        ensures told { self.new.told ≡ self.old.told }
    {
        let session = self.number()?;
        match self.make(rt, Step::Delete { session, key })? {
            Reply::Done => Ok(()),
            Reply::Refused(fault) => Err(fault),
            _ => unreachable!(),
        }
    }

    /// Rolls the transaction back.
    pub fn abort<R: Wait>(&mut self, rt: &R) -> Result<(), Fault>
        // As for `begin`, but it is NoSession without a step, exactly if no transaction is open.
        ensures ok { IfOk result (λ _. Answers self.old.phase self.old.receipts.items self.new.receipts.items (Abort (number_of self.old.phase)) Done × (self.new.phase ≡ Idle)) }
        ensures err { IfErr result (λ fault. Declines self.old.phase self.old.receipts.items self.new.receipts.items (Abort (number_of self.old.phase)) fault) }
        ensures phase { IfErr result (λ fault. self.new.phase ≡ self.old.phase) }
        ensures published { self.new.published ≡ self.old.published }
        ensures told { self.new.told ≡ self.old.told }
    {
        let session = self.number()?;
        match self.make(rt, Step::Abort { session })? {
            Reply::Done => Ok(()),
            Reply::Refused(fault) => Err(fault),
            _ => unreachable!(),
        }
    }

    /// Whether the commit is covered.
    pub fn poll<R: Wait>(&mut self, rt: &R) -> Result<PollReply, Fault>
        // As for `begin`, but it is NoSession without a step, exactly if no transaction is open.
        ensures ok { IfOk result (λ reply. Answers self.old.phase self.old.receipts.items self.new.receipts.items (Poll (number_of self.old.phase)) (note_of_poll reply)) }
        ensures err { IfErr result (λ fault. Declines self.old.phase self.old.receipts.items self.new.receipts.items (Poll (number_of self.old.phase)) fault) }
        ensures phase { self.new.phase ≡ self.old.phase }
        ensures published { self.new.published ≡ self.old.published }
        ensures told { self.new.told ≡ self.old.told }
    {
        let session = self.number()?;
        match self.make(rt, Step::Poll { session })? {
            Reply::Waiting => Ok(PollReply::Waiting),
            Reply::Committed(timestamp) => Ok(PollReply::Committed(timestamp)),
            Reply::Done => Ok(PollReply::Done),
            Reply::Refused(fault) => Err(fault),
            _ => unreachable!(),
        }
    }

    /// The receipts of its kept steps, at rising places.
    pub fn receipts(&self) -> &[Receipt]
        // All receipts, at rising places.
        ensures receipts { result.now ≡ self.now.receipts.items }
        ensures rising { IsTrue (rises 0 result.now) }
    {
        &self.receipts
    }

    /// How many steps were kept.
    pub fn steps(&self) -> u64
        ensures { result ≡ length self.now.receipts.items }
    {
        self.receipts.len() as u64
    }

    /// The tick that ended the committer, if a call failed for that. It is the first that the session was told of, and closing
    /// looks it up in the history.
    pub fn told(&self) -> Option<Halt>
        ensures told { result ≡ self.now.told }
        ensures run { IfSome result (HasHalted J.image) }
    {
        self.told
    }

    pub(crate) fn new(
        alloc: Global,
        shared: Arc<Shared<D, J, B>, Global>,
        published: Token<J>,
    ) -> Session<D, J, B>
        ensures receipts { result.receipts.items ≡ [] }
        ensures phase { result.phase ≡ Idle }
        ensures published { result.published ≡ published }
        ensures told { result.told ≡ None }
    {
        Session {
            shared,
            published,
            phase: Phase::Idle,
            receipts: Vec::new(alloc),
            floor: 0,
            told: None,
        }
    }

    // The number of the transaction that is open.
    fn number(&self) -> Result<u8, Fault>
        ensures ok { IfOk result (λ n. IsOpenAs n self.now.phase) }
        ensures err { IfErr result (λ fault. (fault ≡ NoSession) × (self.now.phase ≡ Idle)) }
    {
        self.phase.number().ok_or(Fault::NoSession)
    }

    /// Makes the step under the lock. For lack of memory there was no step, or none that was kept.
    pub(crate) fn make<R: Wait>(&mut self, rt: &R, step: Step) -> Result<Reply, Fault>
        ensures ok { IfOk result (λ reply. Asks self.old.receipts.items self.new.receipts.items step (note_of reply)) }
        ensures moved { IfOk result (λ reply. self.new.phase ≡ phase_after_step self.old.phase step (note_of reply)) }
        ensures fits { IfOk result (λ reply. IsTrue (fits step (note_of reply))) }
        ensures err { IfErr result (λ fault. (self.new.receipts.items ≡ self.old.receipts.items) × (fault ≡ OutOfMemory)) }
        ensures same { OnErr result (self.new.phase ≡ self.old.phase) }
        ensures published { self.new.published ≡ self.old.published }
        ensures told { self.new.told ≡ self.old.told }
    {
        if self.receipts.reserve(1).is_err() {
            return Err(Fault::OutOfMemory);
        }
        let mut locked = self.shared.room(rt, self.floor);
        let Some(audited) = &mut locked.audited else {
            unreachable!()
        };
        let (reply, receipt) = audited.step(step);
        self.shared.notify(&mut locked, &reply);
        let Some(receipt) = receipt else {
            return Err(Fault::OutOfMemory);
        };
        self.phase = self.phase.after(&receipt.step, &receipt.note);
        self.floor = receipt.place + 1;
        self.receipts.push_reserved(receipt);
        Ok(reply)
    }
}
