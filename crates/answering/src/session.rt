ghost use Rattle.std.specs.Prelude.{◌≡◌, ◌∷◌, [], ℕ, List, Option, IfOk};
ghost use Rattle.database.specs.Committing.{ReportsCommit, ReportsWritten};
ghost use Rattle.answering.specs.Earned.{Commits, IsEarnedBy, PassesOn};
ghost use Rattle.answering.specs.declared.session.Answer.TheVariants.{Begun, Aborted, Row as RowRead, Count as Counted, Status as StatusRead};
ghost use Rattle.store.specs.declared.status.Status.{Status as StatusValue};

use crate::failure::Failure;
use crate::pages::{RangePages, count_rows};
use base::Ts;
use base::key::Key;
use base::row::Row;
use commands::Request;
use std::alloc::Global;
use std::ops::Deref;
use std::sync::Wait;
use store::{Snapshot, Status, Store, StoreError, Transaction};

/// What the store returns.
#[derive(Drop)]
pub enum Answer {
    Begun,
    Written,
    Aborted,
    /// What was written is durable.
    Committed(Ts),
    /// Nothing was written.
    Done,
    Row(Option<Row>),
    Count(usize),
    Status(Status),
    /// Rows, which are read and printed some at a time.
    Listing(Listing),
}

/// What is made of rows that are read some at a time.
#[derive(Clone, Copy, Drop)]
pub enum Listing {
    /// Those of a range are printed.
    Rows(RangePages),
    /// Those of all tables are counted for each table.
    Tables,
    /// Those of all tables are printed as lines that put them.
    Dump,
}

/// What rows are read from: the transaction that is open, or a snapshot of its own.
#[derive(Drop)]
pub enum Reads<'b, 'a, R: Wait + Drop> {
    Open(&'b Transaction<'a, R>),
    Own(Snapshot<'a, R>),
}

impl<'a, R: Wait + Drop> Reads<'_, 'a, R> {
    pub fn snapshot(&self) -> &Snapshot<'a, R> {
        match self {
            Reads::Open(transaction) => transaction.deref(),
            Reads::Own(snapshot) => snapshot,
        }
    }
}

/// A store, and the transaction that is open on it.
#[derive(Drop)]
pub struct Session<'a, R: Wait + Drop> {
    alloc: Global,
    store: &'a Store<R>,
    open: Option<Transaction<'a, R>>,
    // The number of the line that was refused in a transaction. The transaction is aborted, but its end hasn't been read yet.
    broken: Option<u64>,
}

impl<'a, R: Wait + Drop> Session<'a, R> {
    pub fn new(alloc: Global, store: &'a Store<R>) -> Session<'a, R> {
        Session {
            alloc,
            store,
            open: None,
            broken: None,
        }
    }

    /// Whether a transaction was begun and hasn't ended.
    pub fn is_open(&self) -> bool {
        self.open.is_some() || self.broken.is_some()
    }

    /// Aborts the transaction that is open, or that this line should have begun, since the line was refused. The commit of that transaction
    /// is then refused too.
    pub fn break_off(&mut self, line: u64, begins: bool) {
        if self.open.is_some() || begins && self.broken.is_none() {
            self.open = None;
            self.broken = Some(line);
        }
    }

    /// Runs a request. Outside a transaction it is a transaction by itself.
    pub fn answer(&mut self, request: &Request) -> Result<Answer, Failure>
        // `committed` is returned only if a commit of this request returned so.
        ensures earned { IfOk result (IsEarnedBy (Commits request.now)) }
    {
        match request {
            Request::Begin => self.begin(),
            Request::Commit => self.commit(),
            Request::Abort => self.abort(),
            Request::Put { key, row } => self.write(*key, Some(*row)),
            Request::Delete { key } => self.write(*key, None),
            Request::Get { key } => self.get(*key),
            Request::Scan(range) => Ok(Answer::Listing(Listing::Rows(RangePages::new(*range)))),
            Request::Count { table } => self.count(*table),
            Request::Tables => Ok(Answer::Listing(Listing::Tables)),
            Request::Dump => Ok(Answer::Listing(Listing::Dump)),
            Request::Status => self.status(),
        }
    }

    fn begin(&mut self) -> Result<Answer, Failure>
        ensures { IfOk result (λ answer. answer ≡ Begun) }
    {
        if self.is_open() {
            return Err(Failure::Open);
        }
        self.open = Some(self.store.begin()?);
        Ok(Answer::Begun)
    }

    fn commit(&mut self) -> Result<Answer, Failure>
        ensures { IfOk result (IsEarnedBy (λ outcome. (session : ℕ) × ReportsCommit session outcome)) }
    {
        if let Some(line) = self.broken.take() {
            return Err(Failure::NotCommitted(line));
        }
        match self.open.take() {
            Some(transaction) => commit(transaction),
            None => Err(Failure::NotOpen),
        }
    }

    fn abort(&mut self) -> Result<Answer, Failure>
        ensures { IfOk result (λ answer. answer ≡ Aborted) }
    {
        if self.broken.take().is_some() {
            return Ok(Answer::Aborted);
        }
        match self.open.take() {
            Some(transaction) => {
                transaction.abort()?;
                Ok(Answer::Aborted)
            }
            None => Err(Failure::NotOpen),
        }
    }

    // Writes the row under the key, or deletes what is there.
    fn write(&mut self, key: Key, row: Option<Row>) -> Result<Answer, Failure>
        ensures { IfOk result (IsEarnedBy (ReportsWritten ((key, row) ∷ []))) }
    {
        self.test_whole()?;
        if let Some(transaction) = &mut self.open {
            transaction.write(&[(key, row)])?;
            return Ok(Answer::Written);
        }
        answer_of(self.store.write(&[(key, row)]))
    }

    fn get(&mut self, key: Key) -> Result<Answer, Failure>
        ensures { IfOk result (λ answer. (row : Option (List ℕ)) × (answer ≡ RowRead row)) }
    {
        let reads = self.reads()?;
        Ok(Answer::Row(reads.snapshot().get(key)?))
    }

    fn count(&mut self, table: u16) -> Result<Answer, Failure>
        ensures { IfOk result (λ answer. (count : ℕ) × (answer ≡ Counted count)) }
    {
        let reads = self.reads()?;
        Ok(Answer::Count(count_rows(self.alloc, reads.snapshot(), table)?))
    }

    /// What rows are read from, unless a line of the transaction was refused.
    pub fn reads(&self) -> Result<Reads<'_, 'a, R>, Failure> {
        self.test_whole()?;
        match &self.open {
            Some(transaction) => Ok(Reads::Open(transaction)),
            None => Ok(Reads::Own(self.store.read()?)),
        }
    }

    fn status(&mut self) -> Result<Answer, Failure>
        ensures { IfOk result (λ answer. (status : StatusValue) × (answer ≡ StatusRead status)) }
    {
        self.test_whole()?;
        Ok(Answer::Status(self.store.status()))
    }

    fn test_whole(&self) -> Result<(), Failure> {
        match self.broken {
            Some(line) => Err(Failure::Broken(line)),
            None => Ok(()),
        }
    }
}

/// Commits what was written, and returns once that is durable.
pub fn commit<R: Wait + Drop>(transaction: Transaction<'_, R>) -> Result<Answer, Failure>
    ensures { IfOk result (IsEarnedBy (ReportsCommit transaction.entry.snapshot.reads.session)) }
{
    answer_of(transaction.commit())
}

// What is printed about a commit.
fn answer_of(committed: Result<Option<Ts>, StoreError>) -> Result<Answer, Failure>
    ensures { PassesOn committed result }
{
    match committed {
        Ok(Some(timestamp)) => Ok(Answer::Committed(timestamp)),
        Ok(None) => Ok(Answer::Done),
        Err(StoreError::Unknown(_)) => Err(Failure::InCommit),
        Err(error) => Err(Failure::from(error)),
    }
}
