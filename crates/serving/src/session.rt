ghost use Rattle.std.specs.Prelude.{◌≡◌, option_map};

use crate::refusal::{status_of, text_of};
use base::key::Key;
use base::row::Row;
use requests::{Answer, KeyRange, Request};
use std::alloc::Global;
use std::ops::Bound;
use std::sync::Wait;
use store::{Store, Transaction};

/// A store, and the transaction that is open on it, if there is one. A drop rolls the transaction back.
#[derive(Drop)]
pub struct Session<'a, R: Wait + Drop> {
    alloc: Global,
    store: &'a Store<R>,
    current: Option<Transaction<'a, R>>,
}

impl<'a, R: Wait + Drop> Session<'a, R> {
    ghost use Rattle.std.specs.Prelude.{◌≡◌, None, option_map};
    ghost use Rattle.serving.specs.Served.{Serves, Begins, Gets, PutsRow, Deletes, Commits, Aborts, ScansFirst, ScansLast, ShowsStatus, InOpen};

    /// A session without an open transaction.
    pub fn new(alloc: Global, store: &'a Store<R>) -> Session<'a, R>
        ensures { option_map (λ t. t.snapshot.reads.session) result.current ≡ None }
    {
        Session {
            alloc,
            store,
            current: None,
        }
    }

    /// The reply to a request. What needs an open transaction, and finds none, is misuse.
    pub fn answer(&mut self, request: &Request) -> Answer
        // The reply is what the store returns for the request in the open session, or misuse if the request needs one and none is
        // open. The clause also says which session is open afterwards.
        ensures { Serves (option_map (λ t. t.snapshot.reads.session) self.old.current) request.now result (option_map (λ t. t.snapshot.reads.session) self.new.current) }
    {
        match *request {
            Request::Begin => self.begin(),
            Request::Get(key) => self.get(key),
            Request::Put(key, row) => self.put(key, row),
            Request::Delete(key) => self.delete(key),
            Request::Commit => self.commit(),
            Request::Abort => self.abort(),
            Request::First(range, limit) => self.first(range, limit),
            Request::Last(range, limit) => self.last(range, limit),
            Request::Status => self.status(),
        }
    }

    fn begin(&mut self) -> Answer
        ensures { Begins result (option_map (λ t. t.snapshot.reads.session) self.new.current) }
    {
        self.current = None;
        match self.store.begin() {
            Ok(transaction) => {
                self.current = Some(transaction);
                Answer::Done
            }
            Err(error) => Answer::Refused(status_of(&error), text_of(self.alloc, &error)),
        }
    }

    fn get(&self, key: Key) -> Answer
        ensures { InOpen (Gets key) (option_map (λ t. t.snapshot.reads.session) self.now.current) result }
    {
        match &self.current {
            None => Answer::Misuse,
            Some(transaction) => match transaction.get(key) {
                Ok(row) => Answer::Row(row),
                Err(error) => Answer::Refused(status_of(&error), text_of(self.alloc, &error)),
            },
        }
    }

    fn put(&mut self, key: Key, row: Row) -> Answer
        ensures made { InOpen (PutsRow key row) (option_map (λ t. t.snapshot.reads.session) self.old.current) result }
        ensures same { self.new ≡ self.old }
    {
        match &mut self.current {
            None => Answer::Misuse,
            Some(transaction) => match transaction.put(key, row) {
                Ok(()) => Answer::Done,
                Err(error) => Answer::Refused(status_of(&error), text_of(self.alloc, &error)),
            },
        }
    }

    fn delete(&mut self, key: Key) -> Answer
        ensures made { InOpen (Deletes key) (option_map (λ t. t.snapshot.reads.session) self.old.current) result }
        ensures same { self.new ≡ self.old }
    {
        match &mut self.current {
            None => Answer::Misuse,
            Some(transaction) => match transaction.delete(key) {
                Ok(()) => Answer::Done,
                Err(error) => Answer::Refused(status_of(&error), text_of(self.alloc, &error)),
            },
        }
    }

    fn commit(&mut self) -> Answer
        ensures made { InOpen Commits (option_map (λ t. t.snapshot.reads.session) self.old.current) result }
        ensures ended { option_map (λ t. t.snapshot.reads.session) self.new.current ≡ None }
    {
        match self.current.take() {
            None => Answer::Misuse,
            Some(transaction) => match transaction.commit() {
                Ok(timestamp) => Answer::Committed(timestamp),
                Err(error) => Answer::Refused(status_of(&error), text_of(self.alloc, &error)),
            },
        }
    }

    fn abort(&mut self) -> Answer
        ensures made { InOpen Aborts (option_map (λ t. t.snapshot.reads.session) self.old.current) result }
        ensures ended { option_map (λ t. t.snapshot.reads.session) self.new.current ≡ None }
    {
        match self.current.take() {
            None => Answer::Misuse,
            Some(transaction) => match transaction.abort() {
                Ok(()) => Answer::Done,
                Err(error) => Answer::Refused(status_of(&error), text_of(self.alloc, &error)),
            },
        }
    }

    fn first(&self, range: KeyRange, limit: u64) -> Answer
        ensures { InOpen (ScansFirst range limit) (option_map (λ t. t.snapshot.reads.session) self.now.current) result }
    {
        let keys = (
            Bound::Included(range.least),
            Bound::Included(range.greatest),
        );
        match &self.current {
            None => Answer::Misuse,
            Some(transaction) => match transaction.first(range.table, keys, limit as usize) {
                Ok(rows) => Answer::Rows(rows),
                Err(error) => Answer::Refused(status_of(&error), text_of(self.alloc, &error)),
            },
        }
    }

    fn last(&self, range: KeyRange, limit: u64) -> Answer
        ensures { InOpen (ScansLast range limit) (option_map (λ t. t.snapshot.reads.session) self.now.current) result }
    {
        let keys = (
            Bound::Included(range.least),
            Bound::Included(range.greatest),
        );
        match &self.current {
            None => Answer::Misuse,
            Some(transaction) => match transaction.last(range.table, keys, limit as usize) {
                Ok(rows) => Answer::Rows(rows),
                Err(error) => Answer::Refused(status_of(&error), text_of(self.alloc, &error)),
            },
        }
    }

    fn status(&self) -> Answer
        ensures { ShowsStatus result }
    {
        let status = self.store.status();
        Answer::Numbers([
            status.row_limit as u64,
            status.slots,
            status.free,
            status.rows as u64,
            status.versions,
            status.persisted,
            status.left,
        ])
    }
}
