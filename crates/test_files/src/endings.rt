//! What a commit returns if it isn't covered, and that each commit returns.
use crate::transactions::{
    Committed, Device, KEY, commit_both, device_in, found, fresh, get, opened, put, row,
};
use base::fault::Fault;
use base::row::Row;
use database::{CommitError, Database, Transaction};
use journal::extent_of;
use pmem_file::{MemoryStorage, Part};
use std::alloc::Global;
use std::process::Abort;
use std::sync::Wait;
use std::thread;
use std::thread::Threads;
use sync_ahead::SyncAhead;

// The greatest number of a record is one less than 2^62.
const LAST_RECORD: u64 = 4_611_686_018_427_387_903;

// A file whose ruling record is the last but one, so that opening it writes the last one. The ruling record is in the first place.
fn at_its_end(alloc: Global) -> Result<Vec<u64>, Fault> {
    let words = fresh(alloc, 8)?;
    let file = extent_of(words.as_slice()).ok_or(Fault::BadGeometry)?;
    let Ok(storage) = found(alloc, MemoryStorage::new(words), file)?.into_storage() else {
        return Err(Fault::Device);
    };
    let mut words = storage.into_words();
    for (word, value) in [(8, LAST_RECORD - 1), (9, 0), (10, 1)] {
        if let Some(slot) = words.get_mut(word) {
            *slot = value;
        }
    }
    Ok(words)
}

fn assert_refused<D: SyncAhead + Drop, R: Wait + Drop + Abort>(
    rt: &R,
    database: &Database<D, R>,
) -> Result<(), Fault> {
    let gate = database.status().gate;
    let (one, other) = commit_both(database)?;
    let refused = Err(CommitError::Refused(Fault::TimestampsOut));
    assert!(rt; gate == LAST_RECORD && one == refused && other == refused);
    let kept = get(database, KEY)?;
    assert!(rt; kept.is_none());
    Ok(())
}

#[test]
fn commits_after_the_last_record_are_refused(rt: HostRuntime) -> Result<(), Fault> {
    let alloc = rt.alloc();
    let database = opened(&rt, alloc, at_its_end(alloc)?)?;
    let refused = assert_refused(&rt, &database);
    let closed = device_in(database.close());
    assert!(rt; matches!(closed, Err(Fault::TimestampsOut)));
    refused
}

// Adds one to the row under the key. Returns whether that was committed, or another commit came first.
fn add_once<D: SyncAhead + Drop, R: Wait + Drop>(database: &Database<D, R>) -> Result<bool, Fault> {
    let mut transaction = database.begin()?;
    match put_one_more(&mut transaction) {
        Ok(()) => was_first(transaction.commit()),
        Err(fault) => Err(fault),
    }
}

fn put_one_more<D: SyncAhead + Drop, R: Wait>(
    transaction: &mut Transaction<'_, D, R>,
) -> Result<(), Fault> {
    let before = match transaction.get(KEY)? {
        Some(row) => row.as_bytes().first().copied().unwrap_or(0),
        None => 0,
    };
    put(transaction, KEY, before.saturating_add(1))
}

fn was_first(committed: Committed) -> Result<bool, Fault> {
    match committed {
        Ok(_) => Ok(true),
        Err(CommitError::Refused(Fault::Conflict(_))) => Ok(false),
        Err(error) => Err(error.fault()),
    }
}

// Adds one, with at most a hundred tries. Returns whether they were enough.
fn add_one<D: SyncAhead + Drop, R: Wait + Drop>(database: &Database<D, R>) -> Result<bool, Fault> {
    for _ in 0..100 {
        if add_once(database)? {
            return Ok(true);
        }
    }
    Ok(false)
}

// Adds one this many times. Returns whether a hundred tries were always enough.
fn add<D: SyncAhead + Drop, R: Wait + Drop>(
    database: &Database<D, R>,
    times: u8,
) -> Result<bool, Fault> {
    for _ in 0..times {
        if !add_one(database)? {
            return Ok(false);
        }
    }
    Ok(true)
}

// Each of the 40 commits may leave a version that the other thread's snapshot still reads, if that thread doesn't run for long. So
// there is a slot for each of them, and for the two that are being written.
#[test]
fn whoever_begins_again_after_a_conflict_commits(rt: HostRuntime) -> Result<(), Fault> {
    let alloc = rt.alloc();
    let database = opened(&rt, alloc, fresh(alloc, 64)?)?;
    let (one, other) = thread::join(&rt, || add(&database, 20), || add(&database, 20));
    let last = get(&database, KEY);
    device_in(database.close())?;
    assert!(rt; one? && other? && last? == Some(row(40)?));
    Ok(())
}

// Puts the row and commits.
fn commit_row<D: SyncAhead + Drop, R: Wait + Drop>(
    database: &Database<D, R>,
) -> Result<(), CommitError> {
    let mut transaction = match database.begin() {
        Ok(transaction) => transaction,
        Err(fault) => return Err(CommitError::Refused(fault)),
    };
    match put(&mut transaction, KEY, 1) {
        Ok(()) => {
            transaction.commit()?;
            Ok(())
        }
        Err(fault) => Err(CommitError::Refused(fault)),
    }
}

// A life in which this write or sync and all later ones fail. Returns what its commit returned, and the words that are found then.
fn live<R: Threads + Wait + Copy + Drop + Send + Sync + 'static>(
    rt: &R,
    alloc: Global,
    calls: usize,
) -> Result<(Result<(), CommitError>, Vec<u64>), Fault> {
    let words = fresh(alloc, 8)?;
    let file = extent_of(words.as_slice()).ok_or(Fault::BadGeometry)?;
    let storage = MemoryStorage::new(words).failing_after(calls, Part::Words(0b0101_0101));
    match Database::open(*rt, alloc, found(alloc, storage, file)?) {
        Ok(database) => {
            let answer = commit_row(&database);
            let device = match database.close() {
                Ok(device) => device,
                Err(refused) => refused.device,
            };
            Ok((answer, device.release().into_words()))
        }
        Err(refused) => {
            let answer = Err(CommitError::Refused(refused.fault));
            Ok((answer, refused.device.release().into_words()))
        }
    }
}

// How many writes and syncs it takes to open the file, which brings it to rest: seven, and a write for each of the two lines that a format
// leaves in the journal, the superblock's and the first of a place for a record.
const OPENING: usize = 9;

// The row that is found in these words of a file. The database is dropped.
fn kept_in<R: Threads + Wait + Copy + Drop + Send + Sync + 'static>(
    rt: &R,
    alloc: Global,
    words: Vec<u64>,
) -> Result<Option<Row>, Fault> {
    let database = opened(rt, alloc, words)?;
    get(&database, KEY)
}

#[test]
fn each_answer_says_what_the_next_opening_finds(rt: HostRuntime) -> Result<(), Fault> {
    let alloc = rt.alloc();
    let (mut refused, mut open) = (false, false);
    for calls in OPENING..80 {
        let (answer, words) = live(&rt, alloc, calls)?;
        let kept = kept_in(&rt, alloc, words)?;
        match answer {
            Ok(()) => assert!(rt; kept == Some(row(1)?)),
            Err(CommitError::Refused(_)) => {
                refused = true;
                assert!(rt; kept.is_none());
            }
            Err(CommitError::Open(_)) => open = true,
        }
    }
    let (answer, _words) = live(&rt, alloc, 80)?;
    assert!(rt; refused && open && answer.is_ok());
    Ok(())
}
