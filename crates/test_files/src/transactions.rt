//! Each call of a database over the words of a file with a journal, and what is found when it is opened again.
ghost use Rattle.std.specs.Prelude.{IfOk};
ghost use Rattle.pmem.specs.Words.{IsAtRest};
ghost use Rattle.pmem_file.specs.Traces.{device_of};

use base::Ts;
use base::fault::Fault;
use base::geometry::Geometry;
use base::key::Key;
use base::row::Row;
use database::{CommitError, Database, Refused, Transaction};
use journal::{JournaledImages, extent_of};
use pmem_file::{JournaledPmem, MemoryStorage};
use recovery::format_new;
use std::alloc::Global;
use std::process::Abort;
use std::sync::Wait;
use std::thread;
use std::thread::Threads;
use sync_ahead::SyncAhead;

/// What a commit returns.
pub type Committed = Result<Option<Ts>, CommitError>;

pub type Device = JournaledPmem<JournaledImages<MemoryStorage>>;

const PLACES: usize = 2;

pub const KEY: Key = Key { table: 1, key: 7 };

const OTHER: Key = Key { table: 1, key: 8 };

const COMMITS: u8 = 20;

// The most tries for one commit.
const TRIES: u64 = 100_000;

pub fn row(number: u8) -> Result<Row, Fault> {
    Row::new(&[number])
}

// A device at rest, with what was found in the storage.
pub fn found(alloc: Global, storage: MemoryStorage, file: (usize, usize)) -> Result<Device, Fault>
    ensures { IfOk result (λ device. IsAtRest (device_of device.trace)) }
{
    let (words, room) = file;
    match Device::of_storage(alloc, storage, words, room, PLACES) {
        Ok(device) => Ok(device),
        Err(_unopened) => Err(Fault::OutOfMemory),
    }
}

// The words of a file with a new image.
pub fn fresh(alloc: Global, slots: u64) -> Result<Vec<u64>, Fault> {
    let geometry = Geometry::new(slots, PLACES as u64, 64)?;
    let words = geometry.words() as usize;
    let room = (words / 8).saturating_mul(9).saturating_add(16);
    let length = words.saturating_add(room).saturating_add(8);
    let Ok(zeros) = vec![in alloc; 0; length] else {
        return Err(Fault::OutOfMemory);
    };
    let mut device = found(alloc, MemoryStorage::new(zeros), (words, room))?;
    match format_new(&mut device, geometry) {
        Ok(_is_new) => Ok(device.release().into_words()),
        Err(fault) => Err(fault),
    }
}

pub fn device_in(closed: Result<Device, Refused<Device>>) -> Result<Vec<u64>, Fault> {
    match closed {
        Ok(device) => Ok(device.release().into_words()),
        Err(refused) => Err(refused.fault),
    }
}

// The database in these words of a file.
pub fn opened<R: Threads + Wait + Copy + Drop + Send + Sync + 'static>(
    rt: &R,
    alloc: Global,
    words: Vec<u64>,
) -> Result<Database<Device, R>, Fault> {
    let Some(file) = extent_of(words.as_slice()) else {
        return Err(Fault::BadGeometry);
    };
    match Database::open(*rt, alloc, found(alloc, MemoryStorage::new(words), file)?) {
        Ok(database) => Ok(database),
        Err(refused) => Err(refused.fault),
    }
}

/// Commits the row under the key.
pub fn commit<D: SyncAhead + Drop, R: Wait + Drop>(
    database: &Database<D, R>,
    key: Key,
    number: u8,
) -> Result<Option<Ts>, Fault> {
    let mut transaction = database.begin()?;
    match put(&mut transaction, key, number) {
        Ok(()) => transaction.commit().map_err(|error| error.fault()),
        Err(fault) => Err(fault),
    }
}

/// Puts the row under the key.
pub fn put<D: SyncAhead + Drop, R: Wait>(
    transaction: &mut Transaction<'_, D, R>,
    key: Key,
    number: u8,
) -> Result<(), Fault> {
    transaction.put(key, row(number)?)
}

pub fn get<D: SyncAhead + Drop, R: Wait + Drop>(
    database: &Database<D, R>,
    key: Key,
) -> Result<Option<Row>, Fault> {
    let transaction = database.begin()?;
    let row = transaction.get(key);
    transaction.abort()?;
    row
}

/// Commits two transactions that write one key, the first before the second, and returns what both commits returned.
pub fn commit_both<D: SyncAhead + Drop, R: Wait + Drop>(
    database: &Database<D, R>,
) -> Result<(Committed, Committed), Fault> {
    let mut first = database.begin()?;
    let mut second = database.begin()?;
    let one = put(&mut first, KEY, 1);
    let other = put(&mut second, KEY, 2);
    let committed = (first.commit(), second.commit());
    one?;
    other?;
    Ok(committed)
}

// A commit of two keys; a transaction that is dropped; a commit that deletes one key and writes the other twice; and one that writes
// nothing.
fn make_commits<D: SyncAhead + Drop, R: Wait + Drop + Abort>(
    rt: &R,
    database: &Database<D, R>,
) -> Result<(), Fault> {
    commit_two(rt, database)?;
    drop_one(database)?;
    let writes = [(KEY, Some(row(9)?)), (OTHER, None), (KEY, Some(row(8)?))];
    let committed = database.write(&writes);
    let nothing = database.begin()?.commit();
    assert!(rt; committed == Ok(Some(2)) && nothing == Ok(None));
    Ok(())
}

fn commit_two<D: SyncAhead + Drop, R: Wait + Drop + Abort>(
    rt: &R,
    database: &Database<D, R>,
) -> Result<(), Fault> {
    let mut transaction = database.begin()?;
    let rows = put_two(&mut transaction);
    let committed = transaction.commit();
    assert!(rt; rows?.as_slice() == [(KEY, row(1)?), (OTHER, row(2)?)].as_slice());
    assert!(rt; committed == Ok(Some(1)));
    Ok(())
}

// Puts two keys, and returns what a scan finds then.
fn put_two<D: SyncAhead + Drop, R: Wait>(
    transaction: &mut Transaction<'_, D, R>,
) -> Result<Vec<(Key, Row)>, Fault> {
    put(transaction, KEY, 1)?;
    transaction.write(&[(OTHER, Some(row(2)?))])?;
    transaction.scan(1, 0, 9)
}

fn drop_one<D: SyncAhead + Drop, R: Wait + Drop>(database: &Database<D, R>) -> Result<(), Fault> {
    let mut dropped = database.begin()?;
    let put = put(&mut dropped, KEY, 9);
    drop(dropped);
    put
}

// Makes these commits in a new database, which is closed then.
fn closed<R: Threads + Wait + Copy + Drop + Send + Sync + Abort + 'static>(
    rt: &R,
    alloc: Global,
) -> Result<Vec<u64>, Fault> {
    let database = opened(rt, alloc, fresh(alloc, 8)?)?;
    let made = make_commits(rt, &database);
    let words = device_in(database.close());
    made?;
    words
}

fn assert_kept<D: SyncAhead + Drop, R: Wait + Drop + Abort>(
    rt: &R,
    database: &Database<D, R>,
) -> Result<(), Fault> {
    let kept = get(database, KEY)?;
    let deleted = get(database, OTHER)?;
    assert!(rt; kept == Some(row(8)?) && deleted.is_none());
    assert!(rt; database.status().gaps.as_slice().is_empty());
    Ok(())
}

#[test]
fn a_reopened_database_has_what_was_committed(rt: HostRuntime) -> Result<(), Fault> {
    let alloc = rt.alloc();
    let database = opened(&rt, alloc, closed(&rt, alloc)?)?;
    let kept = assert_kept(&rt, &database);
    device_in(database.close())?;
    kept
}

fn assert_conflict<D: SyncAhead + Drop, R: Wait + Drop + Abort>(
    rt: &R,
    database: &Database<D, R>,
) -> Result<(), Fault> {
    let (committed, conflict) = commit_both(database)?;
    let refused = Err(CommitError::Refused(Fault::Conflict(KEY)));
    assert!(rt; committed == Ok(Some(1)) && conflict == refused);
    let kept = get(database, KEY)?;
    assert!(rt; kept == Some(row(1)?));
    Ok(())
}

#[test]
fn the_second_of_two_that_write_a_key_conflicts(rt: HostRuntime) -> Result<(), Fault> {
    let alloc = rt.alloc();
    let database = opened(&rt, alloc, fresh(alloc, 8)?)?;
    let met = assert_conflict(&rt, &database);
    device_in(database.close())?;
    met
}

// Commits the row under the key. If no slot is free, it tries again, since the other thread's snapshot may need all versions until that
// thread runs.
fn commit_once_free<D: SyncAhead + Drop, R: Wait + Drop>(
    database: &Database<D, R>,
    key: Key,
    number: u8,
) -> Result<(), Fault> {
    for _ in 0..TRIES {
        match commit(database, key, number) {
            Err(Fault::SlotsOut) => thread::yield_now(),
            Err(fault) => return Err(fault),
            Ok(_) => return Ok(()),
        }
    }
    Err(Fault::SlotsOut)
}

// Commits one number after another under the key, in few slots, so that old ones are collected.
fn count<D: SyncAhead + Drop, R: Wait + Drop>(
    database: &Database<D, R>,
    key: Key,
) -> Result<(), Fault> {
    for number in 1..=COMMITS {
        commit_once_free(database, key, number)?;
    }
    Ok(())
}

fn assert_counted<D: SyncAhead + Drop, R: Wait + Drop + Abort>(
    rt: &R,
    database: &Database<D, R>,
) -> Result<(), Fault> {
    let last = get(database, KEY)?;
    let others = get(database, OTHER)?;
    assert!(rt; last == Some(row(COMMITS)?) && others == last);
    Ok(())
}

#[test]
fn two_threads_commit_on_two_keys(rt: HostRuntime) -> Result<(), Fault> {
    let alloc = rt.alloc();
    let database = opened(&rt, alloc, fresh(alloc, 8)?)?;
    let (one, other) = thread::join(&rt, || count(&database, KEY), || count(&database, OTHER));
    let counted = assert_counted(&rt, &database);
    device_in(database.close())?;
    one?;
    other?;
    counted
}
