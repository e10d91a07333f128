//! Commits of many threads at once, which form groups, while a transaction stays open.
use crate::transactions::{commit, device_in, fresh, get, opened, row};
use base::fault::Fault;
use base::key::Key;
use database::Database;
use std::alloc::AllocError;
use std::process::Abort;
use std::sync::Wait;
use std::thread::map_indices;
use sync_ahead::SyncAhead;

const THREADS: usize = 8;

const COMMITS: u8 = 20;

fn key_of(thread: usize) -> Key {
    Key {
        table: 1,
        key: thread as u64,
    }
}

// Commits one number after another under the thread's key. Returns whether the timestamps rose.
fn count<D: SyncAhead + Drop, R: Wait + Drop>(
    database: &Database<D, R>,
    thread: usize,
) -> Result<bool, Fault> {
    let mut last = 0;
    let mut rose = true;
    for number in 1..=COMMITS {
        let timestamp = commit(database, key_of(thread), number)?.unwrap_or(0);
        rose = rose && last < timestamp;
        last = timestamp;
    }
    Ok(rose)
}

// Each thread's last number is found.
fn assert_last<D: SyncAhead + Drop, R: Wait + Drop + Abort>(
    rt: &R,
    database: &Database<D, R>,
) -> Result<(), Fault> {
    for thread in 0..THREADS {
        let last = get(database, key_of(thread))?;
        assert!(rt; last == Some(row(COMMITS)?));
    }
    Ok(())
}

fn assert_rose(
    rt: &impl Abort,
    counted: Result<Vec<Result<bool, Fault>>, AllocError>,
) -> Result<(), Fault> {
    let Ok(counted) = counted else {
        return Err(Fault::OutOfMemory);
    };
    for rose in &counted {
        assert!(rt; *rose == Ok(true));
    }
    Ok(())
}

#[test]
fn each_of_many_threads_is_answered(rt: HostRuntime) -> Result<(), Fault> {
    let alloc = rt.alloc();
    // The reader's snapshot keeps each version that is created meanwhile.
    let database = opened(&rt, alloc, fresh(alloc, 256)?)?;
    let reader = database.begin()?;
    let counted = map_indices(&rt, alloc, THREADS, &|thread| count(&database, thread));
    let before = reader.get(key_of(0));
    drop(reader);
    let last = assert_last(&rt, &database);
    device_in(database.close())?;
    assert_rose(&rt, counted)?;
    assert!(rt; before == Ok(None));
    last
}
