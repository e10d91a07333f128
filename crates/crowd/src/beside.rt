use crate::key_of;
use anyhow::{Error, bail};
use base::geometry::Geometry;
use std::alloc::Global;
use std::fs::File;
use std::ops::Range;
use std::rt::{Clock, Files};
use std::sync::Wait;
use std::sync::atomic::{AtomicU64, Ordering};
use std::thread::{Threads, join, map_indices};
use std::time::{Duration, Instant};
use store::{RowExt, Store, StoreError};

// How many keys have rows. These are read.
const KEYS: u64 = 1_024;

// The step from one key that a thread reads to the next one. All keys come in turn.
const STRIDE: u64 = 367;

/// How many slots the store has, how many threads read while one more commits, and how many rows each of them reads. Each row is read in
/// a snapshot of its own.
#[derive(Clone, Copy)]
pub struct Readers {
    pub slots: u64,
    pub threads: usize,
    pub reads: u64,
}

/// How long all reads took, and how many commits were made meanwhile.
#[derive(Clone, Copy)]
pub struct Beside {
    pub reads: Duration,
    pub commits: u64,
}

/// Opens the store in the file of this name, puts a row under each key, and times the reads while another thread commits until all reads
/// are done.
pub fn time_readers<
    H: Files<File = File> + Clock + Threads + Wait + Copy + Drop + Send + Sync + 'static,
>(rt: &H, alloc: Global, name: &str, readers: &Readers) -> Result<Beside, Error> {
    let layout = Geometry::new(readers.slots, Geometry::LEAST_PLACES, Geometry::MOST_WINDOW)?;
    let store = Store::open(*rt, alloc, name, layout)?;
    for key in 0..KEYS {
        put(&store, key, key)?;
    }
    let beside = time_beside(rt, alloc, &store, readers)?;
    store.close()?;
    Ok(beside)
}

fn put<R: Wait + Drop>(store: &Store<R>, key: u64, number: u64) -> Result<(), StoreError> {
    store.transact(|t| t.put_number(key_of(key), number))?;
    Ok(())
}

fn time_beside<H: Clock + Threads + Wait + Drop + Send + Sync>(
    rt: &H,
    alloc: Global,
    store: &Store<H>,
    readers: &Readers,
) -> Result<Beside, Error> {
    let reading = AtomicU64::new(1);
    let (reads, commits) = join(
        rt,
        || {
            let took = time_reads(rt, alloc, store, readers);
            reading.store(0, Ordering::SeqCst);
            took
        },
        || commit_while(store, &reading),
    );
    Ok(Beside {
        reads: reads?,
        commits: commits?,
    })
}

fn time_reads<H: Clock + Threads + Wait + Drop + Send + Sync>(
    rt: &H,
    alloc: Global,
    store: &Store<H>,
    readers: &Readers,
) -> Result<Duration, Error> {
    let reads = readers.reads;
    let start = Instant::now(rt)?;
    let found = map_indices(rt, alloc, readers.threads, &|_| read_each(store, 0..reads))?;
    for one in &found {
        match one {
            Ok(rows) if *rows == reads => {}
            Ok(rows) => bail!("{rows} rows of {reads} are there"),
            Err(error) => bail!("{error}"),
        }
    }
    Ok(start.elapsed(rt)?)
}

// Reads a row for each of these numbers, in a snapshot of its own. Returns how many rows there were.
fn read_each<R: Wait + Drop>(store: &Store<R>, reads: Range<u64>) -> Result<u64, StoreError> {
    let mut found: u64 = 0;
    for number in reads {
        let key = number.wrapping_mul(STRIDE) % KEYS;
        if store.read()?.number(key_of(key))?.is_some() {
            found = found.saturating_add(1);
        }
    }
    Ok(found)
}

// Commits a row again and again until `reading` is 0. Returns how many commits there were.
fn commit_while<R: Wait + Drop>(store: &Store<R>, reading: &AtomicU64) -> Result<u64, StoreError> {
    let mut commits: u64 = 0;
    for number in 0..u64::MAX {
        if reading.load(Ordering::SeqCst) == 0 {
            break;
        }
        put(store, number % KEYS, number)?;
        commits = commits.saturating_add(1);
    }
    Ok(commits)
}
