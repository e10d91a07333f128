//! Measures how many commits per second several threads make in one store in a file, if each commit waits for its sync.
//! `crowd NAME SLOTS THREADS COMMITS [ROWS]` creates or opens the store in the file NAME. Each of THREADS threads makes COMMITS commits,
//! of one row or of ROWS rows. `crowd NAME SLOTS transact THREADS COMMITS` makes them by `Store::transact`, of one row each.
//! `crowd NAME SLOTS readers THREADS READS` times READS reads in each of THREADS threads, while another thread commits without a pause.
//! Without arguments it prints these three forms.
#![tactic(auto)]

mod beside;
mod transacting;

use anyhow::{Error, bail};
use base::fault::Fault;
use base::geometry::Geometry;
use base::key::Key;
use base::row::Row;
use beside::{Readers, time_readers};
use std::alloc::Global;
use std::env;
use std::fs::File;
use std::ops::Range;
use std::rt::{Clock, Files};
use std::sync::Wait;
use std::thread::{Threads, map_indices};
use std::time::{Duration, Instant};
use store::{Store, StoreError};
use transacting::{Transactions, time_transactions};

const WORDS: &str =
    "crowd NAME SLOTS THREADS COMMITS [ROWS], or crowd NAME SLOTS transact THREADS COMMITS, or crowd NAME SLOTS readers THREADS READS";

// The least number of keys that each thread updates, one after the other. No other thread updates them.
const KEYS: u64 = 8;

// The most keys that a transaction writes.
const TOGETHER: u64 = 32;

// How many slots the store has, how many threads commit at once, how many commits each makes and of how many rows.
#[derive(Clone, Copy)]
struct Crowd {
    slots: u64,
    threads: usize,
    commits: u64,
    rows: u64,
}

// What each thread does: so many commits, of so many rows each.
#[derive(Clone, Copy)]
struct Turns {
    alloc: Global,
    commits: u64,
    rows: u64,
}

// How many keys each thread updates, in transactions of so many rows.
fn keys_for(rows: u64) -> u64 {
    KEYS.max(rows)
}

fn main(rt: HostRuntime) -> Result<(), Error> {
    let alloc = rt.alloc();
    let words: Vec<String> = env::args(&rt)?.skip(1).collect(alloc)?;
    let words: Vec<&str> = words.iter().map(|word| word.as_str()).collect(alloc)?;
    match words.as_slice() {
        [] => println!(rt; "{WORDS}")?,
        [name, slots, "readers", threads, reads] => {
            let readers = Readers {
                slots: slots.parse::<u64>()?,
                threads: threads.parse::<usize>()?,
                reads: reads.parse::<u64>()?,
            };
            measure_readers(&rt, alloc, name, &readers)?;
        }
        [name, slots, "transact", threads, commits] => {
            let transactions = Transactions {
                slots: slots.parse::<u64>()?,
                threads: threads.parse::<usize>()?,
                commits: commits.parse::<u64>()?,
            };
            measure_transactions(&rt, alloc, name, &transactions)?;
        }
        [name, crowd @ ..] => measure(&rt, alloc, name, &crowd_of(crowd)?)?,
    }
    Ok(())
}

fn crowd_of(words: &[&str]) -> Result<Crowd, Error> {
    let [slots, threads, commits, more @ ..] = words else {
        bail!("the words are {WORDS}");
    };
    Ok(Crowd {
        slots: slots.parse::<u64>()?,
        threads: threads.parse::<usize>()?,
        commits: commits.parse::<u64>()?,
        rows: rows_of(more)?,
    })
}

fn rows_of(words: &[&str]) -> Result<u64, Error> {
    let rows = match words {
        [] => 1,
        [rows] => rows.parse::<u64>()?,
        _ => bail!("the words are {WORDS}"),
    };
    if rows == 0 || TOGETHER < rows {
        bail!("a transaction has 1 to {TOGETHER} rows");
    }
    Ok(rows)
}

// Prints how many commits and rows there were, and how many per second.
fn measure<
    H: Print + Files<File = File> + Clock + Threads + Wait + Copy + Drop + Send + Sync + 'static,
>(rt: &H, alloc: Global, name: &str, crowd: &Crowd) -> Result<(), Error> {
    let took = time_commits(rt, alloc, name, crowd)?;
    let commits = crowd.commits.saturating_mul(crowd.threads as u64);
    print_rate(rt, "commits", commits, took)?;
    if crowd.rows != 1 {
        print_rate(rt, "rows", commits.saturating_mul(crowd.rows), took)?;
    }
    Ok(())
}

// Prints how many transactions there were, and how many per second.
fn measure_transactions<
    H: Print + Files<File = File> + Clock + Threads + Wait + Copy + Drop + Send + Sync + 'static,
>(rt: &H, alloc: Global, name: &str, transactions: &Transactions) -> Result<(), Error> {
    let took = time_transactions(rt, alloc, name, transactions)?;
    let commits = transactions
        .commits
        .saturating_mul(transactions.threads as u64);
    print_rate(rt, "commits", commits, took)
}

// Prints how many reads there were, how many per second, and how many commits meanwhile.
fn measure_readers<
    H: Print + Files<File = File> + Clock + Threads + Wait + Copy + Drop + Send + Sync + 'static,
>(rt: &H, alloc: Global, name: &str, readers: &Readers) -> Result<(), Error> {
    let beside = time_readers(rt, alloc, name, readers)?;
    let reads = readers.reads.saturating_mul(readers.threads as u64);
    print_rate(rt, "reads", reads, beside.reads)?;
    println!(rt; "{} commits beside them", beside.commits)?;
    Ok(())
}

fn print_rate<H: Print>(rt: &H, what: &str, count: u64, took: Duration) -> Result<(), Error> {
    let rate = count as u128 * 1_000_000_000 / took.as_nanos().max(1);
    println!(rt;
        "{count} {what} in {}.{:06} seconds, {rate} a second",
        took.as_secs(),
        took.subsec_micros()
    )?;
    Ok(())
}

// Opens the store in the file of this name, which is created if it is missing, and uses its slots. Then each thread commits
// transactions, each of which updates some keys. Returns how long these commits took.
fn time_commits<
    H: Files<File = File> + Clock + Threads + Wait + Copy + Drop + Send + Sync + 'static,
>(rt: &H, alloc: Global, name: &str, crowd: &Crowd) -> Result<Duration, Error> {
    let layout = Geometry::new(crowd.slots, Geometry::LEAST_PLACES, Geometry::MOST_WINDOW)?;
    let store = Store::open(*rt, alloc, name, layout)?;
    use_slots(alloc, &store, crowd)?;
    let took = time_committers(rt, alloc, &store, crowd)?;
    store.close()?;
    Ok(took)
}

// Updates keys as often as there are slots, so that the commits that are timed reuse slots.
fn use_slots<R: Wait + Drop>(
    alloc: Global,
    store: &Store<R>,
    crowd: &Crowd,
) -> Result<(), StoreError> {
    let keys = keys_for(crowd.rows)
        .saturating_mul(crowd.threads as u64)
        .max(TOGETHER);
    let mut writes = Vec::new(alloc);
    for number in 0..crowd.slots / TOGETHER {
        let first = number.saturating_mul(TOGETHER);
        update(&mut writes, first..first.saturating_add(TOGETHER), keys, 0)?;
        store.write(writes.as_slice())?;
    }
    Ok(())
}

pub fn key_of(key: u64) -> Key {
    Key { table: 1, key }
}

// Lists writes for these updates, to `keys` keys in turn, from `first` on.
fn update(
    writes: &mut Vec<(Key, Option<Row>)>,
    updates: Range<u64>,
    keys: u64,
    first: u64,
) -> Result<(), StoreError> {
    writes.clear();
    for update in updates {
        let key = key_of(first.saturating_add(update % keys.max(1)));
        let row = Row::new(&update.to_le_bytes())?;
        if writes.push((key, Some(row))).is_err() {
            return Err(StoreError::from(Fault::OutOfMemory));
        }
    }
    Ok(())
}

fn time_committers<H: Clock + Threads + Wait + Drop + Send + Sync>(
    rt: &H,
    alloc: Global,
    store: &Store<H>,
    crowd: &Crowd,
) -> Result<Duration, Error> {
    let turns = Turns {
        alloc,
        commits: crowd.commits,
        rows: crowd.rows,
    };
    let start = Instant::now(rt)?;
    let ended = map_indices(
        rt,
        alloc,
        crowd.threads,
        &|thread| commit_in_turn(store, &turns, thread as u64),
    )?;
    for one in &ended {
        if let Err(error) = one {
            bail!("{error}");
        }
    }
    Ok(start.elapsed(rt)?)
}

// Makes the commits of this thread, each of which updates the next ones of its keys.
fn commit_in_turn<R: Wait + Drop>(
    store: &Store<R>,
    turns: &Turns,
    thread: u64,
) -> Result<(), StoreError> {
    let keys = keys_for(turns.rows);
    let mut writes = Vec::new(turns.alloc);
    for number in 0..turns.commits {
        let next = number.saturating_mul(turns.rows);
        let updates = next..next.saturating_add(turns.rows);
        update(&mut writes, updates, keys, thread.saturating_mul(keys))?;
        store.write(writes.as_slice())?;
    }
    Ok(())
}
