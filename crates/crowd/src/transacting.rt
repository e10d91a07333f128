use crate::key_of;
use anyhow::{Error, bail};
use base::geometry::Geometry;
use std::alloc::Global;
use std::fs::File;
use std::rt::{Clock, Files};
use std::sync::Wait;
use std::thread::{Threads, map_indices};
use std::time::{Duration, Instant};
use store::{RowExt, Store, StoreError};

// How many keys each thread updates, one after the other. No other thread updates them.
const KEYS: u64 = 8;

/// How many slots the store has, how many threads call `Store::transact`, and how many transactions of one row each of them makes.
#[derive(Clone, Copy)]
pub struct Transactions {
    pub slots: u64,
    pub threads: usize,
    pub commits: u64,
}

/// Opens the store in the file of this name, updates as many rows as there are slots, and times the transactions.
pub fn time_transactions<
    H: Files<File = File> + Clock + Threads + Wait + Copy + Drop + Send + Sync + 'static,
>(rt: &H, alloc: Global, name: &str, transactions: &Transactions) -> Result<Duration, Error> {
    let slots = transactions.slots;
    let layout = Geometry::new(slots, Geometry::LEAST_PLACES, Geometry::MOST_WINDOW)?;
    let store = Store::open(*rt, alloc, name, layout)?;
    let took = time_threads(rt, alloc, &store, transactions)?;
    store.close()?;
    Ok(took)
}

fn time_threads<H: Clock + Threads + Wait + Drop + Send + Sync>(
    rt: &H,
    alloc: Global,
    store: &Store<H>,
    transactions: &Transactions,
) -> Result<Duration, Error> {
    let commits = transactions.commits;
    let start = Instant::now(rt)?;
    let made = map_indices(
        rt,
        alloc,
        transactions.threads,
        &|thread| commit_each(store, thread as u64, commits),
    )?;
    for one in &made {
        if let Err(error) = one {
            bail!("{error}");
        }
    }
    Ok(start.elapsed(rt)?)
}

// Updates the keys of this thread in turn, each by a transaction of its own.
fn commit_each<R: Wait + Drop>(
    store: &Store<R>,
    thread: u64,
    commits: u64,
) -> Result<(), StoreError> {
    let first = thread.saturating_mul(KEYS);
    for number in 0..commits {
        let key = first.saturating_add(number % KEYS);
        store.transact(|t| t.put_number(key_of(key), number))?;
    }
    Ok(())
}
