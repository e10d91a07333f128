use anyhow::Error;
use std::sync::Wait;
use std::thread;
use std::thread::Threads;
use store::{Key, Row, RowExt, Store, StoreError, key};

const SUM: Key = Key { table: 3, key: 1 };

const TIMES: u64 = 50;

/// Two threads that add to one number, a single conflict, and a conflict in each try.
pub fn meet_each<R: Print + Threads + Wait + Drop + Sync>(
    rt: &R,
    store: &Store<R>,
) -> Result<(), Error> {
    let (one, other) = thread::join(rt, || add(store), || add(store));
    one?;
    other?;
    let sum = store.read()?.number(SUM)?;
    println!(rt; "two threads added {sum:?}")?;

    conflict_once(rt, store)?;
    lose_each(rt, store)?;
    win_last(rt, store)
}

// Another commit on the same key comes first.
fn conflict_once<R: Print + Wait + Drop>(rt: &R, store: &Store<R>) -> Result<(), Error> {
    let mut late = store.begin()?;
    let put = late.put(SUM, Row::of_u64(1));
    let other = put_sum(store, 2);
    let committed = late.commit();
    put?;
    other?;
    if let Err(error) = committed {
        println!(rt; "conflict: {error}")?;
    }
    Ok(())
}

fn put_sum<R: Wait + Drop>(store: &Store<R>, number: u64) -> Result<(), StoreError> {
    store.transact(|t| t.put(SUM, Row::of_u64(number)))?;
    Ok(())
}

// Adds 1 `TIMES` times.
fn add<R: Wait + Drop>(store: &Store<R>) -> Result<(), StoreError> {
    for _ in 0..TIMES {
        store.transact(|t| {
            let sum = t.number(SUM)?.unwrap_or(0);
            t.put_number(SUM, sum.saturating_add(1))
        })?;
    }
    Ok(())
}

// Another commit comes first in each try.
fn lose_each<R: Print + Wait + Drop>(rt: &R, store: &Store<R>) -> Result<(), Error> {
    let tried = store.transact_within(3, |t| {
        put_sum(store, 3)?;
        t.put(SUM, Row::of_u64(4))
    });
    if let Err(error) = tried {
        println!(rt; "given up: {error}")?;
    }
    Ok(())
}

// Another commit comes first in all tries but the last one.
fn win_last<R: Print + Wait + Drop>(rt: &R, store: &Store<R>) -> Result<(), Error> {
    let mut tries = 0_u64;
    let (seen, _) = store.transact_within(3, |t| {
        tries = tries.saturating_add(1);
        if tries < 3 {
            put_sum(store, 5)?;
        }
        t.put(SUM, Row::of_u64(6))?;
        Ok(tries)
    })?;
    let sum = store.read()?.number(SUM)?;
    println!(rt; "in try {seen} committed {sum:?}")?;
    Ok(())
}
