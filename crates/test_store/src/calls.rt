use anyhow::Error;
use std::sync::Wait;
use store::{Row, RowExt, Store, StoreError, Transaction, Ts, key};

/// A transaction that is committed, one that is aborted, one that is dropped and one that writes nothing.
pub fn make_each<R: Print + Wait + Drop>(rt: &R, store: &Store<R>) -> Result<(), Error> {
    commit_one(rt, store)?;
    abort_one(store)?;
    drop_one(store)?;
    println!(rt; "nothing written {:?}", store.begin()?.commit()?)?;
    show_numbers(rt, store)
}

fn commit_one<R: Print + Wait + Drop>(rt: &R, store: &Store<R>) -> Result<(), Error> {
    let mut t = store.begin()?;
    let written = write_each(rt, store, &mut t);
    println!(rt; "committed {:?}", committed(t, written)?)?;
    Ok(())
}

/// Commits the transaction, if this was done in it.
pub fn committed<R: Wait + Drop>(
    t: Transaction<'_, R>,
    done: Result<(), Error>,
) -> Result<Option<Ts>, Error> {
    match done {
        Ok(()) => Ok(t.commit()?),
        Err(error) => Err(error),
    }
}

// Writes by each call. Nobody else sees that.
fn write_each<R: Print + Wait + Drop>(
    rt: &R,
    store: &Store<R>,
    t: &mut Transaction<'_, R>,
) -> Result<(), Error> {
    write_rows(t)?;
    let own = t.number(key(1, 5))?;
    let before = store.read()?.number(key(1, 5))?;
    println!(rt;
        "{}: own write {own:?}, others see {before:?}",
        store.name()
    )?;
    Ok(())
}

fn write_rows<R: Wait + Drop>(t: &mut Transaction<'_, R>) -> Result<(), StoreError> {
    t.put_number(key(1, 5), 7)?;
    t.put(key(1, 6), Row::of_text("milk")?)?;
    t.put(key(1, 9), Row::of_text("")?)?;
    t.write(&[(key(2, 0), Some(Row::of_u64(1))), (key(2, 0), None)])
}

fn abort_one<R: Wait + Drop>(store: &Store<R>) -> Result<(), StoreError> {
    let mut t = store.begin()?;
    let put = t.put(key(1, 5), Row::of_u64(8));
    t.abort()?;
    put
}

fn drop_one<R: Wait + Drop>(store: &Store<R>) -> Result<(), StoreError> {
    let mut t = store.begin()?;
    let deleted = t.delete(key(1, 6));
    drop(t);
    deleted
}

// The layout, and how far the store has come. Timestamps can be drawn up to two windows before 2^62. Timestamp 1 is drawn, so
// 2^62 - 2 - 2 * 64 commits are left.
fn show_numbers<R: Print + Wait + Drop>(rt: &R, store: &Store<R>) -> Result<(), Error> {
    let status = store.status();
    println!(rt;
        "version {} slots {} places {} window {} row_limit {}",
        status.version, status.slots, status.places, status.window, status.row_limit
    )?;
    println!(rt;
        "persisted {} longs {} gaps {} left {}",
        status.persisted, status.longs, status.gaps, status.left
    )?;
    println!(rt;
        "rows {} versions {} free {}",
        status.rows, status.versions, status.free
    )?;
    Ok(())
}

/// What is found when the store is opened again.
pub fn find_all<R: Print + Wait + Drop>(rt: &R, store: &Store<R>) -> Result<(), Error> {
    for (key, row) in store.read()?.scan(1, ..)? {
        println!(rt; "found {key}: {row}")?;
    }
    Ok(())
}
