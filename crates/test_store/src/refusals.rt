use crate::calls::committed;
use anyhow::{Error, anyhow};
use std::sync::Wait;
use store::{Row, RowExt, Snapshot, Store, StoreError, Transaction, key};

const LONG: &str = "a text that has more than thirty-two bytes";

/// Why steps are refused, and that the transaction stays open.
pub fn meet_each<R: Print + AllocGlobal + Wait + Drop>(
    rt: &R,
    store: &Store<R>,
) -> Result<(), Error> {
    fill_transaction(rt, store)?;
    count_kept(rt, store)?;
    meet_rows(rt, store)?;
    print_refused(rt, store.transact(|t| give_up(t)))?;
    count_kept(rt, store)?;
    open_many(rt, store)
}

fn fill_transaction<R: Print + Wait + Drop>(rt: &R, store: &Store<R>) -> Result<(), Error> {
    let mut t = store.begin()?;
    let put = put_many(rt, &mut t);
    committed(t, put)?;
    Ok(())
}

// Puts a row that is too long, and then one row more than a transaction may write.
fn put_many<R: Print + Wait + Drop>(rt: &R, t: &mut Transaction<'_, R>) -> Result<(), Error> {
    print_refused(rt, t.put(key(4, 0), Row::of_text(LONG)?))?;
    for number in 1..=33 {
        print_refused(rt, t.put(key(4, number), Row::of_u64(number)))?;
    }
    Ok(())
}

fn count_kept<R: Print + Wait + Drop>(rt: &R, store: &Store<R>) -> Result<(), Error> {
    println!(rt; "{} of 33 kept", store.read()?.count(4, ..)?)?;
    Ok(())
}

// A row with one byte more than the longest, and one that isn't a number.
fn meet_rows<R: Print + AllocGlobal + Wait + Drop>(rt: &R, store: &Store<R>) -> Result<(), Error> {
    let longer = format!(in rt.alloc(); "{:0481}", 0)?;
    print_refused(rt, Row::of_text(&longer))?;
    print_refused(rt, store.read()?.number(key(1, 6)))
}

/// Prints the error, if there is one.
pub fn print_refused<T: Drop>(rt: &impl Print, step: Result<T, StoreError>) -> Result<(), Error> {
    if let Err(error) = step {
        println!(rt; "refused: {error}")?;
    }
    Ok(())
}

// Writes, and then returns an error of its own.
fn give_up<R: Wait + Drop>(t: &mut Transaction<'_, R>) -> Result<(), StoreError> {
    t.delete(key(4, 1))?;
    Err(StoreError::Own(anyhow!("the caller's own reason")))
}

// Opens as many snapshots at once as are allowed, and one more.
fn open_many<R: Print + AllocGlobal + Wait + Drop>(rt: &R, store: &Store<R>) -> Result<(), Error> {
    let mut open: Vec<Snapshot<'_, R>> = Vec::new(rt.alloc());
    for number in 1..=63 {
        match store.read() {
            Ok(snapshot) => open.push(snapshot)?,
            Err(error) => println!(rt; "refused: {error}, at number {number}")?,
        }
    }
    Ok(())
}
