use anyhow::Error;
use std::ops::{Bound, RangeBounds};
use std::sync::Wait;
use store::{Key, Row, Snapshot, Store, Transaction, key};

/// A range of each form over a table that has the keys 5, 6 and 9.
pub fn read_each<R: Print + Wait + Drop>(rt: &R, store: &Store<R>) -> Result<(), Error> {
    read_snapshot(rt, &store.read()?)?;
    read_own(rt, store)
}

fn read_snapshot<R: Print + Wait + Drop>(rt: &R, snapshot: &Snapshot<'_, R>) -> Result<(), Error> {
    show_open(rt, snapshot)?;
    show_closed(rt, snapshot)?;
    show_behind(rt, snapshot)?;
    show_ends(rt, snapshot)
}

fn show_open<R: Print + Wait + Drop>(rt: &R, snapshot: &Snapshot<'_, R>) -> Result<(), Error> {
    show(rt, snapshot, "..", ..)?;
    show(rt, snapshot, "6..", 6..)?;
    show(rt, snapshot, "..6", ..6)?;
    show(rt, snapshot, "..=6", ..=6)
}

fn show_closed<R: Print + Wait + Drop>(rt: &R, snapshot: &Snapshot<'_, R>) -> Result<(), Error> {
    show(rt, snapshot, "5..9", 5..9)?;
    show(rt, snapshot, "6..=9", 6..=9)?;
    show(rt, snapshot, "7..7", 7..7)
}

fn show_behind<R: Print + Wait + Drop>(rt: &R, snapshot: &Snapshot<'_, R>) -> Result<(), Error> {
    for (name, last) in [("behind 5", 5), ("behind the last", u64::MAX)] {
        show(
            rt,
            snapshot,
            name,
            (Bound::Excluded(last), Bound::Unbounded),
        )?;
    }
    Ok(())
}

fn show_ends<R: Print + Wait + Drop>(rt: &R, snapshot: &Snapshot<'_, R>) -> Result<(), Error> {
    show_rows(rt, "the first two", snapshot.first(1, .., 2)?.as_slice())?;
    show_rows(rt, "the last two", snapshot.last(1, .., 2)?.as_slice())?;
    println!(rt;
        "last key {:?}, of no row {:?}",
        snapshot.last_key(1)?,
        snapshot.last_key(3)?
    )?;
    Ok(())
}

// Parts of what a transaction sees that has deleted the key 5 and written 7.
fn read_own<R: Print + Wait + Drop>(rt: &R, store: &Store<R>) -> Result<(), Error> {
    let mut t = store.begin()?;
    let read = read_parts(rt, &mut t);
    t.abort()?;
    read
}

fn read_parts<R: Print + Wait + Drop>(rt: &R, t: &mut Transaction<'_, R>) -> Result<(), Error> {
    t.delete(key(1, 5))?;
    t.put_number(key(1, 7), 7)?;
    show_rows(rt, "its first two", t.first(1, .., 2)?.as_slice())?;
    show_rows(rt, "its last two", t.last(1, .., 2)?.as_slice())?;
    read_pages(rt, t)
}

// A page of one row reads one more for each own write.
fn read_pages<R: Print + Wait + Drop>(rt: &R, t: &Transaction<'_, R>) -> Result<(), Error> {
    for (name, first) in [("a page", key(0, 0)), ("the next page", key(1, 10))] {
        let page = t.page(first, key(u16::MAX, u64::MAX), 1)?;
        show_rows(rt, name, page.rows.as_slice())?;
        println!(rt; "up to {}", page.reached)?;
    }
    Ok(())
}

fn show<R: Print + Wait + Drop, B: RangeBounds<u64> + Clone>(
    rt: &R,
    snapshot: &Snapshot<'_, R>,
    name: &str,
    range: B,
) -> Result<(), Error> {
    let count = snapshot.count(1, range.clone()?)?;
    print!(rt; "{count} in ")?;
    show_rows(rt, name, snapshot.scan(1, range)?.as_slice())
}

fn show_rows(rt: &impl Print, name: &str, rows: &[(Key, Row)]) -> Result<(), Error> {
    print!(rt; "{name}:")?;
    for (key, _) in rows {
        print!(rt; " {}", key.key)?;
    }
    println!(rt; "")?;
    Ok(())
}
