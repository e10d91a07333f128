use crate::images::{bytes_of, image, set_begin};
use crate::refusals::print_refused;
use anyhow::Error;
use std::alloc::Global;
use std::fs;
use std::fs::File;
use std::rt::Files;
use std::sync::Wait;
use std::thread::Threads;
use store::{Geometry, Row, RowExt, Snapshot, Store, StoreError, key};

/// Files over which no store can be opened, and the error for each.
pub fn refuse_each<
    R: Print + Files<File = File> + Threads + Wait + Copy + Drop + Send + Sync + 'static,
>(rt: &R, alloc: Global) -> Result<(), Error> {
    let geometry = Geometry::new(4, 2, 64)?;
    refuse_files(rt, alloc, geometry)?;
    refuse_small(rt, alloc, geometry)?;
    refuse_images(rt, alloc, geometry)
}

fn refuse_files<
    R: Print + Files<File = File> + Threads + Wait + Copy + Drop + Send + Sync + 'static,
>(rt: &R, alloc: Global, geometry: Geometry) -> Result<(), Error> {
    print_open(rt, alloc, "none/x.img", geometry)?;
    fs::write(rt, "text.img", b"no image")?;
    print_open(rt, alloc, "text.img", geometry)
}

// A store that is open can't be opened again, and one that is closed can't with another layout.
fn refuse_small<
    R: Print + Files<File = File> + Threads + Wait + Copy + Drop + Send + Sync + 'static,
>(rt: &R, alloc: Global, geometry: Geometry) -> Result<(), Error> {
    let store = Store::open(*rt, alloc, "small.img", geometry)?;
    let again = print_open(rt, alloc, "small.img", geometry);
    let filled = fill(rt, &store);
    store.close()?;
    again?;
    filled?;
    print_open(rt, alloc, "small.img", Geometry::wide(8, 2, 64)?)
}

fn refuse_images<
    R: Print + Files<File = File> + Threads + Wait + Copy + Drop + Send + Sync + 'static,
>(rt: &R, alloc: Global, geometry: Geometry) -> Result<(), Error> {
    write(rt, alloc, "place.img", image(alloc, 0, 1)?)?;
    print_open(rt, alloc, "place.img", geometry)?;
    let mut words = image(alloc, 1, 1)?;
    set_begin(&mut words, 2, 1);
    write(rt, alloc, "slot.img", words)?;
    print_open(rt, alloc, "slot.img", geometry)?;
    write(rt, alloc, "numbers.img", image(alloc, 1, (1 << 62) - 1)?)?;
    print_open(rt, alloc, "numbers.img", geometry)
}

// Opens the store, and prints its name, or else the error.
fn print_open<R: Print + Files<File = File> + Threads + Wait + Copy + Drop + Send + Sync + 'static>(
    rt: &R,
    alloc: Global,
    name: &str,
    geometry: Geometry,
) -> Result<(), Error> {
    print_opened(rt, Store::open(*rt, alloc, name, geometry))
}

// Prints the name of a store that was opened, or else the error.
fn print_opened<R: Wait + Drop + Print>(
    rt: &R,
    opened: Result<Store<R>, StoreError>,
) -> Result<(), Error> {
    match opened {
        Ok(store) => {
            let told = println!(rt; "{} is open", store.name());
            store.close()?;
            Ok(told?)
        }
        Err(error) => Ok(println!(rt; "not opened: {error}")?),
    }
}

// Writes a file that holds these words.
fn write<R: Files<File = File>>(
    rt: &R,
    alloc: Global,
    name: &str,
    words: Vec<u64>,
) -> Result<(), Error> {
    fs::write(rt, name, bytes_of(alloc, words.as_slice())?.as_slice())?;
    Ok(())
}

fn put<R: Wait + Drop>(store: &Store<R>, number: u64, value: u64) -> Result<(), StoreError> {
    store.transact(|t| t.put_number(key(1, number), value))?;
    Ok(())
}

fn delete<R: Wait + Drop>(store: &Store<R>, number: u64) -> Result<(), StoreError> {
    store.transact(|t| t.delete(key(1, number)))?;
    Ok(())
}

// Takes the four slots, and asks for a fifth. Then a deletion frees one.
fn fill<R: Print + Wait + Drop>(rt: &R, store: &Store<R>) -> Result<(), Error> {
    for number in 1..=5 {
        print_refused(rt, put(store, number, number))?;
    }
    delete(store, 1)?;
    put(store, 5, 5)?;
    println!(rt; "{} of 4 slots have rows", store.read()?.count(1, ..)?)?;
    delete(store, 2)?;
    delete(store, 3)?;
    keep_old(rt, store)
}

// Two rows take two slots, and two more while a snapshot keeps their older versions.
fn keep_old<R: Print + Wait + Drop>(rt: &R, store: &Store<R>) -> Result<(), Error> {
    let old = store.read()?;
    let kept = put_over(rt, store, &old);
    drop(old);
    kept?;
    put(store, 4, 41)?;
    println!(rt; "new {:?}", store.read()?.number(key(1, 4))?)?;
    Ok(())
}

fn put_over<R: Print + Wait + Drop>(
    rt: &R,
    store: &Store<R>,
    old: &Snapshot<'_, R>,
) -> Result<(), Error> {
    put(store, 4, 40)?;
    put(store, 5, 50)?;
    print_refused(rt, put(store, 4, 41))?;
    println!(rt; "old {:?}", old.number(key(1, 4))?)?;
    Ok(())
}

/// What `open_existing` finds: no store, which it doesn't create, and a store of any layout, which was dropped and not closed.
pub fn find_each<
    R: Print + Files<File = File> + Threads + Wait + Copy + Drop + Send + Sync + 'static,
>(rt: &R, alloc: Global) -> Result<(), Error> {
    find_none(rt, alloc)?;
    find_empty(rt, alloc)?;
    leave_wide(rt, alloc)?;
    // 8 slots of two lines and three places take 8 * (1 + 4 * 3 + 2 * 8) words, and the journal follows them.
    let image = 8 * 8 * (1 + 4 * 3 + 2 * 8);
    let is_longer = image < length_of(rt, "wide.img")?;
    println!(rt; "dropped, with a journal behind the image: {is_longer}")?;
    find_wide(rt, alloc)?;
    let is_alone = image == length_of(rt, "wide.img")?;
    println!(rt; "closed, without a journal: {is_alone}")?;
    Ok(())
}

fn find_none<R: Print + Files<File = File> + Threads + Wait + Copy + Drop + Send + Sync + 'static>(
    rt: &R,
    alloc: Global,
) -> Result<(), Error> {
    print_opened(rt, Store::open_existing(*rt, alloc, "nowhere.img"))?;
    let is_there = fs::metadata(rt, "nowhere.img").is_ok();
    println!(rt; "nowhere.img is there: {is_there}")?;
    Ok(())
}

fn find_empty<R: Print + Files<File = File> + Threads + Wait + Copy + Drop + Send + Sync + 'static>(
    rt: &R,
    alloc: Global,
) -> Result<(), Error> {
    fs::write(rt, "empty.img", b"")?;
    print_opened(rt, Store::open_existing(*rt, alloc, "empty.img"))?;
    println!(rt; "empty.img has {} bytes", length_of(rt, "empty.img")?)?;
    Ok(())
}

fn length_of<R: Files<File = File>>(rt: &R, name: &str) -> Result<u64, Error> {
    Ok(fs::metadata(rt, name)?.len())
}

// Commits in a store, which is dropped and not closed.
fn leave_wide<R: Print + Files<File = File> + Threads + Wait + Copy + Drop + Send + Sync + 'static>(
    rt: &R,
    alloc: Global,
) -> Result<(), Error> {
    let store = Store::open(*rt, alloc, "wide.img", Geometry::wide(8, 3, 128)?)?;
    let put = put_each(&store);
    drop(store);
    Ok(put?)
}

fn put_each<R: Wait + Drop>(store: &Store<R>) -> Result<(), StoreError> {
    store.transact(|t| t.put(key(7, 1), Row::of_u64(1)))?;
    store.transact(|t| t.put(key(7, 2), Row::of_text("kept")?))?;
    Ok(())
}

fn find_wide<R: Print + Files<File = File> + Threads + Wait + Copy + Drop + Send + Sync + 'static>(
    rt: &R,
    alloc: Global,
) -> Result<(), Error> {
    let store = Store::open_existing(*rt, alloc, "wide.img")?;
    let shown = show_wide(rt, &store);
    store.close()?;
    shown
}

fn show_wide<R: Print + Wait + Drop>(rt: &R, store: &Store<R>) -> Result<(), Error> {
    let status = store.status();
    println!(rt;
        "slots {} places {} window {} row_limit {}",
        status.slots, status.places, status.window, status.row_limit
    )?;
    for (key, row) in store.read()?.scan(7, ..)? {
        println!(rt; "found {key}: {row}")?;
    }
    Ok(())
}

/// Opening the store and one commit write the last two records that have numbers. Another commit is refused, and so is closing.
pub fn end_numbers<
    R: Print + Files<File = File> + Threads + Wait + Copy + Drop + Send + Sync + 'static,
>(rt: &R, alloc: Global) -> Result<(), Error> {
    write(rt, alloc, "last.img", image(alloc, (1 << 62) - 3, 1)?)?;
    let store = Store::open(*rt, alloc, "last.img", Geometry::new(4, 2, 64)?)?;
    let committed = commit_two(rt, &store);
    let closed = store.close();
    committed?;
    match closed {
        Ok(()) => println!(rt; "closed")?,
        Err(error) => println!(rt; "{error}")?,
    }
    Ok(())
}

fn commit_two<R: Print + Wait + Drop>(rt: &R, store: &Store<R>) -> Result<(), Error> {
    for number in 1..=2 {
        match put(store, number, number) {
            Ok(()) => println!(rt; "commit {number} is kept")?,
            Err(error) => println!(rt; "commit {number}: {error}")?,
        }
    }
    Ok(())
}
