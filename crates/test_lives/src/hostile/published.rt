//! A board that prints what its writer's and a reader's calls return. If the caller of the program refuses an allocation, the
//! call is made once more.
ghost use Rattle.std.specs.Prelude.{◌≡◌};

use anyhow::Error;
use base::batch::{Batch, Commit};
use base::fault::Fault;
use base::key::Key;
use base::longs::Longs;
use base::row::Row;
use board::{Board, Coverage, History, Naming, Reader};
use smallvec::SmallVec;
use std::alloc::{AllocError, Global};
use std::marker::Brand;
use std::sync::Wait;

const KEY: Key = Key { table: 1, key: 7 };

/// Opens a board, once more if memory is missing, and publishes two commits on it.
pub fn publish<H: Print + Wait>(rt: &H, alloc: Global) -> Result<(), Error> {
    println!(rt; "run board")?;
    if publish_on::<Brand, H>(rt, alloc, History::new())? {
        return Ok(());
    }
    println!(rt; "open: OutOfMemory")?;
    publish_again(rt, alloc)
}

fn publish_again<H: Print + Wait>(rt: &H, alloc: Global) -> Result<(), Error> {
    if !publish_on::<Brand, H>(rt, alloc, History::new())? {
        println!(rt; "open: OutOfMemory")?;
    }
    Ok(())
}

// Publishes on a new board. Was there memory for it?
fn publish_on<J: Naming, H: Print + Wait>(
    rt: &H,
    alloc: Global,
    history: History,
) -> Result<bool, Error>
    requires { history ≡ J.book }
{
    match Board::<J, &H>::open(rt, alloc, history, at_two(), &[], 1) {
        Ok((board, readers)) => {
            publish_two(rt, alloc, board, readers)?;
            Ok(true)
        }
        Err(_) => Ok(false),
    }
}

// Stamp 2 covers no commit.
fn at_two() -> Coverage {
    Coverage {
        stamp: 2,
        persisted: 0,
        longs: Longs::none(),
    }
}

// Publishes two commits, prunes to the first, and reads before and after it.
fn publish_two<J: Naming, H: Print + Wait>(
    rt: &H,
    alloc: Global,
    board: Board<J, &H>,
    readers: Vec<Reader<J>>,
) -> Result<(), Error> {
    let (mut board, mut readers) = (board, readers);
    match readers.first_mut() {
        Some(reader) => publish_both(rt, alloc, &mut board, reader),
        None => Ok(()),
    }
}

fn publish_both<J: Naming, H: Print + Wait>(
    rt: &H,
    alloc: Global,
    board: &mut Board<J, &H>,
    reader: &mut Reader<J>,
) -> Result<(), Error> {
    publish_next(rt, alloc, board, 1)?;
    say_token(rt, board)?;
    read_all(rt, board, reader)?;
    prune(rt, board)?;
    read_all(rt, board, reader)?;
    publish_next(rt, alloc, board, 2)?;
    read_all(rt, board, reader)
}

fn say_token<J: Naming, H: Print + Wait>(rt: &H, board: &Board<J, &H>) -> Result<(), Error> {
    let token = board.token();
    println!(rt;
        "token {} covers {} {}",
        token.stamp(),
        token.covers(1),
        token.covers(2)
    )?;
    Ok(())
}

// The reader learns of what is published, and reads at each stamp.
fn read_all<J: Naming, H: Print + Wait>(
    rt: &H,
    board: &Board<J, &H>,
    reader: &mut Reader<J>,
) -> Result<(), Error> {
    reader.learn(board.token());
    for stamp in 1..5 {
        say_read(rt, stamp, reader.read(stamp, KEY))?;
    }
    Ok(())
}

fn say_read<H: Print>(rt: &H, stamp: u64, found: Result<Option<Row>, Fault>) -> Result<(), Error> {
    match found {
        Ok(Some(row)) => println!(rt; "read {stamp}: row {:?}", row.as_bytes())?,
        other => println!(rt; "read {stamp}: {other:?}")?,
    }
    Ok(())
}

// The batch of one more commit, which writes this byte.
fn next_batch<J: Naming, H: Wait>(
    alloc: Global,
    board: &Board<J, &H>,
    byte: u8,
) -> Result<Batch, Fault> {
    let Coverage {
        stamp,
        persisted,
        longs,
    } = board.last();
    if stamp > 100 || persisted > 100 {
        return Err(Fault::TimestampsOut);
    }
    match commits(alloc, persisted + 1, Row::new(&[byte])?) {
        Ok(commits) => Ok(Batch::new(stamp, stamp + 1, persisted + 1, longs, commits)),
        Err(_) => Err(Fault::OutOfMemory),
    }
}

fn commits(alloc: Global, timestamp: u64, row: Row) -> Result<Vec<Commit>, AllocError> {
    let writes = SmallVec::from_slice(alloc, &[(KEY, Some(row))])?;
    Ok(Vec::from_array(alloc, [Commit::new(timestamp, writes)])?)
}

// Publishes one more commit. If memory is missing it is published again, or flushed if it waits.
fn publish_next<J: Naming, H: Print + Wait>(
    rt: &H,
    alloc: Global,
    board: &mut Board<J, &H>,
    byte: u8,
) -> Result<(), Error> {
    let batch = next_batch(alloc, board, byte)?;
    if !is_published(rt, board, batch)? {
        println!(rt; "publish: waits")?;
        board.flush()?;
    }
    say_published(rt, board)
}

// Offers the batch, and once more if memory is missing. Is it published? If not, it waits.
fn is_published<J: Naming, H: Print + Wait>(
    rt: &H,
    board: &mut Board<J, &H>,
    batch: Batch,
) -> Result<bool, Error> {
    match offer(board, batch)? {
        None => Ok(true),
        Some(None) => Ok(false),
        Some(Some(batch)) => is_published_now(rt, board, batch),
    }
}

fn is_published_now<J: Naming, H: Print + Wait>(
    rt: &H,
    board: &mut Board<J, &H>,
    batch: Batch,
) -> Result<bool, Error> {
    println!(rt; "publish: OutOfMemory")?;
    Ok(offer(board, batch)?.is_none())
}

fn say_published<J: Naming, H: Print + Wait>(rt: &H, board: &Board<J, &H>) -> Result<(), Error> {
    println!(rt; "published {}", board.token().stamp())?;
    Ok(())
}

// Publishes the batch. If memory is missing it comes back, unless it waits.
fn offer<J: Naming, H: Wait>(
    board: &mut Board<J, &H>,
    batch: Batch,
) -> Result<Option<Option<Batch>>, Fault> {
    if !board.fits(&batch) {
        return Err(Fault::WrongState);
    }
    match board.publish(batch) {
        Ok(()) => Ok(None),
        Err((_, batch)) => Ok(Some(batch)),
    }
}

// Prunes to what is published last, and once more if memory is missing.
fn prune<J: Naming, H: Print + Wait>(rt: &H, board: &mut Board<J, &H>) -> Result<(), Error> {
    let stamp = board.token().stamp();
    if board.prune(stamp).is_err() {
        println!(rt; "prune: OutOfMemory")?;
        let stamp = board.token().stamp();
        board.prune(stamp)?;
    }
    println!(rt; "pruned {stamp}")?;
    Ok(())
}
