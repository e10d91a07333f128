//! Reads on a board, while a writer publishes until the last reader is done.
ghost use Rattle.std.specs.Prelude.{◌≡◌, ◌<◌, ◌≤◌};

use base::batch::{Batch, Commit};
use base::fault::Fault;
use base::key::Key;
use base::longs::Longs;
use base::row::Row;
use board::{Board, Coverage, History, Naming, Reader};
use smallvec::SmallVec;
use std::alloc::{AllocError, Global};
use std::marker::Brand;
use std::sync::Wait;
use std::sync::atomic::{AtomicU64, Ordering};
use std::thread::{Threads, join, map_vec};

// The keys that have a row from the start.
const KEYS: u64 = 1_024;

// The step from one key that is read to the next one. All keys come in turn.
const STRIDE: u64 = 367;

// How many stamps stay readable besides the last one.
const KEPT: u64 = 15;

// The writer ends after this many batches even if the readers aren't done.
const MOST_BATCHES: u64 = 20_000_000;

/// What the readers and the writer did.
#[derive(Clone, Copy)]
pub struct Done {
    pub readers: u64,
    pub reads: u64,
    pub batches: u64,
}

/// Each of `readers` readers makes `reads` reads in a thread of its own, while a writer publishes.
pub fn read_beside_a_writer<R: Threads + Wait + Sync>(
    rt: &R,
    alloc: Global,
    readers: usize,
    reads: u64,
) -> Result<Done, Fault>
    requires { (0 < readers) × (readers ≤ 8) }
{
    read_one_board::<Brand, R>(rt, alloc, History::new(), readers, reads)
}

fn read_one_board<J: Naming + Send + Sync, R: Threads + Wait + Sync>(
    rt: &R,
    alloc: Global,
    history: History,
    readers: usize,
    reads: u64,
) -> Result<Done, Fault>
    requires name { history ≡ J.book }
    requires readers { (0 < readers) × (readers ≤ 8) }
{
    let rows = first_rows(alloc)?;
    let (board, readers) = Board::<J, &R>::open(rt, alloc, history, nothing(), &rows, readers)?;
    let count = readers.len() as u64;
    let done = AtomicU64::new(0);
    let ((board, published), read) = join(
        rt,
        || publish_many(alloc, board, &done, count),
        || map_vec(rt, readers, &|reader| read_many(reader, reads, &done)),
    );
    drop(board);
    match read {
        Ok(answered) => done_by(count, published, &answered),
        Err(_) => Err(Fault::OutOfMemory),
    }
}

// What was done, if this was published and each reader found this many rows.
fn done_by(readers: u64, published: Result<u64, Fault>, answered: &[u64]) -> Result<Done, Fault> {
    let mut reads = 0_u64;
    for rows in answered {
        reads = reads.saturating_add(*rows);
    }
    Ok(Done {
        readers,
        reads,
        batches: published?,
    })
}

// No commit is covered yet.
fn nothing() -> Coverage {
    Coverage {
        stamp: 0,
        persisted: 0,
        longs: Longs::none(),
    }
}

// A row under each key.
fn first_rows(alloc: Global) -> Result<Vec<(Key, Row)>, Fault> {
    let mut rows = Vec::new(alloc);
    for key in 0..KEYS {
        let row = Row::new(&key.to_be_bytes())?;
        if rows.push((Key { table: 1, key }, row)).is_err() {
            return Err(Fault::OutOfMemory);
        }
    }
    Ok(rows)
}

// Publishes batches until this many readers are done.
fn publish_many<J: Naming, R: Wait + Drop>(
    alloc: Global,
    board: Board<J, R>,
    done: &AtomicU64,
    readers: u64,
) -> (Board<J, R>, Result<u64, Fault>) {
    let mut board = board;
    for batch in 0..MOST_BATCHES {
        if done.load(Ordering::SeqCst) >= readers {
            return (board, Ok(batch));
        }
        if let Err(fault) = publish_one(alloc, &mut board) {
            return (board, Err(fault));
        }
    }
    (board, Ok(MOST_BATCHES))
}

// Publishes a batch of one commit, which updates one row, and prunes what is older than the stamps that stay readable.
fn publish_one<J: Naming, R: Wait + Drop>(
    alloc: Global,
    board: &mut Board<J, R>,
) -> Result<(), Fault> {
    let Coverage {
        stamp,
        persisted,
        longs,
    } = board.last();
    if stamp >= MOST_BATCHES || persisted >= MOST_BATCHES {
        return Err(Fault::TimestampsOut);
    }
    let Ok(commits) = update(alloc, persisted + 1, Row::new(&stamp.to_be_bytes())?) else {
        return Err(Fault::OutOfMemory);
    };
    let batch = Batch::new(stamp, stamp + 1, persisted + 1, longs, commits);
    if !board.fits(&batch) {
        return Err(Fault::WrongState);
    }
    board.publish(batch).map_err(|refused| refused.0)?;
    let last = board.token().stamp();
    board.prune(last.saturating_sub(KEPT))
}

// A commit that updates one row. All rows come in turn.
fn update(alloc: Global, timestamp: u64, row: Row) -> Result<Vec<Commit>, AllocError> {
    let key = Key {
        table: 1,
        key: timestamp % KEYS,
    };
    let writes = SmallVec::from_slice(alloc, &[(key, Some(row))])?;
    Ok(Vec::from_array(alloc, [Commit::new(timestamp, writes)])?)
}

// Makes this many reads. Returns how many rows were found.
fn read_many<J: Naming>(reader: Reader<J>, reads: u64, done: &AtomicU64) -> u64
    ensures { result ≤ reads }
{
    let mut reader = reader;
    let mut answered = 0;
    let mut stamp = 0;
    for read in 0..reads {
        let key = Key {
            table: 1,
            key: read % KEYS * STRIDE % KEYS,
        };
        if let Ok(Some(_)) = read_row(&mut reader, &mut stamp, key) {
            answered += 1;
        }
    }
    done.fetch_add(1, Ordering::SeqCst);
    answered
}

// Reads the row at the stamp, or at the last stamp if that one was pruned.
fn read_row<J: Naming>(
    reader: &mut Reader<J>,
    stamp: &mut u64,
    key: Key,
) -> Result<Option<Row>, Fault> {
    for _ in 0..u64::MAX {
        match reader.read(*stamp, key) {
            Err(Fault::TooOld) => (_, *stamp) = reader.at()?,
            answer => return answer,
        }
    }
    Err(Fault::TooOld)
}
