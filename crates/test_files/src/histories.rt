//! Two transactions and the close of a database whose history is kept: what they know of it are beginnings of one log.

use crate::transactions::{KEY, found, fresh, row};
use base::Ts;
use base::fault::Fault;
use database::{Closed, Committed, Database, Front, Origin, Program, run_kept};
use journal::extent_of;
use pmem_file::MemoryStorage;
use std::sync::Wait;
use std::thread::Threads;
use sync_ahead::SyncAhead;

// Commits a row twice, and closes the database.
#[derive(Drop)]
struct Twice;

// What it saw: the timestamps, how long the history was at each begin, at each end and at the close, and whether all are beginnings of
// one history.
type Saw = (Option<Ts>, Option<Ts>, [u64; 5], bool);

impl Program for Twice {
    ghost use Rattle.std.specs.Prelude.{◌≡◌, None, true};
    ghost use Rattle.base.specs.Images.{opening_fault};
    ghost use Rattle.pmem.specs.Words.{IsAtRest, image_of};

    type Answer = Result<Saw, Fault>;

    fn run<
        D: SyncAhead + Drop + Send + Sync,
        R: Threads + Wait + Copy + Drop + Send + Sync,
        J: Origin + Send + Sync,
    >(self, database: Database<D, R, J>) -> Result<Saw, Fault>
        requires kept { J.kept ≡ true }
        requires at_rest { IsAtRest J.opened }
        requires may_open { opening_fault (image_of J.opened) ≡ None }
    {
        let (begun, first, ended) = commit_once(&database, 1)?;
        let (begun_later, second, ended_later) = commit_once(&database, 2)?;
        let closed = close(database)?;
        let is_one = begun.begins(&ended)
            && ended.begins(&begun_later)
            && begun_later.begins(&ended_later)
            && ended_later.begins(&closed);
        let lengths = [
            begun.len(),
            ended.len(),
            begun_later.len(),
            ended_later.len(),
            closed.len(),
        ];
        Ok((first, second, lengths, is_one))
    }
}

// Commits the row, and returns the history up to the begin, the timestamp, and the history up to the end.
fn commit_once<D: SyncAhead + Drop, R: Wait + Drop, J: Origin>(
    database: &Database<D, R, J>,
    number: u8,
) -> Result<(Front<J>, Option<Ts>, Front<J>), Fault> {
    let row = row(number)?;
    let mut transaction = database.begin()?;
    let begun = transaction.begun();
    let put = transaction.put(KEY, row);
    let committed = transaction.commit_known();
    put?;
    let Committed { timestamp, front } = match committed {
        Ok(done) => done,
        Err(refused) => return Err(refused.fault()),
    };
    match (begun, front) {
        (Some(begun), Some(ended)) => Ok((begun, timestamp, ended)),
        _ => Err(Fault::WrongState),
    }
}

// Closes the database, and returns its history.
fn close<D: SyncAhead + Drop, R: Wait + Drop, J: Origin>(
    database: Database<D, R, J>,
) -> Result<Front<J>, Fault> {
    let Closed { device: _, front } = match database.close_known() {
        Ok(closed) => closed,
        Err(refused) => return Err(refused.fault),
    };
    front.ok_or(Fault::WrongState)
}

#[test]
fn two_transactions_are_in_one_history(rt: HostRuntime) -> Result<(), Fault> {
    let alloc = rt.alloc();
    let words = fresh(alloc, 8)?;
    let Some(file) = extent_of(words.as_slice()) else {
        return Err(Fault::BadGeometry);
    };
    let device = found(alloc, MemoryStorage::new(words), file)?;
    let ran = match run_kept(rt, alloc, device, Twice) {
        Ok(ran) => ran,
        Err(refused) => return Err(refused.fault),
    };
    let (first, second, lengths, is_one) = ran?;
    assert!(rt; first == Some(1) && second == Some(2) && is_one);
    // A begin, a put, a draw, a stamp and an end are at least five steps, of which the last four come after the begin.
    assert!(rt; 1 <= lengths[0] && lengths[0].saturating_add(4) <= lengths[1]);
    assert!(rt; lengths[1] < lengths[2] && lengths[2].saturating_add(4) <= lengths[3]);
    assert!(rt; lengths[3] <= lengths[4]);
    Ok(())
}
