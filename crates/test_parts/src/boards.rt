//! What readers of a board return once they learn a token, also while a writer runs.
ghost use Rattle.std.specs.Prelude.{◌≡◌};

use base::Ts;
use base::batch::{Batch, Commit};
use base::fault::Fault;
use base::key::Key;
use base::longs::Longs;
use base::row::Row;
use board::{Board, Coverage, History, Naming, Reader, Token};
use smallvec::SmallVec;
use std::alloc::{AllocError, Global};
use std::marker::Brand;
use std::sync::atomic::{AtomicBool, Ordering};
use std::sync::{Mutex, Wait};
use std::test::*;
use std::thread::{Threads, join, map_vec, yield_now};

type Answer = Result<Option<Row>, Fault>;

const KEY: Key = Key { table: 1, key: 7 };

// Commits with these timestamps, each of which writes the row under the key.
fn commits(alloc: Global, timestamps: &[Ts], row: Row) -> Result<Vec<Commit>, AllocError> {
    let mut commits = Vec::new(alloc);
    for timestamp in timestamps {
        let writes = SmallVec::from_slice(alloc, &[(KEY, Some(row))])?;
        commits.push(Commit::new(*timestamp, writes))?;
    }
    Ok(commits)
}

// Publishes one more commit.
fn add<J: Naming, R: Wait + Drop>(
    alloc: Global,
    board: &mut Board<J, R>,
    row: Row,
) -> Result<(), Fault> {
    let Coverage {
        stamp,
        persisted,
        longs,
    } = board.last();
    if stamp > 10000 || persisted > 10000 {
        return Err(Fault::TimestampsOut);
    }
    let Ok(commits) = commits(alloc, &[persisted + 1], row) else {
        return Err(Fault::OutOfMemory);
    };
    let batch = Batch::new(stamp, stamp + 1, persisted + 1, longs, commits);
    publish(board, batch)
}

// Publishes the batch, which follows what is published.
fn publish<J: Naming, R: Wait + Drop>(board: &mut Board<J, R>, batch: Batch) -> Result<(), Fault> {
    if !board.fits(&batch) {
        return Err(Fault::WrongState);
    }
    match board.publish(batch) {
        Ok(()) => Ok(()),
        Err((fault, _batch)) => Err(fault),
    }
}

fn covered_at(stamp: u64, persisted: Ts, longs: Longs) -> Coverage {
    Coverage {
        stamp,
        persisted,
        longs,
    }
}

// Stamp 2 covers no commit.
fn at_two() -> Coverage {
    covered_at(2, 0, Longs::none())
}

// A board that begins at stamp 2 with no row, and its one reader.
fn opened<'r, J: Naming, R: Wait>(
    rt: &'r R,
    alloc: Global,
    history: History,
) -> Result<(Board<J, &'r R>, Reader<J>), Fault>
    requires { history ≡ J.book }
{
    let (board, mut readers) = Board::<J, &R>::open(rt, alloc, history, at_two(), &[], 1)?;
    Ok((board, readers.swap_remove(0)))
}

fn answers<J: Naming>(reader: &mut Reader<J>) -> [Answer; 4] {
    [
        reader.read(3, KEY),
        reader.read(2, KEY),
        reader.read(1, KEY),
        reader.read(4, KEY),
    ]
}

#[derive(Drop)]
struct OneCommit {
    stamp: u64,
    covers: (bool, bool),
    before: [Answer; 4],
    after: [Answer; 4],
}

// Publishes a commit. What a reader that learns a token returns before and after a prune.
fn commit_and_prune<J: Naming, R: Wait + Drop>(
    alloc: Global,
    board: &mut Board<J, R>,
    reader: &mut Reader<J>,
) -> Result<OneCommit, Fault> {
    add(alloc, board, Row::new(&[1])?)?;
    let token = board.token();
    reader.learn(board.token());
    let before = answers(reader);
    board.prune(token.stamp())?;
    reader.learn(board.token());
    Ok(OneCommit {
        stamp: token.stamp(),
        covers: (token.covers(1), token.covers(2)),
        before,
        after: answers(reader),
    })
}

// The same for a board that is opened for it.
fn one_commit<J: Naming, R: Wait>(
    rt: &R,
    alloc: Global,
    history: History,
) -> Result<OneCommit, Fault>
    requires { history ≡ J.book }
{
    let (mut board, mut reader) = opened::<J, R>(rt, alloc, history)?;
    commit_and_prune(alloc, &mut board, &mut reader)
}

#[test]
fn board_reads(rt: HostRuntime) -> Result<(), Fail> {
    let seen = one_commit::<Brand, _>(&rt, rt.alloc(), History::new())?;
    let row = Row::new(&[1])?;
    assert_eq!(rt; seen.stamp, 3);
    assert_eq!(rt; seen.covers, (true, false));
    assert_eq!(rt;
        seen.before,
        [
            Ok(Some(row)),
            Ok(None),
            Err(Fault::TooOld),
            Err(Fault::NotYet),
        ]
    );
    assert_eq!(rt;
        seen.after,
        [
            Ok(Some(row)),
            Err(Fault::TooOld),
            Err(Fault::TooOld),
            Err(Fault::NotYet),
        ]
    );
    Ok(())
}

type Covered = (bool, bool, bool);

// Whether what is published covers commits 5, 6 and 7.
fn covered<J: Naming, R: Wait + Drop>(board: &Board<J, R>) -> Covered {
    let token = board.token();
    (token.covers(5), token.covers(6), token.covers(7))
}

// The long commit 5.
fn five() -> Longs {
    let mut longs = Longs::none();
    longs.push(5);
    longs
}

// Publishes a batch that persists up to 7, with these long commits and the commits of these timestamps.
fn add_to_seven<J: Naming, R: Wait + Drop>(
    alloc: Global,
    board: &mut Board<J, R>,
    stamp: u64,
    longs: Longs,
    timestamps: &[Ts],
) -> Result<(), Fault> {
    let Ok(commits) = commits(alloc, timestamps, Row::new(&[1])?) else {
        return Err(Fault::OutOfMemory);
    };
    publish(
        board,
        Batch::new(stamp, stamp.saturating_add(1), 7, longs, commits),
    )
}

// What is covered while commit 5 is long, the result of a batch without it, and what is covered once commit 5 is covered
// too.
type LongCommit = (Covered, Result<(), Fault>, Covered);

// The same for a board on which 5 is long.
fn cover_five<J: Naming, R: Wait + Drop>(
    alloc: Global,
    board: &mut Board<J, R>,
) -> Result<LongCommit, Fault> {
    let before = covered(board);
    let nothing = add_to_seven(alloc, board, 6, Longs::none(), &[]);
    add_to_seven(alloc, board, 6, Longs::none(), &[5])?;
    Ok((before, nothing, covered(board)))
}

// The same for a board that publishes 5 as long, or begins with it.
fn long_commit<J: Naming, R: Wait>(
    rt: &R,
    alloc: Global,
    history: History,
    begun: bool,
) -> Result<LongCommit, Fault>
    requires { history ≡ J.book }
{
    let first = if begun {
        covered_at(6, 7, five())
    } else {
        covered_at(5, 4, Longs::none())
    };
    let (mut board, _readers) = Board::<J, &R>::open(rt, alloc, history, first, &[], 1)?;
    if !begun {
        add_to_seven(alloc, &mut board, 5, five(), &[6, 7])?;
    }
    cover_five(alloc, &mut board)
}

#[test]
fn long_commits_are_covered_later(rt: HostRuntime) -> Result<(), Fail> {
    let seen = long_commit::<Brand, _>(&rt, rt.alloc(), History::new(), false)?;
    assert_eq!(rt;
        seen,
        (
            (false, true, true),
            Err(Fault::WrongState),
            (true, true, true)
        )
    );
    let seen = long_commit::<Brand, _>(&rt, rt.alloc(), History::new(), true)?;
    assert_eq!(rt;
        seen,
        (
            (false, true, true),
            Err(Fault::WrongState),
            (true, true, true)
        )
    );
    Ok(())
}

// The row that the commit of a stamp writes.
fn row_of(stamp: u64) -> Result<Row, Fault> {
    Row::new(&stamp.to_be_bytes())
}

// Publishes this many commits, and keeps sixteen stamps readable.
fn add_many<J: Naming, R: Wait + Drop>(
    alloc: Global,
    board: &mut Board<J, R>,
    count: u64,
) -> Result<(), Fault> {
    for _ in 0..count {
        let stamp = board.last().stamp;
        add(alloc, board, row_of(stamp.saturating_add(1))?)?;
        let stamp = board.token().stamp();
        board.prune(stamp.saturating_sub(15))?;
    }
    Ok(())
}

type Bounds = Result<(u64, u64), Fault>;

// What a reader that learns the last of twenty commits returns.
fn twenty_commits<J: Naming, R: Wait>(
    rt: &R,
    alloc: Global,
    history: History,
) -> Result<(Bounds, [Answer; 4]), Fault>
    requires { history ≡ J.book }
{
    let (mut board, mut reader) = opened::<J, R>(rt, alloc, history)?;
    add_many(alloc, &mut board, 20)?;
    reader.learn(board.token());
    let bounds = reader.at();
    let rows = [
        reader.read(6, KEY),
        reader.read(23, KEY),
        reader.read(7, KEY),
        reader.read(22, KEY),
    ];
    Ok((bounds, rows))
}

#[test]
fn sixteen_stamps_stay_readable(rt: HostRuntime) -> Result<(), Fail> {
    let (bounds, rows) = twenty_commits::<Brand, _>(&rt, rt.alloc(), History::new())?;
    assert_eq!(rt; bounds, Ok((7, 22)));
    let (low, last) = (row_of(7)?, row_of(22)?);
    assert_eq!(rt;
        rows,
        [
            Err(Fault::TooOld),
            Err(Fault::NotYet),
            Ok(Some(low)),
            Ok(Some(last)),
        ]
    );
    Ok(())
}

// One thread publishes a commit and hands its token to another, which learns it and reads the commit. Then the board ends.
fn read_across<J: Naming + Send + Sync, R: Threads + Wait + Sync>(
    rt: &R,
    alloc: Global,
    history: History,
) -> Result<(Answer, Answer), Fault>
    requires { history ≡ J.book }
{
    let (board, reader) = opened::<J, R>(rt, alloc, history)?;
    let desk = Mutex::new(None);
    let (board, (mut reader, answer)) = join(
        rt,
        || post(rt, alloc, board, &desk),
        || learn(rt, reader, &desk),
    );
    drop(board);
    Ok((answer, reader.read(3, KEY)))
}

// What one thread leaves there for another.
type Desk<J> = Mutex<Option<Result<Token<J>, Fault>>>;

// Publishes a commit, and returns its token.
fn published<J: Naming, R: Wait + Drop>(
    alloc: Global,
    board: &mut Board<J, R>,
) -> Result<Token<J>, Fault> {
    add(alloc, board, Row::new(&[9])?)?;
    Ok(board.token())
}

// Publishes a commit, and leaves a token on the desk.
fn post<J: Naming, R: Wait + Drop>(
    rt: &impl Wait,
    alloc: Global,
    board: Board<J, R>,
    desk: &Desk<J>,
) -> Board<J, R> {
    let mut board = board;
    let token = published(alloc, &mut board);
    *desk.lock(rt) = Some(token);
    board
}

// Waits for the token on the desk, and reads at its stamp.
fn learn<J: Naming>(rt: &impl Wait, reader: Reader<J>, desk: &Desk<J>) -> (Reader<J>, Answer) {
    let mut reader = reader;
    for _ in rt.forever() {
        match desk.lock(rt).take() {
            Some(Ok(token)) => {
                let stamp = token.stamp();
                reader.learn(token);
                let answer = reader.read(stamp, KEY);
                return (reader, answer);
            }
            Some(Err(fault)) => return (reader, Err(fault)),
            None => yield_now(),
        }
    }
    unreachable!()
}

#[test]
fn another_thread_reads_a_told_commit(rt: HostRuntime) -> Result<(), Fail> {
    let (answer, ended) = read_across::<Brand, _>(&rt, rt.alloc(), History::new())?;
    let row = Row::new(&[9])?;
    assert_eq!(rt; answer, Ok(Some(row)));
    assert_eq!(rt; ended, Err(Fault::Shut));
    Ok(())
}

const STAMPS: u64 = 400;

// What a reader saw while a writer ran.
#[derive(Clone, Copy)]
struct Watched {
    // Reads that returned Shut, a row of another stamp, or an earlier row.
    wrong: u64,
    last: u64,
}

// Publishes many commits while seven readers read. Then the board ends.
fn busy<J: Naming + Send + Sync, R: Threads + Wait + Sync>(
    rt: &R,
    alloc: Global,
    history: History,
) -> Result<(Result<(), Fault>, Vec<Watched>), Fault>
    requires { history ≡ J.book }
{
    let (board, readers) = Board::<J, &R>::open(rt, alloc, history, at_two(), &[], 7)?;
    let over = AtomicBool::new(false);
    let ((board, added), watched) = join(
        rt,
        || write(alloc, board, &over),
        || map_vec(rt, readers, &|reader| watch(reader, &over)),
    );
    drop(board);
    let watched = watched.map_err(|_| Fault::OutOfMemory)?;
    Ok((added, watched))
}

fn write<J: Naming, R: Wait + Drop>(
    alloc: Global,
    board: Board<J, R>,
    over: &AtomicBool,
) -> (Board<J, R>, Result<(), Fault>) {
    let mut board = board;
    let added = add_many(alloc, &mut board, STAMPS);
    over.store(true, Ordering::SeqCst);
    (board, added)
}

// Reads the last row over and over until the writer is done.
fn watch<J: Naming>(reader: Reader<J>, over: &AtomicBool) -> Watched {
    let mut reader = reader;
    let mut seen = Watched { wrong: 0, last: 0 };
    for _ in 0..u64::MAX {
        let done = over.load(Ordering::SeqCst);
        match reader.at() {
            Ok((_, last)) if last >= seen.last => {
                seen.last = last;
                if !is_row_of(last, reader.read(last, KEY)) {
                    seen.wrong = seen.wrong.saturating_add(1);
                }
            }
            _ => seen.wrong = seen.wrong.saturating_add(1),
        }
        if done {
            break;
        }
    }
    seen
}

// Whether it is the row that the commit of this stamp wrote, or the stamp is pruned by now.
fn is_row_of(stamp: u64, answer: Answer) -> bool {
    match answer {
        Ok(None) => stamp == 2,
        Ok(Some(row)) => row_of(stamp) == Ok(row),
        Err(fault) => fault == Fault::TooOld,
    }
}

#[test]
fn readers_beside_a_running_writer(rt: HostRuntime) -> Result<(), Fail> {
    let (added, watched) = busy::<Brand, _>(&rt, rt.alloc(), History::new())?;
    assert_eq!(rt; added, Ok(()));
    for seen in &watched {
        assert_eq!(rt; seen.wrong, 0);
        assert_eq!(rt; seen.last, 402);
    }
    Ok(())
}
