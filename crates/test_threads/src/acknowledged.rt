//! One thread commits twenty times and hands a token of the last commit to another, whose reader learns it and reads. The
//! committer pruned meanwhile: the last sixteen stamps may be read.
ghost use Rattle.std.specs.Prelude.{◌≡◌};
ghost use Rattle.pmem.specs.Words.{IsAtRest, image_of};

use crate::fixture::{
    Always, Never, Worked, commit_row, ended, fresh, gathered, key, leave, row, running,
};
use base::fault::Fault;
use base::row::Row;
use board::{History, Reader, Token};
use engine::{Board, Engine, Origin, Session};
use pmem::Pmem;
use std::alloc::Global;
use std::marker::Brand;
use std::sync::{Mutex, Wait};
use std::test::*;
use std::thread::{Threads, join, yield_now};

/// How many numbers are committed, one after the other under one key.
const COMMITS: u64 = 20;

type Answer = Result<Option<Row>, Fault>;

/// What the reader's calls return.
#[derive(Clone, Copy, Debug, PartialEq, Eq)]
struct Reading {
    bounds: Result<(u64, u64), Fault>,
    below: Answer,
    lowest: Answer,
    last: Answer,
    above: Answer,
}

// What one thread leaves there for another.
type Desk<J> = Mutex<Option<Result<Token<J>, Fault>>>;

// Commits one number after the other. The timestamp of the last.
fn commit_each<D: Pmem + Drop, J: Origin, B: Drop>(
    rt: &impl Wait,
    session: &mut Session<D, J, B>,
) -> Result<u64, Fault> {
    let mut last = 0;
    for number in 1..COMMITS + 1 {
        last = commit_row(rt, session, 7, number)?.ok_or(Fault::Failed)?;
    }
    Ok(last)
}

// Commits, and asks for tokens until one covers the last commit.
fn commit<D: Pmem + Drop, J: Origin, R: Wait + Drop>(
    rt: &impl Wait,
    session: &mut Session<D, J, Board<J, R>>,
) -> Result<Token<J>, Fault> {
    let timestamp = commit_each(rt, session)?;
    for _ in rt.forever() {
        let token = session.token(rt);
        if token.covers(timestamp) {
            return Ok(token);
        }
        yield_now();
    }
    unreachable!()
}

// Commits, and leaves a token that covers the last commit on the desk.
fn hand_over<D: Pmem + Drop, J: Origin, R: Wait + Drop>(
    rt: &impl Wait,
    session: Session<D, J, Board<J, R>>,
    desk: &Desk<J>,
) -> Session<D, J, Board<J, R>> {
    let mut session = session;
    let token = commit(rt, &mut session);
    *desk.lock(rt) = Some(token);
    session
}

// Waits for what is left on the desk.
fn taken<J: Origin>(rt: &impl Wait, desk: &Desk<J>) -> Result<Token<J>, Fault> {
    for _ in rt.forever() {
        match desk.lock(rt).take() {
            Some(token) => return token,
            None => yield_now(),
        }
    }
    unreachable!()
}

// Learns the token that is left on the desk, and reads.
fn learn<J: Origin>(rt: &impl Wait, reader: Reader<J>, desk: &Desk<J>) -> Result<Reading, Fault> {
    let mut reader = reader;
    match taken(rt, desk) {
        Ok(token) => {
            reader.learn(token);
            Ok(read_around(&mut reader))
        }
        Err(fault) => Err(fault),
    }
}

// Reads at the lowest and the last stamp, and just outside them.
fn read_around<J: Origin>(reader: &mut Reader<J>) -> Reading {
    Reading {
        bounds: reader.at(),
        below: reader.read(6, key(7)),
        lowest: reader.read(7, key(7)),
        last: reader.read(22, key(7)),
        above: reader.read(23, key(7)),
    }
}

// A session of this engine commits in one thread, and a reader learns of that in another.
fn work<
    D: Pmem + Drop + Send + Sync + 'static,
    J: Origin + Send + Sync + 'static,
    R: Threads + Wait + Copy + Drop + Send + Sync + 'static,
>(
    rt: &R,
    alloc: Global,
    engine: &Engine<D, J, Board<J, R>>,
) -> Worked<D, J, Board<J, R>, Result<Reading, Fault>> {
    let reader = engine.reader(rt)?;
    let session = engine.session(rt)?;
    let desk = Mutex::new(None);
    let (session, reading) = join(
        rt,
        || hand_over(rt, session, &desk),
        || learn(rt, reader, &desk),
    );
    Ok((gathered(alloc, [session])?, reading))
}

// What the reader reads in a life of the device.
fn live<
    D: Pmem + Drop + Send + Sync + 'static,
    J: Origin + Send + Sync + 'static,
    R: Threads + Wait + Copy + Drop + Send + Sync + 'static,
>(rt: &R, alloc: Global, history: History, device: D) -> Result<Reading, Fault>
    requires name { history ≡ J.book }
    requires image { image_of (D.state device) ≡ J.image }
    requires at_rest { IsAtRest (D.state device) }
{
    let engine = running::<D, J, R, Always, Never>(rt, alloc, history, device, Always, Never)?;
    let worked = work(rt, alloc, &engine);
    let (audited, reading) = ended(rt, engine, worked)?;
    leave(audited);
    reading
}

// The same of a fresh device.
fn read_fresh<R: Threads + Wait + Copy + Drop + Send + Sync + 'static>(
    rt: &R,
    alloc: Global,
) -> Result<Reading, Fault> {
    live::<_, Brand, R>(rt, alloc, History::new(), fresh(alloc, 32, 8)?)
}

// The opening wrote record 2, and each commit has a record of its own. At the last, 22, the committer prunes to 7.
#[test]
fn another_thread_reads_told_commits(rt: HostRuntime) -> Result<(), Fail> {
    let read = Reading {
        bounds: Ok((7, 22)),
        below: Err(Fault::TooOld),
        lowest: Ok(Some(row(5)?)),
        last: Ok(Some(row(20)?)),
        above: Err(Fault::NotYet),
    };
    assert_eq!(rt; read_fresh(&rt, rt.alloc())?, read);
    Ok(())
}
