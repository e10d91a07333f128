//! While the committer is held within a cycle, after each of its ticks, another session works. While that session is held within
//! an operation of the device, and so has the room's lock, a reader reads. This fails for an engine that makes whole cycles
//! under one lock, has its readers wait for a lock, or reads from another device than it was lent.
ghost use Rattle.std.specs.Prelude.{◌≡◌, IfOk};
ghost use Rattle.pmem.specs.Words.{IsAtRest, image_of};
ghost use Rattle.pmem_model.specs.Sim.{device_of};

use crate::counting::{Counting, SharedSignals, Signals, make_signals};
use crate::fixture::{
    Never, Worked, commit_row, ended, fresh, gathered, granted, key, leave, put, row, running,
    two_sessions,
};
use crate::hold::Holding;
use base::fault::Fault;
use base::row::Row;
use board::{History, Reader};
use engine::{Board, Engine, Origin, Session};
use pmem::Pmem;
use pmem_model::SimPmem;
use std::alloc::Global;
use std::marker::Brand;
use std::process::Abort;
use std::sync::{Arc, Wait};
use std::test::*;
use std::thread::{Threads, join};

/// A cycle of one line has this many ticks, and the last covers.
const TICKS: u64 = 42;

/// What the reader's calls return while the room's lock is held.
#[derive(Clone, Copy, Debug, PartialEq, Eq)]
struct Reading {
    row: Result<Option<Row>, Fault>,
    bounds: Result<(u64, u64), Fault>,
}

/// What calls return while the committer is held.
#[derive(Clone, Copy, Debug, PartialEq, Eq)]
struct Meanwhile {
    own: Result<Option<Row>, Fault>,
    read: Reading,
    made: u64,
}

/// What the second session's and the reader's calls returned, and the first session's commit.
type Answers = (Meanwhile, Result<Option<u64>, Fault>);

/// What the calls of both sessions returned, and how many operations the device had made.
#[derive(Clone, Copy, Debug, PartialEq, Eq)]
struct Seen {
    opened: u64,
    meanwhile: Meanwhile,
    committed: Result<Option<u64>, Fault>,
    made: u64,
    /// A thread was held until its turns were over.
    late: bool,
}

// Puts a row and commits it.
fn commit<D: Pmem + Drop, J: Origin, B: Drop>(
    rt: &impl Wait,
    session: Session<D, J, B>,
    signals: &Signals,
) -> (Session<D, J, B>, Result<Option<u64>, Fault>) {
    let mut session = session;
    let committed = commit_row(rt, &mut session, 7, 1);
    signals.cycle.reach();
    (session, committed)
}

fn put_and_get<D: Pmem + Drop, J: Origin, B: Drop>(
    rt: &impl Wait,
    session: &mut Session<D, J, B>,
) -> Result<Option<Row>, Fault> {
    put(rt, session, 8, 2)?;
    session.get(rt, key(8))
}

// Puts another row, with which the device is held, and reads it.
fn put_held<D: Pmem + Drop, J: Origin, B: Drop>(
    rt: &impl Wait,
    session: Session<D, J, B>,
    signals: &Signals,
) -> (Session<D, J, B>, Result<Option<Row>, Fault>) {
    let mut session = session;
    let own = put_and_get(rt, &mut session);
    signals.operation.reach();
    (session, own)
}

// Reads while the device is held within an operation, and then lets it go on.
fn read_beside<J: Origin>(rt: &impl Wait, reader: Reader<J>, signals: &Signals) -> Reading {
    let mut reader = reader;
    signals.operation.wait(rt);
    let row = reader.read(2, key(7));
    let bounds = reader.at();
    signals.operation.free();
    Reading { row, bounds }
}

// Works in a second transaction and reads, once the committer is held, and then lets it go on.
fn work_meanwhile<
    D: Pmem + Drop + Send + Sync,
    J: Origin + Send + Sync,
    B: Drop + Send,
    R: Threads + Wait + Sync,
>(
    rt: &R,
    session: Session<D, J, B>,
    reader: Reader<J>,
    signals: &Signals,
) -> (Session<D, J, B>, Meanwhile) {
    signals.cycle.wait(rt);
    signals.arm();
    let ((session, own), read) = join(
        rt,
        || put_held(rt, session, signals),
        || read_beside(rt, reader, signals),
    );
    let made = signals.made();
    signals.cycle.free();
    (session, Meanwhile { own, read, made })
}

// A fresh device that counts its operations in this place.
fn counted(alloc: Global, signals: &SharedSignals) -> Result<Counting<SimPmem>, Fault>
    ensures { IfOk result (λ counting. IsAtRest (device_of counting.device)) }
{
    let signals = granted(Arc::try_clone(signals))?;
    Ok(Counting::new(fresh(alloc, 4, 8)?, signals))
}

// Commits a row, and calls a second session and a reader within that commit's cycle.
fn work<
    D: Pmem + Drop + Send + Sync + 'static,
    J: Origin + Send + Sync + 'static,
    R: Threads + Wait + Copy + Drop + Send + Sync + 'static,
>(
    rt: &R,
    alloc: Global,
    engine: &Engine<D, J, Board<J, R>>,
    signals: &Signals,
) -> Worked<D, J, Board<J, R>, Answers> {
    let reader = engine.reader(rt)?;
    let (first, second) = two_sessions(rt, engine)?;
    let ((first, committed), (second, meanwhile)) = join(
        rt,
        || commit(rt, first, signals),
        || work_meanwhile(rt, second, reader, signals),
    );
    Ok((gathered(alloc, [first, second])?, (meanwhile, committed)))
}

// A life of the device in which the committer is held by this.
fn hold<
    D: Pmem + Drop + Send + Sync + 'static,
    J: Origin + Send + Sync + 'static,
    R: Threads + Wait + Copy + Drop + Send + Sync + 'static,
>(
    rt: &R,
    alloc: Global,
    history: History,
    device: D,
    holding: Holding,
    signals: &Signals,
) -> Result<Seen, Fault>
    requires name { history ≡ J.book }
    requires image { image_of (D.state device) ≡ J.image }
    requires at_rest { IsAtRest (D.state device) }
{
    let engine = running::<D, J, R, Holding, Never>(rt, alloc, history, device, holding, Never)?;
    let opened = signals.made();
    let worked = work(rt, alloc, &engine, signals);
    let made = signals.made();
    let (audited, (meanwhile, committed)) = ended(rt, engine, worked)?;
    leave(audited);
    Ok(Seen {
        opened,
        meanwhile,
        committed,
        made,
        late: signals.operation.was_late() || signals.cycle.was_late(),
    })
}

// What is seen while the committer of a fresh device is held after this many ticks.
fn seen_by<R: Threads + Wait + Copy + Drop + Send + Sync + 'static>(
    rt: &R,
    alloc: Global,
    ticks: u64,
    signals: &SharedSignals,
) -> Result<Seen, Fault> {
    let holding = Holding::new(granted(Arc::try_clone(signals))?, ticks);
    let device = counted(alloc, signals)?;
    hold::<_, Brand, R>(rt, alloc, History::new(), device, holding, signals)
}

fn seen_after<R: Threads + Wait + Copy + Drop + Send + Sync + 'static>(
    rt: &R,
    alloc: Global,
    ticks: u64,
) -> Result<Seen, Fault> {
    let signals = make_signals(alloc)?;
    seen_by(rt, alloc, ticks, &signals)
}

// Opening makes 39 operations, a put 10, the stamp one, and each tick but the first makes one.
fn expected(ticks: u64) -> Result<Seen, Fault> {
    Ok(Seen {
        opened: 39,
        meanwhile: Meanwhile {
            own: Ok(Some(row(2)?)),
            read: Reading {
                row: Ok(None),
                bounds: Ok((2, 2)),
            },
            made: ticks.saturating_add(59),
        },
        committed: Ok(Some(1)),
        made: 101,
        late: false,
    })
}

fn assert_seen(rt: &impl Abort, seen: &Seen, expected: &Seen) {
    assert_eq!(rt; *seen, *expected);
}

fn assert_after<R: Threads + Wait + Copy + Drop + Send + Sync + Abort + 'static>(
    rt: &R,
    alloc: Global,
    ticks: u64,
) -> Result<(), Fault> {
    let expected = expected(ticks)?;
    let seen = seen_after(rt, alloc, ticks)?;
    assert_seen(rt, &seen, &expected);
    Ok(())
}

#[test]
fn readers_and_writers_inside_a_cycle(rt: HostRuntime) -> Result<(), Fail> {
    for ticks in 1..TICKS {
        assert_after(&rt, rt.alloc(), ticks)?;
    }
    Ok(())
}
