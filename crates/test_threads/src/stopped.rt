//! A committer that stops at once: sessions draw until the window is full, and closing covers what is drawn. And a collector
//! that is held in the middle of a sweep while a session commits.
ghost use Rattle.std.specs.Prelude.{◌≡◌, IfOk};
ghost use Rattle.pmem.specs.Words.{IsAtRest, image_of};
ghost use Rattle.pmem_model.specs.Sim.{device_of};

use crate::counting::{SharedSignals, Signals, make_signals};
use crate::fixture::{
    Always, Never, Worked, ended, fresh, gathered, granted, key, leave, opened, put, restarted,
    row, running, shut,
};
use crate::hold::Holding;
use audited::Audited;
use base::fault::Fault;
use base::key::Key;
use base::row::Row;
use board::{History, Reader};
use engine::{Board, Engine, Origin, Session};
use pmem::Pmem;
use pmem_model::SimPmem;
use std::alloc::Global;
use std::marker::Brand;
use std::sync::{Arc, Wait};
use std::test::*;
use std::thread::Threads;

/// How many sessions there are, of which the last finds the window full.
const SESSIONS: u64 = 5;

/// What opening finds: the numbers of the ruling record, how many rows there are, and the first one.
#[derive(Clone, Copy, Debug, PartialEq, Eq)]
struct Found {
    gate: u64,
    persisted: u64,
    dirty: u64,
    next: u64,
    rows: usize,
    first: Option<Row>,
}

// Has a session put a row and prepare. Does it draw this timestamp, or find the window full if that is 5?
fn draws<D: Pmem + Drop, J: Origin, B: Drop>(
    rt: &impl Wait,
    session: &mut Session<D, J, B>,
    timestamp: u64,
) -> Result<bool, Fault> {
    put(rt, session, timestamp, timestamp)?;
    Ok(match session.prepare(rt) {
        Ok(drawn) => timestamp < SESSIONS && drawn == Some(timestamp),
        Err(fault) => timestamp == SESSIONS && fault == Fault::WindowFull,
    })
}

// A session that draws in this way.
fn drawn<D: Pmem + Drop, J: Origin, B: Drop>(
    rt: &impl Wait,
    engine: &Engine<D, J, B>,
    timestamp: u64,
) -> Result<Session<D, J, B>, Fault> {
    let mut session = engine.session(rt)?;
    match draws(rt, &mut session, timestamp) {
        Ok(true) => Ok(session),
        Ok(false) => Err(Fault::Failed),
        Err(fault) => Err(fault),
    }
}

// Sessions that draw one after the other, of which none waits for a cover.
fn draw_each<D: Pmem + Drop, J: Origin, B: Drop>(
    rt: &impl Wait,
    alloc: Global,
    engine: &Engine<D, J, B>,
) -> Worked<D, J, B, ()> {
    let mut sessions = Vec::new(alloc);
    for timestamp in 1..SESSIONS + 1 {
        granted(sessions.push(drawn(rt, engine, timestamp)?))?;
    }
    Ok((sessions, ()))
}

// The device, closed after a life in which nothing was covered before.
fn draw_and_close<
    D: Pmem + Drop + Send + Sync + 'static,
    J: Origin + Send + Sync + 'static,
    R: Threads + Wait + Copy + Drop + Send + Sync + 'static,
>(rt: &R, alloc: Global, history: History, device: D) -> Result<D, Fault>
    requires name { history ≡ J.book }
    requires image { image_of (D.state device) ≡ J.image }
    requires at_rest { IsAtRest (D.state device) }
{
    let engine = running::<D, J, R, Never, Never>(rt, alloc, history, device, Never, Never)?;
    let worked = draw_each(rt, alloc, &engine);
    let (audited, ()) = ended(rt, engine, worked)?;
    shut(audited)
}

fn shown<D: Pmem + Drop>(audited: &Audited<D>) -> Result<Found, Fault> {
    let rows = audited.tables()?;
    let opening = audited.opening();
    Ok(Found {
        gate: opening.gate,
        persisted: opening.persisted,
        dirty: opening.dirty,
        next: opening.next,
        rows: rows.len(),
        first: first_of(&rows),
    })
}

fn first_of(rows: &[(Key, Row)]) -> Option<Row> {
    match rows.first() {
        Some((_, row)) => Some(*row),
        None => None,
    }
}

// What opening the device finds.
fn found_in<D: Pmem + Drop + Send + Sync, R: Threads + Sync>(
    rt: &R,
    alloc: Global,
    device: D,
) -> Result<Found, Fault>
    requires { IsAtRest (D.state device) }
{
    let audited = opened(rt, alloc, device)?;
    let found = shown(&audited);
    leave(audited);
    found
}

// What opening finds in what is left of the device.
fn open_again<R: Threads + Sync>(rt: &R, alloc: Global, device: &SimPmem) -> Result<Found, Fault> {
    found_in(rt, alloc, restarted(alloc, device)?)
}

// What opening finds after a life in which sessions of a fresh device drew and closing covered that.
fn found_drawn<R: Threads + Wait + Copy + Drop + Send + Sync + 'static>(
    rt: &R,
    alloc: Global,
) -> Result<Found, Fault> {
    let device = draw_and_close::<_, Brand, R>(rt, alloc, History::new(), fresh(alloc, 8, 4)?)?;
    open_again(rt, alloc, &device)
}

#[test]
fn a_close_covers_what_no_committer_does(rt: HostRuntime) -> Result<(), Fail> {
    let found = found_drawn(&rt, rt.alloc())?;
    // Closing wrote record 3, with 4 and 5, and opening adds the window.
    let covered = Found {
        gate: 4,
        persisted: 4,
        dirty: 9,
        next: 5,
        rows: 4,
        first: Some(row(1)?),
    };
    assert_eq!(rt; found, covered);
    Ok(())
}

// The device after a life that only opens it, and ends without closing.
fn left_open<D: Pmem + Drop + Send + Sync, R: Threads + Sync>(
    rt: &R,
    alloc: Global,
    device: D,
) -> Result<D, Fault>
    requires { IsAtRest (D.state device) }
{
    let audited = opened(rt, alloc, device)?;
    Ok(audited.into_room().into_device())
}

// A fresh device whose first life ended without closing, so that its next one has a gap.
fn with_gap<R: Threads + Sync>(rt: &R, alloc: Global) -> Result<SimPmem, Fault>
    ensures { IfOk result (λ device. IsAtRest (device_of device)) }
{
    let device = left_open(rt, alloc, fresh(alloc, 4, 8)?)?;
    restarted(alloc, &device)
}

/// What calls return while the collector is held.
#[derive(Clone, Copy, Debug, PartialEq, Eq)]
struct Meanwhile {
    bounds: Result<(u64, u64), Fault>,
    before: Result<Option<Row>, Fault>,
    committed: Option<u64>,
}

/// The same, whether the collector was held until its turns were over, and the rows that opening then finds.
#[derive(Clone, Copy, Debug, PartialEq, Eq)]
struct Held {
    meanwhile: Meanwhile,
    late: bool,
    rows: usize,
    first: Option<Row>,
}

// Reads, and commits a row.
fn read_and_commit<D: Pmem + Drop, J: Origin, B: Drop>(
    rt: &impl Wait,
    session: &mut Session<D, J, B>,
    reader: &mut Reader<J>,
) -> Result<Meanwhile, Fault> {
    let bounds = reader.at();
    let before = reader.read(3, key(7));
    put(rt, session, 7, 1)?;
    Ok(Meanwhile {
        bounds,
        before,
        committed: session.commit(rt)?,
    })
}

// Does that while the collector is held, and then lets it go on.
fn work_meanwhile<D: Pmem + Drop, J: Origin, B: Drop>(
    rt: &impl Wait,
    session: &mut Session<D, J, B>,
    reader: Reader<J>,
    signals: &Signals,
) -> Result<Meanwhile, Fault> {
    let mut reader = reader;
    signals.cycle.wait(rt);
    let meanwhile = read_and_commit(rt, session, &mut reader);
    signals.cycle.free();
    meanwhile
}

// The same for a session and a reader of this engine.
fn work<D: Pmem + Drop, J: Origin, B: Drop>(
    rt: &impl Wait,
    alloc: Global,
    engine: &Engine<D, J, B>,
    signals: &Signals,
) -> Worked<D, J, B, Result<Meanwhile, Fault>> {
    let mut session = engine.session(rt)?;
    let reader = engine.reader(rt)?;
    let meanwhile = work_meanwhile(rt, &mut session, reader, signals);
    Ok((gathered(alloc, [session])?, meanwhile))
}

// A life in which the collector is held by this, and the device, closed.
fn hold_collector<
    D: Pmem + Drop + Send + Sync + 'static,
    J: Origin + Send + Sync + 'static,
    R: Threads + Wait + Copy + Drop + Send + Sync + 'static,
>(
    rt: &R,
    alloc: Global,
    history: History,
    device: D,
    holding: Holding,
    signals: &Signals,
) -> Result<(D, Result<Meanwhile, Fault>), Fault>
    requires name { history ≡ J.book }
    requires image { image_of (D.state device) ≡ J.image }
    requires at_rest { IsAtRest (D.state device) }
{
    let engine = running::<D, J, R, Always, Holding>(rt, alloc, history, device, Always, holding)?;
    let worked = work(rt, alloc, &engine, signals);
    let (audited, meanwhile) = ended(rt, engine, worked)?;
    Ok((shut(audited)?, meanwhile))
}

// The same for a device with a gap, and after this many visits.
fn hold_after<R: Threads + Wait + Copy + Drop + Send + Sync + 'static>(
    rt: &R,
    alloc: Global,
    visits: u64,
    signals: &SharedSignals,
) -> Result<(SimPmem, Result<Meanwhile, Fault>), Fault> {
    let holding = Holding::new(granted(Arc::try_clone(signals))?, visits);
    let device = with_gap(rt, alloc)?;
    hold_collector::<_, Brand, R>(rt, alloc, History::new(), device, holding, signals)
}

fn held_of(
    meanwhile: Result<Meanwhile, Fault>,
    late: bool,
    found: Result<Found, Fault>,
) -> Result<Held, Fault> {
    let found = found?;
    Ok(Held {
        meanwhile: meanwhile?,
        late,
        rows: found.rows,
        first: found.first,
    })
}

// What is seen of such a life, and when the device is opened after it.
fn held_by<R: Threads + Wait + Copy + Drop + Send + Sync + 'static>(
    rt: &R,
    alloc: Global,
    visits: u64,
    signals: &SharedSignals,
) -> Result<Held, Fault> {
    let (device, meanwhile) = hold_after(rt, alloc, visits, signals)?;
    let found = open_again(rt, alloc, &device);
    held_of(meanwhile, signals.cycle.was_late(), found)
}

fn held_after<R: Threads + Wait + Copy + Drop + Send + Sync + 'static>(
    rt: &R,
    alloc: Global,
    visits: u64,
) -> Result<Held, Fault> {
    let signals = make_signals(alloc)?;
    held_by(rt, alloc, visits, &signals)
}

#[test]
fn a_commit_inside_a_sweep(rt: HostRuntime) -> Result<(), Fail> {
    let committed = Held {
        meanwhile: Meanwhile {
            bounds: Ok((3, 3)),
            before: Ok(None),
            committed: Some(9),
        },
        late: false,
        rows: 1,
        first: Some(row(1)?),
    };
    for visits in 1..5 {
        assert_eq!(rt; held_after(&rt, rt.alloc(), visits)?, committed);
    }
    Ok(())
}
