ghost use Rattle.std.specs.Prelude.{◌≡◌, IfOk};
ghost use Rattle.pmem.specs.Words.{IsAtRest, image_of};
ghost use Rattle.engine.specs.Origins.{IsFrom};
ghost use Rattle.pmem_model.specs.Sim.{device_of};

use audited::Audited;
use base::fault::Fault;
use base::geometry::Geometry;
use base::key::Key;
use base::row::Row;
use base::step::Note;
use board::History;
use engine::{Board, Engine, Gate, Go, Origin, Session};
use pmem::Pmem;
use pmem_model::SimPmem;
use recovery::format;
use std::alloc::Global;
use std::sync::Wait;
use std::thread::{Threads, yield_now};

/// What took memory, or the fault that there was none.
pub fn granted<T, E: Drop>(made: Result<T, E>) -> Result<T, Fault> {
    match made {
        Ok(made) => Ok(made),
        Err(_) => Err(Fault::OutOfMemory),
    }
}

/// Stops its worker before the first tick.
#[derive(Drop)]
pub struct Never;

impl Gate for Never {
    fn pass(&mut self, _after: &Note) -> Go {
        Go::Stop
    }
}

/// Never stops its worker, which yields when it found nothing to do.
#[derive(Drop)]
pub struct Always;

impl Gate for Always {
    fn pass(&mut self, after: &Note) -> Go {
        if matches!(after, Note::Idle | Note::SweepEnd) {
            yield_now();
        }
        Go::Tick
    }
}

/// A key of the one table of these tests.
pub fn key(number: u64) -> Key {
    Key {
        table: 1,
        key: number,
    }
}

/// A row that holds a number.
pub fn row(number: u64) -> Result<Row, Fault> {
    Row::new(&number.to_be_bytes())
}

/// The number that the row holds: 0 if there is no row.
pub fn number_in(row: Option<Row>) -> Result<u64, Fault> {
    let Some(row) = row else {
        return Ok(0);
    };
    match <[u8; 8]>::try_from(row.as_bytes()) {
        Ok(bytes) => Ok(u64::from_be_bytes(bytes)),
        Err(_) => Err(Fault::TooLong),
    }
}

/// The device, if it is at rest.
pub fn at_rest(device: SimPmem) -> Result<SimPmem, Fault>
    ensures { IfOk result (λ device. IsAtRest (device_of device)) }
{
    if device.at_rest() {
        Ok(device)
    } else {
        Err(Fault::Failed)
    }
}

/// A device with this many slots, 2 places and this window, formatted and restarted.
pub fn fresh(alloc: Global, slots: u64, window: u64) -> Result<SimPmem, Fault>
    ensures { IfOk result (λ device. IsAtRest (device_of device)) }
{
    let device = formatted(alloc, Geometry::new(slots, 2, window)?)?;
    restarted(alloc, &device)
}

// A device of this geometry that was formatted.
fn formatted(alloc: Global, geometry: Geometry) -> Result<SimPmem, Fault> {
    let Ok(zeros) = vec![in alloc; 0; geometry.words() as usize] else {
        return Err(Fault::OutOfMemory);
    };
    let mut device = SimPmem::from_words(alloc, &zeros)?;
    format(&mut device, geometry)?;
    Ok(device)
}

/// A device at rest with the words of this one.
pub fn restarted(alloc: Global, device: &SimPmem) -> Result<SimPmem, Fault>
    ensures { IfOk result (λ device. IsAtRest (device_of device)) }
{
    at_rest(SimPmem::from_words(alloc, &device.image()?)?)
}

/// The device, opened.
pub fn opened<D: Pmem + Drop + Send + Sync, R: Threads + Sync>(
    rt: &R,
    alloc: Global,
    device: D,
) -> Result<Audited<D>, Fault>
    requires { IsAtRest (D.state device) }
    ensures { IfOk result (IsFrom D.state (image_of (D.state device))) }
{
    match Audited::open(rt, alloc, device) {
        Ok(audited) => Ok(audited),
        Err((fault, _device)) => Err(fault),
    }
}

/// The room, lent to an engine.
fn started<
    D: Pmem + Drop + Send + Sync + 'static,
    J: Origin + Send + Sync + 'static,
    R: Threads + Wait + Copy + Drop + Send + Sync + 'static,
    G: Gate + Send + Drop + 'static,
    H: Gate + Send + Drop + 'static,
>(
    rt: &R,
    alloc: Global,
    history: History,
    audited: Audited<D>,
    committer: G,
    collector: H,
) -> Result<Engine<D, J, Board<J, R>>, Fault>
    requires name { history ≡ J.book }
    requires from { IsFrom D.state J.image audited }
{
    match Engine::<D, J, Board<J, R>>::start(rt, alloc, history, audited, committer, collector) {
        Ok(engine) => Ok(engine),
        Err((fault, _audited)) => Err(fault),
    }
}

/// An engine over the device, which is opened first.
pub fn running<
    D: Pmem + Drop + Send + Sync + 'static,
    J: Origin + Send + Sync + 'static,
    R: Threads + Wait + Copy + Drop + Send + Sync + 'static,
    G: Gate + Send + Drop + 'static,
    H: Gate + Send + Drop + 'static,
>(
    rt: &R,
    alloc: Global,
    history: History,
    device: D,
    committer: G,
    collector: H,
) -> Result<Engine<D, J, Board<J, R>>, Fault>
    requires name { history ≡ J.book }
    requires image { image_of (D.state device) ≡ J.image }
    requires at_rest { IsAtRest (D.state device) }
{
    let audited = opened(rt, alloc, device)?;
    started::<D, J, R, G, H>(rt, alloc, history, audited, committer, collector)
}

/// The room, returned by an engine whose sessions these are.
pub fn closed<D: Pmem + Drop, J: Origin, B: Drop, R: Threads + Wait>(
    rt: &R,
    engine: Engine<D, J, B>,
    sessions: Vec<Session<D, J, B>>,
) -> Result<Audited<D>, Fault> {
    match engine.close(rt, sessions) {
        Ok(audited) => Ok(audited),
        Err((fault, _engine, _sessions)) => Err(fault),
    }
}

/// The sessions that worked over an engine, and the outcome.
pub type Worked<D, J, B, T> = Result<(Vec<Session<D, J, B>>, T), Fault>;

/// The room, once the engine is closed with the sessions that worked, and the outcome.
pub fn ended<D: Pmem + Drop, J: Origin, B: Drop, T: Drop, R: Threads + Wait>(
    rt: &R,
    engine: Engine<D, J, B>,
    worked: Worked<D, J, B, T>,
) -> Result<(Audited<D>, T), Fault> {
    match worked {
        Ok((sessions, came)) => match closed(rt, engine, sessions) {
            Ok(audited) => Ok((audited, came)),
            Err(fault) => Err(fault),
        },
        Err(fault) => {
            abandon(engine);
            Err(fault)
        }
    }
}

/// Drops an engine that isn't closed: in one place, since each function that drops one itself is long to prove.
pub fn abandon<D: Pmem + Drop, J: Origin, B: Drop>(_engine: Engine<D, J, B>) {}

/// Drops a room.
pub fn leave<D: Pmem + Drop>(_audited: Audited<D>) {}

/// The device of the room, which is closed.
pub fn shut<D: Pmem + Drop>(audited: Audited<D>) -> Result<D, Fault> {
    match audited.into_room().close() {
        Ok(device) => Ok(device),
        Err((fault, _device)) => Err(fault),
    }
}

/// Two sessions.
pub fn two_sessions<D: Pmem + Drop, J: Origin, B: Drop>(
    rt: &impl Wait,
    engine: &Engine<D, J, B>,
) -> Result<(Session<D, J, B>, Session<D, J, B>), Fault> {
    let first = engine.session(rt)?;
    let second = engine.session(rt)?;
    Ok((first, second))
}

/// These sessions as closing takes them.
pub fn gathered<D: Pmem + Drop, J: Origin, B: Drop, const N: usize>(
    alloc: Global,
    sessions: [Session<D, J, B>; N],
) -> Result<Vec<Session<D, J, B>>, Fault> {
    granted(Vec::from_array(alloc, sessions))
}

/// Begins a transaction that puts a row.
pub fn put<D: Pmem + Drop, J: Origin, B: Drop, R: Wait>(
    rt: &R,
    session: &mut Session<D, J, B>,
    number: u64,
    value: u64,
) -> Result<(), Fault> {
    session.begin(rt)?;
    session.put(rt, key(number), row(value)?)
}

/// Puts a row in a transaction of its own, which is committed.
pub fn commit_row<D: Pmem + Drop, J: Origin, B: Drop, R: Wait>(
    rt: &R,
    session: &mut Session<D, J, B>,
    number: u64,
    value: u64,
) -> Result<Option<u64>, Fault> {
    put(rt, session, number, value)?;
    session.commit(rt)
}
