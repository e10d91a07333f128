//! Sessions on as many threads as there are cores add to three numbers, so that they conflict, and a second life goes on from
//! there. The rows hold exactly what was acknowledged.
ghost use Rattle.std.specs.Prelude.{◌≡◌};
ghost use Rattle.pmem.specs.Words.{IsAtRest, image_of};
ghost use Rattle.pmem_model.specs.Sim.{device_of};

use crate::fixture::{
    Always, Worked, ended, fresh, granted, key, number_in, restarted, row, running, shut,
};
use audited::Audited;
use base::fault::Fault;
use base::key::Key;
use base::row::Row;
use board::History;
use engine::{Board, Engine, Origin, Session};
use pmem::Pmem;
use pmem_model::SimPmem;
use std::alloc::Global;
use std::marker::Brand;
use std::sync::Wait;
use std::test::*;
use std::thread::{Threads, available_parallelism, map_vec, yield_now};

/// How many commits each thread makes at most for each number.
const COMMITS: u64 = 20;

/// How often it tries one at most.
const TRIES: u64 = 100_000;

/// How often each transaction reads its number again.
const READS: u64 = 16;

/// Counts of three numbers, which are at the keys 0 to 2.
type Counts = [u64; 3];

/// What a thread knows of a number.
#[derive(Clone, Copy)]
struct Known {
    /// How many of its commits were acknowledged.
    acknowledged: u64,
    /// The last that it read or wrote. No later read is lower.
    last: u64,
}

/// A session, and how many of its commits were acknowledged for each number.
#[derive(Drop)]
struct Adder<D: Pmem, J: Origin, B: Drop> {
    session: Session<D, J, B>,
    counts: Result<Counts, Fault>,
}

/// The outcome of a life: how many commits were acknowledged, and what the rows hold at its end.
#[derive(Clone, Copy)]
struct Life {
    acknowledged: Counts,
    held: Counts,
}

// The number at the key, which is the same at each read of the transaction.
fn read_number<D: Pmem + Drop, J: Origin, B: Drop>(
    rt: &impl Wait,
    session: &mut Session<D, J, B>,
    key: Key,
) -> Result<u64, Fault> {
    let number = number_in(session.get(rt, key)?)?;
    for _ in 0..READS {
        if number_in(session.get(rt, key)?)? != number {
            return Err(Fault::Failed);
        }
    }
    Ok(number)
}

// Begins a transaction that adds one to the number at the key, and returns the sum.
fn put_one_more<D: Pmem + Drop, J: Origin, B: Drop>(
    rt: &impl Wait,
    session: &mut Session<D, J, B>,
    key: Key,
    known: &mut Known,
) -> Result<u64, Fault> {
    session.begin(rt)?;
    let number = read_number(rt, session, key)?;
    if number < known.last {
        return Err(Fault::Failed);
    }
    known.last = number;
    let more = number.saturating_add(1);
    session.put(rt, key, row(more)?)?;
    Ok(more)
}

// Adds one to the number at the key, in a transaction.
fn add_one<D: Pmem + Drop, J: Origin, B: Drop>(
    rt: &impl Wait,
    session: &mut Session<D, J, B>,
    key: Key,
    known: &mut Known,
) -> Result<(), Fault> {
    let more = put_one_more(rt, session, key, known)?;
    if session.commit(rt)?.is_none() {
        return Err(Fault::Failed);
    }
    known.last = more;
    known.acknowledged = known.acknowledged.saturating_add(1);
    Ok(())
}

// Rolls back what is open, if this fault may be over at the next try.
fn give_up<D: Pmem + Drop, J: Origin, B: Drop>(
    rt: &impl Wait,
    session: &mut Session<D, J, B>,
    fault: Fault,
) -> Result<(), Fault> {
    match fault {
        Fault::Conflict(_) | Fault::SlotsOut | Fault::WindowFull | Fault::OutOfMemory => {}
        _ => return Err(fault),
    }
    match session.abort(rt) {
        Err(Fault::NoSession) => Ok(()),
        aborted => aborted,
    }
}

// Tries to add one, until that is acknowledged.
fn add<D: Pmem + Drop, J: Origin, B: Drop>(
    rt: &impl Wait,
    session: &mut Session<D, J, B>,
    key: Key,
    known: &mut Known,
) -> Result<(), Fault> {
    for _ in 0..TRIES {
        match add_one(rt, session, key, known) {
            Ok(()) => return Ok(()),
            Err(fault) => give_up(rt, session, fault)?,
        }
        yield_now();
    }
    Ok(())
}

// Adds to one number after the other.
fn add_all<D: Pmem + Drop, J: Origin, B: Drop>(
    rt: &impl Wait,
    session: &mut Session<D, J, B>,
) -> Result<Counts, Fault> {
    let none = Known {
        acknowledged: 0,
        last: 0,
    };
    let (mut first, mut second, mut third) = (none, none, none);
    for _ in 0..COMMITS {
        add(rt, session, key(0), &mut first)?;
        add(rt, session, key(1), &mut second)?;
        add(rt, session, key(2), &mut third)?;
    }
    Ok([first.acknowledged, second.acknowledged, third.acknowledged])
}

// The sums of both counts.
fn sums(one: Counts, other: Counts) -> Counts {
    [
        one[0].saturating_add(other[0]),
        one[1].saturating_add(other[1]),
        one[2].saturating_add(other[2]),
    ]
}

// The work of one thread.
fn work<D: Pmem + Drop, J: Origin, B: Drop>(
    rt: &impl Wait,
    session: Session<D, J, B>,
) -> Adder<D, J, B> {
    let mut session = session;
    let counts = add_all(rt, &mut session);
    Adder { session, counts }
}

fn cores(rt: &impl Threads) -> usize {
    match available_parallelism(rt) {
        Ok(cores) => cores.get().clamp(2, 8),
        Err(_) => 4,
    }
}

// A session for each core.
fn sessions<D: Pmem + Drop, J: Origin, B: Drop, R: Threads + Wait>(
    rt: &R,
    alloc: Global,
    engine: &Engine<D, J, B>,
) -> Result<Vec<Session<D, J, B>>, Fault> {
    let mut sessions = Vec::new(alloc);
    for _ in 0..cores(rt) {
        granted(sessions.push(engine.session(rt)?))?;
    }
    Ok(sessions)
}

// The sums of all their counts.
fn sum_of<D: Pmem + Drop, J: Origin, B: Drop>(adders: &[Adder<D, J, B>]) -> Result<Counts, Fault> {
    let mut all = [0; 3];
    for adder in adders {
        all = sums(all, adder.counts?);
    }
    Ok(all)
}

fn sessions_of<D: Pmem + Drop, J: Origin, B: Drop>(
    alloc: Global,
    adders: Vec<Adder<D, J, B>>,
) -> Result<Vec<Session<D, J, B>>, Fault> {
    let mut sessions = Vec::new(alloc);
    for adder in adders {
        granted(sessions.push(adder.session))?;
    }
    Ok(sessions)
}

// The numbers that the rows hold.
fn numbers_in(rows: &[(Key, Row)]) -> Result<Counts, Fault> {
    let mut held = [0; 3];
    for (key, row) in rows {
        let number = number_in(Some(*row))?;
        held = match key.key {
            0 => [number, held[1], held[2]],
            1 => [held[0], number, held[2]],
            2 => [held[0], held[1], number],
            _ => return Err(Fault::Failed),
        };
    }
    Ok(held)
}

// Adds in all threads. Returns the sessions, and how many of their commits were acknowledged.
fn work_all<
    D: Pmem + Drop + Send + Sync + 'static,
    J: Origin + Send + Sync + 'static,
    R: Threads + Wait + Copy + Drop + Send + Sync + 'static,
>(
    rt: &R,
    alloc: Global,
    engine: &Engine<D, J, Board<J, R>>,
) -> Worked<D, J, Board<J, R>, Result<Counts, Fault>> {
    let sessions = sessions(rt, alloc, engine)?;
    let adders = granted(map_vec(rt, sessions, &|session| work(rt, session)))?;
    let sum = sum_of(&adders);
    Ok((sessions_of(alloc, adders)?, sum))
}

fn held_in<D: Pmem + Drop>(audited: &Audited<D>) -> Result<Counts, Fault> {
    numbers_in(&audited.tables()?)
}

fn life_of(
    acknowledged: Result<Counts, Fault>,
    held: Result<Counts, Fault>,
) -> Result<Life, Fault> {
    Ok(Life {
        acknowledged: acknowledged?,
        held: held?,
    })
}

// Opens the device, adds in all threads, and closes it.
fn live<
    D: Pmem + Drop + Send + Sync + 'static,
    J: Origin + Send + Sync + 'static,
    R: Threads + Wait + Copy + Drop + Send + Sync + 'static,
>(rt: &R, alloc: Global, history: History, device: D) -> Result<(D, Result<Life, Fault>), Fault>
    requires name { history ≡ J.book }
    requires image { image_of (D.state device) ≡ J.image }
    requires at_rest { IsAtRest (D.state device) }
{
    let engine = running::<D, J, R, Always, Always>(rt, alloc, history, device, Always, Always)?;
    let worked = work_all(rt, alloc, &engine);
    let (audited, acknowledged) = ended(rt, engine, worked)?;
    let held = held_in(&audited);
    Ok((shut(audited)?, life_of(acknowledged, held)))
}

// The same, with a history of its own.
fn lived<R: Threads + Wait + Copy + Drop + Send + Sync + 'static>(
    rt: &R,
    alloc: Global,
    device: SimPmem,
) -> Result<(SimPmem, Result<Life, Fault>), Fault>
    requires { IsAtRest (device_of device) }
{
    live::<_, Brand, R>(rt, alloc, History::new(), device)
}

// The life that goes on with this device.
fn life_after<R: Threads + Wait + Copy + Drop + Send + Sync + 'static>(
    rt: &R,
    alloc: Global,
    device: &SimPmem,
) -> Result<Life, Fault> {
    let (_device, life) = lived(rt, alloc, restarted(alloc, device)?)?;
    life
}

// Two lives of a fresh device.
fn two_lives<R: Threads + Wait + Copy + Drop + Send + Sync + 'static>(
    rt: &R,
    alloc: Global,
) -> Result<(Result<Life, Fault>, Result<Life, Fault>), Fault> {
    let (device, first) = lived(rt, alloc, fresh(alloc, 16, 8)?)?;
    let second = life_after(rt, alloc, &device);
    Ok((first, second))
}

#[test]
fn counts_are_those_acknowledged(rt: HostRuntime) -> Result<(), Fail> {
    let (first, second) = two_lives(&rt, rt.alloc())?;
    let (first, second) = (first?, second?);
    assert_eq!(rt; first.held, first.acknowledged);
    assert_eq!(rt; second.held, sums(first.acknowledged, second.acknowledged));
    Ok(())
}
