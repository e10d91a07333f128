//! Threads over a device that fails after each of many numbers of operations: each session reports it, and knows the tick that
//! ended the committer if it reports that. Closing returns the device, and what was acknowledged is there at the next opening.
ghost use Rattle.std.specs.Prelude.{◌≡◌, IfOk};
ghost use Rattle.pmem.specs.Words.{IsAtRest, image_of};
ghost use Rattle.pmem_model.specs.Sim.{device_of};

use crate::fixture::{
    Always, Worked, at_rest, commit_row, ended, fresh, gathered, leave, number_in, opened, running,
    two_sessions,
};
use base::fault::Fault;
use base::key::Key;
use base::row::Row;
use board::History;
use engine::{Board, Engine, Halt, Origin, Session};
use pmem::Pmem;
use pmem_model::{Choice, SimPmem};
use std::alloc::Global;
use std::marker::Brand;
use std::sync::Wait;
use std::test::*;
use std::thread::{Threads, join};

/// The least number of operations that succeed, which opening needs, and the greatest: fewer than all commits make.
const LEAST: u64 = 39;

const MOST: u64 = 160;

/// How many commits each of two threads asks for.
const COMMITS: u64 = 4;

/// How many commits of a thread were acknowledged, and whether a call then reported that the device fails.
#[derive(Clone, Copy)]
struct Reported {
    acknowledged: u64,
    fails: bool,
}

/// What a life left.
#[derive(Drop)]
struct Left<D: Pmem> {
    device: D,
    reported: [Reported; 2],
}

/// Whether both threads report that the device fails, and whether what was acknowledged outlives a crash that leaves the oldest
/// values, and one that leaves the newest.
#[derive(Clone, Copy, Debug, PartialEq, Eq)]
struct Outcome {
    fails: bool,
    oldest: bool,
    newest: bool,
}

// Puts one number after the other under the key, up to a call that is refused.
fn commit_each<D: Pmem + Drop, J: Origin, B: Drop>(
    rt: &impl Wait,
    session: &mut Session<D, J, B>,
    key: u64,
) -> Reported {
    for number in 1..COMMITS + 1 {
        if let Err(fault) = commit_row(rt, session, key, number) {
            return Reported {
                acknowledged: number.saturating_sub(1),
                fails: matches!(fault, Fault::Device | Fault::Failed)
                    && is_told(session.told(), fault),
            };
        }
    }
    Reported {
        acknowledged: COMMITS,
        fails: false,
    }
}

// Whether this is the fault of the tick that ended the committer, if the session knows of one.
fn is_told(told: Option<Halt>, fault: Fault) -> bool {
    match told {
        Some(halt) => halt.fault == fault,
        None => true,
    }
}

// The session, and what it reported.
fn work<D: Pmem + Drop, J: Origin, B: Drop>(
    rt: &impl Wait,
    session: Session<D, J, B>,
    key: u64,
) -> (Session<D, J, B>, Reported) {
    let mut session = session;
    let reported = commit_each(rt, &mut session, key);
    (session, reported)
}

// Two threads that commit, each under its own key.
fn work_both<
    D: Pmem + Drop + Send + Sync + 'static,
    J: Origin + Send + Sync + 'static,
    R: Threads + Wait + Copy + Drop + Send + Sync + 'static,
>(
    rt: &R,
    alloc: Global,
    engine: &Engine<D, J, Board<J, R>>,
) -> Worked<D, J, Board<J, R>, [Reported; 2]> {
    let (first, second) = two_sessions(rt, engine)?;
    let ((first, one), (second, other)) = join(rt, || work(rt, first, 0), || work(rt, second, 1));
    Ok((gathered(alloc, [first, second])?, [one, other]))
}

// A life of the device, up to its failure.
fn live<
    D: Pmem + Drop + Send + Sync + 'static,
    J: Origin + Send + Sync + 'static,
    R: Threads + Wait + Copy + Drop + Send + Sync + 'static,
>(rt: &R, alloc: Global, history: History, device: D) -> Result<Left<D>, Fault>
    requires name { history ≡ J.book }
    requires image { image_of (D.state device) ≡ J.image }
    requires at_rest { IsAtRest (D.state device) }
{
    let engine = running::<D, J, R, Always, Always>(rt, alloc, history, device, Always, Always)?;
    let worked = work_both(rt, alloc, &engine);
    let (audited, reported) = ended(rt, engine, worked)?;
    Ok(Left {
        device: audited.into_room().into_device(),
        reported,
    })
}

// A fresh device on which this many operations succeed.
fn failing(alloc: Global, fuse: u64) -> Result<SimPmem, Fault>
    ensures { IfOk result (λ device. IsAtRest (device_of device)) }
{
    let mut device = fresh(alloc, 16, 8)?;
    device.set_fuse(Some(fuse));
    at_rest(device)
}

// What is left of a life in which this many operations succeed.
fn left_after<R: Threads + Wait + Copy + Drop + Send + Sync + 'static>(
    rt: &R,
    alloc: Global,
    fuse: u64,
) -> Result<Left<SimPmem>, Fault> {
    live::<_, Brand, R>(rt, alloc, History::new(), failing(alloc, fuse)?)
}

// The rows that opening the device finds.
fn rows_in<D: Pmem + Drop + Send + Sync, R: Threads + Sync>(
    rt: &R,
    alloc: Global,
    device: D,
) -> Result<Vec<(Key, Row)>, Fault>
    requires { IsAtRest (D.state device) }
{
    let audited = opened(rt, alloc, device)?;
    let rows = audited.tables();
    leave(audited);
    rows
}

// The number under the key.
fn number_at(rows: &[(Key, Row)], number: u64) -> Result<u64, Fault> {
    for (key, row) in rows {
        if key.key == number {
            return number_in(Some(*row));
        }
    }
    Ok(0)
}

// Do the rows hold what was acknowledged, and of each thread at most the commit that was under way?
fn are_kept(rows: &[(Key, Row)], reported: &[Reported; 2]) -> Result<bool, Fault> {
    let (first, second) = (number_at(rows, 0)?, number_at(rows, 1)?);
    Ok(is_kept(first, &reported[0]) && is_kept(second, &reported[1]))
}

fn is_kept(number: u64, reported: &Reported) -> bool {
    reported.acknowledged <= number && number <= reported.acknowledged.saturating_add(1)
}

// Is what was acknowledged there after a crash with this choice?
fn outlives<R: Threads + Sync>(
    rt: &R,
    alloc: Global,
    left: &Left<SimPmem>,
    choice: &Choice,
) -> Result<bool, Fault> {
    let rows = rows_in(rt, alloc, at_rest(left.device.crash(choice)?)?)?;
    are_kept(&rows, &left.reported)
}

fn outcome_of<R: Threads + Sync>(
    rt: &R,
    alloc: Global,
    left: &Left<SimPmem>,
) -> Result<Outcome, Fault> {
    Ok(Outcome {
        fails: left.reported[0].fails && left.reported[1].fails,
        oldest: outlives(rt, alloc, left, &Choice::Oldest)?,
        newest: outlives(rt, alloc, left, &Choice::Newest)?,
    })
}

// The outcome of a life in which this many operations succeed.
fn outcome_after<R: Threads + Wait + Copy + Drop + Send + Sync + 'static>(
    rt: &R,
    alloc: Global,
    fuse: u64,
) -> Result<Outcome, Fault> {
    let left = left_after(rt, alloc, fuse)?;
    outcome_of(rt, alloc, &left)
}

#[test]
fn what_was_acknowledged_outlives_a_failing_device(rt: HostRuntime) -> Result<(), Fail> {
    let kept = Outcome {
        fails: true,
        oldest: true,
        newest: true,
    };
    for fuse in LEAST..MOST {
        assert_eq!(rt; outcome_after(&rt, rt.alloc(), fuse)?, kept, "after {fuse}");
    }
    Ok(())
}
