//! Each call of a session and of an engine once: transactions of two keys, by `commit` alone, with `prepare` first, with a
//! refusal in between, and one that conflicts. Then the engine is closed, which is refused while a session is missing, a
//! commit follows, and it is closed again.
ghost use Rattle.std.specs.Prelude.{◌≡◌};
ghost use Rattle.pmem.specs.Words.{IsAtRest, image_of};

use crate::fixture::{
    Always, Never, abandon, commit_row, ended, fresh, gathered, granted, key, leave, put, row,
    running, two_sessions,
};
use base::fault::Fault;
use base::key::Key;
use base::row::Row;
use base::step::Step;
use board::History;
use engine::{Board, Engine, Origin, PollReply, Session};
use pmem::Pmem;
use std::alloc::Global;
use std::marker::Brand;
use std::process::Abort;
use std::sync::Wait;
use std::test::*;
use std::thread::{Threads, yield_now};

/// A commit that was prepared first.
#[derive(Clone, Copy, Debug, PartialEq, Eq)]
struct Prepared {
    prepared: Option<u64>,
    /// What a step between them returns.
    between: Result<(), Fault>,
    committed: Option<u64>,
    steps: u64,
}

/// A transaction that conflicts.
#[derive(Clone, Copy, Debug, PartialEq, Eq)]
struct Conflicting {
    prepared: Result<Option<u64>, Fault>,
    committed: Result<Option<u64>, Fault>,
    aborted: Result<(), Fault>,
}

/// How many rows a scan finds, the first and the last.
#[derive(Clone, Copy, Debug, PartialEq, Eq)]
struct Scanned {
    count: usize,
    first: Option<(Key, Row)>,
    last: Option<(Key, Row)>,
}

/// A commit that is polled.
#[derive(Clone, Copy, Debug, PartialEq, Eq)]
struct Polled {
    prepared: Option<u64>,
    polled: Option<u64>,
    committed: Option<u64>,
}

/// What an engine returns about the room that it was lent, and about its readers.
#[derive(Clone, Copy, Debug, PartialEq, Eq)]
struct Lent {
    first: u64,
    gate: u64,
    dirty: u64,
    has_eight_readers: bool,
}

/// What a session's calls return.
#[derive(Clone, Copy)]
struct Answers {
    two_keys: Option<u64>,
    drew: Option<Step>,
    prepared: Prepared,
    conflicting: Conflicting,
    scanned: Scanned,
    polled: Polled,
}

/// What all calls of a life return: those of the engine, of its sessions, and a commit between the two attempts to close it.
#[derive(Clone, Copy)]
struct Called {
    lent: Lent,
    answers: Answers,
    between: Option<u64>,
}

// Writes two keys, and commits them.
fn commit_two<D: Pmem + Drop, J: Origin, B: Drop>(
    rt: &impl Wait,
    session: &mut Session<D, J, B>,
) -> Result<Option<u64>, Fault> {
    put(rt, session, 7, 1)?;
    session.put(rt, key(8), row(2)?)?;
    session.commit(rt)
}

// The fourth step of which the session has a receipt.
fn fourth<D: Pmem + Drop, J: Origin, B: Drop>(session: &Session<D, J, B>) -> Option<Step> {
    match session.receipts().get(3) {
        Some(receipt) => Some(receipt.step),
        None => None,
    }
}

// Writes two keys, one by a deletion, and prepares.
fn prepare_two<D: Pmem + Drop, J: Origin, B: Drop>(
    rt: &impl Wait,
    session: &mut Session<D, J, B>,
) -> Result<Option<u64>, Fault> {
    put(rt, session, 8, 3)?;
    session.delete(rt, key(7))?;
    session.prepare(rt)
}

// Prepares in the same way, is refused a step, and commits.
fn prepare_first<D: Pmem + Drop, J: Origin, B: Drop>(
    rt: &impl Wait,
    session: &mut Session<D, J, B>,
) -> Result<Prepared, Fault> {
    let prepared = prepare_two(rt, session)?;
    let between = session.delete(rt, key(9));
    let committed = session.commit(rt)?;
    Ok(Prepared {
        prepared,
        between,
        committed,
        steps: session.steps(),
    })
}

// Writes a key that the other session commits meanwhile.
fn conflict<D: Pmem + Drop, J: Origin, B: Drop>(
    rt: &impl Wait,
    session: &mut Session<D, J, B>,
    other: &mut Session<D, J, B>,
) -> Result<Conflicting, Fault> {
    put(rt, session, 8, 4)?;
    commit_row(rt, other, 8, 5)?;
    let prepared = session.prepare(rt);
    let committed = session.commit(rt);
    Ok(Conflicting {
        prepared,
        committed,
        aborted: session.abort(rt),
    })
}

// Polls until the answer isn't `Waiting`.
fn poll<D: Pmem + Drop, J: Origin, B: Drop>(
    rt: &impl Wait,
    session: &mut Session<D, J, B>,
) -> Result<Option<u64>, Fault> {
    for _ in rt.forever() {
        match session.poll(rt)? {
            PollReply::Waiting => yield_now(),
            PollReply::Committed(timestamp) => return Ok(Some(timestamp)),
            PollReply::Done => return Ok(None),
        }
    }
    unreachable!()
}

// Writes a key, and scans.
fn scan<D: Pmem + Drop, J: Origin, B: Drop>(
    rt: &impl Wait,
    session: &mut Session<D, J, B>,
) -> Result<Scanned, Fault> {
    put(rt, session, 9, 6)?;
    let rows = session.scan(rt, 1, 0, 9)?;
    Ok(scan_of(&rows))
}

fn scan_of(rows: &[(Key, Row)]) -> Scanned {
    Scanned {
        count: rows.len(),
        first: rows.first().copied(),
        last: rows.last().copied(),
    }
}

// Prepares and polls before it commits.
fn prepare_and_poll<D: Pmem + Drop, J: Origin, B: Drop>(
    rt: &impl Wait,
    session: &mut Session<D, J, B>,
) -> Result<Polled, Fault> {
    Ok(Polled {
        prepared: session.prepare(rt)?,
        polled: poll(rt, session)?,
        committed: session.commit(rt)?,
    })
}

// All of these, by two sessions.
fn call_sessions<D: Pmem + Drop, J: Origin, B: Drop>(
    rt: &impl Wait,
    session: &mut Session<D, J, B>,
    other: &mut Session<D, J, B>,
) -> Result<Answers, Fault> {
    let two_keys = commit_two(rt, session)?;
    let drew = fourth(session);
    Ok(Answers {
        two_keys,
        drew,
        prepared: prepare_first(rt, session)?,
        conflicting: conflict(rt, session, other)?,
        scanned: scan(rt, session)?,
        polled: prepare_and_poll(rt, session)?,
    })
}

// The same for two sessions that it owns.
fn called_sessions<D: Pmem + Drop, J: Origin, B: Drop>(
    rt: &impl Wait,
    sessions: (Session<D, J, B>, Session<D, J, B>),
) -> (Session<D, J, B>, Session<D, J, B>, Result<Answers, Fault>) {
    let (mut first, mut second) = sessions;
    let answers = call_sessions(rt, &mut first, &mut second);
    (first, second, answers)
}

// Takes eight readers.
fn take_readers<D: Pmem + Drop, J: Origin, B: Drop>(
    rt: &impl Wait,
    engine: &Engine<D, J, B>,
) -> Result<(), Fault> {
    for _ in 0..8 {
        let _reader = engine.reader(rt)?;
    }
    Ok(())
}

// Takes all readers, and asks for one more.
fn call_engine<D: Pmem + Drop, J: Origin, B: Drop>(
    rt: &impl Wait,
    engine: &Engine<D, J, B>,
) -> Result<Lent, Fault> {
    take_readers(rt, engine)?;
    let opening = engine.opening();
    Ok(Lent {
        first: engine.first(),
        gate: opening.gate,
        dirty: opening.dirty,
        has_eight_readers: matches!(engine.reader(rt), Err(Fault::ReadersOut)),
    })
}

// An engine with some of its sessions, which isn't closed.
type Unclosed<D, J, B> = (Engine<D, J, B>, Vec<Session<D, J, B>>);

// Closes the engine without its second session, which is refused.
fn refused_close<D: Pmem + Drop, J: Origin, B: Drop, R: Threads + Wait>(
    rt: &R,
    engine: Engine<D, J, B>,
    sessions: Vec<Session<D, J, B>>,
) -> Result<Unclosed<D, J, B>, Fault> {
    match engine.close(rt, sessions) {
        Err((Fault::WrongState, engine, sessions)) => Ok((engine, sessions)),
        _ => Err(Fault::Failed),
    }
}

fn with_session<D: Pmem + Drop, J: Origin, B: Drop>(
    sessions: Vec<Session<D, J, B>>,
    session: Session<D, J, B>,
) -> Result<(Vec<Session<D, J, B>>, ()), Fault> {
    let mut sessions = sessions;
    granted(sessions.push(session))?;
    Ok((sessions, ()))
}

// Closes the engine with both.
fn close_with<D: Pmem + Drop, J: Origin, B: Drop, R: Threads + Wait>(
    rt: &R,
    unclosed: Unclosed<D, J, B>,
    session: Session<D, J, B>,
) -> Result<(), Fault> {
    let (engine, sessions) = unclosed;
    let (audited, ()) = ended(rt, engine, with_session(sessions, session))?;
    leave(audited);
    Ok(())
}

// After closing is refused, the second session commits, and the engine is closed with both.
fn close_twice<D: Pmem + Drop, J: Origin, B: Drop, R: Threads + Wait>(
    rt: &R,
    engine: Engine<D, J, B>,
    sessions: Vec<Session<D, J, B>>,
    second: Session<D, J, B>,
) -> Result<Option<u64>, Fault> {
    let mut second = second;
    match refused_close(rt, engine, sessions) {
        Ok(unclosed) => {
            let committed = commit_two(rt, &mut second);
            close_with(rt, unclosed, second)?;
            committed
        }
        Err(fault) => Err(fault),
    }
}

// The sessions of this engine after all calls, the first one as closing takes it, and what the calls returned.
fn work<D: Pmem + Drop, J: Origin, B: Drop>(
    rt: &impl Wait,
    alloc: Global,
    engine: &Engine<D, J, B>,
) -> Result<
    (
        Vec<Session<D, J, B>>,
        Session<D, J, B>,
        Result<Answers, Fault>,
    ),
    Fault,
> {
    let (first, second, answers) = called_sessions(rt, two_sessions(rt, engine)?);
    Ok((gathered(alloc, [first])?, second, answers))
}

fn call_of(
    lent: Result<Lent, Fault>,
    answers: Result<Answers, Fault>,
    between: Result<Option<u64>, Fault>,
) -> Result<Called, Fault> {
    Ok(Called {
        lent: lent?,
        answers: answers?,
        between: between?,
    })
}

// A life of the device in which all is called, and what is returned.
fn call_all<
    D: Pmem + Drop + Send + Sync + 'static,
    J: Origin + Send + Sync + 'static,
    R: Threads + Wait + Copy + Drop + Send + Sync + 'static,
>(rt: &R, alloc: Global, history: History, device: D) -> Result<Called, Fault>
    requires name { history ≡ J.book }
    requires image { image_of (D.state device) ≡ J.image }
    requires at_rest { IsAtRest (D.state device) }
{
    let engine = running::<D, J, R, Always, Never>(rt, alloc, history, device, Always, Never)?;
    let lent = call_engine(rt, &engine);
    match work(rt, alloc, &engine) {
        Ok((sessions, second, answers)) => {
            call_of(lent, answers, close_twice(rt, engine, sessions, second))
        }
        Err(fault) => {
            abandon(engine);
            Err(fault)
        }
    }
}

// The same for a fresh device.
fn call_fresh<R: Threads + Wait + Copy + Drop + Send + Sync + 'static>(
    rt: &R,
    alloc: Global,
) -> Result<Called, Fault> {
    call_all::<_, Brand, R>(rt, alloc, History::new(), fresh(alloc, 8, 8)?)
}

const LENT: Lent = Lent {
    first: 0,
    gate: 2,
    dirty: 9,
    has_eight_readers: true,
};

const PREPARED: Prepared = Prepared {
    prepared: Some(2),
    between: Err(Fault::WrongState),
    committed: Some(2),
    steps: 17,
};

const CONFLICT: Fault = Fault::Conflict(Key { table: 1, key: 8 });

const CONFLICTING: Conflicting = Conflicting {
    prepared: Err(CONFLICT),
    committed: Err(CONFLICT),
    aborted: Ok(()),
};

const POLLED: Polled = Polled {
    prepared: Some(4),
    polled: Some(4),
    committed: Some(4),
};

fn assert_answers(rt: &impl Abort, answers: &Answers) -> Result<(), Fault> {
    let scanned = Scanned {
        count: 2,
        first: Some((key(8), row(5)?)),
        last: Some((key(9), row(6)?)),
    };
    assert_eq!(rt; answers.two_keys, Some(1));
    assert_eq!(rt; answers.drew, Some(Step::Draw { session: 2 }));
    assert_eq!(rt; answers.prepared, PREPARED);
    assert_eq!(rt; answers.conflicting, CONFLICTING);
    assert_eq!(rt; answers.scanned, scanned);
    assert_eq!(rt; answers.polled, POLLED);
    Ok(())
}

fn assert_called(rt: &impl Abort, called: &Called) -> Result<(), Fault> {
    assert_eq!(rt; called.lent, LENT);
    assert_answers(rt, &called.answers)?;
    assert_eq!(rt; called.between, Some(5));
    Ok(())
}

fn assert_fresh<R: Threads + Wait + Copy + Drop + Send + Sync + Abort + 'static>(
    rt: &R,
    alloc: Global,
) -> Result<(), Fault> {
    let called = call_fresh(rt, alloc)?;
    assert_called(rt, &called)
}

#[test]
fn each_call_of_a_session(rt: HostRuntime) -> Result<(), Fail> {
    assert_fresh(&rt, rt.alloc())?;
    Ok(())
}
