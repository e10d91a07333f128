use base::fault::Fault;
use base::key::Key;
use base::row::Row;
use base::step::Step;
use std::alloc::Global;

/// What is asked of a room: keys are of table 1 if no other is named, and each row is one byte, or 96 equal
/// bytes.
#[derive(Clone, Copy, Debug)]
pub enum Ask {
    Begin,
    Get(u8, u64),
    /// All keys.
    Scan(u8),
    Put(u8, u64, u8),
    /// In the table that is named.
    PutIn(u8, u16, u64, u8),
    PutWide(u8, u64, u8),
    Delete(u8, u64),
    Draw(u8),
    Stamp(u8),
    Poll(u8),
    Abort(u8),
    End(u8),
    /// This many ticks.
    Commit(u64),
    /// This many visits.
    Collect(u64),
}

/// The steps that are asked for in a life.
pub fn steps(alloc: Global, life: &[&[Ask]]) -> Result<Vec<Step>, Fault> {
    let mut steps = Vec::new(alloc);
    for ask in life.iter().copied().flatten() {
        push_each(&mut steps, &step_of(*ask)?, count_of(*ask))?;
    }
    Ok(steps)
}

fn push_each(steps: &mut Vec<Step>, step: &Step, count: u64) -> Result<(), Fault> {
    for _ in 0..count {
        if steps.push(*step).is_err() {
            return Err(Fault::OutOfMemory);
        }
    }
    Ok(())
}

/// How often the step is made: ticks and visits come in numbers.
pub fn count_of(ask: Ask) -> u64 {
    match ask {
        Ask::Commit(ticks) => ticks,
        Ask::Collect(visits) => visits,
        _ => 1,
    }
}

/// The step that is asked for.
pub fn step_of(ask: Ask) -> Result<Step, Fault> {
    let table = 1;
    Ok(match ask {
        Ask::Begin => Step::Begin,
        Ask::Get(session, key) => Step::Get {
            session,
            key: Key { table, key },
        },
        Ask::Scan(session) => Step::Scan {
            session,
            table,
            lo: 0,
            hi: u64::MAX,
        },
        Ask::Put(session, key, byte) => Step::Put {
            session,
            key: Key { table, key },
            row: Row::new(&[byte])?,
        },
        Ask::PutIn(session, table, key, byte) => Step::Put {
            session,
            key: Key { table, key },
            row: Row::new(&[byte])?,
        },
        Ask::PutWide(session, key, byte) => Step::Put {
            session,
            key: Key { table, key },
            row: Row::new(&[byte; 96])?,
        },
        Ask::Delete(session, key) => Step::Delete {
            session,
            key: Key { table, key },
        },
        Ask::Draw(session) => Step::Draw { session },
        Ask::Stamp(session) => Step::Stamp { session },
        Ask::Poll(session) => Step::Poll { session },
        Ask::Abort(session) => Step::Abort { session },
        Ask::End(session) => Step::End { session },
        Ask::Commit(_) => Step::Commit,
        Ask::Collect(_) => Step::Collect,
    })
}
