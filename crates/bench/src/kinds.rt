use base::Ts;
use base::fault::Fault;
use base::key::Key;
use base::row::Row;
use base::step::Stage;
use pmem::Pmem;
use room::{CommitStatus, Room, Tick, Visit};

// Each kind of call has a function of its own, which isn't inlined, since its instructions are counted by its name.

// How many words a record's body stores.
const WORDS: u64 = 31;

/// Begins a session. Returns its number.
#[inline(never)]
pub fn begin<D: Pmem + Drop>(room: &mut Room<D>) -> Result<u8, Fault> {
    room.begin()
}

#[inline(never)]
pub fn put<D: Pmem + Drop>(
    room: &mut Room<D>,
    session: u8,
    key: Key,
    number: u64,
) -> Result<(), Fault> {
    let row = Row::new(&number.to_le_bytes())?;
    room.put(session, key, &row)
}

#[inline(never)]
pub fn draw<D: Pmem + Drop>(room: &mut Room<D>, session: u8) -> Result<Option<Ts>, Fault> {
    room.draw(session)
}

#[inline(never)]
pub fn stamp<D: Pmem + Drop>(room: &mut Room<D>, session: u8) -> Result<bool, Fault> {
    room.stamp(session)
}

#[inline(never)]
pub fn poll<D: Pmem + Drop>(room: &Room<D>, session: u8) -> Result<CommitStatus, Fault> {
    room.poll(session)
}

#[inline(never)]
pub fn end<D: Pmem + Drop>(room: &mut Room<D>, session: u8) -> Result<(), Fault> {
    room.end(session)
}

/// Reads the row of the key. Returns whether there is one.
#[inline(never)]
pub fn get<D: Pmem + Drop>(room: &Room<D>, session: u8, key: Key) -> Result<bool, Fault> {
    match &room.get(session, key) {
        Ok(row) => Ok(row.is_some()),
        Err(fault) => Err(*fault),
    }
}

/// The collector makes a visit. Returns whether it ended a round.
#[inline(never)]
pub fn visit<D: Pmem + Drop>(room: &mut Room<D>) -> Result<bool, Fault> {
    Ok(matches!(room.collect()?, Visit::SweepEnd))
}

/// The rest of the collector's round: a visit to each slot, and to the closing place. Those that change nothing are made at once.
pub fn collect<D: Pmem + Drop>(room: &mut Room<D>) -> Result<(), Fault> {
    for _ in 0..u64::MAX {
        room.pass(u64::MAX);
        if visit(room)? {
            break;
        }
    }
    Ok(())
}

// A tick that stores a word of the record's body.
#[inline(never)]
fn store_word<D: Pmem + Drop>(room: &mut Room<D>) -> Result<(), Fault> {
    room.advance()?;
    Ok(())
}

// A tick that flushes a line of the batch. Returns whether it did: the tick after the last line fences them.
#[inline(never)]
fn flush_line<D: Pmem + Drop>(room: &mut Room<D>) -> Result<bool, Fault> {
    Ok(matches!(room.advance()?, Tick::Reached(Stage::LineFlushed(_))))
}

// Another tick. Returns whether a batch is being written after it.
#[inline(never)]
fn tick<D: Pmem + Drop>(room: &mut Room<D>) -> Result<bool, Fault> {
    Ok(matches!(room.advance()?, Tick::Reached(_)))
}

// Flushes the lines of the batch that is being written, and fences them. Returns how many ticks that takes.
fn flush_lines<D: Pmem + Drop>(room: &mut Room<D>) -> Result<u64, Fault> {
    for ticks in 1..u64::MAX {
        if !flush_line(room)? {
            return Ok(ticks);
        }
    }
    Ok(u64::MAX)
}

// Ticks until no batch is being written. Returns how often.
fn finish<D: Pmem + Drop>(room: &mut Room<D>) -> Result<u64, Fault> {
    for ticks in 1..u64::MAX {
        if !tick(room)? {
            return Ok(ticks);
        }
    }
    Ok(u64::MAX)
}

/// Ticks the committer until it has covered a batch, or has nothing to do. Returns how often it ticked.
pub fn cover<D: Pmem + Drop>(room: &mut Room<D>) -> Result<u64, Fault> {
    if !tick(room)? {
        return Ok(1);
    }
    let lines = flush_lines(room)?;
    for _ in 0..WORDS {
        store_word(room)?;
    }
    let rest = finish(room)?;
    Ok(lines.saturating_add(rest).saturating_add(1 + WORDS))
}
