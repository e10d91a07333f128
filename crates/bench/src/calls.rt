use crate::kinds::{begin, draw, end, get, poll, put, stamp, visit};
use crate::slow::is_covered;
use anyhow::Error;
use base::fault::Fault;
use base::key::Key;
use pmem::Pmem;
use room::{Room, Tick};
use std::rt::Clock;
use std::time::Instant;

/// How many commits are stamped before each cycle.
pub const TOGETHER: u8 = 32;

/// How many cycles and how many reads of a kind are timed.
pub const CYCLES: u64 = 1_000;

pub const READS_OF_A_KIND: u64 = 1_000_000;

// The number of the first session.
const FIRST: u8 = 2;

// How many newer versions of its key an old version has.
const NEWER: u64 = 8;

// How many keys have old versions.
const OLD_KEYS: u64 = 8;

/// How long all calls of each kind took, in nanoseconds, and how often the committer ticked.
#[derive(Clone, Copy)]
pub struct Spent {
    pub puts: u128,
    pub draws: u128,
    pub stamps: u128,
    pub polls: u128,
    pub ticks: u128,
    pub ticked: u64,
}

/// How long all reads of each kind took, in nanoseconds.
#[derive(Clone, Copy)]
pub struct Reading {
    pub present: u128,
    pub absent: u128,
    pub old: u128,
}

// The step that each session makes in turn.
#[derive(Clone, Copy)]
enum Asked {
    Begin,
    /// Puts one of `keys` keys, counted from `first` on.
    Put { first: u64, keys: u64 },
    Draw,
    Stamp,
    Poll,
    End,
}

impl Asked {
    fn ask<D: Pmem + Drop>(self, room: &mut Room<D>, session: u8) -> Result<(), Fault> {
        match self {
            Asked::Begin => {
                begin(room)?;
            }
            Asked::Put { first, keys } => {
                let number = first.saturating_add(u64::from(session));
                put(room, session, key_in(1, number, keys), number)?;
            }
            Asked::Draw => {
                draw(room, session)?;
            }
            Asked::Stamp => {
                stamp(room, session)?;
            }
            Asked::Poll => {
                poll(room, session)?;
            }
            Asked::End => end(room, session)?,
        }
        Ok(())
    }
}

/// Makes this many cycles. In each of them, each session updates a key of its own.
pub fn time_steps<H: Clock, D: Pmem + Drop>(
    rt: &H,
    room: &mut Room<D>,
    keys: u64,
    cycles: u64,
) -> Result<Spent, Error> {
    let mut spent = Spent {
        puts: 0,
        draws: 0,
        stamps: 0,
        polls: 0,
        ticks: 0,
        ticked: 0,
    };
    for cycle in 0..cycles {
        let first = cycle.saturating_mul(u64::from(TOGETHER));
        spent.write(rt, room, Asked::Put { first, keys })?;
        spent.cover(rt, room)?;
    }
    Ok(spent)
}

impl Spent {
    // Each session puts, draws and stamps.
    fn write<H: Clock, D: Pmem + Drop>(
        &mut self,
        rt: &H,
        room: &mut Room<D>,
        put: Asked,
    ) -> Result<(), Error> {
        ask_each(rt, room, Asked::Begin)?;
        self.puts = self.puts.saturating_add(ask_each(rt, room, put)?);
        self.draws = self.draws.saturating_add(ask_each(rt, room, Asked::Draw)?);
        self.stamps = self
            .stamps
            .saturating_add(ask_each(rt, room, Asked::Stamp)?);
        Ok(())
    }

    // Each session polls, the batch is covered, and the sessions are ended. The collector makes a visit for each tick.
    fn cover<H: Clock, D: Pmem + Drop>(&mut self, rt: &H, room: &mut Room<D>) -> Result<(), Error> {
        self.polls = self.polls.saturating_add(ask_each(rt, room, Asked::Poll)?);
        let start = Instant::now(rt)?;
        let ticked = tick(room)?;
        let took = start.elapsed(rt)?.as_nanos();
        self.ticks = self.ticks.saturating_add(took);
        self.ticked = self.ticked.saturating_add(ticked);
        collect(room, ticked)?;
        ask_each(rt, room, Asked::End)?;
        Ok(())
    }
}

// Makes a step in each session. Returns how long all of them took.
fn ask_each<H: Clock, D: Pmem + Drop>(
    rt: &H,
    room: &mut Room<D>,
    asked: Asked,
) -> Result<u128, Error> {
    let start = Instant::now(rt)?;
    for session in FIRST..FIRST + TOGETHER {
        asked.ask(room, session)?;
    }
    Ok(start.elapsed(rt)?.as_nanos())
}

// Ticks the committer until it has covered a batch, or has nothing to do. Returns how often it ticked.
fn tick<D: Pmem + Drop>(room: &mut Room<D>) -> Result<u64, Fault> {
    for ticks in 1..u64::MAX {
        if !matches!(room.advance()?, Tick::Reached(_)) {
            return Ok(ticks);
        }
    }
    Ok(u64::MAX)
}

fn collect<D: Pmem + Drop>(room: &mut Room<D>, visits: u64) -> Result<(), Fault> {
    for _ in 0..visits {
        visit(room)?;
    }
    Ok(())
}

/// Makes this many reads of each kind in one session: of keys that have rows, of keys that have none, and of keys that have newer
/// versions than the session sees.
pub fn time_reads<H: Clock, D: Pmem + Drop>(
    rt: &H,
    room: &mut Room<D>,
    keys: u64,
    reads: u64,
) -> Result<Reading, Error> {
    begin(room)?;
    let present = read_in_turn(rt, room, 1, keys, reads)?;
    let absent = read_in_turn(rt, room, 2, keys, reads)?;
    for number in 0..NEWER * OLD_KEYS {
        is_covered(room, number)?;
    }
    let old = read_in_turn(rt, room, 1, OLD_KEYS, reads)?;
    Ok(Reading {
        present,
        absent,
        old,
    })
}

// The key whose turn it is, out of `keys` keys of the table.
fn key_in(table: u16, number: u64, keys: u64) -> Key {
    Key {
        table,
        key: number % keys.max(1),
    }
}

// Reads `reads` times, from `keys` keys of the table in turn. Returns how long that takes.
fn read_in_turn<H: Clock, D: Pmem + Drop>(
    rt: &H,
    room: &mut Room<D>,
    table: u16,
    keys: u64,
    reads: u64,
) -> Result<u128, Error> {
    let start = Instant::now(rt)?;
    for number in 0..reads {
        let key = key_in(table, number, keys);
        get(room, FIRST, key)?;
    }
    Ok(start.elapsed(rt)?.as_nanos())
}
