//! Rows in slots of one line, of two and of eight.
use crate::counts::operations;
use crate::fixture::{assert_note, formatted, leave, opened, restarted, step};
use base::fault::Fault;
use base::geometry::Geometry;
use base::key::Key;
use base::row::Row;
use base::step::{Note, Step};
use pmem_model::SimPmem;
use room::Room;
use std::alloc::Global;
use std::process::Abort;
use std::thread::Threads;

const BEGIN: Step = Step::Begin;

const DRAW: Step = Step::Draw { session: 2 };

const STAMP: Step = Step::Stamp { session: 2 };

fn put(key: u64, row: Row) -> Step {
    Step::Put {
        session: 2,
        key: Key { table: 1, key },
        row,
    }
}

fn get(key: u64) -> Step {
    Step::Get {
        session: 2,
        key: Key { table: 1, key },
    }
}

// A room of this device, in which session 2 was begun.
fn begun<R: Threads + Sync + Abort>(
    rt: &R,
    alloc: Global,
    device: SimPmem,
) -> Result<Room<SimPmem>, Fault> {
    let mut room = opened(rt, alloc, restarted(device)?)?;
    assert_note(rt, &mut room, BEGIN, Note::Began(2));
    Ok(room)
}

fn assert_refused(rt: &impl Abort, room: &mut Room<SimPmem>, made: Step, fault: Fault) {
    assert_note(rt, room, made, Note::Refused(fault));
}

fn assert_drawn(rt: &impl Abort, room: &mut Room<SimPmem>) {
    assert!(rt; matches!(step(room, DRAW), Note::Drawn(_)));
}

// Inserts or updates key 7, and how many ticks the cycle of its commit takes.
fn ticks_of(rt: &impl Abort, room: &mut Room<SimPmem>, row: Row) -> u64 {
    assert_note(rt, room, put(7, row), Note::Done);
    assert_drawn(rt, room);
    assert_note(rt, room, STAMP, Note::Stamped);
    for ticks in 1..100 {
        if matches!(step(room, Step::Commit), Note::Covered(_)) {
            return ticks;
        }
    }
    0
}

// In slots of one line a row of 33 bytes is refused for its length before its session is full.
fn assert_too_long(rt: &impl Abort, room: &mut Room<SimPmem>) -> Result<(), Fault> {
    let longer = Row::new(&[5; 33])?;
    let longest = Row::new(&[5; 32])?;
    for key in 0..32 {
        assert_refused(rt, room, put(key, longer), Fault::TooLong);
        assert_note(rt, room, put(key, longest), Note::Done);
    }
    assert_refused(rt, room, put(32, longer), Fault::TooLong);
    assert_refused(rt, room, put(32, Row::new(&[5])?), Fault::WriteSetFull);
    assert_drawn(rt, room);
    assert_refused(rt, room, put(0, longer), Fault::WrongState);
    Ok(())
}

#[test]
fn rows_above_32_bytes_are_too_long_for_one_line(rt: HostRuntime) -> Result<(), Fault> {
    let device = formatted(rt.alloc(), Geometry::new(40, 2, 8)?)?;
    let mut room = begun(&rt, rt.alloc(), device)?;
    let refused = assert_too_long(&rt, &mut room);
    leave(room);
    refused
}

// Puts a row into a room of a new device. Returns how many operations that and the opening, which makes 39, took.
fn operations_of_put<R: Threads + Sync + Abort>(
    rt: &R,
    alloc: Global,
    geometry: Geometry,
    row: Row,
) -> Result<u128, Fault> {
    let mut room = begun(rt, alloc, formatted(alloc, geometry)?)?;
    assert_note(rt, &mut room, put(7, row), Note::Done);
    Ok(operations(&room.into_device()))
}

#[test]
fn put_of_two_lines_makes_18_operations(rt: HostRuntime) -> Result<(), Fault> {
    let (geometry, row) = (Geometry::wide(4, 2, 8)?, Row::new(&[5; 96])?);
    assert_eq!(rt; operations_of_put(&rt, rt.alloc(), geometry, row)?, 57);
    Ok(())
}

#[test]
fn put_of_eight_lines_makes_66_operations(rt: HostRuntime) -> Result<(), Fault> {
    let (geometry, row) = (Geometry::large(8, 4, 2, 8)?, Row::new(&[5; 480])?);
    assert_eq!(rt; operations_of_put(&rt, rt.alloc(), geometry, row)?, 105);
    Ok(())
}

// A room of the device, in which key 7 gets a row by a cycle of this many ticks. Returns what
// is left.
fn after_cycle<R: Threads + Sync + Abort>(
    rt: &R,
    alloc: Global,
    device: SimPmem,
    row: Row,
    ticks: u64,
) -> Result<SimPmem, Fault> {
    let mut room = begun(rt, alloc, device)?;
    assert_eq!(rt; ticks_of(rt, &mut room, row), ticks);
    Ok(room.into_device())
}

// Key 7 gets a row by a cycle of this many ticks. The next opening finds it, and a shorter row takes a tick more.
fn assert_cycles<R: Threads + Sync + Abort>(
    rt: &R,
    alloc: Global,
    geometry: Geometry,
    rows: (Row, Row),
    ticks: u64,
) -> Result<(), Fault> {
    let (row, shorter) = rows;
    let device = after_cycle(rt, alloc, formatted(alloc, geometry)?, row, ticks)?;
    let mut room = begun(rt, alloc, device)?;
    assert_note(rt, &mut room, get(7), Note::Row(Some(row)));
    assert_eq!(rt; ticks_of(rt, &mut room, shorter), ticks.saturating_add(1));
    leave(room);
    Ok(())
}

#[test]
fn cycle_of_two_lines_keeps_both(rt: HostRuntime) -> Result<(), Fault> {
    let rows = (Row::new(&[5; 96])?, Row::new(&[6; 40])?);
    assert_cycles(&rt, rt.alloc(), Geometry::wide(4, 2, 8)?, rows, 43)
}

#[test]
fn cycle_of_eight_lines_keeps_all(rt: HostRuntime) -> Result<(), Fault> {
    let rows = (Row::new(&[5; 480])?, Row::new(&[6; 300])?);
    assert_cycles(&rt, rt.alloc(), Geometry::large(8, 4, 2, 8)?, rows, 49)
}
