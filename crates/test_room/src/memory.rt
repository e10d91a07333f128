//! Lives in which an allocation may be refused: each in turn, if the tests are run that way.
use crate::counts::operations;
use crate::fixture::{fresh, leave, open, opened, step};
use asks::Ask::{Begin, Commit, Draw, Put, Scan, Stamp};
use asks::{Life, steps};
use base::fault::Fault;
use base::key::Key;
use base::row::Row;
use base::step::{Note, Step};
use pmem_model::{Choice, SimPmem};
use room::Room;
use std::alloc::Global;
use std::process::Abort;
use std::thread::Threads;

// Two sessions insert keys 1 and 2, one of them scans, and one record covers both.
const TWO_COMMITS: Life = &[
    &[Begin, Begin, Put(2, 1, 1), Put(3, 2, 2), Scan(3)],
    &[Draw(2), Draw(3), Stamp(2), Stamp(3), Commit(43)],
];

// Makes a step. If it is refused for lack of memory, it is made again.
fn insist(room: &mut Room<SimPmem>, made: Step) -> Note {
    let again = made;
    match step(room, made) {
        Note::Refused(Fault::OutOfMemory) => step(room, again),
        note => note,
    }
}

// Makes the steps, up to the first that finds the device failing: then each further one reports the same. Are all
// made?
fn is_covered(rt: &impl Abort, room: &mut Room<SimPmem>, steps: &[Step]) -> bool {
    let mut last = None;
    for made in steps {
        let note = insist(room, *made);
        if note == Note::Refused(Fault::Device) {
            assert!(rt; step(room, Step::Begin) == Note::Refused(Fault::Failed));
            return false;
        }
        assert!(rt; !matches!(note, Note::Refused(_)), "{note:?}");
        last = Some(note);
    }
    assert!(rt; last == Some(Note::Covered(3)));
    true
}

// A life of both commits, and whether they were covered.
fn first_life<R: Threads + Sync + Abort>(rt: &R, alloc: Global) -> Result<(SimPmem, bool), Fault> {
    let steps = steps(alloc, TWO_COMMITS)?;
    let mut room = opened(rt, alloc, fresh(alloc, 4, 8)?)?;
    let covered = is_covered(rt, &mut room, &steps);
    Ok((room.into_device(), covered))
}

// The next opening has both commits if they were covered, and otherwise none.
fn two_lives<R: Threads + Sync + Abort>(rt: &R, alloc: Global) -> Result<(), Fault> {
    let (device, covered) = first_life(rt, alloc)?;
    let mut room = opened(rt, alloc, device.crash(&Choice::Newest)?)?;
    let found = assert_two_commits(rt, &mut room, covered);
    leave(room);
    found
}

fn assert_two_commits(
    rt: &impl Abort,
    room: &mut Room<SimPmem>,
    covered: bool,
) -> Result<(), Fault> {
    let numbers = if covered { (4, 10) } else { (3, 8) };
    let status = room.status();
    assert!(rt; (status.gate, status.persisted) == numbers);
    if step(room, Step::Begin) != Note::Began(2) {
        return Err(Fault::OutOfMemory);
    }
    assert_two_rows(rt, room, covered)
}

// Session 2 reads both rows, or none.
fn assert_two_rows(rt: &impl Abort, room: &mut Room<SimPmem>, covered: bool) -> Result<(), Fault> {
    for key in 1..3_u8 {
        let get = Step::Get {
            session: 2,
            key: Key {
                table: 1,
                key: key.into(),
            },
        };
        let row = Row::new(&[key])?;
        let want = if covered { Some(row) } else { None };
        assert!(rt; step(room, get) == Note::Row(want));
    }
    Ok(())
}

// An allocation that was refused is reported as a lack of memory, or the device failed.
fn assert_refusal(rt: &impl Abort, ended: Result<(), Fault>) {
    if let Err(fault) = ended {
        assert!(rt; matches!(fault, Fault::OutOfMemory | Fault::Device));
    }
}

// Whichever allocation is refused: a store that finds no memory fails the device, its commit is lost, and nothing
// else is.
#[test]
fn refused_memory_loses_no_covered_row(rt: HostRuntime) -> Result<(), Fault> {
    assert_refusal(&rt, two_lives(&rt, rt.alloc()));
    Ok(())
}

// The room of a device that holds memory for all that is stored. If opening is refused memory, it makes no
// operation, and can be repeated.
fn opened_with_reserve<R: Threads + Sync + Abort>(
    rt: &R,
    alloc: Global,
) -> Result<Room<SimPmem>, Fault> {
    let mut device = fresh(alloc, 4, 8)?;
    device.reserve(100)?;
    match open(rt, alloc, device) {
        Ok(room) => Ok(room),
        Err((fault, device)) => {
            assert!(rt; fault == Fault::OutOfMemory && operations(&device) == 0);
            opened(rt, alloc, device)
        }
    }
}

// The room makes the steps.
fn assert_makes(rt: &impl Abort, room: Room<SimPmem>, steps: &[Step]) {
    let mut room = room;
    assert!(rt; is_covered(rt, &mut room, steps));
    let status = room.status();
    assert!(rt; (status.gate, status.dirty) == (3, 11));
    assert!(rt; operations(&room.into_device()) == 39 + 20 + 2 + 42);
}

// The same commits on a device that holds memory for them: a step that is refused memory changes nothing, and can be
// repeated.
#[test]
fn refused_memory_changes_nothing(rt: HostRuntime) -> Result<(), Fault> {
    let Ok(steps) = steps(rt.alloc(), TWO_COMMITS) else {
        return Ok(());
    };
    match opened_with_reserve(&rt, rt.alloc()) {
        Ok(room) => assert_makes(&rt, room, &steps),
        Err(fault) => assert_refusal(&rt, Err(fault)),
    }
    Ok(())
}
