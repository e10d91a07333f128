//! What a covering tick reports of its batch.
use crate::fixture::{fresh, leave, opened};
use asks::Ask::{Begin, Commit, Delete, Draw, Put, PutIn, Stamp};
use asks::{Life, steps};
use base::batch::Batch;
use base::fault::Fault;
use base::key::Key;
use base::row::Row;
use base::step::Reply;
use pmem_model::SimPmem;
use room::Room;
use std::alloc::Global;
use std::process::Abort;

// The batch of the last of these steps, all of which are driven at once.
fn batch_after(
    rt: &impl Abort,
    alloc: Global,
    room: &mut Room<SimPmem>,
    life: Life,
) -> Result<Batch, Fault> {
    let steps = steps(alloc, life)?;
    let mut replies = room.drive(steps.as_slice())?;
    assert!(rt; replies.len() == steps.len());
    match replies.pop() {
        Some(Reply::Covered(batch)) => Ok(batch),
        _ => panic!(rt; "not covered"),
    }
}

// The batch has these numbers, and these timestamps in its order.
fn assert_batch(rt: &impl Abort, batch: &Batch, numbers: (u64, u64, u64), timestamps: &[u64]) {
    assert_eq!(rt; (batch.from(), batch.stamp(), batch.persisted()), numbers);
    assert_eq!(rt; batch.commits().len(), timestamps.len());
    for (commit, want) in batch.commits().iter().zip(timestamps.iter()) {
        assert_eq!(rt; commit.timestamp(), *want);
    }
}

/// A life that ends in a covering tick, the numbers of its batch, the timestamps in its order, and the long commits then.
type Covering = (Life, (u64, u64, u64), &'static [u64], &'static [u64]);

// Three sessions draw from a window of four, and the next record has no commits. The other two are stamped, and covered past
// the first. That is stamped after a tick that has nothing to do.
const LONG_COMMIT: &[Covering] = &[
    (
        &[
            &[Begin, Begin, Begin],
            &[Put(2, 1, 1), Put(3, 2, 2), Put(4, 3, 3)],
            &[Draw(2), Draw(3), Draw(4), Commit(41)],
        ],
        (2, 3, 0),
        &[],
        &[],
    ),
    (
        &[&[Stamp(3), Stamp(4), Commit(43)]],
        (3, 4, 3),
        &[2, 3],
        &[1],
    ),
    (&[&[Commit(1), Stamp(2), Commit(42)]], (4, 5, 3), &[1], &[]),
];

fn assert_covering(
    rt: &impl Abort,
    alloc: Global,
    room: &mut Room<SimPmem>,
    covering: &Covering,
) -> Result<(), Fault> {
    let (life, numbers, timestamps, longs) = covering;
    let batch = batch_after(rt, alloc, room, life)?;
    assert_batch(rt, &batch, *numbers, timestamps);
    assert!(rt; batch.longs().as_slice() == *longs);
    assert!(rt; room.status().longs.as_slice() == *longs);
    Ok(())
}

fn assert_long_commit(
    rt: &impl Abort,
    alloc: Global,
    room: &mut Room<SimPmem>,
) -> Result<(), Fault> {
    for covering in LONG_COMMIT {
        assert_covering(rt, alloc, room, covering)?;
    }
    let status = room.status();
    assert!(rt; (status.gate, status.persisted, status.dirty, status.next) == (5, 3, 8, 4));
    Ok(())
}

#[test]
fn long_commit_is_covered_later(rt: HostRuntime) -> Result<(), Fault> {
    let mut room = opened(&rt, rt.alloc(), fresh(rt.alloc(), 8, 4)?)?;
    let covered = assert_long_commit(&rt, rt.alloc(), &mut room);
    leave(room);
    covered
}

fn three_writes() -> Result<[(Key, Option<Row>); 3], Fault> {
    Ok([
        (Key { table: 1, key: 8 }, None),
        (Key { table: 1, key: 9 }, Some(Row::new(&[2])?)),
        (Key { table: 2, key: 0 }, Some(Row::new(&[1])?)),
    ])
}

const THREE_WRITES: Life = &[
    &[Begin, PutIn(2, 2, 0, 1), Put(2, 9, 2), Delete(2, 8)],
    &[Draw(2), Stamp(2), Stamp(2), Stamp(2), Commit(43)],
];

fn assert_three_writes(rt: &impl Abort, batch: &Batch) -> Result<(), Fault> {
    assert_batch(rt, batch, (2, 3, 1), &[1]);
    let writes = three_writes()?;
    for commit in batch.commits() {
        assert!(rt; commit.writes() == writes.as_slice());
    }
    Ok(())
}

#[test]
fn commits_of_a_batch_name_keys_in_rising_order(rt: HostRuntime) -> Result<(), Fault> {
    let mut room = opened(&rt, rt.alloc(), fresh(rt.alloc(), 4, 8)?)?;
    let batch = batch_after(&rt, rt.alloc(), &mut room, THREE_WRITES);
    leave(room);
    assert_three_writes(&rt, &batch?)
}
