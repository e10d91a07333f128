//! How many operations of each kind a life makes.
use crate::crashes::words_before;
use crate::fixture::{device_after, formatted, fresh, lived};
use asks::Ask::{Begin, Collect, Commit, Draw, Put, Stamp};
use asks::{Ask, FIRST_VERSION_OPENED, Life, NINE_GAPS, Past};
use base::fault::Fault;
use base::geometry::Geometry;
use pmem_model::{Operations, SimPmem};
use std::alloc::Global;
use std::process::Abort;
use std::thread::Threads;

/// How many operations the device made.
pub fn operations(device: &SimPmem) -> u128 {
    let made = device.operations();
    made.stores as u128 + made.flushes as u128 + made.fences as u128
}

/// Asserts that the device made this many stores, flushes and fences.
pub fn assert_made(rt: &impl Abort, device: &SimPmem, counts: (u64, u64, u64)) {
    let (stores, flushes, fences) = counts;
    let made = Operations {
        stores,
        flushes,
        fences,
    };
    assert_eq!(rt; device.operations(), made);
}

#[test]
fn format_is_counted(rt: HostRuntime) -> Result<(), Fault> {
    let device = formatted(rt.alloc(), Geometry::new(4, 2, 8)?)?;
    assert_eq!(rt; operations(&device), 163);
    let device = formatted(rt.alloc(), Geometry::wide(4, 2, 8)?)?;
    assert_eq!(rt; operations(&device), 199);
    Ok(())
}

const STAMPED: &[Ask] = &[Begin, Put(2, 7, 1), Draw(2), Stamp(2)];

// The update of a key was stamped and lost, so that the begin in its slot is in the gap of the next opening.
const LOST: &[Past] = &[(&[STAMPED], true)];

// Eighteen sessions insert a key each, and every other one stamps. The record passes over nine commits.
const NINE_LONG_COMMITS: &[Past] = &[(
    &[
        &[Begin; 18],
        &[Put(2, 2, 2), Put(3, 3, 3), Put(4, 4, 4), Put(5, 5, 5)],
        &[Put(6, 6, 6), Put(7, 7, 7), Put(8, 8, 8), Put(9, 9, 9)],
        &[Put(10, 10, 10), Put(11, 11, 11), Put(12, 12, 12)],
        &[Put(13, 13, 13), Put(14, 14, 14), Put(15, 15, 15)],
        &[Put(16, 16, 16), Put(17, 17, 17), Put(18, 18, 18)],
        &[Put(19, 19, 19), Draw(2), Draw(3), Draw(4), Draw(5)],
        &[Draw(6), Draw(7), Draw(8), Draw(9), Draw(10), Draw(11)],
        &[Draw(12), Draw(13), Draw(14), Draw(15), Draw(16)],
        &[Draw(17), Draw(18), Draw(19), Stamp(3), Stamp(5), Stamp(7)],
        &[Stamp(9), Stamp(11), Stamp(13), Stamp(15), Stamp(17)],
        &[Stamp(19), Commit(50)],
    ],
    false,
)];

/// How many slots, how wide a window, the lives before, the life, and its stores, flushes and fences.
type Counted = (u64, u64, &'static [Past], Life, (u64, u64, u64));

// Opening makes 32 stores, 5 flushes and 2 fences. A sweep of four slots, of which one begins in the gap, makes 1
// store, 4 flushes and 1 fence. If that slot was taken before, by a put of 8 stores, 1 flush and 1 fence and a stamp of
// 1 store, the sweep has nothing to store. With a ninth gap, opening sweeps by 2 stores, 2 flushes and 1 fence. After nine
// long commits, of which no slot has a timestamp, it sweeps by 1 fence alone.
const COUNTED: &[Counted] = &[
    (4, 8, &[], &[], (32, 5, 2)),
    (4, 8, LOST, &[], (32, 5, 2)),
    (4, 8, LOST, &[&[Collect(5)]], (33, 9, 3)),
    (
        4,
        8,
        LOST,
        &[STAMPED, &[Commit(1), Collect(5)]],
        (41, 10, 4),
    ),
    (16, 8, NINE_GAPS, &[], (34, 7, 3)),
    (64, 64, NINE_LONG_COMMITS, &[], (32, 5, 3)),
];

fn assert_counts<R: Threads + Sync + Abort>(
    rt: &R,
    alloc: Global,
    counted: &Counted,
) -> Result<(), Fault> {
    let (slots, window, before, life, counts) = counted;
    let device = device_after(rt, alloc, fresh(alloc, *slots, *window)?, before)?;
    let device = lived(rt, alloc, device, life)?;
    assert_made(rt, &device, *counts);
    Ok(())
}

#[test]
fn sweeps_are_counted(rt: HostRuntime) -> Result<(), Fault> {
    for counted in COUNTED {
        assert_counts(&rt, rt.alloc(), counted)?;
    }
    Ok(())
}

// The version is changed first, by 1 store, 1 flush and 1 fence.
#[test]
fn opening_of_the_first_version_is_counted(rt: HostRuntime) -> Result<(), Fault> {
    let words = words_before(&rt, rt.alloc(), &FIRST_VERSION_OPENED)?;
    let device = SimPmem::from_words(rt.alloc(), &words)?;
    let device = lived(&rt, rt.alloc(), device, &[])?;
    assert_made(&rt, &device, (33, 6, 3));
    Ok(())
}
