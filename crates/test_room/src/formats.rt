//! Formats a device that has rows, and stops after each number of operations.
use crate::fixture::{device_after, fresh};
use asks::ONE_ROW;
use base::fault::Fault;
use base::geometry::Geometry;
use image_check::check;
use pmem_model::{Choice, SimPmem};
use recovery::format;
use std::alloc::Global;
use std::process::Abort;
use std::thread::Threads;

/// The gate of the record that rules, which covers the one row, and how many rows there are. `None`: the image isn't formatted.
type Left = Option<(u64, usize)>;

const OLD: Left = Some((3, 1));

const NEW: Left = Some((1, 0));

/// From the first of these numbers of operations to the second, what a crash leaves that leaves the oldest values, and one
/// that leaves the newest.
type Stops = (u64, u64, Left, Left);

const STOPS: &[Stops] = &[
    (0, 0, OLD, OLD),
    (1, 2, OLD, None),
    (3, 160, None, None),
    (161, 162, None, NEW),
    (163, 163, NEW, NEW),
];

// The device after a format of which only this many operations succeed.
fn formatted_again(alloc: Global, words: &[u64], fuse: u64) -> Result<SimPmem, Fault> {
    let mut device = SimPmem::from_words(alloc, words)?;
    device.set_fuse(Some(fuse));
    match format(&mut device, Geometry::new(4, 2, 8)?) {
        Ok(()) | Err(Fault::Device) => Ok(device),
        Err(fault) => Err(fault),
    }
}

// The words that a crash of this choice leaves.
fn image_after(device: &SimPmem, choice: &Choice) -> Result<Vec<u64>, Fault> {
    device.crash(choice)?.image()
}

fn left_in<R: Threads + Sync>(rt: &R, alloc: Global, image: &[u64]) -> Result<Left, Fault> {
    match check(rt, alloc, image) {
        Ok(report) => Ok(Some((report.gate, report.rows.len()))),
        Err(Fault::NotFormatted) => Ok(None),
        Err(fault) => Err(fault),
    }
}

fn assert_left<R: Threads + Sync + Abort>(
    rt: &R,
    alloc: Global,
    device: &SimPmem,
    choice: &Choice,
    fuse: u64,
    left: Left,
) -> Result<(), Fault> {
    let image = image_after(device, choice)?;
    let found = left_in(rt, alloc, &image)?;
    assert!(rt; found == left, "fuse {fuse}");
    Ok(())
}

// A format that stops after this many operations.
fn assert_stop<R: Threads + Sync + Abort>(
    rt: &R,
    alloc: Global,
    words: &[u64],
    fuse: u64,
    left: (Left, Left),
) -> Result<(), Fault> {
    let device = formatted_again(alloc, words, fuse)?;
    let (oldest, newest) = left;
    assert_left(rt, alloc, &device, &Choice::Oldest, fuse, oldest)?;
    assert_left(rt, alloc, &device, &Choice::Newest, fuse, newest)
}

// Formats that stop after numbers of operations that leave the same.
fn assert_stops<R: Threads + Sync + Abort>(
    rt: &R,
    alloc: Global,
    words: &[u64],
    stops: &Stops,
) -> Result<(), Fault> {
    let (first, last, oldest, newest) = stops;
    for fuse in *first..last.saturating_add(1) {
        assert_stop(rt, alloc, words, fuse, (*oldest, *newest))?;
    }
    Ok(())
}

#[test]
fn format_leaves_the_old_image_or_none_or_the_new(rt: HostRuntime) -> Result<(), Fault> {
    let device = fresh(rt.alloc(), 4, 8)?;
    let image = device_after(&rt, rt.alloc(), device, &[(ONE_ROW, false)])?.image()?;
    for stops in STOPS {
        assert_stops(&rt, rt.alloc(), &image, stops)?;
    }
    Ok(())
}
