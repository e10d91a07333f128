ghost use Rattle.std.specs.Prelude.{IfOk};
ghost use Rattle.pmem.specs.Words.{IsAtRest};
ghost use Rattle.pmem_file.specs.Traces.{device_of};

use crate::engine::{Load, close, closed, commit_batch, file_device, open};
use crate::print::{print_each, print_memory};
use crate::work::measure_run;
use anyhow::Error;
use base::fault::Fault;
use pmem::Pmem;
use pmem_file::FileDevice;
use room::Room;
use std::alloc::Global;
use std::fs::File;
use std::rt::{Clock, Files};
use std::thread::Threads;
use std::time::Instant;

/// Creates the file of this name, and gives each key a row.
pub fn fill<H: Files<File = File> + Threads + Sync>(
    rt: &H,
    alloc: Global,
    name: &str,
    load: &Load,
) -> Result<(), Error> {
    let device = file_device(rt, alloc, name, load)?;
    let device = closed(rt, alloc, device, load)?;
    device.close()?;
    Ok(())
}

/// Opens the file of this name, makes two commits, runs the load and closes the file. Prints how long each of these took, and how much
/// memory the process had once the room was open.
pub fn live<H: Print + Files<File = File> + Clock + Threads + Sync>(
    rt: &H,
    alloc: Global,
    name: &str,
    load: &Load,
) -> Result<(), Error> {
    let device = open_file(rt, alloc, name)?;
    let device = live_over(rt, alloc, device, load)?;
    let start = Instant::now(rt)?;
    device.close()?;
    print_since(rt, "close", start)
}

// Opens the file, and prints how long that took.
fn open_file<H: Print + Files<File = File> + Clock>(
    rt: &H,
    alloc: Global,
    name: &str,
) -> Result<FileDevice, Error>
    ensures { IfOk result (λ device. IsAtRest (device_of device.trace)) }
{
    let start = Instant::now(rt)?;
    let device = FileDevice::open_existing(rt, alloc, name)?;
    match print_since(rt, "file", start) {
        Ok(()) => Ok(device),
        Err(error) => Err(error),
    }
}

// Prints how long this took, which began at `start`.
fn print_since<H: Print + Clock>(rt: &H, name: &str, start: Instant) -> Result<(), Error> {
    let took = start.elapsed(rt)?.as_nanos();
    Ok(print_each(rt, name, 1, took)?)
}

// Opens a room over the device, runs the load in it, and closes it. Returns the device.
fn live_over<H: Print + Files<File = File> + Clock + Threads + Sync, D: Pmem + Drop + Send + Sync>(
    rt: &H,
    alloc: Global,
    device: D,
    load: &Load,
) -> Result<D, Error>
    requires at_rest { IsAtRest (D.state device) }
{
    let start = Instant::now(rt)?;
    let mut room = open(rt, alloc, device)?;
    let lived = live_in(rt, alloc, &mut room, load, start);
    let device = close(room)?;
    lived?;
    Ok(device)
}

// Makes two commits in the room, which is being opened since `start`, and runs the load.
fn live_in<H: Print + Files<File = File> + Clock, D: Pmem + Drop>(
    rt: &H,
    alloc: Global,
    room: &mut Room<D>,
    load: &Load,
    start: Instant,
) -> Result<(), Error> {
    print_since(rt, "opening", start)?;
    print_memory(rt, alloc)?;
    commit_alone(rt, room, load)?;
    measure_run(rt, room, load, true)
}

// Makes a first and a second commit.
fn commit_alone<H: Print + Clock, D: Pmem + Drop>(
    rt: &H,
    room: &mut Room<D>,
    load: &Load,
) -> Result<(), Error> {
    let alone = Load {
        commits: 2,
        batch: 1,
        ..*load
    };
    let start = Instant::now(rt)?;
    first(room, &alone)?;
    print_since(rt, "first", start)?;
    let start = Instant::now(rt)?;
    second(room, &alone)?;
    print_since(rt, "second", start)
}

// The first commit and the second have functions of their own, which aren't inlined, since their instructions are counted by name.

#[inline(never)]
fn first<D: Pmem + Drop>(room: &mut Room<D>, load: &Load) -> Result<u64, Fault> {
    commit_batch(room, load, 0)
}

#[inline(never)]
fn second<D: Pmem + Drop>(room: &mut Room<D>, load: &Load) -> Result<u64, Fault> {
    commit_batch(room, load, 1)
}
