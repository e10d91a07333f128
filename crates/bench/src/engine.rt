ghost use Rattle.std.specs.Prelude.{IfOk, OnOk};
ghost use Rattle.pmem.specs.Words.{IsAtRest};
ghost use Rattle.pmem_file.specs.Traces.{device_of};

use crate::keys::Order;
use crate::kinds;
use crate::kinds::{begin, collect, cover, draw, get, put, stamp, visit};
use anyhow::Error;
use base::fault::Fault;
use base::geometry::Geometry;
use pmem::Pmem;
use pmem_file::{FileDevice, JournaledPmem, Nowhere};
use pmem_model::{Operations, SimPmem};
use recovery::format;
use room::Room;
use std::alloc::{AllocError, Global};
use std::fs::File;
use std::rt::{Clock, Files};
use std::thread::Threads;
use std::time::{Duration, Instant};

/// How many slots there are, how many keys have rows and which, and how many commits update one key each. `batch` of these commits are
/// stamped before each cycle, and `reads` rows are read at the end.
#[derive(Clone, Copy)]
pub struct Load {
    pub slots: u64,
    pub keys: u64,
    pub commits: u64,
    pub batch: u64,
    pub reads: u64,
    pub order: Order,
}

/// What a run did, and how long it took.
#[derive(Clone, Copy)]
pub struct Made {
    pub cycles: u64,
    pub ticks: u64,
    pub rows: u64,
    pub committing: Duration,
    pub reading: Duration,
}

/// Runs the load on the modelled device. Returns what it did, and which operations the device made since it was opened. Each key has a
/// row before.
pub fn run_modelled<H: Clock + Threads + Sync>(
    rt: &H,
    alloc: Global,
    load: &Load,
) -> Result<(Made, Operations), Error> {
    let words = image_of_keys(rt, alloc, load)?;
    run_image(rt, alloc, words.as_slice(), load)
}

fn run_image<H: Clock + Threads + Sync>(
    rt: &H,
    alloc: Global,
    words: &[u64],
    load: &Load,
) -> Result<(Made, Operations), Error> {
    let device = SimPmem::from_words(alloc, words)?;
    let (made, device) = run_opened(rt, alloc, device, load)?;
    Ok((made, device.operations()))
}

// Runs the load in a room over the device. Returns what it did, and the device.
fn run_opened<H: Clock + Threads + Sync, D: Pmem + Drop + Send + Sync>(
    rt: &H,
    alloc: Global,
    device: D,
    load: &Load,
) -> Result<(Made, D), Error>
    requires at_rest { IsAtRest (D.state device) }
{
    let mut room = open(rt, alloc, device)?;
    let made = run_load(rt, &mut room, load);
    let device = room.into_device();
    Ok((made?, device))
}

/// The words of the image of a room that was closed once each key had a row.
pub fn image_of_keys<H: Threads + Sync>(
    rt: &H,
    alloc: Global,
    load: &Load,
) -> Result<Vec<u64>, Error> {
    let words = zeros(alloc, geometry_of(load)?)?;
    let device = SimPmem::from_words(alloc, words.as_slice())?;
    Ok(closed(rt, alloc, device, load)?.image()?)
}

/// The device of a room that was closed once each key had a row.
pub fn closed<H: Threads + Sync, D: Pmem + Drop + Send + Sync>(
    rt: &H,
    alloc: Global,
    device: D,
    load: &Load,
) -> Result<D, Fault> {
    let mut room = new_room(rt, alloc, device, load)?;
    match put_each_key(&mut room, load) {
        Ok(()) => close(room),
        Err(fault) => Err(fault),
    }
}

/// Closes the room.
pub fn close<D: Pmem + Drop>(room: Room<D>) -> Result<D, Fault> {
    match room.close() {
        Ok(device) => Ok(device),
        Err((fault, _device)) => Err(fault),
    }
}

/// A device for the load, which keeps neither its history nor its image.
pub fn plain_device(alloc: Global, load: &Load) -> Result<JournaledPmem<Nowhere>, Error> {
    let words = zeros(alloc, geometry_of(load)?)?;
    Ok(plain(alloc, words)?)
}

/// A device for the load, whose image is kept in the file of this name.
pub fn file_device<H: Files<File = File>>(
    rt: &H,
    alloc: Global,
    name: &str,
    load: &Load,
) -> Result<FileDevice, Error> {
    Ok(FileDevice::open(rt, alloc, name, geometry_of(load)?)?)
}

// The layout of an image with the slots of the load.
fn geometry_of(load: &Load) -> Result<Geometry, Fault> {
    let places = Geometry::LEAST_PLACES;
    let window = Geometry::MOST_WINDOW;
    if load.slots > Geometry::MOST_SLOTS {
        return Geometry::large(1, load.slots, places, window);
    }
    Geometry::new(load.slots, places, window)
}

/// The words of an image of this layout before it is formatted.
pub fn zeros(alloc: Global, geometry: Geometry) -> Result<Vec<u64>, AllocError> {
    vec![in alloc; 0; geometry.words() as usize]
}

/// A device of these words that keeps its image nowhere.
pub fn plain(alloc: Global, words: Vec<u64>) -> Result<JournaledPmem<Nowhere>, Fault>
    ensures { IfOk result (λ device. IsAtRest (device_of device.trace)) }
{
    match JournaledPmem::new(alloc, words, Nowhere, Geometry::LEAST_PLACES as usize) {
        Ok(device) => Ok(device),
        Err(Nowhere) => Err(Fault::OutOfMemory),
    }
}

/// A room over the device, which it formats.
pub fn new_room<H: Threads + Sync, D: Pmem + Drop + Send + Sync>(
    rt: &H,
    alloc: Global,
    device: D,
    load: &Load,
) -> Result<Room<D>, Fault> {
    let device = formatted(device, load)?;
    open(rt, alloc, device)
}

// The device, formatted with an empty image.
fn formatted<D: Pmem + Drop>(device: D, load: &Load) -> Result<D, Fault>
    ensures { IfOk result (λ device. IsAtRest (D.state device)) }
{
    let mut device = device;
    match format_for(&mut device, load) {
        Ok(()) => Ok(device),
        Err(fault) => Err(fault),
    }
}

fn format_for<D: Pmem>(device: &mut D, load: &Load) -> Result<(), Fault>
    ensures { OnOk result (IsAtRest (D.state device.new)) }
{
    format(device, geometry_of(load)?)
}

/// A room over the device.
pub fn open<H: Threads + Sync, D: Pmem + Drop + Send + Sync>(
    rt: &H,
    alloc: Global,
    device: D,
) -> Result<Room<D>, Fault>
    requires at_rest { IsAtRest (D.state device) }
{
    match Room::open(rt, alloc, device) {
        Ok(room) => Ok(room),
        Err((fault, _device)) => Err(fault),
    }
}

/// Gives each key a row, in batches of 32.
pub fn put_each_key<D: Pmem + Drop>(room: &mut Room<D>, load: &Load) -> Result<(), Fault> {
    let each = Load {
        commits: load.keys,
        batch: 32,
        order: load.order.in_turn(),
        ..*load
    };
    for cycle in 0..cycles(&each) {
        commit_batch(room, &each, cycle)?;
    }
    Ok(())
}

/// Makes all updates, each in a session of its own, and then all reads. The collector makes rounds as in a database: one whenever a
/// fourth of the slots was written.
pub fn run_load<H: Clock, D: Pmem + Drop>(
    rt: &H,
    room: &mut Room<D>,
    load: &Load,
) -> Result<Made, Error> {
    let (ticks, committing) = time_commits(rt, room, load)?;
    let (rows, reading) = time_reads(rt, room, load)?;
    Ok(Made {
        cycles: cycles(load),
        ticks,
        rows,
        committing,
        reading,
    })
}

// How many ticks the updates took, and how much time.
fn time_commits<H: Clock, D: Pmem + Drop>(
    rt: &H,
    room: &mut Room<D>,
    load: &Load,
) -> Result<(u64, Duration), Error> {
    let start = Instant::now(rt)?;
    let ticks = commit_all(room, load)?;
    Ok((ticks, start.elapsed(rt)?))
}

fn commit_all<D: Pmem + Drop>(room: &mut Room<D>, load: &Load) -> Result<u64, Fault> {
    let mut ticks: u64 = 0;
    for cycle in 0..cycles(load) {
        ticks = ticks.saturating_add(commit_batch(room, load, cycle)?);
        collect_if_due(room, load, cycle)?;
    }
    Ok(ticks)
}

// How many rows the reads found, and how long they took.
fn time_reads<H: Clock, D: Pmem + Drop>(
    rt: &H,
    room: &mut Room<D>,
    load: &Load,
) -> Result<(u64, Duration), Error> {
    let start = Instant::now(rt)?;
    let rows = read_rows(room, load)?;
    Ok((rows, start.elapsed(rt)?))
}

/// Makes the round that sweeps, and then this many more rounds, in a room whose slots are free.
pub fn visit_free<D: Pmem + Drop>(room: &mut Room<D>, rounds: u64) -> Result<(), Fault> {
    visit_each(room)?;
    for _ in 0..rounds {
        visit_each(room)?;
    }
    Ok(())
}

// A visit to each slot, and to the closing place.
fn visit_each<D: Pmem + Drop>(room: &mut Room<D>) -> Result<(), Fault> {
    let slots = room.geometry().slots();
    for _ in 0..slots {
        visit(room)?;
    }
    visit(room)?;
    Ok(())
}

/// Makes all updates. Those of a batch are in one transaction.
pub fn run_together<H: Clock, D: Pmem + Drop>(
    rt: &H,
    room: &mut Room<D>,
    load: &Load,
) -> Result<Duration, Error> {
    let start = Instant::now(rt)?;
    commit_all_together(room, load)?;
    Ok(start.elapsed(rt)?)
}

fn commit_all_together<D: Pmem + Drop>(room: &mut Room<D>, load: &Load) -> Result<(), Fault> {
    for cycle in 0..cycles(load) {
        commit_together(room, load, cycle)?;
        collect_if_due(room, load, cycle)?;
    }
    Ok(())
}

fn cycles(load: &Load) -> u64 {
    load.commits.div_ceil(load.batch.max(1))
}

// The number of the first update in a batch, and the one after its last.
fn numbers_in(load: &Load, cycle: u64) -> (u64, u64) {
    let first = cycle.saturating_mul(load.batch);
    (first, first.saturating_add(load.batch).min(load.commits))
}

// Makes a round of the collector, if a fourth of the slots was written since the last one.
fn collect_if_due<D: Pmem + Drop>(
    room: &mut Room<D>,
    load: &Load,
    cycle: u64,
) -> Result<(), Fault> {
    let (first, end) = numbers_in(load, cycle);
    let fourth = (load.slots / 4).max(1);
    if first / fourth < end / fourth {
        collect(room)?;
    }
    Ok(())
}

/// Updates one key in each session of a batch, and covers all of them with one record. Returns how many ticks that took.
pub fn commit_batch<D: Pmem + Drop>(
    room: &mut Room<D>,
    load: &Load,
    cycle: u64,
) -> Result<u64, Fault> {
    let (first, end) = numbers_in(load, cycle);
    for number in first..end {
        let session = begin(room)?;
        put(room, session, load.order.key(number, load.keys), number)?;
        draw(room, session)?;
        stamp(room, session)?;
    }
    let ticks = cover(room)?;
    for (session, _) in (2..).zip(first..end) {
        kinds::end(room, session)?;
    }
    Ok(ticks)
}

// Updates the keys of a batch in one session, and covers that.
fn commit_together<D: Pmem + Drop>(
    room: &mut Room<D>,
    load: &Load,
    cycle: u64,
) -> Result<(), Fault> {
    let (first, end) = numbers_in(load, cycle);
    let session = begin(room)?;
    for number in first..end {
        put(room, session, load.order.key(number, load.keys), number)?;
    }
    draw(room, session)?;
    for _ in first..end {
        stamp(room, session)?;
    }
    cover(room)?;
    kinds::end(room, session)
}

// Makes the reads in one session. Returns how many rows it found.
fn read_rows<D: Pmem + Drop>(room: &mut Room<D>, load: &Load) -> Result<u64, Fault> {
    let mut rows: u64 = 0;
    let session = begin(room)?;
    for number in 0..load.reads {
        if get(room, session, load.order.key(number, load.keys))? {
            rows = rows.saturating_add(1);
        }
    }
    room.abort(session)?;
    Ok(rows)
}
