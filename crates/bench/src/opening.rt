ghost use Rattle.pmem.specs.Words.{IsAtRest};

use crate::engine::plain;
use anyhow::Error;
use base::fault::Fault;
use pmem::Pmem;
use pmem_model::SimPmem;
use room::Room;
use std::alloc::Global;
use std::rt::Clock;
use std::thread::Threads;
use std::time::Instant;

/// How long it takes to open the image, in nanoseconds.
pub fn time_opening<H: Threads + Sync + Clock>(
    rt: &H,
    alloc: Global,
    words: &[u64],
) -> Result<u128, Error> {
    let device = SimPmem::from_words(alloc, words)?;
    time_open(rt, alloc, device)
}

fn time_open<H: Threads + Sync + Clock, D: Pmem + Drop + Send + Sync>(
    rt: &H,
    alloc: Global,
    device: D,
) -> Result<u128, Error>
    requires at_rest { IsAtRest (D.state device) }
{
    let start = Instant::now(rt)?;
    match Room::open(rt, alloc, device) {
        Ok(_room) => nanoseconds_since(rt, start),
        Err((fault, _device)) => Err(Error::from(fault)),
    }
}

fn nanoseconds_since<H: Clock>(rt: &H, start: Instant) -> Result<u128, Error> {
    Ok(start.elapsed(rt)?.as_nanos())
}

/// Opens the image this many times, each time on a device that keeps neither its history nor its image.
pub fn open_often<H: Threads + Sync>(
    rt: &H,
    alloc: Global,
    words: &[u64],
    times: u64,
) -> Result<(), Error> {
    for _ in 0..times {
        open_plain(rt, alloc, words)?;
    }
    Ok(())
}

fn open_plain<H: Threads + Sync>(rt: &H, alloc: Global, words: &[u64]) -> Result<(), Error> {
    let device = plain(alloc, words.to_vec(alloc)?)?;
    Ok(open_once(rt, alloc, device)?)
}

fn open_once<H: Threads + Sync, D: Pmem + Drop + Send + Sync>(
    rt: &H,
    alloc: Global,
    device: D,
) -> Result<(), Fault>
    requires at_rest { IsAtRest (D.state device) }
{
    match Room::open(rt, alloc, device) {
        Ok(_room) => Ok(()),
        Err((fault, _device)) => Err(fault),
    }
}
