//! Random lives of a room, in which sessions, the committer and the collector take turns, next to a model of plain tables and
//! slots, over images of all versions of the format. Opening stops too, several times in a row.

mod chance;
mod counts;
mod devices;
mod lives;
mod model;
mod slots;

use crate::random::counts::Counts;
use crate::random::lives::live_all;
use anyhow::Error;
use base::geometry::Geometry;
use std::alloc::Global;
use std::thread::Threads;

/// How many seeds are run if no words say otherwise.
pub const SEEDS: u64 = 30;

// Those of version 4 come last, with slots of one line, of two and of eight: the word is 4, and 256 for each line.
const VERSIONS: [u64; 6] = [
    1,
    Geometry::PLAIN_VERSION,
    Geometry::WIDE_VERSION,
    260,
    516,
    2_052,
];

/// Prints how many lives, steps and stops there were.
pub fn print_counts<H: Print>(rt: &H, counts: &Counts) -> Result<(), Error> {
    let (lives, steps) = (counts.lives, counts.steps);
    println!(rt; "lives {lives} steps {steps} stops {}", counts.stops)?;
    Ok(())
}

/// The lives of this many seeds from this one on, of the versions in turn. It fails at the first that differ from the model's.
pub fn live_seeds<H: Eprint + Threads + Sync>(
    rt: &H,
    alloc: Global,
    first: u64,
    count: u64,
) -> Result<Counts, Error> {
    let mut counts = Counts::none();
    for seed in first..first.saturating_add(count) {
        let version = VERSIONS[seed as usize % VERSIONS.len()];
        if let Err(error) = live_all(rt, alloc, seed, version, &mut counts) {
            eprintln!(rt; "seed {seed}")?;
            return Err(error);
        }
    }
    Ok(counts)
}
