use crate::engine::Load;
use crate::keys::Order;
use anyhow::{Error, bail};
use std::num::ParseIntError;

/// What is measured.
#[derive(Clone, Copy)]
pub enum Measure<'a> {
    /// A load on the modelled device.
    Engine(Load),
    /// The file of this name is created, with a row for each key of the load.
    Fill(&'a str, Load),
    /// A load on a device whose image is kept in the file of this name, from opening it to closing it.
    Life(&'a str, Load),
    /// Work on a device that keeps neither its history nor its image.
    Plain(Work),
    Readers(usize),
    Opening(u64),
    Openings { slots: u64, times: u64 },
    /// A little of everything.
    Little,
}

/// What is done in a room.
#[derive(Clone, Copy)]
pub enum Work {
    Run(Load),
    /// The updates of a batch in one transaction. Nothing is read.
    Together(Load),
    /// One commit after the other, while a commit that was drawn before them is never stamped.
    Slow(Load),
    /// Pairs of puts, of which one takes the slot of a row that was deleted, and the next one a slot that is far from it.
    Far(Load),
    /// Puts for which no slot is free, since each has a row.
    Full(Load),
    /// This many rounds of the collector over free slots.
    Visits { slots: u64, rounds: u64 },
    /// Sessions that update a key each.
    Steps(u64),
    Reads(u64),
}

/// What the words ask for.
pub fn measure_of<'a>(words: &[&'a str]) -> Result<Measure<'a>, Error> {
    match words {
        ["engine", load @ ..] => Ok(Measure::Engine(load_of(load)?)),
        ["plain", load @ ..] => Ok(Measure::Plain(Work::Run(load_of(load)?))),
        ["together", load @ ..] => Ok(Measure::Plain(Work::Together(load_of(load)?))),
        ["far", load @ ..] => Ok(Measure::Plain(Work::Far(load_of(load)?))),
        ["full", load @ ..] => Ok(Measure::Plain(Work::Full(load_of(load)?))),
        ["fill", name, load @ ..] => Ok(Measure::Fill(name, load_of(load)?)),
        ["life", name, load @ ..] => Ok(Measure::Life(name, load_of(load)?)),
        _ => Ok(calls_of(words)?),
    }
}

fn load_of(words: &[&str]) -> Result<Load, Error> {
    match words {
        [slots, keys, commits, batch, reads] => {
            Ok(parse_load(slots, keys, commits, batch, reads)?)
        }
        [slots, keys, commits, batch, reads, "random"] => Ok(Load {
            order: Order::Random,
            ..parse_load(slots, keys, commits, batch, reads)?
        }),
        _ => bail!("a load is SLOTS KEYS COMMITS BATCH READS [random]"),
    }
}

fn parse_load(
    slots: &str,
    keys: &str,
    commits: &str,
    batch: &str,
    reads: &str,
) -> Result<Load, ParseIntError> {
    Ok(Load {
        slots: slots.parse::<u64>()?,
        keys: keys.parse::<u64>()?,
        commits: commits.parse::<u64>()?,
        batch: batch.parse::<u64>()?,
        reads: reads.parse::<u64>()?,
        order: Order::Counted,
    })
}

// Readers, opening images and each kind of call, or a little of everything.
fn calls_of<'a>(words: &[&'a str]) -> Result<Measure<'a>, ParseIntError> {
    match words {
        ["readers", readers] => Ok(Measure::Readers(readers.parse::<usize>()?)),
        ["open", slots] => Ok(Measure::Opening(slots.parse::<u64>()?)),
        ["openings", slots, times] => {
            let (slots, times) = parse_two(slots, times)?;
            Ok(Measure::Openings { slots, times })
        }
        ["visits", slots, rounds] => {
            let (slots, rounds) = parse_two(slots, rounds)?;
            Ok(Measure::Plain(Work::Visits { slots, rounds }))
        }
        ["steps", slots] => Ok(Measure::Plain(Work::Steps(slots.parse::<u64>()?))),
        ["reads", slots] => Ok(Measure::Plain(Work::Reads(slots.parse::<u64>()?))),
        _ => Ok(Measure::Little),
    }
}

fn parse_two(first: &str, second: &str) -> Result<(u64, u64), ParseIntError> {
    Ok((first.parse::<u64>()?, second.parse::<u64>()?))
}
