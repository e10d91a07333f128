//! Lives of a room that are hostile to it, and random lives next to a model. Without words it runs all of the first kind, and
//! the second for 30 seeds. `SEED COUNT` runs those of COUNT seeds from SEED on, and prints how much that was. `refused NAME`
//! runs only the hostile run of that name, and `refused NAME reserved` on a device that has memory for its stores: for a caller
//! that refuses allocations.
#![tactic(auto)]

mod hostile;
mod random;

use anyhow::{Error, bail};
use hostile::published::publish;
use hostile::{live_named, run_all};
use random::{SEEDS, live_seeds, print_counts};
use std::alloc::Global;
use std::env;
use std::sync::Wait;
use std::thread::Threads;

fn main(rt: HostRuntime) -> Result<(), Error> {
    let alloc = rt.alloc();
    let words: Vec<String> = env::args(&rt)?.skip(1).collect(alloc)?;
    let words: Vec<&str> = words.iter().map(|word| word.as_str()).collect(alloc)?;
    run(&rt, alloc, words.as_slice())
}

fn run<H: Print + Eprint + Threads + Wait + Sync>(
    rt: &H,
    alloc: Global,
    words: &[&str],
) -> Result<(), Error> {
    match words {
        [] => {
            run_all(rt, alloc)?;
            live_seeds(rt, alloc, 0, SEEDS)?;
            println!(rt; "{SEEDS} seeds as the model says")?;
            Ok(())
        }
        ["refused", "board"] => publish(rt, alloc),
        ["refused", name] => live_named(rt, alloc, name, false),
        ["refused", name, "reserved"] => live_named(rt, alloc, name, true),
        [first, count] => live_from(rt, alloc, first, count),
        _ => bail!("the words are none, SEED COUNT, or refused NAME [reserved]"),
    }
}

fn live_from<H: Print + Eprint + Threads + Sync>(
    rt: &H,
    alloc: Global,
    first: &str,
    count: &str,
) -> Result<(), Error> {
    let (first, count) = (first.parse::<u64>()?, count.parse::<u64>()?);
    print_counts(rt, &live_seeds(rt, alloc, first, count)?)
}
