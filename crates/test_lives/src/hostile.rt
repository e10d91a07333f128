//! Runs of the room on devices and images that are hostile to it. It prints how many runs of each kind there were, and that
//! nothing was lost and nothing wrong. Then it prints what lives and a board return.

mod images;
mod judge;
mod life;
pub mod published;
mod refused;
mod runs;
mod slots;
mod stops;
mod stories;

use crate::hostile::images::{change_at_random, change_each, cut_each, sound_words};
use crate::hostile::judge::Counts;
use crate::hostile::published::publish;
use crate::hostile::refused::live_run;
use crate::hostile::runs::RUNS;
use crate::hostile::slots::fill_at_random;
use crate::hostile::stops::stop_each;
use crate::hostile::stories::STORIES;
use anyhow::{Error, bail};
use asks::Story;
use base::fault::Fault;
use std::alloc::Global;
use std::sync::Wait;
use std::thread::Threads;

/// All of them, in turn.
pub fn run_all<H: Print + Threads + Wait + Sync>(rt: &H, alloc: Global) -> Result<(), Error> {
    stop_stories(rt, alloc)?;
    run_images(rt, alloc)?;
    for run in RUNS {
        live_run(rt, alloc, run, true)?;
    }
    publish(rt, alloc)
}

fn run_images<H: Print + Threads + Sync>(rt: &H, alloc: Global) -> Result<(), Error> {
    print_images(rt, "changed words", &change_each(rt, alloc)?)?;
    print_images(rt, "cut images", &cut_each(rt, alloc)?)?;
    print_images(rt, "changes at random", &at_random(rt, alloc)?)?;
    print_filled(rt, fill_at_random(rt, alloc, 2_000)?)
}

fn print_filled<H: Print>(rt: &H, filled: (Counts, u64)) -> Result<(), Error> {
    let (counts, sound) = filled;
    println!(rt;
        "slots at random: images {} sound {sound} wrong {}",
        counts.images, counts.wrong
    )?;
    Ok(())
}

/// Runs only the run of this name.
pub fn live_named<H: Print + Threads + Sync>(
    rt: &H,
    alloc: Global,
    name: &str,
    reserved: bool,
) -> Result<(), Error> {
    for run in RUNS {
        if run.name == name {
            return live_run(rt, alloc, run, reserved);
        }
    }
    bail!("no run has this name")
}

// Images of which few words or many are changed at random.
fn at_random<H: Threads + Sync>(rt: &H, alloc: Global) -> Result<Counts, Fault> {
    let fresh = sound_words(alloc, false)?;
    let committed = sound_words(alloc, true)?;
    let mut counts = Counts::none();
    change_at_random(rt, alloc, &fresh, (1, 1_000, 2), &mut counts)?;
    change_at_random(rt, alloc, &committed, (2, 5_000, 2), &mut counts)?;
    change_at_random(rt, alloc, &committed, (3, 2_000, 400), &mut counts)?;
    Ok(counts)
}

fn print_images<H: Print>(rt: &H, name: &str, counts: &Counts) -> Result<(), Error> {
    println!(rt; "{name}: images {} wrong {}", counts.images, counts.wrong)?;
    Ok(())
}

// Lets the life of each story stop everywhere.
fn stop_stories<H: Print + Threads + Sync>(rt: &H, alloc: Global) -> Result<(), Error> {
    for entry in STORIES {
        let mut counts = Counts::none();
        stop_each(rt, alloc, entry, &mut counts)?;
        print_story(rt, &entry.0, &counts)?;
    }
    Ok(())
}

fn print_story<H: Print>(rt: &H, story: &Story, counts: &Counts) -> Result<(), Error> {
    println!(rt;
        "{}: operations {} stops {} images {} openings {} lost {} wrong {}",
        story.name,
        story.operations,
        counts.stops,
        counts.images,
        counts.openings,
        counts.lost,
        counts.wrong
    )?;
    Ok(())
}
