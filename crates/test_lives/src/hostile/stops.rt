use crate::hostile::judge::{Allowed, Counts, judge};
use crate::hostile::life::{Failing, crashed_words, live, operations, words_before};
use crate::hostile::stories::StoryTables;
use asks::{Table, steps};
use base::fault::Fault;
use base::step::Step;
use pmem::Pmem;
use pmem_model::{Choice, SimPmem};
use std::alloc::Global;
use std::thread::Threads;

// If more words than this have several survivors, each of them alone is the oldest or the newest.
const MOST_WORDS: usize = 10;

// After each number of operations that this divides, opening the oldest and the newest image is stopped too, unless a story
// asks for that with all images.
const REOPENED: u64 = 10;

/// Lets the story's life stop after each number of operations, and each one operation fail.
pub fn stop_each<R: Threads + Sync>(
    rt: &R,
    alloc: Global,
    entry: &StoryTables,
    counts: &mut Counts,
) -> Result<(), Fault> {
    let story = &entry.0;
    let words = words_before(rt, alloc, story)?;
    let steps = steps(alloc, story.life)?;
    for made in 0..story.operations.saturating_add(1) {
        stop_at(rt, alloc, entry, (&words, &steps), made, counts)?;
    }
    Ok(())
}

// Lets the life stop after this many operations, and the one after them fail.
fn stop_at<R: Threads + Sync>(
    rt: &R,
    alloc: Global,
    entry: &StoryTables,
    life: (&[u64], &[Step]),
    made: u64,
    counts: &mut Counts,
) -> Result<(), Fault> {
    stop_once(rt, alloc, entry, life, (Failing::After(made), made), counts)?;
    stop_once(rt, alloc, entry, life, (Failing::Once(made), made), counts)
}

// Lets the life, which makes this many operations, stop, and judges what it may leave.
fn stop_once<R: Threads + Sync>(
    rt: &R,
    alloc: Global,
    entry: &StoryTables,
    life: (&[u64], &[Step]),
    stop: (Failing, u64),
    counts: &mut Counts,
) -> Result<(), Fault> {
    let (story, _, tables) = entry;
    let (words, steps) = life;
    let (failing, made) = stop;
    let left = live(rt, alloc, words, (steps, story.closes), Some(failing))?;
    counts.stops = counts.stops.saturating_add(1);
    counts.expect(operations(&left.device) == made);
    counts.expect(left.failed == (made < story.operations));
    let allowed = allowed_after(tables, story.ruling(made), left.acknowledged);
    judge_stop(rt, alloc, (entry, made), &left.device, &allowed, counts)
}

// Judges what a stop after this many operations may leave, and what stops during the next opening may.
fn judge_stop<R: Threads + Sync>(
    rt: &R,
    alloc: Global,
    stop: (&StoryTables, u64),
    device: &SimPmem,
    allowed: &Allowed,
    counts: &mut Counts,
) -> Result<(), Fault> {
    let ((story, reopens, _), made) = stop;
    let images = images_of(alloc, device)?;
    judge_each(rt, alloc, &images, allowed, counts);
    let again = opened_again(alloc, *reopens, made, device, images)?;
    open_all(rt, alloc, &again, story.opening(), allowed, counts)
}

fn judge_each<R: Threads + Sync>(
    rt: &R,
    alloc: Global,
    images: &[Vec<u64>],
    allowed: &Allowed,
    counts: &mut Counts,
) {
    for words in images {
        judge(rt, alloc, words, allowed, counts);
    }
}

// The images during whose opening there are stops too: each of these if the story asks for that, or two, or none.
fn opened_again(
    alloc: Global,
    reopens: bool,
    made: u64,
    device: &SimPmem,
    images: Vec<Vec<u64>>,
) -> Result<Vec<Vec<u64>>, Fault> {
    if reopens {
        distinct(alloc, images)
    } else if made % REOPENED == 0 {
        two_images(alloc, device)
    } else {
        Ok(Vec::new(alloc))
    }
}

// Each image once.
fn distinct(alloc: Global, images: Vec<Vec<u64>>) -> Result<Vec<Vec<u64>>, Fault> {
    let mut found = Vec::new(alloc);
    for words in images {
        if !found.contains(&words) {
            push(&mut found, words)?;
        }
    }
    Ok(found)
}

// The image of the oldest values, and that of the newest.
fn two_images(alloc: Global, device: &SimPmem) -> Result<Vec<Vec<u64>>, Fault> {
    let mut two = Vec::new(alloc);
    push_image(&mut two, device, &Choice::Oldest)?;
    push_image(&mut two, device, &Choice::Newest)?;
    Ok(two)
}

fn push_image(images: &mut Vec<Vec<u64>>, device: &SimPmem, choice: &Choice) -> Result<(), Fault> {
    push(images, crashed_words(device, choice)?)
}

fn push<T: Drop>(items: &mut Vec<T>, item: T) -> Result<(), Fault> {
    match items.push(item) {
        Ok(()) => Ok(()),
        Err(_) => Err(Fault::OutOfMemory),
    }
}

// The tables that a life may leave when this many of its records rule, at least and at most. The record of the opening has
// none of its own.
fn allowed_after(tables: &[Table], ruling: (usize, usize), acknowledged: usize) -> Allowed<'_> {
    let (least, most) = ruling;
    Allowed {
        kept: tables.get(acknowledged..).unwrap_or(&[]),
        now: tables
            .get(least.saturating_sub(1)..most.max(1))
            .unwrap_or(&[]),
    }
}

fn open_all<R: Threads + Sync>(
    rt: &R,
    alloc: Global,
    images: &[Vec<u64>],
    most: u64,
    allowed: &Allowed,
    counts: &mut Counts,
) -> Result<(), Fault> {
    for words in images {
        open_each(rt, alloc, words, most, allowed, counts)?;
    }
    Ok(())
}

// Opens the image with a stop after each number of operations, and judges what is left.
fn open_each<R: Threads + Sync>(
    rt: &R,
    alloc: Global,
    words: &[u64],
    most: u64,
    allowed: &Allowed,
    counts: &mut Counts,
) -> Result<(), Fault> {
    for fuse in 0..opening_of(rt, alloc, words, most, counts)? {
        open_once(rt, alloc, words, fuse, allowed, counts)?;
    }
    Ok(())
}

// How many operations opening the image makes. Without a sweep it makes 39.
fn opening_of<R: Threads + Sync>(
    rt: &R,
    alloc: Global,
    words: &[u64],
    most: u64,
    counts: &mut Counts,
) -> Result<u64, Fault> {
    let whole = live(rt, alloc, words, (&[], false), None)?;
    let made = operations(&whole.device);
    counts.expect(!whole.failed && 39 <= made && made <= most);
    Ok(made)
}

// Opens the image with a stop after this many operations, and judges what is left.
fn open_once<R: Threads + Sync>(
    rt: &R,
    alloc: Global,
    words: &[u64],
    fuse: u64,
    allowed: &Allowed,
    counts: &mut Counts,
) -> Result<(), Fault> {
    let left = live(rt, alloc, words, (&[], false), Some(Failing::After(fuse)))?;
    counts.openings = counts.openings.saturating_add(1);
    counts.expect(left.failed && operations(&left.device) == fuse);
    judge_each(
        rt,
        alloc,
        &two_images(alloc, &left.device)?,
        allowed,
        counts,
    );
    Ok(())
}

// Each image that a crash may leave if few words have several survivors, and otherwise some.
fn images_of(alloc: Global, device: &SimPmem) -> Result<Vec<Vec<u64>>, Fault> {
    let several = with_several(alloc, device)?;
    if several.len() > MOST_WORDS {
        images_apart(alloc, device, &several)
    } else {
        all_images(alloc, device, &several)
    }
}

fn all_images(alloc: Global, device: &SimPmem, several: &[usize]) -> Result<Vec<Vec<u64>>, Fault> {
    let mut images = Vec::new(alloc);
    for number in 0..choices(device, several) {
        let choice = numbered(alloc, device, several, number)?;
        push_image(&mut images, device, &choice)?;
    }
    Ok(images)
}

// What is left with the oldest or the newest value of all words, and the other one of each word alone.
fn images_apart(
    alloc: Global,
    device: &SimPmem,
    several: &[usize],
) -> Result<Vec<Vec<u64>>, Fault> {
    let mut images = two_images(alloc, device)?;
    for word in several {
        push_apart(alloc, &mut images, device, *word)?;
    }
    Ok(images)
}

// The images in which this word alone is the newest, and the oldest.
fn push_apart(
    alloc: Global,
    images: &mut Vec<Vec<u64>>,
    device: &SimPmem,
    word: usize,
) -> Result<(), Fault> {
    push_image(images, device, &apart(alloc, device, word, true)?)?;
    push_image(images, device, &apart(alloc, device, word, false)?)
}

// The words with several survivors.
fn with_several(alloc: Global, device: &SimPmem) -> Result<Vec<usize>, Fault> {
    let mut several = Vec::new(alloc);
    for word in 0..device.words() {
        if device.survivors(word) > 1 {
            push(&mut several, word)?;
        }
    }
    Ok(several)
}

// How many images a crash may leave.
fn choices(device: &SimPmem, several: &[usize]) -> u64 {
    let mut choices: u64 = 1;
    for word in several {
        if *word < device.words() {
            choices = choices.saturating_mul(device.survivors(*word) as u64);
        }
    }
    choices
}

// The choice of this number: the lowest digit is the first word's.
fn numbered(
    alloc: Global,
    device: &SimPmem,
    several: &[usize],
    number: u64,
) -> Result<Choice, Fault> {
    let Ok(mut numbers) = vec![in alloc; 0; device.words()] else {
        return Err(Fault::OutOfMemory);
    };
    let mut rest = number;
    for word in several {
        if let Some(place) = numbers.get_mut(*word)
            && *word < device.words()
        {
            *place = rest;
            rest /= (device.survivors(*word) as u64).max(1);
        }
    }
    Ok(Choice::Each(numbers))
}

// The newest value of one word and the oldest of all others, or the other way around.
fn apart(alloc: Global, device: &SimPmem, word: usize, newest: bool) -> Result<Choice, Fault> {
    let mut numbers = Vec::new(alloc);
    for other in 0..device.words() {
        let last = device.survivors(other).saturating_sub(1) as u64;
        let number = if (other == word) == newest { last } else { 0 };
        push(&mut numbers, number)?;
    }
    Ok(Choice::Each(numbers))
}
