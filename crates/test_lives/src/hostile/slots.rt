//! Images whose slots hold random words, under a record that persists timestamps up to 2^60 and reserves them up to 2^61.
use crate::hostile::images::judge_words;
use crate::hostile::judge::Counts;
use crate::hostile::life::formatted;
use base::fault::Fault;
use rand_core::utils::NextWord;
use rand_pcg::Pcg32;
use std::alloc::Global;
use std::thread::Threads;

const SLOTS: u64 = 8;

// The word of the first slot, and those of the record that rules.
const FIRST: usize = 72;

const PERSISTED: usize = 41;

const DIRTY: usize = 42;

/// Judges this many images. How many of them are sound?
pub fn fill_at_random<R: Threads + Sync>(
    rt: &R,
    alloc: Global,
    images: u64,
) -> Result<(Counts, u64), Fault> {
    let mut chance = Pcg32::new(4, 54);
    let mut counts = Counts::none();
    let mut sound: u64 = 0;
    for _ in 0..images {
        let words = filled(alloc, &mut chance)?;
        if judge_words(rt, alloc, &words, &mut counts) {
            sound = sound.saturating_add(1);
        }
    }
    Ok((counts, sound))
}

fn filled(alloc: Global, chance: &mut Pcg32) -> Result<Vec<u64>, Fault> {
    let mut words = formatted(alloc, 2, SLOTS)?;
    set(&mut words, PERSISTED, 1 << 60);
    set(&mut words, DIRTY, 1 << 61);
    for slot in 0..SLOTS as usize {
        fill(&mut words, FIRST + 8 * slot, chance);
    }
    Ok(words)
}

fn set(words: &mut [u64], at: usize, value: u64) {
    if let Some(word) = words.get_mut(at) {
        *word = value;
    }
}

fn any(chance: &mut Pcg32) -> u64 {
    u64::from(chance.next_word()) << 32 | u64::from(chance.next_word())
}

// Fills the slot that begins with this word. Few slots are bad by themselves.
fn fill(words: &mut [u64], at: usize, chance: &mut Pcg32) {
    let filled = any(chance) % 5;
    set(words, at, timestamp(chance));
    set(words, at.saturating_add(1), timestamp(chance));
    set(words, at.saturating_add(2), any(chance) % 64);
    set(words, at.saturating_add(3), meta(chance, 8 * filled));
    for word in 4..8_usize {
        let value = if (word as u64) < 4 + filled {
            any(chance)
        } else {
            0
        };
        set(words, at.saturating_add(word), value);
    }
}

// 0, one that is persisted, one that is reserved, or rarely one that is neither.
fn timestamp(chance: &mut Pcg32) -> u64 {
    let any = any(chance);
    match any % 16 {
        0..5 => 0,
        5..8 => 1 + any / 16 % 16,
        8..12 => any >> 4,
        12..15 => (any >> 4) + (1 << 60),
        _ => any >> 2,
    }
}

// A table, this length and the slot of the version before it. Rarely any word.
fn meta(chance: &mut Pcg32, length: u64) -> u64 {
    let any = any(chance);
    match any % 64 {
        0 => any,
        1 => length.saturating_add(1) << 16 | 1,
        _ => any / 64 % 9 << 32 | length << 16 | any / 1_024 % 3,
    }
}
