//! Images that are both checked and opened: the results agree.
use crate::fixture::{changed_words, fresh_words, leave, opened};
use crate::numbers::next;
use base::fault::Fault;
use image_check::check;
use pmem_model::SimPmem;
use std::alloc::Global;
use std::process::Abort;
use std::thread::Threads;

const LAST_DIRTY: u64 = 4_611_686_018_427_387_887;

const LAST_GATE: u64 = 4_611_686_018_427_387_903;

// The words of the fresh image with the first commit: table 1, key 7 has the row `6162`.
const FIRST_COMMIT: &[(usize, u64)] = &[
    (41, 1),
    (42, 2),
    (72, 1),
    (74, 7),
    (75, 131_073),
    (76, 25_185),
];

fn committed_words() -> [u64; 104] {
    changed_words(FIRST_COMMIT)
}

// A value that an image may have, or that is just out of range, or any.
fn value(state: &mut u64) -> u64 {
    match next(state) % 8 {
        0 => 0,
        1 => 1,
        2 => next(state) % 16,
        3 => 131_073,
        4 => LAST_DIRTY + next(state) % 32,
        5 => next(state) % 131_072,
        6 => u64::MAX,
        _ => (next(state) << 32) | next(state),
    }
}

// The fault that a check finds.
fn checked<H: Threads + Sync>(rt: &H, alloc: Global, words: &[u64]) -> Option<Fault> {
    check(rt, alloc, words).err()
}

// The fault that opening finds.
fn refused<H: Threads + Sync + Abort>(
    rt: &H,
    alloc: Global,
    words: &[u64],
) -> Result<Option<Fault>, Fault> {
    let device = SimPmem::from_words(alloc, words)?;
    match opened(rt, alloc, device) {
        Ok(room) => {
            leave(room);
            Ok(None)
        }
        Err(fault) => Ok(Some(fault)),
    }
}

// A sound image opens, limits of numbers aside. No other does, for the fault that the check
// finds.
fn assert_agree<H: Threads + Sync + Abort>(
    rt: &H,
    alloc: Global,
    words: &[u64],
    seed: u64,
) -> Result<(), Fault> {
    let checked = checked(rt, alloc, words);
    let opened = refused(rt, alloc, words)?;
    if checked.is_none() {
        assert!(rt;
            matches!(opened, None | Some(Fault::TimestampsOut)),
            "seed {seed}"
        );
    } else {
        assert_eq!(rt; opened, checked, "seed {seed}");
    }
    Ok(())
}

#[test]
fn each_word_with_other_values_is_checked_and_opened_alike(rt: HostRuntime) -> Result<(), Fault> {
    let values = [0, 1, 2, 3, 8, 9, LAST_GATE, LAST_GATE + 1, u64::MAX];
    for word in 0..104 {
        for value in values {
            let mut words = committed_words();
            words[word] = value;
            assert_agree(&rt, rt.alloc(), &words, 0)?;
        }
    }
    Ok(())
}

#[test]
fn random_changes_are_checked_and_opened_alike(rt: HostRuntime) -> Result<(), Fault> {
    for seed in 0..2_000 {
        let mut state = seed;
        let mut words = committed_words();
        for _ in 0..1 + next(&mut state) % 4 {
            // The words from the ruling record on are hit more often than the others.
            let any = next(&mut state) % 104;
            let at = if next(&mut state) % 4 == 0 {
                any
            } else {
                40 + any % 64
            };
            words[at as usize] = value(&mut state);
        }
        assert_agree(&rt, rt.alloc(), &words, seed)?;
    }
    Ok(())
}

#[test]
fn random_words_are_checked_and_opened_alike(rt: HostRuntime) -> Result<(), Fault> {
    for seed in 0..500 {
        let mut state = seed;
        let mut words = [0; 104];
        for word in words.iter_mut() {
            *word = value(&mut state);
        }
        // Half of them have a superblock.
        if next(&mut state) % 2 == 0 {
            words[..8].copy_from_slice(&fresh_words()[..8]);
        }
        assert_agree(&rt, rt.alloc(), &words, seed)?;
    }
    Ok(())
}
