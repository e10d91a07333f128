use std::alloc::{AllocError, Global};

// The letters WBL-PRF1.
const LETTERS: u64 = 0x5742_4C2D_5052_4631;

const SLOTS: u64 = 4;

const WORDS: u64 = 104;

// The first word of the places, and of the slots.
const PLACES: usize = 8;

const FIRST_SLOT: usize = 72;

/// The words of an image with four slots, two places and a window of 64. It has a superblock and the record of this number, which
/// persists the timestamps below `dirty`.
pub fn image(alloc: Global, gate: u64, dirty: u64) -> Result<Vec<u64>, AllocError> {
    let mut words = vec![in alloc; 0; 104]?;
    let place = if gate % 2 == 0 { PLACES } else { PLACES + 32 };
    set(&mut words, 0, LETTERS);
    set(&mut words, 1, 2);
    set(&mut words, 2, SLOTS);
    set(&mut words, 3, 2);
    set(&mut words, 4, 64);
    set(&mut words, 5, WORDS);
    set(&mut words, place, gate);
    set(&mut words, place + 1, dirty.saturating_sub(1));
    set(&mut words, place + 2, dirty);
    Ok(words)
}

/// Sets the begin of the slot to this timestamp.
pub fn set_begin(words: &mut Vec<u64>, slot: usize, begin: u64) {
    set(
        words,
        FIRST_SLOT.saturating_add(slot.saturating_mul(8)),
        begin,
    );
}

fn set(words: &mut Vec<u64>, at: usize, word: u64) {
    if let Some(place) = words.get_mut(at) {
        *place = word;
    }
}

/// The bytes of a file with these words.
pub fn bytes_of(alloc: Global, words: &[u64]) -> Result<Vec<u8>, AllocError> {
    let mut bytes = Vec::new(alloc);
    for word in words {
        bytes.extend_from_slice(&word.to_le_bytes())?;
    }
    Ok(bytes)
}
