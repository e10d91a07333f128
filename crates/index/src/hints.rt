ghost use Rattle.std.specs.Prelude.{◌<◌};

use crate::entry::KeyedEntry;
use base::key::Key;
use std::alloc::{AllocError, Global};

// Places at which the entries of keys may be, each under a remainder of its key's numbers. A hint needn't be right: keys that
// share a remainder only cost a search by the order of keys.

const FEWEST: usize = 16;

// Which of this many hints is the key's.
fn spot(key: Key, count: usize) -> usize
    requires { 0 < count }
    ensures { result < count }
{
    let number = key.key.wrapping_add(0x9E37_79B9 * key.table as u64);
    (number % count as u64) as usize
}

/// The place at which the key's entry may be.
#[inline(always)]
pub(crate) fn hint_for(hints: &[u32], key: Key) -> Option<usize> {
    if hints.is_empty() {
        return None;
    }
    Some(hints[spot(key, hints.len())] as usize)
}

/// The key's entry is at this place.
#[inline(always)]
pub(crate) fn note(hints: &mut [u32], key: Key, place: usize) {
    if !hints.is_empty() {
        let at = spot(key, hints.len());
        // A greater place isn't in its hint, which costs a search.
        hints[at] = (place % (1 << 32)) as u32;
    }
}

/// Hints that nothing is noted in, half as many again as there may be keys.
pub(crate) fn blank_hints(alloc: Global, keys: usize) -> Result<Vec<u32>, AllocError> {
    let count = keys.saturating_add(keys / 2).saturating_add(FEWEST);
    vec![in alloc; 0; count]
}

// The entry of each key is at its place.
fn note_all(hints: &mut [u32], entries: &[KeyedEntry]) {
    for place in 0..entries.len() {
        note(hints, entries[place].key(), place);
    }
}

/// Renews all hints, with more of them, unless there are more hints than entries.
#[inline(always)]
pub(crate) fn widen(hints: &mut Vec<u32>, entries: &[KeyedEntry]) -> Result<(), AllocError> {
    if entries.len() < hints.len() {
        return Ok(());
    }
    renew(hints, entries)
}

// Renews all hints, with more of them than there are entries.
#[cold]
#[inline(never)]
fn renew(hints: &mut Vec<u32>, entries: &[KeyedEntry]) -> Result<(), AllocError> {
    let count = entries.len();
    hints.resize(count.saturating_add(count).saturating_add(FEWEST), 0)?;
    note_all(hints.as_mut_slice(), entries);
    Ok(())
}
