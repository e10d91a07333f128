ghost use Rattle.std.specs.Prelude.{◌≡◌, ◌↔◌, ◌<◌, length, slice_set, IsTrue};
ghost use Rattle.base.specs.Images.{is_formatted};
ghost use Rattle.pmem_file.specs.Journaled.{NamesPlaces, is_gate, is_gate_line, places_named};

use log_area::FORMATTED;

/// Is it a word of the superblock, or the first of a place for a record?
#[inline(always)]
pub(crate) fn is_gate(places: usize, word: usize) -> bool
    ensures { result ≡ is_gate places word }
{
    // Most words are behind all places.
    if word / 32 > places {
        return false;
    }
    word < 8 || word % 32 == 8 && (word - 8) / 32 < places
}

/// Is it the superblock's line, or the first of a place for a record?
pub(crate) fn is_gate_line(places: usize, line: usize) -> bool
    ensures { result ≡ is_gate_line places line }
{
    line == 0 || line % 4 == 1 && (line - 1) / 4 < places
}

/// Whether they are the words of a formatted image.
pub(crate) fn is_formatted(words: &[u64]) -> bool
    ensures { result ≡ is_formatted words.now }
{
    words.len() >= 8 && words[0] == FORMATTED
}

/// How many places for records a formatted image names, and otherwise this number.
pub(crate) fn places_named(words: &[u64], places: usize) -> usize
    ensures { result ≡ places_named words.now places }
{
    if is_formatted(words) {
        words[3] as usize
    } else {
        places
    }
}

/// Whether the image names no other places than these, once this word has this value.
pub(crate) fn keeps_places(words: &[u64], places: usize, word: usize, value: u64) -> bool
    ensures { IsTrue result ↔ NamesPlaces places (slice_set words.now word value) }
{
    if words.len() < 8 {
        return true;
    }
    let first = if word == 0 { value } else { words[0] };
    let named = if word == 3 { value } else { words[3] };
    first != FORMATTED || named == places as u64
}
