ghost use Rattle.std.specs.Prelude.{◌≡◌, ◌⊎◌, ◌↔◌, ◌+◌, ◌*◌, ◌%◌, ◌≤◌, ℕ, List, drop, length, IfOk, IfSome, IsNone, IsTrue};
ghost use Rattle.byteorder.specs.Endian.{little_number};
ghost use Rattle.command_line.specs.ImageFile.{HoldsWords};
ghost use Rattle.program.specs.Journals.{HasJournal, IsJournaled, IsOfImage, NamesAll, StandsFor};

use base::geometry::Geometry;
use byteorder::{ByteOrder, LittleEndian};
use command_line::image_file::file_of_words;
use journal::{extent_of, image_in};
use pmem_file::grown_image;
use std::alloc::Global;
use std::io;

/// The bytes of the longest file of an image: one with a journal after it that has room for an entry of all its lines.
pub const MOST_BYTES: usize = 18_253_646_208;

const WORD_BYTES: usize = 8;

/// The bytes of the image that a file stands for: all of the file's bytes, unless a journal follows the image, or was being
/// created there. A store that wasn't closed has one. Then they are the first bytes, with the journal's entries applied.
pub fn image_bytes(alloc: Global, file: Vec<u8>) -> io::Result<Vec<u8>>
    // They are the file's own, or those of an image that its words stand for.
    ensures only { IfOk result (λ bytes. (bytes.items ≡ file.items) ⊎ IsOfImage file.items bytes.items) }

    // If a journal follows the image, or was being made there, they are the image's, with the journal's entries.
    ensures journal { HasJournal file.items → IfOk result (λ bytes. IsOfImage file.items bytes.items) }
{
    if file.len() > MOST_BYTES || file.len() % WORD_BYTES != 0 || is_image(file.as_slice()) {
        return Ok(file);
    }
    let words = words_in(alloc, file.as_slice())?;
    match image_behind_journal(alloc, words.as_slice())? {
        Some(image) => Ok(file_of_words(alloc, image.as_slice())?),
        None => Ok(file),
    }
}

// The image that these words of a file stand for, if a journal follows it or was being created there.
fn image_behind_journal(alloc: Global, words: &[u64]) -> io::Result<Option<Vec<u64>>>
    ensures some { IfOk result (λ found. IfSome found (λ image. StandsFor words.now image.items)) }
    ensures none { IfOk result (λ found. IsNone found → ¬ IsJournaled words.now) }
{
    match extent_of(words) {
        Some((count, room)) => Ok(Some(image_in(alloc, words, count, room)?)),
        None => match grown_image(words) {
            Some(count) => Ok(Some(Vec::from_slice(alloc, &words[..count])?)),
            None => Ok(None),
        },
    }
}

// The words of these bytes, 8 bytes each, the lowest first.
fn words_in(alloc: Global, bytes: &[u8]) -> io::Result<Vec<u64>>
    requires { length bytes.now % 8 ≡ 0 }
    ensures { IfOk result (λ words. HoldsWords bytes.now words.items) }
{
    let mut words = Vec::from_elem(alloc, 0, bytes.len() / WORD_BYTES)?;
    LittleEndian::read_u64_into(bytes, words.as_mut_slice());
    Ok(words)
}

// Whether the superblock names an image of this many bytes: most files are such an image, and take no more memory.
fn is_image(file: &[u8]) -> bool
    ensures { IsTrue result → (words : List ℕ) → HoldsWords file.now words → NamesAll words }
{
    if file.len() < 5 * WORD_BYTES {
        return false;
    }
    let (version, slots) = (word_at(file, 1), word_at(file, 2));
    let (places, window) = (word_at(file, 3), word_at(file, 4));
    match Geometry::of_version(version, slots, places, window) {
        Ok(geometry) => geometry.words().saturating_mul(8) == file.len() as u64,
        Err(_) => false,
    }
}

// The word of this number among these bytes.
fn word_at(file: &[u8], word: usize) -> u64
    requires { 8 * word + 8 ≤ length file.now }
    ensures { result ≡ little_number 8 (drop (8 * word) file.now) }
{
    LittleEndian::read_u64(&file[WORD_BYTES * word..])
}
