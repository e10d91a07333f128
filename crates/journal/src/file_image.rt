ghost use Rattle.std.specs.Prelude.{◌≡◌, ℕ, ◌+◌, ◌*◌, ◌/◌, ◌%◌, ◌<◌, ◌≤◌, [], ◌∷◌, ◌↔◌, true, length, slice_index, EachIndex, IfOk, IfErr, IfSome, IsNone, OnOk, IsTrue, Some};
ghost use Rattle.std.specs.IoError.{error_kind};
ghost use Rattle.journal.specs.LinePayloads.{lines_of};
ghost use Rattle.journal.specs.InPlace.{put_over};
ghost use Rattle.journal.specs.Files.{HasTail, IsTail, IsFile, Opens, ReportsUnread, lines_in, pass_word};

use crate::journal::read_journal;
use crate::line::{Line, line_of};
use crate::rewriting::MAGIC;
use std::alloc::{AllocError, Global};
use std::io;
use std::io::ErrorKind;

/// The image that a file stands for: its first words, and over them the lines of the journal's entries, if the journal counts.
pub fn image_in(alloc: Global, file: &[u64], words: usize, room: usize) -> io::Result<Vec<u64>>
    // At Ok the words are a file with an image and a journal of these lengths, with a pass, and it stands for this image.
    ensures file { OnOk result (IsFile words room (length file.now)) }
    ensures pass { OnOk result (slice_index file.now (words + room + 3) < 2) }
    ensures stands { IfOk result (λ image. Opens words room file.now image.items) }

    // At Err InvalidInput, if the words aren't a file of this length, InvalidData, if the file has no pass, or OutOfMemory.
    ensures err { IfErr result (λ error. ReportsUnread words room file.now (error_kind error)) }
{
    let payloads = payloads_in(alloc, file, words, room)?;
    let mut image = Vec::from_slice(alloc, &file[..words])?;
    put_lines(&mut image, payloads.as_slice());
    Ok(image)
}

/// Leaves of a file's words the image that the file stands for. Returns the pass that its journal counts in, and the lines of its
/// entries in their order.
pub(crate) fn leave_image(
    alloc: Global,
    file: &mut Vec<u64>,
    words: usize,
    room: usize,
) -> io::Result<(bool, Vec<Line>)>
    // As for `image_in`.
    ensures file { OnOk result (IsFile words room (length file.old.items)) }
    ensures pass { IfOk result (λ left. slice_index file.old.items (words + room + 3) ≡ pass_word left.0) }
    ensures lines { IfOk result (λ left. left.1.items ≡ lines_in words room file.old.items) }
    ensures stands { OnOk result (Opens words room file.old.items file.new.items) }
{
    let payloads = payloads_in(alloc, file.as_slice(), words, room)?;
    let lines = listed(alloc, payloads.as_slice())?;
    let pass = file[words + room + 3] == 0;
    file.truncate(words);
    put_lines(file, payloads.as_slice());
    Ok((pass, lines))
}

// The lines of these payloads, as a list.
fn listed(alloc: Global, payloads: &[u64]) -> Result<Vec<Line>, AllocError>
    ensures { IfOk result (λ lines. lines.items ≡ lines_of (length payloads.now / 9) payloads.now) }
{
    let count = payloads.len() / 9;
    let mut lines = Vec::with_capacity(alloc, count)?;
    for at in 0..count {
        lines.push(line_of(&payloads[9 * at..]))?;
    }
    Ok(lines)
}

/// Whether a file has a journal of nothing but zeros.
pub(crate) fn is_zeroed(file: &[u64], words: usize, room: usize) -> bool
    ensures { result ≡ true → (word : ℕ) → words ≤ word → word < words + room → slice_index file.now word ≡ 0 }
{
    if words > file.len() || room > file.len() - words {
        return false;
    }
    are_zero(&file[words..words + room])
}

fn are_zero(words: &[u64]) -> bool
    ensures { IsTrue result ↔ EachIndex words.now (λ k. slice_index words.now k ≡ 0) }
{
    words.iter().all(|word| *word == 0)
}

// The payloads of the lines that a file has over its image.
fn payloads_in(alloc: Global, file: &[u64], words: usize, room: usize) -> io::Result<Vec<u64>>
    ensures file { OnOk result (IsFile words room (length file.now)) }
    ensures pass { OnOk result (slice_index file.now (words + room + 3) < 2) }
    ensures lines { IfOk result (λ payloads. lines_of (length payloads.items / 9) payloads.items ≡ lines_in words room file.now) }
    ensures err { IfErr result (λ error. ReportsUnread words room file.now (error_kind error)) }
{
    if !is_file(words, room, file.len()) {
        return Err(io::Error::from(ErrorKind::InvalidInput));
    }
    let pass = file[words + room + 3];
    if pass > 1 {
        return Err(io::Error::from(ErrorKind::InvalidData));
    }
    if file[words + room] != MAGIC {
        return Ok(Vec::new(alloc));
    }
    let payloads = read_journal(alloc, &file[words..words + room], pass == 0)?;
    Ok(payloads)
}

/// How many words the image has, and how much room the journal, of a file that ends with a tail, whether the journal counts or
/// not.
#[tactic(auto, using(crate::proofs::Tails::named_one))]
pub fn extent_of(file: &[u64]) -> Option<(usize, usize)>
    // The words and the room that a tail at the end of a file names.
    ensures size { IfSome result (λ found. IsFile found.0 found.1 (length file.now)) }
    ensures tail { IfSome result (λ found. HasTail found.0 found.1 file.now) }

    // At None no tail names any. If a tail names the words and the room, it returns these.
    ensures none { IsNone result → (words room : ℕ) → IsFile words room (length file.now) → HasTail words room file.now → ⊥ }
    ensures named { (words room : ℕ) → IsFile words room (length file.now) → HasTail words room file.now → result ≡ Some (words, room) }
{
    let start = file.len().checked_sub(8)?;
    let (words, room) = (file[start + 1] as usize, file[start + 2] as usize);
    if !is_file(words, room, file.len()) || !is_tail(&file[start..]) {
        return None;
    }
    Some((words, room))
}

// Whether these are a tail's words, as far as they are the same in each.
fn is_tail(words: &[u64]) -> bool
    requires { length words.now ≡ 8 }
    ensures { IsTrue result ↔ IsTail words.now }
{
    (words[0] == 0 || words[0] == MAGIC)
        && words[3] <= 1
        && words[4] == 0
        && words[5] == 0
        && words[6] == 0
        && words[7] == 0
}

// As many words of an image, or of a journal, are in no memory.
const TOO_MANY: usize = 1 << 58;

// Whether a file of `count` words has an image of `words`, and a journal of `room`.
fn is_file(words: usize, room: usize, count: usize) -> bool
    ensures { IsTrue result ↔ IsFile words room count }
{
    words < TOO_MANY
        && room < TOO_MANY
        && words + room + 8 < TOO_MANY
        && words % 8 == 0
        && count == words + room + 8
}

// Puts the lines of these payloads over the image, one after the other.
fn put_lines(image: &mut Vec<u64>, payloads: &[u64])
    requires { length image.old.items % 8 ≡ 0 }
    ensures size { length image.new.items ≡ length image.old.items }
    ensures each { (word : ℕ) → word < length image.old.items
        → slice_index image.new.items word ≡ put_over (lines_of (length payloads.now / 9) payloads.now) word (slice_index image.old.items word) }
{
    for at in 0..payloads.len() / 9 {
        let line = line_of(&payloads[9 * at..]);
        put_line(image, &line);
    }
}

// Puts the line over the image, if it is within it.
fn put_line(image: &mut Vec<u64>, line: &Line)
    requires { length image.old.items % 8 ≡ 0 }
    ensures size { length image.new.items ≡ length image.old.items }
    ensures each { (word : ℕ) → word < length image.old.items → slice_index image.new.items word ≡ put_over (line.now ∷ []) word (slice_index image.old.items word) }
{
    if line.number >= image.len() / 8 {
        return;
    }
    let first = 8 * line.number;
    for place in 0..8 {
        image[first + place] = line.words[place];
    }
}
