ghost use Rattle.std.specs.Prelude.{◌≡◌, ◌⊎◌, ◌||◌, ℕ, [], ◌++◌, ◌*◌, ◌/◌, ◌%◌, ◌<◌, ◌^◌, false, true, List, length, slice_index, IfOk, OnOk};
ghost use Rattle.journal.specs.Files.{IsInRun};
ghost use Rattle.journal.specs.Kept.{HoldsOnly, is_put_at};
ghost use Rattle.journal.specs.Unplaced.{IsOfLine, IsPlacedBut, is_marked};

use crate::line::Line;
use crate::storage::Storage;
use std::alloc::{AllocError, Global};
use std::io;
use std::snapshot::Snapshot;

/// The lines of the entries of a pass, as they were written. None of them need be in place.
#[derive(Drop)]
pub(crate) struct Unplaced {
    pub(crate) lines: Vec<Line>,

    // Whether a line is among them, by its number.
    pub(crate) marks: Vec<bool>,
}

impl Unplaced {
    ghost use Rattle.std.specs.Prelude.{◌≡◌, ◌||◌, ◌<◌, ◌++◌, ℕ, length, IfOk, OnOk};
    ghost use Rattle.journal.specs.Kept.{is_put_at};
    ghost use Rattle.journal.specs.Unplaced.{is_marked};

    /// These, of an image of this many lines.
    pub(crate) fn new(alloc: Global, lines: Vec<Line>, count: usize) -> Result<Unplaced, AllocError>
        ensures lines { IfOk result (λ made. made.lines.items ≡ lines.items) }
        ensures size { IfOk result (λ made. length made.marks.items ≡ count) }
        ensures marks { IfOk result (λ made. (number : ℕ) → number < count → is_marked made.marks.items number ≡ is_put_at lines.items number) }
    {
        let mut marks = Vec::from_elem(alloc, false, count)?;
        mark_each(&mut marks, lines.as_slice());
        Ok(Unplaced { lines, marks })
    }

    /// Adds the lines of an entry.
    pub(crate) fn add(&mut self, lines: &[Line]) -> Result<(), AllocError>
        ensures lines { OnOk result (self.new.lines.items ≡ self.old.lines.items ++ lines.now) }
        ensures size { length self.new.marks.items ≡ length self.old.marks.items }
        ensures marks { OnOk result ((number : ℕ) → number < length self.old.marks.items → is_marked self.new.marks.items number ≡ (is_put_at lines.now number || is_marked self.old.marks.items number)) }
    {
        self.lines.extend_from_slice(lines)?;
        mark_each(&mut self.marks, lines);
        Ok(())
    }
}

// Marks these lines.
fn mark_each(marks: &mut Vec<bool>, lines: &[Line])
    ensures size { length marks.new.items ≡ length marks.old.items }
    ensures marked { (number : ℕ) → number < length marks.old.items → is_marked marks.new.items number ≡ (is_put_at lines.now number || is_marked marks.old.items number) }
{
    for line in lines {
        mark(marks, line.number, true);
    }
}

// Whether the line of this number is marked.
fn has_mark(marks: &Vec<bool>, number: usize) -> bool
    ensures is { result ≡ is_marked marks.now.items number }
    ensures within { result ≡ true → number < length marks.now.items }
{
    number < marks.len() && marks[number]
}

// Marks the line of this number, if there is one, or takes its mark away.
fn mark(marks: &mut Vec<bool>, number: usize, value: bool)
    ensures size { length marks.new.items ≡ length marks.old.items }
    ensures marked { number < length marks.old.items → is_marked marks.new.items number ≡ value }
    ensures others { (other : ℕ) → ¬ (other ≡ number) → is_marked marks.new.items other ≡ is_marked marks.old.items other }
{
    if number < marks.len() {
        marks[number] = value;
    }
}

/// Writes the lines that may not be in place, each as it was written last, and waits until they persist: then all of the image is in
/// place, and none is left. Meanwhile, and also if it fails, each word may be found as before or as in the image.
pub(crate) fn put_unplaced<S: Storage>(
    storage: &mut S,
    unplaced: &mut Unplaced,
    image: &Snapshot<Vec<u64>>,
) -> io::Result<()>
    requires fits { length image.now.value.items < 2 ^ 58 }
    requires placed { IsPlacedBut (S.may_hold storage.old) unplaced.old.lines.items unplaced.old.marks.items image.now.value.items }
    ensures puts { (word x : ℕ) → S.may_hold storage.new word x → S.may_hold storage.old word x ⊎ IsInRun 0 image.now.value.items word x }
    ensures kept { OnOk result (HoldsOnly (S.may_hold storage.new) (length image.now.value.items) image.now.value.items) }
    ensures shown { OnOk result ((word x : ℕ) → S.may_hold storage.new word x → S.shows storage.old word x ⊎ IsInRun 0 image.now.value.items word x) }
    ensures placed { OnOk result (IsPlacedBut (S.may_hold storage.new) unplaced.new.lines.items unplaced.new.marks.items image.now.value.items) }
{
    write_unplaced(
        storage,
        unplaced.lines.as_slice(),
        &mut unplaced.marks,
        image,
    )?;
    storage.sync()?;
    unplaced.lines.clear();
    Ok(())
}

// Writes these lines, from the last to the first. An earlier one of the same number isn't written.
fn write_unplaced<S: Storage>(
    storage: &mut S,
    lines: &[Line],
    marks: &mut Vec<bool>,
    image: &Snapshot<Vec<u64>>,
) -> io::Result<()>
    requires fits { length image.now.value.items < 2 ^ 58 }
    requires placed { IsPlacedBut (S.may_hold storage.old) lines.now marks.old.items image.now.value.items }
    ensures found { (word x : ℕ) → S.may_hold storage.new word x → S.may_hold storage.old word x ⊎ IsInRun 0 image.now.value.items word x }
    ensures others { (word x : ℕ) → S.shows storage.new word x → S.shows storage.old word x ⊎ IsInRun 0 image.now.value.items word x }
    ensures written { OnOk result ((word x : ℕ) → is_put_at lines.now (word / 8) ≡ true → word < length image.now.value.items → S.shows storage.new word x → x ≡ slice_index image.now.value.items word) }
    ensures size { length marks.new.items ≡ length marks.old.items }
    ensures marks { OnOk result ((number : ℕ) → is_marked marks.new.items number ≡ false) }
{
    let _ = image;
    let mut at = lines.len();
    while at > 0 {
        at -= 1;
        write_line(storage, &lines[at], marks)?;
    }
    Ok(())
}

// Writes the line, if it is marked, and takes its mark away.
fn write_line<S: Storage>(storage: &mut S, line: &Line, marks: &mut Vec<bool>) -> io::Result<()>
    requires few { 8 * length marks.old.items < 2 ^ 58 }
    ensures found { (word x : ℕ) → S.may_hold storage.new word x → S.may_hold storage.old word x ⊎ IsOfLine line.now marks.old.items word x }
    ensures others { (word x : ℕ) → S.shows storage.new word x → S.shows storage.old word x ⊎ IsOfLine line.now marks.old.items word x }
    ensures written { OnOk result ((word x : ℕ) → word / 8 ≡ line.now.number → is_marked marks.old.items line.now.number ≡ true → S.shows storage.new word x → x ≡ slice_index line.now.words (word % 8)) }
    ensures size { length marks.new.items ≡ length marks.old.items }
    ensures none { OnOk result (is_marked marks.new.items line.now.number ≡ false) }
    ensures rest { OnOk result ((other : ℕ) → ¬ (other ≡ line.now.number) → is_marked marks.new.items other ≡ is_marked marks.old.items other) }
{
    if !has_mark(marks, line.number) {
        return Ok(());
    }
    storage.write(8 * line.number, &line.words)?;
    mark(marks, line.number, false);
    Ok(())
}
