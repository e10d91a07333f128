ghost use Rattle.std.specs.Prelude.{◌≡◌, ℕ, Bool, ◌+◌, ◌*◌, ◌/◌, ◌%◌, ◌<◌, ◌≤◌, ◌^◌, List, [], ◌∷◌, ◌++◌, length, IfOk, OnOk, OnErr};
ghost use Rattle.journal.specs.Files.{FoundEither};
ghost use Rattle.journal.specs.States.{Rests};
ghost use Rattle.journal.specs.Places.{IsPart, PlacesOnly};
ghost use Rattle.journal.specs.ReadBack.{JournalDecides};
ghost use Rattle.journal.specs.Tails.{NamesAsBefore};
ghost use Rattle.journal.specs.Changes.{AreChanged, AreFound, DiffersIn};
ghost use Rattle.journal.specs.Unplaced.{IsPlacedBut};
ghost use Rattle.journal.specs.declared.line.Line.{Line};

use crate::eight::eight_at;
use crate::line::{Line, put_entry};
use crate::part::check_part;
use crate::position::Position;
use crate::rewriting::begin_pass;
use crate::storage::Storage;
use crate::unplaced::Unplaced;
use std::alloc::Global;
use std::io;
use std::io::ErrorKind;
use std::snapshot::Snapshot;

/// Room for the lines that changed, and for the words of their entry. Each append uses it again.
#[derive(Drop)]
pub(crate) struct Draft {
    changed: Vec<Line>,
    entry: Vec<u64>,
}

impl Draft {
    pub(crate) fn new(alloc: Global) -> Draft {
        Draft {
            changed: Vec::new(alloc),
            entry: Vec::new(alloc),
        }
    }
}

/// Replaces the durable words by these, which differ from them in the lines of these numbers alone: writes an entry at this position
/// of the journal, and returns the position behind it. It is one write: a sync makes them durable. If the entry has no room, the
/// image is put in place before, and it begins the next pass. At each instant, and also if a write fails, the file stands for the
/// durable words or for these, and once it is synced for these. An image that says that it has as many words as the whole file is
/// refused, and nothing is written. The lines that may not be in place are kept.
pub(crate) fn begin_words<S: Storage>(
    alloc: Global,
    draft: &mut Draft,
    storage: &mut S,
    durable: &Snapshot<Vec<u64>>,
    unplaced: &mut Unplaced,
    words: &[u64],
    numbers: &[usize],
    room: usize,
    position: Position,
) -> io::Result<Position>
    requires differs { DiffersIn numbers.now words.now durable.now.value.items }
    requires whole { length durable.now.value.items % 8 ≡ 0 }
    requires fits { length durable.now.value.items + room + 8 < 2 ^ 58 }
    requires known { ∥ Rests (S.may_hold storage.old) (length durable.now.value.items) room position.pass position.words durable.now.value.items ∥₁ }
    requires placed { IsPlacedBut (S.may_hold storage.old) unplaced.old.lines.items unplaced.old.marks.items durable.now.value.items }
    ensures either { FoundEither (S.may_hold storage.new) (length durable.now.value.items) room durable.now.value.items words.now }
    ensures rests { IfOk result (λ next. ∥ Rests (S.shows storage.new) (length durable.now.value.items) room next.pass next.words words.now ∥₁) }
    ensures tail { NamesAsBefore (S.may_hold storage.old) (S.may_hold storage.new) (length durable.now.value.items) room }
    ensures place { PlacesOnly (S.may_hold storage.old) (S.may_hold storage.new) durable.now.value.items }
    ensures decides { JournalDecides (S.may_hold storage.new) (length durable.now.value.items) room }
    ensures part { OnOk result (IsPart room words.now) }
    ensures placed { OnOk result (IsPlacedBut (S.may_hold storage.new) unplaced.new.lines.items unplaced.new.marks.items words.now) }
{
    check_part(words, room)?;
    put_lines_at(&mut draft.changed, words, numbers)?;
    let next = write_changed(
        alloc,
        &mut draft.entry,
        storage,
        durable,
        unplaced,
        words,
        draft.changed.as_slice(),
        room,
        position,
    )?;
    unplaced.add(draft.changed.as_slice())?;
    Ok(next)
}

// Leaves in this list the lines of these numbers.
fn put_lines_at(lines: &mut Vec<Line>, words: &[u64], numbers: &[usize]) -> io::Result<()>
    requires whole { length words.now % 8 ≡ 0 }
    ensures { OnOk result ((durable : List ℕ) → DiffersIn numbers.now words.now durable → AreChanged lines.new.items durable words.now) }
{
    lines.clear();
    for number in numbers {
        push_line(lines, words, *number)?;
    }
    Ok(())
}

// Adds the line of this number. There is none behind the last words.
fn push_line(lines: &mut Vec<Line>, words: &[u64], number: usize) -> io::Result<()>
    requires whole { length words.now % 8 ≡ 0 }
    ensures { OnOk result ((numbers : List ℕ) → AreFound lines.old.items words.now numbers → AreFound lines.new.items words.now (numbers ++ number ∷ [])) }
{
    if number >= words.len() / 8 {
        return Ok(());
    }
    lines.push(Line {
        number,
        words: eight_at(words, number),
    })?;
    Ok(())
}

// The same of lines that make the words of the durable ones.
fn write_changed<S: Storage>(
    alloc: Global,
    entry: &mut Vec<u64>,
    storage: &mut S,
    durable: &Snapshot<Vec<u64>>,
    unplaced: &mut Unplaced,
    words: &[u64],
    changed: &[Line],
    room: usize,
    position: Position,
) -> io::Result<Position>
    requires same { length words.now ≡ length durable.now.value.items }
    requires whole { length durable.now.value.items % 8 ≡ 0 }
    requires fits { length durable.now.value.items + room + 8 < 2 ^ 58 }
    requires changed { AreChanged changed.now durable.now.value.items words.now }
    requires known { ∥ Rests (S.may_hold storage.old) (length durable.now.value.items) room position.pass position.words durable.now.value.items ∥₁ }
    requires placed { IsPlacedBut (S.may_hold storage.old) unplaced.old.lines.items unplaced.old.marks.items durable.now.value.items }
    ensures either { FoundEither (S.may_hold storage.new) (length durable.now.value.items) room durable.now.value.items words.now }
    ensures rests { IfOk result (λ next. ∥ Rests (S.shows storage.new) (length durable.now.value.items) room next.pass next.words words.now ∥₁) }
    ensures tail { NamesAsBefore (S.may_hold storage.old) (S.may_hold storage.new) (length durable.now.value.items) room }
    ensures place { PlacesOnly (S.may_hold storage.old) (S.may_hold storage.new) durable.now.value.items }
    ensures decides { JournalDecides (S.may_hold storage.new) (length durable.now.value.items) room }
    ensures placed { OnOk result (IsPlacedBut (S.may_hold storage.new) unplaced.new.lines.items unplaced.new.marks.items durable.now.value.items) }
{
    if changed.is_empty() {
        return Ok(position);
    }
    let size = 1 + 9 * changed.len();
    if size > room {
        return Err(io::Error::from(ErrorKind::StorageFull));
    }
    if position.words <= room - size {
        return append(entry, storage, durable, words, changed, room, position);
    }
    begin_pass(
        alloc,
        storage,
        words.len(),
        durable,
        unplaced,
        room,
        position,
    )?;
    let begun = Position {
        pass: !position.pass,
        words: 0,
    };
    append(entry, storage, durable, words, changed, room, begun)
}

// Appends an entry of these lines.
fn append<S: Storage>(
    entry: &mut Vec<u64>,
    storage: &mut S,
    durable: &Snapshot<Vec<u64>>,
    words: &[u64],
    changed: &[Line],
    room: usize,
    position: Position,
) -> io::Result<Position>
    requires same { length words.now ≡ length durable.now.value.items }
    requires whole { length durable.now.value.items % 8 ≡ 0 }
    requires fits { length durable.now.value.items + room + 8 < 2 ^ 58 }
    requires within { position.words + (1 + 9 * length changed.now) ≤ room }
    requires changed { AreChanged changed.now durable.now.value.items words.now }
    requires known { ∥ Rests (S.may_hold storage.old) (length durable.now.value.items) room position.pass position.words durable.now.value.items ∥₁ }
    ensures either { FoundEither (S.may_hold storage.new) (length durable.now.value.items) room durable.now.value.items words.now }
    ensures rests { IfOk result (λ next. ∥ Rests (S.shows storage.new) (length durable.now.value.items) room next.pass next.words words.now ∥₁) }
    ensures tail { NamesAsBefore (S.may_hold storage.old) (S.may_hold storage.new) (length durable.now.value.items) room }
    ensures place { PlacesOnly (S.may_hold storage.old) (S.may_hold storage.new) durable.now.value.items }
    ensures decides { JournalDecides (S.may_hold storage.new) (length durable.now.value.items) room }
    ensures placed { (lines : List Line) (marks : List Bool) → IsPlacedBut (S.may_hold storage.old) lines marks durable.now.value.items → IsPlacedBut (S.may_hold storage.new) lines marks durable.now.value.items }
{
    let _ = durable;
    put_entry(entry, changed, position.pass)?;
    storage.write(words.len() + position.words, entry.as_slice())?;
    Ok(Position {
        pass: position.pass,
        words: position.words + entry.len(),
    })
}
