ghost use Rattle.std.specs.Prelude.{◌≡◌, ◌⊎◌, ℕ, ◌+◌, ◌*◌, ◌≤◌, ◌<◌, ◌^◌, true, not, length, OnOk};
ghost use Rattle.journal.specs.Files.{tail_of, FoundOpens};
ghost use Rattle.journal.specs.Places.{HoldsPart, IsPart, PartAsBefore, PlacesOnly};
ghost use Rattle.journal.specs.ReadBack.{Covers};
ghost use Rattle.journal.specs.States.{HoldsTail, HoldsZeros, IsBlank, Knows, KnowsJournal, IsInPlace, IsOff, IsClear, IsFull, Rests};
ghost use Rattle.journal.specs.Tails.{HoldsFirst, NamesBoth, NamesAsBefore};
ghost use Rattle.journal.specs.Unplaced.{IsPlacedBut};

use crate::entry::bit_of;
use crate::part::check_part;
use crate::position::Position;
use crate::storage::{Storage, put};
use crate::unplaced::{Unplaced, put_unplaced};
use std::alloc::Global;
use std::io;
use std::snapshot::Snapshot;

// The tail's first word while the journal counts: its letters, in a file, are WBL-JRN1 from the last to the first.
pub(crate) const MAGIC: u64 = 0x5742_4C2D_4A52_4E31;

/// Brings a file to rest, with its image in place and nothing in the journal, whatever its journal held. The journal has `room`
/// words, and `pass` is the one that it counts in. Four writes, and a wait after each: the lines in place that may not be there; then
/// the journal no longer counts; it is cleared, unless it is blank; it counts again.
pub(crate) fn rewrite<S: Storage>(
    alloc: Global,
    storage: &mut S,
    image: &Vec<u64>,
    unplaced: &mut Unplaced,
    room: usize,
    pass: bool,
    is_blank: bool,
) -> io::Result<()>
    requires fits { length image.now.items + room + 8 < 2 ^ 58 }

    // In place nothing is found but this image, except in these lines, which make the image's words (`IsPlacedBut`).
    requires placed { IsPlacedBut (S.may_hold storage.old) unplaced.old.lines.items unplaced.old.marks.items image.now.items }

    // It is called blank only if it has nothing but zeros, in the first pass (`IsBlank`).
    requires blank { is_blank ≡ true → IsBlank (S.may_hold storage.old) (length image.now.items) room pass }

    // One journal and one tail are known to be there, and a file that has them stands for this image. A word of these lines may be
    // found otherwise.
    requires known { ∥ KnowsJournal (S.may_hold storage.old) (length image.now.items) room pass image.now.items ∥₁ }

    // Whatever is found stands for this image, also if a write fails, if it did before whatever was in place (`Covers`).
    ensures opens { ∥ Covers (S.may_hold storage.old) (length image.now.items) room image.now.items ∥₁ → FoundOpens (S.may_hold storage.new) (length image.now.items) room image.now.items }

    // At Ok the image is in place, and the journal counts and has nothing in it. No line is left that may not be in place.
    ensures rests { OnOk result (∥ Rests (S.may_hold storage.new) (length image.now.items) room true 0 image.now.items ∥₁) }
    ensures placed { OnOk result (IsPlacedBut (S.may_hold storage.new) unplaced.new.lines.items unplaced.new.marks.items image.now.items) }

    // The tail names both, also if a write fails, if it did before (`NamesAsBefore`).
    ensures tail { NamesAsBefore (S.may_hold storage.old) (S.may_hold storage.new) (length image.now.items) room }

    // In place nothing is found but what might be found there before, and this image (`PlacesOnly`).
    ensures place { PlacesOnly (S.may_hold storage.old) (S.may_hold storage.new) image.now.items }

    // At Ok the image isn't one that names the whole file's words (`IsPart`), and none such is found in place (`HoldsPart`). At
    // Err none is, if none was before.
    ensures before { PartAsBefore (S.may_hold storage.old) (S.may_hold storage.new) (length image.now.items) room }
    ensures holds { OnOk result (HoldsPart (S.may_hold storage.new) (length image.now.items) room) }
    ensures part { OnOk result (IsPart room image.now.items) }

    // At Ok the tail names both in any case (`NamesBoth`).
    ensures named { OnOk result (NamesBoth (S.may_hold storage.new) (length image.now.items) room) }

    // If behind the image nothing was found but the words that are written there first (`HoldsFirst`), it is still so, or the
    // tail names both.
    ensures first { pass ≡ true → HoldsFirst (S.may_hold storage.old) (length image.now.items) room → HoldsFirst (S.may_hold storage.new) (length image.now.items) room ⊎ NamesBoth (S.may_hold storage.new) (length image.now.items) room }
{
    bring_to_rest(
        alloc,
        storage,
        image.as_slice(),
        &Snapshot::of(image),
        unplaced,
        room,
        pass,
        is_blank,
    )
}

// The same, with the image as clauses read it.
fn bring_to_rest<S: Storage>(
    alloc: Global,
    storage: &mut S,
    image: &[u64],
    written: &Snapshot<Vec<u64>>,
    unplaced: &mut Unplaced,
    room: usize,
    pass: bool,
    is_blank: bool,
) -> io::Result<()>
    requires fits { length written.now.value.items + room + 8 < 2 ^ 58 }
    requires placed { IsPlacedBut (S.may_hold storage.old) unplaced.old.lines.items unplaced.old.marks.items written.now.value.items }
    requires blank { is_blank ≡ true → IsBlank (S.may_hold storage.old) (length written.now.value.items) room pass }
    requires same { written.now.value.items ≡ image.now }
    requires known { ∥ KnowsJournal (S.may_hold storage.old) (length written.now.value.items) room pass written.now.value.items ∥₁ }
    ensures opens { ∥ Covers (S.may_hold storage.old) (length written.now.value.items) room written.now.value.items ∥₁ → FoundOpens (S.may_hold storage.new) (length written.now.value.items) room written.now.value.items }
    ensures rests { OnOk result (∥ Rests (S.may_hold storage.new) (length written.now.value.items) room true 0 written.now.value.items ∥₁) }
    ensures placed { OnOk result (IsPlacedBut (S.may_hold storage.new) unplaced.new.lines.items unplaced.new.marks.items written.now.value.items) }
    ensures tail { NamesAsBefore (S.may_hold storage.old) (S.may_hold storage.new) (length written.now.value.items) room }
    ensures place { PlacesOnly (S.may_hold storage.old) (S.may_hold storage.new) written.now.value.items }
    ensures before { PartAsBefore (S.may_hold storage.old) (S.may_hold storage.new) (length written.now.value.items) room }
    ensures holds { OnOk result (HoldsPart (S.may_hold storage.new) (length written.now.value.items) room) }
    ensures part { OnOk result (IsPart room written.now.value.items) }
    ensures named { OnOk result (NamesBoth (S.may_hold storage.new) (length written.now.value.items) room) }
    ensures first { pass ≡ true → HoldsFirst (S.may_hold storage.old) (length written.now.value.items) room → HoldsFirst (S.may_hold storage.new) (length written.now.value.items) room ⊎ NamesBoth (S.may_hold storage.new) (length written.now.value.items) room }
{
    let words = image.len();
    check_part(image, room)?;
    put_in_place(storage, written, unplaced, room, pass)?;
    turn_off(storage, words, written, room, pass)?;
    clear(alloc, storage, words, written, room, is_blank)?;
    turn_on(storage, words, written, room)
}

/// Brings the image in place, by the lines that may not be there, after which the journal no longer counts: the file's first words
/// are the image then, whatever is behind them. At each instant, and also if a write fails, the file stands for this image. Two
/// waits: for the lines, and for the tail.
pub(crate) fn settle<S: Storage>(
    storage: &mut S,
    words: usize,
    image: &Snapshot<Vec<u64>>,
    unplaced: &mut Unplaced,
    room: usize,
    pass: bool,
) -> io::Result<()>
    requires fits { length image.now.value.items + room + 8 < 2 ^ 58 }
    requires size { words ≡ length image.now.value.items }
    requires placed { IsPlacedBut (S.may_hold storage.old) unplaced.old.lines.items unplaced.old.marks.items image.now.value.items }
    requires known { ∥ Knows (S.may_hold storage.old) (length image.now.value.items) room pass image.now.value.items ∥₁ }
    ensures opens { FoundOpens (S.may_hold storage.new) (length image.now.value.items) room image.now.value.items }
    ensures off { OnOk result (∥ IsOff (S.may_hold storage.new) (length image.now.value.items) room image.now.value.items ∥₁) }
    ensures tail { NamesAsBefore (S.may_hold storage.old) (S.may_hold storage.new) (length image.now.value.items) room }
    ensures place { PlacesOnly (S.may_hold storage.old) (S.may_hold storage.new) image.now.value.items }
{
    put_unplaced(storage, unplaced, image)?;
    turn_off(storage, words, image, room, pass)
}

// Puts the lines in place that may not be there: then each word of the image is known, whatever it was.
fn put_in_place<S: Storage>(
    storage: &mut S,
    written: &Snapshot<Vec<u64>>,
    unplaced: &mut Unplaced,
    room: usize,
    pass: bool,
) -> io::Result<()>
    requires fits { length written.now.value.items < 2 ^ 58 }
    requires placed { IsPlacedBut (S.may_hold storage.old) unplaced.old.lines.items unplaced.old.marks.items written.now.value.items }
    requires known { ∥ KnowsJournal (S.may_hold storage.old) (length written.now.value.items) room pass written.now.value.items ∥₁ }
    ensures opens { ∥ Covers (S.may_hold storage.old) (length written.now.value.items) room written.now.value.items ∥₁ → FoundOpens (S.may_hold storage.new) (length written.now.value.items) room written.now.value.items }
    ensures done { OnOk result (∥ IsInPlace (S.may_hold storage.new) (length written.now.value.items) room pass written.now.value.items ∥₁) }
    ensures tail { NamesAsBefore (S.may_hold storage.old) (S.may_hold storage.new) (length written.now.value.items) room }
    ensures place { PlacesOnly (S.may_hold storage.old) (S.may_hold storage.new) written.now.value.items }
    ensures placed { OnOk result (IsPlacedBut (S.may_hold storage.new) unplaced.new.lines.items unplaced.new.marks.items written.now.value.items) }
    ensures first { HoldsFirst (S.may_hold storage.old) (length written.now.value.items) room → HoldsFirst (S.may_hold storage.new) (length written.now.value.items) room }
    ensures zeros { HoldsZeros (S.may_hold storage.old) (length written.now.value.items) room → HoldsZeros (S.may_hold storage.new) (length written.now.value.items) room }
{
    put_unplaced(storage, unplaced, written)
}

// From now on the journal doesn't count.
fn turn_off<S: Storage>(
    storage: &mut S,
    words: usize,
    image: &Snapshot<Vec<u64>>,
    room: usize,
    pass: bool,
) -> io::Result<()>
    requires size { words ≡ length image.now.value.items }
    requires fits { length image.now.value.items + room < 2 ^ 63 }
    requires known { ∥ IsInPlace (S.may_hold storage.old) (length image.now.value.items) room pass image.now.value.items ∥₁ }
    ensures opens { FoundOpens (S.may_hold storage.new) (length image.now.value.items) room image.now.value.items }
    ensures done { OnOk result (∥ IsOff (S.may_hold storage.new) (length image.now.value.items) room image.now.value.items ∥₁) }
    ensures tail { NamesAsBefore (S.may_hold storage.old) (S.may_hold storage.new) (length image.now.value.items) room }
    ensures place { PlacesOnly (S.may_hold storage.old) (S.may_hold storage.new) image.now.value.items }
    ensures first { pass ≡ true → HoldsFirst (S.may_hold storage.old) (length image.now.value.items) room → HoldsFirst (S.may_hold storage.new) (length image.now.value.items) room }
    ensures zeros { HoldsZeros (S.may_hold storage.old) (length image.now.value.items) room → HoldsZeros (S.may_hold storage.new) (length image.now.value.items) room }
    ensures last { OnOk result (HoldsTail (S.may_hold storage.new) (length image.now.value.items) room (tail_of 0 (length image.now.value.items) room pass)) }
{
    let _ = image;
    put(storage, words + room, &tail(0, words, room, pass))
}

// Leaves nothing in it. If nothing is there, nothing is written.
fn clear<S: Storage>(
    alloc: Global,
    storage: &mut S,
    words: usize,
    image: &Snapshot<Vec<u64>>,
    room: usize,
    is_blank: bool,
) -> io::Result<()>
    requires size { words ≡ length image.now.value.items }
    requires fits { length image.now.value.items + room + 8 < 2 ^ 63 }
    requires known { ∥ IsOff (S.may_hold storage.old) (length image.now.value.items) room image.now.value.items ∥₁ }
    requires blank { is_blank ≡ true → HoldsZeros (S.may_hold storage.old) (length image.now.value.items) room × HoldsTail (S.may_hold storage.old) (length image.now.value.items) room (tail_of 0 (length image.now.value.items) room true) }
    ensures opens { FoundOpens (S.may_hold storage.new) (length image.now.value.items) room image.now.value.items }
    ensures done { OnOk result (∥ IsClear (S.may_hold storage.new) (length image.now.value.items) room image.now.value.items ∥₁) }
    ensures tail { NamesAsBefore (S.may_hold storage.old) (S.may_hold storage.new) (length image.now.value.items) room }
    ensures place { PlacesOnly (S.may_hold storage.old) (S.may_hold storage.new) image.now.value.items }
    ensures named { OnOk result (NamesBoth (S.may_hold storage.new) (length image.now.value.items) room) }
    ensures first { HoldsFirst (S.may_hold storage.old) (length image.now.value.items) room → HoldsFirst (S.may_hold storage.new) (length image.now.value.items) room }
{
    let _ = image;
    if is_blank {
        return Ok(());
    }
    let mut rest = Vec::from_elem(alloc, 0, room)?;
    rest.extend_from_slice(&tail(0, words, room, true))?;
    put(storage, words, rest.as_slice())
}

// From now on the journal counts.
fn turn_on<S: Storage>(
    storage: &mut S,
    words: usize,
    image: &Snapshot<Vec<u64>>,
    room: usize,
) -> io::Result<()>
    requires size { words ≡ length image.now.value.items }
    requires fits { length image.now.value.items + room < 2 ^ 63 }
    requires known { ∥ IsClear (S.may_hold storage.old) (length image.now.value.items) room image.now.value.items ∥₁ }
    ensures opens { FoundOpens (S.may_hold storage.new) (length image.now.value.items) room image.now.value.items }
    ensures done { OnOk result (∥ Rests (S.may_hold storage.new) (length image.now.value.items) room true 0 image.now.value.items ∥₁) }
    ensures tail { NamesAsBefore (S.may_hold storage.old) (S.may_hold storage.new) (length image.now.value.items) room }
    ensures place { PlacesOnly (S.may_hold storage.old) (S.may_hold storage.new) image.now.value.items }
{
    let _ = image;
    put(storage, words + room, &tail(MAGIC, words, room, true))
}

/// Begins the next pass over the journal of a file at rest: its image is in place then, and nothing in the journal. Of the image the
/// lines are written that may not be in place. At each instant, and also if a write fails, the file stands for this image. Two waits:
/// for these lines, with the rest of the journal filled, and for the tail, which names the other pass.
pub(crate) fn begin_pass<S: Storage>(
    alloc: Global,
    storage: &mut S,
    words: usize,
    image: &Snapshot<Vec<u64>>,
    unplaced: &mut Unplaced,
    room: usize,
    position: Position,
) -> io::Result<()>
    requires fits { length image.now.value.items + room + 8 < 2 ^ 58 }
    requires size { words ≡ length image.now.value.items }
    requires placed { IsPlacedBut (S.may_hold storage.old) unplaced.old.lines.items unplaced.old.marks.items image.now.value.items }
    requires within { position.words ≤ room }
    requires known { ∥ Rests (S.may_hold storage.old) (length image.now.value.items) room position.pass position.words image.now.value.items ∥₁ }
    ensures opens { FoundOpens (S.may_hold storage.new) (length image.now.value.items) room image.now.value.items }
    ensures rests { OnOk result (∥ Rests (S.may_hold storage.new) (length image.now.value.items) room (not position.pass) 0 image.now.value.items ∥₁) }
    ensures tail { NamesAsBefore (S.may_hold storage.old) (S.may_hold storage.new) (length image.now.value.items) room }
    ensures place { PlacesOnly (S.may_hold storage.old) (S.may_hold storage.new) image.now.value.items }
    ensures placed { OnOk result (IsPlacedBut (S.may_hold storage.new) unplaced.new.lines.items unplaced.new.marks.items image.now.value.items) }
{
    fill(alloc, storage, words, image, unplaced, room, position)?;
    turn(storage, words, image, room, position.pass)
}

// Puts the image in place, and fills the rest of the journal: each word of it is an entry of this pass without payloads.
fn fill<S: Storage>(
    alloc: Global,
    storage: &mut S,
    words: usize,
    image: &Snapshot<Vec<u64>>,
    unplaced: &mut Unplaced,
    room: usize,
    position: Position,
) -> io::Result<()>
    requires fits { length image.now.value.items + room + 8 < 2 ^ 58 }
    requires size { words ≡ length image.now.value.items }
    requires placed { IsPlacedBut (S.may_hold storage.old) unplaced.old.lines.items unplaced.old.marks.items image.now.value.items }
    requires within { position.words ≤ room }
    requires known { ∥ Rests (S.may_hold storage.old) (length image.now.value.items) room position.pass position.words image.now.value.items ∥₁ }
    ensures opens { FoundOpens (S.may_hold storage.new) (length image.now.value.items) room image.now.value.items }
    ensures done { OnOk result (∥ IsFull (S.may_hold storage.new) (length image.now.value.items) room position.pass image.now.value.items ∥₁) }
    ensures tail { NamesAsBefore (S.may_hold storage.old) (S.may_hold storage.new) (length image.now.value.items) room }
    ensures place { PlacesOnly (S.may_hold storage.old) (S.may_hold storage.new) image.now.value.items }
    ensures placed { OnOk result (IsPlacedBut (S.may_hold storage.new) unplaced.new.lines.items unplaced.new.marks.items image.now.value.items) }
{
    let rest = Vec::from_elem(alloc, bit_of(position.pass), room - position.words)?;
    storage.write(words + position.words, rest.as_slice())?;
    put_unplaced(storage, unplaced, image)
}

// From now on the other pass counts, of which the journal has no word.
fn turn<S: Storage>(
    storage: &mut S,
    words: usize,
    image: &Snapshot<Vec<u64>>,
    room: usize,
    pass: bool,
) -> io::Result<()>
    requires size { words ≡ length image.now.value.items }
    requires fits { length image.now.value.items + room < 2 ^ 63 }
    requires known { ∥ IsFull (S.may_hold storage.old) (length image.now.value.items) room pass image.now.value.items ∥₁ }
    ensures opens { FoundOpens (S.may_hold storage.new) (length image.now.value.items) room image.now.value.items }
    ensures done { OnOk result (∥ Rests (S.may_hold storage.new) (length image.now.value.items) room (not pass) 0 image.now.value.items ∥₁) }
    ensures tail { NamesAsBefore (S.may_hold storage.old) (S.may_hold storage.new) (length image.now.value.items) room }
    ensures place { PlacesOnly (S.may_hold storage.old) (S.may_hold storage.new) image.now.value.items }
{
    let _ = image;
    put(storage, words + room, &tail(MAGIC, words, room, !pass))
}

// The tail's words.
fn tail(first: u64, words: usize, room: usize, pass: bool) -> [u64; 8]
    ensures { result ≡ tail_of first words room pass }
{
    let pass = if pass { 0 } else { 1 };
    [first, words as u64, room as u64, pass, 0, 0, 0, 0]
}
