ghost use Rattle.std.specs.Prelude.{◌≡◌, ◌⊎◌, ℕ, ◌+◌, ◌<◌, List, length, IfErr, IfOk, IfSome, Some};
ghost use Rattle.journal.specs.Entries.{TornIsNone};
ghost use Rattle.journal.specs.Files.{HasTail, IsFile, IsStoodFor, Opens};
ghost use Rattle.journal.specs.Images.{last_image, room_of, storage_of};
ghost use Rattle.journal.specs.InPlace.{InPlaceKeeps, InPlaceIsAll};
ghost use Rattle.journal.specs.Kept.{IsFound};
ghost use Rattle.journal.specs.Lives.{IsLeft, IsNoMore, StandsForNoOther};
ghost use Rattle.journal.specs.LinePayloads.{LinesReturn};
ghost use Rattle.journal.specs.Opened.{FileStates};
ghost use Rattle.journal.specs.Passes.{FillingIsNothing, NextIsEmpty};
ghost use Rattle.journal.specs.Pointwise.{ByPlaces};
ghost use Rattle.journal.specs.ReadBack.{JournalDecides, StandsStill};
ghost use Rattle.journal.specs.Several.{AppendIsWhole, NoneIsNothing, ScrubIsNone};
ghost use Rattle.journal.specs.Tails.{BeginsTail, HoldsFirst, NamesBoth};

use crate::file_image::extent_of;
use crate::journaled::{JournaledImages, Unopened};
use crate::storage::{Storage, write_back};
use std::alloc::Global;

/// Of an entry that was being written, either all is found and it is read, or not all is and the reader says that there is none.
pub fn torn_entries_are_seen()
    ensures { TornIsNone }
{}

/// While an entry is appended, the entries before it are found, and it too if all of its words are found.
pub fn appends_are_whole()
    ensures append { AppendIsWhole }
    ensures nothing { NoneIsNothing }
{}

/// A torn entry stays one while words of the other pass are written over it.
pub fn scrubbed_entries_stay_torn()
    ensures { ScrubIsNone }
{}

/// Lines are read as they were written.
pub fn lines_return()
    ensures { LinesReturn }
{}

/// While the image is written in place, the journal's lines make the same of it at each instant, and once it is written it is
/// so without them.
pub fn images_in_place_stay()
    ensures keeps { InPlaceKeeps }
    ensures all { InPlaceIsAll }
{}

/// While the rest of the journal is filled the same is found, and once it is full the next pass begins with nothing.
pub fn passes_follow()
    ensures filling { FillingIsNothing }
    ensures next { NextIsEmpty }
{}

/// What is said about stretches, word after word, follows from what each place may hold.
pub fn stretches_are_by_places()
    ensures { ByPlaces }
{}

/// What a file stands for at each instant: at rest, while lines are appended, while the image is written in place, and in the
/// next pass.
pub fn files_are_whole()
    ensures { FileStates }
{}

/// If the journal decides which image is found in a storage (`JournalDecides`), the lines of a file's journal make the same of
/// whatever might be found in place there (`StandsStill`). So they do in another storage, if each of its words in place might
/// also be found in the first.
pub fn decided_files_stand_still<B: Storage, S: Storage>(
    before: &B,
    now: &S,
    file: &[u64],
    words: usize,
    room: usize,
)
    requires decides { JournalDecides (B.may_hold before.now) words room }
    requires found { IsFound (B.may_hold before.now) (words + room + 8) file.now }
    requires within { (word x : ℕ) → word < words → S.may_hold now.now word x → B.may_hold before.now word x }
    ensures { (image : List ℕ) → Opens words room file.now image → StandsStill (S.may_hold now.now) words room file.now }
{
    let _ = before;
    let _ = now;
    let _ = file;
    let _ = words;
    let _ = room;
}

/// Any file that may be found of images, once all has stopped, has a tail that names how many words they have and how much room
/// the journal has.
pub fn left_files_name_their_shape<S: Storage>(
    images: &JournaledImages<S>,
    file: &[u64],
) -> Option<(usize, usize)>
    requires found { IsFound (S.may_hold (storage_of images.now)) (length (last_image images.now) + room_of images.now + 8) file.now }

    // The file has their length, and such a tail.
    ensures file { IsFile (length (last_image images.now)) (room_of images.now) (length file.now) }
    ensures tail { HasTail (length (last_image images.now)) (room_of images.now) file.now }

    // So `extent_of` returns these two at the next opening.
    ensures same { result ≡ Some (length (last_image images.now), room_of images.now) }
{
    let _ = images;
    extent_of(file)
}

/// Any file that may be found after a stop while it was first opened names no other words, and no other room.
pub fn begun_files_name_no_other<S: Storage>(
    storage: &S,
    file: &[u64],
    words: usize,
    room: usize,
) -> Option<(usize, usize)>
    requires file { IsFile words room (length file.now) }
    requires first { HoldsFirst (S.may_hold storage.now) words room ⊎ NamesBoth (S.may_hold storage.now) words room }
    requires found { IsFound (S.may_hold storage.now) (words + room + 8) file.now }

    // It has behind its image only what is written there first, or a tail that names both.
    ensures begun { BeginsTail words room file.now ⊎ HasTail words room file.now }

    // So `extent_of` returns these two or none.
    ensures same { IfSome result (λ found. found ≡ (words, room)) }
{
    let _ = storage;
    let _ = words;
    let _ = room;
    extent_of(file)
}

/// Whatever stops the life of images, they leave a file whose tail gives their words and room, that isn't taken for an image alone,
/// and whose journal decides which image is found.
pub fn images_leave_their_shape<S: Storage>(images: &JournaledImages<S>)
    ensures { IsLeft (S.may_hold (storage_of images.now)) (length (last_image images.now)) (room_of images.now) }
{
    let _ = images;
}

/// The next life of a file begins with what the last one left. So the same holds after any number of lives.
pub fn next_begins_with_what_was_left<B: Storage, S: Storage>(
    alloc: Global,
    last: &B,
    next: S,
    file: &mut Vec<u64>,
    words: usize,
    room: usize,
) -> Result<JournaledImages<S>, Unopened<S>>
where
    S: Drop,
    // This was left, a file was read that might be found then, and of its words nothing else may be found at the beginning.
    requires left { IsLeft (B.may_hold last.now) words room }
    requires file { IsFile words room (length file.old.items) }
    requires found { IsFound (B.may_hold last.now) (words + room + 8) file.old.items }
    requires begins { IsNoMore (B.may_hold last.now) (S.may_hold next) }

    // At Ok the images begin with one that might be found then, and leave the same to a further life.
    ensures stands { IfOk result (λ images. IsStoodFor (B.may_hold last.now) words room (last_image images)) }
    ensures leaves { IfOk result (λ images. IsLeft (S.may_hold (storage_of images)) words room) }

    // At Err, whichever write fails, no file is found that stands for another image than before, and the same is left to a further
    // life.
    ensures stopped { IfErr result (λ unopened. StandsForNoOther (B.may_hold last.now) (S.may_hold unopened.storage) words room) }
    ensures left { IfErr result (λ unopened. IsLeft (S.may_hold unopened.storage) words room) }
{
    let _ = last;
    let mut storage = next;
    match write_back(&mut storage, words, file.as_slice()) {
        Ok(()) => JournaledImages::open(alloc, storage, file, words, room),
        Err(error) => Err(Unopened { error, storage }),
    }
}
