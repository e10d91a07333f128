ghost use Rattle.std.specs.Prelude.{◌≡◌, ℕ, List, ◌+◌, ◌*◌, ◌%◌, ◌<◌, ◌^◌, true, false, None, length, is_some, IfErr, IfOk, IsErr, OnErr, OnOk};
ghost use Rattle.std.proofs.Common.{inl};
ghost use Rattle.journal.specs.Files.{Opens, StandsAs};
ghost use Rattle.journal.specs.Places.{HoldsPart, IsPart, PartAsBefore};
ghost use Rattle.journal.specs.ReadBack.{IsReadBack, JournalDecides, StandsStill};
ghost use Rattle.journal.specs.States.{Rests};
ghost use Rattle.journal.specs.Tails.{BeginsAsRead, NamesAsRead, NamesBoth};
ghost use Rattle.journal.specs.Unplaced.{IsPlacedBut};

use crate::appending::{Draft, begin_words};
use crate::file_image::{is_zeroed, leave_image};
use crate::images::Images;
use crate::position::Position;
use crate::rewriting::{rewrite, settle};
use crate::storage::Storage;
use crate::unplaced::Unplaced;
use std::alloc::Global;
use std::io;
use std::io::ErrorKind;
use std::snapshot::Snapshot;

/// Images that are kept in a file: one in place, and behind it a journal, to which each further one appends the lines that
/// changed. So a keep is one write, and one wait until it persists; if the journal is full, two waits more.
#[derive(Drop)]
pub struct JournaledImages<S: Storage> {
    alloc: Global,
    storage: S,

    // The image that was written last, and how many words it has. Only clauses read the image: its words are those of the device.
    written: Snapshot<Vec<u64>>,
    size: usize,

    // Those of its lines that may not be in place: the lines of the entries of this pass. When the journal is full, and at the end,
    // these are written there.
    unplaced: Unplaced,
    draft: Draft,

    // How many words the journal has, and how far it is written.
    room: usize,
    position: Position,

    // It isn't synced.
    is_begun: bool,

    // Why a write or a sync failed, if one did. Which image is found isn't known then: none is kept any more.
    failure: Option<io::Error>,
    ghost whole: { length written.value.items % 8 ≡ 0 },
    ghost sized: { size ≡ length written.value.items },
    ghost fits: { length written.value.items + room + 8 < 2 ^ 58 },
    ghost rests: { is_some failure ≡ false → is_begun ≡ false → ∥ Rests (S.may_hold storage) (length written.value.items) room position.pass position.words written.value.items ∥₁ },
    ghost begun: { is_some failure ≡ false → is_begun ≡ true → ∥ Rests (S.shows storage) (length written.value.items) room position.pass position.words written.value.items ∥₁ },
    ghost named: { NamesBoth (S.may_hold storage) (length written.value.items) room },
    ghost part: { IsPart room written.value.items },
    ghost holds: { HoldsPart (S.may_hold storage) (length written.value.items) room },
    ghost decides: { JournalDecides (S.may_hold storage) (length written.value.items) room },
    ghost placed: { is_some failure ≡ false → IsPlacedBut (S.may_hold storage) unplaced.lines.items unplaced.marks.items written.value.items },
}

/// Why a file isn't opened, and the file.
#[derive(Drop)]
pub struct Unopened<S> {
    pub error: io::Error,
    pub storage: S,
}

/// Why a file isn't closed, and the file.
#[derive(Drop)]
pub struct Unclosed<S> {
    pub error: io::Error,
    pub storage: S,
}

impl<S: Storage> JournaledImages<S> {
    ghost use Rattle.journal.specs.Images.{IsClosedIn, MayFind, StandsForOne, failure_of, last_image, room_of, storage_of};

    /// Opens a file of which these words were read: an image of `words`, a journal of `room`, and a tail. The lines of the journal's
    /// entries are put in place, and the file is brought to rest. Of the words that were read it leaves the image that the file
    /// stands for.
    pub fn open(
        alloc: Global,
        storage: S,
        file: &mut Vec<u64>,
        words: usize,
        room: usize,
    ) -> Result<JournaledImages<S>, Unopened<S>>
    where
        S: Drop,
        // If the file has this length, its journal and its tail are found only as they were read (`IsReadBack`), as after
        // `write_back`. Whatever a word in place is found as, the journal's lines make the same of it as of the one that was read
        // (`StandsStill`): a word of no line is found only as it was read.
        requires back { length file.old.items ≡ words + room + 8 → IsReadBack (S.may_hold storage) words room file.old.items }
        requires still { length file.old.items ≡ words + room + 8 → StandsStill (S.may_hold storage) words room file.old.items }

        // The image that is kept is the one that the file stands for, and no other may be found. The journal has this room.
        ensures stands { IfOk result (λ images. Opens words room file.old.items (last_image images)) }
        ensures found { IfOk result (λ images. (image : List ℕ) → MayFind S.may_hold images image → image ≡ last_image images) }
        ensures room { IfOk result (λ images. room_of images ≡ room) }
        ensures image { IfOk result (λ images. file.new.items ≡ last_image images) }

        // No failure to keep an image is noted.
        ensures works { IfOk result (λ images. failure_of images ≡ None) }

        // At Err, as that of `image_in` or of a write, whatever is found stands for that image (`StandsAs`).
        ensures unopened { IfErr result (λ unopened. StandsAs (S.may_hold unopened.storage) words room file.old.items) }

        // At Ok whatever is found of the tail names both (`NamesBoth`). At Err it does too, if the file that was read has a tail
        // that names both.
        ensures named { IfOk result (λ images. NamesBoth (S.may_hold (storage_of images)) words room) }
        ensures tail { IfErr result (λ unopened. NamesAsRead (S.may_hold unopened.storage) words room file.old.items) }

        // At Err, if the file that was read is new or was being made longer (`BeginsTail`), nothing else is found behind the
        // image than what is written there first, or the tail names both.
        ensures first { IfErr result (λ unopened. BeginsAsRead (S.may_hold unopened.storage) words room file.old.items) }

        // At Ok no superblock is found in place that names the whole file's words (`HoldsPart`), so the file isn't taken for an
        // image alone. At Err none is, if none was before.
        ensures holds { IfOk result (λ images. HoldsPart (S.may_hold (storage_of images)) words room) }
        ensures part { IfErr result (λ unopened. PartAsBefore (S.may_hold storage) (S.may_hold unopened.storage) words room) }
    {
        let is_zeroed = is_zeroed(file.as_slice(), words, room);
        let (pass, lines) = match leave_image(alloc, file, words, room) {
            Ok(left) => left,
            Err(error) => return Err(Unopened { error, storage }),
        };
        let Ok(mut unplaced) = Unplaced::new(alloc, lines, words / 8) else {
            return Err(Unopened {
                error: io::Error::from(ErrorKind::OutOfMemory),
                storage,
            });
        };
        let mut storage = storage;
        let is_blank = pass && is_zeroed;
        match rewrite(
            alloc,
            &mut storage,
            &*file,
            &mut unplaced,
            room,
            pass,
            is_blank,
        ) {
            Ok(()) => Ok(JournaledImages {
                alloc,
                storage,
                written: Snapshot::of(&*file),
                size: words,
                unplaced,
                draft: Draft::new(alloc),
                room,
                position: Position {
                    pass: true,
                    words: 0,
                },
                is_begun: false,
                failure: None,
            }),
            Err(error) => Err(Unopened { error, storage }),
        }
    }

    /// How many words the image has that was written last.
    pub fn size(&self) -> usize
        ensures { result ≡ length (last_image self.now) }
    {
        self.size
    }

    /// Why an image wasn't kept, if one wasn't. None is kept since then.
    pub fn failure(&self) -> Option<io::Error>
        ensures { result ≡ failure_of self.now }
    {
        self.failure
    }

    /// Hands out where it is kept, as it is: it is read when it is opened.
    pub fn release(self) -> S
        ensures { result ≡ storage_of self }
    {
        self.storage
    }

    /// Brings the image in place, and hands out where it is kept: the file's first words alone are the image then. Fails if an
    /// image isn't kept, and if a write fails.
    pub fn close(self) -> Result<S, Unclosed<S>>
    where
        S: Drop,
        // At Ok the image that was kept last is in place, and the journal doesn't count.
        ensures closed { IfOk result (λ storage. ∥ IsClosedIn S.may_hold self storage ∥₁) }

        // At Err, whichever write fails, whatever is found stands for an image that might have been found before (`StandsAmong`).
        ensures unclosed { IfErr result (λ unclosed. StandsForOne S.may_hold self unclosed.storage) }

        // At Ok and at Err whatever is found of the tail names both (`NamesBoth`), until the file is cut.
        ensures named { IfOk result (λ storage. NamesBoth (S.may_hold storage) (length (last_image self)) (room_of self)) }
        ensures tail { IfErr result (λ unclosed. NamesBoth (S.may_hold unclosed.storage) (length (last_image self)) (room_of self)) }

        // No superblock is found in place that names the whole file's words (`HoldsPart`).
        ensures holds { IfOk result (λ storage. HoldsPart (S.may_hold storage) (length (last_image self)) (room_of self)) }
        ensures part { IfErr result (λ unclosed. HoldsPart (S.may_hold unclosed.storage) (length (last_image self)) (room_of self)) }
    {
        if self.failure.is_some() || self.is_begun {
            return Err(Unclosed {
                error: io::Error::from(ErrorKind::InvalidData),
                storage: self.storage,
            });
        }
        let mut storage = self.storage;
        let mut unplaced = self.unplaced;
        match settle(
            &mut storage,
            self.size,
            &self.written,
            &mut unplaced,
            self.room,
            self.position.pass,
        ) {
            Ok(()) => Ok(storage),
            Err(error) => Err(Unclosed { error, storage }),
        }
    }

    // Waits until the image persists that was written last, if it doesn't yet.
    fn complete(&mut self) -> io::Result<()>
        ensures found { (word x : ℕ) → S.may_hold self.new.storage word x → S.may_hold self.old.storage word x }
        ensures written { self.new.written.value.items ≡ self.old.written.value.items }
        ensures room { self.new.room ≡ self.old.room }
        ensures works { OnOk result (is_some self.new.failure ≡ false) }
        ensures done { OnOk result (self.new.is_begun ≡ false) }
        ensures noted { OnErr result (is_some self.new.failure ≡ true) }
        ensures refused { S.refuses self.old.storage → self.old.is_begun ≡ true → IsErr result × (S.refuses self.new.storage × (self.new.is_begun ≡ true)) }
    {
        if self.failure.is_some() {
            return Err(io::Error::from(ErrorKind::InvalidData));
        }
        if !self.is_begun {
            return Ok(());
        }
        match self.storage.sync() {
            Ok(()) => {
                self.is_begun = false;
                Ok(())
            }
            Err(error) => {
                self.failure = Some(error);
                Err(error)
            }
        }
    }
}

impl<S: Storage> Images for JournaledImages<S> {
    ghost use Rattle.journal.specs.Images.{MayFind, Refuses, failure_of, last_image};

    type Pending = S::Pending;

    // The image that was written last, or one that a file stands for whose words may be found.
    ghost may_hold = { λ images image. MayFind S.may_hold images image };

    ghost shows = { λ images image. image ≡ last_image images };

    ghost has_failed = { λ images. is_some (failure_of images) };

    // An image is begun, and where it is kept all is refused.
    ghost refuses = { λ images. Refuses S.refuses images };

    ghost came = { S.came };

    ghost shown_is_found = { λ images image shown. inl shown };

    #[inline(always)]
    fn is_failed(&self) -> bool {
        self.failure.is_some()
    }

    fn begin(&mut self, words: &Vec<u64>, lines: &[usize]) -> io::Result<()> {
        self.complete()?;
        match begin_words(
            self.alloc,
            &mut self.draft,
            &mut self.storage,
            &self.written,
            &mut self.unplaced,
            words.as_slice(),
            lines,
            self.room,
            self.position,
        ) {
            Ok(next) => {
                self.written = Snapshot::of(words);
                self.position = next;
                self.is_begun = true;
                Ok(())
            }
            Err(error) => {
                self.failure = Some(error);
                Err(error)
            }
        }
    }

    fn finish(&mut self) -> io::Result<()> {
        self.complete()
    }

    fn hand_out(&mut self) -> Option<S::Pending> {
        if !self.is_begun {
            return None;
        }
        self.storage.hand_out()
    }

    fn sync_apart(pending: &mut S::Pending) {
        S::sync_apart(pending);
    }

    fn take_back(&mut self, pending: S::Pending) {
        self.storage.take_back(pending);
    }
}
