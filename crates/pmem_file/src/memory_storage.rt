ghost use Rattle.std.specs.Prelude.{◌≡◌, ◌⊎◌, ℕ, ◌+◌, ◌-◌, ◌%◌, ◌<◌, ◌≤◌, length, slice_index, false, true, None, IfNone, IsBitSet, OnSome, Some};
ghost use Rattle.journal.specs.Files.{IsInRun};
ghost use Rattle.journal.specs.Kept.{HoldsOnly, IsFound};
ghost use Rattle.pmem_file.specs.Memory.{IsOut, IsStored, calls_left_in, stored_in, torn_in};
ghost use Rattle.pmem_file.specs.declared.part.Part.TheVariants.{All as AllWords, Words};

use crate::journaled::JournaledPmem;
use crate::part::Part;
use journal::{JournaledImages, Storage, Unopened};
use std::alloc::Global;
use std::io;
use std::io::ErrorKind;

/// Words in memory, which say what they hold: what is written is found at once. Writes and syncs can be made to fail, and writes to
/// be torn then.
#[derive(Drop)]
pub struct MemoryStorage {
    words: Vec<u64>,

    // How many writes and syncs succeed until each further one fails.
    left: Option<usize>,
    torn: Part,

    // A sync is handed out.
    is_out: bool,
}

impl MemoryStorage {
    /// These words, of which no write fails.
    pub fn new(words: Vec<u64>) -> MemoryStorage
        ensures words { stored_in result ≡ words.items }
        ensures calls { calls_left_in result ≡ None }
    {
        MemoryStorage {
            words,
            left: None,
            torn: Part::All,
            is_out: false,
        }
    }

    /// The same, but after this number of writes and syncs each further one fails. Of each eight words of a write that fails this
    /// part is written. What a write or a sync then does isn't claimed.
    pub fn failing_after(self, calls: usize, torn: Part) -> MemoryStorage
        ensures words { stored_in result ≡ stored_in self }
        ensures calls { calls_left_in result ≡ Some calls }
        ensures torn { torn_in result ≡ torn }
    {
        MemoryStorage {
            words: self.words,
            left: Some(calls),
            torn,
            is_out: self.is_out,
        }
    }

    /// What is found in it.
    pub fn into_words(self) -> Vec<u64>
        // What it holds, which is what is found in it, and nothing else.
        ensures words { result.items ≡ stored_in self }
        ensures found { IsFound (IsStored self) (length result.items) result.items }
        ensures only { HoldsOnly (IsStored self) (length result.items) result.items }
    {
        self.words
    }

    // Whether a write or a sync succeeds, of which one less does so from now on.
    fn take_call(&mut self) -> bool
        ensures words { stored_in self.new ≡ stored_in self.old }
        ensures torn { torn_in self.new ≡ torn_in self.old }
        ensures unlimited { calls_left_in self.old ≡ None → (result ≡ true) × (calls_left_in self.new ≡ None) }
        ensures one_less { (left : ℕ) → calls_left_in self.old ≡ Some (1 + left) → (result ≡ true) × (calls_left_in self.new ≡ Some left) }
        ensures none_left { calls_left_in self.old ≡ Some 0 → (result ≡ false) × (calls_left_in self.new ≡ Some 0) }
    {
        match self.left {
            None => true,
            Some(0) => false,
            Some(left) => {
                self.left = Some(left - 1);
                true
            }
        }
    }
}

impl JournaledPmem<JournaledImages<MemoryStorage>> {
    ghost use Rattle.std.specs.Prelude.{None, IfErr, IfOk};
    ghost use Rattle.journal.specs.Files.{Opens, StandsAs};
    ghost use Rattle.pmem.specs.Device.{restarted};
    ghost use Rattle.pmem.specs.Words.{IsAtRest, image_of};
    ghost use Rattle.pmem_file.specs.Devices.{failure_of, places_of, state_of};
    ghost use Rattle.pmem_file.specs.Journaled.{places_named};

    /// A device at rest with the image that the storage's words stand for, as those of a file. Fails as `over` does.
    pub fn of_storage(
        alloc: Global,
        storage: MemoryStorage,
        words: usize,
        room: usize,
        places: usize,
    ) -> Result<Self, Unopened<MemoryStorage>>
        // As for `over`.
        ensures rest { IfOk result (λ device. IsAtRest (state_of device)) }
        ensures device { IfOk result (λ device. state_of device ≡ restarted (image_of (state_of device))) }
        ensures stands { IfOk result (λ device. Opens words room (stored_in storage) (image_of (state_of device))) }
        ensures places { IfOk result (λ device. places_of device ≡ places_named (image_of (state_of device)) places) }
        ensures works { IfOk result (λ device. failure_of device ≡ None) }
        ensures unopened { IfErr result (λ unopened. StandsAs (IsStored unopened.storage) words room (stored_in storage)) }
    {
        match storage.words.clone() {
            Ok(file) => JournaledPmem::over(alloc, storage, file, words, room, places),
            Err(_) => Err(Unopened {
                error: io::Error::from(ErrorKind::OutOfMemory),
                storage,
            }),
        }
    }
}

impl Storage for MemoryStorage {
    // There is nothing to wait for.
    type Pending = ();

    ghost may_hold = { IsStored };

    ghost shows = { IsStored };

    ghost refuses = { IsOut };

    ghost came = { λ _. None };

    ghost shown_is_found = { λ _ _ _ shown. shown };

    fn write(&mut self, start: usize, words: &[u64]) -> io::Result<()> {
        if self.is_out {
            return Err(io::Error::from(ErrorKind::ResourceBusy));
        }
        if !self.take_call() {
            let _ = write_words(&mut self.words, start, words, self.torn);
            return Err(io::Error::from(ErrorKind::StorageFull));
        }
        match write_words(&mut self.words, start, words, Part::All) {
            Some(()) => Ok(()),
            None => Err(io::Error::from(ErrorKind::InvalidInput)),
        }
    }

    fn sync(&mut self) -> io::Result<()> {
        if self.is_out {
            return Err(io::Error::from(ErrorKind::ResourceBusy));
        }
        if self.take_call() {
            return Ok(());
        }
        Err(io::Error::from(ErrorKind::StorageFull))
    }

    fn hand_out(&mut self) -> Option<()> {
        if self.is_out {
            return None;
        }
        self.is_out = true;
        Some(())
    }

    fn sync_apart(pending: &mut ()) {
        let _ = pending;
    }

    fn take_back(&mut self, pending: ()) {
        let _ = pending;
        self.is_out = false;
    }
}

// Writes this part of each eight of the words, the first one here. `None` if one is outside, and then nothing is written.
fn write_words(into: &mut Vec<u64>, start: usize, words: &[u64], part: Part) -> Option<()>
    ensures puts { (word : ℕ) → IsInRun start words.now word (slice_index into.new.items word) ⊎ (slice_index into.new.items word ≡ slice_index into.old.items word) }
    ensures whole { OnSome result (part ≡ AllWords → (word : ℕ) → start ≤ word → word < start + length words.now → slice_index into.new.items word ≡ slice_index words.now (word - start)) }
    ensures torn { OnSome result ((set place : ℕ) → part ≡ Words set → place < length words.now → IsBitSet set (place % 8) → slice_index into.new.items (start + place) ≡ slice_index words.now place) }
    ensures left { (set place : ℕ) → part ≡ Words set → place < length words.now → ¬ IsBitSet set (place % 8) → slice_index into.new.items (start + place) ≡ slice_index into.old.items (start + place) }
    ensures outside { IfNone result ((length into.old.items < start + length words.now) × (into.new ≡ into.old)) }
{
    if words.len() > into.len() || start > into.len() - words.len() {
        return None;
    }
    for place in 0..words.len() {
        if part.has(place % 8) {
            into[start + place] = words[place];
        }
    }
    Some(())
}
