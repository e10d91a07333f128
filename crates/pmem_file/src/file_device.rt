ghost use Rattle.std.specs.Prelude.{◌≡◌, ℕ, ◌≤◌, ◌<◌, ◌^◌, List, length, slice_index, None, Some, IfOk, OnOk};
ghost use Rattle.journal.specs.Files.{Opens};
ghost use Rattle.pmem.specs.Device.{restarted};
ghost use Rattle.pmem.specs.Words.{IsAtRest, image_of};
ghost use Rattle.pmem_file.specs.Devices.{MayFindIn, failure_of, last_image, places_of, state_of};
ghost use Rattle.file_words.specs.Calls.{IsCutTo, held_by};
ghost use Rattle.journal.specs.Kept.{HoldsOnly};
ghost use Rattle.journal.specs.ReadBack.{IsReadBack};
ghost use Rattle.pmem_file.specs.Files.{held_in, shown_in};
ghost use Rattle.pmem_file.specs.Journaled.{places_named};
ghost use Rattle.pmem_file.specs.Shapes.{HasItsPlaces, padded, whole};

use crate::journaled::JournaledPmem;
use crate::opening::{
    OpenError, hold_standard_streams, open_alone, sync_known_folder, sync_new_folder,
};
use crate::shape::{Found, Shape};
use crate::storage::FileStorage;
use base::geometry::Geometry;
use file_words::Account;
use journal::{JournaledImages, Storage, write_back};
use std::alloc::Global;
use std::fs::File;
use std::io;
use std::rt::Files;

/// A device whose image is kept in a file, by a journal behind it.
pub type FileDevice = JournaledPmem<JournaledImages<FileStorage>>;

impl JournaledPmem<JournaledImages<FileStorage>> {
    /// Opens the file and locks it against other processes. If it is empty or missing, it gets the words of a new image of this
    /// geometry, all 0. Its journal is read, or created behind the image, and nothing is written to any file that isn't one of
    /// ours.
    pub fn open<R: Files<File = File>>(
        rt: &R,
        alloc: Global,
        name: &str,
        geometry: Geometry,
    ) -> Result<FileDevice, OpenError>
        // The device is at rest, nothing was done to it yet, and no failure to keep an image is noted.
        ensures rest { IfOk result (λ device. IsAtRest (state_of device)) }
        ensures device { IfOk result (λ device. state_of device ≡ restarted (image_of (state_of device))) }
        ensures works { IfOk result (λ device. failure_of device ≡ None) }

        // By the account of the file no image but the device's may be found there (`MayFindIn`, `held_in`), whatever it held
        // before.
        ensures found { IfOk result (λ device. (image : List ℕ) → MayFindIn held_in device image → image ≡ image_of (state_of device)) }

        // The image with which it begins is one of some layout, as its superblock says, or one in which nothing was ever kept,
        // and which then has the layout that is asked for. The device has that layout's places (`HasItsPlaces`).
        ensures layout { IfOk result (λ device. HasItsPlaces (Some geometry) (image_of (state_of device)) (places_of device)) }
    {
        open_as(rt, alloc, name, Some(geometry))
    }

    /// Opens the file as `open` does, if an image is in it, of whatever geometry. No file is made: a missing or an empty one is
    /// `Missing`. One whose format was cut short is refused, as any that isn't an image.
    pub fn open_existing<R: Files<File = File>>(
        rt: &R,
        alloc: Global,
        name: &str,
    ) -> Result<FileDevice, OpenError>
        // As for `open`, but the image is always one of some layout, as its superblock says.
        ensures rest { IfOk result (λ device. IsAtRest (state_of device)) }
        ensures device { IfOk result (λ device. state_of device ≡ restarted (image_of (state_of device))) }
        ensures works { IfOk result (λ device. failure_of device ≡ None) }
        ensures found { IfOk result (λ device. (image : List ℕ) → MayFindIn held_in device image → image ≡ image_of (state_of device)) }
        ensures layout { IfOk result (λ device. HasItsPlaces None (image_of (state_of device)) (places_of device)) }
    {
        open_as(rt, alloc, name, None)
    }

    /// Closes the file: it holds the image alone, without a journal. Fails if an image wasn't kept, and if a write fails. The
    /// journal is read then when it is opened again. Fails with `NotFound` if no name leads to the file any more: then what it
    /// holds is gone.
    pub fn close(self) -> io::Result<Account>
        // At Ok the file's account is returned: its first words are found only as the image that was written last.
        ensures left { IfOk result (λ account. HoldsOnly (held_by account) (length (last_image self)) (last_image self)) }

        // By its last two calls the file was cut to the image, and synced (`IsCutTo`).
        ensures cut { IfOk result (IsCutTo (length (last_image self))) }
    {
        let words = self.size();
        match self.into_storage() {
            Ok(storage) => storage.close(words),
            Err(unclosed) => Err(unclosed.error),
        }
    }
}

// Opens the file. If it is empty or missing, it gets the words of a new image of the geometry that is asked for, if one is.
#[tactic(auto, using(crate::proofs::Shapes::begun))]
fn open_as<R: Files<File = File>>(
    rt: &R,
    alloc: Global,
    name: &str,
    asked: Option<Geometry>,
) -> Result<FileDevice, OpenError>
    ensures rest { IfOk result (λ device. IsAtRest (state_of device)) }
    ensures device { IfOk result (λ device. state_of device ≡ restarted (image_of (state_of device))) }
    ensures works { IfOk result (λ device. failure_of device ≡ None) }
    ensures found { IfOk result (λ device. (image : List ℕ) → MayFindIn held_in device image → image ≡ image_of (state_of device)) }
    ensures layout { IfOk result (λ device. HasItsPlaces asked (image_of (state_of device)) (places_of device)) }
{
    let held = hold_standard_streams(rt, alloc)?;
    let (file, is_made) = open_alone(rt, name, asked.is_some())?;
    let found = Found::read(alloc, &file)?;
    let shape = found.shape(alloc, &asked)?;
    let is_new = found.is_empty();
    if is_new {
        sync_new_folder(rt, alloc, name, is_made)?;
    }
    let device = open_found(alloc, file, held, found, shape)?;
    if !is_new {
        sync_known_folder(rt, alloc, name)?;
    }
    Ok(device)
}

// Makes the file as long as its shape, and opens it.
fn open_found(
    alloc: Global,
    file: File,
    held: Vec<File>,
    found: Found,
    shape: Shape,
) -> io::Result<FileDevice>
    requires fits { whole shape < 2 ^ 58 }
    requires within { length found.words.items ≤ whole shape }
    ensures rest { IfOk result (λ device. IsAtRest (state_of device)) }
    ensures device { IfOk result (λ device. state_of device ≡ restarted (image_of (state_of device))) }
    ensures works { IfOk result (λ device. failure_of device ≡ None) }
    ensures found { IfOk result (λ device. (image : List ℕ) → MayFindIn held_in device image → image ≡ image_of (state_of device)) }
    ensures stands { IfOk result (λ device. Opens shape.words shape.room (padded shape found.words.items) (image_of (state_of device))) }
    ensures places { IfOk result (λ device. places_of device ≡ places_named (image_of (state_of device)) shape.places) }
{
    let count = found.count();
    let words = found.into_words(shape)?;
    let mut storage = FileStorage::read(alloc, file, held, count, shape.words, shape.room, &words)?;
    storage.grow(alloc, count, shape.words, shape.whole())?;
    keep_behind(&mut storage, shape, count, words.as_slice())?;
    let opened = JournaledPmem::over(alloc, storage, words, shape.words, shape.room, shape.places);
    match opened {
        Ok(device) => Ok(device),
        Err(unopened) => Err(unopened.error),
    }
}

// Waits until the journal and the tail of a file persist as they were read, and what was read in place. If it had no journal, its words
// are new, and just written.
fn keep_behind(
    storage: &mut FileStorage,
    shape: Shape,
    count: usize,
    words: &[u64],
) -> io::Result<()>
    requires size { length words.now ≡ whole shape }
    requires new { (word x : ℕ) → count ≤ word → word < whole shape → shown_in storage.old word x → x ≡ slice_index words.now word }
    ensures back { OnOk result (IsReadBack (held_in storage.new) shape.words shape.room words.now) }
    ensures place { OnOk result ((word x : ℕ) → word < shape.words → held_in storage.new word x → shown_in storage.old word x) }
{
    if count <= shape.words {
        return storage.sync();
    }
    write_back(storage, shape.words, words)
}
