ghost use Rattle.std.specs.Prelude.{◌≡◌, ℕ, ◌+◌, List, length, IfErr, IfOk};
ghost use Rattle.journal.specs.Files.{IsStoodFor};
ghost use Rattle.journal.specs.Kept.{IsFound};
ghost use Rattle.journal.specs.Lives.{IsNoMore};
ghost use Rattle.pmem.specs.Device.{MightHaveLeft};
ghost use Rattle.pmem.specs.Words.{image_of};
ghost use Rattle.pmem_file.specs.Devices.{MayFindIn, kept_at, last_image, room_in, state_of, storage_of};

use crate::journaled::JournaledPmem;
use journal::{JournaledImages, Storage, Unopened, write_back};
use std::alloc::Global;

/// The next life of a device begins with an image that a crash of the last one might have left, whatever stopped that.
pub fn next_device_begins_with_what_was_left<B: Storage, S: Storage>(
    alloc: Global,
    last: &JournaledPmem<JournaledImages<B>>,
    next: S,
    file: Vec<u64>,
    words: usize,
    room: usize,
    places: usize,
) -> Result<JournaledPmem<JournaledImages<S>>, Unopened<S>>
where
    S: Drop,
    // A file was read that might be found of the last device, and of its words nothing else may be found at the beginning.
    requires words { words ≡ length (last_image last.now) }
    requires room { room ≡ room_in last.now }
    requires found { IsFound (B.may_hold (storage_of last.now)) (words + room + 8) file.items }
    requires begins { IsNoMore (B.may_hold (storage_of last.now)) (S.may_hold next) }

    // At Ok the next device begins with an image that might be found of the last one, so with one that a crash of it might have left
    // since the last that was kept.
    ensures stands { IfOk result (λ device. MayFindIn B.may_hold last.now (image_of (state_of device))) }
    ensures left { IfOk result (λ device. ∥ MightHaveLeft (state_of last.now) (kept_at last.now) (image_of (state_of device)) ∥₁) }

    // At Err, whichever write fails, no file is found that stands for another image.
    ensures stopped { IfErr result (λ unopened. (image : List ℕ) → IsStoodFor (S.may_hold unopened.storage) words room image → MayFindIn B.may_hold last.now image) }
{
    last.found_image_was_left();
    let mut storage = next;
    match write_back(&mut storage, words, file.as_slice()) {
        Ok(()) => JournaledPmem::over(alloc, storage, file, words, room, places),
        Err(error) => Err(Unopened { error, storage }),
    }
}
