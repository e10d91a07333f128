ghost use Rattle.std.specs.Prelude.{◌≡◌, ◌<◌, ◌≤◌, ℕ, true, false, slice_index, IfSome, IfNone};
ghost use Rattle.base.specs.Layout.{slot_start, slot_words, total_words};
ghost use Rattle.pmem.specs.Words.{value_of};
ghost use Rattle.version_slot.specs.Words.{IsSlot, IsVersion, key_in, slot_at};
ghost use Rattle.version_slot.specs.declared.words.Version.{Version};

use crate::words::{Slot, held_key};
use base::geometry::Geometry;
use base::key::Key;
use pmem::Pmem;

/// What the last values of a slot's words hold.
#[inline(always)]
pub fn read<D: Pmem>(device: &D, geometry: Geometry, slot: u64) -> Option<Slot>
    requires slot { slot < geometry.slots }
    requires device { (D.state device.now).words ≡ total_words geometry }

    // The slot whose words the last values are. None exactly if no slot has these words.
    ensures some { IfSome result (IsSlot geometry (slot_at geometry slot (value_of (D.state device.now)))) }
    ensures none { IfNone result ((found : Slot) → ¬ IsSlot geometry (slot_at geometry slot (value_of (D.state device.now))) found) }
{
    Slot::from_words(&words_from(device, geometry, slot, 0), geometry)
}

/// Puts what the last values of a slot's words hold into the place for it, and returns whether they hold anything.
#[inline(always)]
pub fn read_into<D: Pmem>(device: &D, geometry: Geometry, slot: u64, held: &mut Slot) -> bool
    requires slot { slot < geometry.slots }
    requires device { (D.state device.now).words ≡ total_words geometry }

    // The slot whose words the last values are, exactly if a slot has these words.
    ensures some { result ≡ true → IsSlot geometry (slot_at geometry slot (value_of (D.state device.now))) held.new }
    ensures none { result ≡ false → (found : Slot) → ¬ IsSlot geometry (slot_at geometry slot (value_of (D.state device.now))) found }
{
    if geometry.slot_words() == 8 {
        held.take_line(&line_from(device, geometry, slot, 0), geometry)
    } else {
        held.take_words(&words_from(device, geometry, slot, 0), geometry)
    }
}

/// The key of the version that a slot's words after begin and end hold. These two aren't loaded.
pub fn read_key<D: Pmem>(device: &D, geometry: Geometry, slot: u64) -> Option<Key>
    requires slot { slot < geometry.slots }
    requires device { (D.state device.now).words ≡ total_words geometry }

    // The key of the version whose words the last values after begin and end are. None exactly if no version has these words.
    ensures some { IfSome result (λ key. (version : Version) × IsVersion geometry (slot_at geometry slot (value_of (D.state device.now))) version × (version.key ≡ key)) }
    ensures none { IfNone result ((version : Version) → ¬ IsVersion geometry (slot_at geometry slot (value_of (D.state device.now))) version) }
{
    if geometry.slot_words() == 8 {
        held_key(&line_from(device, geometry, slot, 2), geometry)
    } else {
        held_key(&words_from(device, geometry, slot, 2), geometry)
    }
}

// The last values of a slot's words from `first` on. A slot has eight in each line.
#[inline(always)]
fn words_from<D: Pmem>(device: &D, geometry: Geometry, slot: u64, first: usize) -> [u64; 64]
    requires slot { slot < geometry.slots }
    requires device { (D.state device.now).words ≡ total_words geometry }
    ensures { (w : ℕ) → first ≤ w → w < slot_words geometry.version → slice_index result w ≡ slot_at geometry slot (value_of (D.state device.now)) w }
{
    let start = geometry.slot_start(slot);
    let mut words = [0; 64];
    for w in first..geometry.slot_words() as usize {
        words[w] = device.load(start + w);
    }
    words
}

// The same of a slot of one line.
#[inline(always)]
fn line_from<D: Pmem>(device: &D, geometry: Geometry, slot: u64, first: usize) -> [u64; 8]
    requires slot { slot < geometry.slots }
    requires device { (D.state device.now).words ≡ total_words geometry }
    requires line { slot_words geometry.version ≡ 8 }
    ensures { (w : ℕ) → first ≤ w → w < slot_words geometry.version → slice_index result w ≡ slot_at geometry slot (value_of (D.state device.now)) w }
{
    let start = geometry.slot_start(slot);
    let mut words = [0; 8];
    for w in first..8 {
        words[w] = device.load(start + w);
    }
    words
}

/// The key of the version that a slot's words hold, of words that hold one.
pub fn key<D: Pmem>(device: &D, geometry: Geometry, slot: u64) -> Key
    requires slot { slot < geometry.slots }
    requires device { (D.state device.now).words ≡ total_words geometry }
    ensures { result ≡ key_in (slot_at geometry slot (value_of (D.state device.now))) }
{
    let start = geometry.slot_start(slot);
    Key {
        table: (device.load(start + 3) % 65_536) as u16,
        key: device.load(start + 2),
    }
}

/// The timestamp in a slot's begin.
pub fn begin<D: Pmem>(device: &D, geometry: Geometry, slot: u64) -> u64
    requires slot { slot < geometry.slots }
    requires device { (D.state device.now).words ≡ total_words geometry }
    ensures { result ≡ slot_at geometry slot (value_of (D.state device.now)) 0 }
{
    device.load(geometry.slot_start(slot))
}

/// The timestamp in a slot's end.
pub fn end<D: Pmem>(device: &D, geometry: Geometry, slot: u64) -> u64
    requires slot { slot < geometry.slots }
    requires device { (D.state device.now).words ≡ total_words geometry }
    ensures { result ≡ slot_at geometry slot (value_of (D.state device.now)) 1 }
{
    device.load(geometry.slot_start(slot) + 1)
}
