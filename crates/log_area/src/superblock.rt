//! The superblock says how long the device is, so an image that was cut or lengthened is refused.

ghost use Rattle.std.specs.Prelude.{◌≡◌, ◌+◌, ◌^◌, ◌<◌, ◌≤◌, ◌&&◌, nat_eq, ℕ, length, slice_index, IfOk, IfErr, OnOk, OnErr, Some, List};
ghost use Rattle.base.specs.Layout.{total_words};
ghost use Rattle.pmem.specs.Trace.{Runs, StopsWithin};
ghost use Rattle.pmem.specs.Words.{image_of};
ghost use Rattle.log_area.specs.Rulings.{IsLaidOut, IsHead, layout_damage};
ghost use Rattle.log_area.specs.Writings.{geometry_operations};
ghost use Rattle.base.specs.Fresh.{superblock_words};

use base::actor::Actor;
use base::fault::Fault;
use base::geometry::Geometry;
use pmem::{Pmem, store_all};

/// The superblock's word 0, `WBL-PRF1`.
pub const FORMATTED: u64 = 0x5742_4C2D_5052_4631;

/// How a device's image is laid out, by its superblock.
pub fn read_geometry<D: Pmem>(device: &D) -> Result<Geometry, Fault>
    // The layout that the superblock says, and otherwise the first of NotFormatted, Version and BadGeometry.
    ensures ok { IfOk result (λ geometry. IsLaidOut geometry (image_of (D.state device.now))) }
    ensures fault { IfErr result (λ fault. layout_damage (image_of (D.state device.now)) ≡ Some fault) }
{
    if device.words() < 8 {
        return Err(Fault::NotFormatted);
    }
    let mut words = [0; 8];
    load_words(device, 0, &mut words);
    geometry_in(&words, device.words())
}

// Loads as many words as the slice has, from this one on.
pub fn load_words<D: Pmem>(device: &D, start: usize, words: &mut [u64])
    requires within { start + length words.old ≤ (D.state device.now).words }
    requires low { start < 2 ^ 32 }
    requires few { length words.old < 2 ^ 32 }
    ensures { (k : ℕ) → k < length words.new → slice_index words.new k ≡ slice_index (image_of (D.state device.now)) (start + k) }
{
    for (k, word) in words.iter_mut().enumerate() {
        *word = device.load(start + k);
    }
}

// The layout of an image of that length that begins with these words.
fn geometry_in(words: &[u64; 8], count: usize) -> Result<Geometry, Fault>
    ensures ok { IfOk result (λ geometry. (image : List ℕ) → IsHead words.now count image → IsLaidOut geometry image) }
    ensures fault { IfErr result (λ fault. (image : List ℕ) → IsHead words.now count image → layout_damage image ≡ Some fault) }
{
    if words[0] != FORMATTED {
        return Err(Fault::NotFormatted);
    }
    if !Geometry::is_known_version(words[1]) {
        return Err(Fault::Version(words[1]));
    }
    let geometry = match Geometry::of_version(words[1], words[2], words[3], words[4]) {
        Ok(geometry) => geometry,
        Err(_) => return Err(Fault::BadGeometry),
    };
    if has_good_end(words, count, geometry.words()) {
        Ok(geometry)
    } else {
        Err(Fault::BadGeometry)
    }
}

fn has_good_end(words: &[u64; 8], count: usize, total: u64) -> bool
    ensures { result ≡ (nat_eq (slice_index words.now 5) total && nat_eq count (slice_index words.now 5)
        && nat_eq (slice_index words.now 6) 0 && nat_eq (slice_index words.now 7) 0) }
{
    words[5] == total && count as u64 == words[5] && words[6] == 0 && words[7] == 0
}

/// Stores words 1 to 7 of the superblock, and waits until they persist.
pub fn write_geometry<D: Pmem>(device: &mut D, geometry: Geometry) -> Result<(), Fault>
    requires { 8 ≤ (D.state device.old).words }

    // Exactly 7 stores of the layout's words 1 to 7, a flush of their line and a fence.
    ensures run { OnOk result (Runs (geometry_operations geometry) (D.state device.old) (D.state device.new)) }

    // At Err one of them failed, after those before it, and the fault is Device.
    ensures stopped { OnErr result (StopsWithin (geometry_operations geometry) (D.state device.old) (D.state device.new)) }
    ensures fault { IfErr result (λ fault. fault ≡ Fault.Device) }
{
    store_all(device, 1, &superblock(geometry)[1..])?;
    device.flush(Actor::COMMITTER, 0)?;
    device.fence(Actor::COMMITTER)?;
    Ok(())
}

fn superblock(geometry: Geometry) -> [u64; 8]
    ensures { result ≡ superblock_words geometry }
{
    [
        FORMATTED,
        geometry.version(),
        geometry.slots(),
        geometry.places(),
        geometry.window(),
        geometry.words(),
        0,
        0,
    ]
}
