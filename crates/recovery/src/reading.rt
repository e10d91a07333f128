//! An image is read by the functions that open it, so what is printed about an image is what opening it would find.

ghost use Rattle.std.specs.Prelude.{IfOk, IfErr};
ghost use Rattle.pmem.specs.Words.{image_of};
ghost use Rattle.recovery.specs.Read.{IsRead, IsReadRefusal};

use crate::examining::read;
use crate::holding::held_slots;
use crate::image_device::ImageDevice;
use crate::rows::live_rows;
use base::fault::Fault;
use base::geometry::Geometry;
use base::key::Key;
use base::row::Row;
use log_area::Record;
use pmem::Pmem;
use std::alloc::Global;
use std::thread::Threads;

/// What a sound image holds.
#[derive(Debug, Drop)]
pub struct ImageContents {
    pub geometry: Geometry,
    pub ruling: Record,
    /// The key and the row of each live slot, in order of the slots.
    pub rows: Vec<(Key, Row)>,
}

/// Reads an image without opening it, and so also one whose opening would find no timestamps left. The image is refused for
/// what is wrong with it.
pub fn read_image<R: Threads + Sync>(
    rt: &R,
    alloc: Global,
    words: &[u64],
) -> Result<ImageContents, Fault>
    // The image is sound. It has this layout and this ruling record, and in order of the slots this key and row of each live
    // slot.
    ensures ok { IfOk result (λ found. IsRead words.now found.geometry found.ruling found.rows.items) }

    // At Err it is the image's first damage. Or it is OutOfMemory, if the superblock, the gates and the ruling record are right.
    ensures fault { IfErr result (IsReadRefusal words.now) }
{
    read_device(rt, alloc, &ImageDevice::of(words))
}

fn read_device<R: Threads + Sync, D: Pmem + Sync>(
    rt: &R,
    alloc: Global,
    device: &D,
) -> Result<ImageContents, Fault>
    ensures ok { IfOk result (λ found. IsRead (image_of (D.state device.now)) found.geometry found.ruling found.rows.items) }
    ensures fault { IfErr result (IsReadRefusal (image_of (D.state device.now))) }
{
    let readings = match read(rt, alloc, device) {
        Ok(readings) => readings,
        Err(fault) => return Err(fault),
    };
    let slots = readings.slots.as_slice();
    let held = match held_slots(rt, alloc, readings.geometry, slots) {
        Ok(held) => held,
        Err(fault) => return Err(fault),
    };
    match live_rows(alloc, device, readings.geometry, held.live.as_slice()) {
        Ok(rows) => Ok(ImageContents {
            geometry: readings.geometry,
            ruling: readings.ruling,
            rows,
        }),
        Err(_) => Err(Fault::OutOfMemory),
    }
}
