//! Opening needs only the key and the number of a slot. Rows are read only to print an image.

ghost use Rattle.std.specs.Prelude.{◌≡◌, ◌<◌, ◌^◌, length, map, IfOk};
ghost use Rattle.base.specs.Images.{Image, IsRuledBy, layout_of};
ghost use Rattle.base.specs.Layout.{total_words};
ghost use Rattle.base.specs.Records.{Record};
ghost use Rattle.pmem.specs.Words.{image_of};
ghost use Rattle.recovery.specs.Slots.{AreReadings, bad_below};
ghost use Rattle.recovery.specs.Read.{rows_below};
ghost use Rattle.recovery.specs.Held.{HasEach, held_keys};
ghost use Rattle.recovery.specs.Live.{live_below, opened_slot};

use crate::slots::{SlotContent, SlotReading};
use base::Ts;
use base::geometry::Geometry;
use base::key::Key;
use base::row::Row;
use pmem::Pmem;
use std::alloc::{AllocError, Global};
use std::marker::Model;

/// A live slot: its version's key, and its number.
#[derive(Clone, Copy, Debug, PartialEq, Eq)]
pub struct LiveSlot {
    pub key: Key,
    pub slot: u64,
}

/// The same, in as little memory as possible: there is one for each live slot.
#[derive(Drop)]
pub struct KeptSlot {
    key: u64,
    slot: u32,
    table: u16,
}

const _: () = prove!(size_of::<KeptSlot>() == 16);

impl Model for KeptSlot {
    ghost use Rattle.recovery.specs.declared.rows.LiveSlot.{LiveSlot};

    ghost Value = { LiveSlot };

    ghost use Rattle.recovery.specs.Kept.{slot_in};

    ghost view = { slot_in };
}

impl KeptSlot {
    #[inline(always)]
    fn of(key: Key, slot: u64) -> KeptSlot
        requires { slot < 2 ^ 32 }
        ensures { result ≡ record { key = key; slot = slot } }
    {
        KeptSlot {
            key: key.key,
            slot: slot as u32,
            table: key.table,
        }
    }

    /// The slot that is kept.
    #[inline(always)]
    pub fn live(&self) -> LiveSlot
        ensures { result ≡ self.now }
    {
        LiveSlot {
            key: Key {
                table: self.table,
                key: self.key,
            },
            slot: u64::from(self.slot),
        }
    }
}

// The slots that hold a live version, in their order.
pub fn live_slots(alloc: Global, readings: &[SlotReading]) -> Result<Vec<KeptSlot>, AllocError>
    requires { length readings.now < 2 ^ 32 }
    ensures live { IfOk result (λ live. (image : Image) → AreReadings image readings.now → live.items ≡ live_below image (length readings.now)) }
    ensures each { IfOk result (λ live. HasEach readings.now (length readings.now) live.items) }
    ensures keys { IfOk result (λ live. map (λ s. s.key) live.items ≡ held_keys readings.now) }
{
    let mut live = Vec::with_capacity(alloc, readings.len())?;
    for slot in 0..readings.len() {
        let found = readings[slot].content();
        if let SlotContent::Live(key) = found {
            live.push(KeptSlot::of(key, slot as u64))?;
        }
    }
    Ok(live)
}

/// A live slot of a device that was opened: its version's key, its number, and the timestamp in its begin.
#[derive(Clone, Copy, Debug, PartialEq, Eq)]
pub struct OpenedSlot {
    pub key: Key,
    pub slot: u64,
    pub begin: Ts,
}

// These slots, each with its begin. A room needs none, so they are read here once more.
pub fn with_begins<D: Pmem>(
    alloc: Global,
    device: &D,
    geometry: Geometry,
    live: &[KeptSlot],
) -> Result<Vec<OpenedSlot>, AllocError>
    requires rules { (ruling : Record) × IsRuledBy geometry ruling (image_of (D.state device.now)) }
    requires live { live.now ≡ live_below (image_of (D.state device.now)) geometry.slots }
    ensures { IfOk result (λ opened. opened.items ≡ map (opened_slot (image_of (D.state device.now))) live.now) }
{
    let mut opened = Vec::with_capacity(alloc, live.len())?;
    for kept in live {
        opened.push(with_begin(device, geometry, kept.live()))?;
    }
    Ok(opened)
}

// The slot with its begin.
fn with_begin<D: Pmem>(device: &D, geometry: Geometry, live: LiveSlot) -> OpenedSlot
    requires rules { (ruling : Record) × IsRuledBy geometry ruling (image_of (D.state device.now)) }
    requires slot { live.slot < geometry.slots }
    ensures { result ≡ opened_slot (image_of (D.state device.now)) live }
{
    OpenedSlot {
        key: live.key,
        slot: live.slot,
        begin: version_slot::begin(device, geometry, live.slot),
    }
}

// The keys and rows of the live versions, in order of the slots.
pub fn live_rows<D: Pmem>(
    alloc: Global,
    device: &D,
    geometry: Geometry,
    live: &[KeptSlot],
) -> Result<Vec<(Key, Row)>, AllocError>
    requires size { (D.state device.now).words ≡ total_words geometry }
    requires live { live.now ≡ live_below (image_of (D.state device.now)) geometry.slots }
    requires laid_out { layout_of (image_of (D.state device.now)) ≡ geometry }
    requires good { bad_below (image_of (D.state device.now)) geometry.slots ≡ None }
    ensures { IfOk result (λ rows. rows.items ≡ rows_below (image_of (D.state device.now)) geometry.slots) }
{
    let mut rows = Vec::with_capacity(alloc, live.len())?;
    for kept in live {
        let found = kept.live();
        let Some(held) = version_slot::read(device, geometry, found.slot) else {
            unreachable!()
        };
        rows.push((found.key, held.version.row))?;
    }
    Ok(rows)
}
