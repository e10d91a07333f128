//! Reading the slots is most of the work when an image is opened, and none depends on another, so threads share them. Opening
//! reads no row, and of a free slot only its begin and end.

ghost use Rattle.std.specs.Prelude.{◌≡◌, ◌+◌, ◌&&◌, ◌<◌, ◌≤◌, ℕ, not, get_or, length, IfOk};
ghost use Rattle.base.specs.Layout.{total_words};
ghost use Rattle.base.specs.Records.{is_committed};
ghost use Rattle.pmem.specs.Words.{image_of};
ghost use Rattle.recovery.specs.Slots.{IsUnder, found_in, readings_below};
ghost use Rattle.recovery.specs.declared.slots.SlotContent.{SlotContent as SlotContentValue};

use base::Ts;
use base::geometry::Geometry;
use base::key::Key;
use index::PlacedKey;
use log_area::Record;
use pmem::Pmem;
use rayon::slice::par_chunks_mut_for_each;
use std::alloc::{AllocError, Global};
use std::marker::Model;
use std::thread::Threads;

/// What a slot holds by itself.
#[derive(Clone, Copy, Debug)]
pub enum SlotContent {
    Free,
    Live(Key),
    Bad,
}

// Which of them a slot holds.
#[derive(Clone, Copy)]
enum Kind {
    Free,
    Live,
    Bad,
}

/// What one reading of a slot gives, in as little memory as possible: there is one for each slot.
#[derive(Drop)]
pub struct SlotReading {
    // Those of the key, if the slot is live.
    key: u64,
    table: u16,
    kind: Kind,
}

const _: () = prove!(size_of::<SlotReading>() == 16);

impl Model for SlotReading {
    ghost use Rattle.recovery.specs.declared.slots.SlotContent.{SlotContent};

    ghost Value = { SlotContent };

    ghost use Rattle.recovery.specs.Readings.{content_in};

    ghost view = { content_in };
}

impl SlotReading {
    ghost use Rattle.recovery.specs.Slots.{is_held, is_unfit, held_key};
    ghost use Rattle.recovery.specs.Readings.{content_of, no_key};

    #[inline(always)]
    fn of(found: SlotContent) -> SlotReading
        ensures { result ≡ found }
    {
        match found {
            SlotContent::Free => SlotReading::without_key(Kind::Free),
            SlotContent::Live(key) => SlotReading {
                key: key.key,
                table: key.table,
                kind: Kind::Live,
            },
            SlotContent::Bad => SlotReading::without_key(Kind::Bad),
        }
    }

    #[inline(always)]
    fn without_key(kind: Kind) -> SlotReading
        ensures { result ≡ content_of kind no_key }
    {
        SlotReading {
            key: 0,
            table: 0,
            kind,
        }
    }

    /// What the slot holds.
    #[inline(always)]
    pub fn content(&self) -> SlotContent
        ensures { result ≡ self.now }
    {
        match self.kind {
            Kind::Free => SlotContent::Free,
            Kind::Live => SlotContent::Live(Key {
                table: self.table,
                key: self.key,
            }),
            Kind::Bad => SlotContent::Bad,
        }
    }

    // Whether it is bad by itself.
    pub(crate) fn is_unfit(&self) -> bool
        ensures { result ≡ is_unfit self.now }
    {
        matches!(self.content(), SlotContent::Bad)
    }

    // Whether a live version is there.
    pub(crate) fn is_live(&self) -> bool
        ensures { result ≡ is_held self.now }
    {
        matches!(self.content(), SlotContent::Live(_))
    }

    // The key of the live version that is there.
    pub(crate) fn placed_key(&self) -> Option<PlacedKey>
        ensures { result ≡ held_key self.now }
    {
        match self.content() {
            SlotContent::Live(key) => Some(PlacedKey::of(key)),
            SlotContent::Free | SlotContent::Bad => None,
        }
    }
}

// Whether a version with this begin and this end is live under the record.
fn is_shown(ruling: Record, begin: Ts, end: Ts) -> bool
    ensures { result ≡ (is_committed ruling begin && not (is_committed ruling end)) }
{
    ruling.commits(begin) && !ruling.commits(end)
}

// What a slot holds, of an image that has this layout and that this record rules.
fn look<D: Pmem>(device: &D, geometry: Geometry, ruling: Record, slot: u64) -> SlotContent
    requires size { (D.state device.now).words ≡ total_words geometry }
    requires under { IsUnder geometry ruling (image_of (D.state device.now)) }
    requires slot { slot < geometry.slots }
    ensures { result ≡ found_in (image_of (D.state device.now)) slot }
{
    let begin = version_slot::begin(device, geometry, slot);
    let end = version_slot::end(device, geometry, slot);
    if begin >= ruling.dirty() || end >= ruling.dirty() {
        return SlotContent::Bad;
    }
    if !is_shown(ruling, begin, end) {
        return SlotContent::Free;
    }
    match version_slot::read_key(device, geometry, slot) {
        Some(key) => SlotContent::Live(key),
        None => SlotContent::Bad,
    }
}

// How many slots a thread reads before it looks for more. Fewer aren't worth a second thread.
const CHUNK: usize = 2048;

// What one reading of each slot gives, in their order, by several threads. Each writes what it reads to its final place.
/// Reads each slot once, in several threads, 2,048 slots at a time. Each thread puts its readings where they stay.
pub fn read_slots<R: Threads + Sync, D: Pmem + Sync>(
    rt: &R,
    alloc: Global,
    device: &D,
    geometry: Geometry,
    ruling: Record,
) -> Result<Vec<SlotReading>, AllocError>
    requires size { (D.state device.now).words ≡ total_words geometry }
    requires under { IsUnder geometry ruling (image_of (D.state device.now)) }

    // Of each slot, in their order: that it is free, holds a live version, with its key, or is bad, whatever other slots hold.
    ensures { IfOk result (λ readings. readings.items ≡ readings_below (image_of (D.state device.now)) geometry.slots) }
{
    let mut readings = unread(alloc, geometry.slots() as usize)?;
    read_into(rt, device, geometry, ruling, readings.as_mut_slice());
    Ok(readings)
}

fn read_into<R: Threads + Sync, D: Pmem + Sync>(
    rt: &R,
    device: &D,
    geometry: Geometry,
    ruling: Record,
    readings: &mut [SlotReading],
)
    requires size { (D.state device.now).words ≡ total_words geometry }
    requires under { IsUnder geometry ruling (image_of (D.state device.now)) }
    requires all { length readings.old ≡ geometry.slots }
    ensures len { length readings.new ≡ length readings.old }
    ensures each { (k : ℕ) (d : SlotContentValue) → k < length readings.old → get_or readings.new k d ≡ found_in (image_of (D.state device.now)) k }
{
    par_chunks_mut_for_each(
        rt,
        readings,
        CHUNK,
        |first: usize, chunk: &mut [SlotReading]|
            requires { (first + length chunk.now ≤ geometry.slots) × ((D.state device.now).words ≡ total_words geometry) × IsUnder geometry ruling (image_of (D.state device.now)) }
            ensures { (k : ℕ) (d : SlotContentValue) → k < length chunk.old → get_or chunk.new k d ≡ found_in (image_of (D.state device.entry.now)) (first + k) }
        {
            read_chunk(device, geometry, ruling, first, chunk);
        },
    );
}

// Placeholders for as many readings that are still to be made.
fn unread(alloc: Global, count: usize) -> Result<Vec<SlotReading>, AllocError>
    ensures { IfOk result (λ readings. readings.len ≡ count) }
{
    let mut readings = Vec::with_capacity(alloc, count)?;
    for _ in 0..count {
        readings.push(SlotReading::of(SlotContent::Bad))?;
    }
    Ok(readings)
}

// Reads as many slots as there are readings, from the first on.
fn read_chunk<D: Pmem>(
    device: &D,
    geometry: Geometry,
    ruling: Record,
    first: usize,
    readings: &mut [SlotReading],
)
    requires size { (D.state device.now).words ≡ total_words geometry }
    requires under { IsUnder geometry ruling (image_of (D.state device.now)) }
    requires within { first + length readings.old ≤ geometry.slots }
    ensures { (k : ℕ) (d : SlotContentValue) → k < length readings.old → get_or readings.new k d ≡ found_in (image_of (D.state device.now)) (first + k) }
{
    for place in 0..readings.len() {
        readings[place] = SlotReading::of(look(device, geometry, ruling, (first + place) as u64));
    }
}
