//! All that may refuse opening is tested before the first operation, and all the memory is taken here, so if opening is
//! refused, the image is as it was. What is wrong with the log comes first, since the log says how the slots are to be
//! read.

ghost use Rattle.std.specs.Prelude.{◌≡◌, ◌+◌, ◌*◌, ◌^◌, ◌<◌, ◌≤◌, ◌||◌, nat_le, None, IfOk, IfErr};
ghost use Rattle.pmem.specs.Words.{image_of};
ghost use Rattle.base.specs.Images.{IsRuledBy};
ghost use Rattle.recovery.specs.Gaps.{few_gaps};
ghost use Rattle.recovery.specs.Sweeping.{hits_below};
ghost use Rattle.recovery.specs.Opened.{HasExamined, Refuses};
ghost use Rattle.recovery.specs.Read.{AreOf, IsLogRefusal, ReportsLogFault};

use crate::gaps::opened_gaps;
use crate::holding::{Held, held_slots};
use crate::rows::KeptSlot;
use crate::slots::{SlotReading, read_slots};
use crate::sweeping::hit_slots;
use base::fault::Fault;
use base::gap::Gaps;
use base::geometry::Geometry;
use index::PlacedKey;
use log_area::{Record, latest};
use pmem::Pmem;
use std::alloc::{AllocError, Global};
use std::collections::BTreeMap;
use std::thread::Threads;

/// What is learnt about an image that opens.
#[derive(Drop)]
pub struct Examined {
    pub geometry: Geometry,
    pub ruling: Record,
    /// With what opening adds; none if there are more than eight, which are swept.
    pub gaps: Option<Gaps>,
    /// Whether each slot is free.
    pub free: Vec<bool>,
    /// For each key, the place of its slot among those that aren't free.
    pub places: BTreeMap<PlacedKey, u32, Global>,
    /// Whether the begin or the end of each slot is in a gap; empty if there are at most eight.
    pub hits: Vec<bool>,
}

/// An image that opens.
#[derive(Drop)]
pub struct Found {
    pub examined: Examined,
    /// The slots that aren't free, in their order.
    pub live: Vec<KeptSlot>,
}

/// What was read of an image whose log has no fault: its layout, the record that rules it, and each slot once.
#[derive(Drop)]
pub struct Readings {
    pub geometry: Geometry,
    pub ruling: Record,
    /// In the order of the slots.
    pub slots: Vec<SlotReading>,
}

/// Reads all that opening needs of an image: the log first, and if that has no fault the slots, in several threads.
pub fn read<R: Threads + Sync, D: Pmem + Sync>(
    rt: &R,
    alloc: Global,
    device: &D,
) -> Result<Readings, Fault>
    // What was read of the log, and of each slot once.
    ensures ok { IfOk result (AreOf (image_of (D.state device.now))) }

    // At Err it is the first fault of the log, or OutOfMemory.
    ensures fault { IfErr result (IsLogRefusal (image_of (D.state device.now))) }
{
    let found = match latest(device) {
        Ok(found) => found,
        Err(fault) => return Err(fault),
    };
    match read_slots(rt, alloc, device, found.geometry, found.record) {
        Ok(slots) => Ok(Readings {
            geometry: found.geometry,
            ruling: found.record,
            slots,
        }),
        Err(_) => Err(Fault::OutOfMemory),
    }
}

impl Readings {
    ghost use Rattle.std.specs.Prelude.{◌≡◌, IfOk, IfErr};

    /// Tests, in order, all that opening needs of the slots that were read, and returns what opening gets from them.
    pub fn examine<R: Threads + Sync, D: Pmem>(
        &self,
        rt: &R,
        alloc: Global,
        device: &D,
    ) -> Result<Found, Fault>
        requires read { AreOf (image_of (D.state device.now)) self.now }
        ensures ok { IfOk result (λ found. HasExamined (image_of (D.state device.now)) found.examined found.live.items) }
        ensures fault { IfErr result (Refuses (image_of (D.state device.now))) }
    {
        let held = match held_slots(rt, alloc, self.geometry, self.slots.as_slice()) {
            Ok(held) => held,
            Err(fault) => return Err(fault),
        };
        if is_near_limit(self.geometry, self.ruling) {
            return Err(Fault::TimestampsOut);
        }
        let Held { free, live, places } = held;
        match gather(alloc, device, self, free, places) {
            Ok(examined) => Ok(Found { examined, live }),
            Err(_) => Err(Fault::OutOfMemory),
        }
    }
}

/// Tests all that opening needs of an image, in order. Several threads read each slot once.
pub fn examine<R: Threads + Sync, D: Pmem + Sync>(
    rt: &R,
    alloc: Global,
    device: &D,
) -> Result<Found, Fault>
    // The image has no fault that opening reports, and this is what opening needs of it: the layout, the record that rules, the gaps,
    // the free slots and the live ones, the place of each key among these, and the slots that a sweep stores in.
    ensures ok { IfOk result (λ found. HasExamined (image_of (D.state device.now)) found.examined found.live.items) }

    // At Err it is the first fault that opening reports, or OutOfMemory.
    ensures fault { IfErr result (Refuses (image_of (D.state device.now))) }

    // A fault of the superblock, of a gate or of the ruling record is reported even if memory is lacking.
    ensures log { IfErr result (ReportsLogFault (image_of (D.state device.now))) }
{
    let readings = match read(rt, alloc, device) {
        Ok(readings) => readings,
        Err(fault) => return Err(fault),
    };
    match readings.examine(rt, alloc, device) {
        Ok(found) => Ok(found),
        Err(fault) => Err(fault),
    }
}

// What the readings give to opening when these slots are free and the keys of the others have these places.
fn gather<D: Pmem>(
    alloc: Global,
    device: &D,
    readings: &Readings,
    free: Vec<bool>,
    places: BTreeMap<PlacedKey, u32, Global>,
) -> Result<Examined, AllocError>
    requires { IsRuledBy readings.now.geometry readings.now.ruling (image_of (D.state device.now)) }
    ensures layout { IfOk result (λ examined. examined.geometry ≡ readings.now.geometry) }
    ensures rules { IfOk result (λ examined. examined.ruling ≡ readings.now.ruling) }
    ensures gaps { IfOk result (λ examined. examined.gaps ≡ few_gaps readings.now.ruling) }
    ensures free { IfOk result (λ examined. examined.free ≡ free) }
    ensures places { IfOk result (λ examined. examined.places ≡ places) }
    ensures hits { IfOk result (λ examined. examined.gaps ≡ None → examined.hits.items ≡ hits_below (image_of (D.state device.now)) readings.now.geometry.slots) }
{
    let gaps = opened_gaps(readings.ruling);
    let hits = match gaps {
        Some(_) => Vec::new(alloc),
        None => hit_slots(alloc, device, readings.geometry, readings.ruling)?,
    };
    Ok(Examined {
        geometry: readings.geometry,
        ruling: readings.ruling,
        gaps,
        free,
        places,
        hits,
    })
}

// Whether too few timestamps or record numbers are left for a life.
fn is_near_limit(geometry: Geometry, ruling: Record) -> bool
    requires window { geometry.window ≤ 1024 }
    requires dirty { ruling.dirty < 2 ^ 62 }
    requires gate { ruling.gate < 2 ^ 62 }
    ensures { result ≡ (nat_le (2 ^ 62) (ruling.dirty + 2 * geometry.window) || nat_le (2 ^ 62) (ruling.gate + 1)) }
{
    1 << 62 <= ruling.dirty() + 2 * geometry.window() || 1 << 62 <= ruling.gate() + 1
}
