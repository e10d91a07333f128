//! Two live slots with one key are damage, which is found by counting the keys: one look at each slot is enough for an image
//! that is sound. Only if the image isn't sound, the slots are gone through in order, to find the lowest bad one.

ghost use Rattle.std.specs.Prelude.{◌≡◌, ◌<◌, ◌+◌, ◌^◌, ℕ, None, false, length, All, IfOk, IfErr, OnOk, IsTrue, ◌↔◌};
ghost use Rattle.std.specs.BTreeMap.{IsFromIterResult};
ghost use Rattle.std.specs.BTreeSet.{contains};
ghost use Rattle.base.specs.Images.{Image};
ghost use Rattle.recovery.specs.Slots.{AreReadings, HasKeys, IsVisitFault, IsSlotsFault, found_in, readings_below, free_below, bad_below, held_key, is_bad, is_unfit, key_cmp};
ghost use Rattle.recovery.specs.Held.{AreHeld, AreFindings, held_keys, numbered};

use crate::rows::{KeptSlot, live_slots};
use crate::slots::{SlotContent, SlotReading};
use base::fault::Fault;
use base::geometry::Geometry;
use base::key::Key;
use index::PlacedKey;
use rayon::join;
use std::alloc::{AllocError, Global};
use std::collections::{BTreeMap, BTreeSet};
use std::thread::Threads;

/// What the slots of an image hold, of which none is bad.
#[derive(Drop)]
pub struct Held {
    /// Whether each slot is free.
    pub free: Vec<bool>,
    /// The others, in their order.
    pub live: Vec<KeptSlot>,
    /// For each key, the place of its slot in `live`.
    pub places: BTreeMap<PlacedKey, u32, Global>,
}

// This is decided by what was read of the slots. The lowest bad slot is reported. A slot is bad by itself, or if a lower one has its key:
// then there are fewer keys than live slots.
pub fn held_slots<R: Threads + Sync>(
    rt: &R,
    alloc: Global,
    geometry: Geometry,
    readings: &[SlotReading],
) -> Result<Held, Fault>
    requires size { length readings.now ≡ geometry.slots }

    // At Ok no slot is bad, these are free, these are live, and each live one has its place among them by its key. At Err it is
    // the lowest bad slot, or OutOfMemory.
    ensures held { IfOk result (λ held. (image : Image) → readings.now ≡ readings_below image geometry.slots → AreHeld image geometry.slots held) }
    ensures fault { IfErr result (λ fault. (image : Image) → readings.now ≡ readings_below image geometry.slots → IsSlotsFault geometry image fault) }
{
    let Ok(made) = side_by_side(rt, alloc, readings) else {
        return Err(Fault::OutOfMemory);
    };
    if made.0.len() != made.1.live.len() || !made.1.are_fit() {
        match find_bad(alloc, geometry, readings) {
            Ok(()) => {}
            Err(fault) => return Err(fault),
        }
    }
    let (places, findings) = made;
    Ok(Held {
        free: findings.free,
        live: findings.live,
        places,
    })
}

// Fewer slots are not worth a thread. For more than `MANY` one is made after the other, which takes less memory at a time.
const FEW: usize = 1024;

const MANY: usize = 1 << 17;

// What the readings show without regard to keys.
#[derive(Drop)]
struct Findings {
    // Whether each slot is free.
    free: Vec<bool>,
    // Those that hold a live version, in their order.
    live: Vec<KeptSlot>,
    // Whether each slot holds by itself what it should.
    are_fit: bool,
}

impl Findings {
    fn are_fit(&self) -> bool
        ensures { IsTrue result ↔ IsTrue self.now.are_fit }
    {
        self.are_fit
    }
}

// The places of the keys, and what the readings show without regard to keys: if there are many, in two threads. The greater
// part stays in this one, whose heap has what was freed before.
fn side_by_side<R: Threads + Sync>(
    rt: &R,
    alloc: Global,
    readings: &[SlotReading],
) -> Result<(BTreeMap<PlacedKey, u32, Global>, Findings), AllocError>
    requires { length readings.now < 2 ^ 32 }
    ensures places { IfOk result (λ made. IsFromIterResult key_cmp (numbered 0 (held_keys readings.now)) made.0) }
    ensures findings { IfOk result (λ made. AreFindings readings.now made.1) }
{
    if readings.len() < FEW || MANY < readings.len() {
        let places = places_of(alloc, readings)?;
        return Ok((places, findings_of(alloc, readings)?));
    }
    let keyed = move || -> Result<BTreeMap<PlacedKey, u32, Global>, AllocError>
        requires { length readings.now < 2 ^ 32 }
        ensures { IfOk result (λ places. IsFromIterResult key_cmp (numbered 0 (held_keys readings.entry.now)) places) }
    { places_of(alloc, readings) };
    let listed = move || -> Result<Findings, AllocError>
        requires { length readings.now < 2 ^ 32 }
        ensures { IfOk result (AreFindings readings.entry.now) }
    { findings_of(alloc, readings) };
    let (findings, places) = join(rt, listed, keyed);
    Ok((places?, findings?))
}

fn findings_of(alloc: Global, readings: &[SlotReading]) -> Result<Findings, AllocError>
    requires { length readings.now < 2 ^ 32 }
    ensures { IfOk result (AreFindings readings.now) }
{
    let free = free_slots(alloc, readings)?;
    let live = live_slots(alloc, readings)?;
    Ok(Findings {
        free,
        live,
        are_fit: are_fit(readings),
    })
}

// For each key, the place of its live slot among the live slots. If two slots have one key, it is the place of the later one.
fn places_of(
    alloc: Global,
    readings: &[SlotReading],
) -> Result<BTreeMap<PlacedKey, u32, Global>, AllocError>
    requires { length readings.now < 2 ^ 32 }
    ensures { IfOk result (λ places. IsFromIterResult key_cmp (numbered 0 (held_keys readings.now)) places) }
{
    readings
        .iter()
        .filter_map(
            |reading: &SlotReading| -> Option<PlacedKey>
                ensures { result ≡ held_key reading.now }
            { reading.placed_key() },
        )
        .zip(0..readings.len() as u32)
        .collect(alloc)
}

// Whether each slot holds by itself what it should.
fn are_fit(readings: &[SlotReading]) -> bool
    ensures { IsTrue result ↔ All (λ reading. is_unfit reading ≡ false) readings.now }
{
    readings.iter().all(|reading| !reading.is_unfit())
}

// Which slots are free, if none is bad.
fn free_slots(alloc: Global, readings: &[SlotReading]) -> Result<Vec<bool>, AllocError>
    ensures { IfOk result (λ free. (image : Image) → AreReadings image readings.now → free.items ≡ free_below image (length readings.now)) }
{
    let mut free = Vec::with_capacity(alloc, readings.len())?;
    for slot in 0..readings.len() {
        free.push(!readings[slot].is_live())?;
    }
    Ok(free)
}

// Fails with the lowest bad slot.
fn find_bad(alloc: Global, geometry: Geometry, readings: &[SlotReading]) -> Result<(), Fault>
    requires { length readings.now ≡ geometry.slots }
    ensures good { OnOk result ((image : Image) → readings.now ≡ readings_below image geometry.slots → bad_below image geometry.slots ≡ None) }
    ensures fault { IfErr result (λ fault. (image : Image) → readings.now ≡ readings_below image geometry.slots → IsSlotsFault geometry image fault) }
{
    let mut seen = BTreeSet::new(alloc);
    for slot in 0..geometry.slots() {
        let found = readings[slot as usize].content();
        match visit(geometry, slot, &found, &mut seen) {
            Ok(()) => {}
            Err(fault) => return Err(fault),
        }
    }
    Ok(())
}

// Fails if the slot that holds this is bad. Its key joins those of the slots before.
#[tactic(auto, using(base::proofs::Layouts::few_slots))]
fn visit(
    geometry: Geometry,
    slot: u64,
    found: &SlotContent,
    seen: &mut BTreeSet<Key>,
) -> Result<(), Fault>
    requires { slot < geometry.slots }
    ensures keys { OnOk result ((image : Image) → found.now ≡ found_in image slot → HasKeys image slot (contains key_cmp seen.old) → HasKeys image (slot + 1) (contains key_cmp seen.new)) }
    ensures good { OnOk result ((image : Image) → found.now ≡ found_in image slot → HasKeys image slot (contains key_cmp seen.old) → is_bad image slot ≡ false) }
    ensures fault { IfErr result (λ fault. (image : Image) → found.now ≡ found_in image slot → HasKeys image slot (contains key_cmp seen.old) → IsVisitFault image geometry.places slot fault) }
{
    match found {
        SlotContent::Free => Ok(()),
        SlotContent::Live(key) => match seen.insert(*key) {
            Ok(true) => Ok(()),
            Ok(false) => Err(Fault::Damaged(geometry.places() + slot)),
            Err(_) => Err(Fault::OutOfMemory),
        },
        SlotContent::Bad => Err(Fault::Damaged(geometry.places() + slot)),
    }
}
