//! The record of the greatest gate rules. A gate is stored once its record's body has persisted, so of all other places only
//! the gate is read: a half-written body belongs to a gate that isn't there yet.

ghost use Rattle.std.specs.Prelude.{◌≡◌, ◌*◌, ◌%◌, ◌^◌, ◌+◌, ◌<◌, ◌≤◌, ◌&&◌, ◌||◌, not, max, nat_eq, nat_le, IfOk, IfErr, IfSome, IfNone, Some};
ghost use Rattle.base.specs.Records.{IsRecord};
ghost use Rattle.base.specs.Search.{first_below};
ghost use Rattle.base.specs.Images.{gate_at, greatest_gate, is_wrong_gate, place_words, IsRuledBy, log_damage};
ghost use Rattle.pmem.specs.Words.{image_of};
ghost use Rattle.log_area.specs.Codec.{NoneFits};
ghost use Rattle.log_area.specs.Rulings.{IsLaidOut};

use crate::superblock::{load_words, read_geometry};
use crate::{Record, Ruling};
use base::NUMBER_LIMIT;
use base::fault::Fault;
use base::geometry::Geometry;
use pmem::Pmem;

/// The record that rules a device's image. Only the body of the ruling record is read.
pub fn latest<D: Pmem>(device: &D) -> Result<Ruling, Fault>
    // The record that rules the image, with the layout.
    ensures ok { IfOk result (λ ruling. IsRuledBy ruling.geometry ruling.record (image_of (D.state device.now))) }

    // At Err it is the first fault of the superblock, the gates and the ruling record.
    ensures fault { IfErr result (λ fault. log_damage (image_of (D.state device.now)) ≡ Some fault) }
{
    let geometry = match read_geometry(device) {
        Ok(geometry) => geometry,
        Err(fault) => return Err(fault),
    };
    if let Some(place) = first_wrong_gate(device, geometry) {
        return Err(Fault::Damaged(place));
    }
    let gate = greatest_gate(device, geometry);
    if gate == 0 {
        return Err(Fault::Damaged(1));
    }
    let place = gate % geometry.places();
    match read_record(device, geometry, place) {
        Some(record) => Ok(Ruling { geometry, record }),
        None => Err(Fault::Damaged(place)),
    }
}

fn first_wrong_gate<D: Pmem>(device: &D, geometry: Geometry) -> Option<u64>
    requires { IsLaidOut geometry (image_of (D.state device.now)) }
    ensures { result ≡ first_below geometry.places (is_wrong_gate (image_of (D.state device.now))) }
{
    for place in 0..geometry.places() {
        if has_wrong_gate(device, geometry, place) {
            return Some(place);
        }
    }
    None
}

fn has_wrong_gate<D: Pmem>(device: &D, geometry: Geometry, place: u64) -> bool
    requires laid_out { IsLaidOut geometry (image_of (D.state device.now)) }
    requires place { place < geometry.places }
    ensures { result ≡ is_wrong_gate (image_of (D.state device.now)) place }
{
    is_misplaced(gate(device, geometry, place), place, geometry.places())
}

fn is_misplaced(gate: u64, place: u64, places: u64) -> bool
    requires { 0 < places }
    ensures { result ≡ (not (nat_eq gate 0) && (nat_le (2 ^ 62) gate || not (nat_eq (gate % places) place))) }
{
    gate != 0 && (gate >= NUMBER_LIMIT || gate % places != place)
}

// The gate of a place.
fn gate<D: Pmem>(device: &D, geometry: Geometry, place: u64) -> u64
    requires laid_out { IsLaidOut geometry (image_of (D.state device.now)) }
    requires place { place < geometry.places }
    ensures { result ≡ gate_at (image_of (D.state device.now)) place }
{
    let start = geometry.place_start(place);
    device.load(start)
}

fn greatest_gate<D: Pmem>(device: &D, geometry: Geometry) -> u64
    requires { IsLaidOut geometry (image_of (D.state device.now)) }
    ensures { result ≡ greatest_gate (image_of (D.state device.now)) }
{
    let mut greatest = 0;
    for place in 0..geometry.places() {
        greatest = greater(greatest, gate(device, geometry, place));
    }
    greatest
}

fn greater(a: u64, b: u64) -> u64
    ensures { result ≡ max a b }
{
    if a < b { b } else { a }
}

// The record in a place, if there is one.
fn read_record<D: Pmem>(device: &D, geometry: Geometry, place: u64) -> Option<Record>
    requires laid_out { IsLaidOut geometry (image_of (D.state device.now)) }
    requires place { place < geometry.places }
    ensures read { IfSome result (IsRecord geometry.version (place_words (image_of (D.state device.now)) place)) }
    ensures refused { IfNone result (NoneFits geometry.version (place_words (image_of (D.state device.now)) place)) }
{
    let start = geometry.place_start(place);
    let mut words = [0; 32];
    load_words(device, start, &mut words);
    Record::from_words(&words, geometry.version())
}
