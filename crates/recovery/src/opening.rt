//! Opening writes a record before anything is drawn: what the life before may have drawn and not covered becomes a gap, so no
//! timestamp is drawn twice, and versions that have one of them don't count for any reader. All that takes memory comes before the first
//! operation, so if opening is refused, the image is as it was.

ghost use Rattle.std.specs.Prelude.{◌≡◌, ◌+◌, ◌-◌, ◌*◌, ◌^◌, ◌<◌, ◌≤◌, ℕ, List, [], IfOk, IfErr, OnOk, OnErr, MatchResult};
ghost use Rattle.base.specs.Commits.{Commit};
ghost use Rattle.base.specs.Records.{opened_gaps};
ghost use Rattle.base.specs.Images.{opening_fault, IsRuledBy};
ghost use Rattle.base.specs.Stands.{Stands};
ghost use Rattle.machine.specs.Openings.{StandsOpening, gaps_kept, opening_record};
ghost use Rattle.pmem.specs.Trace.{Runs, StopsWithin};
ghost use Rattle.pmem.specs.Words.{LeavesOnly, IsAtRest, image_of};
ghost use Rattle.recovery.specs.Gaps.{few_gaps};
ghost use Rattle.recovery.specs.Sweeping.{AreHits};
ghost use Rattle.recovery.specs.Opened.{Examined as IsExaminedAs, HasOpened, HasOpenedWith, IsCutShort, IsRefusal, IsUpdatedFirst, gap_operations, today_operations};
ghost use Rattle.recovery.specs.Read.{ReportsLogFault};
ghost use Rattle.recovery.specs.declared.rows.LiveSlot.{LiveSlot};

use crate::examining::{Examined, Found, examine};
use crate::rows::{OpenedSlot, with_begins};
use crate::sweeping::sweep;
use crate::updating::update;
use base::fault::Fault;
use base::gap::Gaps;
use base::geometry::Geometry;
use base::longs::Longs;
use index::PlacedKey;
use log_area::{Record, write_record};
use pmem::Pmem;
use std::alloc::Global;
use std::collections::BTreeMap;
use std::thread::Threads;

/// A device that was opened.
#[derive(Drop)]
pub struct Opened<D: Pmem> {
    pub device: D,
    pub geometry: Geometry,
    /// The record that rules now.
    pub ruling: Record,
    /// The next timestamp to be drawn.
    pub next: u64,
    /// Whether each slot is free.
    pub free: Vec<bool>,
    /// The slots that aren't free, in their order.
    pub live: Vec<OpenedSlot>,
}

/// Opens a device at rest, and returns it if opening is refused. More than eight gaps are swept before the record is
/// written.
pub fn open<R: Threads + Sync, D: Pmem + Drop + Send + Sync>(
    rt: &R,
    alloc: Global,
    device: D,
) -> Result<Opened<D>, (Fault, D)>
    requires at_rest { IsAtRest (D.state device) }

    // The image has no fault that opening reports. The record is the next one: persisted is one below the old dirty timestamp,
    // dirty a window above the old dirty timestamp. It has the joined gaps, or none if there are more than eight. The next
    // timestamp is the old dirty one. The slots that aren't live are free, and of each live one its key and its begin are
    // returned. That record alone rules. The superblock is settled as it was, and so is each slot, except that if gaps are swept,
    // each begin and end that is in a gap is settled at 0. As many stores, flushes and fences were made as `opening_counts` says.
    // Without a sweep these are 32, 5 and 2. With one there are as many more stores and flushes as words and lines are swept, and
    // 3 fences. No other word outside the record's place is stored.
    ensures ok { IfOk result (λ opened. HasOpenedWith (D.state device) (D.state opened.device) opened.geometry opened.ruling opened.next opened.free.items opened.live.items) }

    // At Err it is the first fault in the stated order, or OutOfMemory, and the device is as it was. Or it is Device: there is no
    // such fault, the failure count rose, and fewer operations were made than opening makes.
    ensures fault { IfErr result (λ e. IsRefusal (opening_fault (image_of (D.state device))) (D.state device) (D.state e.1) e.0) }

    // A fault of the superblock, of a gate or of the ruling record is the one that is returned, even if memory is lacking.
    ensures log { IfErr result (λ e. ReportsLogFault (image_of (D.state device)) e.0) }

    // Whatever history the image stands for, each image that a crash may leave since then, at Err too, stands for it. It does so
    // under the old record or the new one. What was drawn and not covered is left out.
    ensures images { (history drawn : List Commit) (next : ℕ) → Stands (image_of (D.state device)) history drawn next
        → MatchResult result
        (λ opened. LeavesOnly (D.state device) (D.state opened.device) (StandsOpening (image_of (D.state device)) history next))
        (λ e. LeavesOnly (D.state device) (D.state e.1) (StandsOpening (image_of (D.state device)) history next)) }

    // If the version changes, it persists before anything else is stored. Each image that a crash may leave since then, at Err
    // too, has the new version, or is the old one as a whole.
    ensures version { MatchResult result
        (λ opened. LeavesOnly (D.state device) (D.state opened.device) (IsUpdatedFirst (image_of (D.state device))))
        (λ e. LeavesOnly (D.state device) (D.state e.1) (IsUpdatedFirst (image_of (D.state device)))) }
{
    let mut device = device;
    match open_device(rt, alloc, &mut device) {
        Ok(opened) => {
            let (life, live) = opened;
            let OpenedImage {
                geometry,
                ruling,
                next,
                free,
                places: _,
            } = life;
            Ok(Opened {
                device,
                geometry,
                ruling,
                next,
                free,
                live,
            })
        }
        Err(fault) => Err((fault, device)),
    }
}

/// What opening gives besides the device.
#[derive(Drop)]
pub struct OpenedImage {
    pub geometry: Geometry,
    pub ruling: Record,
    pub next: u64,
    pub free: Vec<bool>,
    /// For each key, the place of its slot among those that aren't free.
    pub places: BTreeMap<PlacedKey, u32, Global>,
}

// The same, for a device that stays where it is. All memory is taken before the device is changed.
fn open_device<R: Threads + Sync, D: Pmem + Sync>(
    rt: &R,
    alloc: Global,
    device: &mut D,
) -> Result<(OpenedImage, Vec<OpenedSlot>), Fault>
    requires { IsAtRest (D.state device.old) }
    ensures ok { IfOk result (λ opened. HasOpenedWith (D.state device.old) (D.state device.new) opened.0.geometry opened.0.ruling opened.0.next opened.0.free.items opened.1.items) }
    ensures fault { IfErr result (IsRefusal (opening_fault (image_of (D.state device.old))) (D.state device.old) (D.state device.new)) }
    ensures log { IfErr result (ReportsLogFault (image_of (D.state device.old))) }
    ensures images { (history drawn : List Commit) (next : ℕ) → Stands (image_of (D.state device.old)) history drawn next
        → LeavesOnly (D.state device.old) (D.state device.new) (StandsOpening (image_of (D.state device.old)) history next) }
    ensures version { LeavesOnly (D.state device.old) (D.state device.new) (IsUpdatedFirst (image_of (D.state device.old))) }
{
    let found = match examine(rt, alloc, device) {
        Ok(found) => found,
        Err(fault) => return Err(fault),
    };
    let Found { examined, live } = found;
    let Ok(live) = with_begins(alloc, device, examined.geometry, live.as_slice()) else {
        return Err(Fault::OutOfMemory);
    };
    match examined.open(device) {
        Ok(life) => Ok((life, live)),
        Err(fault) => Err(fault),
    }
}

impl Examined {
    /// Opens the device that was examined. It takes no memory: it fails if an operation fails, and only then.
    pub fn open<D: Pmem>(self, device: &mut D) -> Result<OpenedImage, Fault>
        requires at_rest { IsAtRest (D.state device.old) }
        requires examined { (live : List LiveSlot) × IsExaminedAs (image_of (D.state device.old)) self.geometry self.ruling self.gaps self.free.items live }
        requires hits { AreHits (image_of (D.state device.old)) self.geometry self.gaps self.hits.items }

        // As for `open`, with the live slots that were found.
        ensures ok { IfOk result (λ life. (live : List LiveSlot) → IsExaminedAs (image_of (D.state device.old)) self.geometry self.ruling self.gaps self.free.items live
            → HasOpened (D.state device.old) (D.state device.new) life.geometry life.ruling life.next life.free.items live) }

        // Each key of a live slot has this place.
        ensures places { IfOk result (λ life. life.places ≡ self.places) }

        // At Err an operation failed, and fewer were made than opening makes.
        ensures fault { IfErr result (λ fault. fault ≡ Fault.Device) }
        ensures failed { OnErr result (IsCutShort (D.state device.old) (D.state device.new)) }

        // A crash meanwhile leaves what a crash within `open` leaves.
        ensures images { (history drawn : List Commit) (next : ℕ) → Stands (image_of (D.state device.old)) history drawn next
            → LeavesOnly (D.state device.old) (D.state device.new) (StandsOpening (image_of (D.state device.old)) history next) }
        ensures version { LeavesOnly (D.state device.old) (D.state device.new) (IsUpdatedFirst (image_of (D.state device.old))) }
    {
        let geometry = match update(device, self.geometry) {
            Ok(geometry) => geometry,
            Err(fault) => return Err(fault),
        };
        let mut found = self;
        found.geometry = geometry;
        found.open_today(device)
    }

    // The same, for an image of the current version.
    fn open_today<D: Pmem>(self, device: &mut D) -> Result<OpenedImage, Fault>
        requires examined { (live : List LiveSlot) × IsExaminedAs (image_of (D.state device.old)) self.geometry self.ruling self.gaps self.free.items live }
        requires hits { AreHits (image_of (D.state device.old)) self.geometry self.gaps self.hits.items }
        ensures ok { IfOk result (λ life. life ≡ record {
          geometry = self.geometry;
          ruling = opening_record self.geometry self.ruling (gaps_kept (opened_gaps self.ruling));
          next = self.ruling.dirty;
          free = self.free;
          places = self.places;
        }) }
        ensures places { IfOk result (λ life. life.places ≡ self.places) }
        ensures run { OnOk result (Runs (today_operations self.geometry self.ruling (D.state device.old)) (D.state device.old) (D.state device.new)) }
        ensures stopped { OnErr result (StopsWithin (today_operations self.geometry self.ruling (D.state device.old)) (D.state device.old) (D.state device.new)) }
        ensures fault { IfErr result (λ fault. fault ≡ Fault.Device) }
    {
        let hits = self.hits.as_slice();
        let gaps = match keep_gaps(device, self.geometry, self.ruling, self.gaps, hits) {
            Ok(gaps) => gaps,
            Err(fault) => return Err(fault),
        };
        let target = next_record(self.geometry, self.ruling, gaps);
        match write_record(device, self.geometry, target) {
            Ok(()) => Ok(begun(self, target)),
            Err(fault) => Err(fault),
        }
    }
}

// The gaps to go on with. If a record can't hold them, they are swept, and none is left.
fn keep_gaps<D: Pmem>(
    device: &mut D,
    geometry: Geometry,
    ruling: Record,
    gaps: Option<Gaps>,
    hits: &[bool],
) -> Result<Gaps, Fault>
    requires rules { IsRuledBy geometry ruling (image_of (D.state device.old)) }
    requires gaps { gaps ≡ few_gaps ruling }
    requires hits { AreHits (image_of (D.state device.old)) geometry gaps hits.now }
    ensures ok { IfOk result (λ left. left ≡ gaps_kept (opened_gaps ruling)) }
    ensures run { OnOk result (Runs (gap_operations geometry ruling (D.state device.old)) (D.state device.old) (D.state device.new)) }
    ensures stopped { OnErr result (StopsWithin (gap_operations geometry ruling (D.state device.old)) (D.state device.old) (D.state device.new)) }
    ensures fault { IfErr result (λ fault. fault ≡ Fault.Device) }
{
    match gaps {
        Some(few) => Ok(few),
        None => match sweep(device, geometry, ruling, hits) {
            Ok(()) => Ok(Gaps::none()),
            Err(fault) => Err(fault),
        },
    }
}

fn begun(found: Examined, target: Record) -> OpenedImage
    ensures { result ≡ record { geometry = found.geometry; ruling = target; next = found.ruling.dirty; free = found.free; places = found.places } }
{
    let next = found.ruling.dirty();
    let Examined {
        geometry,
        ruling: _,
        gaps: _,
        free,
        places,
        hits: _,
    } = found;
    OpenedImage {
        geometry,
        ruling: target,
        next,
        free,
        places,
    }
}

// The record with which a life begins.
fn next_record(geometry: Geometry, ruling: Record, gaps: Gaps) -> Record
    requires dirty { 1 ≤ ruling.dirty }
    requires limit { ruling.dirty + 2 * geometry.window < 2 ^ 62 }
    requires gate { ruling.gate + 1 < 2 ^ 62 }
    ensures { result ≡ record { gate = ruling.gate + 1; persisted = ruling.dirty - 1; dirty = ruling.dirty + geometry.window; gaps = gaps; longs = [] } }
{
    Record::new(
        ruling.gate() + 1,
        ruling.dirty() - 1,
        ruling.dirty() + geometry.window(),
        gaps,
        Longs::none(),
    )
}
