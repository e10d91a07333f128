//! Opening takes all its memory before it changes the device, so that lack of memory leaves the image as it was: the index and the
//! slots are made from what was read, the table of lines from the device's length, and the record is written last.

ghost use Rattle.std.specs.Prelude.{◌≡◌, ℕ, List, map, IfOk, IfErr};
ghost use Rattle.base.specs.Commits.{Commit};
ghost use Rattle.base.specs.Images.{opening_fault};
ghost use Rattle.base.specs.Stands.{Stands};
ghost use Rattle.machine.specs.Openings.{StandsOpening};
ghost use Rattle.pmem.specs.Words.{LeavesOnly, IsAtRest, image_of};
ghost use Rattle.recovery.specs.Opened.{IsRefusal, IsUpdatedFirst, MakesOpening, Refuses};
ghost use Rattle.recovery.specs.Read.{ReportsLogFault};
ghost use Rattle.room.specs.Opening.{AreFew, HasBegun, HasLearnt, entry_of};

use crate::room::Room;
use crate::volatile::VolatileState;
use base::fault::Fault;
use collector::ReplacedSlots;
use dirty_table::DirtyTable;
use index::{HintedEntries, Index, KeyedEntry};
use pmem::Pmem;
use recovery::{Examined, Found, KeptSlot, examine};
use session_steps::Sessions;
use slot_alloc::SlotAlloc;
use std::alloc::{AllocError, Global};
use std::thread::Threads;

impl<D: Pmem + Drop + Send + Sync> Room<D> {
    ghost use Rattle.std.specs.Prelude.{◌+◌, ◌*◌, ◌<◌, ◌≤◌, true, false, None, slice_index, MatchResult};
    ghost use Rattle.base.specs.Images.{layout_of};
    ghost use Rattle.machine.specs.Machine.{State};
    ghost use Rattle.machine.specs.Openings.{OpensAs, opened_slots, updated};
    ghost use Rattle.pmem.specs.Words.{IsSettledAt, HasNoFailure};
    ghost use Rattle.room.specs.Room.{Shows, covered_by, device_of};

    /// Opens a device at rest, and returns it if opening is refused. More than eight gaps are swept first.
    pub fn open<R: Threads + Sync>(rt: &R, alloc: Global, device: D) -> Result<Room<D>, (Fault, D)>
        // The device is at rest, as a crash or a format leaves it.
        requires at_rest { IsAtRest (D.state device) }

        // Whatever history the image stands for, the room shows the state that it opens as.
        ensures ok { IfOk result (λ room. (history drawn : List Commit) (next : ℕ) (lost : List ℕ)
            → Stands (image_of (D.state device)) history drawn next
            → (q : State) × OpensAs (image_of (D.state device)) history lost q × Shows D.state room q) }

        // No batch waits to be handed out.
        ensures waits { IfOk result (λ room. covered_by room ≡ None) }

        // At Ok the image has none of the faults that opening reports, and no operation failed.
        ensures may_open { IfOk result (λ room. opening_fault (image_of (D.state device)) ≡ None) }
        ensures no_failure { IfOk result (λ room. HasNoFailure (D.state device) (device_of D.state room)) }

        // At Err it is the first of these faults, or OutOfMemory, and the device is as it was. Or it is Device: there is no such
        // fault, and the failure count rose.
        ensures fault { IfErr result (λ e. IsRefusal (opening_fault (image_of (D.state device))) (D.state device) (D.state e.1) e.0) }

        // A fault of the superblock, of a gate or of the ruling record is reported even if memory is lacking.
        ensures log { IfErr result (λ e. ReportsLogFault (image_of (D.state device)) e.0) }

        // The stores, flushes and fences of `opening_counts`. Without a sweep these are 32 stores, 5 flushes and 2 fences, and
        // one more of each if the image is of version 1. A sweep is made if there are more than eight gaps. With it there is one
        // more store for each begin or end that is in a gap, one more flush for each of their lines, and there are 3 fences.
        ensures made { IfOk result (λ room. MakesOpening (image_of (D.state device)) (D.state device) (device_of D.state room)) }

        // The words of the superblock are settled as they were, except the version, which is today's. So are the words of the
        // slots, except that a sweep leaves 0 in each begin and end that is in a gap.
        ensures superblock { IfOk result (λ room. (word : ℕ) → word < 8 → IsSettledAt (device_of D.state room) word (slice_index (updated (image_of (D.state device))) word)) }
        ensures slots { IfOk result (λ room. (word : ℕ) → 8 + 32 * (layout_of (image_of (D.state device))).places ≤ word → word < (D.state device).words
            → IsSettledAt (device_of D.state room) word (slice_index (opened_slots (image_of (D.state device))) word)) }

        // Each image that a crash may leave since then, at Err too, stands for the same history, under the old record or the
        // opened state's. What was drawn and not covered is left out.
        ensures images { (history drawn : List Commit) (next : ℕ)
            → Stands (image_of (D.state device)) history drawn next
            → MatchResult result
            (λ room. LeavesOnly (D.state device) (device_of D.state room) (StandsOpening (image_of (D.state device)) history next))
            (λ e. LeavesOnly (D.state device) (D.state e.1) (StandsOpening (image_of (D.state device)) history next)) }

        // If the version changes, it persists before anything else is stored. Each image that a crash may leave since then, at
        // Err too, has the new version, or is the old one as a whole.
        ensures version { MatchResult result
            (λ room. LeavesOnly (D.state device) (device_of D.state room) (IsUpdatedFirst (image_of (D.state device))))
            (λ e. LeavesOnly (D.state device) (D.state e.1) (IsUpdatedFirst (image_of (D.state device)))) }
    {
        let mut device = device;
        match begin(rt, alloc, &mut device) {
            Ok(volatile) => Ok(Room {
                alloc,
                device,
                volatile,
                failed: false,
            }),
            Err(fault) => Err((fault, device)),
        }
    }
}

// Opens the device where it is. All memory that this takes is taken before the device is changed.
fn begin<R: Threads + Sync, D: Pmem + Sync>(
    rt: &R,
    alloc: Global,
    device: &mut D,
) -> Result<VolatileState, Fault>
    requires at_rest { IsAtRest (D.state device.old) }
    ensures ok { IfOk result (HasBegun (D.state device.old) (D.state device.new)) }
    ensures fault { IfErr result (IsRefusal (opening_fault (image_of (D.state device.old))) (D.state device.old) (D.state device.new)) }
    ensures log { IfErr result (ReportsLogFault (image_of (D.state device.old))) }
    ensures images { (history drawn : List Commit) (next : ℕ) → Stands (image_of (D.state device.old)) history drawn next
        → LeavesOnly (D.state device.old) (D.state device.new) (StandsOpening (image_of (D.state device.old)) history next) }
    ensures version { LeavesOnly (D.state device.old) (D.state device.new) (IsUpdatedFirst (image_of (D.state device.old))) }
{
    let learnt = match learn(rt, alloc, device) {
        Ok(learnt) => learnt,
        Err(fault) => return Err(fault),
    };
    let Learnt { found, entries } = learnt;
    let slots = match SlotAlloc::new(alloc, found.free.as_slice()) {
        Ok(slots) => slots,
        Err(_) => return Err(Fault::OutOfMemory),
    };
    let dirty = match DirtyTable::new(alloc, device.words() / 8 + 1) {
        Ok(dirty) => dirty,
        Err(_) => return Err(Fault::OutOfMemory),
    };
    let replaced = match ReplacedSlots::none(alloc, found.free.len() as u64) {
        Ok(replaced) => replaced,
        Err(_) => return Err(Fault::OutOfMemory),
    };
    let life = match found.open(device) {
        Ok(life) => life,
        Err(fault) => return Err(fault),
    };
    let index = Index::of(entries, life.places);
    let sessions = Sessions::open(
        alloc,
        index,
        slots,
        replaced,
        dirty,
        life.geometry,
        life.ruling,
        life.next,
    );
    Ok(VolatileState::new(sessions))
}

// What is learnt about an image, and the entries of its index.
#[derive(Drop)]
struct Learnt {
    found: Examined,
    entries: HintedEntries,
}

// Tests all that opening needs of an image, and then makes the index's entries: what was read of the slots is freed by then.
fn learn<R: Threads + Sync, D: Pmem + Sync>(
    rt: &R,
    alloc: Global,
    device: &D,
) -> Result<Learnt, Fault>
    ensures ok { IfOk result (HasLearnt (image_of (D.state device.now))) }
    ensures fault { IfErr result (Refuses (image_of (D.state device.now))) }
    ensures log { IfErr result (ReportsLogFault (image_of (D.state device.now))) }
{
    let found = match examine(rt, alloc, device) {
        Ok(found) => found,
        Err(fault) => return Err(fault),
    };
    let Found { examined, live } = found;
    match hinted_entries(alloc, live, examined.free.len()) {
        Ok(entries) => Ok(Learnt {
            found: examined,
            entries,
        }),
        Err(_) => Err(Fault::OutOfMemory),
    }
}

// The entries of the keys whose versions are live, with room and hints for as many keys as there are slots: there are seldom more. The
// list of the live slots is freed before memory is taken for the hints.
fn hinted_entries(
    alloc: Global,
    live: Vec<KeptSlot>,
    slots: usize,
) -> Result<HintedEntries, AllocError>
    requires { AreFew live.items }
    ensures { IfOk result (λ entries. entries ≡ map entry_of live.items) }
{
    let entries = entries_of(alloc, live, slots)?;
    HintedEntries::of(alloc, entries, slots)
}

/// The entries of the keys whose versions are live, in the order of their slots: each with its key, and its slot as the key's
/// newest version. It reads no slot. There is room for as many entries as there are slots.
fn entries_of(
    alloc: Global,
    live: Vec<KeptSlot>,
    slots: usize,
) -> Result<Vec<KeyedEntry>, AllocError>
    requires { AreFew live.items }
    ensures { IfOk result (λ entries. entries.items ≡ map entry_of live.items) }
{
    let mut entries = Vec::with_capacity(alloc, slots)?;
    for kept in live.as_slice() {
        let found = kept.live();
        entries.push(KeyedEntry::live(found.key, found.slot))?;
    }
    Ok(entries)
}
