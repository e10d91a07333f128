//! A link stays when the version that it names is collected, so it may lead to a slot that holds something else by now. So a walk
//! goes by what it finds: another key, or a version that began no earlier than the one that links to it, ends it.

ghost use Rattle.std.specs.Prelude.{◌≡◌, ◌<◌, ℕ, Bool, List, IfSome, IfNone, Option};
ghost use Rattle.std.specs.Option.{option_map};
ghost use Rattle.base.specs.Commits.{Tables};
ghost use Rattle.base.specs.Images.{layout_of};
ghost use Rattle.base.specs.Layout.{total_words};
ghost use Rattle.pmem.specs.Words.{image_of};
ghost use Rattle.index.specs.Reading.{CountsAs, HasSeen, ShowsTables};
ghost use Rattle.snapshot.specs.Walks.{IsLinked};
ghost use Rattle.index.specs.Walking.{Looks, next_at};
ghost use Rattle.index.specs.declared.walking.Next.TheVariants.{Earlier};

use crate::map::Index;
use base::geometry::Geometry;
use base::key::Key;
use base::row::Row;
use base::{SlotNo, Ts};
use pmem::Pmem;
use snapshot::Snapshot;
use version_slot::{Slot, read_into};

/// A version that a snapshot sees: its slot, and its row.
#[derive(Clone, Copy, Debug, PartialEq, Eq)]
pub struct Found {
    pub slot: SlotNo,
    pub row: Row,
}

impl Index {
    ghost use Rattle.index.specs.Entries.{entry_at};

    /// The version of the key that the snapshot sees. Links are followed from the newest covered one on, each to an earlier
    /// version of the key, as long as what the walk is at began after the snapshot.
    #[inline(always)]
    pub fn walk<D: Pmem>(
        &self,
        device: &D,
        geometry: Geometry,
        key: Key,
        snapshot: &Snapshot,
    ) -> Option<Found>
        requires device { (D.state device.now).words ≡ total_words geometry }

        // Exactly the row of the key in the slots that a snapshot sees, and its slot, if links lead there (`IsLinked`). What it
        // finds is seen whatever links say.
        ensures slot { IfSome result (λ found. found.slot < geometry.slots) }
        ensures some { IfSome result (λ found. (counts : ℕ → Bool) → CountsAs counts snapshot.now geometry (image_of (D.state device.now)) → HasSeen counts (image_of (D.state device.now)) found.slot key found.row) }
        ensures none { IfNone result ((counts : ℕ → Bool) → CountsAs counts snapshot.now geometry (image_of (D.state device.now)) → IsLinked snapshot.now (image_of (D.state device.now)) key (entry_at self.now key).newest → (slot : ℕ) (row : List ℕ) → ¬ HasSeen counts (image_of (D.state device.now)) slot key row) }
        ensures tables { (counts : ℕ → Bool) (tables : Tables) → CountsAs counts snapshot.now geometry (image_of (D.state device.now)) → IsLinked snapshot.now (image_of (D.state device.now)) key (entry_at self.now key).newest
            → ShowsTables counts geometry (image_of (D.state device.now)) tables → option_map (λ found. found.row) result ≡ tables key }
    {
        follow(device, geometry, snapshot, self.hinted(key).newest, key)
    }

    /// The slot of the version that `walk` finds. What the slot holds goes into the place for it, since a row is large to pass on.
    #[inline(always)]
    pub fn walk_into<D: Pmem>(
        &self,
        device: &D,
        geometry: Geometry,
        key: Key,
        snapshot: &Snapshot,
        held: &mut Slot,
    ) -> Option<SlotNo>
        requires device { (D.state device.now).words ≡ total_words geometry }

        // The same row, in the place that the caller has for it, and its slot.
        ensures slot { IfSome result (λ slot. slot < geometry.slots) }
        ensures some { IfSome result (λ slot. (counts : ℕ → Bool) → CountsAs counts snapshot.now geometry (image_of (D.state device.now)) → HasSeen counts (image_of (D.state device.now)) slot key held.new.version.row) }
        ensures none { IfNone result ((counts : ℕ → Bool) → CountsAs counts snapshot.now geometry (image_of (D.state device.now)) → IsLinked snapshot.now (image_of (D.state device.now)) key (entry_at self.now key).newest → (slot : ℕ) (row : List ℕ) → ¬ HasSeen counts (image_of (D.state device.now)) slot key row) }
        ensures tables { (counts : ℕ → Bool) (tables : Tables) → CountsAs counts snapshot.now geometry (image_of (D.state device.now)) → IsLinked snapshot.now (image_of (D.state device.now)) key (entry_at self.now key).newest
            → ShowsTables counts geometry (image_of (D.state device.now)) tables → option_map (λ slot. held.new.version.row) result ≡ tables key }
    {
        reach(
            device,
            geometry,
            snapshot,
            self.hinted(key).newest,
            key,
            held,
        )
    }
}

// What a walk finds in a slot that it reaches.
#[derive(Clone, Copy, Debug)]
pub(crate) enum Next {
    // The version that the snapshot sees.
    Seen,
    // The version began after the snapshot, and links to that slot.
    Earlier { begin: Ts, previous: Option<SlotNo> },
    // Nothing that leads on.
    Over,
}

// What a slot's words say to a walk that comes from a version that began later than the bound.
#[inline(always)]
fn next_at(held: &Slot, snapshot: &Snapshot, key: Key, bound: Ts) -> Next
    ensures { result ≡ next_at snapshot.now key bound held.now }
{
    if held.version.key == key && held.begin < bound {
        if snapshot.covers(held.begin) {
            if snapshot.covers(held.end) {
                Next::Over
            } else {
                Next::Seen
            }
        } else if 0 < held.begin && !snapshot.gaps().holds(held.begin) {
            Next::Earlier {
                begin: held.begin,
                previous: held.version.previous,
            }
        } else {
            Next::Over
        }
    } else {
        Next::Over
    }
}

// The same, of a slot of the device. What its words hold goes into the place for it.
#[inline(always)]
fn look<D: Pmem>(
    device: &D,
    geometry: Geometry,
    snapshot: &Snapshot,
    key: Key,
    slot: SlotNo,
    bound: Ts,
    held: &mut Slot,
) -> Next
    requires device { (D.state device.now).words ≡ total_words geometry }
    ensures within { result ≡ Next.Seen → slot < geometry.slots }
    ensures falls { (begin : ℕ) (previous : Option ℕ) → result ≡ Earlier begin previous → begin < bound }
    ensures looks { layout_of (image_of (D.state device.now)) ≡ geometry → Looks snapshot.now (image_of (D.state device.now)) key bound slot held.new.version.row result }
{
    if slot >= geometry.slots() {
        return Next::Over;
    }
    if !read_into(device, geometry, slot, held) {
        return Next::Over;
    }
    next_at(held, snapshot, key, bound)
}

// The version of the key that the snapshot sees, by links from this slot on.
#[inline(always)]
pub(crate) fn follow<D: Pmem>(
    device: &D,
    geometry: Geometry,
    snapshot: &Snapshot,
    newest: Option<SlotNo>,
    key: Key,
) -> Option<Found>
    requires device { (D.state device.now).words ≡ total_words geometry }
    ensures slot { IfSome result (λ found. found.slot < geometry.slots) }
    ensures some { IfSome result (λ found. (counts : ℕ → Bool) → CountsAs counts snapshot.now geometry (image_of (D.state device.now)) → HasSeen counts (image_of (D.state device.now)) found.slot key found.row) }
    ensures none { IfNone result ((counts : ℕ → Bool) → CountsAs counts snapshot.now geometry (image_of (D.state device.now)) → IsLinked snapshot.now (image_of (D.state device.now)) key newest → (slot : ℕ) (row : List ℕ) → ¬ HasSeen counts (image_of (D.state device.now)) slot key row) }
    ensures tables { (counts : ℕ → Bool) (tables : Tables) → CountsAs counts snapshot.now geometry (image_of (D.state device.now)) → IsLinked snapshot.now (image_of (D.state device.now)) key newest
        → ShowsTables counts geometry (image_of (D.state device.now)) tables → option_map (λ found. found.row) result ≡ tables key }
{
    let mut held = Slot::empty();
    match reach(device, geometry, snapshot, newest, key, &mut held) {
        Some(slot) => Some(Found {
            slot,
            row: held.version.row,
        }),
        None => None,
    }
}

// The slot of the version that `follow` finds. What it holds goes into the place for it.
#[inline(always)]
fn reach<D: Pmem>(
    device: &D,
    geometry: Geometry,
    snapshot: &Snapshot,
    newest: Option<SlotNo>,
    key: Key,
    held: &mut Slot,
) -> Option<SlotNo>
    requires device { (D.state device.now).words ≡ total_words geometry }
    ensures slot { IfSome result (λ slot. slot < geometry.slots) }
    ensures some { IfSome result (λ slot. (counts : ℕ → Bool) → CountsAs counts snapshot.now geometry (image_of (D.state device.now)) → HasSeen counts (image_of (D.state device.now)) slot key held.new.version.row) }
    ensures none { IfNone result ((counts : ℕ → Bool) → CountsAs counts snapshot.now geometry (image_of (D.state device.now)) → IsLinked snapshot.now (image_of (D.state device.now)) key newest → (slot : ℕ) (row : List ℕ) → ¬ HasSeen counts (image_of (D.state device.now)) slot key row) }
    ensures tables { (counts : ℕ → Bool) (tables : Tables) → CountsAs counts snapshot.now geometry (image_of (D.state device.now)) → IsLinked snapshot.now (image_of (D.state device.now)) key newest
        → ShowsTables counts geometry (image_of (D.state device.now)) tables → option_map (λ slot. held.new.version.row) result ≡ tables key }
{
    let mut at = newest;
    let mut bound = u64::MAX;
    while let Some(slot) = at {
        match look(device, geometry, snapshot, key, slot, bound, held) {
            Next::Seen => return Some(slot),
            Next::Over => return None,
            Next::Earlier { begin, previous } => {
                bound = begin;
                at = previous;
            }
        }
    }
    None
}
