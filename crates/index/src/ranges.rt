ghost use Rattle.std.specs.Prelude.{◌≡◌, ℕ, Bool, false, IsTrue, IfOk, IfErr, length};
ghost use Rattle.base.specs.Commits.{Lists, Tables};
ghost use Rattle.base.specs.Layout.{total_words};
ghost use Rattle.base.specs.declared.fault.Fault.TheVariants.{OutOfMemory};
ghost use Rattle.pmem.specs.Words.{image_of};
ghost use Rattle.base.specs.declared.key.Key.{Key as KeyValue};
ghost use Rattle.index.specs.Reading.{CountsAs, ShowsTables, HasRows, contains, ranged, bounds_of, IsForward};

use crate::map::Index;
use crate::placed::PlacedKey;
use crate::walking::follow;
use base::fault::Fault;
use base::geometry::Geometry;
use base::key::Key;
use base::row::Row;
use pmem::Pmem;
use snapshot::Snapshot;
use std::alloc::{AllocError, Global};
use std::collections::BTreeMap;
use std::ops::Bound;

/// The keys whose rows are requested.
#[derive(Clone, Copy, Debug, PartialEq, Eq)]
pub enum KeyRange {
    All,
    /// Those of a table from `lo` to `hi`, both included.
    Within { table: u16, lo: u64, hi: u64 },
    /// Those of any table from `first` to `last`, both included.
    Between { first: Key, last: Key },
}

impl KeyRange {
    /// Whether the key is one of them.
    pub fn contains(self, key: Key) -> bool
        ensures { result ≡ contains self key }
    {
        match self {
            KeyRange::All => true,
            KeyRange::Within { table, lo, hi } => {
                key.table == table && lo <= key.key && key.key <= hi
            }
            KeyRange::Between { first, last } => !key.is_below(&first) && !last.is_below(&key),
        }
    }

    // Whether no key is one of them, since the last is before the first.
    pub(crate) fn is_empty(self) -> bool
        ensures empty { IsTrue result → (key : KeyValue) → contains self key ≡ false }
        ensures forward { result ≡ false → IsForward self }
    {
        match self {
            KeyRange::All => false,
            KeyRange::Within { table: _, lo, hi } => hi < lo,
            KeyRange::Between { first, last } => last.is_below(&first),
        }
    }

    // The bounds of its keys.
    pub(crate) fn bounds(self) -> (Bound<PlacedKey>, Bound<PlacedKey>)
        ensures { result ≡ bounds_of self }
    {
        match self {
            KeyRange::All => (Bound::Unbounded, Bound::Unbounded),
            KeyRange::Within { table, lo, hi } => (
                Bound::Included(PlacedKey::of(Key { table, key: lo })),
                Bound::Included(PlacedKey::of(Key { table, key: hi })),
            ),
            KeyRange::Between { first, last } => (
                Bound::Included(PlacedKey::of(first)),
                Bound::Included(PlacedKey::of(last)),
            ),
        }
    }
}

impl Index {
    ghost use Rattle.index.specs.Walking.{AreLinked};

    /// The rows that the snapshot sees at the keys of the range: of all tables, or of one table between two keys, both included.
    pub fn rows<D: Pmem>(
        &self,
        alloc: Global,
        device: &D,
        geometry: Geometry,
        snapshot: &Snapshot,
        range: KeyRange,
    ) -> Result<Vec<(Key, Row)>, Fault>
        requires device { (D.state device.now).words ≡ total_words geometry }

        // If links lead to what is seen, exactly these rows, by rising key. It is refused only for lack of memory.
        ensures ok { IfOk result (λ rows. (counts : ℕ → Bool) (tables : Tables) → CountsAs counts snapshot.now geometry (image_of (D.state device.now)) → AreLinked snapshot.now (image_of (D.state device.now)) self.now → ShowsTables counts geometry (image_of (D.state device.now)) tables → Lists rows.items (ranged range tables)) }
        ensures fault { IfErr result (λ fault. fault ≡ OutOfMemory) }
    {
        let Ok(seen) = self.rows_by_key(alloc, device, geometry, snapshot, range) else {
            return Err(Fault::OutOfMemory);
        };
        let Ok(rows) = listed(alloc, seen) else {
            return Err(Fault::OutOfMemory);
        };
        Ok(rows)
    }

    /// The same rows, as a map.
    pub fn rows_by_key<D: Pmem>(
        &self,
        alloc: Global,
        device: &D,
        geometry: Geometry,
        snapshot: &Snapshot,
        range: KeyRange,
    ) -> Result<BTreeMap<Key, Row>, AllocError>
        requires device { (D.state device.now).words ≡ total_words geometry }
        ensures { IfOk result (λ seen. (counts : ℕ → Bool) (tables : Tables) → CountsAs counts snapshot.now geometry (image_of (D.state device.now)) → AreLinked snapshot.now (image_of (D.state device.now)) self.now → ShowsTables counts geometry (image_of (D.state device.now)) tables → HasRows seen (ranged range tables)) }
    {
        let mut seen = BTreeMap::new(alloc);
        if range.is_empty() {
            return Ok(seen);
        }
        for (key, place) in self.places.range(range.bounds()) {
            let key = key.key();
            let newest = self.entry(key, Some(*place as usize)).newest;
            if let Some(found) = follow(device, geometry, snapshot, newest, key) {
                let Ok(_) = seen.insert(key, found.row) else {
                    return Err(AllocError);
                };
            }
        }
        Ok(seen)
    }
}

/// The rows of the map, each once, by rising key.
pub fn listed(alloc: Global, rows: BTreeMap<Key, Row>) -> Result<Vec<(Key, Row)>, AllocError>
    ensures rows { IfOk result (λ list. (tables : Tables) → HasRows rows tables → Lists list.items tables) }

    // They are as many as the map has.
    ensures count { IfOk result (λ list. length list.items ≡ length rows.entries) }
{
    match collected(alloc, rows) {
        Ok(list) => Ok(list),
        Err(fault) => Err(fault),
    }
}

ghost use Rattle.std.specs.BTreeMap.{IsOrdered};
ghost use Rattle.index.specs.Entries.{key_cmp};

// Its entries as they are, in order.
fn collected(alloc: Global, rows: BTreeMap<Key, Row>) -> Result<Vec<(Key, Row)>, AllocError>
    ensures same { IfOk result (λ list. list.items ≡ rows.entries) }
    ensures ordered { IfOk result (λ list. IsOrdered key_cmp rows) }
{
    rows.into_iter().collect(alloc)
}
