use crate::entry::{Entry, KeyedEntry};
use crate::hints::{blank_hints, hint_for, note, widen};
use crate::placed::PlacedKey;
use base::fault::Fault;
use base::key::Key;
use base::{SlotNo, Ts};
use std::alloc::{AllocError, Global};
use std::collections::BTreeMap;
use std::marker::Model;

/// The place of a key's entry, if it has one, and the slot that a new version of it links to.
#[derive(Clone, Copy, Debug)]
pub struct Known {
    pub place: Option<usize>,
    pub link: Option<SlotNo>,
}

/// Entries of keys, with hints of where each is, for an index that is made of them.
#[derive(Drop)]
pub struct HintedEntries {
    entries: Vec<KeyedEntry>,
    hints: Vec<u32>,
    // How many of the keys have a covered row.
    live: usize,
}

impl Model for HintedEntries {
    ghost use Rattle.std.specs.Prelude.{◌≡◌, List};
    ghost use Rattle.base.specs.declared.key.Key.{Key};
    ghost use Rattle.index.specs.declared.entry.Entry.{Entry};

    ghost Value = { List (Key × Entry) };

    ghost use Rattle.index.specs.Counting.{live_number};

    ghost view = { λ h. h.entries.items };

    ghost invariant = { λ h. h.live ≡ live_number h.entries.items };
}

impl HintedEntries {
    ghost use Rattle.std.specs.Prelude.{◌≡◌, IfOk};

    /// The same entries. There are hints enough for as many keys as are named, so that an index of them that has no more never
    /// takes time to renew them.
    pub fn of(
        alloc: Global,
        entries: Vec<KeyedEntry>,
        keys: usize,
    ) -> Result<HintedEntries, AllocError>
        ensures { IfOk result (λ listed. listed ≡ entries.items) }
    {
        let mut hints = blank_hints(alloc, keys)?;
        let mut live = 0;
        for place in 0..entries.len() {
            let found = &entries[place];
            note(hints.as_mut_slice(), found.key(), place);
            live += found.entry().live_number();
        }
        Ok(HintedEntries {
            entries,
            hints,
            live,
        })
    }
}

/// The entry of each key, which says where its versions are. A key that has no entry has a blank one.
#[derive(Drop)]
pub struct Index {
    // Each with its key. An entry stays at its place, except that the last one moves to that of an entry that is taken out.
    pub(crate) entries: Vec<KeyedEntry>,
    // The place of each key's entry.
    pub(crate) places: BTreeMap<PlacedKey, u32, Global>,
    // Places at which entries may be: tried first, with a search if the entry isn't there.
    hints: Vec<u32>,
    // How many of the keys have a covered row.
    pub(crate) live: usize,
}

impl Model for Index {
    ghost use Rattle.std.specs.Prelude.{◌≡◌, List};
    ghost use Rattle.base.specs.declared.key.Key.{Key};
    ghost use Rattle.index.specs.declared.entry.Entry.{Entry};

    ghost Value = { List (Key × Entry) };

    ghost use Rattle.index.specs.Entries.{ArePlaced};
    ghost use Rattle.index.specs.Counting.{live_number};

    ghost view = { λ i. i.entries.items };

    ghost invariant = { λ i. ArePlaced i.places.entries i.entries.items × (i.live ≡ live_number i.entries.items) };
}

impl Index {
    ghost use Rattle.std.specs.Prelude.{◌≡◌, ◌||◌, Bool, true, false, Some, None, IsTrue, IfSome, IfNone, IfErr, OnOk, OnErr, length, slice_get};
    ghost use Rattle.base.specs.Keys.{key_eq};
    ghost use Rattle.base.specs.declared.key.Key.{Key as KeyValue};
    ghost use Rattle.base.specs.declared.fault.Fault.TheVariants.{OutOfMemory};
    ghost use Rattle.index.specs.Entries.{blank, entry_at, has_room, IsAt, ArePlaced, live_of, head_of, Sets, KeepsRoom, GainsRoom, LosesRoom, covered, forgotten};
    ghost use Rattle.index.specs.Keyed.{is_kept, are_kept};

    /// An index without versions.
    pub fn new(alloc: Global) -> Index
        ensures { (key : KeyValue) → entry_at result key ≡ blank }
    {
        Index {
            entries: Vec::new(alloc),
            places: BTreeMap::new(alloc),
            hints: Vec::new(alloc),
            live: 0,
        }
    }

    /// An index with exactly these entries, at these places. It takes no memory.
    pub fn of(listed: HintedEntries, places: BTreeMap<PlacedKey, u32, Global>) -> Index
        requires { ArePlaced places.entries listed }
        ensures { result ≡ listed }
    {
        let HintedEntries {
            entries,
            hints,
            live,
        } = listed;
        Index {
            entries,
            places,
            hints,
            live,
        }
    }

    /// The place of the key's entry, where it stays. The calls that take a place try it first, and their clauses say the same
    /// whatever that place is.
    #[inline(always)]
    pub fn place(&self, key: Key) -> Option<usize>
        // None if the key has no room for an entry.
        ensures some { IfSome result (λ place. IsAt self.now place key) }
        ensures none { IfNone result (has_room self.now key ≡ false) }
    {
        self.seek(key, hint_for(self.hints.as_slice(), key))
    }

    // The same, by a descent of the map.
    #[cold]
    #[inline(never)]
    fn search(&self, key: Key) -> Option<usize>
        ensures some { IfSome result (λ place. IsAt self.now place key) }
        ensures none { IfNone result (has_room self.now key ≡ false) }
    {
        match self.places.get(&PlacedKey::of(key)) {
            Some(place) => Some(*place as usize),
            None => None,
        }
    }

    // The same, given a place at which it may be.
    #[inline(always)]
    fn seek(&self, key: Key, near: Option<usize>) -> Option<usize>
        ensures some { IfSome result (λ place. IsAt self.now place key) }
        ensures none { IfNone result (has_room self.now key ≡ false) }
    {
        if let Some(place) = near {
            if place < self.entries.len() && self.entries[place].key() == key {
                return near;
            }
        }
        self.search(key)
    }

    // The entry at the place of the key.
    #[inline(always)]
    fn entry_in(&self, place: usize, key: Key) -> Entry
        requires { IsAt self.now place key }
        ensures value { result ≡ entry_at self.now key }
        ensures kept { IsTrue (are_kept result) }
    {
        self.entries[place].entry()
    }

    /// What is known about the key's versions, if it has an entry.
    #[inline(always)]
    pub fn find(&self, key: Key, near: Option<usize>) -> Option<Entry>
        ensures some { IfSome result (λ entry. (entry ≡ entry_at self.now key) × (has_room self.now key ≡ true)) }
        ensures none { IfNone result (has_room self.now key ≡ false) }
    {
        match self.seek(key, near) {
            Some(place) => Some(self.entry_in(place, key)),
            None => None,
        }
    }

    /// What is known about the key's versions: the newest covered one with a row, whether a covered deletion ended it, the drawn
    /// one, and the last timestamp drawn.
    #[inline(always)]
    pub fn entry(&self, key: Key, near: Option<usize>) -> Entry
        ensures { result ≡ entry_at self.now key }
    {
        match self.seek(key, near) {
            Some(place) => self.entry_in(place, key),
            None => Entry::blank(),
        }
    }

    // The same, at the place where the hints say that it may be.
    #[inline(always)]
    pub(crate) fn hinted(&self, key: Key) -> Entry
        ensures { result ≡ entry_at self.now key }
    {
        self.entry(key, hint_for(self.hints.as_slice(), key))
    }

    /// The slot of the key's covered row.
    #[inline(always)]
    pub fn live(&self, key: Key, near: Option<usize>) -> Option<SlotNo>
        ensures { result ≡ live_of (entry_at self.now key) }
    {
        self.entry(key, near).live()
    }

    /// The slot that a new version of the key links to: the newest that has a row, drawn or covered, even one that a deletion
    /// ended.
    #[inline(always)]
    pub fn link(&self, key: Key, near: Option<usize>) -> Option<SlotNo>
        ensures { result ≡ head_of (entry_at self.now key) }
    {
        self.entry(key, near).head()
    }

    /// What a put needs to know about its key, found once.
    #[inline(always)]
    pub fn known(&self, key: Key) -> Known
        ensures { result.link ≡ head_of (entry_at self.now key) }
    {
        let place = self.place(key);
        let entry = match place {
            Some(at) => self.entry_in(at, key),
            None => Entry::blank(),
        };
        Known {
            place,
            link: entry.head(),
        }
    }

    // Sets the entry at the place of the key.
    #[inline(always)]
    fn set_in(&mut self, place: usize, key: Key, entry: Entry)
        requires place { IsAt self.old place key }
        requires kept { IsTrue (are_kept entry) }
        ensures sets { Sets self.old self.new key entry }
        ensures room { KeepsRoom self.old self.new }
        ensures place { IsAt self.new place key }
    {
        let before = self.entry_in(place, key).live_number();
        self.live = self.live - before + entry.live_number();
        self.entries[place] = KeyedEntry::new(key, entry);
    }

    // In the entry at the place of the key, the version that a drawn commit wrote, and its timestamp.
    #[inline(always)]
    fn draw_in(&mut self, place: usize, key: Key, slot: Option<SlotNo>, ts: Ts)
        requires place { IsAt self.old place key }
        requires kept { IsTrue (is_kept slot) }
        ensures sets { Sets self.old self.new key (record (entry_at self.old key) { drawn = slot; last = Some ts }) }
        ensures room { KeepsRoom self.old self.new }
    {
        self.entries[place].draw(slot, ts);
    }

    // Adds a blank entry for a key that has none.
    fn add(&mut self, key: Key) -> Result<(), Fault>
        requires { has_room self.old key ≡ false }
        ensures sets { OnOk result (Sets self.old self.new key blank) }
        ensures room { OnOk result (GainsRoom self.old self.new key) }
        ensures fault { IfErr result (λ fault. fault ≡ OutOfMemory) }
        ensures err { OnErr result (self.new ≡ self.old) }
    {
        if self.entries.reserve(1).is_err() {
            return Err(Fault::OutOfMemory);
        }
        let place = self.entries.len();
        let Ok(small) = u32::try_from(place) else {
            return Err(Fault::OutOfMemory);
        };
        if widen(&mut self.hints, self.entries.as_slice()).is_err() {
            return Err(Fault::OutOfMemory);
        }
        let Ok(_) = self.places.insert(PlacedKey::of(key), small) else {
            return Err(Fault::OutOfMemory);
        };
        self.entries
            .push_reserved(KeyedEntry::new(key, Entry::blank()));
        note(self.hints.as_mut_slice(), key, place);
        Ok(())
    }

    /// Makes room for an entry of the key.
    pub fn reserve(&mut self, key: Key, near: Option<usize>) -> Result<(), Fault>
        // Every entry is as it was.
        ensures entries { OnOk result ((k : KeyValue) → entry_at self.new k ≡ entry_at self.old k) }
        ensures room { OnOk result (GainsRoom self.old self.new key) }

        // It is refused only for lack of memory, and the index is as before.
        ensures fault { IfErr result (λ fault. fault ≡ OutOfMemory) }
        ensures err { OnErr result (self.new ≡ self.old) }
    {
        match self.seek(key, near) {
            Some(_) => match self.widen() {
                Ok(()) => Ok(()),
                Err(fault) => Err(fault),
            },
            None => self.add(key),
        }
    }

    /// Makes room for all hints of where entries are. All entries stay.
    #[inline(always)]
    pub fn widen(&mut self) -> Result<(), Fault>
        ensures entries { self.new ≡ self.old }
        ensures fault { IfErr result (λ fault. fault ≡ OutOfMemory) }
    {
        match widen(&mut self.hints, self.entries.as_slice()) {
            Ok(()) => Ok(()),
            Err(_) => Err(Fault::OutOfMemory),
        }
    }

    /// A commit that writes the key was drawn with this timestamp. Its version is in the slot; a deletion has none. Returns the slot of
    /// the key's covered row, which it ends.
    #[inline(always)]
    pub fn draw(
        &mut self,
        key: Key,
        near: Option<usize>,
        slot: Option<SlotNo>,
        ts: Ts,
    ) -> Option<SlotNo>
        requires room { IsTrue (has_room self.old key) }
        requires slot { IsTrue (is_kept slot) }
        ensures live { result ≡ live_of (entry_at self.old key) }

        // Every other entry is as it was. It takes no memory.
        ensures entries { Sets self.old self.new key (record (entry_at self.old key) { drawn = slot; last = Some ts }) }
        ensures room { KeepsRoom self.old self.new }
    {
        let Some(place) = self.seek(key, near) else {
            unreachable!()
        };
        note(self.hints.as_mut_slice(), key, place);
        let live = self.entry_in(place, key).live();
        self.draw_in(place, key, slot, ts);
        live
    }

    /// The commit that was drawn for the key is covered. Its version is in the slot; a deletion has none, and ends the newest.
    /// Returns the slot of the version that was the newest before.
    #[inline(always)]
    pub fn cover(&mut self, key: Key, near: Option<usize>, slot: Option<SlotNo>) -> Option<SlotNo>
        requires room { IsTrue (has_room self.old key) }
        requires slot { IsTrue (is_kept slot) }
        ensures newest { result ≡ (entry_at self.old key).newest }

        // Every other entry is as it was. It takes no memory.
        ensures entries { Sets self.old self.new key (covered slot (entry_at self.old key)) }
        ensures room { KeepsRoom self.old self.new }
    {
        let Some(place) = self.seek(key, near) else {
            unreachable!()
        };
        let entry = self.entry_in(place, key);
        let (newest, ended) = match slot {
            Some(_) => (slot, false),
            None => (entry.newest, true),
        };
        let covered = Entry {
            newest,
            ended,
            drawn: None,
            ..entry
        };
        self.set_in(place, key, covered);
        entry.newest
    }

    /// The key's version in the slot is freed. If it isn't the newest covered one, nothing changes.
    pub fn forget(&mut self, key: Key, slot: SlotNo) -> Option<usize>
        // Every other entry is as it was. It takes no memory.
        ensures entries { Sets self.old self.new key (forgotten slot (entry_at self.old key)) }
        ensures room { KeepsRoom self.old self.new }

        // The place of the entry that was changed. At None the index is as before.
        ensures place { IfSome result (λ place. IsAt self.new place key) }
        ensures same { IfNone result (self.new ≡ self.old) }
    {
        let Some(place) = self.place(key) else {
            return None;
        };
        let entry = self.entry_in(place, key);
        if entry.newest != Some(slot) {
            return None;
        }
        let forgotten = Entry {
            newest: None,
            ended: false,
            ..entry
        };
        self.set_in(place, key, forgotten);
        Some(place)
    }

    /// How many keys have an entry.
    #[inline(always)]
    pub fn len(&self) -> usize
        ensures { result ≡ length self.now }
    {
        self.entries.len()
    }

    /// The key whose entry is at the place, and the entry.
    #[inline(always)]
    pub fn get(&self, place: usize) -> Option<(Key, Entry)>
        // None exactly past the last.
        ensures at { IfSome result (λ found. IsAt self.now place found.0) }
        ensures entry { IfSome result (λ found. found.1 ≡ entry_at self.now found.0) }
        ensures none { IfNone result (slice_get self.now place ≡ None) }
    {
        if place < self.entries.len() {
            let found = &self.entries[place];
            Some((found.key(), found.entry()))
        } else {
            None
        }
    }

    /// Takes the key's entry out, which is then blank. It takes no memory, and the last entry moves to its place.
    pub fn remove(&mut self, key: Key, near: Option<usize>)
        // The key has no entry, which says as much as a blank one, and no room. Every other key is as it was.
        ensures entries { Sets self.old self.new key blank }
        ensures room { LosesRoom self.old self.new key }
    {
        match self.seek(key, near) {
            Some(place) => self.take_out(place, key),
            None => {}
        }
    }

    // Takes the entry at the place of the key out.
    #[inline(never)]
    fn take_out(&mut self, place: usize, key: Key)
        requires { IsAt self.old place key }
        ensures entries { Sets self.old self.new key blank }
        ensures room { LosesRoom self.old self.new key }
    {
        let last = self.entries.len() - 1;
        let moved = self.entries[last].key();
        give_place(&mut self.places, key, moved);
        let removed = self.entries.swap_remove(place);
        self.live -= removed.entry().live_number();
        note(self.hints.as_mut_slice(), moved, place);
    }
}

ghost use Rattle.std.specs.Prelude.{◌≡◌, IsSome, None, if◌then◌else◌};
ghost use Rattle.base.specs.Keys.{key_eq, lookup_key};
ghost use Rattle.base.specs.declared.key.Key.{Key as KeyValue};

// Takes a key out, and gives its place to the key that moves there. That one has a place, so this takes no memory.
fn give_place(places: &mut BTreeMap<PlacedKey, u32, Global>, key: Key, moved: Key)
    requires key { IsSome (lookup_key places.old.entries key) }
    requires moved { IsSome (lookup_key places.old.entries moved) }
    ensures { (k : KeyValue) → lookup_key places.new.entries k ≡ (if key_eq key k then None else (if key_eq moved k then lookup_key places.old.entries key else lookup_key places.old.entries k)) }
{
    let from = PlacedKey::of(key);
    let Some(place) = places.remove(&from) else {
        unreachable!()
    };
    if moved == key {
        return;
    }
    let to = PlacedKey::of(moved);
    let Ok(_) = places.insert(to, place) else {
        unreachable!()
    };
}
