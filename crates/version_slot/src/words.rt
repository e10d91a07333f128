ghost use Rattle.std.specs.Prelude.{◌≡◌, ◌↔◌, ◌≤◌, length, slice_index, IfSome, IfNone, IsTrue};
ghost use Rattle.base.specs.Layout.{slot_words};
ghost use Rattle.version_slot.specs.Words.{IsVersion, IsWellFormed};
ghost use Rattle.version_slot.specs.declared.words.Version.{Version as VersionHeld};

use crate::bytes::{header, is_padded, line_bytes, link_of, previous_of, row_bytes, word_at};
use base::geometry::Geometry;
use base::key::Key;
use base::row::Row;

/// One version of a row.
#[derive(Clone, Copy, Debug, PartialEq, Eq)]
pub struct Version {
    pub key: Key,
    pub row: Row,
    /// The slot of the version before it, if it has one.
    pub previous: Option<u64>,
}

/// What the words of a slot hold: a version, the timestamp of the commit that wrote it, and that of the commit that
/// replaced it. A timestamp that isn't there is 0.
#[derive(Clone, Copy, Debug, PartialEq, Eq)]
pub struct Slot {
    pub begin: u64,
    pub end: u64,
    pub version: Version,
}

impl Slot {
    ghost use Rattle.std.specs.Prelude.{ℕ, ◌-◌, ◌*◌, ◌<◌, ◌≤◌, ◌≡◌, true, false, [], None, length, slice_index, IfSome, IfNone};
    ghost use Rattle.base.specs.Layout.{slot_words, used_words};
    ghost use Rattle.version_slot.specs.Words.{length_in, slot_byte, IsSlot, IsWellFormed};

    /// A place for what a slot's words hold: a row is large to pass on.
    pub fn empty() -> Slot
        ensures { result ≡ record { begin = 0; end = 0; version = record { key = record { table = 0; key = 0 }; row = []; previous = None } } }
    {
        Slot {
            begin: 0,
            end: 0,
            version: Version {
                key: Key { table: 0, key: 0 },
                row: Row::empty(),
                previous: None,
            },
        }
    }

    // Puts what these words hold into this place, and returns whether they hold anything.
    #[inline(always)]
    pub(crate) fn take_words(&mut self, words: &[u64; 64], geometry: Geometry) -> bool
        ensures some { result ≡ true → IsSlot geometry (slice_index words.now) self.new }
        ensures none { result ≡ false → (slot : Slot) → ¬ IsSlot geometry (slice_index words.now) slot }
    {
        if !is_well_formed(words, geometry) {
            return false;
        }
        let length = (words[3] >> 16) % 65_536;
        let count = geometry.used_words(length as usize);
        self.take(words, &row_bytes(words, count), geometry);
        true
    }

    // The same of the words of a slot of one line.
    #[inline(always)]
    pub(crate) fn take_line(&mut self, words: &[u64; 8], geometry: Geometry) -> bool
        requires { slot_words geometry.version ≡ 8 }
        ensures some { result ≡ true → IsSlot geometry (slice_index words.now) self.new }
        ensures none { result ≡ false → (slot : Slot) → ¬ IsSlot geometry (slice_index words.now) slot }
    {
        if !is_well_formed(words, geometry) {
            return false;
        }
        self.take(words, &line_bytes(words), geometry);
        true
    }

    // Puts what well-formed words hold into this place. The bytes are those of the row words.
    #[inline(always)]
    fn take(&mut self, words: &[u64], bytes: &[u8], geometry: Geometry)
        requires well { IsWellFormed geometry (slice_index words.now) }
        requires head { 4 ≤ length words.now }
        requires many { 8 * (used_words geometry.version (length_in (slice_index words.now)) - 4) ≤ length bytes.now }
        requires bytes { (i : ℕ) → i < 8 * (used_words geometry.version (length_in (slice_index words.now)) - 4) → slice_index bytes.now i ≡ slot_byte (slice_index words.now) i }
        ensures { IsSlot geometry (slice_index words.now) self.new }
    {
        let header = words[3];
        let length = (header >> 16) % 65_536;
        self.begin = words[0];
        self.end = words[1];
        self.version.key = Key {
            table: (header % 65_536) as u16,
            key: words[2],
        };
        self.version.previous = previous_of(header >> 32);
        self.version.row.assign(&bytes[..length as usize]);
    }

    /// What these words hold, of which a slot of one line has the first eight, and so on. They hold nothing if the row's length,
    /// a byte that counts past the row's end or the previous slot isn't as it should be.
    #[inline(always)]
    pub fn from_words(words: &[u64; 64], geometry: Geometry) -> Option<Slot>
        // The slot that has these words. None exactly if there is none.
        ensures some { IfSome result (IsSlot geometry (slice_index words.now)) }
        ensures none { IfNone result ((slot : Slot) → ¬ IsSlot geometry (slice_index words.now) slot) }
    {
        if !is_well_formed(words, geometry) {
            return None;
        }
        let header = words[3];
        let length = (header >> 16) % 65_536;
        let count = geometry.used_words(length as usize);
        let bytes = row_bytes(words, count);
        Some(Slot {
            begin: words[0],
            end: words[1],
            version: Version {
                key: Key {
                    table: (header % 65_536) as u16,
                    key: words[2],
                },
                row: Row::new(&bytes[..length as usize]).unwrap(),
                previous: previous_of(header >> 32),
            },
        })
    }
}

// Whether these words from the third on hold a version.
#[inline(always)]
fn is_well_formed(words: &[u64], geometry: Geometry) -> bool
    requires { slot_words geometry.version ≤ length words.now }
    ensures { IsTrue result ↔ IsWellFormed geometry (slice_index words.now) }
{
    let header = words[3];
    let length = (header >> 16) % 65_536;
    let link = header >> 32;
    if length > geometry.row_limit() as u64 || link > geometry.slots() {
        return false;
    }
    is_padded(words, length as usize, geometry.used_words(length as usize))
}

// The key of the version that these words from the third on hold.
pub(crate) fn held_key(words: &[u64], geometry: Geometry) -> Option<Key>
    requires slot { slot_words geometry.version ≤ length words.now }
    requires head { 4 ≤ length words.now }
    ensures some { IfSome result (λ key. (version : VersionHeld) × IsVersion geometry (slice_index words.now) version × (version.key ≡ key)) }
    ensures none { IfNone result ((version : VersionHeld) → ¬ IsVersion geometry (slice_index words.now) version) }
{
    if !is_well_formed(words, geometry) {
        return None;
    }
    Some(Key {
        table: (words[3] % 65_536) as u16,
        key: words[2],
    })
}

impl Version {
    ghost use Rattle.std.specs.Prelude.{◌≡◌, ◌≤◌, ◌<◌, ◌^◌, ℕ, [], ◌∷◌, length, slice_index};
    ghost use Rattle.version_slot.specs.Words.{filled_word, link_number};

    // The words of a slot of one line that is filled with this version, from the second on.
    #[inline(always)]
    pub(crate) fn line_words(&self) -> [u64; 7]
        requires link { link_number self.now.previous < 2 ^ 32 }
        ensures words { result ≡ filled_word self.now 1 ∷ filled_word self.now 2 ∷ filled_word self.now 3 ∷ filled_word self.now 4 ∷ filled_word self.now 5 ∷ filled_word self.now 6 ∷ filled_word self.now 7 ∷ [] }
        ensures table { self.now.key.table < 2 ^ 16 }
        ensures bytes { (i : ℕ) → slice_index self.now.row i < 2 ^ 8 }
    {
        let bytes = self.row.as_bytes();
        let Key { table, key } = self.key;
        let header = header(table, bytes.len(), link_of(self.previous));
        let first = word_at(bytes, 0);
        let second = word_at(bytes, 8);
        let third = word_at(bytes, 16);
        [0, key, header, first, second, third, word_at(bytes, 24)]
    }

    // Puts the words of a slot of `count` words that is filled with this version, from the second on, into their places.
    #[inline(always)]
    pub(crate) fn put_words(&self, count: usize, words: &mut [u64; 64])
        requires count { (4 ≤ count) × (count ≤ 64) }
        requires link { link_number self.now.previous < 2 ^ 32 }

        // These places get the words of a slot that is filled with the version, from the second word on. There are still 64
        // places.
        ensures size { length words.new ≡ 64 }
        ensures words { (w : ℕ) → 1 ≤ w → w < count → slice_index words.new w ≡ filled_word self.now w }

        // The table and the bytes are within their ranges.
        ensures table { self.now.key.table < 2 ^ 16 }
        ensures bytes { (i : ℕ) → slice_index self.now.row i < 2 ^ 8 }
    {
        let bytes = self.row.as_bytes();
        let Key { table, key } = self.key;
        words[1] = 0;
        words[2] = key;
        words[3] = header(table, bytes.len(), link_of(self.previous));
        for k in 0..count - 4 {
            words[4 + k] = word_at(bytes, 8 * k);
        }
    }
}
