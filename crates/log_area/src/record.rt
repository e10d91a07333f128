//! A record is read by making one from a few words and asking whether its own words are those that the place holds: so reading
//! and writing can't disagree.

ghost use Rattle.std.specs.Prelude.{◌≡◌, ◌+◌, ◌-◌, ◌*◌, ◌<◌, ◌≤◌, ◌&&◌, ℕ, length, nat_le, slice_index, slice_index_or};
ghost use Rattle.base.specs.Layout.{most_longs};
ghost use Rattle.base.specs.Records.{is_in, no_gap};

use crate::order::{are_in_order, are_longs, is_in};
use base::gap::{Gap, Gaps};
use base::longs::Longs;
use base::{NUMBER_LIMIT, Ts};
use std::marker::Model;

// What a place's word 3 counts once for each long commit; once for each gap it counts 1.
const LONG_COUNT: u64 = 1 << 32;

/// A group commit record: its number (the gate), the persisted and the dirty timestamp, the gaps, and the long commits.
#[derive(Clone, Copy, Debug, PartialEq, Eq)]
pub struct Record {
    gate: u64,
    persisted: u64,
    dirty: u64,
    gaps: Gaps,
    longs: Longs,
}

impl Model for Record {
    ghost use Rattle.base.specs.Records as records;

    ghost Value = { records.Record };

    ghost view = { λ r. record { gate = r.gate; persisted = r.persisted; dirty = r.dirty; gaps = r.gaps; longs = r.longs } };

    ghost inverse = { λ r. record { gate = r.gate; persisted = r.persisted; dirty = r.dirty; gaps = r.gaps; longs = r.longs } };
}

impl Record {
    ghost use Rattle.std.specs.Prelude.{◌⊎◌, ◌↔◌, ◌^◌, ◌/◌, ◌%◌, nat_lt, IfSome, IfNone, IsTrue};
    ghost use Rattle.base.specs.Records.{Record as Value, IsRecord, is_committed, is_well_formed, record_word};
    ghost use Rattle.log_area.specs.Codec.{IsReadFrom, NoneFits, FillsWords};

    pub fn new(gate: u64, persisted: u64, dirty: u64, gaps: Gaps, longs: Longs) -> Record
        ensures { result ≡ record { gate = gate; persisted = persisted; dirty = dirty; gaps = gaps; longs = longs } }
    {
        Record {
            gate,
            persisted,
            dirty,
            gaps,
            longs,
        }
    }

    /// Its number.
    pub fn gate(&self) -> u64
        ensures { result ≡ self.now.gate }
    {
        self.gate
    }

    /// The last timestamp that is committed, is in a gap or belongs to a long commit.
    pub fn persisted(&self) -> u64
        ensures { result ≡ self.now.persisted }
    {
        self.persisted
    }

    /// Above every timestamp that was drawn.
    pub fn dirty(&self) -> u64
        ensures { result ≡ self.now.dirty }
    {
        self.dirty
    }

    pub fn gaps(&self) -> Gaps
        ensures { result ≡ self.now.gaps }
    {
        self.gaps
    }

    /// The timestamps up to the persisted one that are drawn and not yet covered.
    pub fn longs(&self) -> Longs
        ensures { result ≡ self.now.longs }
    {
        self.longs
    }

    /// Does it commit the timestamp: is it persisted, in no gap, and not of a long commit?
    pub fn commits(&self, timestamp: Ts) -> bool
        ensures { result ≡ is_committed self.now timestamp }
    {
        1 <= timestamp
            && timestamp <= self.persisted
            && !is_in(self.gaps.as_slice(), timestamp)
            && !self.longs.contains(timestamp)
    }

    /// What a place that holds the record has in its word of this number, also if that word is unused.
    pub fn word(&self, word: usize) -> u64
        requires { word < 32 }
        ensures { result ≡ record_word self.now word }
    {
        match word {
            0 => self.gate,
            1 => self.persisted,
            2 => self.dirty,
            3 => self.count_word(),
            4..=19 => self.gap_word(word),
            _ => self.long_word(word),
        }
    }

    // A gap has two words, the first and the last timestamp in it.
    fn gap_word(&self, word: usize) -> u64
        requires low { 4 ≤ word }
        requires high { word < 20 }
        ensures { result ≡ record_word self.now word }
    {
        match self.gaps.as_slice().get((word - 4) / 2) {
            Some(gap) if word % 2 == 0 => gap.first,
            Some(gap) => gap.last,
            None => 0,
        }
    }

    // How many gaps there are, and how many long commits.
    fn count_word(&self) -> u64
        ensures { result ≡ length self.now.gaps + 2 ^ 32 * length self.now.longs }
    {
        self.gaps.as_slice().len() as u64 + LONG_COUNT * self.longs.as_slice().len() as u64
    }

    fn long_word(&self, word: usize) -> u64
        requires { 20 ≤ word }
        ensures { result ≡ slice_index self.now.longs (word - 20) }
    {
        match self.longs.as_slice().get(word - 20) {
            Some(timestamp) => *timestamp,
            None => 0,
        }
    }

    /// The record that a place's words hold in an image of this version.
    pub fn from_words(words: &[u64], version: u64) -> Option<Record>
        // None exactly if they hold none.
        ensures read { IfSome result (IsRecord version words.now) }
        ensures refused { IfNone result (NoneFits version words.now) }
    {
        let record = Record::candidate(words)?;
        if record.is_well_formed(version) && record.fills(words) {
            Some(record)
        } else {
            None
        }
    }

    // The only record that the words may hold.
    fn candidate(words: &[u64]) -> Option<Record>
        ensures read { IfSome result (IsReadFrom words.now) }
        ensures refused { IfNone result (length words.now ≡ 32
            → (8 < slice_index words.now 3 % 2 ^ 32) ⊎ (12 < slice_index words.now 3 / 2 ^ 32)) }
    {
        if words.len() != 32 {
            return None;
        }
        let gaps = words[3] % LONG_COUNT;
        let longs = words[3] / LONG_COUNT;
        if gaps > Gaps::LIMIT as u64 || longs > Longs::LIMIT as u64 {
            return None;
        }
        Some(Record::new(
            words[0],
            words[1],
            words[2],
            gaps_in(words, gaps as usize),
            longs_in(words, longs as usize),
        ))
    }

    /// Are its timestamps, gaps and long commits such as a sound image of this version may have?
    pub fn is_well_formed(&self, version: u64) -> bool
        ensures { result ≡ is_well_formed version self.now }
    {
        self.has_rising_timestamps()
            && self.longs.as_slice().len() <= most_longs(version)
            && are_in_order(self.gaps.as_slice(), self.persisted)
            && are_longs(self.longs.as_slice(), self.gaps.as_slice(), self.persisted)
    }

    fn has_rising_timestamps(&self) -> bool
        ensures { result ≡ (nat_lt self.now.persisted self.now.dirty && nat_lt self.now.dirty (2 ^ 62)) }
    {
        self.persisted < self.dirty && self.dirty < NUMBER_LIMIT
    }

    // Is each of the words the one that a place has if it holds the record?
    fn fills(&self, words: &[u64]) -> bool
        requires { length words.now ≡ 32 }
        ensures { IsTrue result ↔ FillsWords words.now self.now }
    {
        for word in 0..32 {
            if words[word] != self.word(word) {
                return false;
            }
        }
        true
    }
}

// How many long commits a record may name in an image of this version.
fn most_longs(version: u64) -> usize
    ensures { result ≡ most_longs version }
{
    if version == 1 { 0 } else { Longs::LIMIT }
}

// This many gaps from a place's words.
fn gaps_in(words: &[u64], count: usize) -> Gaps
    requires size { length words.now ≡ 32 }
    requires few { count ≤ 8 }
    ensures count { length result ≡ count }
    ensures each { (k : ℕ) → k < count
        → slice_index_or result k no_gap ≡ record { first = slice_index words.now (4 + 2 * k); last = slice_index words.now (5 + 2 * k) } }
{
    let mut gaps = Gaps::none();
    for i in 0..count {
        gaps.push(Gap {
            first: words[4 + 2 * i],
            last: words[5 + 2 * i],
        });
    }
    gaps
}

// This many long commits from a place's words.
fn longs_in(words: &[u64], count: usize) -> Longs
    requires size { length words.now ≡ 32 }
    requires few { count ≤ 12 }
    ensures count { length result ≡ count }
    ensures each { (k : ℕ) → k < count → slice_index result k ≡ slice_index words.now (20 + k) }
{
    let mut longs = Longs::none();
    for i in 0..count {
        longs.push(words[20 + i]);
    }
    longs
}
